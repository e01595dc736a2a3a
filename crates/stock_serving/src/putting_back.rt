//! A keeper that goes back to its shelf.
ghost use Rattle.std.specs.Prelude.{◌≡◌, Some, IfSome};
ghost use Rattle.stock_keeper.specs.Keeping.{Within};

use stock_keeper::keeper::Keeper;
use stock_keeper::shelf::Shelf;

/// A keeper is back on its shelf. Only `put_back` makes one.
#[derive(Drop)]
pub struct PutBack(());

/// Puts the keeper back. What may be done only then asks for what this returns.
pub fn put_back<H: Shelf>(shelf: &mut H, keeper: H::Kept) -> PutBack
    ensures tables { Within (H.Kept.tells keeper) (H.tells shelf.new) }
    ensures plan { IfSome (H.plan shelf.new) (λ numbers. H.Kept.plan keeper ≡ Some numbers) }
    ensures kept_faults { H.kept_faults shelf.new ≡ H.Kept.faults keeper }
    ensures faults_kept { H.faults shelf.new ≡ H.faults shelf.old }
    ensures opened_kept { H.opened shelf.new ≡ H.opened shelf.old }
    ensures openings_kept { H.openings shelf.new ≡ H.openings shelf.old }
{
    shelf.put_back(keeper);
    PutBack(())
}
