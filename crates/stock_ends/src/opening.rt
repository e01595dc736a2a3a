//! What a run over a ledger that is kept begins with, and what it leaves.
ghost use Rattle.std.specs.Prelude.{◌≡◌, List};
ghost use Rattle.stock_model.specs.declared.deeds.Deed.{Deed};
ghost use Rattle.kept_tables.specs.Kept.{IsKept};
ghost use Rattle.stock_ends.specs.Openings.{end_of, end_of_refusal};

use crate::damage::Damage;
use crate::end::End;
use kept_tables::open_fault::OpenFault;
use repost_worker::revalued_book::RevaluedBook;
use stock_keeper::fault::KeepFault;
use stock_keeper::keeper::Keeper;

/// The keeper of a book, for good.
pub fn keeper_of<K: Keeper>(book: RevaluedBook<K>) -> K
    ensures kept { (tried : List Deed) × IsKept (K.tells result) (K.may_leave result) book.history tried }
    ensures plan { K.plan result ≡ book.keeper.plan }
    ensures faults { K.faults result ≡ book.keeper.faults }
{
    book.into_book().into_keeper()
}

/// How a run ends over tables with this fault.
pub fn end_of(fault: OpenFault) -> End
    ensures { result ≡ end_of fault }
{
    match fault {
        OpenFault::KeeperFailed => End::StoreFailed,
        OpenFault::BadHead {
            version: _,
            covered: _,
            records: _,
        } => End::Damaged(Damage::Head),
        OpenFault::BadStored { number } => End::Damaged(Damage::Record { number }),
        OpenFault::StoredDiffers(difference) => {
            End::Damaged(Damage::Worth {
                spot: difference.spot,
            })
        }
        OpenFault::NoMemory => End::NoMemory,
    }
}

/// How a run ends where a shelf or a keeper refuses a call for this.
pub fn end_of_refusal(fault: KeepFault) -> End
    ensures { result ≡ end_of_refusal fault }
{
    match fault {
        KeepFault::Failed => End::StoreFailed,
        KeepFault::NoMemory => End::NoMemory,
    }
}
