//! The book as a value under a lock, which hands it out in turn.

use crate::book::Book;
use stock_keeper::keeper::Keeper;
use stock_model::deeds::Deed;
use turn_lock::logged::Logged;

impl<K: Keeper> Logged for Book<K> {
    ghost use Rattle.std.specs.Prelude.{ℕ, length};
    ghost use Rattle.std.proofs.Common.{sym, subst};
    ghost use Rattle.std.proofs.Math.Nat.{le_refl, sub_self};
    ghost use Rattle.session_laws.specs.Makers.{with_makers};
    ghost use Rattle.stock_keeper.specs.Calls.{HasCalled};
    ghost use Rattle.stock_keeper.proofs.Calls.{called-none};
    ghost use Rattle.generation_book.specs.Follows.{start_of, Follows};

    type Event = Deed;

    ghost history = { λ book. with_makers book.history };

    ghost faults = { λ book. book.keeper.faults };

    ghost start = { start_of };

    ghost follows = { Follows };

    ghost starts = { λ book. record {
      longer = le_refl (length book.history);
      called = subst (λ (n : ℕ). HasCalled n book.keeper.plan book.keeper.calls book.keeper)
          (sym (sub_self (length book.history))) (called-none book.keeper);
    } };
}
