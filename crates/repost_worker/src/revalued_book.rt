//! A book that is revalued by turns of its own.
ghost use Rattle.std.specs.Prelude.{◌≡◌, ◌⊎◌, ◌<◌, List, [], ◌∷◌, ◌++◌, IfOk, OnOk, OnErr, IfErr, IfSome, None};
ghost use Rattle.stock_model.specs.declared.deeds.Deed.{Deed};
ghost use Rattle.stock_model.specs.declared.deeds.Deed.TheVariants as deed;
ghost use Rattle.stock_model.specs.Faults.{fault};
ghost use Rattle.stock_model.specs.History as history;
ghost use Rattle.stock_keeper.specs.Calls.{IsDone};
ghost use Rattle.kept_tables.specs.Kept.{IsKept};
ghost use Rattle.repost_build.specs.Readings.{target_of};
ghost use Rattle.generation_book.specs.Refusals.{IsRefusalOf, IsAfterRefusal};
ghost use Rattle.repost_worker.specs.Paces.{pace_of, first_pace, IsInPace, IsSamePace, WorksInPace, StopsInPace};
ghost use Rattle.repost_worker.specs.Published.{Publishes};
ghost use Rattle.repost_worker.specs.Turns.{IsWorkOf};

use crate::run::{Ran, run_turns};
use generation_book::book::Book;
use repost_build::build::Build;
use std::alloc::Global;
use std::marker::{Brand, Model};
use std::sync::ledger::{Blank, Ledger};
use stock_keeper::keeper::Keeper;
use stock_keeper::nowhere::Nowhere;
use stock_model::faults::PostFault;
use stock_model::records::Record;
use stock_nums::numbers::RecordNo;
use stock_nums::steps::Steps;

/// A book, with a build that works for it. Contracts see the book's history, what its keeper tells of its calls, and how far the
/// build has come.
#[derive(Drop)]
pub struct RevaluedBook<K: Keeper> {
    book: Book<K>,
    build: Build,
}

impl<K: Keeper> Model for RevaluedBook<K> {
    ghost use Rattle.repost_worker.specs.Paces.{Pace, pace_of};
    ghost use Rattle.repost_worker.specs.Turns.{IsWorkOf};

    ghost Value = { Pace };

    ghost view = { λ revalued. pace_of revalued.book revalued.build };

    ghost invariant = { λ revalued. IsWorkOf revalued.book.history revalued.build };
}

impl RevaluedBook<Nowhere> {
    /// The empty book, which is kept nowhere. It takes no memory.
    pub fn start(alloc: Global) -> RevaluedBook<Nowhere>
        ensures { result ≡ first_pace }
    {
        RevaluedBook {
            book: Book::start(alloc),
            build: Build::new(alloc),
        }
    }

    /// The same book over a keeper of its history, which is its opening then, as `Book::with_keeper` makes it.
    pub fn with_keeper<K: Keeper>(self, keeper: K) -> RevaluedBook<K>
        ghost tried: { List Deed }
        requires kept { IsKept (K.tells keeper) (K.may_leave keeper) self.history tried }
        ensures history { result.history ≡ self.history }
        ensures faults { result.keeper.faults ≡ K.faults keeper }
        ensures plan { result.keeper.plan ≡ K.plan keeper }
        ensures calls { result.keeper.calls ≡ K.calls keeper }
        ensures pace { IsSamePace self result }
    {
        let RevaluedBook { book, build } = self;
        RevaluedBook {
            book: book.with_keeper(keeper),
            build,
        }
    }
}

impl<K: Keeper> RevaluedBook<K> {
    /// The book itself, for reports.
    pub fn book(&self) -> &Book<K>
        ensures history { result.now.history ≡ self.now.history }
        ensures keeper { result.now.keeper ≡ self.now.keeper }
        ensures in_pace { IsInPace self.now }
    {
        &self.book
    }

    /// The book, for good.
    pub fn into_book(self) -> Book<K>
        ensures history { result.history ≡ self.history }
        ensures keeper { result.keeper ≡ self.keeper }
    {
        let RevaluedBook { book, build: _ } = self;
        book
    }

    /// The book with a build that works for it.
    pub fn from_parts(book: Book<K>, build: Build) -> RevaluedBook<K>
        requires work { IsWorkOf book.history build }
        ensures pace { result ≡ pace_of book build }
    {
        RevaluedBook { book, build }
    }

    /// The book and the build that works for it, for good.
    pub fn into_parts(self) -> (Book<K>, Build)
        ensures pace { pace_of result.0 result.1 ≡ self }
        ensures work { IsWorkOf result.0.history result.1 }
    {
        let RevaluedBook { book, build } = self;
        (book, build)
    }

    /// Accepts a record, or refuses it for its first fault, as `Book::post` does. No movement is revalued.
    pub fn post(&mut self, alloc: Global, item: Record) -> Result<RecordNo, PostFault>
        ensures sound { OnOk result (fault (history.records self.old.history) item ≡ None) }
        ensures kept { OnOk result (self.new.history ≡ self.old.history ++ deed.Kept item ∷ []) }
        ensures number { IfOk result (λ n. n.0 ≡ history.accepted self.new.history) }
        ensures fault { IfErr result (IsRefusalOf (history.records self.old.history) item) }
        ensures unchanged { OnErr result (self.new.history ≡ self.old.history) }
        ensures done { OnOk result (IsDone self.old.keeper self.new.keeper) }
        ensures refused { IfErr result (λ f. IsAfterRefusal f self.old.keeper self.new.keeper) }
        ensures pace { IsSamePace self.old self.new }
        ensures legal { OnOk result (history.IsLegal self.new.history) }
    {
        self.book.post(alloc, item)
    }

    /// Makes so many turns of a worker, or fewer where there is no more to do, and all that there are where no number is given.
    /// Answers how many records the reports cover then, or why a turn was refused; what turns before it published stands.
    pub fn work(&mut self, alloc: Global, turns: Option<u32>) -> Ran
        requires some { IfSome turns (λ n. 0 < n) }
        ensures publishes { Publishes result.stopped self.old.history self.old.keeper self.new.history self.new.keeper }
        ensures covered { result.covered.0 ≡ history.covered self.new.history }
        ensures pace { IfSome turns (λ n. result.stopped ≡ None → WorksInPace self.old n self.new) }
        ensures stops { IfSome result.stopped (λ fault. StopsInPace fault self.old turns self.new) }
        ensures in_pace { IsInPace self.new }
        ensures all { turns ≡ None → result.stopped ≡ None → history.covered self.new.history ≡ history.accepted self.new.history }

        // Where no record had been taken in that was not covered, all that wait are published at once.
        ensures once { turns ≡ None → result.stopped ≡ None → self.old.known ≡ history.covered self.old.history
            → self.new.history ≡ history.settled self.old.history }
        ensures legal { history.IsLegal self.old.history → history.IsLegal self.new.history }
    {
        counted::<K, Brand>(alloc, &mut self.book, &mut self.build, turns, Blank::new(1))
    }
}

// Makes the turns, and counts their steps.
fn counted<K: Keeper, L: Ledger>(
    alloc: Global,
    book: &mut Book<K>,
    build: &mut Build,
    turns: Option<u32>,
    blank: Blank,
) -> Ran
    requires name { blank.name ≡ L.name }
    requires parts { blank.parts ≡ L.parts }
    requires some_parts { 0 < L.parts }
    requires work { IsWorkOf book.old.history build.old }
    requires some { IfSome turns (λ n. 0 < n) }
    ensures work { IsWorkOf book.new.history build.new }
    ensures pace { IfSome turns (λ n. result.stopped ≡ None → WorksInPace (pace_of book.old build.old) n (pace_of book.new build.new)) }
    ensures stops { IfSome result.stopped (λ fault. StopsInPace fault (pace_of book.old build.old) turns (pace_of book.new build.new)) }
    ensures in_pace { IsInPace (pace_of book.new build.new) }
    ensures publishes { Publishes result.stopped book.old.history book.old.keeper book.new.history book.new.keeper }
    ensures covered { result.covered.0 ≡ history.covered book.new.history }
    ensures all { turns ≡ None → result.stopped ≡ None → history.covered book.new.history ≡ history.accepted book.new.history }
    ensures once { turns ≡ None → result.stopped ≡ None → target_of build.old ≡ history.covered book.old.history
        → book.new.history ≡ history.settled book.old.history }
    ensures legal { history.IsLegal book.old.history → history.IsLegal book.new.history }
{
    let mut steps = Steps::<L>::new(blank);
    run_turns(alloc, book, build, turns, &mut steps)
}
