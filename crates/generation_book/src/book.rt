//! The book: records that are kept, and the generation that reports are made from.

ghost use Rattle.std.specs.Prelude.{◌≡◌, ◌⊎◌, ◌<◌, ◌≤◌, List, [], ◌∷◌, ◌++◌, length, take, drop, filter, IfOk, OnOk, OnErr, IfErr, Some, None};
ghost use Rattle.std.specs.Option.{option_copied};
ghost use Rattle.stock_io.specs.Counts.{raised};
ghost use Rattle.stock_model.specs.declared.deeds.Deed.{Deed};
ghost use Rattle.stock_model.specs.declared.deeds.Deed.TheVariants as deed;
ghost use Rattle.stock_model.specs.Reports.{need_at, unmet_need, selected, IsSelected};
ghost use Rattle.stock_model.specs.Entries.{entries};
ghost use Rattle.stock_model.specs.Faults.{voucher_fault, full, fault_but_short, fault, short_of};
ghost use Rattle.stock_model.specs.History as history;
ghost use Rattle.stock_model.specs.Masters.{record_at};
ghost use Rattle.stock_model.specs.Replay.{replay};
ghost use Rattle.stock_keeper.specs.Calls.{IsDone, IsRefused};
ghost use Rattle.repost_fetch.specs.Changes.{AreChanges};
ghost use Rattle.repost_fetch.specs.Fetched.{IsFetchedOf};
ghost use Rattle.kept_tables.specs.Kept.{IsKept};
ghost use Rattle.generation_book.specs.State.{first_book};
ghost use Rattle.generation_book.specs.ClosedRows.{HasClosedRows};
ghost use Rattle.record_effects.specs.Effects.{gone_with};
ghost use Rattle.generation_book.specs.Handed.{IsHanded, AreHanded};
ghost use Rattle.generation_book.specs.Refusals.{refusal_of, IsRefusalOf, IsAfterRefusal, HasTried, HasTriedFor, HasAsked, HasAskedFor};

use crate::covered_heads::covered_heads;
use crate::events::Event;
use crate::tried::Tried;
use cost_links::replay;
use kept_tables::publishing::changes_of;
use quantity_check::running::Running;
use record_effects::effect::Effect;
use report_selection::until::rows_until;
use repost_fetch::fetch::{Fetched, fetch};
use shared_list::blocks::SharedBlocks;
use shared_list::list::SharedList;
use std::alloc::Global;
use std::marker::Model;
use stock_keeper::changes::Changes;
use stock_keeper::fault::KeepFault;
use stock_keeper::keeper::Keeper;
use stock_keeper::nowhere::Nowhere;
use stock_model::faults::PostFault;
use stock_model::movements;
use stock_model::queries::{Need, Query, SelectFault, Selected};
use stock_model::records::Record;
use stock_model::shortages::Shortage;
use stock_nums::entry::Row;
use stock_nums::head::Head;
use stock_nums::limits::{MAX_ENTRIES, MAX_RECORDS};
use stock_nums::lines::Lines;
use stock_nums::memory::NoMemory;
use stock_nums::moment::Moment;
use stock_nums::numbers::RecordNo;
use stock_nums::place::Spot;
use voucher_json::record_texts::record_text;
use voucher_kinds::journal::Journal;

/// The accepted records, the generation that reports are made from, which is the valued movements of the first `covered`
/// records, and what keeps both. Contracts see its history, what was tried and refused since the keeper last did what it was asked
/// for, and what the keeper tells of its calls; the tables of the keeper are those of the history, where it tells them.
#[derive(Drop)]
pub struct Book<K: Keeper> {
    keeper: K,
    tried: Tried,
    /// How many calls of its keeper were made, the one by which it was loaded included. It stays at its end.
    calls: u64,
    /// How many events its history began with.
    opened: usize,
    journal: Journal,
    events: Vec<Event>,
    /// The movements of all accepted records, in posting order, with which no warehouse lacks anything.
    movements: Running,
    covered: RecordNo,
    /// The valued movements of the covered records, and their items and warehouses. Reports hold them too, for as long as they
    /// last.
    rows: SharedBlocks<Row>,
    heads: SharedList<Head>,
}

impl<K: Keeper> Model for Book<K> {
    ghost use Rattle.std.specs.Prelude.{◌≡◌, ◌≤◌, length, take};
    ghost use Rattle.stock_model.specs.Masters as masters;
    ghost use Rattle.generation_book.specs.State.{BookState};
    ghost use Rattle.generation_book.specs.Book.{deeds, IsBook};
    ghost use Rattle.kept_tables.specs.Kept.{IsKept};

    ghost Value = { BookState };

    ghost view = { λ book. record {
      history = deeds book.events.items book.journal;
      opened = book.opened;
      tried = book.tried.events;
      calls = book.calls;
      keeper = record { faults = K.faults book.keeper; plan = K.plan book.keeper; calls = K.calls book.keeper };
    } };

    ghost invariant = { λ book. IsBook book.events.items book.journal book.movements.entries book.covered.0 book.rows
        × IsKept (K.tells book.keeper) (K.may_leave book.keeper) (deeds book.events.items book.journal) book.tried.events
        × (book.opened ≤ length book.events.items)
        × (book.heads ≡ masters.heads (take book.covered.0 book.journal)) };
}

impl Book<Nowhere> {
    /// The empty book, which is kept nowhere. It takes no memory.
    pub fn start(alloc: Global) -> Book<Nowhere>
        ensures { result ≡ first_book }
    {
        Book {
            keeper: Nowhere::new(alloc),
            tried: Tried::new(),
            calls: 0,
            opened: 0,
            journal: Journal::new(alloc),
            events: Vec::new(alloc),
            movements: Running::new(alloc),
            covered: RecordNo(0),
            rows: SharedBlocks::new(),
            heads: SharedList::new(),
        }
    }

    /// The same book over a keeper of its history, which is its opening then, and was loaded by one call. `tried` are the events
    /// for which the keeper was refused since it last did what it was asked for: a crash leaves the tables of the history, or those
    /// with one of these.
    pub fn with_keeper<K: Keeper>(self, keeper: K) -> Book<K>
        ghost tried: { List Deed }
        requires kept { IsKept (K.tells keeper) (K.may_leave keeper) self.history tried }
        ensures history { result.history ≡ self.history }
        ensures opened { result.opened ≡ length self.history }
        ensures tried { result.tried ≡ tried }
        ensures faults { result.keeper.faults ≡ K.faults keeper }
        ensures plan { result.keeper.plan ≡ K.plan keeper }
        ensures calls { result.keeper.calls ≡ K.calls keeper }
        ensures called { result.calls ≡ 1 }
    {
        Book {
            keeper,
            tried: Tried::of(),
            calls: 1,
            opened: self.events.as_slice().len(),
            journal: self.journal,
            events: self.events,
            movements: self.movements,
            covered: self.covered,
            rows: self.rows,
            heads: self.heads,
        }
    }
}

impl<K: Keeper> Book<K> {
    /// Accepts a record, or refuses it for its first fault. Reports stay as they were. All memory is taken first and the keeper is
    /// called last, so that nothing is refused after the keeper has the record.
    ///
    /// # Errors
    ///
    /// The record's first fault; `KeeperFailed` where it has none and the keeper failed; `NoMemory`, which may be wanting only
    /// where the record has no fault but perhaps a shortage. The history stays.
    pub fn post(&mut self, alloc: Global, item: Record) -> Result<RecordNo, PostFault>
        ensures sound { OnOk result (fault (history.records self.old.history) item ≡ None) }
        ensures kept { OnOk result (self.new.history ≡ self.old.history ++ deed.Kept item ∷ []) }
        ensures number { IfOk result (λ n. n.0 ≡ history.accepted self.new.history) }
        ensures fault { IfErr result (IsRefusalOf (history.records self.old.history) item) }
        ensures unchanged { OnErr result (self.new.history ≡ self.old.history) }
        ensures opened { self.new.opened ≡ self.old.opened }
        ensures done { OnOk result (IsDone self.old.keeper self.new.keeper) }
        ensures refused { IfErr result (λ f. IsAfterRefusal f self.old.keeper self.new.keeper) }

        // What a crash may leave beside the tables of the history has one of the events that were tried.
        ensures settled { OnOk result (self.new.tried ≡ []) }
        ensures tried { IfErr result (λ f. HasTriedFor f (deed.Kept item) self.old.tried self.new.tried) }
        ensures called { OnOk result (self.new.calls ≡ raised self.old.calls) }
        ensures asked { IfErr result (λ f. HasAskedFor f self.old.calls self.new.calls) }
        ensures legal { OnOk result (history.IsLegal self.new.history) }

        // What is closed stays: the replay of all records has just the rows up to a closed moment that it had.
        ensures closed { OnOk result (HasClosedRows self.old.history self.new.history) }
    {
        let effect = match self.effect_of(alloc, &item) {
            Ok(effect) => effect,
            Err(fault) => return Err(fault),
        };
        let Ok(text) = handed_text(alloc, &self.keeper, &item) else {
            return Err(PostFault::NoMemory);
        };
        if self.events.reserve(1).is_err() {
            return Err(PostFault::NoMemory);
        }
        if self.movements.reserve(effect.adds.len()).is_err() {
            return Err(PostFault::NoMemory);
        }
        let tried = self.tried.with_kept(&item);
        let Ok(number) = self.journal.push(item) else {
            return Err(PostFault::NoMemory);
        };
        self.calls = one_more(self.calls);
        if let Err(fault) = self.keeper.append(number, text.as_slice()) {
            self.journal.pop();
            self.tried = tried;
            return Err(refusal_of(fault));
        }
        self.tried = Tried::new();
        self.events.push_reserved(Event::Kept);
        self.movements
            .change(effect.adds.as_slice(), effect.gone.as_slice());
        Ok(number)
    }

    /// What a record that has no fault does to the movements, or its first fault.
    fn effect_of(&self, alloc: Global, item: &Record) -> Result<Effect, PostFault>
        ensures sound { OnOk result (fault (history.records self.now.history) item.now ≡ None) }
        ensures adds { IfOk result (λ effect. effect.adds ≡ entries (history.records self.now.history) item.now) }
        ensures gone { IfOk result (λ effect. effect.gone ≡ gone_with (history.records self.now.history) item.now) }
        ensures fault { IfErr result (λ f. (f ≡ PostFault.NoMemory) × (fault_but_short (history.records self.now.history) item.now ≡ None)
            ⊎ (fault (history.records self.now.history) item.now ≡ Some f)) }
    {
        if let Some(fault) = self.fault_but_short(item) {
            return Err(fault);
        }
        let Ok(effect) = Effect::of(alloc, &self.journal, item) else {
            return Err(PostFault::NoMemory);
        };
        let (adds, gone) = (effect.adds.as_slice(), effect.gone.as_slice());
        match self.movements.try_change(adds, gone) {
            Ok(()) => Ok(effect),
            Err(shortage) => Err(fault_of(&shortage)),
        }
    }

    /// The first fault of a record but a shortage. It takes no memory.
    fn fault_but_short(&self, item: &Record) -> Option<PostFault>
        ensures { result ≡ fault_but_short (history.records self.now.history) item.now }
    {
        match self.journal.fault(item) {
            Some(fault) => Some(fault),
            None => self.full(item),
        }
    }

    /// Whether there is no room for a record without a fault of its own. It takes no memory.
    fn full(&self, item: &Record) -> Option<PostFault>
        requires { voucher_fault (history.records self.now.history) item.now.what ≡ None }
        ensures { result ≡ full (history.records self.now.history) item.now }
    {
        let records = self.journal.count();
        let held = self.movements.timeline().len();
        if records as usize >= MAX_RECORDS || movements::count(item) > MAX_ENTRIES - held {
            return Some(PostFault::Full {
                records,
                entries: held as u32,
            });
        }
        None
    }

    /// The replay of all accepted records from nothing: what turns of a worker come to, for those who compare. The only error is
    /// want of memory.
    pub fn replayed(&self, alloc: Global) -> Result<Lines<Row>, NoMemory>
        ensures { IfOk result (λ rows. rows ≡ replay (history.records self.now.history)) }
    {
        let line = self.movements.timeline().to_lines(alloc)?;
        replay::rows_of(alloc, self.journal.records(), line.as_slice())
    }

    /// The movements of the covered records with what each is worth, in posting order.
    pub fn rows(&self) -> &SharedBlocks<Row>
        ensures { result.now ≡ replay (history.covered_records self.now.history) }
    {
        &self.rows
    }

    /// What the records after the first `after` ones bring to a revaluation and take back: the movements that come and that go, in
    /// the order of the records, and what is charged to lines of receipts, none where there are no more. The only error is want of
    /// memory.
    pub fn fetch(&self, alloc: Global, after: RecordNo) -> Result<Fetched, NoMemory>
        requires within { after.0 ≤ history.accepted self.now.history }
        ensures { IfOk result (IsFetchedOf (take after.0 (history.records self.now.history))
            (drop after.0 (history.records self.now.history))) }
    {
        fetch(alloc, &self.journal, after)
    }

    /// Publishes the first `n` records. `rows` are those of their replay, made beforehand, and become the generation; of these
    /// `changed` are those that differ from the rows of the generation before or are new, in posting order, and rows that stayed may
    /// be among them. `gone` are the spots of the rows of the generation before whose records are in force no more. It goes over
    /// what changed and the records that were not covered, and over no other row. All memory is taken first and the keeper is
    /// called last. The generation before is answered, so that whoever has the book under a lock may free it once the book is given
    /// back.
    ///
    /// # Errors
    ///
    /// `Failed` where the keeper failed; `NoMemory` for want of memory, or where 2^63 hold the rows already. The history stays.
    pub fn publish(
        &mut self,
        alloc: Global,
        n: RecordNo,
        rows: &SharedBlocks<Row>,
        changed: &[Row],
        gone: &[Spot],
    ) -> Result<SharedBlocks<Row>, KeepFault>
        requires later { history.covered self.old.history < n.0 }
        requires within { n.0 ≤ history.accepted self.old.history }
        requires rows { rows.now ≡ replay (take n.0 (history.records self.old.history)) }
        requires changed { AreChanges (take n.0 (history.records self.old.history)) (history.covered self.old.history) changed.now gone.now }
        ensures before { IfOk result (λ before. before ≡ replay (history.covered_records self.old.history)) }
        ensures published { OnOk result (self.new.history ≡ self.old.history ++ deed.Published n ∷ []) }
        ensures unchanged { OnErr result (self.new.history ≡ self.old.history) }
        ensures opened { self.new.opened ≡ self.old.opened }
        ensures done { OnOk result (IsDone self.old.keeper self.new.keeper) }
        ensures refused { IfErr result (λ f. IsRefused f self.old.keeper self.new.keeper) }

        // As after a post.
        ensures settled { OnOk result (self.new.tried ≡ []) }
        ensures tried { IfErr result (λ f. HasTried f (deed.Published n) self.old.tried self.new.tried) }
        ensures called { OnOk result (self.new.calls ≡ raised self.old.calls) }
        ensures asked { IfErr result (λ f. HasAsked f self.old.calls self.new.calls) }
        ensures legal { OnOk result (history.IsLegal self.new.history) }
    {
        let before = self.rows.share()?;
        let generation = rows.share()?;
        let records = &self.journal.records()[..n.0 as usize];
        let heads = covered_heads(alloc, &self.heads, records, self.covered)?;
        let changes = handed_changes(alloc, &self.keeper, changed, gone)?;
        if self.events.reserve(1).is_err() {
            return Err(KeepFault::NoMemory);
        }
        self.calls = one_more(self.calls);
        if let Err(fault) = self.keeper.publish(n, &changes) {
            self.tried = self.tried.with_published(&n);
            return Err(fault);
        }
        self.tried = Tried::new();
        self.events.push_reserved(Event::Published(n));
        self.covered = n;
        self.rows = generation;
        self.heads = heads;
        Ok(before)
    }

    /// Whether the generation covers the record that the report has to cover. It takes no memory.
    pub fn test(&self, query: &Query) -> Need
        ensures { result ≡ need_at self.now.history query.now }
    {
        let wanted = query.need_of();
        let (covered, accepted) = (self.covered, RecordNo(self.journal.count()));
        if wanted.0 <= covered.0 {
            Need::Ready
        } else if wanted.0 <= accepted.0 {
            Need::Pending { covered, wanted }
        } else {
            Need::NoSuchRecord { accepted, wanted }
        }
    }

    /// What the query's report is made from, or why the generation is none that it can be made from. It holds the generation's
    /// own movements, items and warehouses, and copies of none, so that whoever has the book under a lock may give it back
    /// before the report is written.
    ///
    /// # Errors
    ///
    /// The need, where it is not met; `NoMemory`: 2^63 hold the generation already.
    pub fn select(&self, query: &Query) -> Result<Selected, SelectFault>
        ensures ready { OnOk result (need_at self.now.history query.now ≡ Need.Ready) }
        ensures selected { IfOk result (λ chosen. chosen ≡ selected self.now.history query.now) }
        ensures of_book { IfOk result (IsSelected query.now) }
        ensures fault { IfErr result (λ f. (f ≡ SelectFault.NoMemory) × (need_at self.now.history query.now ≡ Need.Ready)
            ⊎ (unmet_need (need_at self.now.history query.now) ≡ Some f)) }
    {
        match self.test(query) {
            Need::Ready => self
                .generation(query.until)
                .map_err(|_| SelectFault::NoMemory),
            Need::Pending { covered, wanted } => Err(SelectFault::Pending { covered, wanted }),
            Need::NoSuchRecord { accepted, wanted } => {
                Err(SelectFault::NoSuchRecord { accepted, wanted })
            }
        }
    }

    /// The generation up to a moment, from which a report whose need is met is made.
    fn generation(&self, until: Option<Moment>) -> Result<Selected, NoMemory>
        ensures selected { IfOk result (λ chosen. (query : Query) → query.until ≡ until → chosen ≡ selected self.now.history query) }
        ensures of_book { IfOk result (λ chosen. (query : Query) → query.until ≡ until → IsSelected query chosen) }
    {
        Ok(Selected {
            covered: self.covered,
            rows: rows_until(&self.rows, until)?,
            heads: self.heads.share()?,
        })
    }

    /// The accepted records, in the order of their numbers, covered or not. It takes no memory.
    pub fn journal(&self) -> &Journal
        ensures { result.now ≡ history.records self.now.history }
    {
        &self.journal
    }

    /// The accepted record with this number. None exactly where the number is 0 or above accepted. It
    /// takes no memory.
    pub fn at(&self, number: RecordNo) -> Option<&Record>
        ensures { option_copied result ≡ record_at (history.records self.now.history) number.0 }
    {
        self.journal.at(number)
    }

    /// How many records are accepted.
    pub fn accepted(&self) -> RecordNo
        ensures accepted { result.0 ≡ history.accepted self.now.history }
        ensures legal { history.IsLegal self.now.history }
    {
        RecordNo(self.journal.count())
    }

    /// How many records the reports cover.
    pub fn covered(&self) -> RecordNo
        ensures covered { result.0 ≡ history.covered self.now.history }
        ensures within { history.covered self.now.history ≤ history.accepted self.now.history }
    {
        self.covered
    }

    /// How many events the history began with.
    pub fn opened(&self) -> usize
        ensures { result ≡ self.now.opened }
    {
        self.opened
    }

    /// How many calls of its keeper were made, the one by which it was loaded included. It stays at 2^64 - 1 once it is there. It
    /// takes no memory.
    pub fn calls(&self) -> u64
        ensures { result ≡ self.now.calls }
    {
        self.calls
    }

    /// The keeper, for good. A crash leaves the tables of the history, or those with one of the events that were tried.
    pub fn into_keeper(self) -> K
        ensures kept { IsKept (K.tells result) (K.may_leave result) self.history self.tried }
        ensures faults { K.faults result ≡ self.keeper.faults }
        ensures plan { K.plan result ≡ self.keeper.plan }
        ensures calls { K.calls result ≡ self.keeper.calls }
    {
        let Book {
            keeper,
            tried: _,
            calls: _,
            opened: _,
            journal: _,
            events: _,
            movements: _,
            covered: _,
            rows: _,
            heads: _,
        } = self;
        keeper
    }
}

// What a keeper is handed of a record: its stored text, or nothing where nothing is kept. The only error is want of memory.
fn handed_text<K: Keeper>(alloc: Global, keeper: &K, item: &Record) -> Result<Lines<u8>, NoMemory>
    ensures { IfOk result (IsHanded (K.tells keeper.now) (K.may_leave keeper.now) item.now) }
{
    if keeper.is_lasting() {
        record_text(alloc, item)
    } else {
        Ok(Lines::new(alloc))
    }
}

// What a keeper is handed of a publication: the changes that put the rows' worths in and take out those that are gone, or none
// where nothing is kept. The only error is want of memory.
fn handed_changes<K: Keeper>(
    alloc: Global,
    keeper: &K,
    changed: &[Row],
    gone: &[Spot],
) -> Result<Changes, NoMemory>
    ensures { IfOk result (AreHanded (K.tells keeper.now) (K.may_leave keeper.now) changed.now gone.now) }
{
    if keeper.is_lasting() {
        changes_of(alloc, changed, gone)
    } else {
        changes_of(alloc, &[], &[])
    }
}

// A count of calls after one more.
fn one_more(calls: u64) -> u64
    ensures { result ≡ raised calls }
{
    calls.saturating_add(1)
}

// Why a post is refused that the keeper refused.
fn refusal_of(fault: KeepFault) -> PostFault
    ensures { result ≡ refusal_of fault }
{
    match fault {
        KeepFault::Failed => PostFault::KeeperFailed,
        KeepFault::NoMemory => PostFault::NoMemory,
    }
}

// The fault of a record with which some movement takes more than there is.
fn fault_of(shortage: &Shortage) -> PostFault
    ensures { result ≡ short_of shortage.now }
{
    PostFault::Short {
        place: shortage.place,
        item: shortage.item,
        store: shortage.store,
        lacking: shortage.lacking,
    }
}
