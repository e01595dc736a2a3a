//! An import under way: vouchers of a sheet go in one after another, and the lines that tell them wait to be written.
ghost use Rattle.std.specs.Prelude.{◌≡◌};
ghost use Rattle.stock_import.specs.Posts.{is_accepted};

use repost_worker::revalued_book::RevaluedBook;
use sheet_io::lines::{push_diffs, push_wide};
use std::alloc::Global;
use stock_batch::answering;
use stock_batch::waiting::append_answer;
use stock_count::plan::{CountFault, CountPlan};
use stock_count::planning::plan_count;
use stock_io::failed::Failed;
use stock_io::sink::{Sink, write_all};
use stock_keeper::keeper::Keeper;
use stock_model::answers::Answer;
use stock_model::replies::Reply;
use stock_model::vouchers::What;
use stock_nums::memory::NoMemory;
use voucher_import::sheet::{CountSheet, SheetVoucher};

/// An import under way: the book, and the lines that wait to be written.
#[derive(Drop)]
pub struct Import<K: Keeper> {
    pub book: RevaluedBook<K>,
    pub waiting: Vec<u8>,
}

impl<K: Keeper> Import<K> {
    ghost use Rattle.std.specs.Prelude.{◌≡◌, ◌⊎◌, true, [], ◌++◌, List, OnOk, OnErr, IfOk, IfSome, option_to_list};
    ghost use Rattle.std.specs.List.{flat_map};
    ghost use Rattle.std.specs.Io.KnownBytes.{Appends};
    ghost use Rattle.stock_io.specs.Counts.{Rose, NeverFalls};
    ghost use Rattle.stock_io.specs.Streams.{AppendsFront};
    ghost use Rattle.stock_model.specs.declared.answers.Answer.{Answer};
    ghost use Rattle.stock_model.specs.History.{IsLegal};
    ghost use Rattle.voucher_import.specs.SheetVouchers as sheet;
    ghost use Rattle.stock_count.specs.Plans as plans;
    ghost use Rattle.sheet_io.specs.Lines.{diffs_line};
    ghost use Rattle.stock_batch.specs.Answers.{answer_line};
    ghost use Rattle.stock_import.specs.Posts.{IsSettled, ArePosted, IsPostCut, IsSettleCut, ArePostsCut};
    ghost use Rattle.stock_import.specs.Steps.{Tells, AddsPost, AddsPosts, AddsIf, AddsCount};
    ghost use Rattle.stock_import.specs.Vouchers.{IsImported, IsCutShort, vouchers_of};

    /// The import before its first voucher. It takes no memory.
    pub fn new(alloc: Global, book: RevaluedBook<K>) -> Import<K>
        ensures book { result.book ≡ book }
        ensures nothing_waits { result.waiting.items ≡ [] }
    {
        Import {
            book,
            waiting: Vec::new(alloc),
        }
    }

    /// Posts what a voucher of a sheet says, or what makes up for the count that it is. The lines that tell it wait.
    ///
    /// # Errors
    ///
    /// `NoMemory`: perhaps not all of it was posted, and not all of it waits.
    pub fn add(&mut self, alloc: Global, voucher: &SheetVoucher) -> Result<(), NoMemory>
        requires within { sheet.IsWithinLimits voucher.now }
        ensures imported { OnOk result (Tells (IsImported self.old.book voucher.now) self.old.waiting.items self.new.waiting.items self.new.book) }
        ensures cut_short { OnErr result (IsCutShort voucher.now self.old.book self.new.book) }
        ensures legal { OnOk result (IsLegal self.old.book.history → IsLegal self.new.book.history) }
    {
        match voucher {
            SheetVoucher::Post(what) => {
                let what = what.copy(alloc)?;
                self.post(alloc, what)?;
                Ok(())
            }
            SheetVoucher::Count(sheet) => self.count(alloc, sheet),
        }
    }

    // Posts what makes up for a count, unless a line of it differs by too much.
    fn count(&mut self, alloc: Global, sheet: &CountSheet) -> Result<(), NoMemory>
        ensures imported { OnOk result (Tells (IsImported self.old.book (SheetVoucher.Count sheet.now)) self.old.waiting.items self.new.waiting.items self.new.book) }
        ensures cut_short { OnErr result (IsCutShort (SheetVoucher.Count sheet.now) self.old.book self.new.book) }
        ensures legal { OnOk result (IsLegal self.old.book.history → IsLegal self.new.book.history) }
    {
        match plan_count(alloc, self.book.book().journal(), sheet) {
            Ok(plan) => self.correct(alloc, plan),
            Err(CountFault::Wide { line }) => push_wide(&mut self.waiting, line),
            Err(CountFault::NoMemory) => Err(NoMemory),
        }
    }

    // Tells how a count differs, and posts the vouchers that make up for it: the second only where the first was accepted.
    fn correct(&mut self, alloc: Global, plan: CountPlan) -> Result<(), NoMemory>
        requires within { plans.AreWithinLimits plan }
        ensures counted { OnOk result (AddsCount self.old.book plan self.old.waiting.items self.new.waiting.items self.new.book) }
        ensures cut_short { OnErr result ((self.new.book ≡ self.old.book) ⊎ ArePostsCut self.old.book (vouchers_of plan) self.new.book) }
        ensures legal { OnOk result (IsLegal self.old.book.history → IsLegal self.new.book.history) }
    {
        let CountPlan {
            diffs,
            issue,
            receipt,
        } = plan;
        push_diffs(&mut self.waiting, diffs.as_slice())?;
        let accepted = self.post_some(alloc, issue)?;
        self.post_if(alloc, accepted, receipt)
    }

    // Posts a voucher, if there is one and it is due.
    fn post_if(&mut self, alloc: Global, due: bool, what: Option<What>) -> Result<(), NoMemory>
        requires within { IfSome what plans.IsWithinLimits }
        ensures posted { OnOk result (AddsIf due self.old.book (option_to_list what) self.old.waiting.items self.new.waiting.items self.new.book) }
        ensures cut_short { OnErr result ((due ≡ true) × ArePostsCut self.old.book (option_to_list what) self.new.book) }
        ensures legal { OnOk result (IsLegal self.old.book.history → IsLegal self.new.book.history) }
    {
        if !due {
            return Ok(());
        }
        self.post_some(alloc, what)?;
        Ok(())
    }

    // Posts a voucher, if there is one. Answers whether it was accepted, or there is none.
    fn post_some(&mut self, alloc: Global, what: Option<What>) -> Result<bool, NoMemory>
        requires within { IfSome what plans.IsWithinLimits }
        ensures posted { IfOk result (AddsPosts self.old.book (option_to_list what) self.old.waiting.items self.new.waiting.items self.new.book) }
        ensures cut_short { OnErr result (ArePostsCut self.old.book (option_to_list what) self.new.book) }
        ensures legal { OnOk result (IsLegal self.old.book.history → IsLegal self.new.book.history) }
    {
        match what {
            Some(what) => self.post(alloc, what),
            None => Ok(true),
        }
    }

    // Posts a voucher, and answers whether it was accepted.
    fn post(&mut self, alloc: Global, what: What) -> Result<bool, NoMemory>
        requires within { plans.IsWithinLimits what }
        ensures posted { IfOk result (AddsPost self.old.book what self.old.waiting.items self.new.waiting.items self.new.book) }
        ensures cut_short { OnErr result (IsPostCut self.old.book what self.new.book) }
        ensures legal { OnOk result (IsLegal self.old.book.history → IsLegal self.new.book.history) }
    {
        let answer = answering::post(alloc, &mut self.book, what)?;
        append_answer(alloc, &mut self.waiting, &answer)?;
        Ok(is_accepted(&answer))
    }

    /// Makes all turns that there are. The line that tells it waits.
    ///
    /// # Errors
    ///
    /// `NoMemory`: what turns had published by then stands.
    pub fn settle(&mut self, alloc: Global) -> Result<(), NoMemory>
        ensures settled { OnOk result ((answer : Answer) × IsSettled self.old.book answer self.new.book
            × (self.new.waiting.items ≡ self.old.waiting.items ++ answer_line answer)) }
        ensures cut_short { OnErr result (IsSettleCut self.old.book self.new.book) }
        ensures legal { OnOk result (IsLegal self.old.book.history → IsLegal self.new.book.history) }
    {
        let answer = answering::settle(alloc, &mut self.book)?;
        append_answer(alloc, &mut self.waiting, &answer)
    }

    /// Writes the lines that wait, and none waits any more.
    ///
    /// # Errors
    ///
    /// `Failed` where a write failed: a front of the lines was written.
    pub fn write_out<O: Sink>(&mut self, output: &mut O) -> Result<(), Failed>
        ensures nothing_waits { OnOk result (self.new.waiting.items ≡ []) }
        ensures written { OnOk result (Appends (O.written output.old) (O.written output.new) self.old.waiting.items) }
        ensures book { self.new.book ≡ self.old.book }
        ensures faults_kept { OnOk result (O.faults output.new ≡ O.faults output.old) }
        ensures front { OnErr result (AppendsFront (O.written output.old) (O.written output.new) self.old.waiting.items) }
        ensures never_falls { NeverFalls (O.faults output.old) (O.faults output.new) }
        ensures cause { OnErr result (Rose (O.faults output.old) (O.faults output.new)) }
    {
        write_all(output, self.waiting.as_slice())?;
        self.waiting.clear();
        Ok(())
    }

    /// The book, for good.
    pub fn into_book(self) -> RevaluedBook<K>
        ensures { result ≡ self.book }
    {
        let Import { book, waiting: _ } = self;
        book
    }
}

// Whether the answer tells that a record was accepted.
fn is_accepted(answer: &Answer) -> bool
    ensures { result ≡ is_accepted answer.now }
{
    match answer {
        Answer::Told {
            reply: Reply::Accepted(_),
            heads: _,
        } => true,
        _ => false,
    }
}
