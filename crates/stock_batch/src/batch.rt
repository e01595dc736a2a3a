//! A batch under way: bytes of the input go in as they come, and the replies to whole lines wait to be written.

use crate::answering::answer_to;
use crate::open_line::OpenLine;
use crate::split::split_line;
use crate::waiting::append_answer;
use repost_worker::revalued_book::RevaluedBook;
use std::alloc::Global;
use stock_io::failed::Failed;
use stock_io::sink::{Sink, write_all};
use stock_keeper::keeper::Keeper;
use stock_nums::memory::NoMemory;

/// A batch under way: the book, the line under way, and the replies that wait to be written.
#[derive(Drop)]
pub struct Batch<K: Keeper> {
    pub book: RevaluedBook<K>,
    pub line: OpenLine,
    pub waiting: Vec<u8>,
}

impl<K: Keeper> Batch<K> {
    ghost use Rattle.std.specs.Prelude.{◌≡◌, ℕ, List, [], ◌∷◌, ◌++◌, IsOk, IsTrue, OnOk, OnErr};
    ghost use Rattle.std.specs.Io.KnownBytes.{Appends};
    ghost use Rattle.stock_io.specs.Counts.{Rose, NeverFalls};
    ghost use Rattle.stock_io.specs.Streams.{AppendsFront};
    ghost use Rattle.stock_model.specs.InputLines.{lines_of};
    ghost use Rattle.stock_model.specs.History.{IsLegal};
    ghost use Rattle.repost_worker.specs.Paces.{Pace};
    ghost use Rattle.stock_batch.specs.OpenLines.{StandsForLine};
    ghost use Rattle.stock_batch.specs.Replies.{Answered, AnswersLine, IsCutShort, RunsShort};
    ghost use Rattle.stock_batch.specs.Batches.{StandsFor, GoesOn, StopsShort, WritesOut};

    /// The batch before its first byte: a book and no line. It takes no memory.
    pub fn new(alloc: Global, book: RevaluedBook<K>) -> Batch<K>
        requires { IsLegal book.history }
        ensures book { result.book ≡ book }
        ensures stands { StandsFor book result [] [] }
        ensures nothing_waits { result.waiting.items ≡ [] }
    {
        Batch {
            book,
            line: OpenLine::new(alloc),
            waiting: Vec::new(alloc),
        }
    }

    /// Takes the next bytes of the input, and answers each line that is whole now. The replies wait.
    ///
    /// # Errors
    ///
    /// `NoMemory`: some of the lines were answered, and perhaps the next one begun. The batch stands for nothing then.
    pub fn feed(&mut self, alloc: Global, piece: &[u8]) -> Result<(), NoMemory>
        ensures goes_on { OnOk result (GoesOn self.old piece.now self.new) }
        ensures cut_short { OnErr result (StopsShort self.old piece.now self.new.book) }
    {
        let mut rest = piece;
        while let Some((line, after)) = split_line(rest) {
            self.line.add(line)?;
            self.end_line(alloc)?;
            rest = after;
        }
        self.line.add(rest)?;
        Ok(())
    }

    /// Takes the end of the input. A last line without a line feed is answered too, and its reply waits.
    ///
    /// # Errors
    ///
    /// `NoMemory`, and not where that line is blank: the batch stands for nothing then.
    pub fn end_input(&mut self, alloc: Global) -> Result<(), NoMemory>
        ensures answered { OnOk result ((first : Pace) (taken written : List ℕ) → StandsFor first self.old taken written
            → Answered first (lines_of taken) (written ++ self.new.waiting.items) self.new.book) }
        ensures cut_short { OnErr result ((first : Pace) (taken written : List ℕ) → StandsFor first self.old taken written
            → RunsShort first (lines_of taken) written self.new.book) }
        ensures blank { IsTrue self.old.line.blank → IsOk result }
    {
        self.answer_line(alloc)
    }

    /// Writes the replies that wait, and none waits any more.
    ///
    /// # Errors
    ///
    /// `Failed` where a write failed: a front of the replies was written, and all of them still wait.
    pub fn write_out<O: Sink>(&mut self, output: &mut O) -> Result<(), Failed>
        ensures stands { OnOk result (WritesOut self.old self.new) }
        ensures nothing_waits { OnOk result (self.new.waiting.items ≡ []) }
        ensures written { OnOk result (Appends (O.written output.old) (O.written output.new) self.old.waiting.items) }
        ensures book { self.new.book ≡ self.old.book }
        ensures faults_kept { OnOk result (O.faults output.new ≡ O.faults output.old) }
        ensures front { OnErr result (AppendsFront (O.written output.old) (O.written output.new) self.old.waiting.items) }
        ensures never_falls { NeverFalls (O.faults output.old) (O.faults output.new) }
        ensures cause { OnErr result (Rose (O.faults output.old) (O.faults output.new)) }
    {
        write_all(output, self.waiting.as_slice())?;
        self.waiting.clear();
        Ok(())
    }

    /// Drops the replies that wait, for those who tell none of them.
    pub fn drop_replies(&mut self)
        ensures { WritesOut self.old self.new }
    {
        self.waiting.clear();
    }

    fn end_line(&mut self, alloc: Global) -> Result<(), NoMemory>
        ensures goes_on { OnOk result (GoesOn self.old (10 ∷ []) self.new) }
        ensures cut_short { OnErr result ((line : List ℕ) → StandsForLine self.old.line line → IsCutShort line self.old.book self.new.book) }
        ensures blank { IsTrue self.old.line.blank → IsOk result }
    {
        self.answer_line(alloc)?;
        self.line.clear();
        Ok(())
    }

    /// Answers the line under way, unless it is blank.
    fn answer_line(&mut self, alloc: Global) -> Result<(), NoMemory>
        ensures answers { OnOk result ((line : List ℕ) → StandsForLine self.old.line line → AnswersLine line self.old.book self.new.book self.old.waiting.items self.new.waiting.items) }
        ensures legal { OnOk result (IsLegal self.old.book.history → IsLegal self.new.book.history) }
        ensures cut_short { OnErr result ((line : List ℕ) → StandsForLine self.old.line line → IsCutShort line self.old.book self.new.book) }
        ensures blank { IsTrue self.old.line.blank → IsOk result }
    {
        if self.line.blank {
            return Ok(());
        }
        let answer = answer_to(alloc, &mut self.book, &self.line)?;
        append_answer(alloc, &mut self.waiting, &answer)
    }

    /// The book, for good.
    pub fn into_book(self) -> RevaluedBook<K>
        ensures { result ≡ self.book }
    {
        let Batch {
            book,
            line: _,
            waiting: _,
        } = self;
        book
    }
}
