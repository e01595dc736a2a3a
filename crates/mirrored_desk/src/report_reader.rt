//! A reader of the mirror, with the report that it showed last.
ghost use Rattle.std.specs.Prelude.{◌≡◌, IfOk, IfSome};
ghost use Rattle.turn_lock.specs.Histories.{BeginsWith};
ghost use Rattle.stock_model.specs.Reports.{IsSelected};
ghost use Rattle.stock_model.specs.declared.answers.Answer.TheVariants.{Shown};
ghost use Rattle.stock_model.specs.declared.queries.Query.{Query};
ghost use Rattle.stock_model.specs.declared.queries.Selected.{Selected};
ghost use Rattle.mirrored_sessions.specs.Steps.{selected_of};
ghost use Rattle.report_mirror.specs.Mirrored.{IsMirrored};
ghost use Rattle.desk_server.specs.Responding.{IsResponse};
ghost use Rattle.mirrored_desk.specs.Kept.{IsRepeated};

use crate::last_report::LastReport;
use desk_server::responding::{Response, response_to};
use report_mirror::reader::{Looked, MirrorReader, Mirrored};
use std::alloc::Global;
use std::marker::Model;
use std::sync::Wait;
use stock_model::answers::Answer;
use stock_model::queries::{Query, Selected};
use stock_nums::memory::NoMemory;
use stock_nums::numbers::RecordNo;
use turn_lock::logged::Logged;
use turn_lock::pass::Pass;

/// A reader that keeps the report that it showed last. Contracts see the records of the generation that it read last.
#[derive(Drop)]
pub struct ReportReader {
    reader: MirrorReader,
    last: Option<LastReport>,
}

impl Model for ReportReader {
    ghost use Rattle.std.specs.Prelude.{List};
    ghost use Rattle.stock_model.specs.declared.records.Record.{Record};
    ghost use Rattle.mirrored_desk.specs.Kept.{IsKept};

    ghost Value = { List Record };

    ghost view = { λ reader. reader.reader };

    ghost invariant = { λ reader. IsKept reader.reader reader.last };
}

/// The reader, and what was found.
#[derive(Drop)]
pub struct Found {
    pub reader: ReportReader,
    pub found: Result<Mirrored, NoMemory>,
}

/// The reader, and the response that waits to be written.
#[derive(Drop)]
pub struct Responded {
    pub reader: ReportReader,
    pub response: Response,
}

impl ReportReader {
    /// One that showed nothing yet.
    pub fn new(reader: MirrorReader) -> ReportReader
        ensures { result ≡ reader }
    {
        ReportReader { reader, last: None }
    }

    /// The reader alone.
    pub fn into_reader(self) -> MirrorReader
        ensures { result ≡ self }
    {
        let ReportReader { reader, last: _ } = self;
        reader
    }

    /// Looks once at the generation that is shown, for a report that has to cover the record that it asks for or shows, and no fewer than
    /// `least`. Where nobody shows generations any more it waits for ever.
    ///
    /// # Errors
    ///
    /// `NoMemory`: 2^63 hold the generation already.
    pub fn look<R: Wait>(self, rt: &R, query: &Query, least: RecordNo) -> Found
        ensures grows { BeginsWith result.reader self }
        ensures found { IfOk result.found (IsMirrored result.reader query.now least.0) }
    {
        let ReportReader { reader, last } = self;
        let Looked { reader, found } = reader.report(rt, query, least);
        Found {
            reader: ReportReader { reader, last },
            found,
        }
    }

    /// The response to a report from what was read last, or the one for want of memory. It is the one before where the same was asked of as
    /// many records.
    pub fn respond<B: Logged>(
        self,
        alloc: Global,
        at_rest: &Pass<B>,
        query: Query,
        selected: Selected,
        close: bool,
    ) -> Responded
        requires read { selected ≡ selected_of self query }
        requires of_book { IsSelected query selected }
        ensures reader { result.reader ≡ self }
        ensures response { IsResponse (Shown query selected) close result.response }
    {
        let ReportReader { reader, last } = self;
        if let Some(response) = repeated(alloc, &last, &query, selected.covered, close) {
            return Responded {
                reader: ReportReader { reader, last },
                response,
            };
        }
        let covered = selected.covered;
        let answer = Answer::Shown { query, selected };
        let response = response_to(alloc, at_rest, &answer, close);
        let last = LastReport::of(alloc, asked(answer), covered, &response, close);
        Responded {
            reader: ReportReader { reader, last },
            response,
        }
    }
}

// The response that is kept, if it is the one to the report that is asked for where so many records are covered.
fn repeated(
    alloc: Global,
    last: &Option<LastReport>,
    query: &Query,
    covered: RecordNo,
    close: bool,
) -> Option<Response>
    ensures { IfSome result (IsRepeated last.now query.now covered.0 close) }
{
    match last {
        Some(last) if !close && last.answers(query, covered) => Some(last.again(alloc)),
        _ => None,
    }
}

// What the report was asked by.
fn asked(answer: Answer) -> Query
    requires { (query : Query) × (selected : Selected) × (answer ≡ Shown query selected) }
    ensures { (selected : Selected) × (answer ≡ Shown result selected) }
{
    match answer {
        Answer::Shown { query, selected: _ } => query,
        Answer::Told { reply: _, heads: _ } => unreachable!(),
    }
}
