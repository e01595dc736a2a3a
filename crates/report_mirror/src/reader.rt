//! A reader of the mirror: it makes reports without the book's lock.
ghost use Rattle.std.specs.Prelude.{◌≡◌, ◌<◌, ◌≤◌, length, max, IfOk};
ghost use Rattle.left_right.specs.Sides.{view};
ghost use Rattle.turn_lock.specs.Histories.{BeginsWith};
ghost use Rattle.report_mirror.specs.Mirrored.{IsMirrored, wanted};

use crate::generation::Generation;
use crate::mirror::MirrorWriter;
use crate::shown::{Grows, Seen, Sees, Shown};
use left_right::reader::{Reader, Reading};
use std::marker::Model;
use std::sync::Wait;
use stock_model::queries::{Query, Selected};
use stock_nums::memory::NoMemory;
use stock_nums::numbers::RecordNo;

/// A reader. Contracts see the records of the generation that it read last.
#[derive(Drop)]
pub struct MirrorReader {
    pub(crate) reader: Reader<Shown, Seen, Grows>,
}

impl Model for MirrorReader {
    ghost use Rattle.std.specs.Prelude.{List};
    ghost use Rattle.left_right.specs.Sides as sides;
    ghost use Rattle.stock_model.specs.declared.records.Record.{Record};

    ghost Value = { List Record };

    ghost view = { λ reader. (sides.view reader.reader.place).records };
}

/// What is found for a report.
#[derive(Drop)]
pub enum Mirrored {
    /// The generation covers so many records, fewer than the report has to.
    Behind(RecordNo),
    /// What the report is made from.
    Report(Selected),
}

/// The reader, and what was found.
#[derive(Drop)]
pub struct Looked {
    pub reader: MirrorReader,
    pub found: Result<Mirrored, NoMemory>,
}

impl MirrorReader {
    /// Looks once at the generation that is shown, for a report that has to cover the record that it asks for or shows, and no fewer than
    /// `least`. It neither takes the book's lock nor waits for who shows the next generation; where nobody shows one any more it waits for
    /// ever.
    ///
    /// # Errors
    ///
    /// `NoMemory`: 2^63 hold the generation already.
    pub fn report<R: Wait>(self, rt: &R, query: &Query, least: RecordNo) -> Looked
        ensures grows { BeginsWith result.reader self }
        ensures found { IfOk result.found (IsMirrored result.reader query.now least.0) }
    {
        let reading = enter(rt, self.reader);
        let found = find(&reading.get().generation, query, least);
        Looked {
            reader: MirrorReader {
                reader: reading.leave(),
            },
            found,
        }
    }

    /// Reads until the generation that it reads is the one that the writer shows, of which it compares all records. It may wait, and is
    /// never refused. Where the writer is another mirror's it may wait for ever.
    pub fn meet<R: Wait>(self, rt: &R, writer: &MirrorWriter) -> MirrorReader
        ensures now { result ≡ writer.now }
        ensures grows { BeginsWith result self }
    {
        let shown = writer.shown().records();
        let mut reader = self.reader;
        for _ in rt.forever() {
            let reading = enter(rt, reader);
            let is_met = reading.get().generation.records().is_same(shown);
            reader = reading.leave();
            if is_met {
                return MirrorReader { reader };
            }
        }
        unreachable!()
    }
}

// Takes the generation that is shown.
fn enter<R: Wait>(rt: &R, mut reader: Reader<Shown, Seen, Grows>) -> Reading<Shown, Seen, Grows>
    ensures grows { BeginsWith result.part.value (view reader.place).records }
    ensures seen { (view result.place).records ≡ result.part.value }
{
    for _ in rt.forever() {
        match reader.enter_as::<Sees>() {
            Ok(reading) => return reading,
            Err(back) => reader = back,
        }
    }
    unreachable!()
}

// What the generation has for the report.
fn find(generation: &Generation, query: &Query, least: RecordNo) -> Result<Mirrored, NoMemory>
    ensures { IfOk result (IsMirrored generation.now query.now least.0) }
{
    let covered = generation.covered();
    if covered.0 < query.need_of().0.max(least.0) {
        return Ok(Mirrored::Behind(covered));
    }
    Ok(Mirrored::Report(generation.select(query)?))
}
