//! Tables are audited: each stored worth is held against what is due over the rows stored before it.
ghost use Rattle.std.specs.Prelude.{◌≡◌, ◌≤◌, length, take, IfOk, IfErr};
ghost use Rattle.stock_model.specs.PostingOrder.{posting_line};
ghost use Rattle.kept_tables.specs.Openings.{IsAllStored};
ghost use Rattle.generation_audit.specs.Reading.{IsUnread};
ghost use Rattle.generation_audit.specs.Verdicts.{AreRead, IsVerdictOn};

use crate::comparing::{Compared, compare_worths};
use crate::legal_journal::LegalJournal;
use crate::reading::{Unread, read_between};
use crate::verdict::Verdict;
use kept_tables::checking::covered_of;
use std::alloc::Global;
use stock_keeper::tables::Tables;
use stock_nums::entry::Entry;
use stock_nums::lines::Lines;
use stock_nums::memory::NoMemory;
use stock_nums::numbers::RecordNo;

/// The verdict on the tables. It reads the stored records, each against those before it, puts the movements of the covered ones in
/// posting order, and computes what each is due from plain sums over the rows that are stored before it. The only error is want
/// of memory.
pub fn audit(alloc: Global, tables: &Tables) -> Result<Verdict, NoMemory>
    ensures { IfOk result (IsVerdictOn tables.now) }
{
    let Ok(covered) = covered_of(tables) else {
        return Ok(Verdict::Head);
    };
    match read(alloc, tables, covered) {
        Ok(ledger) => verdict_on(alloc, &ledger, tables, covered),
        Err(Unread::Bad { number }) => Ok(Verdict::Record { number }),
        Err(Unread::NoMemory) => Err(NoMemory),
    }
}

// All stored records, and the movements in posting order of the first so many.
#[derive(Drop)]
struct Ledger {
    journal: LegalJournal,
    line: Lines<Entry>,
}

// Reads the stored records.
fn read(alloc: Global, tables: &Tables, covered: usize) -> Result<Ledger, Unread>
    requires within { covered ≤ length tables.now.records }
    ensures stored { IfOk result (λ ledger. IsAllStored ledger.journal tables.now) }
    ensures line { IfOk result (λ ledger. ledger.line ≡ posting_line (take covered ledger.journal)) }
    ensures fault { IfErr result (IsUnread tables.now) }
{
    let mut journal = LegalJournal::new(alloc);
    if let Err(fault) = read_between(alloc, &mut journal, tables, 0, covered) {
        return Err(fault);
    }
    let Ok(line) = journal.line(alloc) else {
        return Err(Unread::NoMemory);
    };
    if let Err(fault) = read_between(alloc, &mut journal, tables, covered, tables.records.len()) {
        return Err(fault);
    }
    Ok(Ledger { journal, line })
}

// The verdict on tables whose records were read.
fn verdict_on(
    alloc: Global,
    ledger: &Ledger,
    tables: &Tables,
    covered: usize,
) -> Result<Verdict, NoMemory>
    requires read { AreRead tables.now ledger.now.journal covered }
    requires line { ledger.now.line ≡ posting_line (take covered ledger.now.journal) }
    ensures { IfOk result (IsVerdictOn tables.now) }
{
    let records = ledger.journal.records();
    let line = ledger.line.as_slice();
    let worths = tables.worths.as_slice();
    match compare_worths(alloc, &records[..covered], line, worths)? {
        Compared::Apart(found) => Ok(Verdict::Differs {
            spot: found.spot,
            stored: found.stored,
            due: found.due,
        }),
        Compared::Same(accounts) => Ok(Verdict::Sound {
            records: records.len() as u32,
            covered: RecordNo(covered as u32),
            accounts,
        }),
    }
}
