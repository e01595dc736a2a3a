//! An audit of the ledger that a shelf has at a path.
ghost use Rattle.std.specs.Prelude.{◌≡◌, ◌⊎◌};
ghost use Rattle.stock_keeper.specs.Keeping.{AsksAtMost};
ghost use Rattle.stock_audit.specs.Audits.{AuditsOverShelf, KeepsAudited, end_of, TellsVerdict};
ghost use Rattle.generation_audit.specs.Verdicts.{IsVerdictOn};

use crate::verdict_texts::verdict_text;
use generation_audit::auditing::audit;
use generation_audit::verdict::Verdict;
use std::alloc::Global;
use stock_ends::damage::Damage;
use stock_ends::end::End;
use stock_ends::opening::end_of_refusal;
use stock_io::sink::{Sink, write_all};
use stock_keeper::keeper::Keeper;
use stock_keeper::shelf::Shelf;
use stock_keeper::tables::Tables;

/// Audits the ledger that the shelf has at this path, and writes the verdict. Each keeper that is handed out is put back, and was
/// asked for its tables alone.
pub fn audit_over<H: Shelf, O: Sink>(
    alloc: Global,
    shelf: &mut H,
    path: &str,
    output: &mut O,
) -> End
    ensures audits { AuditsOverShelf H.Kept.tells H.tells H.plan H.faults H.kept_faults O.written O.faults
        shelf.old shelf.new output.old output.new result }
    ensures opens { AsksAtMost H.opened H.openings path.now shelf.old shelf.new }
{
    let mut keeper = match shelf.open_keeper(path) {
        Ok(keeper) => keeper,
        Err(fault) => return end_of_refusal(fault),
    };
    let end = audit_kept(alloc, &mut keeper, output);
    shelf.put_back(keeper);
    end
}

// Audits the tables of the keeper, and writes the verdict.
fn audit_kept<K: Keeper, O: Sink>(alloc: Global, keeper: &mut K, output: &mut O) -> End
    ensures { KeepsAudited K.tells K.faults K.plan K.calls O.written O.faults keeper.old keeper.new output.old output.new result }
{
    let tables = match keeper.load() {
        Ok(tables) => tables,
        Err(fault) => return end_of_refusal(fault),
    };
    write_verdict(alloc, &tables, output)
}

// Writes the verdict on the tables.
fn write_verdict<O: Sink>(alloc: Global, tables: &Tables, output: &mut O) -> End
    ensures { (result ≡ End.NoMemory) × (output.new ≡ output.old)
        ⊎ ((v : Verdict) × IsVerdictOn tables.now v × TellsVerdict O.written O.faults output.old output.new v result) }
{
    let Ok(verdict) = audit(alloc, tables) else {
        return End::NoMemory;
    };
    let Ok(text) = verdict_text(alloc, &verdict) else {
        return End::NoMemory;
    };
    match write_all(output, text.as_slice()) {
        Ok(()) => end_of(&verdict),
        Err(_) => End::WriteFailed,
    }
}

/// How an audit ends whose verdict was written.
fn end_of(verdict: &Verdict) -> End
    ensures { result ≡ end_of verdict.now }
{
    match verdict {
        Verdict::Sound {
            records: _,
            covered: _,
            accounts: _,
        } => End::Done,
        Verdict::Head => End::Damaged(Damage::Head),
        Verdict::Record { number } => End::Damaged(Damage::Record { number: *number }),
        Verdict::Differs {
            spot,
            stored: _,
            due: _,
        } => End::Damaged(Damage::Worth { spot: *spot }),
    }
}
