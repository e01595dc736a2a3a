//! Which movements come and which go with a record.
ghost use Rattle.std.specs.Prelude.{◌≡◌, filter, IfOk};
ghost use Rattle.stock_model.specs.Entries.{entries, is_of_record, all_entries};
ghost use Rattle.record_effects.specs.Effects.{gone_with};

use std::alloc::Global;
use stock_model::names::Returns;
use stock_model::records::Record;
use stock_model::vouchers::What;
use stock_nums::entry::Entry;
use stock_nums::lines::Lines;
use stock_nums::memory::NoMemory;
use stock_nums::numbers::RecordNo;
use voucher_kinds::journal::Journal;

/// Which movements come, and which go, where a record is accepted.
#[derive(Drop)]
pub struct Effect {
    /// The record's own.
    pub adds: Lines<Entry>,
    /// Those of earlier records that are in force no more.
    pub gone: Lines<Entry>,
}

impl Effect {
    /// What the record would do as the next one of the journal. The only error is want of memory.
    pub fn of(alloc: Global, journal: &Journal, item: &Record) -> Result<Effect, NoMemory>
        ensures adds { IfOk result (λ effect. effect.adds ≡ entries journal.now item.now) }
        ensures gone { IfOk result (λ effect. effect.gone ≡ gone_with journal.now item.now) }
    {
        Ok(Effect {
            adds: journal.next_entries(alloc, item)?,
            gone: gone_with(alloc, journal, item)?,
        })
    }
}

// The movements in force that the record would take back as the next one of the journal: those of the record that it cancels, if
// it cancels one. The only error is want of memory.
fn gone_with(alloc: Global, journal: &Journal, item: &Record) -> Result<Lines<Entry>, NoMemory>
    ensures { IfOk result (λ gone. gone ≡ gone_with journal.now item.now) }
{
    match &item.what {
        What::Cancel { target } => live_entries_of(alloc, journal, *target),
        _ => Ok(Lines::new(alloc)),
    }
}

// The movements in force of the record with this number: all that it made, where there is such a record in force, and else none.
// The only error is want of memory.
fn live_entries_of(
    alloc: Global,
    journal: &Journal,
    number: RecordNo,
) -> Result<Lines<Entry>, NoMemory>
    ensures { IfOk result (λ es. es ≡ filter (is_of_record number.0) (all_entries journal.now)) }
{
    if number.0 == 0 || number.0 > journal.count() || !journal.is_live(number) {
        return Ok(Lines::new(alloc));
    }
    journal.entries_of(alloc, number)
}
