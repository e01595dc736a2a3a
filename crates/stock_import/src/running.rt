//! The vouchers of a sheet over a book, and what is written of them.
ghost use Rattle.std.specs.Prelude.{◌≡◌, [], All, OnOk, IfErr};
ghost use Rattle.stock_io.specs.Counts.{NeverFalls};
ghost use Rattle.stock_model.specs.History.{IsLegal};
ghost use Rattle.voucher_import.specs.SheetVouchers.{IsWithinLimits};
ghost use Rattle.stock_import.specs.Runs.{IsRun, TakesVoucher, Stops, Finishes};

use crate::import::Import;
use std::alloc::Global;
use stock_ends::end::End;
use stock_io::sink::Sink;
use stock_keeper::keeper::Keeper;
use voucher_import::sheet::SheetVoucher;

/// Imports the vouchers, and settles after the last. The lines of each are written before the next.
pub(crate) fn import_all<K: Keeper, O: Sink>(
    alloc: Global,
    import: &mut Import<K>,
    vouchers: &[SheetVoucher],
    output: &mut O,
) -> End
    requires within { All IsWithinLimits vouchers.now }
    requires nothing_waits { import.old.waiting.items ≡ [] }
    requires legal { IsLegal import.old.book.history }
    ensures { IsRun O.written O.faults output.old output.new import.old.book import.new.book vouchers.now result }
{
    for voucher in vouchers {
        if let Err(end) = step(alloc, import, voucher, output) {
            return end;
        }
    }
    finish(alloc, import, output)
}

// Imports one voucher, and writes its lines.
fn step<K: Keeper, O: Sink>(
    alloc: Global,
    import: &mut Import<K>,
    voucher: &SheetVoucher,
    output: &mut O,
) -> Result<(), End>
    requires within { IsWithinLimits voucher.now }
    requires nothing_waits { import.old.waiting.items ≡ [] }
    requires legal { IsLegal import.old.book.history }
    ensures takes { OnOk result (TakesVoucher O.written output.old output.new import.old.book voucher.now import.new.book) }
    ensures nothing_waits { OnOk result (import.new.waiting.items ≡ []) }
    ensures legal { OnOk result (IsLegal import.new.book.history) }
    ensures faults_kept { OnOk result (O.faults output.new ≡ O.faults output.old) }
    ensures stops { IfErr result (Stops O.written O.faults output.old output.new import.old.book voucher.now import.new.book) }
    ensures never_falls { NeverFalls (O.faults output.old) (O.faults output.new) }
{
    let Ok(()) = import.add(alloc, voucher) else {
        return Err(End::NoMemory);
    };
    let Ok(()) = import.write_out(output) else {
        return Err(End::WriteFailed);
    };
    Ok(())
}

// Settles, and writes the line that tells it.
fn finish<K: Keeper, O: Sink>(alloc: Global, import: &mut Import<K>, output: &mut O) -> End
    requires nothing_waits { import.old.waiting.items ≡ [] }
    requires legal { IsLegal import.old.book.history }
    ensures finishes { Finishes O.written O.faults output.old output.new import.old.book import.new.book result }
    ensures never_falls { NeverFalls (O.faults output.old) (O.faults output.new) }
{
    let Ok(()) = import.settle(alloc) else {
        return End::NoMemory;
    };
    let Ok(()) = import.write_out(output) else {
        return End::WriteFailed;
    };
    End::Done
}
