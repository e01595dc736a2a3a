//! An import into a ledger that is kept.
ghost use Rattle.std.specs.Prelude.{◌≡◌, All};
ghost use Rattle.stock_keeper.specs.Keeping.{Within, AsksAt, AsksAtMost};
ghost use Rattle.voucher_import.specs.SheetVouchers.{IsWithinLimits};
ghost use Rattle.stock_import.specs.Filed.{ImportsOverShelf, ImportsOverKeeper};
ghost use Rattle.stock_import.specs.Imports.{ImportsOver, TellsFault, end_of};

use crate::import::Import;
use crate::running::import_all;
use repost_worker::opening::NotOpened;
use repost_worker::revalued_book::RevaluedBook;
use sheet_io::lines::fault_line;
use sheet_io::taking::{TakeFault, take_sheet};
use std::alloc::Global;
use stock_ends::end::End;
use stock_ends::opening::{end_of, end_of_refusal, keeper_of};
use stock_io::sink::{Sink, write_all};
use stock_io::source::Source;
use stock_keeper::keeper::Keeper;
use stock_keeper::shelf::Shelf;
use voucher_import::reading::read_sheet;
use voucher_import::sheet::{SheetFault, SheetVoucher};

/// How an import over a keeper ended, and the keeper.
struct Ended<K> {
    end: End,
    keeper: K,
}

/// Imports the sheet that the input is into the ledger that the shelf has at this path, and writes the lines that tell it. The input
/// is taken whole and read before the ledger is opened, and nothing is posted where it is no sheet. The keeper that is handed out is
/// put back.
pub fn import_over<H: Shelf, S: Source, O: Sink>(
    alloc: Global,
    shelf: &mut H,
    path: &str,
    input: &mut S,
    output: &mut O,
) -> End
    ensures imports { ImportsOver H.Kept.tells H.tells H.plan H.faults H.kept_faults S.left S.taken S.faults O.written O.faults
        shelf.old shelf.new input.old input.new output.old output.new result }

    // None is opened where the input is no sheet, or is not taken to its end.
    ensures opens { AsksAtMost H.opened H.openings path.now shelf.old shelf.new }
{
    let bytes = match take_sheet(alloc, input) {
        Ok(bytes) => bytes,
        Err(fault) => return end_of_taking(fault),
    };
    match read_sheet(alloc, bytes.as_slice()) {
        Ok(vouchers) => open_and_import(alloc, shelf, path, vouchers.as_slice(), output),
        Err(fault) => tell_fault(alloc, fault, output),
    }
}

fn end_of_taking(fault: TakeFault) -> End
    ensures { result ≡ end_of fault }
{
    match fault {
        TakeFault::Failed => End::ReadFailed,
        TakeFault::TooLong => End::TooLong,
        TakeFault::NoMemory => End::NoMemory,
    }
}

// Writes what is wrong with a sheet.
fn tell_fault<O: Sink>(alloc: Global, fault: SheetFault, output: &mut O) -> End
    ensures { TellsFault O.written O.faults output.old output.new fault result }
{
    let Ok(line) = fault_line(alloc, fault) else {
        return End::NoMemory;
    };
    let Ok(()) = write_all(output, line.as_slice()) else {
        return End::WriteFailed;
    };
    End::BadSheet
}

// Imports the vouchers into the ledger that the shelf has at this path.
fn open_and_import<H: Shelf, O: Sink>(
    alloc: Global,
    shelf: &mut H,
    path: &str,
    vouchers: &[SheetVoucher],
    output: &mut O,
) -> End
    requires within { All IsWithinLimits vouchers.now }
    ensures imports { ImportsOverShelf H.Kept.tells H.tells H.plan H.faults H.kept_faults O.written O.faults
        shelf.old shelf.new output.old output.new vouchers.now result }
    ensures opens { AsksAt H.opened H.openings path.now shelf.old shelf.new }
{
    let keeper = match shelf.open_keeper(path) {
        Ok(keeper) => keeper,
        Err(fault) => return end_of_refusal(fault),
    };
    let Ended { end, keeper } = import_kept(alloc, keeper, vouchers, output);
    shelf.put_back(keeper);
    end
}

// Imports the vouchers into the ledger that the keeper keeps.
fn import_kept<K: Keeper, O: Sink>(
    alloc: Global,
    keeper: K,
    vouchers: &[SheetVoucher],
    output: &mut O,
) -> Ended<K>
    requires within { All IsWithinLimits vouchers.now }
    requires settled { Within (K.tells keeper) (K.may_leave keeper) }
    ensures { ImportsOverKeeper K.tells K.may_leave K.faults K.plan K.calls O.written O.faults
        keeper result.keeper output.old output.new vouchers.now result.end }
{
    match RevaluedBook::begin(alloc, keeper) {
        Ok(book) => {
            let mut import = Import::new(alloc, book);
            let end = import_all(alloc, &mut import, vouchers, output);
            Ended {
                end,
                keeper: keeper_of(import.into_book()),
            }
        }
        Err(NotOpened { fault, keeper }) => Ended {
            end: end_of(fault),
            keeper,
        },
    }
}
