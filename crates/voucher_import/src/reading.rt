//! The reading of a sheet.
ghost use Rattle.std.specs.Prelude.{◌≡◌, ◌≢◌, ◌^◌, ◌<◌, List, length, All, Ok, Err, IfOk};
ghost use Rattle.voucher_import.specs.Rows.{Row, rows_of};
ghost use Rattle.voucher_import.specs.Sheets.{IsSheet};
ghost use Rattle.voucher_import.specs.SheetVouchers.{IsWithinLimits};
ghost use Rattle.voucher_import.specs.declared.sheet.SheetFault.{SheetFault};
ghost use Rattle.voucher_import.specs.declared.sheet.SheetVoucher.{SheetVoucher};

use crate::open_sheet::OpenSheet;
use crate::rows::is_head;
use crate::sheet::{SheetFault, SheetVoucher};
use csv::ReaderBuilder;
use std::alloc::Global;
use stock_nums::lines::Lines;

/// The vouchers that a sheet says.
///
/// The first row is the names of the columns: `voucher,do,at,item,store,to,qty,amount`. Each other row is a line of a voucher;
/// rows one after another with the same `voucher` are the lines of one. `do` is `receipt`, `sold`, `used`, `transfer` or
/// `count`.
pub fn read_sheet(alloc: Global, bytes: &[u8]) -> Result<Lines<SheetVoucher>, SheetFault>
    requires { length bytes.now < 2 ^ 32 }
    ensures outcome { IsSheet (rows_of bytes.now) result }
    ensures limits { IfOk result (All IsWithinLimits) }
{
    let reader = ReaderBuilder::new()
        .has_headers(false)
        .flexible(true)
        .from_reader(alloc, bytes);
    let mut rows = reader.into_byte_records();
    match rows.next() {
        Some(Ok(head)) => {
            if !is_head(&head) {
                return Err(SheetFault::BadHead);
            }
        }
        Some(Err(_)) => return Err(SheetFault::NoMemory),
        None => return Err(SheetFault::BadHead),
    }
    let mut sheet = OpenSheet::new(alloc);
    for row in rows {
        let Ok(row) = row else {
            return Err(SheetFault::NoMemory);
        };
        sheet.add(alloc, row)?;
    }
    sheet.finish(alloc)
}

/// A sheet has at most one fault, but for want of memory, and none where it says vouchers.
pub fn sheets_have_one_fault()
    ensures one { (whole : List Row) (a b : SheetFault) → IsSheet whole (Err a) → IsSheet whole (Err b) →
        a ≢ SheetFault.NoMemory → b ≢ SheetFault.NoMemory → a ≡ b }
    ensures right { (whole : List Row) (vouchers : List SheetVoucher) (fault : SheetFault) →
        IsSheet whole (Ok vouchers) → IsSheet whole (Err fault) → fault ≡ SheetFault.NoMemory }
{}
