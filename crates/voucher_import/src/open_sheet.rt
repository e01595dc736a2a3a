//! A sheet of which a voucher is still open: more rows of it may come.
ghost use Rattle.std.specs.Prelude.{◌≡◌, ◌+◌, ◌^◌, ◌<◌, [], ◌∷◌, List, length, All, IfOk, OnOk, IsTrue, ◌↔◌};
ghost use Rattle.csv.specs.Records.{fields_of};
ghost use Rattle.voucher_import.specs.Reading.{IsOpen, IsOfNext, Steps, rows_in};
ghost use Rattle.voucher_import.specs.Rows.{Row, voucher_of};
ghost use Rattle.voucher_import.specs.SheetVouchers.{IsWithinLimits};
ghost use Rattle.voucher_import.specs.Sheets.{AreVouchers};

use crate::rows::{VOUCHER, field};
use crate::sheet::{SheetFault, SheetVoucher};
use crate::vouchers::read_voucher;
use csv::ByteRecord;
use std::alloc::Global;
use stock_nums::lines::Lines;

/// What is read of a sheet so far.
#[derive(Drop)]
pub(crate) struct OpenSheet {
    /// The vouchers that are closed.
    vouchers: Lines<SheetVoucher>,
    /// The rows of the open voucher so far.
    run: Vec<ByteRecord>,
    /// How many rows there were before those, with the head.
    before: usize,
}

impl OpenSheet {
    /// A sheet of which the head is read.
    pub(crate) fn new(alloc: Global) -> OpenSheet
        ensures begun { (rows : List Row) → IsOpen rows rows result }
        ensures before { result.before ≡ 1 }
        ensures run { result.run.items ≡ [] }
    {
        OpenSheet {
            vouchers: Lines::new(alloc),
            run: Vec::new(alloc),
            before: 1,
        }
    }

    /// Reads one more row. A row of another voucher closes the open one.
    pub(crate) fn add(&mut self, alloc: Global, row: ByteRecord) -> Result<(), SheetFault>
        requires { self.old.before + length self.old.run.items + 1 < 2 ^ 32 }
        ensures step { (rows rest : List Row) → IsOpen rows (fields_of row ∷ rest) self.old → Steps rows (λ _. IsOpen rows rest self.new) result }
        ensures count { OnOk result (self.new.before + length self.new.run.items ≡ self.old.before + length self.old.run.items + 1) }
    {
        if !self.goes_on(&row) {
            self.close(alloc)?;
        }
        if self.run.push(row).is_err() {
            return Err(SheetFault::NoMemory);
        }
        Ok(())
    }

    /// The vouchers of the whole sheet.
    pub(crate) fn finish(mut self, alloc: Global) -> Result<Lines<SheetVoucher>, SheetFault>
        requires { self.before + length self.run.items < 2 ^ 32 }
        ensures outcome { (rows : List Row) → IsOpen rows [] self → Steps rows (AreVouchers rows) result }
        ensures limits { (rows : List Row) → IsOpen rows [] self → IfOk result (All IsWithinLimits) }
    {
        self.close(alloc)?;
        Ok(self.vouchers)
    }

    /// Whether the row is of the open voucher.
    fn goes_on(&self, row: &ByteRecord) -> bool
        ensures { IsTrue result ↔ ((first : Row) × (run : List Row) × (rows_in self.now.run.items ≡ first ∷ run) × (voucher_of first ≡ voucher_of (fields_of row.now))) }
    {
        match self.run.first() {
            Some(first) => field(first, VOUCHER) == field(row, VOUCHER),
            None => false,
        }
    }

    /// Reads the open voucher, to which no more rows come.
    fn close(&mut self, alloc: Global) -> Result<(), SheetFault>
        requires { self.old.before + length self.old.run.items < 2 ^ 32 }
        ensures step { (rows rest : List Row) → IsOpen rows rest self.old → IsOfNext (rows_in self.old.run.items) rest → Steps rows (λ _. IsOpen rows rest self.new) result }
        ensures empty { OnOk result (self.new.run.items ≡ []) }
        ensures count { OnOk result (self.new.before ≡ self.old.before + length self.old.run.items) }
    {
        if self.run.is_empty() {
            return Ok(());
        }
        let voucher = read_voucher(alloc, self.before, self.run.as_slice())?;
        self.vouchers.push(voucher)?;
        self.before += self.run.len();
        self.run.clear();
        Ok(())
    }
}
