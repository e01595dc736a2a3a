//! What a voucher may name: items, warehouses, and lines of earlier vouchers.
ghost use Rattle.std.specs.Prelude.{◌≡◌, ◌^◌, ◌<◌, List, length};
ghost use Rattle.std.specs.Option.{option_copied, option_map};
ghost use Rattle.stock_model.specs.declared.records.Record.{Record};
ghost use Rattle.stock_model.specs.Cancelling.{first_link, record_number};
ghost use Rattle.stock_model.specs.Entries.{all_entries, is_live};
ghost use Rattle.stock_model.specs.Freezing.{frozen};
ghost use Rattle.stock_model.specs.Masters.{item_with, store_with, record_at};
ghost use Rattle.stock_model.specs.Returns.{returned};

use crate::masters;
use crate::records::Record;
use stock_nums::cause::{Method, Target};
use stock_nums::code::Code;
use stock_nums::moment::Moment;
use stock_nums::numbers::{AccountNo, ItemNo, Qty, RecordNo, StoreNo};

/// What a voucher may name: the items, warehouses and records of a journal.
pub trait Names {
    /// The journal whose items, warehouses and records they are.
    ghost journal: { Self → List Record };

    /// The item with this code, and its cost formula. None exactly where no item has the code.
    fn item_with(&self, code: &Code) -> Option<(ItemNo, Method)>
        ensures { result ≡ item_with (journal self.now) code.now };

    /// The warehouse with this code, and its account. None exactly where no warehouse has the code.
    fn store_with(&self, code: &Code) -> Option<(StoreNo, AccountNo)>
        ensures { result ≡ store_with (journal self.now) code.now };

    /// The record with this number, from 1. None exactly where the journal has no such record.
    fn record_at(&self, number: RecordNo) -> Option<&Record>
        ensures { option_copied result ≡ record_at (journal self.now) number.0 };
}

/// What a voucher may name, which of it is in force, what names it, how many units of lines were returned, and up to which moment
/// the past is closed.
pub trait Returns: Names {
    /// Whether the record with this number, from 1, is in force: no later record of the journal takes it back.
    fn is_live(&self, number: RecordNo) -> bool
        ensures { result ≡ is_live (Self.Names.journal self.now) number.0 };

    /// The first record in force that names a line of the one with this number, from 1. None exactly where none does.
    fn first_link(&self, number: RecordNo) -> Option<RecordNo>
        ensures { result ≡ option_map record_number (first_link (Self.Names.journal self.now) number.0) };

    /// How many units of the line all vouchers in force return, whatever their moments.
    fn returned(&self, target: Target) -> Qty
        ensures { result.0 ≡ returned (all_entries (Self.Names.journal self.now)) target };

    /// Up to which moment, this one included, the past is closed. None exactly where no record closes any.
    fn frozen(&self) -> Option<Moment>
        ensures { result ≡ frozen (Self.Names.journal self.now) };
}

/// The items, warehouses and records among these records, found by going over them all.
#[derive(Clone, Copy)]
pub struct Listed<'a> {
    pub records: &'a [Record],
    ghost few: { length records.now < 2 ^ 32 },
}

impl<'a> Names for Listed<'a> {
    ghost journal = { λ listed. listed.records.now };

    fn item_with(&self, code: &Code) -> Option<(ItemNo, Method)> {
        masters::item_with(self.records, code)
    }

    fn store_with(&self, code: &Code) -> Option<(StoreNo, AccountNo)> {
        masters::store_with(self.records, code)
    }

    fn record_at(&self, number: RecordNo) -> Option<&Record> {
        masters::record_at(self.records, number)
    }
}
