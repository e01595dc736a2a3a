//! The words of the fields that have a choice of words.
ghost use Rattle.std.specs.Prelude.{◌≡◌};
ghost use Rattle.voucher_json.specs.Fields.{choose};
ghost use Rattle.voucher_json.specs.Records.{record_kinds, methods, purposes, bases};
ghost use Rattle.voucher_json.specs.Requests.{desk_kinds, kinds, sheets, formats};

use stock_model::queries::Format;
use stock_model::vouchers::{Basis, Purpose};
use stock_nums::cause::Method;

/// What a record is of.
#[derive(Clone, Copy, Debug, PartialEq, Eq)]
pub enum RecordKind {
    Item,
    Store,
    Receipt,
    Issue,
    Transfer,
    CustomerReturn,
    SupplierReturn,
    Landed,
    Freeze,
    Cancel,
}

/// What a request does.
#[derive(Clone, Copy, Debug, PartialEq, Eq)]
pub enum Kind {
    /// It posts a record.
    Post(RecordKind),
    Work,
    Settle,
    Report,
}

/// What the sheet of a report is of. The fields of the report depend on it.
#[derive(Clone, Copy, Debug, PartialEq, Eq)]
pub enum SheetKind {
    Balance,
    Layers,
    Ledger,
    Accounts,
    Voucher,
}

/// The kind that a word of `do` means.
pub fn kind_named(word: &str, at_desk: bool) -> Option<Kind>
    ensures { result ≡ choose (kinds at_desk) word.now }
{
    if at_desk {
        desk_kind_named(word)
    } else if word == "work" {
        Some(Kind::Work)
    } else if word == "settle" {
        Some(Kind::Settle)
    } else {
        desk_kind_named(word)
    }
}

/// The kind that a word of `do` means at a desk.
fn desk_kind_named(word: &str) -> Option<Kind>
    ensures { result ≡ choose desk_kinds word.now }
{
    if word == "report" {
        return Some(Kind::Report);
    }
    record_kind_named(word).map(Kind::Post)
}

/// The kind of a record that a word of `do` means.
pub fn record_kind_named(word: &str) -> Option<RecordKind>
    ensures { result ≡ choose record_kinds word.now }
{
    if word == "item" {
        Some(RecordKind::Item)
    } else if word == "store" {
        Some(RecordKind::Store)
    } else if word == "receipt" {
        Some(RecordKind::Receipt)
    } else if word == "issue" {
        Some(RecordKind::Issue)
    } else if word == "transfer" {
        Some(RecordKind::Transfer)
    } else if word == "customer-return" {
        Some(RecordKind::CustomerReturn)
    } else if word == "supplier-return" {
        Some(RecordKind::SupplierReturn)
    } else if word == "landed" {
        Some(RecordKind::Landed)
    } else if word == "freeze" {
        Some(RecordKind::Freeze)
    } else if word == "cancel" {
        Some(RecordKind::Cancel)
    } else {
        None
    }
}

/// The cost formula that a word of `method` means.
pub fn method_named(word: &str) -> Option<Method>
    ensures { result ≡ choose methods word.now }
{
    if word == "fifo" {
        Some(Method::Fifo)
    } else if word == "average" {
        Some(Method::Average)
    } else {
        None
    }
}

/// The purpose that a word of `use` means.
pub fn purpose_named(word: &str) -> Option<Purpose>
    ensures { result ≡ choose purposes word.now }
{
    if word == "sold" {
        Some(Purpose::Sold)
    } else if word == "used" {
        Some(Purpose::Used)
    } else {
        None
    }
}

/// The basis that a word of `basis` means.
pub fn basis_named(word: &str) -> Option<Basis>
    ensures { result ≡ choose bases word.now }
{
    if word == "qty" {
        Some(Basis::Quantity)
    } else if word == "amount" {
        Some(Basis::Amount)
    } else {
        None
    }
}

/// The kind of a sheet that a word of `of` means.
pub fn sheet_kind_named(word: &str) -> Option<SheetKind>
    ensures { result ≡ choose sheets word.now }
{
    if word == "balance" {
        Some(SheetKind::Balance)
    } else if word == "layers" {
        Some(SheetKind::Layers)
    } else if word == "ledger" {
        Some(SheetKind::Ledger)
    } else if word == "accounts" {
        Some(SheetKind::Accounts)
    } else if word == "voucher" {
        Some(SheetKind::Voucher)
    } else {
        None
    }
}

/// The format that a word of `as` means.
pub fn format_named(word: &str) -> Option<Format>
    ensures { result ≡ choose formats word.now }
{
    if word == "json" {
        Some(Format::Json)
    } else if word == "csv" {
        Some(Format::Csv)
    } else {
        None
    }
}
