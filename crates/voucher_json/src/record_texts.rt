//! The stored texts of records.
ghost use Rattle.std.specs.Prelude.{◌≡◌, ◌↔◌, ℕ, List, All, IsTrue, IfOk, IsUtf8};
ghost use Rattle.serde_json.specs.View.{view};
ghost use Rattle.stock_nums.specs.Codes.{is_code};
ghost use Rattle.stock_model.specs.declared.records.Record.{Record};
ghost use Rattle.stock_model.specs.declared.vouchers.What.{What};
ghost use Rattle.voucher_json.specs.RecordTexts.{method_word, purpose_word, basis_word, dated_data, what_data, record_data, record_text, codes_of};

use crate::moment_strings::moment_string;
use crate::voucher_lines::{VoucherLine, lines_value};
use serde_json::{Value, json};
use std::alloc::{AllocError, Global};
use stock_model::records::Record;
use stock_model::vouchers::{Basis, IssueLine, Purpose, What};
use stock_nums::cause::{Method, Target};
use stock_nums::code::Code;
use stock_nums::lines::Lines;
use stock_nums::memory::NoMemory;
use stock_nums::moment::Moment;
use stock_nums::numbers::{AccountNo, Minor, RecordNo};

/// The stored text of a record: JSON with no space, the keys in byte order, and no line feed. The key `desk`
/// says the desk, from 0 to 16.
pub fn record_text(alloc: Global, item: &Record) -> Result<Lines<u8>, NoMemory>
    ensures text { IfOk result (λ text. text ≡ record_text item.now) }
    ensures utf8 { IfOk result IsUtf8 }
{
    let text = record_value(alloc, item)?.to_string(alloc)?;
    Ok(Lines::from_vec(text.into_bytes()))
}

/// Whether the bytes are exactly the stored text of the record: with no space, with each key once in byte order,
/// and with the shortest escapes. Nothing is stored in two ways, so that a change of a stored byte is seen.
pub fn is_text_of(alloc: Global, item: &Record, bytes: &[u8]) -> Result<bool, NoMemory>
    ensures { IfOk result (λ same. IsTrue same ↔ (bytes.now ≡ record_text item.now)) }
{
    let text = record_text(alloc, item)?;
    Ok(bytes == text.as_slice())
}

/// The stored text of a record whose codes are UTF-8 is UTF-8, and well-formed codes are.
pub fn record_texts_are_utf8()
    ensures text { (r : Record) → All IsUtf8 (codes_of r.what) → IsUtf8 (record_text r) }
    ensures code { (code : List ℕ) → IsTrue (is_code code) → IsUtf8 code }
{}

/// The JSON value of a record.
fn record_value(alloc: Global, item: &Record) -> Result<Value, AllocError>
    ensures { IfOk result (λ value. view value ≡ record_data item.now) }
{
    let desk = item.desk.0;
    match &item.what {
        What::Item { code, method } => item_value(alloc, desk, code, *method),
        What::Store { code, account } => store_value(alloc, desk, code, *account),
        What::Receipt { at, lines } => dated_value(alloc, desk, "receipt", *at, lines),
        What::Issue { at, purpose, lines } => issue_value(alloc, desk, *at, *purpose, lines),
        What::Transfer { at, lines } => dated_value(alloc, desk, "transfer", *at, lines),
        What::CustomerReturn { at, lines } => {
            dated_value(alloc, desk, "customer-return", *at, lines)
        }
        What::SupplierReturn { at, lines } => {
            dated_value(alloc, desk, "supplier-return", *at, lines)
        }
        What::Landed {
            charge,
            basis,
            targets,
        } => landed_value(alloc, desk, *charge, *basis, targets),
        What::Freeze { until } => freeze_value(alloc, desk, *until),
        What::Cancel { target } => cancel_value(alloc, desk, *target),
    }
}

/// The JSON value of a new item.
fn item_value(alloc: Global, desk: u32, code: &Code, method: Method) -> Result<Value, AllocError>
    ensures { IfOk result (λ value. view value ≡ what_data desk (What.Item code.now method)) }
{
    let word = method_word(method);
    json!(in alloc; {"code": code.text(), "desk": desk, "do": "item", "method": word})
}

/// The JSON value of a new warehouse.
fn store_value(
    alloc: Global,
    desk: u32,
    code: &Code,
    account: AccountNo,
) -> Result<Value, AllocError>
    ensures { IfOk result (λ value. view value ≡ what_data desk (What.Store code.now account)) }
{
    json!(in alloc; {"account": account.0, "code": code.text(), "desk": desk, "do": "store"})
}

/// The JSON value of a voucher that has a moment and lines alone, by the word of its kind.
fn dated_value<L: VoucherLine>(
    alloc: Global,
    desk: u32,
    word: &str,
    at: Moment,
    lines: &Lines<L>,
) -> Result<Value, AllocError>
    ensures { IfOk result (λ value. view value ≡ dated_data L.table desk word.now at lines.now) }
{
    let at = moment_string(alloc, at)?;
    let lines = lines_value(alloc, lines.as_slice())?;
    json!(in alloc; {"at": at, "desk": desk, "do": word, "lines": lines})
}

/// The JSON value of an issue.
fn issue_value(
    alloc: Global,
    desk: u32,
    at: Moment,
    purpose: Purpose,
    lines: &Lines<IssueLine>,
) -> Result<Value, AllocError>
    ensures { IfOk result (λ value. view value ≡ what_data desk (What.Issue at purpose lines.now)) }
{
    let at = moment_string(alloc, at)?;
    let lines = lines_value(alloc, lines.as_slice())?;
    let word = purpose_word(purpose);
    json!(in alloc; {"at": at, "desk": desk, "do": "issue", "lines": lines, "use": word})
}

/// The JSON value of a landed charge.
fn landed_value(
    alloc: Global,
    desk: u32,
    charge: Minor,
    basis: Basis,
    targets: &Lines<Target>,
) -> Result<Value, AllocError>
    ensures { IfOk result (λ value. view value ≡ what_data desk (What.Landed charge basis targets.now)) }
{
    let targets = lines_value(alloc, targets.as_slice())?;
    let word = basis_word(basis);
    json!(in alloc; {
        "basis": word,
        "charge": charge.0,
        "desk": desk,
        "do": "landed",
        "targets": targets
    })
}

/// The JSON value of a freeze.
fn freeze_value(alloc: Global, desk: u32, until: Moment) -> Result<Value, AllocError>
    ensures { IfOk result (λ value. view value ≡ what_data desk (What.Freeze until)) }
{
    let until = moment_string(alloc, until)?;
    json!(in alloc; {"desk": desk, "do": "freeze", "until": until})
}

/// The JSON value of a cancel.
fn cancel_value(alloc: Global, desk: u32, target: RecordNo) -> Result<Value, AllocError>
    ensures { IfOk result (λ value. view value ≡ what_data desk (What.Cancel target)) }
{
    json!(in alloc; {"desk": desk, "do": "cancel", "record": target.0})
}

/// The word of `method` for a cost formula.
fn method_word(method: Method) -> &'static str
    ensures { result.now ≡ method_word method }
{
    match method {
        Method::Fifo => "fifo",
        Method::Average => "average",
    }
}

/// The word of `use` for a purpose.
fn purpose_word(purpose: Purpose) -> &'static str
    ensures { result.now ≡ purpose_word purpose }
{
    match purpose {
        Purpose::Sold => "sold",
        Purpose::Used => "used",
    }
}

/// The word of `basis` for a basis.
fn basis_word(basis: Basis) -> &'static str
    ensures { result.now ≡ basis_word basis }
{
    match basis {
        Basis::Quantity => "qty",
        Basis::Amount => "amount",
    }
}
