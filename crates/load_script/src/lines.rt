//! The lines of the script that `load` answers, each with its line feed.
ghost use Rattle.std.specs.Prelude.{◌≡◌, ◌≤◌, IfOk, string_bytes};
ghost use Rattle.load_script.specs.LoadScript.{first_units, first_receipt, two_digits, moment_of, item_of, issue_line, transfer_line, receipt_line, voucher_line, work_line, head_lines, last_lines};
ghost use Rattle.stock_words.specs.declared.words.TheConstants.{MAX_LOAD};

use std::alloc::{AllocError, Global};

/// Two items and two warehouses: four lines.
#[tactic(auto, unfolding(crate::specs::LoadScript::head_lines))]
pub fn head_lines() -> &'static str
    ensures { result.now ≡ head_lines }
{
    "{\"do\":\"item\",\"code\":\"L1\",\"method\":\"fifo\"}\n\
     {\"do\":\"item\",\"code\":\"L2\",\"method\":\"average\"}\n\
     {\"do\":\"store\",\"code\":\"S1\",\"account\":100}\n\
     {\"do\":\"store\",\"code\":\"S2\",\"account\":101}\n"
}

/// The first receipt: `count` units of each item come into each warehouse, for 10 minor units each.
///
/// # Errors
///
/// `AllocError`: memory was wanting.
pub fn first_receipt(alloc: Global, count: u32) -> Result<String, AllocError>
    requires { count ≤ MAX_LOAD }
    ensures { IfOk result (λ text. string_bytes text ≡ first_receipt count) }
{
    let (a, b) = (
        first_units(alloc, "L1", "S1", count)?,
        first_units(alloc, "L1", "S2", count)?,
    );
    let (c, d) = (
        first_units(alloc, "L2", "S1", count)?,
        first_units(alloc, "L2", "S2", count)?,
    );
    format!(in alloc;
        "{{\"do\":\"receipt\",\"at\":\"2026-01-01T00:00:00\",\"lines\":[{a},{b},{c},{d}]}}\n"
    )
}

fn first_units(alloc: Global, item: &str, store: &str, count: u32) -> Result<String, AllocError>
    requires { count ≤ MAX_LOAD }
    ensures { IfOk result (λ text. string_bytes text ≡ first_units item.now store.now count) }
{
    let amount = 10 * count;
    format!(in alloc;
        "{{\"item\":\"{item}\",\"store\":\"{store}\",\"qty\":{count},\"amount\":{amount}}}"
    )
}

/// The voucher with this number, from 1. Of four vouchers two are issues, one is a transfer and one a receipt.
///
/// # Errors
///
/// `AllocError`: memory was wanting.
#[tactic(auto, unfolding(crate::specs::LoadScript::voucher_line))]
pub fn voucher_line(alloc: Global, number: u32) -> Result<String, AllocError>
    requires { number ≤ MAX_LOAD }
    ensures { IfOk result (λ text. string_bytes text ≡ voucher_line number) }
{
    match number % 4 {
        0 => receipt_line(alloc, number),
        3 => transfer_line(alloc, number),
        _ => issue_line(alloc, number),
    }
}

fn issue_line(alloc: Global, number: u32) -> Result<String, AllocError>
    requires { number ≤ MAX_LOAD }
    ensures { IfOk result (λ text. string_bytes text ≡ issue_line number) }
{
    let moment = moment_of(alloc, number)?;
    let item = item_of(number);
    format!(in alloc;
        "{{\"do\":\"issue\",\"at\":\"{moment}\",\"use\":\"sold\",\"lines\":[{{\"item\":\"{item}\",\"store\":\"S1\",\"qty\":1}}]}}\n"
    )
}

fn transfer_line(alloc: Global, number: u32) -> Result<String, AllocError>
    requires { number ≤ MAX_LOAD }
    ensures { IfOk result (λ text. string_bytes text ≡ transfer_line number) }
{
    let moment = moment_of(alloc, number)?;
    let item = item_of(number);
    format!(in alloc;
        "{{\"do\":\"transfer\",\"at\":\"{moment}\",\"lines\":[{{\"item\":\"{item}\",\"from\":\"S1\",\"to\":\"S2\",\"qty\":1}}]}}\n"
    )
}

fn receipt_line(alloc: Global, number: u32) -> Result<String, AllocError>
    requires { number ≤ MAX_LOAD }
    ensures { IfOk result (λ text. string_bytes text ≡ receipt_line number) }
{
    let moment = moment_of(alloc, number)?;
    let item = item_of(number);
    let amount = number % 100 + 1;
    format!(in alloc;
        "{{\"do\":\"receipt\",\"at\":\"{moment}\",\"lines\":[{{\"item\":\"{item}\",\"store\":\"S1\",\"qty\":1,\"amount\":{amount}}}]}}\n"
    )
}

/// The moment of a voucher, on one of 27 days, so that vouchers come in no order.
fn moment_of(alloc: Global, number: u32) -> Result<String, AllocError>
    requires { number ≤ MAX_LOAD }
    ensures { IfOk result (λ text. string_bytes text ≡ moment_of number) }
{
    let day = two_digits(alloc, 2 + 17 * number % 27)?;
    let second = two_digits(alloc, number % 60)?;
    format!(in alloc; "2026-01-{day}T12:00:{second}")
}

fn two_digits(alloc: Global, number: u32) -> Result<String, AllocError>
    ensures { IfOk result (λ text. string_bytes text ≡ two_digits number) }
{
    let (tens, ones) = (number / 10, number % 10);
    format!(in alloc; "{tens}{ones}")
}

fn item_of(number: u32) -> &'static str
    ensures { result.now ≡ item_of number }
{
    if number / 4 % 2 == 0 { "L1" } else { "L2" }
}

/// What comes after the voucher with this number: a thousand turns of a worker after each thousandth, and else nothing.
#[tactic(auto, unfolding(crate::specs::LoadScript::work_line))]
pub fn work_line(number: u32) -> &'static str
    ensures { result.now ≡ work_line number }
{
    if number % 1000 == 0 {
        "{\"do\":\"work\",\"turns\":1000}\n"
    } else {
        ""
    }
}

/// What comes after all vouchers: all is published, and shown.
#[tactic(auto, unfolding(crate::specs::LoadScript::last_lines))]
pub fn last_lines() -> &'static str
    ensures { result.now ≡ last_lines }
{
    "{\"do\":\"settle\"}\n{\"do\":\"report\",\"of\":\"balance\"}\n"
}
