//! The texts of the verdicts.
ghost use Rattle.std.specs.Prelude.{◌≡◌, ◌++◌, false, IfOk, codes, map};
ghost use Rattle.serde_json.specs.View.{view};
ghost use Rattle.serde_json.specs.Written.{compact_text, has_float};
ghost use Rattle.stock_audit.specs.Texts.{account_data, differs_data, side_text, sound_data, verdict_data, verdict_text, worth_data};

use generation_audit::verdict::Verdict;
use serde_json::{Value, json};
use std::alloc::{AllocError, Global};
use stock_model::ledger_lines::Balance;
use stock_nums::entry::Worth;
use stock_nums::numbers::RecordNo;
use stock_nums::place::{Side, Spot};

/// The line that tells a verdict, with its line feed.
pub(crate) fn verdict_text(alloc: Global, verdict: &Verdict) -> Result<Vec<u8>, AllocError>
    ensures { IfOk result (λ text. text.items ≡ verdict_text verdict.now) }
{
    let value = verdict_value(alloc, verdict)?;
    line_of(alloc, value)
}

/// The text of a JSON value with no float, and a line feed.
fn line_of(alloc: Global, value: Value) -> Result<Vec<u8>, AllocError>
    requires { has_float (view value) ≡ false }
    ensures { IfOk result (λ text. text.items ≡ compact_text (view value) ++ codes "\n") }
{
    let mut text = value.to_string(alloc)?.into_bytes();
    text.extend_from_slice(b"\n")?;
    Ok(text)
}

fn verdict_value(alloc: Global, verdict: &Verdict) -> Result<Value, AllocError>
    ensures { IfOk result (λ value. view value ≡ verdict_data verdict.now) }
{
    match verdict {
        Verdict::Sound {
            records,
            covered,
            accounts,
        } => sound_value(alloc, *records, *covered, accounts.as_slice()),
        Verdict::Head => json!(in alloc; {"status": "head"}),
        Verdict::Record { number } => {
            json!(in alloc; {"record": *number, "status": "unreadable"})
        }
        Verdict::Differs { spot, stored, due } => differs_value(alloc, *spot, *stored, *due),
    }
}

/// The JSON value of tables that are sound.
fn sound_value(
    alloc: Global,
    records: u32,
    covered: RecordNo,
    accounts: &[Balance],
) -> Result<Value, AllocError>
    ensures { IfOk result (λ value. view value ≡ sound_data records covered.0 accounts.now) }
{
    let accounts = account_values(alloc, accounts)?;
    json!(in alloc; {
        "accounts": Value::Array(accounts),
        "covered": covered.0,
        "records": records,
        "status": "sound"
    })
}

/// The JSON values of the balances of accounts.
fn account_values(alloc: Global, accounts: &[Balance]) -> Result<Vec<Value>, AllocError>
    ensures { IfOk result (λ values. map view values.items ≡ map account_data accounts.now) }
{
    let mut values = Vec::new(alloc);
    for account in accounts.iter() {
        values.push(account_value(alloc, *account)?)?;
    }
    Ok(values)
}

fn account_value(alloc: Global, account: Balance) -> Result<Value, AllocError>
    ensures { IfOk result (λ value. view value ≡ account_data account) }
{
    json!(in alloc; {"account": account.account.0, "balance": account.balance.0})
}

/// The JSON value of a spot at which another worth is stored than is due.
fn differs_value(
    alloc: Global,
    spot: Spot,
    stored: Option<Worth>,
    due: Option<Worth>,
) -> Result<Value, AllocError>
    ensures { IfOk result (λ value. view value ≡ differs_data spot stored due) }
{
    let replayed = worth_value(alloc, due)?;
    let stored = worth_value(alloc, stored)?;
    json!(in alloc; {
        "line": spot.line,
        "record": spot.voucher.0,
        "replayed": replayed,
        "side": side_text(spot.side),
        "status": "differs",
        "stored": stored
    })
}

/// The JSON value of a worth: its value and its share, or nothing where there is none.
fn worth_value(alloc: Global, worth: Option<Worth>) -> Result<Value, AllocError>
    ensures { IfOk result (λ value. view value ≡ worth_data worth) }
{
    match worth {
        Some(worth) => json!(in alloc; [worth.value.0, worth.share.0]),
        None => json!(in alloc; []),
    }
}

fn side_text(side: Side) -> &'static str
    ensures { result.now ≡ side_text side }
{
    match side {
        Side::Leaves => "out",
        Side::Enters => "in",
    }
}
