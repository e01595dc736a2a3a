//! A count of stock comes to the vouchers that correct what was held at its moment.

ghost use Rattle.std.specs.Prelude.{IfOk, IfSome};
ghost use Rattle.stock_count.specs.Plans.{AreWithinLimits, IsWithinLimits};

use crate::records::record;
use std::alloc::Global;
use stock_count::plan::{CountFault, CountPlan};
use stock_count::planning::plan_count;
use stock_model::records::Record;
use stock_model::vouchers::What;
use stock_nums::limits::MAX_RECORDS;
use stock_nums::numbers::DeskNo;
use voucher_import::reading::read_sheet;
use voucher_import::sheet::SheetVoucher;
use voucher_json::record_texts::record_text;
use voucher_kinds::journal::Journal;

/// The items A and B, and the warehouse W1, as records 1 to 3.
const HEADS: [&str; 3] = [
    r#"{"do":"item","code":"A","method":"fifo"}"#,
    r#"{"do":"item","code":"B","method":"average"}"#,
    r#"{"do":"store","code":"W1","account":100}"#,
];

/// Ten units of A on the second day, as record 4, of which three are sold on the third.
const RECEIPT: &str =
    r#"{"do":"receipt","at":"2026-01-02T09:00:00","lines":[{"item":"A","store":"W1","qty":10,"amount":1000}]}"#;

const SALE: &str =
    r#"{"do":"issue","at":"2026-01-03T09:00:00","use":"sold","lines":[{"item":"A","store":"W1","qty":3}]}"#;

/// The sale is taken back, as record 6.
const CANCEL: &str = r#"{"do":"cancel","record":5}"#;

/// One more unit of A than one line can take out, from two lines.
const MOST: &str =
    r#"{"do":"receipt","at":"2026-01-02T09:00:00","lines":[{"item":"A","store":"W1","qty":1000000000,"amount":0}]}"#;

const ONE: &str =
    r#"{"do":"receipt","at":"2026-01-02T09:00:00","lines":[{"item":"A","store":"W1","qty":1,"amount":0}]}"#;

// The journal of these lines after the heads.
fn journal_of(alloc: Global, lines: &[&str]) -> Option<Journal> {
    let mut journal = Journal::new(alloc);
    for line in HEADS {
        keep(alloc, &mut journal, line)?;
    }
    for line in lines {
        keep(alloc, &mut journal, line)?;
    }
    Some(journal)
}

fn keep(alloc: Global, journal: &mut Journal, line: &str) -> Option<()> {
    let record = record(alloc, line).ok()?;
    journal.check(alloc, &record).ok()?;
    if journal.count() as usize >= MAX_RECORDS {
        return None;
    }
    journal.push(record).ok()?;
    Some(())
}

// What the only count of a sheet with these rows comes to in this journal.
fn planned(alloc: Global, journal: &Journal, rows: &str) -> Option<Result<CountPlan, CountFault>>
    ensures { IfSome result (λ outcome. IfOk outcome AreWithinLimits) }
{
    if rows.len() > 10_000 {
        return None;
    }
    let vouchers = read_sheet(alloc, rows.as_bytes()).ok()?;
    match vouchers.as_slice() {
        [SheetVoucher::Count(sheet)] => Some(plan_count(alloc, journal, sheet)),
        _ => None,
    }
}

// Whether the text is that of what is said, as a record of no desk: none of nothing.
fn is_said_so(alloc: Global, what: Option<What>, text: &str) -> bool
    requires { IfSome what IsWithinLimits }
{
    let Some(what) = what else {
        return text.is_empty();
    };
    let record = Record {
        desk: DeskNo(0),
        what,
    };
    match record_text(alloc, &record) {
        Ok(said) => said.as_slice() == text.as_bytes(),
        Err(_) => false,
    }
}

// Whether the plan has these differences, and vouchers with these texts.
fn is_so(alloc: Global, plan: CountPlan, diffs: &[i64], issue: &str, receipt: &str) -> bool
    requires { AreWithinLimits plan }
{
    let CountPlan {
        diffs: found,
        issue: issued,
        receipt: received,
    } = plan;
    found.as_slice() == diffs
        && is_said_so(alloc, issued, issue)
        && is_said_so(alloc, received, receipt)
}

// Whether the count comes to these differences and to vouchers with these texts, the second empty where there is none.
fn comes_to(alloc: Global, lines: &[&str], rows: &str, diffs: &[i64], texts: [&str; 2]) -> bool {
    let Some(journal) = journal_of(alloc, lines) else {
        return false;
    };
    let [issue, receipt] = texts;
    match planned(alloc, &journal, rows) {
        Some(Ok(plan)) => is_so(alloc, plan, diffs, issue, receipt),
        _ => false,
    }
}

// Which fault the count has.
fn fault(alloc: Global, lines: &[&str], rows: &str) -> Option<CountFault> {
    let journal = journal_of(alloc, lines)?;
    planned(alloc, &journal, rows)?.err()
}

/// Five of A and two of B on the fourth day.
const FIVE_AND_TWO: &str =
    "voucher,do,at,item,store,to,qty,amount\nc1,count,2026-01-04T09:00:00,A,W1,,5,\nc1,count,2026-01-04T09:00:00,B,W1,,2,\n";

/// Of A as many as there are, and none of B.
const SEVEN: &str =
    "voucher,do,at,item,store,to,qty,amount\nc1,count,2026-01-04T09:00:00,A,W1,,7,\nc1,count,2026-01-04T09:00:00,B,W1,,0,\n";

const TWO_MISSING: &str =
    r#"{"at":"2026-01-04T09:00:00","desk":0,"do":"issue","lines":[{"item":"A","qty":2,"store":"W1"}],"use":"used"}"#;

const TWO_MORE: &str =
    r#"{"at":"2026-01-04T09:00:00","desk":0,"do":"receipt","lines":[{"amount":0,"item":"B","qty":2,"store":"W1"}]}"#;

#[test]
fn corrects_what_was_held(rt: HostRuntime) {
    let texts = [TWO_MISSING, TWO_MORE];
    assert!(rt; comes_to(rt.alloc(), &[RECEIPT, SALE], FIVE_AND_TWO, &[-2, 2], texts));
    assert!(rt; comes_to(rt.alloc(), &[RECEIPT, SALE], SEVEN, &[0, 0], ["", ""]));
}

/// Three units of B alone, on the first day, before there was anything.
const THREE_FIRST: &str =
    "voucher,do,at,item,store,to,qty,amount\nc1,count,2026-01-01T09:00:00,B,W1,,3,\n";

const THREE_MORE: &str =
    r#"{"at":"2026-01-01T09:00:00","desk":0,"do":"receipt","lines":[{"amount":0,"item":"B","qty":3,"store":"W1"}]}"#;

#[test]
fn receives_a_surplus_alone(rt: HostRuntime) {
    assert!(rt;
        comes_to(
            rt.alloc(),
            &[RECEIPT, SALE],
            THREE_FIRST,
            &[3],
            ["", THREE_MORE]
        )
    );
}

/// Eight of A at the moment of the sale, which counts, a second before it, and at that of the receipt.
const EIGHT_AT_SALE: &str =
    "voucher,do,at,item,store,to,qty,amount\nc1,count,2026-01-03T09:00:00,A,W1,,8,\n";

const EIGHT_BEFORE: &str =
    "voucher,do,at,item,store,to,qty,amount\nc1,count,2026-01-03T08:59:59,A,W1,,8,\n";

const ONE_MORE: &str =
    r#"{"at":"2026-01-03T09:00:00","desk":0,"do":"receipt","lines":[{"amount":0,"item":"A","qty":1,"store":"W1"}]}"#;

const TWO_LESS: &str =
    r#"{"at":"2026-01-03T08:59:59","desk":0,"do":"issue","lines":[{"item":"A","qty":2,"store":"W1"}],"use":"used"}"#;

#[test]
fn looks_at_its_moment(rt: HostRuntime) {
    assert!(rt;
        comes_to(
            rt.alloc(),
            &[RECEIPT, SALE],
            EIGHT_AT_SALE,
            &[1],
            ["", ONE_MORE]
        )
    );
    assert!(rt;
        comes_to(
            rt.alloc(),
            &[RECEIPT, SALE],
            EIGHT_BEFORE,
            &[-2],
            [TWO_LESS, ""]
        )
    );
}

/// Ten of A at the moment of the sale.
const TEN_AT_SALE: &str =
    "voucher,do,at,item,store,to,qty,amount\nc1,count,2026-01-03T09:00:00,A,W1,,10,\n";

#[test]
fn leaves_out_what_is_taken_back(rt: HostRuntime) {
    assert!(rt;
        comes_to(
            rt.alloc(),
            &[RECEIPT, SALE, CANCEL],
            TEN_AT_SALE,
            &[0],
            ["", ""]
        )
    );
}

/// An item and a warehouse that there are not, of which none were counted, or five.
const NONE_OF_UNKNOWN: &str =
    "voucher,do,at,item,store,to,qty,amount\nc1,count,2026-01-04T09:00:00,C,W1,,0,\nc1,count,2026-01-04T09:00:00,A,W9,,0,\n";

const FIVE_OF_UNKNOWN: &str =
    "voucher,do,at,item,store,to,qty,amount\nc1,count,2026-01-04T09:00:00,C,W1,,5,\n";

const FIVE_MORE: &str =
    r#"{"at":"2026-01-04T09:00:00","desk":0,"do":"receipt","lines":[{"amount":0,"item":"C","qty":5,"store":"W1"}]}"#;

#[test]
fn holds_nothing_of_what_is_unknown(rt: HostRuntime) {
    assert!(rt; comes_to(rt.alloc(), &[RECEIPT], NONE_OF_UNKNOWN, &[0, 0], ["", ""]));
    assert!(rt;
        comes_to(
            rt.alloc(),
            &[RECEIPT],
            FIVE_OF_UNKNOWN,
            &[5],
            ["", FIVE_MORE]
        )
    );
}

/// Two of B, and none of A.
const NONE: &str =
    "voucher,do,at,item,store,to,qty,amount\nc1,count,2026-01-04T09:00:00,B,W1,,2,\nc1,count,2026-01-04T09:00:00,A,W1,,0,\n";

const ALL_MISSING: &str =
    r#"{"at":"2026-01-04T09:00:00","desk":0,"do":"issue","lines":[{"item":"A","qty":1000000000,"store":"W1"}],"use":"used"}"#;

#[test]
fn tells_a_difference_that_no_line_makes_up_for(rt: HostRuntime) {
    let texts = [ALL_MISSING, TWO_MORE];
    assert!(rt; comes_to(rt.alloc(), &[MOST], NONE, &[2, -1_000_000_000], texts));
    assert!(rt; fault(rt.alloc(), &[MOST, ONE], NONE) == Some(CountFault::Wide { line: 2 }));
}
