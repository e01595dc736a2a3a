//! Texts are read as the requests that they are, or their first fault is told.

use crate::faults::{NO_JSON, Told, is_told_so};
use crate::stored_records::is_stored_as;
use std::alloc::Global;
use stock_model::queries::{Format, Query, Sheet};
use stock_model::read_faults::ReadFault;
use stock_model::records::Record;
use stock_model::requests::Request;
use stock_model::vouchers::{Basis, Purpose, What};
use stock_nums::cause::{Method, Target};
use stock_nums::code::Code;
use stock_nums::memory::NoMemory;
use stock_nums::moment::Moment;
use stock_nums::numbers::{AccountNo, DeskNo, Minor, Qty, RecordNo};
use voucher_json::reading::read_request;
use voucher_json::usual_requests::read_usual;

/// The record that a text posts from desk 0; none where it posts none.
fn posted(alloc: Global, text: &str) -> Option<Record> {
    match read_request(alloc, text.as_bytes(), false) {
        Ok(Request::Post(what)) => Some(Record {
            desk: DeskNo(0),
            what,
        }),
        _ => None,
    }
}

/// Whether a text posts what is stored so.
fn is_posted_as(alloc: Global, text: &str, stored: &str) -> bool {
    match posted(alloc, text) {
        Some(record) => is_stored_as(alloc, &record, stored),
        None => false,
    }
}

const KINDS: &[(&str, &str)] = &[
    (
        r#"{"do":"item","code":"a b","method":"average"}"#,
        r#"{"code":"a b","desk":0,"do":"item","method":"average"}"#,
    ),
    (
        r#"{"do":"item","code":"A","method":"fifo"}"#,
        r#"{"code":"A","desk":0,"do":"item","method":"fifo"}"#,
    ),
    (
        r#" {"account":0, "do":"store","code":""} "#,
        r#"{"account":0,"code":"","desk":0,"do":"store"}"#,
    ),
    (
        r#"{"do":"receipt","at":"2026-01-03T07:08:09","lines":[{"item":"B","store":"W1","qty":1,"amount":0},{"item":"C","store":"W2","qty":1000000000,"amount":1000000000000}]}"#,
        r#"{"at":"2026-01-03T07:08:09","desk":0,"do":"receipt","lines":[{"amount":0,"item":"B","qty":1,"store":"W1"},{"amount":1000000000000,"item":"C","qty":1000000000,"store":"W2"}]}"#,
    ),
    (
        r#"{"do":"issue","at":"2026-01-03T07:08:09","use":"used","lines":[{"item":"B","store":"W1","qty":1}]}"#,
        r#"{"at":"2026-01-03T07:08:09","desk":0,"do":"issue","lines":[{"item":"B","qty":1,"store":"W1"}],"use":"used"}"#,
    ),
    (
        r#"{"do":"issue","at":"2026-01-03T07:08:09","use":"sold","lines":[{"item":"B","store":"W1","qty":5}]}"#,
        r#"{"at":"2026-01-03T07:08:09","desk":0,"do":"issue","lines":[{"item":"B","qty":5,"store":"W1"}],"use":"sold"}"#,
    ),
    (
        r#"{"do":"transfer","at":"2026-01-03T07:08:09","lines":[{"item":"B","from":"W1","to":"W2","qty":5}]}"#,
        r#"{"at":"2026-01-03T07:08:09","desk":0,"do":"transfer","lines":[{"from":"W1","item":"B","qty":5,"to":"W2"}]}"#,
    ),
    (
        r#"{"do":"customer-return","at":"2026-01-03T07:08:09","lines":[{"record":1,"line":100,"store":"W1","qty":5}]}"#,
        r#"{"at":"2026-01-03T07:08:09","desk":0,"do":"customer-return","lines":[{"line":100,"qty":5,"record":1,"store":"W1"}]}"#,
    ),
    (
        r#"{"do":"supplier-return","at":"2026-01-03T07:08:09","lines":[{"record":4294967295,"line":1,"store":"W1","qty":5}]}"#,
        r#"{"at":"2026-01-03T07:08:09","desk":0,"do":"supplier-return","lines":[{"line":1,"qty":5,"record":4294967295,"store":"W1"}]}"#,
    ),
    (
        r#"{"do":"landed","charge":1000000000000,"basis":"qty","targets":[{"record":3,"line":1},{"record":3,"line":2}]}"#,
        r#"{"basis":"qty","charge":1000000000000,"desk":0,"do":"landed","targets":[{"line":1,"record":3},{"line":2,"record":3}]}"#,
    ),
    (
        r#"{"basis":"amount","do":"landed","charge":0,"targets":[{"line":1,"record":3}]}"#,
        r#"{"basis":"amount","charge":0,"desk":0,"do":"landed","targets":[{"line":1,"record":3}]}"#,
    ),
    (
        r#"{"do":"freeze","until":"2026-01-03T00:00:00"}"#,
        r#"{"desk":0,"do":"freeze","until":"2026-01-03T00:00:00"}"#,
    ),
    (
        r#"{"do":"cancel","record":7}"#,
        r#"{"desk":0,"do":"cancel","record":7}"#,
    ),
];

#[test]
fn reads_each_kind(rt: HostRuntime) {
    for (text, stored) in KINDS {
        assert!(rt; is_posted_as(rt.alloc(), text, stored), "{text}");
    }
}

const AT: Moment = Moment {
    date: 20_260_103,
    second: 25_689,
};

/// Whether a master is read into these fields, or a voucher into these of its last line.
fn has_fields(what: &What, place: usize) -> bool {
    match place {
        0 => is_item(what),
        1 => is_store(what),
        2 => is_receipt(what),
        3 => is_issue(what),
        4 => is_transfer(what),
        5 => is_customer_return(what),
        6 => is_supplier_return(what),
        7 => is_landed(what),
        _ => is_cancel(what),
    }
}

fn is_item(what: &What) -> bool {
    match what {
        What::Item { code, method } => code.text() == "a b" && *method == Method::Average,
        _ => false,
    }
}

fn is_store(what: &What) -> bool {
    match what {
        What::Store { code, account } => code.text() == "W1" && *account == AccountNo(7),
        _ => false,
    }
}

fn is_receipt(what: &What) -> bool {
    match what {
        What::Receipt { at, lines } => match lines.as_slice() {
            [_, last] => {
                *at == AT
                    && last.item.text() == "C"
                    && last.store.text() == "W2"
                    && (last.qty, last.amount) == (Qty(3), Minor(4))
            }
            _ => false,
        },
        _ => false,
    }
}

fn is_issue(what: &What) -> bool {
    match what {
        What::Issue { at, purpose, lines } => match lines.as_slice() {
            [last] => {
                (*at, *purpose) == (AT, Purpose::Used)
                    && last.item.text() == "B"
                    && last.store.text() == "W1"
                    && last.qty == Qty(5)
            }
            _ => false,
        },
        _ => false,
    }
}

fn is_transfer(what: &What) -> bool {
    match what {
        What::Transfer { at, lines } => match lines.as_slice() {
            [last] => {
                (*at, last.qty) == (AT, Qty(5))
                    && last.item.text() == "B"
                    && last.from.text() == "W1"
                    && last.to.text() == "W2"
            }
            _ => false,
        },
        _ => false,
    }
}

const TARGET: Target = Target {
    voucher: RecordNo(9),
    line: 100,
};

fn is_customer_return(what: &What) -> bool {
    match what {
        What::CustomerReturn { at, lines } => match lines.as_slice() {
            [last] => {
                (*at, last.target, last.qty) == (AT, TARGET, Qty(5)) && last.store.text() == "W1"
            }
            _ => false,
        },
        _ => false,
    }
}

fn is_supplier_return(what: &What) -> bool {
    match what {
        What::SupplierReturn { at, lines } => match lines.as_slice() {
            [last] => {
                (*at, last.target, last.qty) == (AT, TARGET, Qty(5)) && last.store.text() == "W1"
            }
            _ => false,
        },
        _ => false,
    }
}

fn is_landed(what: &What) -> bool {
    match what {
        What::Landed {
            charge,
            basis,
            targets,
        } => {
            (*charge, *basis) == (Minor(11), Basis::Quantity)
                && targets.as_slice() == [TARGET].as_slice()
        }
        _ => false,
    }
}

fn is_cancel(what: &What) -> bool {
    match what {
        What::Cancel { target } => *target == RecordNo(7),
        _ => false,
    }
}

/// Whether a text is read into the fields of this place.
fn is_read_into(alloc: Global, text: &str, place: usize) -> bool {
    match posted(alloc, text) {
        Some(record) => has_fields(&record.what, place),
        None => false,
    }
}

const PLACES: &[(&str, usize)] = &[
    (r#"{"do":"item","code":"a b","method":"average"}"#, 0),
    (r#"{"do":"store","code":"W1","account":7}"#, 1),
    (
        r#"{"do":"receipt","at":"2026-01-03T07:08:09","lines":[{"item":"B","store":"W1","qty":1,"amount":2},{"item":"C","store":"W2","qty":3,"amount":4}]}"#,
        2,
    ),
    (
        r#"{"do":"issue","at":"2026-01-03T07:08:09","use":"used","lines":[{"item":"B","store":"W1","qty":5}]}"#,
        3,
    ),
    (
        r#"{"do":"transfer","at":"2026-01-03T07:08:09","lines":[{"item":"B","from":"W1","to":"W2","qty":5}]}"#,
        4,
    ),
    (
        r#"{"do":"customer-return","at":"2026-01-03T07:08:09","lines":[{"record":9,"line":100,"store":"W1","qty":5}]}"#,
        5,
    ),
    (
        r#"{"do":"supplier-return","at":"2026-01-03T07:08:09","lines":[{"record":9,"line":100,"store":"W1","qty":5}]}"#,
        6,
    ),
    (
        r#"{"do":"landed","charge":11,"basis":"qty","targets":[{"record":9,"line":100}]}"#,
        7,
    ),
    (r#"{"do":"cancel","record":7}"#, 8),
];

#[test]
fn reads_into_fields(rt: HostRuntime) {
    for (text, place) in PLACES {
        assert!(rt; is_read_into(rt.alloc(), text, *place), "{text}");
    }
}

/// How many turns of a worker a text asks for, 0 where it asks to settle; none where it asks for something else.
fn turns(alloc: Global, text: &str) -> Option<u32> {
    match read_request(alloc, text.as_bytes(), false) {
        Ok(Request::Work(turns)) => Some(turns),
        Ok(Request::Settle) => Some(0),
        _ => None,
    }
}

const TURNS: &[(&str, u32)] = &[
    (r#"{"do":"work","turns":1}"#, 1),
    (r#"{"turns":1000000,"do":"work"}"#, 1_000_000),
    (r#"{"do":"settle"}"#, 0),
    (r#"{"do":"fly","do":"settle"}"#, 0),
];

#[test]
fn reads_what_a_worker_is_to_do(rt: HostRuntime) {
    for (text, told) in TURNS {
        assert!(rt; turns(rt.alloc(), text) == Some(*told), "{text}");
    }
}

/// Why a text is no request; none where it is one.
fn fault_of(alloc: Global, text: &[u8], at_desk: bool) -> Option<ReadFault> {
    read_request(alloc, text, at_desk).err()
}

/// Whether a text is refused so.
fn is_refused(alloc: Global, text: &[u8], at_desk: bool, told: Told) -> bool {
    match fault_of(alloc, text, at_desk) {
        Some(fault) => is_told_so(fault, told),
        None => false,
    }
}

const RECEIPT: &str =
    r#"{"at":"2026-01-03T07:08:09","desk":0,"do":"receipt","lines":[{"amount":2,"item":"B","qty":1,"store":"W1"}]}"#;

const ISSUE: &str =
    r#"{"at":"2026-01-03T07:08:09","desk":0,"do":"issue","lines":[{"item":"B","qty":1,"store":"W1"}],"use":"used"}"#;

const SPELLINGS: &[(&str, &str)] = &[
    (
        r#"{"do":"receipt","lines":[{"item":"B","store":"W1","qty":1,"amount":2}],"at":"2026-01-03T07:08:09"}"#,
        RECEIPT,
    ),
    (
        r#"{"do":"receipt","at":"2026-01-03T07:08:09","lines":[{"store":"W1","item":"B","qty":1,"amount":2}]}"#,
        RECEIPT,
    ),
    (
        r#"{"do":"receipt","at":"2026-01-03T07:08:09","lines":[{"item":"A","store":"W1","qty":1,"amount":2,"item":"B"}]}"#,
        RECEIPT,
    ),
    (
        r#"{ "do" : "rec\u0065ipt", "\u0061t" : "2026-01-03T07:08:09", "lines" : [ {"item":"\u0042", "store":"W1", "qty":1, "amount":2} ] }"#,
        RECEIPT,
    ),
    (
        r#"{"do":"issue","at":"2026-01-03T07:08:09","use":"sold","lines":[{"item":"B","store":"W1","qty":1}],"use":"used"}"#,
        ISSUE,
    ),
];

#[test]
fn reads_unusual_spellings(rt: HostRuntime) {
    for (text, stored) in SPELLINGS {
        assert!(rt; is_posted_as(rt.alloc(), text, stored), "{text}");
    }
}

/// Whether the text has the usual form; none where memory is wanting.
fn is_usual(alloc: Global, text: &str) -> Option<bool> {
    match read_usual(alloc, text.as_bytes()) {
        Ok(found) => Some(found.is_some()),
        Err(_) => None,
    }
}

const FORMS: &[(&str, bool)] = &[
    (
        r#"{"do":"receipt","at":"2026-01-03T07:08:09","lines":[{"item":"B","store":"W1","qty":10,"amount":0},{"item":"C","store":"W2","qty":1,"amount":20}]}"#,
        true,
    ),
    (
        r#"{"do": "issue", "at": "2026-01-03T07:08:09", "use": "sold", "lines": [{"item": "B", "store": "W1", "qty": 10}, {"item": "C", "store": "W1", "qty": 5}]} "#,
        true,
    ),
    (
        r#"{"do":"receipt","at":"2026-01-03T07:08:09","lines":[{"item":"B","store":"W1","amount":0,"qty":10}]}"#,
        false,
    ),
    (
        r#"{"do":"issue","at":"2026-01-03T07:08:09","use":"sold","lines":[{"item":"\u0042","store":"W1","qty":10}]}"#,
        false,
    ),
    (
        r#"{"do":"issue","at":"2026-01-03T07:08:09","use":"sold","lines":[{"item":"B","store":"W1","qty":10.0}]}"#,
        false,
    ),
    (r#"{"do":"settle"}"#, false),
];

#[test]
fn knows_the_usual_form(rt: HostRuntime) {
    for (text, want) in FORMS {
        assert!(rt; is_usual(rt.alloc(), text) == Some(*want), "{text}");
    }
}

const FAULTS: &[(&str, Told)] = &[
    ("{", NO_JSON),
    ("[]", ("bad", "request", 0)),
    (r#"{"do":"fly"}"#, ("bad", "do", 0)),
    (r#"{"do":"work"}"#, ("bad", "turns", 0)),
    (r#"{"do":"work","turns":"1"}"#, ("bad", "turns", 0)),
    (r#"{"do":"work","turns":1.0}"#, ("bad", "turns", 0)),
    (r#"{"do":"work","turns":null}"#, ("bad", "turns", 0)),
    (r#"{"do":"work","turns":0,"x":1}"#, ("limit", "turns", 0)),
    (r#"{"do":"work","turns":1000001}"#, ("limit", "turns", 0)),
    (r#"{"do":"work","turns":-1}"#, ("limit", "turns", 0)),
    (
        r#"{"do":"work","turns":10000000000000}"#,
        ("limit", "turns", 0),
    ),
    (r#"{"do":"work","turns":1,"x":1}"#, ("bad", "other", 0)),
    (r#"{"do":"settle","x":1}"#, ("bad", "other", 0)),
    (r#"{"do":"settle","desk":0}"#, ("bad", "other", 0)),
    (
        r#"{"do":"item","code":"A","method":"lifo","x":1}"#,
        ("bad", "method", 0),
    ),
    (r#"{"do":"item","method":"lifo"}"#, ("bad", "code", 0)),
    (r#"{"do":"cancel","x":1}"#, ("bad", "record", 0)),
    (r#"{"do":"cancel","record":"7"}"#, ("bad", "record", 0)),
    (r#"{"do":"cancel","record":0}"#, ("limit", "record", 0)),
    (
        r#"{"do":"cancel","record":4294967296}"#,
        ("limit", "record", 0),
    ),
    (
        r#"{"do":"cancel","record":7,"line":1}"#,
        ("bad", "other", 0),
    ),
    (
        r#"{"do":"store","code":"W","account":1000000001}"#,
        ("limit", "account", 0),
    ),
    (
        r#"{"do":"receipt","at":"2026-02-30T00:00:00","lines":[]}"#,
        ("limit", "at", 0),
    ),
    (
        r#"{"do":"receipt","at":"2026-2-03T00:00:00","lines":[]}"#,
        ("bad", "at", 0),
    ),
    (
        "{\"do\":\"receipt\",\"at\":\"２6-02-03T00:00:00\"}",
        ("bad", "at", 0),
    ),
    (
        r#"{"do":"receipt","at":"2026-02-03T00:00:00","lines":[]}"#,
        ("limit", "lines", 0),
    ),
    (
        r#"{"do":"receipt","at":"2026-02-03T00:00:00","lines":{}}"#,
        ("bad", "lines", 0),
    ),
    (
        r#"{"do":"issue","at":"2026-02-03T00:00:00","use":"lost","lines":[]}"#,
        ("bad", "use", 0),
    ),
    (
        r#"{"do":"issue","at":"2026-01-03T07:08:09","use":"sold","lines":[{"item":"B","store":"W1","qty":1}]}]"#,
        NO_JSON,
    ),
    (
        r#"{"do":"issue","at":"2026-01-03T07:08:09","use":"sold","lines":[{"item":"B","store":"W1","qty":01}]}"#,
        NO_JSON,
    ),
    (
        r#"{"do":"issue","at":"2026-01-03T07:08:09","use":"sold","lines":[{"item":"B","store":"W1","qty":0}]}"#,
        ("limit", "qty", 1),
    ),
];

#[test]
fn tells_the_first_fault(rt: HostRuntime) {
    for (text, told) in FAULTS {
        assert!(rt;
            is_refused(rt.alloc(), text.as_bytes(), false, *told),
            "{text}"
        );
    }
}

#[test]
fn a_desk_may_neither_settle_nor_work(rt: HostRuntime) {
    for text in [r#"{"do":"settle"}"#, r#"{"do":"work","turns":1}"#] {
        assert!(rt;
            is_refused(rt.alloc(), text.as_bytes(), true, ("bad", "do", 0)),
            "{text}"
        );
    }
}

const NO_TEXTS: &[(&[u8], Told)] = &[
    (b"", NO_JSON),
    (b"\xef\xbb\xbf{\"do\":\"settle\"}", NO_JSON),
    (b"{\"do\":\"settle\xff\"}", NO_JSON),
    (b"{\"do\":\"settle\"}\0", NO_JSON),
    (b"{\"do\":\"set\x1ftle\"}", NO_JSON),
    (b"{\"do\":\"set\x7ftle\"}", ("bad", "do", 0)),
    (b"{\"do\":\"settle\",\"x\":\"\\ud800\"}", NO_JSON),
];

#[test]
fn refuses_what_is_no_json(rt: HostRuntime) {
    for (text, told) in NO_TEXTS {
        assert!(rt; is_refused(rt.alloc(), text, false, *told), "{}", told.0);
    }
}

/// What a report asks for.
#[derive(Clone, Copy)]
struct Asked {
    sheet: Sheet,
    need: u32,
    /// Whether it shows what is up to the one moment, or all.
    is_until: bool,
    item: Option<&'static str>,
    store: Option<&'static str>,
    format: Format,
}

const NOTHING: Asked = Asked {
    sheet: Sheet::Balance,
    need: 0,
    is_until: false,
    item: None,
    store: None,
    format: Format::Json,
};

fn is_spelled(code: &Option<Code>, text: Option<&str>) -> bool {
    match (code, text) {
        (Some(code), Some(text)) => code.text() == text,
        (None, None) => true,
        _ => false,
    }
}

/// Whether a report asks for this.
fn asks(query: &Query, asked: &Asked) -> bool {
    let until = if asked.is_until { Some(AT) } else { None };
    query.sheet == asked.sheet
        && query.need == RecordNo(asked.need)
        && query.until == until
        && is_spelled(&query.item, asked.item)
        && is_spelled(&query.store, asked.store)
        && query.format == asked.format
}

/// Whether a text of a desk asks for this.
fn is_report_of(alloc: Global, text: &str, asked: &Asked) -> bool {
    match read_request(alloc, text.as_bytes(), true) {
        Ok(Request::Report(query)) => asks(&query, asked),
        _ => false,
    }
}

const REPORTS: &[(&str, Asked)] = &[
    (r#"{"of":"balance","do":"report"}"#, NOTHING),
    (
        r#"{"do":"report","of":"layers","need":7,"as":"json"}"#,
        Asked {
            sheet: Sheet::Layers,
            need: 7,
            ..NOTHING
        },
    ),
    (
        r#"{"do":"report","of":"balance","need":4294967295,"until":"2026-01-03T07:08:09","item":"B","store":"W1","as":"json"}"#,
        Asked {
            sheet: Sheet::Balance,
            need: 4_294_967_295,
            is_until: true,
            item: Some("B"),
            store: Some("W1"),
            format: Format::Json,
        },
    ),
    (
        r#"{"do":"report","of":"ledger","until":"2026-01-03T07:08:09","item":"B","store":"W1","as":"csv"}"#,
        Asked {
            sheet: Sheet::Ledger,
            need: 0,
            is_until: true,
            item: Some("B"),
            store: Some("W1"),
            format: Format::Csv,
        },
    ),
    (
        r#"{"do":"report","of":"voucher","of":"ledger"}"#,
        Asked {
            sheet: Sheet::Ledger,
            ..NOTHING
        },
    ),
    (
        r#"{"do":"report","of":"accounts"}"#,
        Asked {
            sheet: Sheet::Accounts,
            ..NOTHING
        },
    ),
    (
        r#"{"do":"report","of":"accounts","need":2,"until":"2026-01-03T07:08:09","as":"csv"}"#,
        Asked {
            sheet: Sheet::Accounts,
            need: 2,
            is_until: true,
            format: Format::Csv,
            ..NOTHING
        },
    ),
    (
        r#"{"do":"report","of":"voucher","record":1}"#,
        Asked {
            sheet: Sheet::Voucher(RecordNo(1)),
            ..NOTHING
        },
    ),
    (
        r#"{"as":"csv","record":4294967295,"of":"voucher","need":3,"do":"report"}"#,
        Asked {
            sheet: Sheet::Voucher(RecordNo(4_294_967_295)),
            need: 3,
            format: Format::Csv,
            ..NOTHING
        },
    ),
];

#[test]
fn reads_reports(rt: HostRuntime) {
    for (text, asked) in REPORTS {
        assert!(rt; is_report_of(rt.alloc(), text, asked), "{text}");
    }
}

/// A request whose unknown field has so many arrays in one another.
fn nested(alloc: Global, arrays: usize) -> Result<Vec<u8>, NoMemory> {
    let mut text = Vec::from_slice(alloc, b"{\"do\":\"settle\",\"x\":")?;
    let open = text.len().saturating_add(arrays);
    text.resize(open, b'[')?;
    text.resize(open.saturating_add(arrays), b']')?;
    text.push(b'}')?;
    Ok(text)
}

/// An issue of so many lines, of which the last is this, with blanks up to so many bytes.
fn issue_of(alloc: Global, before: usize, last: &[u8], bytes: usize) -> Result<Vec<u8>, NoMemory> {
    let head = b"{\"do\":\"issue\",\"at\":\"2026-01-01T00:00:00\",\"use\":\"sold\",\"lines\":[";
    let mut text = Vec::from_slice(alloc, head)?;
    for _ in 0..before {
        text.extend_from_slice(b"{\"item\":\"B\",\"store\":\"W1\",\"qty\":1},")?;
    }
    text.extend_from_slice(last)?;
    text.extend_from_slice(b"]}")?;
    let most = text.len().max(bytes);
    text.resize(most, b' ')?;
    Ok(text)
}

/// Whether the text is refused so, where there was memory for it.
fn are_refused(alloc: Global, text: Result<Vec<u8>, NoMemory>, told: Told) -> bool {
    match text {
        Ok(text) => is_refused(alloc, text.as_slice(), false, told),
        Err(NoMemory) => false,
    }
}

#[test]
fn knows_the_deepest_and_the_longest(rt: HostRuntime) {
    for (arrays, told) in [(126, ("bad", "other", 0)), (127, NO_JSON)] {
        let text = nested(rt.alloc(), arrays);
        assert!(rt; are_refused(rt.alloc(), text, told), "{arrays}");
    }
    for (before, told) in [(99, ("limit", "qty", 100)), (100, ("limit", "lines", 0))] {
        let text = issue_of(
            rt.alloc(),
            before,
            b"{\"item\":\"B\",\"store\":\"W1\",\"qty\":0}",
            0,
        );
        assert!(rt; are_refused(rt.alloc(), text, told), "{before}");
    }
}

/// The date and how many lines there are of the issue that a text posts.
fn issued(alloc: Global, text: &[u8]) -> Option<(u32, usize)> {
    match read_request(alloc, text, false) {
        Ok(
            Request::Post(
                What::Issue {
                    at,
                    purpose: _,
                    lines,
                },
            ),
        ) => Some((at.date, lines.len())),
        _ => None,
    }
}

#[test]
fn reads_the_most_lines_in_the_most_bytes(rt: HostRuntime) {
    let last = b"{\"item\":\"B\",\"store\":\"W1\",\"qty\":1}";
    let Ok(text) = issue_of(rt.alloc(), 99, last, 65_536) else {
        panic!(rt; "no memory")
    };
    assert!(rt; issued(rt.alloc(), text.as_slice()) == Some((20_260_101, 100)));
}
