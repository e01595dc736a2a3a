//! Stored records are read as they were written, each in its one spelling.
use crate::faults::{NO_JSON, Told, is_told_so};
use std::alloc::Global;
use stock_model::read_faults::ReadFault;
use stock_model::records::Record;
use stock_nums::memory::NoMemory;
use voucher_json::record_reading::read_record;
use voucher_json::record_texts::{is_text_of, record_text};
use voucher_json::usual_records::usual_record;

/// Whether this is the stored text of the record.
pub fn is_stored_as(alloc: Global, record: &Record, text: &str) -> bool {
    match record_text(alloc, record) {
        Ok(found) => found.as_slice() == text.as_bytes(),
        Err(NoMemory) => false,
    }
}

/// Whether the text is read as the record of which it is stored.
fn is_read_as_itself(alloc: Global, text: &str) -> bool {
    match read_record(alloc, text.as_bytes()) {
        Ok(found) => is_stored_as(alloc, &found, text),
        Err(_) => false,
    }
}

/// Why the text is no record; none where it is one.
fn fault_of(alloc: Global, text: &str) -> Option<ReadFault> {
    read_record(alloc, text.as_bytes()).err()
}

/// Whether the text is refused so.
fn is_refused(alloc: Global, text: &str, told: Told) -> bool {
    match fault_of(alloc, text) {
        Some(fault) => is_told_so(fault, told),
        None => false,
    }
}

const WRITTEN: &[&str] = &[
    r#"{"code":"A","desk":0,"do":"item","method":"fifo"}"#,
    r#"{"code":"a \"b\"\\\u0001ü","desk":16,"do":"item","method":"average"}"#,
    r#"{"account":1000000000,"code":"W1","desk":1,"do":"store"}"#,
    r#"{"at":"2026-01-02T09:00:00","desk":0,"do":"receipt","lines":[{"amount":1000,"item":"B","qty":10,"store":"W1"}]}"#,
    r#"{"at":"2026-01-02T09:00:00","desk":3,"do":"issue","lines":[{"item":"B","qty":1,"store":"W1"},{"item":"C","qty":1000000000,"store":"W2"}],"use":"sold"}"#,
    r#"{"at":"2026-01-02T09:00:00","desk":3,"do":"issue","lines":[{"item":"B","qty":1,"store":"W1"}],"use":"used"}"#,
    r#"{"at":"2026-01-02T09:00:00","desk":0,"do":"transfer","lines":[{"from":"W1","item":"A","qty":4,"to":"W2"}]}"#,
    r#"{"at":"2026-01-05T09:00:00","desk":0,"do":"customer-return","lines":[{"line":1,"qty":1,"record":6,"store":"W1"}]}"#,
    r#"{"at":"2026-01-05T09:00:00","desk":2,"do":"supplier-return","lines":[{"line":100,"qty":1,"record":4294967295,"store":"W1"}]}"#,
    r#"{"basis":"qty","charge":100,"desk":0,"do":"landed","targets":[{"line":1,"record":5}]}"#,
    r#"{"basis":"amount","charge":1000000000000,"desk":0,"do":"landed","targets":[{"line":1,"record":5},{"line":2,"record":5}]}"#,
    r#"{"desk":0,"do":"freeze","until":"2026-01-03T00:00:00"}"#,
    r#"{"desk":0,"do":"cancel","record":7}"#,
    r#"{"desk":16,"do":"cancel","record":4294967295}"#,
];

#[test]
fn reads_what_it_writes(rt: HostRuntime) {
    for text in WRITTEN {
        assert!(rt; is_read_as_itself(rt.alloc(), text), "{text}");
    }
}

const FAULTS: &[(&str, Told)] = &[
    ("{", NO_JSON),
    ("[]", ("bad", "request", 0)),
    (r#"{"desk":0,"do":"settle"}"#, ("bad", "do", 0)),
    (
        r#"{"desk":0,"do":"report","of":"balance"}"#,
        ("bad", "do", 0),
    ),
    (r#"{"do":"item"}"#, ("bad", "desk", 0)),
    (r#"{"desk":"0","do":"item"}"#, ("bad", "desk", 0)),
    (r#"{"desk":17,"do":"item"}"#, ("limit", "desk", 0)),
    (r#"{"desk":-1,"do":"item"}"#, ("limit", "desk", 0)),
    (r#"{"desk":0,"do":"item"}"#, ("bad", "code", 0)),
    (
        r#"{"desk":0,"do":"cancel","record":0}"#,
        ("limit", "record", 0),
    ),
    (
        r#"{"code":"A","desk":0,"do":"item","method":"fifo","x":1}"#,
        ("bad", "other", 0),
    ),
    (
        r#"{"at":"2026-01-05T09:00:00","basis":"qty","charge":100,"desk":0,"do":"landed","targets":[{"line":1,"record":5}]}"#,
        ("bad", "other", 0),
    ),
];

#[test]
fn tells_the_first_fault(rt: HostRuntime) {
    for (text, told) in FAULTS {
        assert!(rt; is_refused(rt.alloc(), text, *told), "{text}");
    }
}

/// Whether the text is read as a record, and is the one that is stored of it; none where it is not read, or memory is wanting.
fn is_stored_so(alloc: Global, text: &str) -> Option<bool> {
    let Ok(found) = read_record(alloc, text.as_bytes()) else {
        return None;
    };
    is_text_of(alloc, &found, text.as_bytes()).ok()
}

const SPELLINGS: &[(&str, bool)] = &[
    (r#"{"code":"A","desk":0,"do":"item","method":"fifo"}"#, true),
    (
        r#"{"code":"A","desk":0,"do":"item","method":"fifo"} "#,
        false,
    ),
    (
        r#"{"desk":0,"code":"A","do":"item","method":"fifo"}"#,
        false,
    ),
    (
        r#"{"code":"A","code":"A","desk":0,"do":"item","method":"fifo"}"#,
        false,
    ),
    (
        r#"{"code":"\u0041","desk":0,"do":"item","method":"fifo"}"#,
        false,
    ),
    (
        r#"{"basis":"qty","charge":100,"desk":0,"do":"landed","targets":[{"record":5,"line":1}]}"#,
        false,
    ),
];

#[test]
fn knows_the_one_stored_spelling(rt: HostRuntime) {
    for (text, want) in SPELLINGS {
        assert!(rt; is_stored_so(rt.alloc(), text) == Some(*want), "{text}");
    }
}

/// Whether the text is read in one pass as the record of which it is stored.
fn is_read_at_once(alloc: Global, text: &str) -> bool {
    match usual_record(alloc, text.as_bytes()) {
        Ok(Some(found)) => is_stored_as(alloc, &found, text),
        _ => false,
    }
}

/// Whether the bytes are not read in one pass, and memory is not wanting.
fn are_left(alloc: Global, bytes: &[u8]) -> bool {
    matches!(usual_record(alloc, bytes), Ok(None))
}

const USUAL: &[&str] = &[
    r#"{"at":"2026-01-02T09:00:00","desk":0,"do":"receipt","lines":[{"amount":0,"item":"B","qty":1000000000,"store":"W1"}]}"#,
    r#"{"at":"2026-01-02T09:00:00","desk":16,"do":"receipt","lines":[{"amount":10,"item":"Tür","qty":1,"store":"W1"},{"amount":1000000000000,"item":"","qty":10,"store":"a longer code than twenty-four bytes"}]}"#,
    r#"{"at":"2024-02-29T23:59:59","desk":3,"do":"issue","lines":[{"item":"B","qty":1,"store":"W1"},{"item":"C","qty":20,"store":"W2"}],"use":"sold"}"#,
    r#"{"at":"2026-01-02T09:00:00","desk":3,"do":"issue","lines":[{"item":"B","qty":1,"store":"W1"}],"use":"used"}"#,
];

#[test]
fn reads_usual_records_at_once(rt: HostRuntime) {
    for text in USUAL {
        assert!(rt; is_read_at_once(rt.alloc(), text), "{text}");
    }
}

const OTHERS: &[&str] = &[
    // An item, and a transfer.
    r#"{"code":"A","desk":0,"do":"item","method":"fifo"}"#,
    r#"{"at":"2026-01-02T09:00:00","desk":0,"do":"transfer","lines":[{"from":"W1","item":"A","qty":4,"to":"W2"}]}"#,
    // A space, and one at the end.
    r#"{"at":"2026-01-02T09:00:00", "desk":0,"do":"receipt","lines":[{"amount":1,"item":"B","qty":1,"store":"W1"}]}"#,
    r#"{"at":"2026-01-02T09:00:00","desk":0,"do":"receipt","lines":[{"amount":1,"item":"B","qty":1,"store":"W1"}]} "#,
    // Keys in another order.
    r#"{"desk":0,"at":"2026-01-02T09:00:00","do":"receipt","lines":[{"amount":1,"item":"B","qty":1,"store":"W1"}]}"#,
    r#"{"at":"2026-01-02T09:00:00","desk":0,"do":"issue","lines":[{"item":"B","store":"W1","qty":1}],"use":"sold"}"#,
    // An escape.
    r#"{"at":"2026-01-02T09:00:00","desk":0,"do":"receipt","lines":[{"amount":1,"item":"\u0042","qty":1,"store":"W1"}]}"#,
    r#"{"at":"2026-01-02T09:00:00","desk":0,"do":"receipt","lines":[{"amount":1,"item":"a\"b","qty":1,"store":"W1"}]}"#,
    // Numbers with a leading zero, a point, a sign, or out of range.
    r#"{"at":"2026-01-02T09:00:00","desk":00,"do":"receipt","lines":[{"amount":1,"item":"B","qty":1,"store":"W1"}]}"#,
    r#"{"at":"2026-01-02T09:00:00","desk":0,"do":"receipt","lines":[{"amount":01,"item":"B","qty":1,"store":"W1"}]}"#,
    r#"{"at":"2026-01-02T09:00:00","desk":0,"do":"receipt","lines":[{"amount":1.0,"item":"B","qty":1,"store":"W1"}]}"#,
    r#"{"at":"2026-01-02T09:00:00","desk":0,"do":"receipt","lines":[{"amount":-1,"item":"B","qty":1,"store":"W1"}]}"#,
    r#"{"at":"2026-01-02T09:00:00","desk":17,"do":"receipt","lines":[{"amount":1,"item":"B","qty":1,"store":"W1"}]}"#,
    r#"{"at":"2026-01-02T09:00:00","desk":0,"do":"receipt","lines":[{"amount":1000000000001,"item":"B","qty":1,"store":"W1"}]}"#,
    r#"{"at":"2026-01-02T09:00:00","desk":0,"do":"receipt","lines":[{"amount":1,"item":"B","qty":0,"store":"W1"}]}"#,
    // No moment, no line, no such use, another field.
    r#"{"at":"2026-02-30T09:00:00","desk":0,"do":"receipt","lines":[{"amount":1,"item":"B","qty":1,"store":"W1"}]}"#,
    r#"{"at":"2026-01-02T09:00:00","desk":0,"do":"receipt","lines":[]}"#,
    r#"{"at":"2026-01-02T09:00:00","desk":0,"do":"issue","lines":[{"item":"B","qty":1,"store":"W1"}],"use":"lost"}"#,
    r#"{"at":"2026-01-02T09:00:00","desk":0,"do":"receipt","lines":[{"amount":1,"item":"B","qty":1,"store":"W1"}],"use":"sold"}"#,
    // Cut off.
    "",
    r#"{"at":"2026-01-02T09:00:00","desk":0"#,
    r#"{"at":"2026-01-02T09:00:00","desk":0,"do":"receipt","lines":[{"amount":1,"item":"B","qty":1,"store":"W1"},"#,
    r#"{"at":"2026-01-02T09:00:00","desk":0,"do":"receipt","lines":[{"amount":1,"item":"B","qty":1,"store":"W1"}]"#,
];

#[test]
fn leaves_other_texts(rt: HostRuntime) {
    for text in OTHERS {
        assert!(rt; are_left(rt.alloc(), text.as_bytes()), "{text}");
    }
}

#[test]
fn leaves_what_is_no_text(rt: HostRuntime) {
    assert!(rt; are_left(rt.alloc(), b"{\"at\":\"\xff"));
}

/// The stored text of an issue of so many lines.
fn issue_of(alloc: Global, count: u32) -> Result<String, NoMemory> {
    let head = r#"{"at":"2026-01-02T09:00:00","desk":0,"do":"issue","lines":["#;
    let mut text = String::from_str(alloc, head)?;
    for place in 0..count {
        if place > 0 {
            text.push(',')?;
        }
        text.push_str(r#"{"item":"B","qty":1,"store":"W1"}"#)?;
    }
    text.push_str(r#"],"use":"used"}"#)?;
    Ok(text)
}

#[test]
fn reads_a_hundred_lines_at_once(rt: HostRuntime) {
    let (Ok(most), Ok(more)) = (issue_of(rt.alloc(), 100), issue_of(rt.alloc(), 101)) else {
        panic!(rt; "no memory")
    };
    assert!(rt; is_read_at_once(rt.alloc(), most.as_str()));
    assert!(rt; are_left(rt.alloc(), more.as_bytes()));
}
