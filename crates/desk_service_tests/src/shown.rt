//! What a mirror shows of a book before a worker has worked over it, and then.

use crate::records::{ITEM, RECEIPT, STORE, book_of};
use crate::workers::{UntilIdle, Worked, run_over};
use std::alloc::Global;
use std::sync::Wait;

const COVERS_NONE: &str = r#"{"covered":0,"report":"balance","rows":[],"status":"ok"}"#;

const COVERS_TWO: &str = r#"{"covered":2,"report":"balance","rows":[],"status":"ok"}"#;

const COVERS_THREE: &str =
    r#"{"covered":3,"report":"balance","rows":[{"item":"B","qty":5,"store":"W1","value":50}],"status":"ok"}"#;

// What a worker's run over a book with these lines' records left, and what its mirror has for a report of all balances that covers so
// many records. None where a line is refused or memory is wanting.
fn shown<R: Wait>(rt: &R, alloc: Global, lines: &[&str], need: u32) -> Option<Worked> {
    let Some(book) = book_of(alloc, lines) else {
        return None;
    };
    run_over(rt, alloc, book, &mut UntilIdle::new(), need)
}

#[test]
fn nothing_is_shown_of_an_empty_book(rt: HostRuntime) {
    let Some(worked) = shown(&rt, rt.alloc(), &[], 0) else {
        panic!(rt; "no memory")
    };
    assert!(rt; worked.before.has_text(COVERS_NONE) && worked.after.has_text(COVERS_NONE));
}

#[test]
fn an_item_and_a_store_are_covered_without_rows(rt: HostRuntime) {
    let Some(worked) = shown(&rt, rt.alloc(), &[ITEM, STORE], 0) else {
        panic!(rt; "no memory")
    };
    assert!(rt; worked.before.has_text(COVERS_NONE) && worked.after.has_text(COVERS_TWO));
}

#[test]
fn a_mirror_of_two_records_is_behind_the_third(rt: HostRuntime) {
    let Some(worked) = shown(&rt, rt.alloc(), &[ITEM, STORE], 3) else {
        panic!(rt; "no memory")
    };
    assert!(rt; worked.before.covers_only(0) && worked.after.covers_only(2));
}

#[test]
fn a_receipt_is_shown_once_it_was_valued(rt: HostRuntime) {
    let lines = [ITEM, STORE, RECEIPT];
    let Some(worked) = shown(&rt, rt.alloc(), &lines, 3) else {
        panic!(rt; "no memory")
    };
    assert!(rt; worked.before.covers_only(0) && worked.after.has_text(COVERS_THREE));
}
