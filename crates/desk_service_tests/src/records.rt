//! Records for the tests, from the lines that post them.

use repost_worker::revalued_book::RevaluedBook;
use std::alloc::Global;
use stock_keeper::nowhere::Nowhere;
use stock_model::records::Record;
use stock_model::requests::Request;
use stock_nums::numbers::DeskNo;
use voucher_json::reading::read_request;

/// The item B.
pub const ITEM: &str = r#"{"do":"item","code":"B","method":"average"}"#;

/// The warehouse W1.
pub const STORE: &str = r#"{"do":"store","code":"W1","account":100}"#;

/// Five units of B into W1, worth 50.
pub const RECEIPT: &str =
    r#"{"do":"receipt","at":"2026-01-02T00:00:00","lines":[{"item":"B","store":"W1","qty":5,"amount":50}]}"#;

/// One unit of B out of W1, on the day after.
pub const SALE: &str =
    r#"{"do":"issue","at":"2026-01-03T00:00:00","use":"sold","lines":[{"item":"B","store":"W1","qty":1}]}"#;

// Whether the line's record is accepted, from desk 1.
fn is_posted(alloc: Global, book: &mut RevaluedBook<Nowhere>, line: &str) -> bool {
    let Ok(Request::Post(what)) = read_request(alloc, line.as_bytes(), false) else {
        return false;
    };
    let record = Record {
        desk: DeskNo(1),
        what,
    };
    book.post(alloc, record).is_ok()
}

/// A book that has accepted these lines' records and covers none; none where one is refused.
pub fn book_of(alloc: Global, lines: &[&str]) -> Option<RevaluedBook<Nowhere>> {
    let mut book = RevaluedBook::start(alloc);
    for line in lines {
        if !is_posted(alloc, &mut book, line) {
            return None;
        }
    }
    Some(book)
}
