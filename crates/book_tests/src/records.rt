//! Records for the tests, from the lines that post them.

use std::alloc::Global;
use stock_model::read_faults::ReadFault;
use stock_model::records::Record;
use stock_model::requests::Request;
use stock_nums::numbers::DeskNo;
use voucher_json::reading::read_request;

/// The item B.
pub const ITEM: &str = r#"{"do":"item","code":"B","method":"average"}"#;

/// The warehouse W1.
pub const STORE: &str = r#"{"do":"store","code":"W1","account":100}"#;

/// Ten units of B into W1, 100 each, on the second day.
pub const RECEIPT: &str =
    r#"{"do":"receipt","at":"2026-01-02T00:00:00","lines":[{"item":"B","store":"W1","qty":10,"amount":1000}]}"#;

/// One unit of B out of W1, on the third day.
pub const SALE: &str =
    r#"{"do":"issue","at":"2026-01-03T00:00:00","use":"sold","lines":[{"item":"B","store":"W1","qty":1}]}"#;

/// The record that a line posts from desk 1. A line that posts none is as bad as one that is no JSON.
pub fn record(alloc: Global, line: &str) -> Result<Record, ReadFault> {
    match read_request(alloc, line.as_bytes(), false)? {
        Request::Post(what) => Ok(Record {
            desk: DeskNo(1),
            what,
        }),
        _ => Err(ReadFault::BadJson),
    }
}
