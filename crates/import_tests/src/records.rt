//! Records for the tests, from the lines that post them.

use std::alloc::Global;
use stock_model::read_faults::ReadFault;
use stock_model::records::Record;
use stock_model::requests::Request;
use stock_nums::numbers::DeskNo;
use voucher_json::reading::read_request;

/// The record that a line posts from desk 1. A line that posts none is as bad as one that is no JSON.
pub fn record(alloc: Global, line: &str) -> Result<Record, ReadFault> {
    match read_request(alloc, line.as_bytes(), false)? {
        Request::Post(what) => Ok(Record {
            desk: DeskNo(1),
            what,
        }),
        _ => Err(ReadFault::BadJson),
    }
}
