//! Reading, as a batch does it.
use std::alloc::Global;
use voucher_json::reading::read_request;

/// How many lines of the text are requests.
pub fn count_read(alloc: Global, text: &str) -> u64 {
    let mut count: u64 = 0;
    for line in text.lines() {
        if read_request(alloc, line.as_bytes(), false).is_ok() {
            count = count.saturating_add(1);
        }
    }
    count
}
