//! Why a text is no request and no record, as the tests say it.

use stock_model::read_faults::ReadFault;
use voucher_json::field_names::field_text;

/// Whether a field is bad or past its limit, how it is spelled, and the place from 1 of the element that has it, or 0.
pub type Told = (&'static str, &'static str, u32);

/// The text is no JSON.
pub const NO_JSON: Told = ("no json", "", 0);

/// Whether the fault is told so.
pub fn is_told_so(fault: ReadFault, told: Told) -> bool {
    match fault {
        ReadFault::BadJson => told == NO_JSON,
        ReadFault::BadField { name, line } => told == ("bad", field_text(name), line),
        ReadFault::Limit { name, line } => told == ("limit", field_text(name), line),
        ReadFault::NoMemory => false,
    }
}
