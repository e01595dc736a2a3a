//! Vouchers and counts of stock from a sheet: a text of CSV with a row for each line of a voucher.
#![tactic(auto)]

mod fields;
mod kinds;
mod open_sheet;
pub mod reading;
mod row_lines;
mod rows;
pub mod sheet;
mod vouchers;
