//! The sheets of a report, as texts of JSON and of CSV.
#![tactic(auto)]

mod account_rows;
mod account_sheet;
mod balance_sheet;
pub mod balance_sums;
mod balance_texts;
mod code_texts;
mod framing;
mod grouping;
mod holdings;
mod layer_texts;
mod ledger_sheets;
mod ledger_texts;
pub mod report_text;
mod sheets;
mod store_accounts;
mod text_parts;
mod voucher_rows;
mod voucher_sheet;
