//! The general ledger: the lines that a valued movement makes, and the balances of the accounts.
#![tactic(auto)]

pub mod balances;
pub mod lines;
mod store_accounts;
mod totals;

pub use stock_model::ledger_lines::{Balance, GlLine};
