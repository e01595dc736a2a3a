//! What a stock ledger means: the records, queries, faults and replies, and the definitions that the
//! contracts of every crate above cite.
#![tactic(auto)]

pub mod answers;
pub mod cancelling;
pub mod deeds;
pub mod faults;
pub mod freezing;
pub mod landed_weights;
pub mod ledger_lines;
pub mod line_faults;
pub mod line_views;
pub mod masters;
pub mod movements;
pub mod names;
pub mod posting;
pub mod queries;
pub mod read_faults;
pub mod records;
pub mod refusals;
pub mod replies;
pub mod requests;
pub mod seen;
pub mod sheet_rows;
pub mod shortages;
pub mod target_faults;
pub mod target_lines;
pub mod targets;
pub mod vouchers;
pub mod worked;
pub mod worked_issues;
pub mod worked_layers;
pub mod worked_shortages;
