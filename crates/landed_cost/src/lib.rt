//! How a landed charge is parted over lines of receipts (IAS 2.10 and 11).
#![tactic(auto)]

mod sending;
pub mod shares;
