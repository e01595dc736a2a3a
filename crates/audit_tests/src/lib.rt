//! The tests of the audit of stored tables. They stand alone, so that they don't have the functions of that crate proved once more.
#![tactic(auto)]

#[cfg(test)]
mod audits;
