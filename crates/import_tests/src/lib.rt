//! The tests of what is read from spreadsheets: sheets of vouchers, and the vouchers that a count of stock comes to. They stand alone,
//! so that they don't have the functions of those crates proved once more.
#![tactic(auto)]

#[cfg(test)]
mod counts;
#[cfg(test)]
mod records;
#[cfg(test)]
mod sheets;
