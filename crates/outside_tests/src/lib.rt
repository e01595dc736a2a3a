//! The tests of what stands between a ledger and the world: streams and sockets, keepers, requests and answers as bytes, and JSON
//! texts. They stand alone, so that they don't have the functions of those crates proved once more.
#![tactic(auto)]

#[cfg(test)]
mod faults;
#[cfg(test)]
mod keepers;
#[cfg(test)]
mod listeners;
#[cfg(test)]
mod lists;
#[cfg(test)]
mod replies;
#[cfg(test)]
mod requests;
#[cfg(test)]
mod sockets;
#[cfg(test)]
mod stored_records;
#[cfg(test)]
mod streams;
#[cfg(test)]
mod wires;
