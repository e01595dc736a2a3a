//! The tests of a service and of a worker beside a mirror. They stand alone, so that they don't have the functions of those crates proved
//! once more.
#![tactic(auto)]

#[cfg(test)]
mod attending;
#[cfg(test)]
mod balances;
#[cfg(test)]
mod held_book;
#[cfg(test)]
mod mirrors;
#[cfg(test)]
mod records;
#[cfg(test)]
mod script;
#[cfg(test)]
mod served;
#[cfg(test)]
mod shown;
#[cfg(test)]
mod signals;
#[cfg(test)]
mod talker;
#[cfg(test)]
mod talkers;
#[cfg(test)]
mod tests;
#[cfg(test)]
mod waiting_gate;
#[cfg(test)]
mod waiting_peers;
#[cfg(test)]
mod workers;
