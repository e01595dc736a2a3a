//! The tests of a service and of what stands below it: the lock that hands out turns, sessions of a desk, and whole
//! runs of the program over doubles in memory. They stand alone, so that they don't have the functions of those crates proved once
//! more.
#![tactic(auto)]

#[cfg(test)]
mod batches;
#[cfg(test)]
mod cases;
#[cfg(test)]
mod kept_batches;
#[cfg(test)]
mod loads;
#[cfg(test)]
mod running;
#[cfg(test)]
mod served_runs;
#[cfg(test)]
mod sessions;
#[cfg(test)]
mod turns;
