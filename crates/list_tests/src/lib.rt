//! The tests of numbers, codes, vouchers and the lists that hold them, over ample memory. They stand in a crate of their own, so
//! that none of the crates tested is proved once more for them.
#![tactic(auto)]

#[cfg(test)]
mod amounts;
#[cfg(test)]
mod blocks;
#[cfg(test)]
mod changes;
#[cfg(test)]
mod codes;
#[cfg(test)]
mod lists;
#[cfg(test)]
mod masters;
#[cfg(test)]
mod moments;
#[cfg(test)]
mod places;
#[cfg(test)]
mod shortages;
#[cfg(test)]
mod steps;
#[cfg(test)]
mod timelines;
#[cfg(test)]
mod units;
#[cfg(test)]
mod vouchers;
