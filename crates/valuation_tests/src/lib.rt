//! The tests of cost formulas, charges, links and values, of the lines of the general ledger, and of what a revaluation looks at,
//! over ample memory. They stand in a crate of their own, so that none of the crates tested is proved once more for them.
#![tactic(auto)]

#[cfg(test)]
mod fetching;
#[cfg(test)]
mod formulas;
#[cfg(test)]
mod frontier;
#[cfg(test)]
mod index;
#[cfg(test)]
mod ledger;
#[cfg(test)]
mod links;
#[cfg(test)]
mod shares;
#[cfg(test)]
mod values;
