//! The tests of the book and of what stands below it: the journal, the kept tables, the book, the worker, and ledgers that are opened
//! after a crash. They stand alone, so that they don't have the functions of those crates proved once more.
#![tactic(auto)]

#[cfg(test)]
mod books;
#[cfg(test)]
mod builds;
#[cfg(test)]
mod crashes;
#[cfg(test)]
mod journals;
#[cfg(test)]
mod opened_tables;
#[cfg(test)]
mod records;
#[cfg(test)]
mod row_lists;
