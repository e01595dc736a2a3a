//! The tests of the keeper over SQLite. They stand alone, since the kit's database takes more memory to check against than all that
//! the other tests of the outside need.
#![tactic(auto)]

#[cfg(test)]
mod old_tables;
#[cfg(test)]
mod raising;
#[cfg(test)]
mod sqlite_keepers;
#[cfg(test)]
mod sqlite_shelves;
#[cfg(test)]
mod stops;
