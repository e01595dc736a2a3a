//! Reports of all balances, as a mirror has them.

use book_answers::texts::answer_text;
use report_mirror::reader::{Looked, MirrorReader, Mirrored};
use std::alloc::Global;
use std::sync::Wait;
use stock_model::answers::Answer;
use stock_model::queries::{Format, Query, Sheet};
use stock_nums::lines::Lines;
use stock_nums::memory::NoMemory;
use stock_nums::numbers::RecordNo;

/// What a mirror has for a report.
#[derive(Drop)]
pub enum Balances {
    /// It covers so many records, fewer than the report has to.
    Behind(RecordNo),
    /// The report's text.
    Report(Lines<u8>),
    /// Memory was wanting.
    NoMemory,
}

impl Balances {
    /// Whether it covers just so many records, fewer than the report has to.
    pub fn covers_only(&self, covered: u32) -> bool {
        match self {
            Balances::Behind(found) => *found == RecordNo(covered),
            _ => false,
        }
    }

    /// Whether this is the report's text.
    pub fn has_text(&self, wanted: &str) -> bool {
        match self {
            Balances::Report(text) => text.as_slice() == wanted.as_bytes(),
            _ => false,
        }
    }
}

/// A reader that looked, and what it found.
#[derive(Drop)]
pub struct Found {
    pub reader: MirrorReader,
    pub balances: Balances,
}

/// Looks once for a report of all balances that covers so many records.
pub fn look<R: Wait>(rt: &R, alloc: Global, reader: MirrorReader, need: u32) -> Found {
    let query = Query {
        sheet: Sheet::Balance,
        need: RecordNo(need),
        until: None,
        item: None,
        store: None,
        format: Format::Json,
    };
    let Looked { reader, found } = reader.report(rt, &query, RecordNo(0));
    let balances = match found {
        Ok(Mirrored::Behind(covered)) => Balances::Behind(covered),
        Ok(Mirrored::Report(selected)) => {
            match answer_text(alloc, &Answer::Shown { query, selected }) {
                Ok(text) => Balances::Report(text),
                Err(NoMemory) => Balances::NoMemory,
            }
        }
        Err(NoMemory) => Balances::NoMemory,
    };
    Found { reader, balances }
}
