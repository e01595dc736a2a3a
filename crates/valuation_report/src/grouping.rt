//! The rows of a selection by their items and warehouses.
ghost use Rattle.std.specs.Prelude.{◌≡◌, ◌++◌, List, [], ◌∷◌, true, IsTrue, filter, Some, unwrap_or, if◌then◌else◌, IfOk, OnOk};
ghost use Rattle.std.specs.BTreeMap.{get};
ghost use Rattle.stock_nums.specs.declared.entry.Key.{Key};
ghost use Rattle.stock_nums.specs.declared.head.Head.{Head};
ghost use Rattle.stock_model.specs.Books.{AreHeads};
ghost use Rattle.stock_model.specs.Enough.{is_same_key};
ghost use Rattle.stock_model.specs.Masters.{code_of};
ghost use Rattle.stock_model.specs.Sheets.{is_asked_code, is_asked_key};
ghost use Rattle.valuation_report.specs.Grouping.{key_cmp, IsByKey, is_asked_row};
ghost use Rattle.valuation_report.specs.Groups.{groups_of};

use crate::code_texts::code_text;
use shared_list::blocks::SharedBlocks;
use std::alloc::Global;
use std::collections::BTreeMap;
use stock_model::queries::{Query, Selected};
use stock_model::shortages::entry_key;
use stock_nums::code::Code;
use stock_nums::entry::{Key, Row};
use stock_nums::head::Head;
use stock_nums::lines::Lines;
use stock_nums::memory::NoMemory;

/// The movements of one item in one warehouse, in posting order.
#[derive(Drop)]
pub(crate) struct Group {
    pub key: Key,
    pub rows: Lines<Row>,
}

// Whether the code of the number is the one that is asked for, where one is.
fn is_asked_code(asked: &Option<Code>, heads: &[Head], number: u32) -> bool
    requires { AreHeads heads.now }
    ensures { result ≡ is_asked_code asked.now (code_of heads.now number) }
{
    match asked {
        Some(asked) => code_text(heads, number) == asked.text(),
        None => true,
    }
}

// Whether the key is of the item and the warehouse that are asked for.
fn is_asked_key(query: &Query, heads: &[Head], key: &Key) -> bool
    requires { AreHeads heads.now }
    ensures { result ≡ is_asked_key query.now heads.now key.now }
{
    is_asked_code(&query.item, heads, key.item.0) && is_asked_code(&query.store, heads, key.store.0)
}

/// Whether every item in every warehouse is asked for.
pub(crate) fn asks_for_all(query: &Query) -> bool
    ensures { IsTrue result → (heads : List Head) (key : Key) → is_asked_key query.now heads key ≡ true }
{
    match (&query.item, &query.store) {
        (None, None) => true,
        _ => false,
    }
}

/// Whether the key is of the item and the warehouse that are asked for, where it may be known that all are.
pub(crate) fn is_wanted(all: bool, query: &Query, heads: &[Head], key: &Key) -> bool
    requires heads { AreHeads heads.now }
    requires all { IsTrue all → (heads : List Head) (key : Key) → is_asked_key query.now heads key ≡ true }
    ensures { result ≡ is_asked_key query.now heads.now key.now }
{
    all || is_asked_key(query, heads, key)
}

// Adds a row to those of its key.
fn add_row(
    alloc: Global,
    by_key: &mut BTreeMap<Key, Lines<Row>>,
    key: Key,
    row: &Row,
) -> Result<(), NoMemory>
    ensures { OnOk result ((other : Key) → get key_cmp by_key.new other
        ≡ (if is_same_key key other
        then Some (unwrap_or (get key_cmp by_key.old other) [] ++ row.now ∷ [])
        else get key_cmp by_key.old other)) }
{
    if let Some(rows) = by_key.get_mut(&key) {
        return rows.push(*row);
    }
    let mut rows = Lines::new(alloc);
    rows.push(*row)?;
    by_key.insert(key, rows)?;
    Ok(())
}

// The rows that are asked for, by their keys.
fn rows_by_key(
    alloc: Global,
    query: &Query,
    heads: &[Head],
    rows: &SharedBlocks<Row>,
) -> Result<BTreeMap<Key, Lines<Row>>, NoMemory>
    requires { AreHeads heads.now }
    ensures { IfOk result (λ by_key. IsByKey by_key (filter (is_asked_row query.now heads.now) rows.now)) }
{
    let mut by_key = BTreeMap::new(alloc);
    let all = asks_for_all(query);
    for row in rows.items() {
        let key = entry_key(&row.entry);
        if is_wanted(all, query, heads, &key) {
            add_row(alloc, &mut by_key, key, row)?;
        }
    }
    Ok(by_key)
}

/// The groups of the items and warehouses that are asked for, by their numbers. The rows are copied once, and what
/// is not asked for is not.
pub(crate) fn groups(
    alloc: Global,
    query: &Query,
    selected: &Selected,
) -> Result<Lines<Group>, NoMemory>
    requires { AreHeads selected.now.heads }
    ensures { IfOk result (λ groups. groups ≡ groups_of query.now selected.now) }
{
    let by_key = rows_by_key(alloc, query, selected.heads.as_slice(), &selected.rows)?;
    let mut groups = Lines::new(alloc);
    for (key, rows) in by_key {
        groups.push(Group { key, rows })?;
    }
    Ok(groups)
}
