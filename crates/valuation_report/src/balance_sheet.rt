//! The balance sheet, from what is held of each item in each warehouse.
ghost use Rattle.std.specs.Prelude.{◌≡◌, ◌∷◌, List, [], filter, Some, unwrap_or, if◌then◌else◌, IfOk, OnOk};
ghost use Rattle.std.specs.BTreeMap.{get};
ghost use Rattle.stock_nums.specs.declared.entry.Key.{Key};
ghost use Rattle.stock_model.specs.Books.{AreHeads, CanBeShown};
ghost use Rattle.stock_model.specs.Enough.{is_same_key};
ghost use Rattle.stock_model.specs.declared.queries.Sheet.TheVariants.{Balance};
ghost use Rattle.valuation_report.specs.Adding.{Adds};
ghost use Rattle.valuation_report.specs.Grouping.{key_cmp, IsHeldByKey, AreHeldByKey, is_asked_row};
ghost use Rattle.valuation_report.specs.Holdings.{holding_of, next_holding, HasRoom};
ghost use Rattle.valuation_report.specs.SheetPieces.{sheet_pieces};
ghost use Rattle.valuation_report.specs.SheetTexts.{report_text};

use crate::balance_texts::push_balance;
use crate::framing::{close, opening};
use crate::grouping::{asks_for_all, is_wanted};
use crate::holdings::Holding;
use shared_list::blocks::SharedBlocks;
use std::alloc::Global;
use std::collections::BTreeMap;
use stock_model::queries::{Query, Selected};
use stock_model::shortages::entry_key;
use stock_nums::entry::{Key, Row};
use stock_nums::head::Head;
use stock_nums::memory::NoMemory;

// Takes a row into account in what is held of its key.
fn add_row(by_key: &mut BTreeMap<Key, Holding>, key: Key, row: &Row) -> Result<(), NoMemory>
    requires { HasRoom (unwrap_or (get key_cmp by_key.old key) (holding_of [])) row.now }
    ensures { OnOk result ((other : Key) → get key_cmp by_key.new other
        ≡ (if is_same_key key other
        then Some (next_holding (unwrap_or (get key_cmp by_key.old other) (holding_of [])) row.now)
        else get key_cmp by_key.old other)) }
{
    if let Some(holding) = by_key.get_mut(&key) {
        holding.add(row);
        return Ok(());
    }
    let mut holding = Holding::none();
    holding.add(row);
    by_key.insert(key, holding)?;
    Ok(())
}

/// What is held of each key that is asked for. No row is copied.
pub(crate) fn holdings_by_key(
    alloc: Global,
    query: &Query,
    heads: &[Head],
    rows: &SharedBlocks<Row>,
) -> Result<BTreeMap<Key, Holding>, NoMemory>
    requires heads { AreHeads heads.now }
    requires held { AreHeldByKey rows.now }
    ensures { IfOk result (λ by_key. IsHeldByKey by_key (filter (is_asked_row query.now heads.now) rows.now)) }
{
    let mut by_key = BTreeMap::new(alloc);
    let all = asks_for_all(query);
    for row in rows.items() {
        let key = entry_key(&row.entry);
        if is_wanted(all, query, heads, &key) {
            add_row(&mut by_key, key, row)?;
        }
    }
    Ok(by_key)
}

/// Adds a row for what each warehouse holds of each item, where they are asked for.
pub(crate) fn push_balances(
    alloc: Global,
    text: &mut Vec<u8>,
    selected: &Selected,
    query: &Query,
) -> Result<(), NoMemory>
    requires { CanBeShown selected.now }
    ensures { OnOk result (Adds text.old.items text.new.items (sheet_pieces query.now.format Balance query.now selected.now)) }
{
    let heads = selected.heads.as_slice();
    let by_key = holdings_by_key(alloc, query, heads, &selected.rows)?;
    for (key, holding) in by_key {
        push_balance(text, query.format, heads, key, holding)?;
    }
    Ok(())
}

/// The text of a report of the balance.
pub(crate) fn balance_text(
    alloc: Global,
    selected: &Selected,
    query: &Query,
) -> Result<Vec<u8>, NoMemory>
    requires shown { CanBeShown selected.now }
    requires sheet { query.now.sheet ≡ Balance }
    ensures { IfOk result (λ text. text.items ≡ report_text query.now selected.now) }
{
    let mut text = opening(alloc, query, selected.covered)?;
    push_balances(alloc, &mut text, selected, query)?;
    close(&mut text, query)?;
    Ok(text)
}
