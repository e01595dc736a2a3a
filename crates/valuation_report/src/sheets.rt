//! The sheets that have rows for the movements of each item in each warehouse: layers and ledger.
ghost use Rattle.std.specs.Prelude.{◌≡◌, true, All, IfOk, OnOk};
ghost use Rattle.std.specs.List.{flat_map};
ghost use Rattle.stock_model.specs.Books.{AreHeads, CanBeShown};
ghost use Rattle.valuation_report.specs.Adding.{Adds};
ghost use Rattle.valuation_report.specs.Holdings.{AreHeld};
ghost use Rattle.valuation_report.specs.SheetPieces.{is_grouped, group_pieces, sheet_pieces};
ghost use Rattle.valuation_report.specs.SheetTexts.{report_text};

use crate::framing::{close, opening};
use crate::grouping::{Group, groups};
use crate::layer_texts::push_layers;
use crate::ledger_texts::push_ledger;
use std::alloc::Global;
use stock_model::queries::{Query, Selected, Sheet};
use stock_nums::head::Head;
use stock_nums::memory::NoMemory;

// Room for a row. Most rows take less, and room that is not written costs little.
const ROW_ROOM: usize = 256;

// More bytes than the rows of the groups take. A text that has room for them does not move as it grows.
fn room_for(query: &Query, groups: &[Group]) -> usize {
    let mut rows = groups.len();
    if query.sheet == Sheet::Ledger {
        for group in groups {
            rows = rows.saturating_add(group.rows.len());
        }
    }
    rows.saturating_mul(ROW_ROOM)
}

// Adds the rows of one item in one warehouse. The other sheets have none.
fn push_group(
    alloc: Global,
    text: &mut Vec<u8>,
    query: &Query,
    heads: &[Head],
    group: &Group,
) -> Result<(), NoMemory>
    requires heads { AreHeads heads.now }
    requires held { AreHeld group.now.rows }
    ensures { OnOk result (Adds text.old.items text.new.items (group_pieces query.now.format query.now.sheet heads.now group.now)) }
{
    match query.sheet {
        Sheet::Layers => push_layers(text, query.format, heads, group),
        Sheet::Ledger => push_ledger(alloc, text, query.format, heads, group),
        Sheet::Balance | Sheet::Accounts | Sheet::Voucher(_) => Ok(()),
    }
}

// Adds the rows of each group.
fn push_each(
    alloc: Global,
    text: &mut Vec<u8>,
    query: &Query,
    heads: &[Head],
    groups: &[Group],
) -> Result<(), NoMemory>
    requires heads { AreHeads heads.now }
    requires held { All (λ group. AreHeld group.rows) groups.now }
    ensures { OnOk result (Adds text.old.items text.new.items (flat_map (group_pieces query.now.format query.now.sheet heads.now) groups.now)) }
{
    for group in groups {
        push_group(alloc, text, query, heads, group)?;
    }
    Ok(())
}

/// Adds the rows of the layers or the ledger sheet.
pub(crate) fn push_groups(
    alloc: Global,
    text: &mut Vec<u8>,
    selected: &Selected,
    query: &Query,
) -> Result<(), NoMemory>
    requires shown { CanBeShown selected.now }
    requires sheet { is_grouped query.now.sheet ≡ true }
    ensures { OnOk result (Adds text.old.items text.new.items
        (sheet_pieces query.now.format query.now.sheet query.now selected.now)) }
{
    let groups = groups(alloc, query, selected)?;
    let shown = groups.as_slice();
    let heads = selected.heads.as_slice();
    let _ = text.reserve(room_for(query, shown));
    push_each(alloc, text, query, heads, shown)
}

/// The text of a report that shows one of these sheets.
pub(crate) fn grouped_text(
    alloc: Global,
    selected: &Selected,
    query: &Query,
) -> Result<Vec<u8>, NoMemory>
    requires shown { CanBeShown selected.now }
    requires sheet { is_grouped query.now.sheet ≡ true }
    ensures { IfOk result (λ text. text.items ≡ report_text query.now selected.now) }
{
    let mut text = opening(alloc, query, selected.covered)?;
    push_groups(alloc, &mut text, selected, query)?;
    close(&mut text, query)?;
    Ok(text)
}
