//! Whether the schema of a database is exactly that of a ledger's.
ghost use Rattle.std.specs.Prelude.{◌≡◌, pos, length, IsTrue, IfOk, None, [], ◌∷◌};
ghost use Rattle.sqlite_value.specs.declared.keys.Collation.TheVariants as collation;
ghost use Rattle.sqlite_value.specs.declared.value.Value.TheVariants as value;
ghost use Rattle.sqlite_value.specs.Keys.{plain};
ghost use Rattle.sqlite_sql.specs.Syntax.{term_at};
ghost use Rattle.sqlite_sql.specs.Term.{lit, col, op2};
ghost use Rattle.sqlite_sql.specs.declared.ops.BinaryOp.TheVariants as binary;
ghost use Rattle.sqlite_sql.specs.declared.ops.CompareOp.TheVariants as compare;
ghost use Rattle.sqlite_tables.specs.Recognizing.{IsBare, IsKeyed};
ghost use Rattle.sqlite_tables.specs.Whole.{column_of, records_table, worths_table, head_table, worths_index, whole};

use sqlite::{Error, ErrorCode};
use sqlite_items::Items;
use sqlite_schema::code::Terms;
use sqlite_schema::schema::{Column, Index, Kind, Schema, Table};
use sqlite_sql::expr::{Node, open};
use sqlite_sql::ops::{BinaryOp, CompareOp};
use sqlite_value::keys::{Collation, Order};
use sqlite_value::value::{Value, ValueRef};
use std::alloc::{AllocError, Global};

// Whether this is the schema of a ledger's database, with nothing more in it, also nothing that is kept as it is.
fn is_whole(alloc: Global, schema: &Schema) -> Result<bool, AllocError>
    ensures { IfOk result (λ found. IsTrue found → schema.now ≡ whole) }
{
    if !schema.views.is_empty() {
        return Ok(false);
    }
    let are_indexes = match schema.indexes.as_slice() {
        [index] => is_index_of_worths(index),
        _ => false,
    };
    if !are_indexes {
        return Ok(false);
    }
    are_tables(alloc, schema.tables.as_slice())
}

/// Why a database of this schema is not taken for a ledger's, or None where it is exactly that.
///
/// `NotADatabase` where it is another, and `OutOfMemory` for want of memory.
pub(crate) fn refusal_of(alloc: Global, schema: &Schema) -> Option<Error>
    ensures { result ≡ None → schema.now ≡ whole }
{
    match is_whole(alloc, schema) {
        Ok(true) => None,
        Ok(false) => Some(Error::SqliteFailure(ErrorCode::NotADatabase)),
        Err(_) => Some(Error::SqliteFailure(ErrorCode::OutOfMemory)),
    }
}

fn are_tables(alloc: Global, tables: &[Table]) -> Result<bool, AllocError>
    ensures { IfOk result (λ found. IsTrue found → tables.now ≡ records_table ∷ worths_table ∷ head_table ∷ []) }
{
    match tables {
        [records, worths, head] => {
            if !is_records(alloc, records)? {
                return Ok(false);
            }
            if !is_worths(alloc, worths)? {
                return Ok(false);
            }
            is_head(alloc, head)
        }
        _ => Ok(false),
    }
}

#[tactic(auto, using(crate::proofs::RecognizeLaw::table_is))]
fn is_records(alloc: Global, table: &Table) -> Result<bool, AllocError>
    ensures { IfOk result (λ found. IsTrue found → table.now ≡ records_table) }
{
    if !is_bare(alloc, table, b"records", 0, Some(0))? {
        return Ok(false);
    }
    if !are_columns_of_records(table.columns.as_slice()) {
        return Ok(false);
    }
    if !is_keyed_by_rowid(table) {
        return Ok(false);
    }
    has_no_terms(alloc, &table.checks)
}

#[tactic(auto, using(crate::proofs::RecognizeLaw::table_is))]
fn is_worths(alloc: Global, table: &Table) -> Result<bool, AllocError>
    ensures { IfOk result (λ found. IsTrue found → table.now ≡ worths_table) }
{
    if !is_bare(alloc, table, b"worths", 1, None)? {
        return Ok(false);
    }
    if !are_columns_of_worths(table.columns.as_slice()) {
        return Ok(false);
    }
    if !is_keyed_by_spot(table) {
        return Ok(false);
    }
    has_no_terms(alloc, &table.checks)
}

// Whether the rowid is the key, and nothing else is unique.
fn is_keyed_by_rowid(table: &Table) -> bool
    ensures { IsTrue result → IsKeyed table.now (0 ∷ []) [] [] }
{
    if table.primary.as_slice() != [0].as_slice() {
        return false;
    }
    table.uniques.is_empty() && table.orders.is_empty()
}

// Whether the record, the line and the side are the key, and nothing else is unique.
fn is_keyed_by_spot(table: &Table) -> bool
    ensures { IsTrue result → IsKeyed table.now (1 ∷ 2 ∷ 3 ∷ []) ((1 ∷ 2 ∷ 3 ∷ []) ∷ []) (plain ∷ []) }
{
    if table.primary.as_slice() != [1, 2, 3].as_slice() {
        return false;
    }
    are_keys(table.uniques.as_slice()) && are_orders(table.orders.as_slice())
}

fn are_keys(keys: &[Items<usize>]) -> bool
    ensures { IsTrue result → keys.now ≡ (1 ∷ 2 ∷ 3 ∷ []) ∷ [] }
{
    match keys {
        [places] => are_places_of_spot(places),
        _ => false,
    }
}

fn are_places_of_spot(places: &Items<usize>) -> bool
    ensures { IsTrue result → places.now ≡ 1 ∷ 2 ∷ 3 ∷ [] }
{
    places.as_slice() == [1, 2, 3].as_slice()
}

fn are_orders(orders: &[Order]) -> bool
    ensures { IsTrue result → orders.now ≡ plain ∷ [] }
{
    match orders {
        [order] => *order == Order::PLAIN,
        _ => false,
    }
}

fn are_columns_of_records(columns: &[Column]) -> bool
    ensures { IsTrue result → columns.now ≡ records_table.columns }
{
    match columns {
        [number, body] => {
            is_column(number, b"no", Kind::Integer, false)
                && is_column(body, b"body", Kind::Blob, true)
        }
        _ => false,
    }
}

fn are_columns_of_head(columns: &[Column]) -> bool
    ensures { IsTrue result → columns.now ≡ head_table.columns }
{
    match columns {
        [id, version, covered] => {
            is_column(id, b"id", Kind::Integer, false)
                && is_column(version, b"version", Kind::Integer, true)
                && is_column(covered, b"covered", Kind::Integer, true)
        }
        _ => false,
    }
}

fn are_columns_of_worths(columns: &[Column]) -> bool
    ensures { IsTrue result → columns.now ≡ worths_table.columns }
{
    match columns {
        [voucher, line, side, value, share] => {
            is_column(voucher, b"voucher", Kind::Integer, true)
                && is_column(line, b"line", Kind::Integer, true)
                && is_column(side, b"side", Kind::Integer, true)
                && is_column(value, b"value", Kind::Integer, true)
                && is_column(share, b"share", Kind::Integer, true)
        }
        _ => false,
    }
}

#[tactic(auto, using(crate::proofs::RecognizeLaw::table_is))]
fn is_head(alloc: Global, table: &Table) -> Result<bool, AllocError>
    ensures { IfOk result (λ found. IsTrue found → table.now ≡ head_table) }
{
    if !is_bare(alloc, table, b"head", 3, Some(0))? {
        return Ok(false);
    }
    if !are_columns_of_head(table.columns.as_slice()) {
        return Ok(false);
    }
    if !is_keyed_by_rowid(table) {
        return Ok(false);
    }
    is_check_of_id(alloc, &table.checks)
}

// What the three tables have in common.
fn is_bare(
    alloc: Global,
    table: &Table,
    name: &[u8],
    tree: u32,
    key: Option<usize>,
) -> Result<bool, AllocError>
    ensures { IfOk result (λ found. IsTrue found → IsBare table.now name.now tree key) }
{
    if table.name.as_slice() != name || table.tree != tree || table.key != key {
        return Ok(false);
    }
    if !table.references.is_empty() || !table.computed.is_empty() || table.is_counted {
        return Ok(false);
    }
    if !table.stamps.places.is_empty() || !table.stamps.formats.is_empty() {
        return Ok(false);
    }
    has_no_terms(alloc, &table.stamps.terms)
}

fn is_column(column: &Column, name: &[u8], kind: Kind, not_null: bool) -> bool
    ensures { IsTrue result → column.now ≡ column_of name.now kind not_null }
{
    if column.name.as_slice() != name || column.kind != kind {
        return false;
    }
    if !column.is_strict || column.not_null != not_null {
        return false;
    }
    if column.collation != Collation::Binary {
        return false;
    }
    match &column.default {
        Value::Null => true,
        _ => false,
    }
}

fn is_index_of_worths(index: &Index) -> bool
    ensures { IsTrue result → index.now ≡ worths_index }
{
    if index.name.as_slice() != b"sqlite_autoindex_worths_1".as_slice() {
        return false;
    }
    if index.tree != 2 || index.table != 1 {
        return false;
    }
    if index.columns.as_slice() != [1, 2, 3].as_slice() {
        return false;
    }
    index.order == Order::PLAIN && index.is_unique
}

fn has_no_terms(alloc: Global, terms: &Terms) -> Result<bool, AllocError>
    ensures { IfOk result (λ found. IsTrue found → terms.now ≡ []) }
{
    let lent = terms.lend(alloc)?;
    Ok(lent.roots.is_empty())
}

// Whether the one term says that the rowid is 1.
fn is_check_of_id(alloc: Global, terms: &Terms) -> Result<bool, AllocError>
    ensures { IfOk result (λ found. IsTrue found → terms.now ≡ head_table.checks) }
{
    let lent = terms.lend(alloc)?;
    let nodes = lent.nodes.as_slice();
    match lent.roots {
        [root] => Ok(is_rowid_one(nodes, *root)),
        _ => Ok(false),
    }
}

fn is_rowid_one(nodes: &[Node<'_>], at: usize) -> bool
    ensures { IsTrue result → term_at nodes.now (length nodes.now) at ≡ op2 (binary.Compare compare.Eq collation.Binary) (col 1 0) (lit (value.Int (pos 1))) }
{
    let (node, below) = open(nodes, nodes.len(), at);
    match node {
        Node::Binary(BinaryOp::Compare(CompareOp::Eq, Collation::Binary), id, one) => {
            is_rowid(nodes, below, id) && is_one(nodes, below, one)
        }
        _ => false,
    }
}

fn is_rowid(nodes: &[Node<'_>], depth: usize, at: usize) -> bool
    ensures { IsTrue result → term_at nodes.now depth at ≡ col 1 0 }
{
    let (node, _) = open(nodes, depth, at);
    match node {
        Node::Column(1, 0) => true,
        _ => false,
    }
}

fn is_one(nodes: &[Node<'_>], depth: usize, at: usize) -> bool
    ensures { IsTrue result → term_at nodes.now depth at ≡ lit (value.Int (pos 1)) }
{
    let (node, _) = open(nodes, depth, at);
    match node {
        Node::Literal(ValueRef::Int(1)) => true,
        _ => false,
    }
}
