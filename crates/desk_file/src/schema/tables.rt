//! A table and an index.
ghost use Rattle.std.specs.Prelude.{◌≡◌, ◌↔◌, ◌∷◌, [], IsTrue, Some, None, map, false, if◌then◌else◌};
ghost use Rattle.sql_tables.specs.Schema.{ascending, checks_of, is_numbered as numbered, orders_of, uniques_of, unstamped};
ghost use Rattle.desk_file.specs.Outline.{outline};
ghost use Rattle.desk_file.specs.Tables.{HasNothingElse, index_outlined, table_outlined};

use crate::schema::checks::are_checks;
use crate::schema::columns::are_columns;
use sql_tables::tables::{self, Holds};
use sqlite_items::Items;
use sqlite_schema::schema::{Index, Stamps, Table};
use sqlite_value::keys::Order;

/// Whether the first column is the number of the row.
fn is_numbered(columns: &[tables::Column<'_>]) -> bool
    ensures { result ≡ numbered (map outline columns.now) }
{
    match columns {
        [(_, Holds::Key), ..] => true,
        _ => false,
    }
}

/// Whether the rows are numbered, or keyed by the first two columns.
fn is_keyed(table: &Table, is_numbered: bool) -> bool
    ensures key { IsTrue result → table.now.key ≡ (if is_numbered then Some 0 else None) }
    ensures primary { IsTrue result → table.now.primary ≡ (if is_numbered then 0 ∷ [] else 1 ∷ 2 ∷ []) }
    ensures all { table.now.key ≡ (if is_numbered then Some 0 else None) → table.now.primary ≡ (if is_numbered then 0 ∷ [] else 1 ∷ 2 ∷ []) → IsTrue result }
{
    if is_numbered {
        table.key == Some(0) && table.primary.as_slice() == [0].as_slice()
    } else {
        table.key.is_none() && table.primary.as_slice() == [1, 2].as_slice()
    }
}

/// Whether these are two places.
fn are_two(places: &Items<usize>, first: usize, second: usize) -> bool
    ensures { IsTrue result ↔ (places.now ≡ first ∷ second ∷ []) }
{
    places.as_slice() == [first, second].as_slice()
}

/// Whether these are the unique keys: the one, or none.
fn are_uniques(uniques: &[Items<usize>], wanted: Option<(usize, usize)>) -> bool
    ensures { IsTrue result ↔ (uniques.now ≡ uniques_of wanted) }
{
    match (uniques, wanted) {
        ([], None) => true,
        ([places], Some((first, second))) => are_two(places, first, second),
        _ => false,
    }
}

/// Whether each unique key is in ascending order.
fn are_orders(orders: &[Order], wanted: Option<(usize, usize)>) -> bool
    ensures { IsTrue result ↔ (orders.now ≡ orders_of wanted) }
{
    match (orders, wanted) {
        ([], None) => true,
        ([order], Some(_)) => order.digits == 0,
        _ => false,
    }
}

/// Whether no default reads the time.
fn is_unstamped(stamps: &Stamps) -> bool
    ensures { IsTrue result ↔ (stamps.now ≡ unstamped) }
{
    stamps.places.as_slice().is_empty()
        && stamps.terms.roots.as_slice().is_empty()
        && stamps.formats.as_slice().is_empty()
}

/// Whether it has nothing that no table of the desk has.
fn has_nothing_else(table: &Table) -> bool
    ensures { IsTrue result ↔ HasNothingElse table.now }
{
    table.references.as_slice().is_empty()
        && table.computed.as_slice().is_empty()
        && is_unstamped(&table.stamps)
        && !table.is_counted
}

/// Whether it is this table.
fn is_table(table: &Table, wanted: &tables::Table<'_>) -> bool
    ensures { IsTrue result ↔ (table.now ≡ table_outlined wanted.now) }
{
    let (name, tree, columns, unique) = *wanted;
    let is_numbered = is_numbered(columns);
    table.name.as_slice() == name.as_bytes()
        && table.tree == tree
        && are_columns(table.columns.as_slice(), columns)
        && is_keyed(table, is_numbered)
        && are_uniques(table.uniques.as_slice(), unique)
        && are_orders(table.orders.as_slice(), unique)
        && are_checks(&table.checks, !is_numbered)
        && has_nothing_else(table)
}

/// Whether these are the tables, in this order.
pub fn are_tables(tables: &[Table], wanted: &[tables::Table<'_>]) -> bool
    ensures { IsTrue result ↔ (tables.now ≡ map table_outlined wanted.now) }
{
    match (tables, wanted) {
        ([], []) => true,
        ([table, more @ ..], [first, others @ ..]) => {
            is_table(table, first) && are_tables(more, others)
        }
        _ => false,
    }
}

/// Whether it is this index.
fn is_index(index: &Index, wanted: &tables::Index<'_>) -> bool
    ensures { IsTrue result ↔ (index.now ≡ index_outlined wanted.now) }
{
    let (name, tree, table, first, second) = *wanted;
    index.name.as_slice() == name.as_bytes()
        && index.tree == tree
        && index.table == table
        && are_two(&index.columns, first, second)
        && index.order.digits == 0
        && index.is_unique
}

/// Whether these are the indexes, in this order.
pub fn are_indexes(indexes: &[Index], wanted: &[tables::Index<'_>]) -> bool
    ensures { IsTrue result ↔ (indexes.now ≡ map index_outlined wanted.now) }
{
    match (indexes, wanted) {
        ([], []) => true,
        ([index, more @ ..], [first, others @ ..]) => {
            is_index(index, first) && are_indexes(more, others)
        }
        _ => false,
    }
}
