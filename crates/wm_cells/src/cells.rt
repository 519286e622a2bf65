//! The rules of the cells that a record speaks of.
ghost use Rattle.std.specs.Prelude.{◌≡◌};
ghost use Rattle.wm_cells.specs.Lookups.{found};
ghost use Rattle.wm_graph.specs.Rules.{is_typed, are_typed, is_key_of, are_cells, values_at, key_of, is_key, is_row_at};
ghost use Rattle.wm_cells.specs.Pairs.{is_at};

use crate::index::{self, Index};
use crate::rows::{self, HEAVIEST_KEY};
use crate::{columns, weights};
use wm_base::{END, Key, Value};
use wm_spec::record::{CellRange, RowRecord, Table, TableColumn};

/// Whether the value has the type of the column at the place, which is there.
fn is_typed(columns: &[TableColumn], place: u8, value: &Value) -> bool
    ensures { result ≡ is_typed columns.now place value.now }
{
    match columns.get(usize::from(place)) {
        Some(column) => columns::has_kind(column.kind, value),
        None => false,
    }
}

/// Whether there is a value for each of these places, which has the type of the column there.
fn are_typed(columns: &[TableColumn], places: &[u8], values: &[Value]) -> bool
    ensures { result ≡ are_typed columns.now places.now values.now }
{
    if places.len() != values.len() {
        return false;
    }
    for (place, value) in places.iter().zip(values) {
        if !is_typed(columns, *place, value) {
            return false;
        }
    }
    true
}

/// Whether it may be the key of a row of the table.
pub fn is_key_of(table: &Table, key: &Key) -> bool
    ensures { result ≡ is_key_of key.now table.now }
{
    weights::weigh_at_most(key.values(), HEAVIEST_KEY)
        && rows::has_key(table)
        && are_typed(
            table.columns.as_slice(),
            table.key_columns.as_slice(),
            key.values(),
        )
}

/// Whether the cells are of a key of a table that is there, over a period.
pub fn are_cells(tables: &Index<Table>, cells: &CellRange) -> bool
    ensures { result ≡ are_cells (found tables.now.entries) cells.now }
{
    if cells.from >= cells.till || cells.till > END {
        return false;
    }
    match index::look(tables, u64::from(cells.table)) {
        Some(table) => is_key_of(table, &cells.key),
        None => false,
    }
}

/// Whether a row has this value at the place.
fn is_at(values: &[Value], place: u8, value: &Value) -> bool
    ensures { result ≡ is_at values.now place value.now }
{
    match values.get(usize::from(place)) {
        Some(held) => held.order(value).is_eq(),
        None => false,
    }
}

/// Whether a row has just these values at these places.
fn are_at(values: &[Value], places: &[u8], key: &[Value]) -> bool
    ensures { result ≡ is_key key.now (values_at places.now values.now) }
{
    if places.len() != key.len() {
        return false;
    }
    for (place, value) in places.iter().zip(key) {
        if !is_at(values, *place, value) {
            return false;
        }
    }
    true
}

/// Whether these values of a row of the table have the key.
pub fn has_this_key(table: &Table, key: &Key, values: &[Value]) -> bool
    ensures { result ≡ is_key key.now (key_of table.now values.now) }
{
    rows::has_key(table) && are_at(values, table.key_columns.as_slice(), key.values())
}

/// Whether the row is of the table of the cells and has their key.
pub fn is_row_at(tables: &Index<Table>, cells: &CellRange, row: &RowRecord) -> bool
    ensures { result ≡ is_row_at (found tables.now.entries) cells.now row.now }
{
    if row.table != cells.table {
        return false;
    }
    let Some(table) = index::look(tables, u64::from(cells.table)) else {
        return false;
    };
    has_this_key(table, &cells.key, row.values.as_slice())
}
