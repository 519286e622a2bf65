//! The rules of the records of rows.
ghost use Rattle.std.specs.Prelude.{◌≡◌};
ghost use Rattle.std.specs.List.{list_all};
ghost use Rattle.wm_cells.specs.Lookups.{found, referred};
ghost use Rattle.wm_graph.specs.Rules.{has_key, values_at, key_of, is_light_key, is_row_of, is_row};

use crate::index::{self, Index};
use crate::{columns, weights};
use wm_base::Value;
use wm_spec::record::{RowRecord, Table};

/// The most that the values of a row weigh together.
const HEAVIEST_ROW: u64 = 2_000;

/// The most that a key weighs.
pub const HEAVIEST_KEY: u64 = 200;

/// Whether the table has a key.
pub fn has_key(table: &Table) -> bool
    ensures { result ≡ has_key table.now }
{
    !table.key_columns.as_slice().is_empty()
}

/// Whether the values of a row at these places, where it has them all, are not too heavy for a key.
fn are_light(places: &[u8], values: &[Value]) -> bool
    ensures { result ≡ is_light_key (values_at places.now values.now) }
{
    let mut total: u64 = 0;
    for place in places {
        let Some(value) = values.get(usize::from(*place)) else {
            return true;
        };
        total = total.saturating_add(value.weight());
    }
    total <= HEAVIEST_KEY
}

/// Whether the key of a row, where it has one, is not too heavy.
fn has_light_key(table: &Table, values: &[Value]) -> bool
    ensures { result ≡ is_light_key (key_of table.now values.now) }
{
    !has_key(table) || are_light(table.key_columns.as_slice(), values)
}

/// Whether these may be the values of a row of the table.
pub fn is_row_of(table: &Table, values: &[Value]) -> bool
    ensures { result ≡ is_row_of values.now table.now }
{
    columns::fit_columns(table.columns.as_slice(), values)
        && weights::weigh_at_most(values, HEAVIEST_ROW)
        && has_light_key(table, values)
}

/// Whether the row has a stamp that was given and values for its table, which is there.
fn is_row(tables: &Index<Table>, next: u64, row: &RowRecord) -> bool
    ensures { result ≡ is_row (found tables.now.entries) next row.now }
{
    if row.stamp >= next {
        return false;
    }
    match index::look(tables, u64::from(row.table)) {
        Some(table) => is_row_of(table, row.values.as_slice()),
        None => false,
    }
}

/// Whether each row has a stamp that was given and values for its table, which is there.
pub fn each_is_row(tables: &Index<Table>, next: u64, rows: &[&RowRecord]) -> bool
    ensures { result ≡ list_all (is_row (found tables.now.entries) next) (referred rows.now) }
{
    for row in rows {
        if !is_row(tables, next, row) {
            return false;
        }
    }
    true
}
