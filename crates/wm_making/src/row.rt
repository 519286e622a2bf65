//! What a row is refused for by its values.
ghost use Rattle.std.specs.Prelude.{◌≡◌, ℕ, List, Option, Some, None, true, nat_le, IfOk, option_copied};
ghost use Rattle.wm_syntax.specs.Trees.{Expr as Tree};
ghost use Rattle.wm_graph.specs.Rules.{weight, has_key, is_table};
ghost use Rattle.wm_spec.specs.Conditions.{is_null as null};
ghost use Rattle.wm_making.specs.Rows.{is_key_at as key_at, first_column, lacks_value as lacks_a_value, is_long as long_in, is_heavy as heavy_in, heavy_part as heavy_of, row_fault as fault_of_row, row_of, MayStand};
ghost use Rattle.wm_making.specs.Inserting.{insert_fault};

use std::alloc::Global;
use wm_base::{CellRefusal, Memory, Name, Refusal, Text, Value};
use wm_spec::record::{Table, TableColumn};

/// The most that the values of a row weigh together.
const HEAVIEST_ROW: u64 = 2_000;

/// The most that a key weighs.
const HEAVIEST_KEY: u64 = 200;

fn is_key_at(table: &Table, place: usize) -> bool
    ensures { result ≡ key_at table.now place }
{
    table
        .key_columns
        .as_slice()
        .iter()
        .any(|key| place == usize::from(*key))
}

fn is_null(value: &Value) -> bool
    ensures { result ≡ null value.now }
{
    matches!(value, Value::Null)
}

/// Whether the value is NULL and may not be.
fn lacks_value(table: &Table, place: usize, column: &TableColumn, value: &Value) -> bool
    ensures { result ≡ lacks_a_value table.now place column.now value.now }
{
    is_null(value) && (column.not_null || is_key_at(table, place))
}

/// Whether the value is a text of more bytes than the column takes.
fn is_long(column: &TableColumn, value: &Value) -> bool
    ensures { result ≡ long_in column.now value.now }
{
    match value {
        Value::Text(text) => text.len() > usize::from(column.size),
        _ => false,
    }
}

/// Whether the value is such a text, or a key that is too heavy.
fn is_heavy(table: &Table, place: usize, column: &TableColumn, value: &Value) -> bool
    ensures { result ≡ heavy_in table.now place column.now value.now }
{
    is_long(column, value) || (is_key_at(table, place) && value.weight() > HEAVIEST_KEY)
}

/// The first column that lacks a value.
pub fn first_lacking<'a>(table: &'a Table, row: &[Value]) -> Option<&'a Name>
    ensures { option_copied result ≡ first_column (lacks_a_value table.now) 0 table.now.columns row.now }
{
    for (place, column) in table.columns.as_slice().iter().enumerate() {
        match row.get(place) {
            Some(value) => {
                if lacks_value(table, place, column, value) {
                    return Some(&column.name);
                }
            }
            None => return None,
        }
    }
    None
}

/// The first column whose value is too heavy.
fn first_heavy<'a>(table: &'a Table, row: &[Value]) -> Option<&'a Name>
    ensures { option_copied result ≡ first_column (heavy_in table.now) 0 table.now.columns row.now }
{
    for (place, column) in table.columns.as_slice().iter().enumerate() {
        match row.get(place) {
            Some(value) => {
                if is_heavy(table, place, column, value) {
                    return Some(&column.name);
                }
            }
            None => return None,
        }
    }
    None
}

/// Whether the values weigh no more than a row may.
fn is_light(row: &[Value]) -> bool
    ensures { result ≡ nat_le (weight row.now) HEAVIEST_ROW }
{
    let mut left = HEAVIEST_ROW;
    for value in row {
        let weight = value.weight();
        if weight > left {
            return false;
        }
        left -= weight;
    }
    true
}

/// The first column whose value is too heavy, or ROW where all of them together are.
pub fn heavy_part(alloc: Global, table: &Table, row: &[Value]) -> Result<Option<Name>, Memory>
    ensures { IfOk result (λ part. part ≡ heavy_of table.now row.now) }
{
    if let Some(name) = first_heavy(table, row) {
        return Ok(Some(name.copy(alloc)?));
    }
    if is_light(row) {
        Ok(None)
    } else {
        Ok(Some(Text::copy_of(alloc, b"ROW")?))
    }
}

/// What a row of the table is refused for by its values: NULL where none may be, a text or a key that is too heavy, or
/// all of them together.
#[tactic(auto, unfolding(crate::specs::Rows::row_fault))]
pub fn row_fault(alloc: Global, table: &Table, row: &[Value]) -> Result<Option<Refusal>, Memory>
    ensures fault { IfOk result (λ refusal. refusal ≡ fault_of_row table.now row.now) }

    // A row of what an INSERT gives, where neither is refused, may stand in the table.
    ensures may_stand { IfOk result (λ refusal. refusal ≡ None → (names : Option (List (List ℕ))) (xs : List Tree) → insert_fault table.now names xs ≡ None → row_of table.now names xs ≡ Some row.now → is_table table.now ≡ true → has_key table.now ≡ true → MayStand table.now row.now) }
{
    if let Some(name) = first_lacking(table, row) {
        return Ok(Some(Refusal::Cell(CellRefusal::Wm061(name.copy(alloc)?))));
    }
    match heavy_part(alloc, table, row)? {
        Some(part) => Ok(Some(Refusal::Cell(CellRefusal::Wm063(part)))),
        None => Ok(None),
    }
}
