//! Conditions over the key columns of a table.
ghost use Rattle.std.specs.Prelude.{◌≡◌, map, None, option_copied, slice_get, IfOk, true};
ghost use Rattle.wm_syntax.specs.Views.{filter_view};
ghost use Rattle.wm_decided.specs.Keys.{columns_of_keys, key_as_row, key_columns};
ghost use Rattle.wm_typing.specs.Columns.{declared_column};
ghost use Rattle.wm_typing.specs.Names.{unknown_in_filter};
ghost use Rattle.wm_typing.specs.Types.{is_filter_typed, mistyped_in_filter};

use std::alloc::Global;
use wm_base::values::copies_of;
use wm_base::{Key, Memory, Name, Row, Value, Values};
use wm_listing::{Column, Columns};
use wm_spec::record::Table;
use wm_syntax::cond::Cond;
use wm_typing::columns::{columns_of_table, valid_column};
use wm_typing::names::unknown_in_filter;
use wm_typing::types::mistyped_in_filter;

/// The column at a place, where there is one.
fn column_at(columns: &[Column], place: u8) -> Option<&Column>
    ensures { option_copied result ≡ slice_get columns.now place }
{
    columns.get(usize::from(place))
}

/// The key columns of a source of that name, in the order in which keys have them.
pub fn key_columns(alloc: Global, source: &Name, table: &Table) -> Result<Vec<Column>, Memory>
    ensures { IfOk result (λ columns. columns.items ≡ map (declared_column source.now) (key_columns table.now)) }
{
    let all = columns_of_table(alloc, source, table)?;
    let declared = &all.as_slice()[..table.columns.len()];
    let mut columns = Vec::new(alloc);
    for place in table.key_columns.as_slice() {
        if let Some(column) = column_at(declared, *place) {
            columns.push(column.copy(alloc)?)?;
        }
    }
    Ok(columns)
}

/// The columns that a condition over keys may name. Behind the key columns stands WM_VALID, twice, so that no name means
/// it.
pub fn columns_of_keys(alloc: Global, table: &Table) -> Result<Columns, Memory>
    ensures { IfOk result (λ columns. columns ≡ columns_of_keys table.now) }
{
    let mut columns = key_columns(alloc, &table.name, table)?;
    columns.push(valid_column(alloc, &table.name)?)?;
    columns.push(valid_column(alloc, &table.name)?)?;
    Ok(Columns::from_vec(columns))
}

/// A key as a row of these columns.
pub fn key_as_row(alloc: Global, key: &Key) -> Result<Row, Memory>
    ensures { IfOk result (λ row. row ≡ key_as_row key.now) }
{
    let mut values = copies_of(alloc, key.values())?;
    values.push(Value::Null)?;
    values.push(Value::Null)?;
    Ok(Row {
        values: Values::from_vec(values),
    })
}

/// The first name in a condition over keys that is none of a key column.
pub fn unkeyed_name(
    alloc: Global,
    table: &Table,
    condition: &Option<Cond>,
) -> Result<Option<Name>, Memory>
    ensures { IfOk result (λ name. name ≡ unknown_in_filter (columns_of_keys table.now) (filter_view condition.now)) }
{
    let columns = columns_of_keys(alloc, table)?;
    match unknown_in_filter(columns.as_slice(), condition) {
        Some(name) => Ok(Some(Name::copy_of(alloc, name)?)),
        None => Ok(None),
    }
}

/// What is of a wrong type first in a condition over keys. One that names key columns alone is typed where nothing is.
pub fn mistyped_key(
    alloc: Global,
    table: &Table,
    condition: &Option<Cond>,
) -> Result<Option<&'static [u8]>, Memory>
    ensures exact { IfOk result (λ mark. option_copied mark ≡ mistyped_in_filter (columns_of_keys table.now) (filter_view condition.now)) }
    ensures typed { IfOk result (λ mark. unknown_in_filter (columns_of_keys table.now) (filter_view condition.now) ≡ None → option_copied mark ≡ None → is_filter_typed (columns_of_keys table.now) (filter_view condition.now) ≡ true) }
{
    let columns = columns_of_keys(alloc, table)?;
    Ok(mistyped_in_filter(columns.as_slice(), condition))
}
