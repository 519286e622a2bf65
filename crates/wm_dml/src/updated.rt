//! The rows that UPDATE makes of others.
ghost use Rattle.std.specs.Prelude.{◌≡◌, true, Some, None, length, bytes_eq, IfOk};
ghost use Rattle.std.specs.List.{list_all, list_any, find};
ghost use Rattle.std.specs.Option.{option_copied, option_map};
ghost use Rattle.std.specs.Result.{IsErrOf};
ghost use Rattle.wm_syntax.specs.Trees.{Set as SetTree};
ghost use Rattle.wm_syntax.specs.Views.{expr_view, set_view, sets_view};
ghost use Rattle.wm_spec.specs.Expressions.{value_of, has_no_empty_period};
ghost use Rattle.wm_spec.specs.Operands.{wm_valid};
ghost use Rattle.wm_making.specs.Rows.{stored as as_stored};
ghost use Rattle.wm_dml.specs.Changing.{own_columns, sets_period as period_set, set_value as value_set, set_values as values_set, updated_rows as rows_of};

use std::alloc::Global;
use wm_base::{Row, Value, Values};
use wm_expr::{ValueFault, value};
use wm_listing::Columns;
use wm_making::stored;
use wm_spec::record::{Table, TableColumn};
use wm_syntax::statement::Set;
use wm_typing::columns_of_table;

/// Whether one of the changes is of WM_VALID.
fn is_valid_set(sets: &[Set]) -> bool
    ensures { result ≡ list_any (λ (s : SetTree). bytes_eq s.name wm_valid) (sets_view sets.now) }
{
    for set in sets {
        if set.name.equals(b"WM_VALID") {
            return true;
        }
    }
    false
}

/// Whether the sets give new periods to rows of a table with valid time: then `updated_rows` and `replacing` do not say
/// what the UPDATE writes.
pub fn sets_period(table: &Table, sets: &[Set]) -> bool
    ensures { result ≡ period_set table.now (sets_view sets.now) }
{
    table.valid && is_valid_set(sets)
}

/// What sets the column that has this name.
fn set_of<'a>(sets: &'a [Set], name: &[u8]) -> Option<&'a Set>
    ensures { option_map set_view (option_copied result) ≡ find (λ (s : SetTree). bytes_eq s.name name.now) (sets_view sets.now) }
{
    for set in sets {
        if set.name.equals(name) {
            return Some(set);
        }
    }
    None
}

/// What sets the column.
fn column_set<'a>(sets: &'a [Set], column: &TableColumn) -> Option<&'a Set>
    ensures { option_map set_view (option_copied result) ≡ find (λ (s : SetTree). bytes_eq s.name column.now.name) (sets_view sets.now) }
{
    set_of(sets, column.name.as_bytes())
}

/// What sets WM_VALID.
pub fn valid_set(sets: &[Set]) -> Option<&Set>
    ensures { option_map set_view (option_copied result) ≡ find (λ (s : SetTree). bytes_eq s.name wm_valid) (sets_view sets.now) }
{
    set_of(sets, b"WM_VALID")
}

/// The value of an expression for the row, as a row has it.
fn becomes(alloc: Global, set: &Set, columns: &Columns, row: &Row) -> Result<Value, ValueFault>
    requires { has_no_empty_period (expr_view set.now.becomes) ≡ true }
    ensures ok { IfOk result (λ made. option_map as_stored (value_of (expr_view set.now.becomes) columns.now row.now) ≡ Some made) }
    ensures out_of_range { IsErrOf result ValueFault.OutOfRange → option_map as_stored (value_of (expr_view set.now.becomes) columns.now row.now) ≡ None }
{
    let made = value(alloc, &set.becomes, columns, row)?;
    Ok(stored(made))
}

/// The value of the column once the sets are done, each of which reads the row as it was.
fn set_value(
    alloc: Global,
    columns: &Columns,
    sets: &[Set],
    row: &Row,
    column: &TableColumn,
    old: &Value,
) -> Result<Value, ValueFault>
    requires { list_all (λ (s : SetTree). has_no_empty_period s.becomes) (sets_view sets.now) ≡ true }
    ensures ok { IfOk result (λ made. value_set columns.now (sets_view sets.now) row.now column.now old.now ≡ Some made) }
    ensures out_of_range { IsErrOf result ValueFault.OutOfRange → value_set columns.now (sets_view sets.now) row.now column.now old.now ≡ None }
{
    match column_set(sets, column) {
        Some(set) => becomes(alloc, set, columns, row),
        None => old.copy(alloc).map_err(|_| ValueFault::Memory),
    }
}

/// The values of all columns once the sets are done.
fn set_values(
    alloc: Global,
    columns: &Columns,
    sets: &[Set],
    row: &Row,
    declared: &[TableColumn],
) -> Result<Vec<Value>, ValueFault>
    requires { list_all (λ (s : SetTree). has_no_empty_period s.becomes) (sets_view sets.now) ≡ true }
    ensures ok { IfOk result (λ made. values_set columns.now (sets_view sets.now) row.now declared.now row.now.values ≡ Some made.items) }
    ensures out_of_range { IsErrOf result ValueFault.OutOfRange → values_set columns.now (sets_view sets.now) row.now declared.now row.now.values ≡ None }
{
    let mut made = Vec::new(alloc);
    for (place, column) in declared.iter().enumerate() {
        match row.values.as_slice().get(place) {
            Some(old) => {
                let one = set_value(alloc, columns, sets, row, column, old)?;
                made.push(one).map_err(|_| ValueFault::Memory)?;
            }
            None => return Ok(made),
        }
    }
    Ok(made)
}

/// The row that the sets make of each.
fn all_updated(
    alloc: Global,
    table: &Table,
    columns: &Columns,
    sets: &[Set],
    rows: &[Row],
) -> Result<Vec<Values>, ValueFault>
    requires own { columns.now ≡ own_columns table.now }
    requires lasting { list_all (λ (s : SetTree). has_no_empty_period s.becomes) (sets_view sets.now) ≡ true }
    ensures ok { IfOk result (λ made. rows_of table.now (sets_view sets.now) rows.now ≡ Some made.items) }
    ensures out_of_range { IsErrOf result ValueFault.OutOfRange → rows_of table.now (sets_view sets.now) rows.now ≡ None }
{
    let declared = table.columns.as_slice();
    let mut made = Vec::new(alloc);
    for row in rows {
        let one = set_values(alloc, columns, sets, row, declared)?;
        made.push(Values::from_vec(one))
            .map_err(|_| ValueFault::Memory)?;
    }
    Ok(made)
}

/// The rows that the sets make of the shown rows, in order, without their periods. They are out of range exactly where
/// some number on the way is no `i64`.
pub fn updated_rows(
    alloc: Global,
    table: &Table,
    sets: &[Set],
    rows: &[Row],
) -> Result<Vec<Values>, ValueFault>
    requires { list_all (λ (s : SetTree). has_no_empty_period s.becomes) (sets_view sets.now) ≡ true }
    ensures ok { IfOk result (λ made. rows_of table.now (sets_view sets.now) rows.now ≡ Some made.items) }
    ensures out_of_range { IsErrOf result ValueFault.OutOfRange → rows_of table.now (sets_view sets.now) rows.now ≡ None }
    ensures as_many { IfOk result (λ made. length rows.now ≡ length made.items) }
{
    let columns = columns_of_table(alloc, &table.name, table).map_err(|_| ValueFault::Memory)?;
    let made = all_updated(alloc, table, &columns, sets, rows);
    drop(columns);
    let made = made?;
    Ok(made)
}
