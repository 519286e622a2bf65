//! The row that INSERT writes.
ghost use Rattle.std.specs.Prelude.{◌≡◌, true, Some, None, map, slice_get, unwrap_or, IfOk};
ghost use Rattle.std.specs.List.{list_all, position};
ghost use Rattle.std.specs.Option.{option_and_then};
ghost use Rattle.std.specs.Result.{IsErrOf};
ghost use Rattle.std.specs.Str.{bytes_eq};
ghost use Rattle.wm_syntax.specs.Views.{expr_view, exprs_view};
ghost use Rattle.wm_spec.specs.Expressions.{has_no_empty_period};
ghost use Rattle.wm_spec.specs.declared.record.column.TableColumn.{TableColumn as ColumnOf};
ghost use Rattle.wm_making.specs.Rows.{is_filled, stored as as_stored, value_alone as value_by_itself, values_of as all_values, value_named as named_value, row_of as values_of_row};

use std::alloc::Global;
use wm_base::{Memory, Name, Row, Value, Values};
use wm_expr::{ValueFault, value};
use wm_listing::Columns;
use wm_spec::record::{Table, TableColumn};
use wm_syntax::column::Names;
use wm_syntax::expr::Expr;

/// The value as a row has it: an empty text is NULL.
pub fn stored(value: Value) -> Value
    ensures { result ≡ as_stored value }
{
    match value {
        Value::Text(text) if text.len() == 0 => Value::Null,
        value => value,
    }
}

/// The value of an expression that names no column, as a row has it.
fn value_alone(alloc: Global, expr: &Expr) -> Result<Value, ValueFault>
    requires { has_no_empty_period (expr_view expr.now) ≡ true }
    ensures ok { IfOk result (λ made. value_by_itself (expr_view expr.now) ≡ Some made) }
    ensures out_of_range { IsErrOf result ValueFault.OutOfRange → value_by_itself (expr_view expr.now) ≡ None }
{
    let columns = Columns::from_vec(Vec::new(alloc));
    let row = Row {
        values: Values::new(alloc),
    };
    let made = value(alloc, expr, &columns, &row)?;
    Ok(stored(made))
}

/// The values of the expressions, which name no column.
fn values_of(alloc: Global, exprs: &[Expr]) -> Result<Vec<Value>, ValueFault>
    requires { list_all has_no_empty_period (exprs_view exprs.now) ≡ true }
    ensures ok { IfOk result (λ made. all_values (exprs_view exprs.now) ≡ Some made.items) }
    ensures out_of_range { IsErrOf result ValueFault.OutOfRange → all_values (exprs_view exprs.now) ≡ None }
{
    let mut made = Vec::with_capacity(alloc, exprs.len()).map_err(|_| ValueFault::Memory)?;
    for expr in exprs {
        let one = value_alone(alloc, expr)?;
        made.push(one).map_err(|_| ValueFault::Memory)?;
    }
    Ok(made)
}

/// Where the name stands.
fn place_of(name: &Name, names: &[Name]) -> Option<usize>
    ensures { result ≡ position (bytes_eq name.now) names.now }
{
    names
        .iter()
        .position(|other| name.as_bytes() == other.as_bytes())
}

/// A copy of the value at the place, NULL where there is none.
fn value_at(alloc: Global, values: &[Value], place: Option<usize>) -> Result<Value, Memory>
    ensures { IfOk result (λ value. value ≡ unwrap_or (option_and_then (λ p. slice_get values.now p) place) Value.Null) }
{
    match place {
        Some(place) => match values.get(place) {
            Some(value) => value.copy(alloc),
            None => Ok(Value::Null),
        },
        None => Ok(Value::Null),
    }
}

/// The value that stands where the name of the column stands, and NULL where it does not, for each of the columns.
fn arranged(
    alloc: Global,
    columns: &[TableColumn],
    names: &[Name],
    values: &[Value],
) -> Result<Vec<Value>, Memory>
    ensures { IfOk result (λ row. row.items ≡ map (λ (c : ColumnOf). named_value names.now values.now c.name) columns.now) }
{
    let mut row = Vec::with_capacity(alloc, columns.len())?;
    for column in columns {
        let value = value_at(alloc, values, place_of(&column.name, names))?;
        row.push(value)?;
    }
    Ok(row)
}

/// The values in the order of the columns, without the one for WM_VALID; a column that is not named is NULL.
#[tactic(auto, unfolding(crate::specs::Rows::row_of))]
fn made_row(
    alloc: Global,
    table: &Table,
    names: &Option<Names>,
    values: &[Expr],
) -> Result<Values, ValueFault>
    requires { list_all has_no_empty_period (exprs_view values.now) ≡ true }
    ensures ok { IfOk result (λ row. values_of_row table.now names.now (exprs_view values.now) ≡ Some row) }
    ensures out_of_range { IsErrOf result ValueFault.OutOfRange → values_of_row table.now names.now (exprs_view values.now) ≡ None }
{
    let mut made = values_of(alloc, values)?;
    match names {
        Some(names) => {
            let row = arranged(
                alloc,
                table.columns.as_slice(),
                names.as_slice(),
                made.as_slice(),
            )
            .map_err(|_| ValueFault::Memory)?;
            Ok(Values::from_vec(row))
        }
        None => {
            made.truncate(table.columns.len());
            Ok(Values::from_vec(made))
        }
    }
}

/// The values of the new row, without the one for WM_VALID, in the order of the columns; a column that is not named is NULL, and so is an empty text.
/// They are out of range exactly where some number on the way to one of them is no `i64`.
pub fn row_of(
    alloc: Global,
    table: &Table,
    names: &Option<Names>,
    values: &[Expr],
) -> Result<Values, ValueFault>
    requires { list_all has_no_empty_period (exprs_view values.now) ≡ true }
    ensures ok { IfOk result (λ row. values_of_row table.now names.now (exprs_view values.now) ≡ Some row) }
    ensures out_of_range { IsErrOf result ValueFault.OutOfRange → values_of_row table.now names.now (exprs_view values.now) ≡ None }

    // No text in it is empty.
    ensures filled { IfOk result (λ row. list_all is_filled row ≡ true) }
{
    let row = made_row(alloc, table, names, values)?;
    Ok(row)
}
