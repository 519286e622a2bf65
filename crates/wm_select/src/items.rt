//! What a query shows for a group of tuples.
ghost use Rattle.std.specs.Prelude.{◌≡◌, [], ◌∷◌, true, map, IfErr, IfOk};
ghost use Rattle.std.specs.List.{zip};
ghost use Rattle.std.specs.Result.{IsErrOf};
ghost use Rattle.wm_base.specs.declared.row.Row.{Row as RowOf};
ghost use Rattle.wm_syntax.specs.Trees.{Aggregate, Outs, Out as OutTree};
ghost use Rattle.wm_syntax.specs.Views.{expr_view, item_view, outs_view, projection_view};
ghost use Rattle.wm_spec.specs.Expressions.{value_of, has_no_empty_period};
ghost use Rattle.wm_ordering.specs.Keys.{row_of, shown_by};
ghost use Rattle.wm_select.specs.Query.{all_there, first_row, item_value, projected, shown_of, item_lasts, projection_lasts};

use crate::aggregates::aggregated;
use std::alloc::Global;
use std::slice;
use wm_base::{Memory, Row, Value, Values};
use wm_expr::{ValueFault, value};
use wm_joining::kept::blank;
use wm_listing::{Columns, RowList};
use wm_ordering::shown::{Shown, all_beside, row_values};
use wm_syntax::expr::Expr;
use wm_syntax::query::{Agg, Item, Out, Projection};

/// The values of an expression on the rows.
fn values_of(
    alloc: Global,
    expr: &Expr,
    columns: &Columns,
    rows: &[Row],
) -> Result<Vec<Value>, ValueFault>
    requires { has_no_empty_period (expr_view expr.now) ≡ true }
    ensures ok { IfOk result (λ values. all_there (map (λ (row : RowOf). value_of (expr_view expr.now) columns.now row) rows.now) ≡ Some values.items) }
    ensures out_of_range { IsErrOf result ValueFault.OutOfRange → all_there (map (λ (row : RowOf). value_of (expr_view expr.now) columns.now row) rows.now) ≡ None }
{
    let mut values = Vec::new(alloc);
    for row in rows {
        let value = value(alloc, expr, columns, row)?;
        values.push(value).map_err(|_| ValueFault::Memory)?;
    }
    Ok(values)
}

/// A copy of the row that stands for the group: its first, and that of no columns where it is empty.
fn first_row(alloc: Global, group: &[Row]) -> Result<Row, Memory>
    ensures { IfOk result (λ row. row ≡ first_row group.now) }
{
    match group {
        [row, ..] => row.copy(alloc),
        [] => Ok(blank(alloc)),
    }
}

/// The value of an expression on the row that stands for the group.
fn plain_value(
    alloc: Global,
    expr: &Expr,
    columns: &Columns,
    group: &[Row],
) -> Result<Value, ValueFault>
    requires { has_no_empty_period (expr_view expr.now) ≡ true }
    ensures ok { IfOk result (λ value. value_of (expr_view expr.now) columns.now (first_row group.now) ≡ Some value) }
    ensures out_of_range { IsErrOf result ValueFault.OutOfRange → value_of (expr_view expr.now) columns.now (first_row group.now) ≡ None }
{
    match group {
        [row, ..] => value(alloc, expr, columns, row),
        [] => value(alloc, expr, columns, &blank(alloc)),
    }
}

/// The aggregate of an expression on the rows of the group.
fn aggregate_value(
    alloc: Global,
    agg: Agg,
    expr: &Expr,
    columns: &Columns,
    group: &[Row],
) -> Result<Value, ValueFault>
    requires { has_no_empty_period (expr_view expr.now) ≡ true }
    ensures ok { IfOk result (λ value. item_value (Aggregate agg (expr_view expr.now)) columns.now group.now ≡ Some value) }
    ensures out_of_range { IsErrOf result ValueFault.OutOfRange → item_value (Aggregate agg (expr_view expr.now)) columns.now group.now ≡ None }
{
    let values = values_of(alloc, expr, columns, group)?;
    aggregated(alloc, agg, values.as_slice())
}

/// The value of an item for the group.
fn item_value(
    alloc: Global,
    item: &Item,
    columns: &Columns,
    group: &[Row],
) -> Result<Value, ValueFault>
    requires { item_lasts (item_view item.now) ≡ true }
    ensures ok { IfOk result (λ value. item_value (item_view item.now) columns.now group.now ≡ Some value) }
    ensures out_of_range { IsErrOf result ValueFault.OutOfRange → item_value (item_view item.now) columns.now group.now ≡ None }
{
    match item {
        Item::Expr(expr) => plain_value(alloc, expr, columns, group),
        Item::CountAll => Ok(Value::Num(group.len() as i64)),
        Item::Agg { agg, of } => aggregate_value(alloc, *agg, of, columns, group),
    }
}

/// The values of the items for the group.
fn item_values(
    alloc: Global,
    outs: &[Out],
    columns: &Columns,
    group: &[Row],
) -> Result<Vec<Value>, ValueFault>
    requires { projection_lasts (Outs (outs_view outs.now)) ≡ true }
    ensures ok { IfOk result (λ values. all_there (map (λ (o : OutTree). item_value o.item columns.now group.now) (outs_view outs.now)) ≡ Some values.items) }
    ensures out_of_range { IsErrOf result ValueFault.OutOfRange → all_there (map (λ (o : OutTree). item_value o.item columns.now group.now) (outs_view outs.now)) ≡ None }
{
    let mut values = Vec::with_capacity(alloc, outs.len()).map_err(|_| ValueFault::Memory)?;
    for out in outs {
        let value = item_value(alloc, &out.item, columns, group)?;
        values.push(value).map_err(|_| ValueFault::Memory)?;
    }
    Ok(values)
}

/// The row that the answer shows for the group.
pub fn projected(
    alloc: Global,
    projection: &Projection,
    columns: &Columns,
    group: &[Row],
) -> Result<Row, ValueFault>
    requires { projection_lasts (projection_view projection.now) ≡ true }
    ensures ok { IfOk result (λ row. projected (projection_view projection.now) columns.now group.now ≡ Some row) }
    ensures out_of_range { IsErrOf result ValueFault.OutOfRange → projected (projection_view projection.now) columns.now group.now ≡ None }
{
    match projection {
        Projection::All => first_row(alloc, group).map_err(|_| ValueFault::Memory),
        Projection::Outs(outs) => {
            let values = item_values(alloc, outs.as_slice(), columns, group)?;
            Ok(Row {
                values: Values::from_vec(values),
            })
        }
    }
}

/// What is shown for the group, with the tuple that stands for it.
fn shown_of(
    alloc: Global,
    projection: &Projection,
    columns: &Columns,
    group: &[Row],
) -> Result<Shown, ValueFault>
    requires { projection_lasts (projection_view projection.now) ≡ true }
    ensures ok { IfOk result (λ shown. shown_of (projection_view projection.now) columns.now group.now ≡ Some shown) }
    ensures out_of_range { IsErrOf result ValueFault.OutOfRange → shown_of (projection_view projection.now) columns.now group.now ≡ None }
{
    let row = projected(alloc, projection, columns, group)?;
    let tuple = first_row(alloc, group).map_err(|_| ValueFault::Memory)?;
    Ok(Shown { tuple, row })
}

/// What is shown for each group.
pub fn all_shown(
    alloc: Global,
    projection: &Projection,
    columns: &Columns,
    groups: &[RowList],
) -> Result<Vec<Shown>, ValueFault>
    requires { projection_lasts (projection_view projection.now) ≡ true }
    ensures ok { IfOk result (λ shown. all_there (map (shown_of (projection_view projection.now) columns.now) groups.now) ≡ Some shown.items) }
    ensures out_of_range { IsErrOf result ValueFault.OutOfRange → all_there (map (shown_of (projection_view projection.now) columns.now) groups.now) ≡ None }
{
    let mut shown = Vec::new(alloc);
    for group in groups {
        let one = shown_of(alloc, projection, columns, group.as_slice())?;
        shown.push(one).map_err(|_| ValueFault::Memory)?;
    }
    Ok(shown)
}

/// The row that each tuple shows where it stands alone.
fn all_projected(
    alloc: Global,
    projection: &Projection,
    columns: &Columns,
    tuples: &[Row],
) -> Result<Vec<Row>, ValueFault>
    requires { projection_lasts (projection_view projection.now) ≡ true }
    ensures ok { IfOk result (λ rows. all_there (map (λ (t : RowOf). projected (projection_view projection.now) columns.now (t ∷ [])) tuples.now) ≡ Some rows.items) }
    ensures out_of_range { IsErrOf result ValueFault.OutOfRange → all_there (map (λ (t : RowOf). projected (projection_view projection.now) columns.now (t ∷ [])) tuples.now) ≡ None }
{
    let mut rows = Vec::new(alloc);
    for tuple in tuples {
        let row = projected(alloc, projection, columns, slice::from_ref(tuple))?;
        rows.push(row).map_err(|_| ValueFault::Memory)?;
    }
    Ok(rows)
}

/// The values of the row that each tuple shows where it stands alone.
#[tactic(auto, using(crate::proofs::ItemLemmas::there_again))]
fn all_values(
    alloc: Global,
    projection: &Projection,
    columns: &Columns,
    tuples: &[Row],
) -> Result<Vec<Values>, ValueFault>
    requires { projection_lasts (projection_view projection.now) ≡ true }
    ensures ok { IfOk result (λ values. all_there (map (λ (t : RowOf). projected (projection_view projection.now) columns.now (t ∷ [])) tuples.now) ≡ Some (map row_of values.items)) }
    ensures out_of_range { IsErrOf result ValueFault.OutOfRange → all_there (map (λ (t : RowOf). projected (projection_view projection.now) columns.now (t ∷ [])) tuples.now) ≡ None }
{
    let rows = all_projected(alloc, projection, columns, tuples)?;
    match row_values(alloc, rows) {
        Ok(values) => Ok(values),
        Err(_) => Err(ValueFault::Memory),
    }
}

/// The tuples, each with the row of the values that it shows.
fn beside_values(
    alloc: Global,
    values: Vec<Values>,
    tuples: Vec<Row>,
) -> Result<Vec<Shown>, ValueFault>
    ensures ok { IfOk result (λ shown. shown.items ≡ map shown_by (zip values.items tuples.items)) }
    ensures memory { IfErr result (λ fault. fault ≡ ValueFault.Memory) }
{
    all_beside(alloc, values, tuples).map_err(|_| ValueFault::Memory)
}

/// What is shown for tuples that stand alone.
#[tactic(auto, using(crate::proofs::ItemLemmas::alone_shown, crate::proofs::ItemLemmas::alone_none))]
pub fn shown_alone(
    alloc: Global,
    projection: &Projection,
    columns: &Columns,
    tuples: Vec<Row>,
) -> Result<Vec<Shown>, ValueFault>
    requires { projection_lasts (projection_view projection.now) ≡ true }
    ensures ok { IfOk result (λ shown. all_there (map (shown_of (projection_view projection.now) columns.now) (map (λ (t : RowOf). t ∷ []) tuples.items)) ≡ Some shown.items) }
    ensures out_of_range { IsErrOf result ValueFault.OutOfRange → all_there (map (shown_of (projection_view projection.now) columns.now) (map (λ (t : RowOf). t ∷ []) tuples.items)) ≡ None }
{
    match all_values(alloc, projection, columns, tuples.as_slice()) {
        Ok(values) => {
            let shown = beside_values(alloc, values, tuples)?;
            Ok(shown)
        }
        Err(fault) => {
            drop(tuples);
            Err(fault)
        }
    }
}
