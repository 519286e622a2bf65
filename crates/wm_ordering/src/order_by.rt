//! ORDER BY.
ghost use Rattle.std.specs.Prelude.{◌≡◌, ◌++◌, map, option_map, unwrap_or, IfOk, OnOk};
ghost use Rattle.std.specs.List.{position};
ghost use Rattle.wm_syntax.specs.declared.query.Order.{Order as OrderOf};
ghost use Rattle.wm_syntax.specs.declared.query.Out.{Out as OutNode};
ghost use Rattle.wm_syntax.specs.Trees.{Outs};
ghost use Rattle.wm_syntax.specs.Views.{outs_view, projection_view, query_view};
ghost use Rattle.wm_ordering.specs.declared.keyed.Keyed.{Keyed as KeyedRow};
ghost use Rattle.wm_ordering.specs.declared.shown.Shown.{Shown as ShownRow};
ghost use Rattle.wm_ordering.specs.Sorting.{goes_by, sorted};
ghost use Rattle.wm_ordering.specs.RowOrder.{has_name, named_item, shown_value, value_at_name, place_of, order_value, order_values, directions_of, goes_before};
ghost use Rattle.wm_ordering.specs.Keys.{keyed_by_order};

use crate::keyed::{Keyed, all_shown_keyed, keyed_rows};
use crate::order::sort_directed;
use crate::shown::{Shown, shown_rows};
use std::alloc::Global;
use wm_base::{Memory, Name, Row, Value, Values};
use wm_expr::owned::column_value;
use wm_listing::{Columns, RowList};
use wm_syntax::column::Col;
use wm_syntax::query::{Order, OrderBy, Out, Projection, Query};

fn has_name(name: &[u8], alias: &Option<Name>) -> bool
    ensures { result ≡ has_name name.now alias.now }
{
    match alias {
        Some(alias) => name == alias.as_bytes(),
        None => false,
    }
}

/// The place of the first item that AS gives this name.
fn place_of_name(name: &[u8], outs: &[Out]) -> Option<usize>
    ensures { result ≡ position (λ (o : OutNode). has_name name.now o.alias) outs.now }
{
    outs.iter().position(|out| has_name(name, &out.alias))
}

/// The place of the first item that AS gives the name of the column, which names no source and no end of a period.
fn item_named(outs: &[Out], col: &Col) -> Option<usize>
    ensures { result ≡ named_item (Outs (outs_view outs.now)) col.now }
{
    if col.source.is_none() && col.suffix.is_none() {
        place_of_name(col.name.as_bytes(), outs)
    } else {
        None
    }
}

/// The place of the first item with that name, where the query has items.
fn named_item(projection: &Projection, col: &Col) -> Option<usize>
    ensures { result ≡ named_item (projection_view projection.now) col.now }
{
    match projection {
        Projection::All => None,
        Projection::Outs(outs) => item_named(outs.as_slice(), col),
    }
}

/// The place that a position from 1 names.
fn place_of(position: i64) -> Option<usize>
    ensures { result ≡ place_of position }
{
    if position >= 1 {
        Some((position - 1) as usize)
    } else {
        None
    }
}

/// A copy of the value that is shown at the place.
fn shown_value(alloc: Global, shown: &Shown, place: usize) -> Result<Value, Memory>
    ensures { IfOk result (λ value. value ≡ shown_value shown.now place) }
{
    match shown.row.values.as_slice().get(place) {
        Some(value) => value.copy(alloc),
        None => Ok(Value::Null),
    }
}

/// The value of the item of that name, or of the column of the tuple.
fn value_at_name(
    alloc: Global,
    place: Option<usize>,
    col: &Col,
    columns: &Columns,
    shown: &Shown,
) -> Result<Value, Memory>
    ensures { IfOk result (λ value. value ≡ value_at_name place col.now columns.now shown.now) }
{
    match place {
        Some(place) => shown_value(alloc, shown, place),
        None => column_value(
            alloc,
            col,
            columns.as_slice(),
            shown.tuple.values.as_slice(),
        ),
    }
}

/// The value at the item of that place, NULL where there is none.
fn value_at_place(alloc: Global, place: Option<usize>, shown: &Shown) -> Result<Value, Memory>
    ensures { IfOk result (λ value. value ≡ unwrap_or (option_map (shown_value shown.now) place) Value.Null) }
{
    match place {
        Some(place) => shown_value(alloc, shown, place),
        None => Ok(Value::Null),
    }
}

/// What a row is put in order by.
fn order_value(
    alloc: Global,
    projection: &Projection,
    columns: &Columns,
    shown: &Shown,
    by: &OrderBy,
) -> Result<Value, Memory>
    ensures { IfOk result (λ value. value ≡ order_value (projection_view projection.now) columns.now shown.now by.now) }
{
    match by {
        OrderBy::Position(position) => value_at_place(alloc, place_of(*position), shown),
        OrderBy::Col(col) => value_at_name(alloc, named_item(projection, col), col, columns, shown),
    }
}

/// Adds what a row is put in order by.
fn push_order_values(
    alloc: Global,
    projection: &Projection,
    orders: &[Order],
    columns: &Columns,
    shown: &Shown,
    keys: &mut Values,
) -> Result<(), Memory>
    ensures { OnOk result (keys.new ≡ keys.old ++ map (λ (o : OrderOf). order_value (projection_view projection.now) columns.now shown.now o.by) orders.now) }
{
    for order in orders {
        keys.push(order_value(alloc, projection, columns, shown, &order.by)?)?;
    }
    Ok(())
}

/// What a row is put in order by.
fn order_values(
    alloc: Global,
    query: &Query,
    columns: &Columns,
    shown: &Shown,
) -> Result<Values, Memory>
    ensures { IfOk result (λ keys. keys ≡ order_values (query_view query.now) columns.now shown.now) }
{
    let mut keys = Values::new(alloc);
    let orders = query.orders.as_slice();
    push_order_values(alloc, &query.projection, orders, columns, shown, &mut keys)?;
    Ok(keys)
}

/// Adds what each row is put in order by.
fn push_all_values(
    alloc: Global,
    query: &Query,
    columns: &Columns,
    shown: &[Shown],
    keys: &mut Vec<Values>,
) -> Result<(), Memory>
    ensures { OnOk result (keys.new.items ≡ keys.old.items ++ map (order_values (query_view query.now) columns.now) shown.now) }
{
    for one in shown {
        keys.push(order_values(alloc, query, columns, one)?)?;
    }
    Ok(())
}

/// What each row is put in order by.
fn all_values(
    alloc: Global,
    query: &Query,
    columns: &Columns,
    shown: &[Shown],
) -> Result<Vec<Values>, Memory>
    ensures { IfOk result (λ keys. keys.items ≡ map (order_values (query_view query.now) columns.now) shown.now) }
{
    let mut keys = Vec::new(alloc);
    push_all_values(alloc, query, columns, shown, &mut keys)?;
    Ok(keys)
}

/// The rows that are shown, each with what it is put in order by.
#[tactic(auto, using(crate::proofs::KeyLemmas::keyed_shown))]
fn keyed_shown(
    alloc: Global,
    query: &Query,
    columns: &Columns,
    shown: Vec<Shown>,
) -> Result<Vec<Keyed>, Memory>
    ensures { IfOk result (λ all. all.items ≡ map (keyed_by_order (query_view query.now) columns.now) shown.items) }
{
    match all_values(alloc, query, columns, shown.as_slice()) {
        Ok(keys) => {
            let all = all_shown_keyed(alloc, keys, shown)?;
            Ok(all)
        }
        Err(fault) => {
            drop(shown);
            Err(fault)
        }
    }
}

fn directions_of(alloc: Global, orders: &[Order]) -> Result<Vec<bool>, Memory>
    ensures { IfOk result (λ directions. directions.items ≡ directions_of orders.now) }
{
    let mut directions = Vec::with_capacity(alloc, orders.len())?;
    for order in orders {
        directions.push(order.descending)?;
    }
    Ok(directions)
}

/// Puts the rows in the order that ORDER BY asks for.
fn sort_by_orders(alloc: Global, query: &Query, all: &mut Vec<Keyed>) -> Result<(), Memory>
    ensures { OnOk result (all.new.items ≡ sorted (goes_by (directions_of (query_view query.now).orders) (λ (row : KeyedRow). row.keys)) all.old.items) }
{
    let directions = directions_of(alloc, query.orders.as_slice())?;
    sort_directed(directions.as_slice(), all)?;
    Ok(())
}

/// The rows that are shown, put in order.
#[tactic(auto, using(crate::proofs::KeyLemmas::ordered_shown))]
fn sorted_rows(
    alloc: Global,
    query: &Query,
    columns: &Columns,
    shown: Vec<Shown>,
) -> Result<Vec<Row>, Memory>
    ensures { IfOk result (λ rows. rows.items ≡ map (λ (s : ShownRow). s.row) (sorted (goes_before (query_view query.now) columns.now) shown.items)) }
{
    let mut all = keyed_shown(alloc, query, columns, shown)?;
    match sort_by_orders(alloc, query, &mut all) {
        Ok(()) => {
            let rows = keyed_rows(alloc, all)?;
            Ok(rows)
        }
        Err(fault) => {
            drop(all);
            Err(fault)
        }
    }
}

/// The rows that are shown, in the order that ORDER BY asks for. What it does not tell apart stays as it stood.
pub fn in_order(
    alloc: Global,
    query: &Query,
    columns: &Columns,
    shown: Vec<Shown>,
) -> Result<RowList, Memory>
    ensures { IfOk result (λ rows. rows ≡ map (λ (s : ShownRow). s.row) (sorted (goes_before (query_view query.now) columns.now) shown.items)) }
{
    if query.orders.as_slice().is_empty() {
        let rows = shown_rows(alloc, shown)?;
        return Ok(RowList::from_vec(rows));
    }
    let rows = sorted_rows(alloc, query, columns, shown)?;
    Ok(RowList::from_vec(rows))
}
