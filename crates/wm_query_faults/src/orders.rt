//! What ORDER BY names.
ghost use Rattle.std.specs.Prelude.{◌≡◌, IfOk, option_copied};
ghost use Rattle.std.specs.Fmt.{signed_decimal};
ghost use Rattle.std.specs.List.{count_by, list_any};
ghost use Rattle.wm_syntax.specs.Trees.{Out as OutTree};
ghost use Rattle.wm_syntax.specs.Views.{item_view, out_view, outs_view, projection_view};
ghost use Rattle.wm_typing.specs.Names.{unless as unless_of};
ghost use Rattle.wm_query_faults.specs.Items.{item_count, place_of, is_below, has_name, is_alias, alias_count, is_col, is_item_col, is_item, unknown_by_col, unknown_by_name, unknown_by, unknown_in_orders};

use crate::items::{col_of, is_same_col};
use std::alloc::Global;
use wm_base::{Memory, Name};
use wm_listing::Column;
use wm_syntax::column::Col;
use wm_syntax::query::{Item, Order, OrderBy, Out, Projection};
use wm_typing::first::{first_of, unless};
use wm_typing::kinds::lacks_period;
use wm_typing::names::unknown_col;

/// How many items there are.
fn item_count(columns: &[Column], projection: &Projection) -> usize
    ensures { result ≡ item_count columns.now (projection_view projection.now) }
{
    match projection {
        Projection::All => columns.len(),
        Projection::Outs(outs) => outs.len(),
    }
}

/// The place that a position from 1 names.
fn place_of(position: i64) -> Option<usize>
    ensures { result ≡ place_of position }
{
    if position >= 1 {
        Some((position - 1) as usize)
    } else {
        None
    }
}

fn is_below(place: Option<usize>, count: usize) -> bool
    ensures { result ≡ is_below place count }
{
    match place {
        Some(place) => place < count,
        None => false,
    }
}

fn has_name(name: &[u8], alias: &Option<Name>) -> bool
    ensures { result ≡ has_name name.now alias.now }
{
    match alias {
        Some(alias) => name == alias.as_bytes(),
        None => false,
    }
}

/// Whether the name is the one that AS gives to the item.
fn is_alias(col: &Col, out: &Out) -> bool
    ensures { result ≡ is_alias col.now (out_view out.now) }
{
    col.source.is_none() && col.suffix.is_none() && has_name(col.name.as_bytes(), &out.alias)
}

/// To how many of the items AS gives the name.
#[tactic(auto, using(crate::proofs::Counted::count_viewed))]
fn count_named(outs: &[Out], col: &Col) -> usize
    ensures { result ≡ count_by (is_alias col.now) (outs_view outs.now) }
{
    outs.iter().filter(|out| is_alias(col, out)).count()
}

pub fn alias_count(projection: &Projection, col: &Col) -> usize
    ensures { result ≡ alias_count (projection_view projection.now) col.now }
{
    match projection {
        Projection::All => 0,
        Projection::Outs(outs) => count_named(outs.as_slice(), col),
    }
}

fn is_col(columns: &[Column], col: &Col, other: Option<&Col>) -> bool
    ensures { result ≡ is_col columns.now col.now (option_copied other.entry) }
{
    match other {
        Some(other) => is_same_col(columns, col, other),
        None => false,
    }
}

/// Whether the item is the column and nothing more.
fn is_item_col(columns: &[Column], col: &Col, item: &Item) -> bool
    ensures { result ≡ is_item_col columns.now col.now (item_view item.now) }
{
    match item {
        Item::Expr(expr) => is_col(columns, col, col_of(expr)),
        Item::CountAll | Item::Agg { .. } => false,
    }
}

fn is_out_col(columns: &[Column], col: &Col, outs: &[Out]) -> bool
    ensures { result ≡ list_any (λ (o : OutTree). is_item_col columns.now col.now o.item) (outs_view outs.now) }
{
    for out in outs {
        if is_item_col(columns, col, &out.item) {
            return true;
        }
    }
    false
}

/// Whether the column is an item. `*` gives each column that is there, and not its ends.
fn is_item(columns: &[Column], projection: &Projection, col: &Col) -> bool
    ensures { result ≡ is_item columns.now (projection_view projection.now) col.now }
{
    match projection {
        Projection::All => {
            col.suffix.is_none() && !lacks_period(&col.source, col.name.as_bytes(), columns)
        }
        Projection::Outs(outs) => is_out_col(columns, col, outs.as_slice()),
    }
}

/// The name, where it is no column of the sources, or no item where only items may be named.
fn unknown_by_col<'a>(
    columns: &[Column],
    shown: bool,
    projection: &Projection,
    col: &'a Col,
) -> Option<&'a [u8]>
    ensures { option_copied result ≡ unknown_by_col columns.now shown (projection_view projection.now) col.now }
{
    let serves = !shown || is_item(columns, projection, col);
    first_of(
        unknown_col(columns, col),
        unless(serves, col.name.as_bytes()),
    )
}

/// The name, where AS gives it to several items, or to none and it is no column that may be named.
fn unknown_by_name<'a>(
    columns: &[Column],
    shown: bool,
    projection: &Projection,
    col: &'a Col,
) -> Option<&'a [u8]>
    ensures { option_copied result ≡ unknown_by_name columns.now shown (projection_view projection.now) col.now }
{
    let count = alias_count(projection, col);
    if count == 0 {
        unknown_by_col(columns, shown, projection, col)
    } else {
        unless(count == 1, col.name.as_bytes())
    }
}

/// A copy of the text, where there is one.
pub fn copy_of(alloc: Global, text: Option<&[u8]>) -> Result<Option<Name>, Memory>
    ensures { IfOk result (λ copy. copy ≡ option_copied text.entry) }
{
    match text {
        Some(text) => Ok(Some(Name::copy_of(alloc, text)?)),
        None => Ok(None),
    }
}

/// The position in decimal, where it is that of no item.
fn unknown_position(alloc: Global, position: i64, count: usize) -> Result<Option<Name>, Memory>
    ensures { IfOk result (λ name. name ≡ unless_of (is_below (place_of position) count) (signed_decimal position)) }
{
    if is_below(place_of(position), count) {
        return Ok(None);
    }
    let digits = position.to_string(alloc)?;
    Ok(Some(Name::copy_of(alloc, digits.as_bytes())?))
}

fn unknown_by(
    alloc: Global,
    columns: &[Column],
    shown: bool,
    projection: &Projection,
    by: &OrderBy,
) -> Result<Option<Name>, Memory>
    ensures { IfOk result (λ name. name ≡ unknown_by columns.now shown (projection_view projection.now) by.now) }
{
    match by {
        OrderBy::Position(position) => {
            unknown_position(alloc, *position, item_count(columns, projection))
        }
        OrderBy::Col(col) => copy_of(alloc, unknown_by_name(columns, shown, projection, col)),
    }
}

/// The first that ORDER BY names and that is neither the position of an item, nor the name that AS gives to one, nor a
/// column: one of the items, where only these are shown.
pub fn unknown_in_orders(
    alloc: Global,
    columns: &[Column],
    shown: bool,
    projection: &Projection,
    orders: &[Order],
) -> Result<Option<Name>, Memory>
    ensures { IfOk result (λ name. name ≡ unknown_in_orders columns.now shown (projection_view projection.now) orders.now) }
{
    for order in orders {
        let unknown = unknown_by(alloc, columns, shown, projection, &order.by)?;
        if let Some(name) = unknown {
            return Ok(Some(name));
        }
    }
    Ok(None)
}
