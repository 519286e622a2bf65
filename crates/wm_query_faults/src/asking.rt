//! What a query gets wrong.
ghost use Rattle.std.specs.Prelude.{◌≡◌, true, None, IfOk, option_copied};
ghost use Rattle.wm_syntax.specs.Trees.{is_grouped};
ghost use Rattle.wm_syntax.specs.Views.{filter_view, item_view, outs_view, projection_view, query_view, srcs_view};
ghost use Rattle.wm_query_faults.specs.Asking.{unknown_in_sources, unknown_before, unknown_in_query, is_no_period, takes, agg_text, mistyped_in_item, mistyped_in_outs, mistyped_in_projection, mistyped_in_sources, mistyped_in_query, are_sources_typed, query_fault_in, query_fault};
ghost use Rattle.wm_typing.specs.Types.{is_filter_typed};

use crate::items::{unknown_in_cols, unknown_in_projection};
use crate::meant::table_lacking;
use crate::orders::{copy_of, unknown_in_orders};
use std::alloc::Global;
use wm_base::{Memory, Name, Refusal};
use wm_listing::columns::PERIOD;
use wm_listing::{Column, Columns};
use wm_syntax::query::{Agg, Item, Out, Projection, Query, Src};
use wm_typing::first::{first_of, unless};
use wm_typing::names::unknown_in_filter;
use wm_typing::refusals::first_refusal;
use wm_typing::types::{expr_kind, is_number, mistyped_in_expr, mistyped_in_filter};

fn unknown_in_sources<'a>(columns: &[Column], sources: &'a [Src]) -> Option<&'a [u8]>
    ensures { option_copied result ≡ unknown_in_sources columns.now (srcs_view sources.now) }
{
    for source in sources {
        if let Some(name) = unknown_in_filter(columns, &source.on) {
            return Some(name);
        }
    }
    None
}

/// The first name before ORDER BY that is not there, or may not stand where it stands.
fn unknown_before<'a>(columns: &'a [Column], grouped: bool, query: &'a Query) -> Option<&'a [u8]>
    requires { grouped ≡ is_grouped (query_view query.now) }
    ensures { option_copied result ≡ unknown_before columns.now (query_view query.now) }
{
    let groups = query.groups.as_slice();
    let conditions = first_of(
        unknown_in_filter(columns, &query.filter),
        unknown_in_cols(columns, groups),
    );
    let behind = first_of(
        unknown_in_sources(columns, query.sources.as_slice()),
        conditions,
    );
    first_of(
        unknown_in_projection(columns, grouped, groups, &query.projection),
        behind,
    )
}

fn unknown_in_query(
    alloc: Global,
    columns: &[Column],
    query: &Query,
) -> Result<Option<Name>, Memory>
    ensures { IfOk result (λ name. name ≡ unknown_in_query columns.now (query_view query.now)) }
{
    let grouped = query.is_grouped();
    if let Some(name) = unknown_before(columns, grouped, query) {
        return copy_of(alloc, Some(name));
    }
    unknown_in_orders(
        alloc,
        columns,
        grouped || query.distinct,
        &query.projection,
        query.orders.as_slice(),
    )
}

fn is_no_period(kind: Option<u8>) -> bool
    ensures { result ≡ is_no_period kind }
{
    match kind {
        Some(kind) => kind != PERIOD,
        None => true,
    }
}

/// Whether the aggregate takes values of that kind.
fn takes(agg: Agg, kind: Option<u8>) -> bool
    ensures { result ≡ takes agg kind }
{
    match agg {
        Agg::Count => true,
        Agg::Sum => is_number(kind),
        Agg::Min | Agg::Max => is_no_period(kind),
    }
}

fn agg_text(agg: Agg) -> &'static [u8]
    ensures { result.now ≡ agg_text agg }
{
    match agg {
        Agg::Count => b"COUNT",
        Agg::Sum => b"SUM",
        Agg::Min => b"MIN",
        Agg::Max => b"MAX",
    }
}

fn mistyped_in_item(columns: &[Column], item: &Item) -> Option<&'static [u8]>
    ensures { option_copied result ≡ mistyped_in_item columns.now (item_view item.now) }
{
    match item {
        Item::Expr(expr) => mistyped_in_expr(columns, expr),
        Item::CountAll => None,
        Item::Agg { agg, of } => first_of(
            unless(takes(*agg, expr_kind(columns, of)), agg_text(*agg)),
            mistyped_in_expr(columns, of),
        ),
    }
}

fn mistyped_in_outs(columns: &[Column], outs: &[Out]) -> Option<&'static [u8]>
    ensures { option_copied result ≡ mistyped_in_outs columns.now (outs_view outs.now) }
{
    for out in outs {
        if let Some(mark) = mistyped_in_item(columns, &out.item) {
            return Some(mark);
        }
    }
    None
}

fn mistyped_in_projection(columns: &[Column], projection: &Projection) -> Option<&'static [u8]>
    ensures { option_copied result ≡ mistyped_in_projection columns.now (projection_view projection.now) }
{
    match projection {
        Projection::All => None,
        Projection::Outs(outs) => mistyped_in_outs(columns, outs.as_slice()),
    }
}

fn mistyped_in_sources(columns: &[Column], sources: &[Src]) -> Option<&'static [u8]>
    ensures { option_copied result ≡ mistyped_in_sources columns.now (srcs_view sources.now) }
{
    for source in sources {
        if let Some(mark) = mistyped_in_filter(columns, &source.on) {
            return Some(mark);
        }
    }
    None
}

fn mistyped_in_query(columns: &[Column], query: &Query) -> Option<&'static [u8]>
    ensures { option_copied result ≡ mistyped_in_query columns.now (query_view query.now) }
{
    let conditions = first_of(
        mistyped_in_sources(columns, query.sources.as_slice()),
        mistyped_in_filter(columns, &query.filter),
    );
    first_of(
        mistyped_in_projection(columns, &query.projection),
        conditions,
    )
}

/// The bytes of the name, where there is one.
fn bytes_of(name: &Option<Name>) -> Option<&[u8]>
    ensures { option_copied result ≡ name.now }
{
    match name {
        Some(name) => Some(name.as_bytes()),
        None => None,
    }
}

fn query_fault_in(
    alloc: Global,
    columns: &[Column],
    query: &Query,
) -> Result<Option<Refusal>, Memory>
    ensures { IfOk result (λ refusal. refusal ≡ query_fault_in columns.now (query_view query.now)) }
{
    let unknown = unknown_in_query(alloc, columns, query)?;
    first_refusal(
        alloc,
        bytes_of(&unknown),
        mistyped_in_query(columns, query),
        None,
        table_lacking(columns, query),
    )
}

/// Why a query over these columns, those of all its sources in order, is refused for its names and types: a name that
/// is not there, or may not stand where it stands, then a type that is wrong, then WM_VALID of a table that has no valid
/// time, of each the first in the line.
#[tactic(auto, unfolding(crate::specs::Asking::query_fault))]
pub fn query_fault(
    alloc: Global,
    columns: &Columns,
    query: &Query,
) -> Result<Option<Refusal>, Memory>
    ensures exact { IfOk result (λ refusal. refusal ≡ query_fault columns.now (query_view query.now)) }
    ensures typed { IfOk result (λ refusal. refusal ≡ None → is_filter_typed columns.now (filter_view query.now.filter) ≡ true) }
    ensures sources_typed { IfOk result (λ refusal. refusal ≡ None → are_sources_typed columns.now (srcs_view query.now.sources.items) ≡ true) }
{
    let refusal = query_fault_in(alloc, columns.as_slice(), query)?;
    Ok(refusal)
}
