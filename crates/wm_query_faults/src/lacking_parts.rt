//! The first WM_VALID that a query names of a table without valid time, part by part.
ghost use Rattle.std.specs.Prelude.{◌≡◌, option_copied};
ghost use Rattle.wm_syntax.specs.Views.{item_view, outs_view, projection_view, query_view, srcs_view};
ghost use Rattle.wm_query_faults.specs.Lacking.{lacking_in_item, lacking_in_outs, lacking_in_projection, lacking_in_sources, lacking_in_cols, lacking_by, lacking_in_orders, lacking_behind, lacking_in_query};

use crate::orders::alias_count;
use wm_base::Name;
use wm_listing::Column;
use wm_syntax::column::Col;
use wm_syntax::query::{Item, Order, OrderBy, Out, Projection, Query, Src};
use wm_typing::lacking::{first_source, lacking_col, lacking_in_expr, lacking_in_filter};

fn lacking_in_item<'a>(columns: &[Column], item: &'a Item) -> Option<&'a Option<Name>>
    ensures { option_copied result ≡ lacking_in_item columns.now (item_view item.now) }
{
    match item {
        Item::Expr(expr) => lacking_in_expr(columns, expr),
        Item::CountAll => None,
        Item::Agg { of, .. } => lacking_in_expr(columns, of),
    }
}

fn lacking_in_outs<'a>(columns: &[Column], outs: &'a [Out]) -> Option<&'a Option<Name>>
    ensures { option_copied result ≡ lacking_in_outs columns.now (outs_view outs.now) }
{
    for out in outs {
        if let Some(source) = lacking_in_item(columns, &out.item) {
            return Some(source);
        }
    }
    None
}

fn lacking_in_projection<'a>(
    columns: &[Column],
    projection: &'a Projection,
) -> Option<&'a Option<Name>>
    ensures { option_copied result ≡ lacking_in_projection columns.now (projection_view projection.now) }
{
    match projection {
        Projection::All => None,
        Projection::Outs(outs) => lacking_in_outs(columns, outs.as_slice()),
    }
}

fn lacking_in_sources<'a>(columns: &[Column], sources: &'a [Src]) -> Option<&'a Option<Name>>
    ensures { option_copied result ≡ lacking_in_sources columns.now (srcs_view sources.now) }
{
    for source in sources {
        if let Some(lacking) = lacking_in_filter(columns, &source.on) {
            return Some(lacking);
        }
    }
    None
}

fn lacking_in_cols<'a>(columns: &[Column], cols: &'a [Col]) -> Option<&'a Option<Name>>
    ensures { option_copied result ≡ lacking_in_cols columns.now cols.now }
{
    for col in cols {
        if let Some(source) = lacking_col(columns, col) {
            return Some(source);
        }
    }
    None
}

/// The source of the column. A name that AS gives to an item is no column.
fn lacking_by<'a>(
    columns: &[Column],
    projection: &Projection,
    by: &'a OrderBy,
) -> Option<&'a Option<Name>>
    ensures { option_copied result ≡ lacking_by columns.now (projection_view projection.now) by.now }
{
    match by {
        OrderBy::Position(_) => None,
        OrderBy::Col(col) => {
            if alias_count(projection, col) == 0 {
                lacking_col(columns, col)
            } else {
                None
            }
        }
    }
}

fn lacking_in_orders<'a>(
    columns: &[Column],
    projection: &Projection,
    orders: &'a [Order],
) -> Option<&'a Option<Name>>
    ensures { option_copied result ≡ lacking_in_orders columns.now (projection_view projection.now) orders.now }
{
    for order in orders {
        if let Some(source) = lacking_by(columns, projection, &order.by) {
            return Some(source);
        }
    }
    None
}

/// The first behind the condition: in GROUP BY, and then in ORDER BY.
fn lacking_behind<'a>(columns: &[Column], query: &'a Query) -> Option<&'a Option<Name>>
    ensures { option_copied result ≡ lacking_behind columns.now (query_view query.now) }
{
    first_source(
        lacking_in_cols(columns, query.groups.as_slice()),
        lacking_in_orders(columns, &query.projection, query.orders.as_slice()),
    )
}

/// The first in the order of the tokens.
pub fn lacking_in_query<'a>(columns: &[Column], query: &'a Query) -> Option<&'a Option<Name>>
    ensures { option_copied result ≡ lacking_in_query columns.now (query_view query.now) }
{
    let conditions = first_source(
        lacking_in_filter(columns, &query.filter),
        lacking_behind(columns, query),
    );
    let behind = first_source(
        lacking_in_sources(columns, query.sources.as_slice()),
        conditions,
    );
    first_source(lacking_in_projection(columns, &query.projection), behind)
}
