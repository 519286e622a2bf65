//! The columns that the items of a query and GROUP BY name.
ghost use Rattle.std.specs.Prelude.{◌≡◌, ◌&&◌, is_none, option_copied};
ghost use Rattle.wm_syntax.specs.Views.{expr_view, item_view, outs_view, projection_view};
ghost use Rattle.wm_spec.specs.Operands.{is_of_source, is_named};
ghost use Rattle.wm_typing.specs.Names.{lacks_period as lacks};
ghost use Rattle.wm_query_faults.specs.Items.{is_same_end, name_one, share_source, lack_one, is_same_col, is_among, col_of_operand, col_of, ungrouped, unknown_in_item, unknown_in_outs, is_grouped_by, ungrouped_column, unknown_in_projection, unknown_in_cols};

use wm_expr::names::is_named;
use wm_listing::Column;
use wm_syntax::column::{Col, Suffix};
use wm_syntax::expr::Expr;
use wm_syntax::operand::Operand;
use wm_syntax::query::{Item, Out, Projection};
use wm_typing::first::{first_of, unless};
use wm_typing::kinds::{is_of_source, lacks_period};
use wm_typing::names::{unknown_col, unknown_in_expr};

fn is_same_end(one: Option<Suffix>, other: Option<Suffix>) -> bool
    ensures { result ≡ is_same_end one other }
{
    matches!(
        (one, other),
        (None, None)
            | (Some(Suffix::ValidFrom), Some(Suffix::ValidFrom))
            | (Some(Suffix::ValidTill), Some(Suffix::ValidTill))
    )
}

/// Whether both name the column.
fn are_named(column: &Column, one: &Col, other: &Col) -> bool
    ensures { result ≡ (is_named one.now.source one.now.name column.now && is_named other.now.source other.now.name column.now) }
{
    is_named(&one.source, one.name.as_bytes(), column)
        && is_named(&other.source, other.name.as_bytes(), column)
}

/// Whether both name one of these columns.
fn name_one(columns: &[Column], one: &Col, other: &Col) -> bool
    ensures { result ≡ name_one columns.now one.now other.now }
{
    columns.iter().any(|column| are_named(column, one, other))
}

/// Whether both may mean the source of the column.
fn are_of_source(column: &Column, one: &Col, other: &Col) -> bool
    ensures { result ≡ (is_of_source one.now.source column.now && is_of_source other.now.source column.now) }
{
    is_of_source(&one.source, column) && is_of_source(&other.source, column)
}

/// Whether both may mean one source.
fn share_source(columns: &[Column], one: &Col, other: &Col) -> bool
    ensures { result ≡ share_source columns.now one.now other.now }
{
    columns
        .iter()
        .any(|column| are_of_source(column, one, other))
}

/// Whether the name is WM_VALID, and it is no column there.
fn lacks_col(columns: &[Column], col: &Col) -> bool
    ensures { result ≡ lacks col.now.source col.now.name columns.now }
{
    lacks_period(&col.source, col.name.as_bytes(), columns)
}

/// Whether both name WM_VALID, may mean one source, and it is no column there.
fn lack_one(columns: &[Column], one: &Col, other: &Col) -> bool
    ensures { result ≡ lack_one columns.now one.now other.now }
{
    lacks_col(columns, one) && lacks_col(columns, other) && share_source(columns, one, other)
}

/// Whether both name one column, or one end of it. WM_VALID goes by its name, whether it is there or not.
pub fn is_same_col(columns: &[Column], one: &Col, other: &Col) -> bool
    ensures { result ≡ is_same_col columns.now one.now other.now }
{
    is_same_end(one.suffix, other.suffix)
        && (name_one(columns, one, other) || lack_one(columns, one, other))
}

/// Whether one of these names means the column.
fn is_among(columns: &[Column], col: &Col, cols: &[Col]) -> bool
    ensures { result ≡ is_among columns.now col.now cols.now }
{
    cols.iter().any(|other| is_same_col(columns, col, other))
}

fn col_of_operand(operand: &Operand) -> Option<&Col>
    ensures { option_copied result ≡ col_of_operand operand.now }
{
    match operand {
        Operand::Col(col) => Some(col),
        Operand::Const(_) | Operand::Test { .. } => None,
    }
}

/// The column that the expression is, where it is nothing more.
pub fn col_of(expr: &Expr) -> Option<&Col>
    ensures { option_copied result ≡ col_of (expr_view expr.now) }
{
    match expr {
        Expr::Operand(operand) => col_of_operand(operand),
        Expr::Neg(_) | Expr::Add(_, _) | Expr::Sub(_, _) | Expr::Mul(_, _) => None,
    }
}

/// What an item of a grouped query names and may not: a column alone is to be there and grouped by, and in any other
/// expression no column is allowed.
fn ungrouped<'a>(columns: &[Column], groups: &[Col], expr: &'a Expr) -> Option<&'a [u8]>
    ensures { option_copied result ≡ ungrouped columns.now groups.now (col_of (expr_view expr.now)) (expr_view expr.now) }
{
    match col_of(expr) {
        Some(col) => first_of(
            unknown_col(columns, col),
            unless(is_among(columns, col, groups), col.name.as_bytes()),
        ),
        None => unknown_in_expr(&[], expr),
    }
}

fn unknown_in_item<'a>(
    columns: &[Column],
    grouped: bool,
    groups: &[Col],
    item: &'a Item,
) -> Option<&'a [u8]>
    ensures { option_copied result ≡ unknown_in_item columns.now grouped groups.now (item_view item.now) }
{
    match item {
        Item::Expr(expr) => {
            if grouped {
                ungrouped(columns, groups, expr)
            } else {
                unknown_in_expr(columns, expr)
            }
        }
        Item::CountAll => None,
        Item::Agg { of, .. } => unknown_in_expr(columns, of),
    }
}

fn unknown_in_outs<'a>(
    columns: &[Column],
    grouped: bool,
    groups: &[Col],
    outs: &'a [Out],
) -> Option<&'a [u8]>
    ensures { option_copied result ≡ unknown_in_outs columns.now grouped groups.now (outs_view outs.now) }
{
    for out in outs {
        if let Some(name) = unknown_in_item(columns, grouped, groups, &out.item) {
            return Some(name);
        }
    }
    None
}

/// Whether the name means the column, and not only an end of it.
fn is_whole(column: &Column, col: &Col) -> bool
    ensures { result ≡ (is_none col.now.suffix && is_named col.now.source col.now.name column.now) }
{
    col.suffix.is_none() && is_named(&col.source, col.name.as_bytes(), column)
}

/// Whether GROUP BY names the column, and not only an end of it.
fn is_grouped_by(groups: &[Col], column: &Column) -> bool
    ensures { result ≡ is_grouped_by groups.now column.now }
{
    groups.iter().any(|col| is_whole(column, col))
}

/// The first of the columns that is not grouped by.
fn ungrouped_column<'a>(groups: &[Col], columns: &'a [Column]) -> Option<&'a [u8]>
    ensures { option_copied result ≡ ungrouped_column groups.now columns.now }
{
    for column in columns {
        if !is_grouped_by(groups, column) {
            return Some(column.name.as_bytes());
        }
    }
    None
}

/// The first column that the items name and that is not there, or may not stand there in a grouped query. `*` stands
/// for all the columns.
pub fn unknown_in_projection<'a>(
    columns: &'a [Column],
    grouped: bool,
    groups: &[Col],
    projection: &'a Projection,
) -> Option<&'a [u8]>
    ensures { option_copied result ≡ unknown_in_projection columns.now grouped groups.now (projection_view projection.now) }
{
    match projection {
        Projection::All => {
            if grouped {
                ungrouped_column(groups, columns)
            } else {
                None
            }
        }
        Projection::Outs(outs) => unknown_in_outs(columns, grouped, groups, outs.as_slice()),
    }
}

pub fn unknown_in_cols<'a>(columns: &[Column], cols: &'a [Col]) -> Option<&'a [u8]>
    ensures { option_copied result ≡ unknown_in_cols columns.now cols.now }
{
    for col in cols {
        if let Some(name) = unknown_col(columns, col) {
            return Some(name);
        }
    }
    None
}
