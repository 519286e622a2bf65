//! The first name that means no column.
ghost use Rattle.std.specs.Prelude.{◌≡◌, option_copied};
ghost use Rattle.std.specs.Option.{option_or};
ghost use Rattle.wm_syntax.specs.Views.{cond_view, expr_view, filter_view};
ghost use Rattle.wm_typing.specs.Names.{unknown_col, unknown_period, unknown_in_operand, unknown_in_expr, unknown_in_cond, unknown_in_filter};

use crate::first::{first_of, unless};
use crate::kinds::{kind_named, named_period};
use wm_expr::types::kind_at_end;
use wm_listing::Column;
use wm_syntax::column::Col;
use wm_syntax::cond::Cond;
use wm_syntax::expr::Expr;
use wm_syntax::operand::{Operand, Per};

/// The name of the column, where it is not exactly one of these, or where an end is asked of a column that has none. That
/// a table has no WM_VALID is told by another refusal.
pub fn unknown_col<'a>(columns: &[Column], col: &'a Col) -> Option<&'a [u8]>
    ensures { option_copied result ≡ unknown_col columns.now col.now }
{
    let kind = kind_named(&col.source, col.name.as_bytes(), columns);
    unless(kind_at_end(col.suffix, kind).is_some(), col.name.as_bytes())
}

/// WM_VALID, where the period names it and it is several columns, or that of no source.
fn unknown_period<'a>(columns: &[Column], period: &'a Per) -> Option<&'a [u8]>
    ensures { option_copied result ≡ unknown_period columns.now period.now }
{
    unless(named_period(period, columns), b"WM_VALID")
}

fn unknown_in_operand<'a>(columns: &[Column], operand: &'a Operand) -> Option<&'a [u8]>
    ensures { option_copied result ≡ unknown_in_operand columns.now operand.now }
{
    match operand {
        Operand::Col(col) => unknown_col(columns, col),
        Operand::Const(_) => None,
        Operand::Test { left, right, .. } => {
            first_of(
                unknown_period(columns, left),
                unknown_period(columns, right),
            )
        }
    }
}

/// The first column that the expression names and that is not exactly one of these. A chain of operators nests to the
/// left, and is gone down in a loop.
#[tactic(auto, using(wm_base::proofs::Plain::option_or_assoc, crate::proofs::Firsts::or_none))]
pub fn unknown_in_expr<'a>(columns: &[Column], expr: &'a Expr) -> Option<&'a [u8]>
    ensures { option_copied result ≡ unknown_in_expr columns.now (expr_view expr.now) }
{
    let mut rest = expr;
    let mut found = None;
    loop {
        match rest {
            Expr::Add(left, right) | Expr::Sub(left, right) | Expr::Mul(left, right) => {
                found = first_of(unknown_in_expr(columns, right), found);
                rest = left;
            }
            Expr::Neg(inner) => rest = inner,
            Expr::Operand(operand) => {
                return first_of(unknown_in_operand(columns, operand), found);
            }
        }
    }
}

/// The first column that the condition names and that is not exactly one of these. A chain of OR and AND nests to the
/// left, and is gone down in a loop.
#[tactic(auto, using(wm_base::proofs::Plain::option_or_assoc, crate::proofs::Firsts::or_none))]
pub fn unknown_in_cond<'a>(columns: &[Column], cond: &'a Cond) -> Option<&'a [u8]>
    ensures { option_copied result ≡ unknown_in_cond columns.now (cond_view cond.now) }
{
    let mut rest = cond;
    let mut found = None;
    loop {
        match rest {
            Cond::Or(left, right) | Cond::And(left, right) => {
                found = first_of(unknown_in_cond(columns, right), found);
                rest = left;
            }
            Cond::Not(inner) => rest = inner,
            Cond::Compare { left, right, .. } => {
                return first_of(unknown_in_both(columns, left, right), found);
            }
            Cond::IsNull { what, .. } | Cond::OneOf { what, .. } => {
                return first_of(unknown_in_operand(columns, what), found);
            }
            Cond::Between {
                what,
                low,
                high,
                ..
            } => {
                let bounds = unknown_in_both(columns, low, high);
                return first_of(first_of(unknown_in_operand(columns, what), bounds), found);
            }
        }
    }
}

/// The first name of no column in two operands, in the order in which they stand.
fn unknown_in_both<'a>(columns: &[Column], one: &'a Operand, other: &'a Operand) -> Option<&'a [u8]>
    ensures { option_copied result ≡ option_or (unknown_in_operand columns.now one.now) (unknown_in_operand columns.now other.now) }
{
    first_of(
        unknown_in_operand(columns, one),
        unknown_in_operand(columns, other),
    )
}

/// The first name of no column in a condition that may be left out.
pub fn unknown_in_filter<'a>(columns: &[Column], filter: &'a Option<Cond>) -> Option<&'a [u8]>
    ensures { option_copied result ≡ unknown_in_filter columns.now (filter_view filter.now) }
{
    match filter {
        Some(cond) => unknown_in_cond(columns, cond),
        None => None,
    }
}
