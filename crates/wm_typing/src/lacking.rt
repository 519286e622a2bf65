//! The first WM_VALID of a table that has no valid time: the source that stands before it, where one does.
ghost use Rattle.std.specs.Prelude.{◌≡◌, is_some, option_copied};
ghost use Rattle.std.specs.Option.{option_or};
ghost use Rattle.wm_syntax.specs.Views.{cond_view, expr_view, filter_view};
ghost use Rattle.wm_typing.specs.Lacking.{lacking_name, lacking_col, lacking_period, lacking_in_operand, lacking_in_expr, lacking_in_cond, lacking_in_filter};

use crate::kinds::lacks_period;
use wm_base::Name;
use wm_listing::Column;
use wm_syntax::column::Col;
use wm_syntax::cond::Cond;
use wm_syntax::expr::Expr;
use wm_syntax::operand::{Operand, Per};

/// The first of them that is there.
pub fn first_source<'a>(
    one: Option<&'a Option<Name>>,
    other: Option<&'a Option<Name>>,
) -> Option<&'a Option<Name>>
    ensures { option_copied result ≡ option_or (option_copied one.entry) (option_copied other.entry) }
{
    match one {
        Some(source) => Some(source),
        None => other,
    }
}

/// Whether one was found.
pub fn is_found(source: Option<&Option<Name>>) -> bool
    ensures { result ≡ is_some (option_copied source.entry) }
{
    match source {
        Some(_) => true,
        None => false,
    }
}

/// The source of the name, where it is WM_VALID and no column is.
fn lacking_name<'a>(
    columns: &[Column],
    source: &'a Option<Name>,
    name: &[u8],
) -> Option<&'a Option<Name>>
    ensures { option_copied result ≡ lacking_name columns.now source.now name.now }
{
    if lacks_period(source, name, columns) {
        Some(source)
    } else {
        None
    }
}

/// The source of the column, where it is WM_VALID and no column is.
pub fn lacking_col<'a>(columns: &[Column], col: &'a Col) -> Option<&'a Option<Name>>
    ensures { option_copied result ≡ lacking_col columns.now col.now }
{
    lacking_name(columns, &col.source, col.name.as_bytes())
}

fn lacking_period<'a>(columns: &[Column], period: &'a Per) -> Option<&'a Option<Name>>
    ensures { option_copied result ≡ lacking_period columns.now period.now }
{
    match period {
        Per::Valid { source } => lacking_name(columns, source, b"WM_VALID"),
        Per::Span { .. } => None,
    }
}

fn lacking_in_operand<'a>(columns: &[Column], operand: &'a Operand) -> Option<&'a Option<Name>>
    ensures { option_copied result ≡ lacking_in_operand columns.now operand.now }
{
    match operand {
        Operand::Col(col) => lacking_col(columns, col),
        Operand::Const(_) => None,
        Operand::Test { left, right, .. } => {
            first_source(
                lacking_period(columns, left),
                lacking_period(columns, right),
            )
        }
    }
}

/// The first that the expression names. A chain of operators nests to the left, and is gone down in a loop.
#[tactic(auto, using(wm_base::proofs::Plain::option_or_assoc, crate::proofs::Firsts::or_none))]
pub fn lacking_in_expr<'a>(columns: &[Column], expr: &'a Expr) -> Option<&'a Option<Name>>
    ensures { option_copied result ≡ lacking_in_expr columns.now (expr_view expr.now) }
{
    let mut rest = expr;
    let mut found = None;
    loop {
        match rest {
            Expr::Add(left, right) | Expr::Sub(left, right) | Expr::Mul(left, right) => {
                found = first_source(lacking_in_expr(columns, right), found);
                rest = left;
            }
            Expr::Neg(inner) => rest = inner,
            Expr::Operand(operand) => {
                return first_source(lacking_in_operand(columns, operand), found);
            }
        }
    }
}

/// The first that the condition names. A chain of OR and AND nests to the left, and is gone down in a loop.
#[tactic(auto, using(wm_base::proofs::Plain::option_or_assoc, crate::proofs::Firsts::or_none))]
pub fn lacking_in_cond<'a>(columns: &[Column], cond: &'a Cond) -> Option<&'a Option<Name>>
    ensures { option_copied result ≡ lacking_in_cond columns.now (cond_view cond.now) }
{
    let mut rest = cond;
    let mut found = None;
    loop {
        match rest {
            Cond::Or(left, right) | Cond::And(left, right) => {
                found = first_source(lacking_in_cond(columns, right), found);
                rest = left;
            }
            Cond::Not(inner) => rest = inner,
            Cond::Compare { left, right, .. } => {
                return first_source(lacking_in_both(columns, left, right), found);
            }
            Cond::IsNull { what, .. } | Cond::OneOf { what, .. } => {
                return first_source(lacking_in_operand(columns, what), found);
            }
            Cond::Between {
                what,
                low,
                high,
                ..
            } => {
                let bounds = lacking_in_both(columns, low, high);
                return first_source(
                    first_source(lacking_in_operand(columns, what), bounds),
                    found,
                );
            }
        }
    }
}

/// The first WM_VALID without valid time in two operands, in the order in which they stand.
fn lacking_in_both<'a>(
    columns: &[Column],
    one: &'a Operand,
    other: &'a Operand,
) -> Option<&'a Option<Name>>
    ensures { option_copied result ≡ option_or (lacking_in_operand columns.now one.now) (lacking_in_operand columns.now other.now) }
{
    first_source(
        lacking_in_operand(columns, one),
        lacking_in_operand(columns, other),
    )
}

/// The first WM_VALID without valid time in a condition that may be left out.
pub fn lacking_in_filter<'a>(
    columns: &[Column],
    filter: &'a Option<Cond>,
) -> Option<&'a Option<Name>>
    ensures { option_copied result ≡ lacking_in_filter columns.now (filter_view filter.now) }
{
    match filter {
        Some(cond) => lacking_in_cond(columns, cond),
        None => None,
    }
}
