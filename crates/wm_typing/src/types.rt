//! The kinds of expressions, and the first that is wrong.
ghost use Rattle.std.specs.Prelude.{◌≡◌, ◌&&◌, codes, option_copied};
ghost use Rattle.std.specs.List.{list_all};
ghost use Rattle.wm_syntax.specs.Views.{cond_view, expr_view, filter_view};
ghost use Rattle.wm_spec.specs.Conditions.{may_compare};
ghost use Rattle.wm_spec.specs.Operands.{constant_kind};
ghost use Rattle.wm_typing.specs.Names.{named_kind, unless};
ghost use Rattle.wm_typing.specs.Types.{expr_kind, is_number, is_numeric, mistyped_in_expr, mark_text, mistyped_in_cond, mistyped_in_filter};

use crate::first::{first_of, unless};
use crate::kinds::named_kind;
use wm_expr::types::{may_compare, may_compare_all};
use wm_listing::Column;
use wm_listing::columns::NUMBER;
use wm_syntax::cond::{Cmp, Cond};
use wm_syntax::constant::Consts;
use wm_syntax::expr::Expr;
use wm_syntax::operand::Operand;

/// The kind of an expression: an operand's own, and that of numbers for arithmetic. It is 0 for NULL, that of periods for
/// WM_VALID by its name, and None where an operand names what is not there.
pub fn expr_kind(columns: &[Column], expr: &Expr) -> Option<u8>
    ensures { result ≡ expr_kind columns.now (expr_view expr.now) }
{
    match expr {
        Expr::Operand(operand) => named_kind(operand, columns),
        Expr::Neg(_) | Expr::Add(_, _) | Expr::Sub(_, _) | Expr::Mul(_, _) => Some(NUMBER),
    }
}

/// Whether the kind is that of numbers, or of NULL.
pub fn is_number(kind: Option<u8>) -> bool
    ensures { result ≡ is_number kind }
{
    match kind {
        Some(kind) => kind == 0 || kind == NUMBER,
        None => false,
    }
}

/// Whether the expression is a number, or NULL.
pub fn is_numeric(columns: &[Column], expr: &Expr) -> bool
    ensures { result ≡ is_numeric columns.now (expr_view expr.now) }
{
    is_number(expr_kind(columns, expr))
}

/// The mark between two expressions, where one of them is no number.
fn mark_between(
    columns: &[Column],
    left: &Expr,
    right: &Expr,
    mark: &'static [u8],
) -> Option<&'static [u8]>
    ensures { option_copied result ≡ unless (is_numeric columns.now (expr_view left.now) && is_numeric columns.now (expr_view right.now)) mark.now }
{
    unless(
        is_numeric(columns, left) && is_numeric(columns, right),
        mark,
    )
}

/// The first mark of arithmetic of which an operand is no number. A chain of operators nests to the left, and is gone
/// down in a loop.
#[tactic(auto, using(wm_base::proofs::Plain::option_or_assoc, crate::proofs::Firsts::or_none))]
pub fn mistyped_in_expr(columns: &[Column], expr: &Expr) -> Option<&'static [u8]>
    ensures { option_copied result ≡ mistyped_in_expr columns.now (expr_view expr.now) }
{
    let mut rest = expr;
    let mut found = None;
    loop {
        match rest {
            Expr::Operand(_) => return found,
            Expr::Neg(inner) => {
                if !is_numeric(columns, inner) {
                    return Some(b"-");
                }
                rest = inner;
            }
            Expr::Add(left, right) => {
                let behind = first_of(mistyped_in_expr(columns, right), found);
                found = first_of(mark_between(columns, left, right, b"+"), behind);
                rest = left;
            }
            Expr::Sub(left, right) => {
                let behind = first_of(mistyped_in_expr(columns, right), found);
                found = first_of(mark_between(columns, left, right, b"-"), behind);
                rest = left;
            }
            Expr::Mul(left, right) => {
                let behind = first_of(mistyped_in_expr(columns, right), found);
                found = first_of(mark_between(columns, left, right, b"*"), behind);
                rest = left;
            }
        }
    }
}

/// A mark that compares, as it is written.
fn mark_text(cmp: Cmp) -> &'static [u8]
    ensures { result.now ≡ mark_text cmp }
{
    match cmp {
        Cmp::Eq => b"=",
        Cmp::NotEq => b"<>",
        Cmp::BangEq => b"!=",
        Cmp::Lt => b"<",
        Cmp::Le => b"<=",
        Cmp::Gt => b">",
        Cmp::Ge => b">=",
    }
}

/// IN, where a constant of its list may not be compared with the operand.
fn unless_listed(columns: &[Column], what: &Operand, list: &Consts) -> Option<&'static [u8]>
    ensures { option_copied result ≡ unless (list_all (λ constant. may_compare (named_kind what.now columns.now) (Some (constant_kind constant))) list.now) (codes "IN") }
{
    let kind = named_kind(what, columns);
    unless(may_compare_all(kind, list.as_slice()), b"IN")
}

/// The first comparison whose operands differ in type, or one of which is a period. A chain of OR and AND nests to the
/// left, and is gone down in a loop.
#[tactic(auto, using(wm_base::proofs::Plain::option_or_assoc, crate::proofs::Firsts::or_none))]
pub fn mistyped_in_cond(columns: &[Column], cond: &Cond) -> Option<&'static [u8]>
    ensures { option_copied result ≡ mistyped_in_cond columns.now (cond_view cond.now) }
{
    let mut rest = cond;
    let mut found = None;
    loop {
        match rest {
            Cond::Or(left, right) | Cond::And(left, right) => {
                found = first_of(mistyped_in_cond(columns, right), found);
                rest = left;
            }
            Cond::Not(inner) => rest = inner,
            Cond::Compare { left, cmp, right } => {
                let compares = may_compare(named_kind(left, columns), named_kind(right, columns));
                return first_of(unless(compares, mark_text(*cmp)), found);
            }
            Cond::IsNull { .. } => return found,
            Cond::OneOf { what, list, .. } => {
                return first_of(unless_listed(columns, what, list), found);
            }
            Cond::Between {
                what,
                low,
                high,
                ..
            } => {
                let kind = named_kind(what, columns);
                let compares = may_compare(kind, named_kind(low, columns))
                    && may_compare(kind, named_kind(high, columns));
                return first_of(unless(compares, b"BETWEEN"), found);
            }
        }
    }
}

/// What is of a wrong type first in a condition that may be left out.
pub fn mistyped_in_filter(columns: &[Column], filter: &Option<Cond>) -> Option<&'static [u8]>
    ensures { option_copied result ≡ mistyped_in_filter columns.now (filter_view filter.now) }
{
    match filter {
        Some(cond) => mistyped_in_cond(columns, cond),
        None => None,
    }
}
