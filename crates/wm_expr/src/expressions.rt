//! The value of an expression for a row.
ghost use Rattle.std.specs.Prelude.{◌≡◌, ℤ, ◌+ℤ◌, ◌-ℤ◌, ◌*ℤ◌, true, IfOk, option_map, SomeIff, FitsSigned};
ghost use Rattle.std.specs.Int.{w64};
ghost use Rattle.std.specs.Result.{IsErrOf};
ghost use Rattle.wm_syntax.specs.Views.{expr_view};
ghost use Rattle.wm_spec.specs.Expressions.{number_of as number_of_value, in_range as range, negative as negated, together, number_in, number_value, value_of, has_no_empty_period};
ghost use Rattle.wm_expr.specs.Seen.{seen_value};

use crate::fault::ValueFault;
use crate::operands::operand_seen;
use crate::owned::operand_value;
use crate::seen::Seen;
use std::alloc::Global;
use wm_base::{Row, Value};
use wm_listing::{Column, Columns};
use wm_syntax::expr::Expr;

/// The number that a value is.
fn number_of(value: Seen) -> Option<i64>
    ensures { result ≡ number_of_value (seen_value value.entry) }
{
    match value {
        Seen::Number(number) => Some(number),
        _ => None,
    }
}

/// The number, where it is in range.
fn in_range(number: Option<i64>) -> Option<Option<i64>>
    ensures { (n : ℤ) → SomeIff number (FitsSigned w64 n) n → result ≡ range n }
{
    match number {
        Some(number) => Some(Some(number)),
        None => None,
    }
}

fn negative(number: Option<Option<i64>>) -> Option<Option<i64>>
    ensures { result ≡ negated number }
{
    match number {
        Some(Some(number)) => in_range(number.checked_neg()),
        Some(None) => Some(None),
        None => None,
    }
}

fn sum(one: Option<Option<i64>>, other: Option<Option<i64>>) -> Option<Option<i64>>
    ensures { result ≡ together (λ m n. m +ℤ n) one other }
{
    match (one, other) {
        (Some(Some(m)), Some(Some(n))) => in_range(m.checked_add(n)),
        (Some(_), Some(_)) => Some(None),
        _ => None,
    }
}

fn difference(one: Option<Option<i64>>, other: Option<Option<i64>>) -> Option<Option<i64>>
    ensures { result ≡ together (λ m n. m -ℤ n) one other }
{
    match (one, other) {
        (Some(Some(m)), Some(Some(n))) => in_range(m.checked_sub(n)),
        (Some(_), Some(_)) => Some(None),
        _ => None,
    }
}

fn product(one: Option<Option<i64>>, other: Option<Option<i64>>) -> Option<Option<i64>>
    ensures { result ≡ together (λ m n. m *ℤ n) one other }
{
    match (one, other) {
        (Some(Some(m)), Some(Some(n))) => in_range(m.checked_mul(n)),
        (Some(_), Some(_)) => Some(None),
        _ => None,
    }
}

/// The number that an expression has, with None within for NULL, and None where a number on the way is no `i64`.
fn number(expr: &Expr, columns: &[Column], row: &[Value]) -> Option<Option<i64>>
    ensures { result ≡ number_in (expr_view expr.now) columns.now row.now }
{
    match expr {
        Expr::Operand(operand) => Some(number_of(operand_seen(operand, columns, row))),
        Expr::Neg(inner) => negative(number(inner, columns, row)),
        Expr::Add(left, right) => sum(number(left, columns, row), number(right, columns, row)),
        Expr::Sub(left, right) => difference(
            number(left, columns, row),
            number(right, columns, row),
        ),
        Expr::Mul(left, right) => product(number(left, columns, row), number(right, columns, row)),
    }
}

/// The value of an expression for a row of these columns. Arithmetic with NULL is NULL, and so is a column that is not
/// there. It is out of range exactly where a sum, difference, product or negative number on the way is no `i64`.
#[tactic(auto, unfolding(wm_spec::specs::Expressions::value_of))]
pub fn value(alloc: Global, expr: &Expr, columns: &Columns, row: &Row) -> Result<Value, ValueFault>
    requires { has_no_empty_period (expr_view expr.now) ≡ true }
    ensures ok { IfOk result (λ value. value_of (expr_view expr.now) columns.now row.now ≡ Some value) }
    ensures out_of_range { IsErrOf result ValueFault.OutOfRange → value_of (expr_view expr.now) columns.now row.now ≡ None }
{
    match expr {
        Expr::Operand(operand) => {
            operand_value(alloc, operand, columns.as_slice(), row.values.as_slice()).map_err(
                |_| ValueFault::Memory,
            )
        }
        Expr::Neg(_) | Expr::Add(_, _) | Expr::Sub(_, _) | Expr::Mul(_, _) => {
            value_of_number(number(expr, columns.as_slice(), row.values.as_slice()))
        }
    }
}

/// The number as a value, or the fault that there is none.
fn value_of_number(number: Option<Option<i64>>) -> Result<Value, ValueFault>
    ensures ok { IfOk result (λ value. option_map number_value number ≡ Some value) }
    ensures out_of_range { IsErrOf result ValueFault.OutOfRange → number ≡ None }
{
    match number {
        Some(Some(number)) => Ok(Value::Num(number)),
        Some(None) => Ok(Value::Null),
        None => Err(ValueFault::OutOfRange),
    }
}
