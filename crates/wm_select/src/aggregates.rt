//! Aggregates of the values that an expression has on the rows of a group.
ghost use Rattle.std.specs.Prelude.{◌≡◌, ℤ, ◌≤◌, IfOk, length, option_map, unwrap_or, option_copied, pos, SomeIff, FitsSigned};
ghost use Rattle.std.specs.Int.{w64};
ghost use Rattle.std.specs.Result.{IsErrOf};
ghost use Rattle.wm_spec.specs.Conditions.{is_null as null};
ghost use Rattle.wm_spec.specs.Expressions.{number_of as number_of_value, number_value, in_range as range};
ghost use Rattle.wm_select.specs.Aggregates.{present, total, sum_of, least, greatest, aggregated};

use std::alloc::Global;
use wm_base::{Memory, Value};
use wm_expr::ValueFault;
use wm_syntax::query::Agg;

fn is_null(value: &Value) -> bool
    ensures { result ≡ null value.now }
{
    matches!(value, Value::Null)
}

/// How many of the values are not NULL.
fn present_count(values: &[Value]) -> usize
    ensures count { result ≡ length (present values.now) }
    ensures small { result ≤ length values.now }
{
    values.iter().filter(|value| !is_null(value)).count()
}

/// The least of the values that are not NULL.
fn least(values: &[Value]) -> Option<&Value>
    ensures { unwrap_or (option_copied result) Value.Null ≡ least (present values.now) }
{
    let mut least: Option<&Value> = None;
    for value in values {
        if is_null(value) {
            continue;
        }
        least = match least {
            Some(one) if !value.order(one).is_lt() => Some(one),
            _ => Some(value),
        };
    }
    least
}

/// The greatest of the values that are not NULL.
fn greatest(values: &[Value]) -> Option<&Value>
    ensures { unwrap_or (option_copied result) Value.Null ≡ greatest (present values.now) }
{
    let mut greatest: Option<&Value> = None;
    for value in values {
        if is_null(value) {
            continue;
        }
        greatest = match greatest {
            Some(one) if !value.order(one).is_gt() => Some(one),
            _ => Some(value),
        };
    }
    greatest
}

/// A copy of the value, or NULL where there is none.
fn copy_or_null(alloc: Global, value: Option<&Value>) -> Result<Value, Memory>
    ensures { IfOk result (λ copy. copy ≡ unwrap_or (option_copied value.entry) Value.Null) }
{
    match value {
        Some(value) => value.copy(alloc),
        None => Ok(Value::Null),
    }
}

/// The number that the value is, and 0 where it is none.
fn number(value: &Value) -> i64
    ensures { result ≡ unwrap_or (number_of_value value.now) (pos 0) }
{
    match value {
        Value::Num(number) => *number,
        _ => 0,
    }
}

/// The sum of the numbers among the values. So many numbers of 64 bits have a sum of less than 128.
#[tactic(auto, using(crate::proofs::TotalLemmas::total_more))]
fn total(values: &[Value]) -> i128
    ensures { result ≡ total (present values.now) }
{
    let mut total = 0i128;
    for value in values {
        total += number(value) as i128;
    }
    total
}

/// The number, where it is in range.
fn in_range(number: Option<i64>) -> Result<Value, ValueFault>
    ensures ok { (n : ℤ) → SomeIff number (FitsSigned w64 n) n → IfOk result (λ value. option_map number_value (range n) ≡ Some value) }
    ensures out_of_range { (n : ℤ) → SomeIff number (FitsSigned w64 n) n → IsErrOf result ValueFault.OutOfRange → option_map number_value (range n) ≡ None }
{
    match number {
        Some(number) => Ok(Value::Num(number)),
        None => Err(ValueFault::OutOfRange),
    }
}

/// The sum of the values that are not NULL, NULL where there are none.
fn sum(values: &[Value]) -> Result<Value, ValueFault>
    ensures ok { IfOk result (λ value. sum_of (present values.now) ≡ Some value) }
    ensures out_of_range { IsErrOf result ValueFault.OutOfRange → sum_of (present values.now) ≡ None }
{
    if present_count(values) == 0 {
        return Ok(Value::Null);
    }
    in_range(i64::try_from(total(values)).ok())
}

/// How many of the values are not NULL, as a value.
fn count_value(values: &[Value]) -> Value
    ensures { result ≡ Value.Num (pos (length (present values.now))) }
{
    let all = values.len();
    let count = present_count(values);
    prove!(count <= all);
    Value::Num(count as i64)
}

/// What the aggregate makes of the values.
pub fn aggregated(alloc: Global, agg: Agg, values: &[Value]) -> Result<Value, ValueFault>
    ensures ok { IfOk result (λ value. aggregated agg values.now ≡ Some value) }
    ensures out_of_range { IsErrOf result ValueFault.OutOfRange → aggregated agg values.now ≡ None }
{
    match agg {
        Agg::Count => Ok(count_value(values)),
        Agg::Sum => sum(values),
        Agg::Min => copy_or_null(alloc, least(values)).map_err(|_| ValueFault::Memory),
        Agg::Max => copy_or_null(alloc, greatest(values)).map_err(|_| ValueFault::Memory),
    }
}
