//! How lists of values are put in order.
ghost use Rattle.std.specs.Prelude.{◌≡◌, OnOk};
ghost use Rattle.wm_ordering.specs.declared.keyed.Keyed.{Keyed as KeyedRow};
ghost use Rattle.wm_ordering.specs.Sorting.{null_place, ascending, directed, first_value, other_values, by_directions, left_to_right, sorted, goes_by};

use crate::keyed::Keyed;
use std::cmp::Ordering;
use wm_base::{Memory, Value};

fn null_place(value: &Value) -> u8
    ensures { result ≡ null_place value.now }
{
    match value {
        Value::Null => 1,
        _ => 0,
    }
}

/// How two values compare in ascending order, of which not both are numbers: NULL stands behind all else.
fn ascending_of_any(one: &Value, other: &Value) -> Ordering
    ensures { result ≡ ascending one.now other.now }
{
    null_place(one)
        .cmp(&null_place(other))
        .then(one.order(other))
}

/// How two values compare in ascending order: NULL stands behind all else.
pub fn ascending(one: &Value, other: &Value) -> Ordering
    ensures { result ≡ ascending one.now other.now }
{
    match (one, other) {
        // Numbers, which most columns hold, are compared at once: neither is NULL.
        (Value::Num(m), Value::Num(n)) => m.cmp(n),
        _ => ascending_of_any(one, other),
    }
}

fn directed(descending: bool, one: &Value, other: &Value) -> Ordering
    ensures { result ≡ directed descending one.now other.now }
{
    if descending {
        ascending(other, one)
    } else {
        ascending(one, other)
    }
}

/// How the first values of two lists compare in a direction. A value that is not there is NULL.
fn first_directed(descending: bool, one: &[Value], other: &[Value]) -> Ordering
    ensures { result ≡ directed descending (first_value one.now) (first_value other.now) }
{
    let null = Value::Null;
    let one = match one {
        [value, ..] => value,
        [] => &null,
    };
    let other = match other {
        [value, ..] => value,
        [] => &null,
    };
    directed(descending, one, other)
}

fn other_values(values: &[Value]) -> &[Value]
    ensures { result.now ≡ other_values values.now }
{
    match values {
        [_, others @ ..] => others,
        [] => values,
    }
}

/// How two lists compare, value by value, each in its direction.
pub fn by_directions(directions: &[bool], one: &[Value], other: &[Value]) -> Ordering
    ensures { result ≡ by_directions directions.now one.now other.now }
{
    match directions {
        [descending, directions @ ..] => first_directed(*descending, one, other).then(by_directions(
            directions,
            other_values(one),
            other_values(other),
        )),
        [] => Ordering::Equal,
    }
}

/// How two lists compare from left to right, each value ascending.
pub fn left_to_right(one: &[Value], other: &[Value]) -> Ordering
    ensures { result ≡ left_to_right one.now other.now }
{
    match one {
        [value, values @ ..] => match other {
            [against, others @ ..] => match ascending(value, against) {
                Ordering::Equal => left_to_right(values, others),
                order => order,
            },
            [] => Ordering::Greater,
        },
        [] => {
            if other.is_empty() {
                Ordering::Equal
            } else {
                Ordering::Less
            }
        }
    }
}

/// Puts the rows in order by their keys, each value in its direction. What the keys do not tell apart stays as it stood.
pub fn sort_directed(directions: &[bool], rows: &mut Vec<Keyed>) -> Result<(), Memory>
    ensures { OnOk result (rows.new.items ≡ sorted (goes_by directions.now (λ (row : KeyedRow). row.keys)) rows.old.items) }
{
    rows.sort_by(|one, other| {
        by_directions(directions, one.keys.as_slice(), other.keys.as_slice())
    })?;
    Ok(())
}
