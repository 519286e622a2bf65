//! A shown row: behind its declared values a table with valid time has the period over which it holds.
ghost use Rattle.std.specs.Prelude.{◌≡◌, true, take, slice_get, unwrap_or};
ghost use Rattle.std.specs.Option.{option_and_then};
ghost use Rattle.wm_base.specs.Period.{always, overlaps, shared as shared_of};
ghost use Rattle.wm_spec.specs.Operands.{period_of};
ghost use Rattle.wm_dml.specs.Changing.{declared_values as declared_of, row_period as period_of_row};

use wm_base::{Period, Row, Value};
use wm_spec::record::Table;

/// So many of the values, or all where there are not so many.
fn front(row: &[Value], count: usize) -> &[Value]
    ensures { result.now ≡ take count row.now }
{
    if count < row.len() {
        &row[..count]
    } else {
        row
    }
}

/// The declared values of a shown row.
pub fn declared_values<'a>(table: &Table, row: &'a [Value]) -> &'a [Value]
    ensures { result.now ≡ declared_of table.now row.now }
{
    if table.valid {
        front(row, table.columns.len())
    } else {
        row
    }
}

/// The period that stands at a place, and always where there is none.
fn period_at(row: &[Value], place: usize) -> Period
    ensures { result ≡ unwrap_or (option_and_then period_of (slice_get row.now place)) always }
{
    match row.get(place) {
        Some(Value::Span(period)) => *period,
        _ => Period::always(),
    }
}

/// The period over which a shown row holds.
pub fn row_period(table: &Table, row: &Row) -> Period
    ensures { result ≡ period_of_row table.now row.now }
{
    if table.valid {
        period_at(row.values.as_slice(), table.columns.len())
    } else {
        Period::always()
    }
}

/// What two periods share that overlap.
pub fn shared(period: &Period, other: &Period) -> Period
    requires { overlaps period.now other.now ≡ true }
    ensures { result ≡ shared_of period.now other.now }
{
    match period.cut(other) {
        Some(both) => both,
        None => unreachable!(),
    }
}
