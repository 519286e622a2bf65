//! The value of an operand, looked at where it lies.
ghost use Rattle.std.specs.Prelude.{◌≡◌, option_map};
ghost use Rattle.wm_spec.specs.Operands.{value_at as named_value, suffixed, constant_value, period_of, period_at, holds as operator_holds, tested, operand_value};
ghost use Rattle.wm_expr.specs.Seen.{seen_value, ends_span};

use crate::names::found_at;
use crate::periods::seconds_of;
use crate::seen::Seen;
use wm_base::{Name, Value};
use wm_listing::Column;
use wm_syntax::column::Suffix;
use wm_syntax::constant::Const;
use wm_syntax::operand::{Operand, Operator, Per};

/// The value where it lies.
fn seen(value: &Value) -> Seen<'_>
    ensures { seen_value result ≡ value.now }
{
    match value {
        Value::Null => Seen::Nothing,
        Value::Num(number) => Seen::Number(*number),
        Value::Text(text) => Seen::Bytes(text.as_bytes()),
        Value::Time(instant) => Seen::Moment(instant.seconds()),
        Value::Span(period) => Seen::Ends(period.from().seconds(), period.till().seconds()),
    }
}

/// The value of the row at the column that is named, NULL where there is none.
fn value_at<'a>(
    source: &Option<Name>,
    name: &[u8],
    columns: &[Column],
    row: &'a [Value],
) -> Seen<'a>
    ensures { seen_value result ≡ named_value source.now name.now columns.now row.now }
{
    match found_at(source, name, columns, row) {
        Some(value) => seen(value),
        None => Seen::Nothing,
    }
}

/// The end of a period that the suffix names, or the value itself where there is no suffix.
fn at_end(suffix: Option<Suffix>, value: Seen<'_>) -> Seen<'_>
    ensures { seen_value result ≡ suffixed suffix (seen_value value.entry) }
{
    match (suffix, value) {
        (None, value) => value,
        (Some(Suffix::ValidFrom), Seen::Ends(from, _)) => Seen::Moment(from),
        (Some(Suffix::ValidTill), Seen::Ends(_, till)) => Seen::Moment(till),
        _ => Seen::Nothing,
    }
}

/// The value of a constant.
pub fn constant_seen(constant: &Const) -> Seen<'_>
    ensures { seen_value result ≡ constant_value constant.now }
{
    match constant {
        Const::Null | Const::Sysdate => Seen::Nothing,
        Const::Num(number) => Seen::Number(*number),
        Const::Text(text) => Seen::Bytes(text.as_bytes()),
        Const::Time(instant) => Seen::Moment(instant.seconds()),
        Const::Span { from, till } => Seen::Ends(seconds_of(from), seconds_of(till)),
    }
}

/// The two ends of a period.
#[derive(Clone, Copy)]
struct Ends {
    from: u64,
    till: u64,
}

/// The ends of the period that the value is.
fn ends_of(value: Seen) -> Option<Ends>
    ensures { option_map ends_span result ≡ period_of (seen_value value.entry) }
{
    match value {
        Seen::Ends(from, till) => Some(Ends { from, till }),
        _ => None,
    }
}

/// The ends of a period that is written or stands in WM_VALID.
fn ends_at(period: &Per, columns: &[Column], row: &[Value]) -> Option<Ends>
    ensures { option_map ends_span result ≡ period_at period.now columns.now row.now }
{
    match period {
        Per::Valid { source } => ends_of(value_at(source, b"WM_VALID", columns, row)),
        Per::Span { from, till } => Some(Ends {
            from: seconds_of(from),
            till: seconds_of(till),
        }),
    }
}

fn holds(operator: Operator, p: Ends, q: Ends) -> bool
    ensures { result ≡ operator_holds operator (ends_span p) (ends_span q) }
{
    match operator {
        Operator::Overlaps => p.from < q.till && q.from < p.till,
        Operator::Contains => p.from <= q.from && q.till <= p.till,
        Operator::Meets => p.till == q.from,
        Operator::Equals => p.from == q.from && p.till == q.till,
        Operator::LessThan => p.till < q.from,
        Operator::GreaterThan => q.till < p.from,
    }
}

/// 1 where the operator holds of the two, 0 where it does not, NULL where one of them is.
fn test_of<'a>(operator: Operator, p: Option<Ends>, q: Option<Ends>) -> Seen<'a>
    ensures { seen_value result ≡ tested operator (option_map ends_span p) (option_map ends_span q) }
{
    match (p, q) {
        (Some(p), Some(q)) => {
            if holds(operator, p, q) {
                Seen::Number(1)
            } else {
                Seen::Number(0)
            }
        }
        _ => Seen::Nothing,
    }
}

/// The value of an operand for a row of these columns.
pub fn operand_seen<'a>(operand: &'a Operand, columns: &[Column], row: &'a [Value]) -> Seen<'a>
    ensures { seen_value result ≡ operand_value operand.now columns.now row.now }
{
    match operand {
        Operand::Col(col) => at_end(
            col.suffix,
            value_at(&col.source, col.name.as_bytes(), columns, row),
        ),
        Operand::Const(constant) => constant_seen(constant),
        Operand::Test {
            operator,
            left,
            right,
        } => test_of(
            *operator,
            ends_at(left, columns, row),
            ends_at(right, columns, row),
        ),
    }
}
