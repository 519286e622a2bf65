//! The value of an operand, copied.
ghost use Rattle.std.specs.Prelude.{◌≡◌, true, IfOk, option_copied, unwrap_or, nat_lt};
ghost use Rattle.wm_spec.specs.Operands.{value_at as named_value, suffixed, end_seconds, constant_value as value_of_constant, span_between, operand_value as value_of_operand};
ghost use Rattle.wm_spec.specs.Expressions.{lasts};

use crate::names::found_at;
use crate::operands::operand_seen;
use crate::seen::Seen;
use std::alloc::Global;
use wm_base::{Instant, Memory, Period, Value};
use wm_listing::Column;
use wm_syntax::column::{Col, Suffix};
use wm_syntax::constant::{Const, PeriodEnd};
use wm_syntax::operand::Operand;

/// A copy of the value, or of the end of a period that the suffix names. What is not there is NULL.
pub fn copy_at_end(
    alloc: Global,
    suffix: Option<Suffix>,
    value: Option<&Value>,
) -> Result<Value, Memory>
    ensures { IfOk result (λ copy. copy ≡ suffixed suffix (unwrap_or (option_copied value.entry) Value.Null)) }
{
    match (suffix, value) {
        (None, Some(value)) => value.copy(alloc),
        (Some(Suffix::ValidFrom), Some(Value::Span(period))) => Ok(Value::Time(period.from())),
        (Some(Suffix::ValidTill), Some(Value::Span(period))) => Ok(Value::Time(period.till())),
        _ => Ok(Value::Null),
    }
}

/// A copy of the value of the row at the column.
pub fn column_value(
    alloc: Global,
    col: &Col,
    columns: &[Column],
    row: &[Value],
) -> Result<Value, Memory>
    ensures { IfOk result (λ copy. copy ≡ suffixed col.now.suffix (named_value col.now.source col.now.name columns.now row.now)) }
{
    copy_at_end(
        alloc,
        col.suffix,
        found_at(&col.source, col.name.as_bytes(), columns, row),
    )
}

fn end_of(end: &PeriodEnd) -> Instant
    ensures { result ≡ end_seconds end.now }
{
    match end {
        PeriodEnd::Time(instant) => *instant,
        PeriodEnd::Sysdate => Instant::beginning(),
    }
}

/// The period from one end to the other, which is later.
fn period_between(from: &PeriodEnd, till: &PeriodEnd) -> Value
    requires { nat_lt (end_seconds from.now) (end_seconds till.now) ≡ true }
    ensures { result ≡ Value.Span (span_between from.now till.now) }
{
    match Period::new(end_of(from), end_of(till)) {
        Some(period) => Value::Span(period),
        None => unreachable!(),
    }
}

fn constant_value(alloc: Global, constant: &Const) -> Result<Value, Memory>
    requires { lasts (Operand.Const constant.now) ≡ true }
    ensures { IfOk result (λ value. value ≡ value_of_constant constant.now) }
{
    match constant {
        Const::Null | Const::Sysdate => Ok(Value::Null),
        Const::Num(number) => Ok(Value::Num(*number)),
        Const::Text(text) => Ok(Value::Text(text.copy(alloc)?)),
        Const::Time(instant) => Ok(Value::Time(*instant)),
        Const::Span { from, till } => Ok(period_between(from, till)),
    }
}

/// The value of an operand for a row of these columns.
pub fn operand_value(
    alloc: Global,
    operand: &Operand,
    columns: &[Column],
    row: &[Value],
) -> Result<Value, Memory>
    requires { lasts operand.now ≡ true }
    ensures { IfOk result (λ value. value ≡ value_of_operand operand.now columns.now row.now) }
{
    match operand {
        Operand::Col(col) => column_value(alloc, col, columns, row),
        Operand::Const(constant) => constant_value(alloc, constant),
        Operand::Test { .. } => match operand_seen(operand, columns, row) {
            Seen::Number(number) => Ok(Value::Num(number)),
            _ => Ok(Value::Null),
        },
    }
}
