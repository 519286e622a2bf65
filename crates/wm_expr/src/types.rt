//! The kinds of operands, and whether a condition is typed.
ghost use Rattle.std.specs.Prelude.{◌≡◌, ◌&&◌, is_some};
ghost use Rattle.std.specs.List.{list_all};
ghost use Rattle.wm_syntax.specs.Views.{cond_view};
ghost use Rattle.wm_spec.specs.Conditions.{typed as typed_for, typed_in, may_compare as comparable, is_one_type as one_type};
ghost use Rattle.wm_spec.specs.Operands.{suffixed_kind, constant_kind as kind_of_constant, is_period as period_for, operand_kind as kind_of_operand};

use crate::names::kind_of;
use wm_listing::columns::{NUMBER, PERIOD, TEXT, TIME};
use wm_listing::{Column, Columns};
use wm_syntax::column::Suffix;
use wm_syntax::cond::Cond;
use wm_syntax::constant::Const;
use wm_syntax::operand::{Operand, Per};

/// The kind of a constant that is NULL, which is of every type.
const ANY: u8 = 0;

/// The kind of a column with that suffix: an end of a period is a time, and nothing else has ends.
pub fn kind_at_end(suffix: Option<Suffix>, kind: Option<u8>) -> Option<u8>
    ensures { result ≡ suffixed_kind suffix kind }
{
    match (suffix, kind) {
        (None, kind) => kind,
        (Some(_), Some(PERIOD)) => Some(TIME),
        _ => None,
    }
}

/// The kind of a constant.
pub fn constant_kind(constant: &Const) -> u8
    ensures { result ≡ kind_of_constant constant.now }
{
    match constant {
        Const::Null => ANY,
        Const::Num(_) => NUMBER,
        Const::Text(_) => TEXT,
        Const::Time(_) | Const::Sysdate => TIME,
        Const::Span { .. } => PERIOD,
    }
}

/// Whether it is a period that is written, or WM_VALID is a column of periods there.
pub fn is_period(period: &Per, columns: &[Column]) -> bool
    ensures { result ≡ period_for period.now columns.now }
{
    match period {
        Per::Valid { source } => match kind_of(source, b"WM_VALID", columns) {
            Some(kind) => kind == PERIOD,
            None => false,
        },
        Per::Span { .. } => true,
    }
}

/// The kind of an operand, or None where it names what is none of the columns.
pub fn operand_kind(operand: &Operand, columns: &[Column]) -> Option<u8>
    ensures { result ≡ kind_of_operand operand.now columns.now }
{
    match operand {
        Operand::Col(col) => kind_at_end(
            col.suffix,
            kind_of(&col.source, col.name.as_bytes(), columns),
        ),
        Operand::Const(constant) => Some(constant_kind(constant)),
        Operand::Test { left, right, .. } => {
            if is_period(left, columns) && is_period(right, columns) {
                Some(NUMBER)
            } else {
                None
            }
        }
    }
}

/// Whether two kinds are one, which is not that of periods.
fn is_one_type(kind: u8, other: u8) -> bool
    ensures { result ≡ one_type kind other }
{
    kind != PERIOD && other != PERIOD && (kind == ANY || other == ANY || kind == other)
}

/// Whether operands of these kinds may be compared.
pub fn may_compare(kind: Option<u8>, other: Option<u8>) -> bool
    ensures { result ≡ comparable kind other }
{
    match (kind, other) {
        (Some(kind), Some(other)) => is_one_type(kind, other),
        _ => false,
    }
}

/// Whether the kind may be compared with that of each constant.
pub fn may_compare_all(kind: Option<u8>, list: &[Const]) -> bool
    ensures { result ≡ list_all (λ constant. comparable kind (Some (kind_of_constant constant))) list.now }
{
    list.iter().all(|constant| may_compare(kind, Some(constant_kind(constant))))
}

/// Whether an operand of that kind is there, and may be compared with each constant.
fn is_list_typed(kind: Option<u8>, list: &[Const]) -> bool
    ensures { result ≡ (is_some kind && list_all (λ constant. comparable kind (Some (kind_of_constant constant))) list.now) }
{
    kind.is_some() && may_compare_all(kind, list)
}

/// Whether the condition is typed for the columns: each column that it names is one of them, the one of that name where
/// no source is named, and the operands of each comparison have one type, which is not that of periods. NULL is of
/// every type.
#[tactic(auto, unfolding(wm_spec::specs::Conditions::typed))]
pub fn typed(cond: &Cond, columns: &Columns) -> bool
    ensures { result ≡ typed_for (cond_view cond.now) columns.now }
{
    is_typed(cond, columns.as_slice())
}

/// Goes down a chain of OR and AND, which nests to the left, in a loop.
fn is_typed(cond: &Cond, columns: &[Column]) -> bool
    ensures { result ≡ typed_in (cond_view cond.now) columns.now }
{
    let mut rest = cond;
    loop {
        match rest {
            Cond::Or(left, right) | Cond::And(left, right) => {
                if !is_typed(right, columns) {
                    return false;
                }
                rest = left;
            }
            Cond::Not(inner) => return is_typed(inner, columns),
            Cond::Compare { left, right, .. } => {
                return may_compare(operand_kind(left, columns), operand_kind(right, columns));
            }
            Cond::IsNull { what, .. } => return operand_kind(what, columns).is_some(),
            Cond::OneOf { what, list, .. } => return is_list_typed(
                operand_kind(what, columns),
                list.as_slice(),
            ),
            Cond::Between {
                what,
                low,
                high,
                ..
            } => {
                let kind = operand_kind(what, columns);
                return may_compare(kind, operand_kind(low, columns))
                    && may_compare(kind, operand_kind(high, columns));
            }
        }
    }
}
