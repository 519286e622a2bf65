//! The key that a condition asks for, so that the rows of one key are read and not those of all.
ghost use Rattle.std.specs.Prelude.{◌≡◌, ◌+◌, ◌≤◌, [], ◌∷◌, length, option_copied, true, IfOk, IfSome};
ghost use Rattle.std.specs.Option.{option_or};
ghost use Rattle.wm_syntax.specs.Views.{cond_view, filter_view, query_view, srcs_view};
ghost use Rattle.wm_dml.specs.Changing.{own_columns};
ghost use Rattle.wm_chosen.specs.Keyed.{FixesKey, across, asked, is_place, stands_at};
ghost use Rattle.wm_chosen.specs.Keyed.{FixesKeyAt, asked_by, asked_if, asked_on};
ghost use Rattle.wm_graph.specs.Rules.{is_table};
ghost use Rattle.wm_joining.specs.Kept.{is_kept};
ghost use Rattle.wm_spec.specs.Operands.{constant_value};

use std::alloc::Global;
use wm_base::{Key, Memory, Value};
use wm_expr::names::place_of;
use wm_listing::{Column, Columns};
use wm_spec::record::Table;
use wm_syntax::column::{Col, Suffix};
use wm_syntax::cond::{Cmp, Cond};
use wm_syntax::constant::Const;
use wm_syntax::operand::Operand;
use wm_syntax::query::{Query, Src};

/// Whether the place that was found, of a column without a suffix, is this one.
fn is_place(place: usize, suffix: Option<Suffix>, found: Option<usize>) -> bool
    ensures { result ≡ is_place place suffix found }
{
    match (suffix, found) {
        (None, Some(found)) => found == place,
        _ => false,
    }
}

/// Whether the name stands for the column at the place.
fn stands_at(columns: &[Column], place: usize, col: &Col) -> bool
    ensures { result ≡ stands_at columns.now place col.now }
{
    let found = place_of(&col.source, col.name.as_bytes(), columns);
    is_place(place, col.suffix, found)
}

/// The constant on one side of an equation, where the column at the place is the other side.
fn across<'a>(
    columns: &[Column],
    place: usize,
    side: &Operand,
    other: &'a Operand,
) -> Option<&'a Const>
    ensures { option_copied result ≡ across columns.now place side.now other.now }
{
    match (side, other) {
        (Operand::Col(col), Operand::Const(constant)) => {
            if stands_at(columns, place, col) {
                Some(constant)
            } else {
                None
            }
        }
        _ => None,
    }
}

/// The constant that an equation asks of the column at the place, which may be either side of it.
fn equated<'a>(
    columns: &[Column],
    place: usize,
    left: &'a Operand,
    right: &'a Operand,
) -> Option<&'a Const>
    ensures { option_copied result ≡ option_or (across columns.now place left.now right.now) (across columns.now place right.now left.now) }
{
    match across(columns, place, left, right) {
        Some(constant) => Some(constant),
        None => across(columns, place, right, left),
    }
}

/// The constant that the condition asks of the column at the place. Only conditions that AND joins are looked at: under
/// OR and NOT a row with another value may be kept.
fn asked<'a>(columns: &[Column], place: usize, cond: &'a Cond) -> Option<&'a Const>
    ensures { option_copied result ≡ asked columns.now place (cond_view cond.now) }
{
    match cond {
        Cond::And(left, right) => match asked(columns, place, left) {
            Some(constant) => Some(constant),
            None => asked(columns, place, right),
        },
        Cond::Compare {
            left,
            cmp: Cmp::Eq,
            right,
        } => equated(columns, place, left, right),
        _ => None,
    }
}

/// The key of one constant, if it is of a type that a key may have.
fn key_of_constant(alloc: Global, constant: &Const) -> Result<Option<Key>, Memory>
    ensures { IfOk result (λ made. IfSome made (λ key. key ≡ constant_value constant.now ∷ [])) }
{
    let value = match constant {
        Const::Num(number) => Value::Num(*number),
        Const::Text(text) => Value::Text(text.copy(alloc)?),
        Const::Time(instant) => Value::Time(*instant),
        _ => return Ok(None),
    };
    Ok(Some(Key::single(value)))
}

/// The key that the condition asks for, where it asks for one.
pub fn key_asked(
    alloc: Global,
    columns: &Columns,
    table: &Table,
    filter: &Option<Cond>,
) -> Result<Option<Key>, Memory>
    requires { columns.now ≡ own_columns table.now }
    ensures { IfOk result (λ found. IfSome found (FixesKey table.now (filter_view filter.now))) }
{
    let [key] = table.key_columns.as_slice() else {
        return Ok(None);
    };
    let Some(cond) = filter else {
        return Ok(None);
    };
    let place = usize::from(*key);
    match asked(columns.as_slice(), place, cond) {
        Some(constant) => key_of_constant(alloc, constant),
        None => Ok(None),
    }
}

/// The constant that the condition asks of the column at the place, where there is one.
fn asked_if<'a>(columns: &[Column], place: usize, filter: &'a Option<Cond>) -> Option<&'a Const>
    ensures { option_copied result ≡ asked_if columns.now place (filter_view filter.now) }
{
    match filter {
        Some(cond) => asked(columns, place, cond),
        None => None,
    }
}

/// The constant that a condition behind a JOIN asks of the column at the place.
fn asked_on<'a>(columns: &[Column], place: usize, sources: &'a [Src]) -> Option<&'a Const>
    ensures { option_copied result ≡ asked_on columns.now place (srcs_view sources.now) }
{
    for source in sources {
        if let Some(constant) = asked_if(columns, place, &source.on) {
            return Some(constant);
        }
    }
    None
}

/// The constant that a query asks of the column at the place, of those of all its sources.
fn asked_by<'a>(columns: &[Column], place: usize, query: &'a Query) -> Option<&'a Const>
    ensures { option_copied result ≡ asked_by columns.now place (query_view query.now) }
{
    match asked_if(columns, place, &query.filter) {
        Some(constant) => Some(constant),
        None => asked_on(columns, place, query.sources.as_slice()),
    }
}

/// The key that each tuple that a query keeps has at a table of its, where it asks for one. The table's columns stand
/// behind so many others.
pub fn key_asked_at(
    alloc: Global,
    columns: &[Column],
    before: usize,
    table: &Table,
    query: &Query,
) -> Result<Option<Key>, Memory>
    requires well { is_table table.now ≡ true }
    requires room { before + length table.now.columns ≤ length columns.now }
    ensures { IfOk result (λ found. IfSome found (FixesKeyAt table.now (is_kept (query_view query.now) columns.now) before)) }
{
    let [key] = table.key_columns.as_slice() else {
        return Ok(None);
    };
    let place = before + usize::from(*key);
    match asked_by(columns, place, query) {
        Some(constant) => key_of_constant(alloc, constant),
        None => Ok(None),
    }
}
