//! What INSERT is refused for by its names and its types.
ghost use Rattle.std.specs.Prelude.{◌≡◌, ◌==◌, [], true, false, None, IfOk, is_some, option_copied};
ghost use Rattle.std.specs.List.{find, list_all, list_any};
ghost use Rattle.std.specs.Str.{bytes_eq};
ghost use Rattle.wm_syntax.specs.Views.{expr_view, exprs_view};
ghost use Rattle.wm_spec.specs.Expressions.{has_no_empty_period};
ghost use Rattle.wm_spec.specs.Operands.{wm_valid};
ghost use Rattle.wm_making.specs.Inserting.{has_name as named_so, has_column as column_there, bad_name as bad_in, column_in as first_column_in, values_asked as asked_for, may_be_so_many as so_many, column_for as column_at, suits as suits_kind, misfit as misfit_of, is_period as period_kind, misfit_period as misfit_of_period, misfit_in as misfit_at, misfit_from, value_for_period, period_fault as fault_of_period, insert_fault as fault_of_insert};
ghost use Rattle.wm_making.specs.Rows.{period_given};

use crate::misplaced::{HasColumns, misplaced};
use crate::period::value_for_period;
use std::alloc::Global;
use wm_base::{FormRefusal, Memory, Name, Refusal, Text};
use wm_listing::columns::{NUMBER, PERIOD, TEXT, TIME};
use wm_spec::record::{ColumnKind, Table, TableColumn};
use wm_syntax::column::Names;
use wm_syntax::expr::Expr;
use wm_typing::{expr_kind, mistyped_in_expr, unknown_in_expr};

fn has_name(name: &Name, column: &TableColumn) -> bool
    ensures { result ≡ named_so name.now column.now }
{
    name.as_bytes() == column.name.as_bytes()
}

/// Whether one of the columns has this name.
fn is_there(name: &Name, columns: &[TableColumn]) -> bool
    ensures { result ≡ list_any (named_so name.now) columns.now }
{
    columns.iter().any(|column| has_name(name, column))
}

/// Whether it is the name of the column of periods.
fn is_valid(name: &Name) -> bool
    ensures { result ≡ bytes_eq name.now wm_valid }
{
    name.as_bytes() == b"WM_VALID".as_slice()
}

impl HasColumns for Table {
    ghost has = { column_there };

    fn has_column(&self, name: &Name) -> bool {
        is_there(name, self.columns.as_slice()) || is_valid(name)
    }
}

/// The first name of the list that is no column of the table and not WM_VALID, or stands there for the second time.
fn bad_name<'a>(table: &Table, names: &'a Option<Names>) -> Option<&'a Name>
    ensures { option_copied result ≡ bad_in table.now names.now }
{
    match names {
        Some(names) => misplaced(table, names.as_slice()),
        None => None,
    }
}

/// The first column that an expression of VALUES names.
fn column_in(values: &[Expr]) -> Option<&[u8]>
    ensures { option_copied result ≡ first_column_in (exprs_view values.now) }
{
    for value in values {
        if let Some(name) = unknown_in_expr(&[], value) {
            return Some(name);
        }
    }
    None
}

/// How many values are asked.
fn values_asked(table: &Table, names: &Option<Names>) -> usize
    ensures { result ≡ asked_for table.now names.now }
{
    match names {
        Some(names) => names.as_slice().len(),
        None => table.columns.len(),
    }
}

/// Whether so many values may stand there: one more than there are columns is for WM_VALID.
fn may_be_so_many(table: &Table, names: &Option<Names>, count: usize) -> bool
    ensures { result ≡ so_many table.now names.now count }
{
    match names {
        Some(names) => count == names.as_slice().len(),
        None => {
            let columns = table.columns.len();
            count == columns || (table.valid && count > 0 && count - 1 == columns)
        }
    }
}

/// The first column of this name.
fn column_named<'a>(columns: &'a [TableColumn], name: &Name) -> Option<&'a TableColumn>
    ensures { option_copied result ≡ find (named_so name.now) columns.now }
{
    for column in columns {
        if has_name(name, column) {
            return Some(column);
        }
    }
    None
}

/// The declared column to which the value at this place goes; none where it goes to WM_VALID.
pub fn column_for<'a>(
    table: &'a Table,
    names: &Option<Names>,
    place: usize,
) -> Option<&'a TableColumn>
    ensures { option_copied result ≡ column_at table.now names.now place }
{
    match names {
        Some(names) => match names.as_slice().get(place) {
            Some(name) => column_named(table.columns.as_slice(), name),
            None => None,
        },
        None => table.columns.as_slice().get(place),
    }
}

/// Whether a value of this kind may stand in a column; NULL may in all.
fn suits(kind: Option<u8>, column: ColumnKind) -> bool
    ensures { result ≡ suits_kind kind column }
{
    match (kind, column) {
        (Some(0), _)
        | (Some(NUMBER), ColumnKind::Number)
        | (Some(TEXT), ColumnKind::Text)
        | (Some(TIME), ColumnKind::Time) => true,
        _ => false,
    }
}

/// The column, where the value is of another type, or else the first mark in it that has an operand that is no number.
fn misfit<'a>(value: &Expr, column: &'a TableColumn) -> Option<&'a [u8]>
    ensures { option_copied result ≡ misfit_of (expr_view value.now) column.now }
{
    if suits(expr_kind(&[], value), column.kind) {
        mistyped_in_expr(&[], value)
    } else {
        Some(column.name.as_bytes())
    }
}

/// Whether a value of this kind may stand for WM_VALID.
fn is_period(kind: Option<u8>) -> bool
    ensures { result ≡ period_kind kind }
{
    match kind {
        Some(kind) => kind == PERIOD,
        None => false,
    }
}

/// WM_VALID, where the value is no period.
fn misfit_period<'a>(value: &Expr) -> Option<&'a [u8]>
    ensures { option_copied result ≡ misfit_of_period (expr_view value.now) }
{
    if is_period(expr_kind(&[], value)) {
        mistyped_in_expr(&[], value)
    } else {
        Some(b"WM_VALID")
    }
}

/// What the value gets wrong, which goes to a declared column, or to WM_VALID where there is none.
fn misfit_in<'a>(value: &Expr, column: Option<&'a TableColumn>) -> Option<&'a [u8]>
    ensures { option_copied result ≡ misfit_at (expr_view value.now) (option_copied column.entry) }
{
    match column {
        Some(column) => misfit(value, column),
        None => misfit_period(value),
    }
}

/// The first misfit of the values.
fn first_misfit<'a>(table: &'a Table, names: &Option<Names>, values: &[Expr]) -> Option<&'a [u8]>
    ensures { option_copied result ≡ misfit_from table.now names.now 0 (exprs_view values.now) }
{
    for (place, value) in values.iter().enumerate() {
        if let Some(name) = misfit_in(value, column_for(table, names, place)) {
            return Some(name);
        }
    }
    None
}

/// A value for WM_VALID is refused where the table has no valid time.
fn period_fault(
    alloc: Global,
    table: &Table,
    names: &Option<Names>,
    values: &[Expr],
) -> Result<Option<Refusal>, Memory>
    ensures { IfOk result (λ refusal. refusal ≡ fault_of_period table.now names.now (exprs_view values.now)) }
{
    match value_for_period(table, names, values) {
        Some(_) if !table.valid => {
            let name = table.name.copy(alloc)?;
            Ok(Some(Refusal::Form(FormRefusal::Wm017(name))))
        }
        _ => Ok(None),
    }
}

/// A name that is no column or stands twice, a column within VALUES, another number of values than may be, a value that
/// does not fit, and a period for a table without valid time, in this order.
#[tactic(auto, unfolding(crate::specs::Inserting::insert_fault))]
fn fault_of(
    alloc: Global,
    table: &Table,
    names: &Option<Names>,
    values: &[Expr],
) -> Result<Option<Refusal>, Memory>
    ensures { IfOk result (λ refusal. refusal ≡ fault_of_insert table.now names.now (exprs_view values.now)) }
{
    if let Some(name) = bad_name(table, names) {
        return Ok(Some(Refusal::Form(FormRefusal::Wm012(name.copy(alloc)?))));
    }
    if let Some(name) = column_in(values) {
        let name = Text::copy_of(alloc, name)?;
        return Ok(Some(Refusal::Form(FormRefusal::Wm012(name))));
    }
    if !may_be_so_many(table, names, values.len()) {
        let count = values_asked(table, names);
        return Ok(Some(Refusal::Form(FormRefusal::Wm014(count as u64))));
    }
    match first_misfit(table, names, values) {
        Some(name) => {
            let name = Text::copy_of(alloc, name)?;
            Ok(Some(Refusal::Form(FormRefusal::Wm013(name))))
        }
        None => period_fault(alloc, table, names, values),
    }
}

/// What an INSERT into the table is refused for by what it names and by the types of its values.
pub fn insert_fault(
    alloc: Global,
    table: &Table,
    names: &Option<Names>,
    values: &[Expr],
) -> Result<Option<Refusal>, Memory>
    ensures fault { IfOk result (λ refusal. refusal ≡ fault_of_insert table.now names.now (exprs_view values.now)) }

    // Of what is not refused, a period is written where there is a value for WM_VALID, of a table with valid time alone.
    ensures period { IfOk result (λ refusal. refusal ≡ None → is_some (period_given table.now names.now (exprs_view values.now)) ≡ is_some (value_for_period table.now names.now 0 (exprs_view values.now))) }
    ensures plain { IfOk result (λ refusal. refusal ≡ None → table.now.valid ≡ false → period_given table.now names.now (exprs_view values.now) ≡ None) }

    // Each other period that is written in it has its first end below its second.
    ensures periods { IfOk result (λ refusal. refusal ≡ None → period_given table.now names.now (exprs_view values.now) ≡ None → list_all has_no_empty_period (exprs_view values.now) ≡ true) }
{
    let refusal = fault_of(alloc, table, names, values)?;
    Ok(refusal)
}
