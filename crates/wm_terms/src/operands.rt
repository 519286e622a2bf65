ghost use Rattle.wm_grammar.specs.OperandReaders.{plain_name_at, name_at, instant_at, until_changed_at, period_end_at, period_at, plain_constant_at, constant_at, suffix_at, column_of_at, column_after_at, other_column_at, column_at, per_at, operator_test_at, operand_after_at, operand_at, plain_operand_at};
ghost use Rattle.wm_terms.specs.Telling.{Told};

use crate::cursor::Cursor;
use crate::error::ParseError;
use crate::meaning::{instant_for, operator_of};
use std::alloc::Global;
use wm_base::{Instant, Name};
use wm_grammar::Sort;
use wm_instants::DateForm;
use wm_syntax::column::{Col, Suffix};
use wm_syntax::constant::{Const, PeriodEnd};
use wm_syntax::operand::{Operand, Operator, Per};

/// The name of a declared column.
#[tactic(auto, unfolding(wm_grammar::specs::OperandReaders::plain_name_at))]
pub fn plain_name(cursor: &mut Cursor, alloc: Global) -> Result<Name, ParseError>
    ensures { Told (λ n. n) result cursor.new (plain_name_at cursor.old) }
{
    if cursor.is(Sort::Id) {
        return cursor.name(alloc, Sort::Id);
    }
    if cursor.is(Sort::Validfrom) {
        return cursor.name(alloc, Sort::Validfrom);
    }
    cursor.name(alloc, Sort::Validtill)
}

/// The name of a column, WM_VALID too.
#[tactic(auto, unfolding(wm_grammar::specs::OperandReaders::name_at))]
pub fn name(cursor: &mut Cursor, alloc: Global) -> Result<Name, ParseError>
    ensures { Told (λ n. n) result cursor.new (name_at cursor.old) }
{
    if cursor.is(Sort::WmValid) {
        return cursor.name(alloc, Sort::WmValid);
    }
    plain_name(cursor, alloc)
}

/// A date or time that is written.
#[tactic(auto, unfolding(wm_grammar::specs::OperandReaders::instant_at))]
pub fn instant(cursor: &mut Cursor) -> Result<Instant, ParseError>
    ensures { Told (λ n. n) result cursor.new (instant_at cursor.old) }
{
    if cursor.is(Sort::Date) {
        cursor.mark(Sort::Date)?;
        let text = cursor.quoted()?;
        return Ok(instant_for(DateForm::Date, text));
    }
    if cursor.is(Sort::Timestamp) {
        cursor.mark(Sort::Timestamp)?;
        let text = cursor.quoted()?;
        return Ok(instant_for(DateForm::Timestamp, text));
    }
    cursor.mark(Sort::ToDate)?;
    cursor.mark(Sort::Open)?;
    let text = cursor.quoted()?;
    cursor.mark(Sort::Comma)?;
    let form = cursor.mask()?;
    cursor.mark(Sort::Close)?;
    Ok(instant_for(form, text))
}

#[tactic(auto, unfolding(wm_grammar::specs::OperandReaders::until_changed_at))]
pub fn until_changed(cursor: &mut Cursor) -> Result<(), ParseError>
    ensures { Told (λ _. tt) result cursor.new (until_changed_at cursor.old) }
{
    cursor.mark(Sort::DbmsWm)?;
    cursor.mark(Sort::Dot)?;
    cursor.mark(Sort::UntilChanged)
}

#[tactic(auto, unfolding(wm_grammar::specs::OperandReaders::period_end_at))]
fn period_end(cursor: &mut Cursor) -> Result<PeriodEnd, ParseError>
    ensures { Told (λ e. e) result cursor.new (period_end_at cursor.old) }
{
    if cursor.is(Sort::Sysdate) {
        cursor.mark(Sort::Sysdate)?;
        return Ok(PeriodEnd::Sysdate);
    }
    if cursor.is(Sort::DbmsWm) {
        until_changed(cursor)?;
        return Ok(PeriodEnd::Time(Instant::end()));
    }
    let time = instant(cursor)?;
    Ok(PeriodEnd::Time(time))
}

/// The ends of a period that is written.
#[tactic(auto, unfolding(wm_grammar::specs::OperandReaders::period_at))]
pub fn period(cursor: &mut Cursor) -> Result<(PeriodEnd, PeriodEnd), ParseError>
    ensures { Told (λ p. p) result cursor.new (period_at cursor.old) }
{
    if cursor.is(Sort::Wmsys) {
        cursor.mark(Sort::Wmsys)?;
        cursor.mark(Sort::Dot)?;
    }
    cursor.mark(Sort::WmPeriod)?;
    cursor.mark(Sort::Open)?;
    let from = period_end(cursor)?;
    cursor.mark(Sort::Comma)?;
    let till = period_end(cursor)?;
    cursor.mark(Sort::Close)?;
    Ok((from, till))
}

/// A constant with no sign.
#[tactic(auto, unfolding(wm_grammar::specs::OperandReaders::plain_constant_at))]
pub fn plain_constant(cursor: &mut Cursor, alloc: Global) -> Result<Const, ParseError>
    ensures { Told (λ k. k) result cursor.new (plain_constant_at cursor.old) }
{
    if cursor.is(Sort::Int) {
        let number = cursor.integer()?;
        return Ok(Const::Num(number as i64));
    }
    if cursor.is(Sort::Text) {
        return cursor.text(alloc);
    }
    if cursor.is(Sort::Null) {
        cursor.mark(Sort::Null)?;
        return Ok(Const::Null);
    }
    if cursor.is(Sort::Sysdate) {
        cursor.mark(Sort::Sysdate)?;
        return Ok(Const::Sysdate);
    }
    if cursor.is(Sort::DbmsWm) {
        until_changed(cursor)?;
        return Ok(Const::Time(Instant::end()));
    }
    if cursor.is_any(&[Sort::Date, Sort::Timestamp, Sort::ToDate]) {
        let time = instant(cursor)?;
        return Ok(Const::Time(time));
    }
    let (from, till) = period(cursor)?;
    Ok(Const::Span { from, till })
}

/// A constant.
#[tactic(auto, unfolding(wm_grammar::specs::OperandReaders::constant_at))]
pub fn constant(cursor: &mut Cursor, alloc: Global) -> Result<Const, ParseError>
    ensures { Told (λ k. k) result cursor.new (constant_at cursor.old) }
{
    if cursor.is(Sort::Minus) {
        cursor.mark(Sort::Minus)?;
        let number = cursor.integer()?;
        return Ok(Const::Num(-(number as i64)));
    }
    plain_constant(cursor, alloc)
}

#[tactic(auto, unfolding(wm_grammar::specs::OperandReaders::suffix_at))]
fn suffix(cursor: &mut Cursor) -> Result<Suffix, ParseError>
    ensures { Told (λ s. s) result cursor.new (suffix_at cursor.old) }
{
    if cursor.is(Sort::Validfrom) {
        cursor.mark(Sort::Validfrom)?;
        return Ok(Suffix::ValidFrom);
    }
    cursor.mark(Sort::Validtill)?;
    Ok(Suffix::ValidTill)
}

/// A column of a source, or of none.
#[tactic(auto, unfolding(wm_grammar::specs::OperandReaders::column_of_at))]
fn column_of(cursor: &mut Cursor, alloc: Global, source: Option<Name>) -> Result<Col, ParseError>
    ensures { Told (λ c. c) result cursor.new (column_of_at source cursor.old) }
{
    if cursor.is(Sort::WmValid) {
        let name = cursor.name(alloc, Sort::WmValid)?;
        let mut end = None;
        if cursor.is(Sort::Dot) {
            cursor.mark(Sort::Dot)?;
            end = Some(suffix(cursor)?);
        }
        return Ok(Col {
            source,
            name,
            suffix: end,
        });
    }
    let name = plain_name(cursor, alloc)?;
    Ok(Col {
        source,
        name,
        suffix: None,
    })
}

/// The column that begins with an id.
#[tactic(auto, unfolding(wm_grammar::specs::OperandReaders::column_after_at))]
fn column_after(cursor: &mut Cursor, alloc: Global, first: Name) -> Result<Col, ParseError>
    ensures { Told (λ c. c) result cursor.new (column_after_at first cursor.old) }
{
    if cursor.is(Sort::Dot) {
        cursor.mark(Sort::Dot)?;
        return column_of(cursor, alloc, Some(first));
    }
    Ok(Col {
        source: None,
        name: first,
        suffix: None,
    })
}

/// A column that does not begin with an id.
#[tactic(auto, unfolding(wm_grammar::specs::OperandReaders::other_column_at))]
fn other_column(cursor: &mut Cursor, alloc: Global) -> Result<Col, ParseError>
    ensures { Told (λ c. c) result cursor.new (other_column_at cursor.old) }
{
    if cursor.is(Sort::WmValid) {
        let name = cursor.name(alloc, Sort::WmValid)?;
        let mut end = None;
        if cursor.is(Sort::Dot) {
            cursor.mark(Sort::Dot)?;
            end = Some(suffix(cursor)?);
        }
        return Ok(Col {
            source: None,
            name,
            suffix: end,
        });
    }
    let name = if cursor.is(Sort::Validfrom) {
        cursor.name(alloc, Sort::Validfrom)?
    } else {
        cursor.name(alloc, Sort::Validtill)?
    };
    Ok(Col {
        source: None,
        name,
        suffix: None,
    })
}

/// A column.
#[tactic(auto, unfolding(wm_grammar::specs::OperandReaders::column_at))]
pub fn column(cursor: &mut Cursor, alloc: Global) -> Result<Col, ParseError>
    ensures { Told (λ c. c) result cursor.new (column_at cursor.old) }
{
    if cursor.is(Sort::Id) {
        let first = cursor.name(alloc, Sort::Id)?;
        return column_after(cursor, alloc, first);
    }
    other_column(cursor, alloc)
}

#[tactic(auto, unfolding(wm_grammar::specs::OperandReaders::per_at))]
fn per(cursor: &mut Cursor, alloc: Global) -> Result<Per, ParseError>
    ensures { Told (λ p. p) result cursor.new (per_at cursor.old) }
{
    if cursor.is(Sort::Id) {
        let source = cursor.name(alloc, Sort::Id)?;
        cursor.mark(Sort::Dot)?;
        cursor.mark(Sort::WmValid)?;
        return Ok(Per::Valid {
            source: Some(source),
        });
    }
    if cursor.is(Sort::WmValid) {
        cursor.mark(Sort::WmValid)?;
        return Ok(Per::Valid { source: None });
    }
    let (from, till) = period(cursor)?;
    Ok(Per::Span { from, till })
}

/// The operands of an operator.
#[tactic(auto, unfolding(wm_grammar::specs::OperandReaders::operator_test_at))]
fn operator_test(
    cursor: &mut Cursor,
    alloc: Global,
    operator: Operator,
) -> Result<Operand, ParseError>
    ensures { Told (λ o. o) result cursor.new (operator_test_at operator cursor.old) }
{
    cursor.mark(Sort::Open)?;
    let left = per(cursor, alloc)?;
    cursor.mark(Sort::Comma)?;
    let right = per(cursor, alloc)?;
    cursor.mark(Sort::Close)?;
    Ok(Operand::Test {
        operator,
        left,
        right,
    })
}

/// The operand that begins with an id.
#[tactic(auto, unfolding(wm_grammar::specs::OperandReaders::operand_after_at))]
fn operand_after(cursor: &mut Cursor, alloc: Global, first: Name) -> Result<Operand, ParseError>
    ensures { Told (λ o. o) result cursor.new (operand_after_at first cursor.old) }
{
    if let Some(operator) = operator_of(first.as_bytes()) {
        if cursor.is(Sort::Open) {
            return operator_test(cursor, alloc, operator);
        }
    }
    let column = column_after(cursor, alloc, first)?;
    Ok(Operand::Col(column))
}

/// An operand of a condition.
#[tactic(auto, unfolding(wm_grammar::specs::OperandReaders::operand_at))]
pub fn operand(cursor: &mut Cursor, alloc: Global) -> Result<Operand, ParseError>
    ensures { Told (λ o. o) result cursor.new (operand_at cursor.old) }
{
    if cursor.is(Sort::Id) {
        let first = cursor.name(alloc, Sort::Id)?;
        return operand_after(cursor, alloc, first);
    }
    if cursor.is_any(&[Sort::WmValid, Sort::Validfrom, Sort::Validtill]) {
        let column = other_column(cursor, alloc)?;
        return Ok(Operand::Col(column));
    }
    let value = constant(cursor, alloc)?;
    Ok(Operand::Const(value))
}

/// An operand of an expression.
#[tactic(auto, unfolding(wm_grammar::specs::OperandReaders::plain_operand_at))]
pub fn plain_operand(cursor: &mut Cursor, alloc: Global) -> Result<Operand, ParseError>
    ensures { Told (λ o. o) result cursor.new (plain_operand_at cursor.old) }
{
    if cursor.is(Sort::Id) {
        let first = cursor.name(alloc, Sort::Id)?;
        return operand_after(cursor, alloc, first);
    }
    if cursor.is_any(&[Sort::WmValid, Sort::Validfrom, Sort::Validtill]) {
        let column = other_column(cursor, alloc)?;
        return Ok(Operand::Col(column));
    }
    let value = plain_constant(cursor, alloc)?;
    Ok(Operand::Const(value))
}
