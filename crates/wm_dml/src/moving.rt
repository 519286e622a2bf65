//! What an UPDATE writes that gives rows new periods.
ghost use Rattle.std.specs.Prelude.{◌≡◌, ◌∷◌, ◌++◌, [], Bool, true, List, None, map, unwrap_or, IfOk, OnOk};
ghost use Rattle.std.specs.List.{flat_map, list_all, list_any};
ghost use Rattle.std.specs.Option.{option_and_then};
ghost use Rattle.wm_base.specs.Period.{Span, always, equals};
ghost use Rattle.wm_syntax.specs.Trees.{Set as SetTree};
ghost use Rattle.wm_base.specs.declared.value.Value.{Value as OneValue};
ghost use Rattle.wm_syntax.specs.Views.{expr_view, sets_view};
ghost use Rattle.wm_ordering.specs.Sorting.{sorted};
ghost use Rattle.wm_spec.specs.Expressions.{value_of, has_no_empty_period};
ghost use Rattle.wm_spec.specs.Operands.{period_of};
ghost use Rattle.wm_temporal.specs.Uncovered.{free};
ghost use Rattle.wm_dml.specs.Changing.{own_columns};
ghost use Rattle.wm_dml.specs.declared.change.RowChange.{RowChange as ChangeOf};
ghost use Rattle.wm_dml.specs.declared.moving.Move.{Move as MoveOf};
ghost use Rattle.wm_dml.specs.declared.moving.Shift.{Shift as ShiftOf};
ghost use Rattle.wm_dml.specs.Moving.{new_period as period_for_row, move_of as move_of_row, moves_of as moves_of_rows, shifts_of, shifts_under, news_of, staying, shared_with, earlier as earlier_of, earliest, clashes, clash_in as clash_of, moved_row, begins_before, left_part, left_parts, goes_before, moving as moving_of};
ghost use Rattle.wm_dml.specs.Standing.{change_lasts, is_change, stands_in};

use crate::change::RowChange;
use crate::keys::row_key;
use crate::shifts::Shifts;
use crate::shown::row_period;
use crate::updated::valid_set;
use std::alloc::Global;
use std::cmp::Ordering;
use wm_base::{Key, Kind, Memory, Period, Row, Value, Values};
use wm_expr::{ValueFault, value};
use wm_listing::Columns;
use wm_spec::record::Table;
use wm_syntax::statement::Set;
use wm_temporal::uncovered;
use wm_typing::columns_of_table;

/// Where a row stood, and where it will stand.
#[derive(Clone, Copy)]
pub struct Shift {
    pub old: Period,
    pub new: Period,
}

/// A row that an UPDATE gives a new period.
#[derive(Drop)]
pub struct Move {
    pub key: Key,
    pub shift: Shift,
    /// The values of the row over its new period.
    pub row: Values,
}

/// The period that a value is, and always where it is none.
fn period_in(value: &Value) -> Period
    ensures { result ≡ unwrap_or (period_of value.now) always }
{
    match value {
        Value::Span(period) => *period,
        _ => Period::always(),
    }
}

/// The period that a set gives the row.
fn period_set(alloc: Global, set: &Set, columns: &Columns, row: &Row) -> Result<Period, Memory>
    requires { has_no_empty_period (expr_view set.now.becomes) ≡ true }
    ensures { IfOk result (λ period. period ≡ unwrap_or (option_and_then period_of (value_of (expr_view set.now.becomes) columns.now row.now)) always) }
{
    match value(alloc, &set.becomes, columns, row) {
        Ok(value) => Ok(period_in(&value)),
        Err(ValueFault::OutOfRange) => Ok(Period::always()),
        Err(ValueFault::Memory) => Err(Memory),
    }
}

/// The period that the set of WM_VALID gives the row.
fn new_period(
    alloc: Global,
    table: &Table,
    columns: &Columns,
    sets: &[Set],
    row: &Row,
) -> Result<Period, Memory>
    requires lasting { list_all (λ (s : SetTree). has_no_empty_period s.becomes) (sets_view sets.now) ≡ true }
    requires own { columns.now ≡ own_columns table.now }
    ensures { IfOk result (λ period. period ≡ period_for_row table.now (sets_view sets.now) row.now) }
{
    match valid_set(sets) {
        Some(set) => period_set(alloc, set, columns, row),
        None => Ok(Period::always()),
    }
}

/// The row in the place of the old one, with where that one stood and where it will stand, behind others.
fn push_move(
    alloc: Global,
    moves: &mut Vec<Move>,
    table: &Table,
    columns: &Columns,
    sets: &[Set],
    old: &Row,
    row: Values,
) -> Result<(), Memory>
    requires lasting { list_all (λ (s : SetTree). has_no_empty_period s.becomes) (sets_view sets.now) ≡ true }
    requires own { columns.now ≡ own_columns table.now }
    ensures { OnOk result (moves.new.items ≡ moves.old.items ++ move_of_row table.now (sets_view sets.now) old.now row ∷ []) }
{
    let shift = Shift {
        old: row_period(table, old),
        new: new_period(alloc, table, columns, sets, old)?,
    };
    moves.push(Move {
        key: row_key(alloc, table, row.as_slice())?,
        shift,
        row,
    })?;
    Ok(())
}

/// Each row in the place of the old one that stands where it stands, in order.
fn all_moves(
    alloc: Global,
    table: &Table,
    columns: &Columns,
    sets: &[Set],
    olds: &[Row],
    rows: Vec<Values>,
) -> Result<Vec<Move>, Memory>
    requires own { columns.now ≡ own_columns table.now }
    requires lasting { list_all (λ (s : SetTree). has_no_empty_period s.becomes) (sets_view sets.now) ≡ true }
    ensures { IfOk result (λ moves. moves.items ≡ moves_of_rows table.now (sets_view sets.now) olds.now rows.items) }
{
    let mut moves = Vec::new(alloc);
    for (old, row) in olds.iter().zip(rows) {
        push_move(alloc, &mut moves, table, columns, sets, old, row)?;
    }
    Ok(moves)
}

/// The rows that the UPDATE made of the shown rows, each with where it stood and will stand, in order.
pub fn moves_of(
    alloc: Global,
    table: &Table,
    sets: &[Set],
    olds: &[Row],
    rows: Vec<Values>,
) -> Result<Vec<Move>, Memory>
    requires { list_all (λ (s : SetTree). has_no_empty_period s.becomes) (sets_view sets.now) ≡ true }
    ensures exact { IfOk result (λ moves. moves.items ≡ moves_of_rows table.now (sets_view sets.now) olds.now rows.items) }
    ensures fit { IfOk result (λ moves. list_all (stands_in table.now) rows.items ≡ true → list_all (λ (m : MoveOf). is_change table.now (moved_row m)) moves.items ≡ true) }
{
    let columns = columns_of_table(alloc, &table.name, table)?;
    let moves = all_moves(alloc, table, &columns, sets, olds, rows);
    drop(columns);
    let moves = moves?;
    Ok(moves)
}

/// Whether a row that moves stood over the period.
fn is_old(shifts: &[Shift], span: &Period) -> bool
    ensures { result ≡ list_any (λ (s : ShiftOf). equals s.old span.now) shifts.now }
{
    for shift in shifts {
        if shift.old.equals(span) {
            return true;
        }
    }
    false
}

/// The earlier of two periods, by from and then till.
fn earlier(best: Option<Period>, other: Period) -> Option<Period>
    ensures { result ≡ earlier_of best other }
{
    match best {
        Some(best) if other.compare(&best) != Ordering::Less => Some(best),
        _ => Some(other),
    }
}

/// Puts a period over which a row of a key stands behind others, if the row stays.
fn push_staying(stay: &mut Vec<Period>, shifts: &[Shift], span: &Period) -> Result<(), Memory>
    ensures { OnOk result (stay.new.items ≡ stay.old.items ++ staying shifts.now (span.now ∷ [])) }
{
    if is_old(shifts, span) {
        return Ok(());
    }
    stay.push(*span)?;
    Ok(())
}

/// The periods of the rows that stay, of those over which rows of a key stand.
fn staying_spans(alloc: Global, shifts: &[Shift], spans: &[Period]) -> Result<Vec<Period>, Memory>
    ensures { IfOk result (λ stay. stay.items ≡ staying shifts.now spans.now) }
{
    let mut stay = Vec::new(alloc);
    for span in spans {
        push_staying(&mut stay, shifts, span)?;
    }
    Ok(stay)
}

/// The earliest of a period and of what another shares with some.
fn earliest_shared(best: Option<Period>, period: &Period, spans: &[Period]) -> Option<Period>
    ensures { result ≡ earliest best (shared_with period.now spans.now) }
{
    let mut best = best;
    for span in spans {
        if let Some(shared) = period.cut(span) {
            best = earlier(best, shared);
        }
    }
    best
}

/// The earliest part that a new period shares with one that stays or with another new one.
fn earliest_clash(stay: &[Period], news: &[Period]) -> Option<Period>
    ensures { result ≡ earliest None (clashes stay.now news.now) }
{
    let mut best = None;
    let mut left = news;
    while let [period, rest @ ..] = left {
        best = earliest_shared(best, period, stay);
        best = earliest_shared(best, period, rest);
        left = rest;
    }
    best
}

/// The new periods, in order.
fn new_periods(alloc: Global, shifts: &[Shift]) -> Result<Vec<Period>, Memory>
    ensures { IfOk result (λ news. news.items ≡ news_of shifts.now) }
{
    let mut news = Vec::new(alloc);
    for shift in shifts {
        news.push(shift.new)?;
    }
    Ok(news)
}

/// The earliest part that a new period of a key shares with a row that stays or with another new period, where rows of the
/// key stand over these periods; None exactly where there is none.
pub fn clash_in(alloc: Global, shifts: &[Shift], spans: &[Period]) -> Result<Option<Period>, Memory>
    ensures { IfOk result (λ found. found ≡ clash_of shifts.now spans.now) }
{
    let stay = staying_spans(alloc, shifts, spans)?;
    let news = new_periods(alloc, shifts)?;
    Ok(earliest_clash(stay.as_slice(), news.as_slice()))
}

/// Puts periods in order, by from and then till.
fn sort_periods(periods: &mut Vec<Period>) -> Result<(), Memory>
    ensures { OnOk result (periods.new.items ≡ sorted begins_before periods.old.items) }
{
    periods.sort_by(|one, other| one.compare(other))?;
    Ok(())
}

/// What the new periods of the key leave of the old period of a row, part by part.
fn parts_left(alloc: Global, shifts: &[Shift], one: &Move) -> Result<Vec<Period>, Memory>
    ensures { IfOk result (λ parts. parts.items ≡ free one.now.shift.old.from one.now.shift.old.till (sorted begins_before (news_of shifts.now))) }
{
    let mut news = new_periods(alloc, shifts)?;
    sort_periods(&mut news)?;
    let parts = uncovered(alloc, &[one.shift.old], news.as_slice())?;
    Ok(parts)
}

/// Writes that no row of the key stands over parts of its old period.
fn push_parts(
    alloc: Global,
    changes: &mut Vec<RowChange>,
    one: &Move,
    parts: &[Period],
) -> Result<(), Memory>
    requires { list_all change_lasts changes.old.items ≡ true }
    ensures exact { OnOk result (changes.new.items ≡ changes.old.items ++ map (left_part one.now) parts.now) }
    ensures lasting { OnOk result (list_all change_lasts changes.new.items ≡ true) }
{
    for part in parts {
        // Its end is at most END: the type says so.
        let _till = part.till();
        changes.push(RowChange {
            key: one.key.copy(alloc)?,
            period: *part,
            row: None,
            kind: Kind::Delete,
        })?;
    }
    Ok(())
}

/// Writes that no row stands over what the new periods of the key leave of an old one.
fn push_left(
    alloc: Global,
    changes: &mut Vec<RowChange>,
    shifts: &[Shift],
    one: &Move,
) -> Result<(), Memory>
    requires { list_all change_lasts changes.old.items ≡ true }
    ensures exact { OnOk result (changes.new.items ≡ changes.old.items ++ map (left_part one.now) (free one.now.shift.old.from one.now.shift.old.till (sorted begins_before (news_of shifts.now)))) }
    ensures lasting { OnOk result (list_all change_lasts changes.new.items ≡ true) }
{
    let parts = parts_left(alloc, shifts, one)?;
    let pushed = push_parts(alloc, changes, one, parts.as_slice());
    drop(parts);
    pushed
}

/// Writes for each row that moves that no row stands over what the new periods of its key leave of its old one.
fn all_left(alloc: Global, moves: &[Move], shifts: &Shifts) -> Result<Vec<RowChange>, Memory>
    requires { (key : List OneValue) → shifts_under shifts.now key ≡ shifts_of key moves.now }
    ensures exact { IfOk result (λ changes. changes.items ≡ flat_map (left_parts moves.now) moves.now) }
    ensures lasting { IfOk result (λ changes. list_all change_lasts changes.items ≡ true) }
{
    let mut changes = Vec::new(alloc);
    for one in moves {
        push_left(alloc, &mut changes, shifts.of(&one.key), one)?;
    }
    Ok(changes)
}

/// The row over its new period.
fn over_new_period(one: Move) -> RowChange
    ensures exact { result ≡ moved_row one }
    ensures lasting { change_lasts result ≡ true }
{
    let Move { key, shift, row } = one;
    // Its end is at most END: the type says so.
    let _till = shift.new.till();
    RowChange {
        key,
        period: shift.new,
        row: Some(row),
        kind: Kind::Update,
    }
}

/// Writes each row over its new period.
fn push_moved(changes: &mut Vec<RowChange>, moves: Vec<Move>) -> Result<(), Memory>
    requires { list_all change_lasts changes.old.items ≡ true }
    ensures exact { OnOk result (changes.new.items ≡ changes.old.items ++ map moved_row moves.items) }
    ensures lasting { OnOk result (list_all change_lasts changes.new.items ≡ true) }
{
    for one in moves {
        changes.push(over_new_period(one))?;
    }
    Ok(())
}

/// Puts changes in order, by key and from.
fn sort_changes(changes: &mut Vec<RowChange>) -> Result<(), Memory>
    ensures { OnOk result (changes.new.items ≡ sorted goes_before changes.old.items) }
{
    changes.sort_by(|one, other| {
        one.key
            .compare(&other.key)
            .then(one.period.from().cmp(&other.period.from()))
    })?;
    Ok(())
}

/// What the UPDATE writes of rows that move, by key and from: each row over its new period, and no row over what the new
/// periods of its key leave of its old one.
pub fn moved(alloc: Global, moves: Vec<Move>, shifts: &Shifts) -> Result<Vec<RowChange>, Memory>
    requires { (key : List OneValue) → shifts_under shifts.now key ≡ shifts_of key moves.items }
    ensures exact { IfOk result (λ changes. changes.items ≡ moving_of moves.items) }
    ensures lasting { IfOk result (λ changes. list_all change_lasts changes.items ≡ true) }
    // What holds of each row over its new period, and then of a part of the old one, holds of all that is written.
    ensures all { IfOk result (λ changes. (holds : ChangeOf → Bool) → list_all (λ (m : MoveOf). holds (moved_row m)) moves.items ≡ true → ((m : MoveOf) (part : Span) → holds (moved_row m) ≡ true → holds (left_part m part) ≡ true) → list_all holds changes.items ≡ true) }
{
    let mut changes = all_left(alloc, moves.as_slice(), shifts)?;
    push_moved(&mut changes, moves)?;
    sort_changes(&mut changes)?;
    Ok(changes)
}
