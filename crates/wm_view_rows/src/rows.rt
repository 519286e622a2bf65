//! The rows of views.
ghost use Rattle.std.specs.Prelude.{◌≡◌, ◌<◌, ◌≤◌, ◌++◌, ◌∷◌, [], is_some, IfOk, OnOk, option_copied, if◌then◌else◌};
ghost use Rattle.wm_base.specs.declared.instant.TheConstants.{END};
ghost use Rattle.wm_guard.specs.Barring.{lock_word, span_of};
ghost use Rattle.wm_view_rows.specs.Given.{event_at, side_rows};
ghost use Rattle.wm_view_rows.specs.Locks.{lock_row};
ghost use Rattle.wm_view_rows.specs.Rows.{conflict_row, conflict_rows, deleted_word, history_row, key_value, key_values, kind_word, shown_values, side_values, time_value};

use std::alloc::Global;
use wm_base::{Instant, Key, Kind, Memory, Name, Period, Row, Value, Values};
use wm_guard::barring::word;
use wm_listing::RowList;
use wm_spec::record::{CellRange, Lock, Table};

/// The names of a workspace and its parent, or of the second of two points and the first.
#[derive(Clone, Copy)]
pub struct Names<'a> {
    pub parent: &'a Name,
    pub child: &'a Name,
}

/// The values of the rows that stand on the three sides of a conflict, where one does. Of a difference the base is the
/// common point, and the others are the first and the second.
#[derive(Clone, Copy)]
pub struct Sides<'a> {
    pub base: Option<&'a Values>,
    pub parent: Option<&'a Values>,
    pub child: Option<&'a Values>,
}

/// What the history of a table tells of a change: the cells, the row or that it is gone, what was done, when and by whom.
#[derive(Clone, Copy)]
pub struct EventAt<'a> {
    pub cells: &'a CellRange,
    pub row: Option<&'a Values>,
    pub kind: Kind,
    /// In seconds, as an instant has them.
    pub moment: u64,
    pub user: &'a Name,
}

/// The value of the key in the column at a place, and NULL where that is no key column.
fn key_value(alloc: Global, places: &[u8], key: &[Value], place: usize) -> Result<Value, Memory>
    ensures { IfOk result (λ value. value ≡ key_value places.now key.now place) }
{
    for (index, column) in places.iter().enumerate() {
        if usize::from(*column) == place {
            return match key.get(index) {
                Some(value) => value.copy(alloc),
                None => Ok(Value::Null),
            };
        }
    }
    Ok(Value::Null)
}

/// Adds the key among NULLs, a value for each column.
fn push_key(alloc: Global, table: &Table, key: &Key, values: &mut Values) -> Result<(), Memory>
    ensures { OnOk result (values.new ≡ values.old ++ key_values table.now.key_columns key.now 0 table.now.columns) }
{
    let places = table.key_columns.as_slice();
    for place in 0..table.columns.len() {
        values.push(key_value(alloc, places, key.values(), place)?)?;
    }
    Ok(())
}

/// Adds copies of values.
fn push_copies(alloc: Global, row: &[Value], values: &mut Values) -> Result<(), Memory>
    ensures { OnOk result (values.new ≡ values.old ++ row.now) }
{
    for value in row {
        values.push(value.copy(alloc)?)?;
    }
    Ok(())
}

/// Adds the values of the row, or its key among NULLs.
fn push_side(
    alloc: Global,
    table: &Table,
    key: &Key,
    row: Option<&Values>,
    values: &mut Values,
) -> Result<(), Memory>
    ensures { OnOk result (values.new ≡ values.old ++ side_values table.now key.now (option_copied row.entry)) }
{
    match row {
        Some(row) => push_copies(alloc, row.as_slice(), values),
        None => push_key(alloc, table, key, values),
    }
}

/// Adds them with the period behind them, where the table has valid time.
pub(crate) fn push_shown(
    alloc: Global,
    table: &Table,
    key: &Key,
    period: &Period,
    row: Option<&Values>,
    values: &mut Values,
) -> Result<(), Memory>
    ensures { OnOk result (values.new ≡ values.old ++ shown_values table.now key.now period.now (option_copied row.entry)) }
{
    push_side(alloc, table, key, row, values)?;
    if table.valid {
        values.push(Value::Span(*period))?;
    }
    Ok(())
}

/// Adds a text.
pub(crate) fn push_text(alloc: Global, bytes: &[u8], values: &mut Values) -> Result<(), Memory>
    ensures { OnOk result (values.new ≡ values.old ++ Value.Text bytes.now ∷ []) }
{
    values.push(Value::Text(Name::copy_of(alloc, bytes)?))
}

/// What is said of a side, by whether the base has a row.
fn deleted_word(based: bool, row: Option<&Values>) -> &'static [u8]
    ensures { result.now ≡ deleted_word based (option_copied row.entry) }
{
    match (row, based) {
        (Some(_), _) => b"NO",
        (None, true) => b"YES",
        (None, false) => b"NE",
    }
}

/// The row of a side, under its name.
fn conflict_row(
    alloc: Global,
    table: &Table,
    key: &Key,
    period: &Period,
    name: &[u8],
    based: bool,
    row: Option<&Values>,
) -> Result<Row, Memory>
    ensures { IfOk result (λ made. made ≡ conflict_row table.now key.now period.now name.now based (option_copied row.entry)) }
{
    let mut values = Values::new(alloc);
    push_text(alloc, name, &mut values)?;
    push_shown(alloc, table, key, period, row, &mut values)?;
    push_text(alloc, deleted_word(based, row), &mut values)?;
    Ok(Row { values })
}

/// Adds the three rows of a stretch of conflict: those of the base, the parent and the workspace.
pub fn conflict_rows(
    alloc: Global,
    table: &Table,
    key: &Key,
    period: &Period,
    names: Names<'_>,
    rows: Sides<'_>,
    out: &mut RowList,
) -> Result<(), Memory>
    ensures { OnOk result (out.new ≡ out.old ++ conflict_rows table.now key.now period.now names.entry.parent.now names.entry.child.now (side_rows rows.entry)) }
{
    let based = rows.base.is_some();
    let above = names.parent.as_bytes();
    let below = names.child.as_bytes();
    let base = conflict_row(alloc, table, key, period, b"BASE", false, rows.base)?;
    out.push(base)?;
    let parent = conflict_row(alloc, table, key, period, above, based, rows.parent)?;
    out.push(parent)?;
    let child = conflict_row(alloc, table, key, period, below, based, rows.child)?;
    out.push(child)
}

fn kind_word(kind: Kind) -> &'static [u8]
    ensures { result.now ≡ kind_word kind }
{
    match kind {
        Kind::Insert => b"I",
        Kind::Update => b"U",
        Kind::Delete => b"D",
    }
}

/// A time, or NULL. No line is written at the end of time or behind it.
fn time_value(moment: Option<u64>) -> Value
    ensures { result ≡ time_value moment }
{
    match moment {
        Some(moment) => Value::Time(Instant::new(moment).unwrap_or(Instant::end())),
        None => Value::Null,
    }
}

/// The period of cells.
pub fn period_of(cells: &CellRange) -> Period
    requires some { cells.now.from < cells.now.till }
    requires till { cells.now.till ≤ END }
    ensures { result ≡ record { from = cells.now.from; till = cells.now.till } }
{
    match (Instant::new(cells.from), Instant::new(cells.till)) {
        (Some(from), Some(till)) => match Period::new(from, till) {
            Some(period) => period,
            None => unreachable!(),
        },
        _ => unreachable!(),
    }
}

/// Adds what is told of a change beside its row: the workspace, who wrote it, what it did, when it was written, and when
/// it was written over.
fn push_told(
    alloc: Global,
    workspace: &Name,
    event: &EventAt<'_>,
    over: Option<u64>,
    values: &mut Values,
) -> Result<(), Memory>
    ensures { OnOk result (values.new ≡ values.old ++ Value.Text workspace.now ∷ Value.Text event.now.user.now ∷ Value.Text (kind_word event.now.kind) ∷ time_value (Some event.now.moment) ∷ time_value over ∷ []) }
{
    push_text(alloc, workspace.as_bytes(), values)?;
    push_text(alloc, event.user.as_bytes(), values)?;
    push_text(alloc, kind_word(event.kind), values)?;
    values.push(time_value(Some(event.moment)))?;
    values.push(time_value(over))
}

/// The row of a change, with the moment at which it was first written over, where it was.
pub fn history_row(
    alloc: Global,
    workspace: &Name,
    table: &Table,
    event: &EventAt<'_>,
    over: Option<u64>,
) -> Result<Row, Memory>
    requires some { event.now.cells.now.from < event.now.cells.now.till }
    requires till { event.now.cells.now.till ≤ END }
    ensures { IfOk result (λ row. row ≡ history_row workspace.now table.now (event_at event.now) over) }
{
    let period = period_of(event.cells);
    let mut values = Values::new(alloc);
    push_shown(
        alloc,
        table,
        &event.cells.key,
        &period,
        event.row,
        &mut values,
    )?;
    push_told(alloc, workspace, event, over, &mut values)?;
    Ok(Row { values })
}

/// Adds the cells of a lock: the key, and the period where the table has valid time.
fn push_cells(
    alloc: Global,
    valid: bool,
    cells: &CellRange,
    values: &mut Values,
) -> Result<(), Memory>
    requires some { cells.now.from < cells.now.till }
    requires till { cells.now.till ≤ END }
    ensures { OnOk result (values.new ≡ values.old ++ cells.now.key ++ (if valid then Value.Span (span_of cells.now) ∷ [] else [])) }
{
    push_copies(alloc, cells.key.values(), values)?;
    if valid {
        values.push(Value::Span(period_of(cells)))?;
    }
    Ok(())
}

/// Adds what is told of a lock beside its cells: the workspace, the mode and the user.
fn push_locked(
    alloc: Global,
    workspace: &[u8],
    lock: &Lock,
    values: &mut Values,
) -> Result<(), Memory>
    ensures { OnOk result (values.new ≡ values.old ++ Value.Text workspace.now ∷ Value.Text (lock_word lock.now.mode) ∷ Value.Text lock.now.user ∷ []) }
{
    push_text(alloc, workspace, values)?;
    push_text(alloc, word(lock.mode), values)?;
    push_text(alloc, lock.user.as_bytes(), values)
}

/// The row of a lock in the workspace of this name.
pub fn lock_row(alloc: Global, workspace: &[u8], table: &Table, lock: &Lock) -> Result<Row, Memory>
    requires some { lock.now.cells.from < lock.now.cells.till }
    requires till { lock.now.cells.till ≤ END }
    ensures { IfOk result (λ row. row ≡ lock_row (λ n. workspace.now) table.now lock.now) }
{
    let mut values = Values::new(alloc);
    push_cells(alloc, table.valid, &lock.cells, &mut values)?;
    push_locked(alloc, workspace, lock, &mut values)?;
    Ok(Row { values })
}
