//! The columns of what is shown of a table.
ghost use Rattle.std.specs.Prelude.{◌≡◌, ◌++◌, ◌∷◌, [], codes, IfOk, OnOk, if◌then◌else◌};
ghost use Rattle.wm_listing.specs.declared.columns.Column.{Column as OneColumn};
ghost use Rattle.wm_typing.specs.Columns.{columns_of_table, valid_column};
ghost use Rattle.wm_view_rows.specs.Columns.{columns_of_view, history_columns, lock_columns, text_column};

use crate::view::View;
use std::alloc::Global;
use wm_base::{Memory, Name};
use wm_decided::keyed::key_columns;
use wm_listing::columns::{TEXT, TIME};
use wm_listing::{Column, Columns};
use wm_spec::record::Table;
use wm_typing::columns::valid_column;
use wm_typing::columns_of_table;

/// Adds a column of a source.
fn push_column(
    alloc: Global,
    source: &Name,
    name: &[u8],
    kind: u8,
    list: &mut Vec<Column>,
) -> Result<(), Memory>
    ensures { OnOk result (let c : OneColumn = record { source = source.now; name = name.now; kind = kind } in list.new.items ≡ list.old.items ++ c ∷ []) }
{
    let column = Column {
        source: source.copy(alloc)?,
        name: Name::copy_of(alloc, name)?,
        kind,
    };
    list.push(column)?;
    Ok(())
}

/// The columns of conflicts: the workspace, the columns of the table, and whether the row was deleted.
fn conflict_columns(alloc: Global, source: &Name, table: &Table) -> Result<Columns, Memory>
    ensures { IfOk result (λ columns. columns ≡ text_column source.now (codes "WM_WORKSPACE") ∷ (columns_of_table source.now table.now ++ text_column source.now (codes "WM_DELETED") ∷ [])) }
{
    let mut list = Vec::new(alloc);
    push_column(alloc, source, b"WM_WORKSPACE", TEXT, &mut list)?;
    let mut declared = columns_of_table(alloc, source, table)?.into_vec();
    list.append(&mut declared)?;
    push_column(alloc, source, b"WM_DELETED", TEXT, &mut list)?;
    Ok(Columns::from_vec(list))
}

/// The columns of differences: those of the table, the point, and what became of the row there.
fn difference_columns(alloc: Global, source: &Name, table: &Table) -> Result<Columns, Memory>
    ensures { IfOk result (λ columns. columns ≡ columns_of_table source.now table.now ++ text_column source.now (codes "WM_DIFFVER") ∷ text_column source.now (codes "WM_CODE") ∷ []) }
{
    let mut list = columns_of_table(alloc, source, table)?.into_vec();
    push_column(alloc, source, b"WM_DIFFVER", TEXT, &mut list)?;
    push_column(alloc, source, b"WM_CODE", TEXT, &mut list)?;
    Ok(Columns::from_vec(list))
}

/// Adds the columns of what is told of a change.
fn push_told(alloc: Global, source: &Name, list: &mut Vec<Column>) -> Result<(), Memory>
    ensures { OnOk result (list.new.items ≡ list.old.items ++ history_columns source.now) }
{
    push_column(alloc, source, b"WM_WORKSPACE", TEXT, list)?;
    push_column(alloc, source, b"WM_USERNAME", TEXT, list)?;
    push_column(alloc, source, b"WM_OPTYPE", TEXT, list)?;
    push_column(alloc, source, b"WM_CREATETIME", TIME, list)?;
    push_column(alloc, source, b"WM_RETIRETIME", TIME, list)?;
    Ok(())
}

/// The columns of history: those of the table, and what is told of each change.
fn history_columns(alloc: Global, source: &Name, table: &Table) -> Result<Columns, Memory>
    ensures { IfOk result (λ columns. columns ≡ columns_of_table source.now table.now ++ history_columns source.now) }
{
    let mut list = columns_of_table(alloc, source, table)?.into_vec();
    push_told(alloc, source, &mut list)?;
    Ok(Columns::from_vec(list))
}

/// Adds WM_VALID, where there is valid time.
fn push_valid(
    alloc: Global,
    source: &Name,
    valid: bool,
    list: &mut Vec<Column>,
) -> Result<(), Memory>
    ensures { OnOk result (list.new.items ≡ list.old.items ++ (if valid then valid_column source.now ∷ [] else [])) }
{
    if valid {
        list.push(valid_column(alloc, source)?)?;
    }
    Ok(())
}

/// Adds the columns of what is told of a lock beside its cells.
fn push_locked(alloc: Global, source: &Name, list: &mut Vec<Column>) -> Result<(), Memory>
    ensures { OnOk result (list.new.items ≡ list.old.items ++ text_column source.now (codes "WM_WORKSPACE") ∷ text_column source.now (codes "WM_LOCKMODE") ∷ text_column source.now (codes "WM_USERNAME") ∷ []) }
{
    push_column(alloc, source, b"WM_WORKSPACE", TEXT, list)?;
    push_column(alloc, source, b"WM_LOCKMODE", TEXT, list)?;
    push_column(alloc, source, b"WM_USERNAME", TEXT, list)?;
    Ok(())
}

/// The columns of locks: the key columns, WM_VALID where there is valid time, and what is told of each lock.
fn lock_columns(alloc: Global, source: &Name, table: &Table) -> Result<Columns, Memory>
    ensures { IfOk result (λ columns. columns ≡ lock_columns source.now table.now) }
{
    let mut list = key_columns(alloc, source, table)?;
    push_valid(alloc, source, table.valid, &mut list)?;
    push_locked(alloc, source, &mut list)?;
    Ok(Columns::from_vec(list))
}

/// The columns of what is shown of the table, as a source of that name.
pub fn columns_of_view(
    alloc: Global,
    view: View,
    source: &Name,
    table: &Table,
) -> Result<Columns, Memory>
    ensures { IfOk result (λ columns. columns ≡ columns_of_view view source.now table.now) }
{
    match view {
        View::Rows => columns_of_table(alloc, source, table),
        View::Conflicts => conflict_columns(alloc, source, table),
        View::Differences => difference_columns(alloc, source, table),
        View::History => history_columns(alloc, source, table),
        View::Locks => lock_columns(alloc, source, table),
    }
}
