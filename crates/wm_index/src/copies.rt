//! Copies of tables.
ghost use Rattle.std.specs.Prelude.{◌≡◌, IfOk};

use std::alloc::Global;
use wm_base::Memory;
use wm_spec::record::{KeyColumns, Table, TableColumn, TableColumns};

/// A copy of a column.
fn column_copy(alloc: Global, column: &TableColumn) -> Result<TableColumn, Memory>
    ensures { IfOk result (λ new. new ≡ column.now) }
{
    let name = column.name.copy(alloc)?;
    Ok(TableColumn {
        name,
        kind: column.kind,
        size: column.size,
        not_null: column.not_null,
    })
}

/// A copy of some columns.
fn column_copies(alloc: Global, columns: &TableColumns) -> Result<TableColumns, Memory>
    ensures { IfOk result (λ new. new ≡ columns.now) }
{
    let mut copies = TableColumns::new(alloc);
    for column in columns.as_slice() {
        copies.push(column_copy(alloc, column)?)?;
    }
    Ok(copies)
}

/// A copy of the places of key columns.
fn key_copy(alloc: Global, places: &KeyColumns) -> Result<KeyColumns, Memory>
    ensures { IfOk result (λ new. new ≡ places.now) }
{
    let mut copies = KeyColumns::new(alloc);
    for place in places.as_slice() {
        copies.push(*place)?;
    }
    Ok(copies)
}

/// A copy of a table.
pub fn table_copy(alloc: Global, table: &Table) -> Result<Table, Memory>
    ensures { IfOk result (λ new. new ≡ table.now) }
{
    let name = table.name.copy(alloc)?;
    let key_columns = key_copy(alloc, &table.key_columns)?;
    let columns = column_copies(alloc, &table.columns)?;
    Ok(Table {
        number: table.number,
        name,
        versioned: table.versioned,
        valid: table.valid,
        history: table.history,
        key_columns,
        columns,
    })
}
