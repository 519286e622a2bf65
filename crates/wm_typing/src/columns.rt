//! The columns of a table, as statements name them.
ghost use Rattle.std.specs.Prelude.{◌≡◌, ◌++◌, map, IfOk, OnOk, ◌∷◌, [], if◌then◌else◌};
ghost use Rattle.wm_graph.specs.Rules.{type_of};
ghost use Rattle.wm_typing.specs.Columns.{columns_of_table, declared_column, valid_column};

use std::alloc::Global;
use wm_base::{Memory, Name};
use wm_listing::columns::{NUMBER, PERIOD, TEXT, TIME};
use wm_listing::{Column, Columns};
use wm_spec::record::{ColumnKind, Table, TableColumn};

/// The kind of a declared column, as conditions have it.
fn kind_of(kind: ColumnKind) -> u8
    ensures { result ≡ type_of kind }
{
    match kind {
        ColumnKind::Number => NUMBER,
        ColumnKind::Text => TEXT,
        ColumnKind::Time => TIME,
    }
}

/// A declared column, of a source of that name.
fn declared_column(alloc: Global, source: &Name, column: &TableColumn) -> Result<Column, Memory>
    ensures { IfOk result (λ made. made ≡ declared_column source.now column.now) }
{
    Ok(Column {
        source: source.copy(alloc)?,
        name: column.name.copy(alloc)?,
        kind: kind_of(column.kind),
    })
}

/// The column of the periods of validity, of a source of that name.
pub fn valid_column(alloc: Global, source: &Name) -> Result<Column, Memory>
    ensures { IfOk result (λ made. made ≡ valid_column source.now) }
{
    Ok(Column {
        source: source.copy(alloc)?,
        name: Name::copy_of(alloc, b"WM_VALID")?,
        kind: PERIOD,
    })
}

fn declared_columns(
    alloc: Global,
    source: &Name,
    columns: &[TableColumn],
) -> Result<Vec<Column>, Memory>
    ensures { IfOk result (λ made. made.items ≡ map (declared_column source.now) columns.now) }
{
    let mut list = Vec::new(alloc);
    for column in columns {
        list.push(declared_column(alloc, source, column)?)?;
    }
    Ok(list)
}

/// Adds WM_VALID, where there is valid time.
fn push_valid(
    alloc: Global,
    source: &Name,
    valid: bool,
    list: &mut Vec<Column>,
) -> Result<(), Memory>
    ensures { OnOk result (list.new.items ≡ list.old.items ++ (if valid then valid_column source.now ∷ [] else [])) }
{
    if valid {
        list.push(valid_column(alloc, source)?)?;
    }
    Ok(())
}

/// The columns of the table, as a source of that name: the declared ones in order, and then WM_VALID where the table has
/// valid time.
pub fn columns_of_table(alloc: Global, source: &Name, table: &Table) -> Result<Columns, Memory>
    ensures { IfOk result (λ columns. columns ≡ columns_of_table source.now table.now) }
{
    let mut list = declared_columns(alloc, source, table.columns.as_slice())?;
    push_valid(alloc, source, table.valid, &mut list)?;
    Ok(Columns::from_vec(list))
}
