//! The table that CREATE TABLE makes.
ghost use Rattle.std.specs.Prelude.{◌≡◌, ◌≤◌, true, None, length, IfOk, option_copied};
ghost use Rattle.std.specs.List.{position};
ghost use Rattle.wm_graph.specs.Rules.{is_table};
ghost use Rattle.wm_spec.specs.declared.record.column.TableColumn.{TableColumn as ColumnOf};
ghost use Rattle.wm_making.specs.Creating.{key_name as name_of_key, kind_of as kind_of_type, size_of as size_of_type, is_key as names_key, columns_of as columns_of_items, key_place as place_of_key, key_places as places_of_key, names_fault, shape_fault, table_of as table_of_items};

use std::alloc::Global;
use wm_base::{Memory, Name};
use wm_spec::record::{ColumnKind, KeyColumns, Table, TableColumn, TableColumns};
use wm_syntax::statement::{ColumnType, CreateItem, CreateItems};

/// The name of the first column of the key.
fn key_name(items: &[CreateItem]) -> Option<&Name>
    ensures { option_copied result ≡ name_of_key items.now }
{
    for item in items {
        match item {
            CreateItem::Column {
                name,
                primary: true,
                ..
            } => return Some(name),
            CreateItem::Column { .. } => {}
            CreateItem::Primary { columns, .. } => {
                if let Some(name) = columns.as_slice().first() {
                    return Some(name);
                }
            }
        }
    }
    None
}

fn kind_of(column_type: ColumnType) -> ColumnKind
    ensures { result ≡ kind_of_type column_type }
{
    match column_type {
        ColumnType::Number => ColumnKind::Number,
        ColumnType::Text(_) => ColumnKind::Text,
        ColumnType::Time => ColumnKind::Time,
    }
}

/// The most bytes of a text.
fn size_of(column_type: ColumnType) -> u16
    ensures { result ≡ size_of_type column_type }
{
    match column_type {
        ColumnType::Number | ColumnType::Time => 0,
        ColumnType::Text(size) => size,
    }
}

/// Whether the key is the column of this name.
fn is_key(key: Option<&Name>, name: &Name) -> bool
    ensures { result ≡ names_key (option_copied key.entry) name.now }
{
    match key {
        Some(key) => key.as_bytes() == name.as_bytes(),
        None => false,
    }
}

/// The columns that the items declare, of which one may be the key.
fn columns_of(
    alloc: Global,
    key: Option<&Name>,
    items: &[CreateItem],
) -> Result<TableColumns, Memory>
    ensures { IfOk result (λ columns. columns ≡ columns_of_items (option_copied key.entry) items.now) }
{
    let mut columns = TableColumns::new(alloc);
    for item in items {
        if let CreateItem::Column {
            name,
            of,
            not_null,
            ..
        } = item
        {
            columns.push(TableColumn {
                name: name.copy(alloc)?,
                kind: kind_of(*of),
                size: size_of(*of),
                not_null: *not_null || is_key(key, name),
            })?;
        }
    }
    Ok(columns)
}

/// The place of the column that is the key.
fn place_of(key: Option<&Name>, columns: &[TableColumn]) -> Option<usize>
    ensures { result ≡ position (λ (c : ColumnOf). names_key (option_copied key.entry) c.name) columns.now }
{
    columns.iter().position(|column| is_key(key, &column.name))
}

/// The place of the key among the columns.
fn key_place(key: Option<&Name>, columns: &[TableColumn]) -> usize
    ensures { result ≡ place_of_key (option_copied key.entry) columns.now }
{
    place_of(key, columns).unwrap_or(0)
}

/// The places of the key columns among the columns, of which there are 1 to 32.
fn key_places(
    alloc: Global,
    key: Option<&Name>,
    columns: &[TableColumn],
) -> Result<KeyColumns, Memory>
    requires some { 1 ≤ length columns.now }
    requires few { length columns.now ≤ 32 }
    ensures { IfOk result (λ places. places ≡ places_of_key (option_copied key.entry) columns.now) }
{
    let mut places = KeyColumns::new(alloc);
    if key.is_some() {
        let place = key_place(key, columns);
        places.push(place as u8)?;
    }
    Ok(places)
}

/// The table that the items declare.
#[tactic(auto, unfolding(crate::specs::Creating::table_of))]
pub fn table_of(
    alloc: Global,
    number: u16,
    name: Name,
    items: &CreateItems,
) -> Result<Table, Memory>
    requires { shape_fault items.now ≡ None }
    ensures table { IfOk result (λ table. table ≡ table_of_items number name items.now) }

    // It is in order, where its names are.
    ensures in_order { IfOk result (λ table. names_fault name items.now ≡ None → is_table table ≡ true) }
{
    let key = key_name(items.as_slice());
    let columns = columns_of(alloc, key, items.as_slice())?;
    let key_columns = key_places(alloc, key, columns.as_slice())?;
    Ok(Table {
        number,
        name,
        versioned: false,
        valid: false,
        history: false,
        key_columns,
        columns,
    })
}
