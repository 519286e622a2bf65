//! What the columns and the key of a new table are refused for.
ghost use Rattle.std.specs.Prelude.{◌≡◌, ◌≤◌, [], if◌then◌else◌, IfOk, option_copied};
ghost use Rattle.std.specs.List.{list_any};
ghost use Rattle.wm_making.specs.Creating.{declares, bad_column as bad_name_of, bad_columns as bad_name_in, columns_in as count_columns, keys_in as count_keys, too_many as most, shape_fault as fault_of_shape};

use crate::misplaced::{is_declared, misplaced};
use std::alloc::Global;
use wm_base::{FormRefusal, Memory, Name, Refusal};
use wm_syntax::statement::{CreateItem, CreateItems};

/// The most columns of a table.
const MOST_COLUMNS: usize = 32;

/// The name, where one of the items declares a column of this name.
fn declared_again<'a>(name: &'a Name, before: &[CreateItem]) -> Option<&'a Name>
    ensures { option_copied result ≡ (if list_any (declares name.now) before.now then Some name.now else None) }
{
    if is_declared(name, before) {
        Some(name)
    } else {
        None
    }
}

/// The first name of an item of the table that is bad behind the items before it: it is declared for the second time,
/// or the key names no column of the table, or one for the second time.
fn bad_column<'a>(
    table: &CreateItems,
    before: &[CreateItem],
    item: &'a CreateItem,
) -> Option<&'a Name>
    ensures { option_copied result ≡ bad_name_of table.now before.now item.now }
{
    match item {
        CreateItem::Column { name, .. } => declared_again(name, before),
        CreateItem::Primary { columns, .. } => misplaced(table, columns.as_slice()),
    }
}

/// The first bad name of the items.
fn bad_columns(table: &CreateItems) -> Option<&Name>
    ensures { option_copied result ≡ bad_name_in table.now [] table.now }
{
    let items = table.as_slice();
    for (place, item) in items.iter().enumerate() {
        if let Some(name) = bad_column(table, &items[..place], item) {
            return Some(name);
        }
    }
    None
}

/// How many columns the item declares.
fn columns_in(item: &CreateItem) -> usize
    ensures value { result ≡ count_columns item.now }
    ensures few { result ≤ 1 }
{
    match item {
        CreateItem::Column { .. } => 1,
        CreateItem::Primary { .. } => 0,
    }
}

/// How many columns the item puts into the key.
fn keys_in(item: &CreateItem) -> usize
    ensures { result ≡ count_keys item.now }
{
    match item {
        CreateItem::Column { primary: true, .. } => 1,
        CreateItem::Column { primary: false, .. } => 0,
        CreateItem::Primary { columns, .. } => columns.as_slice().len(),
    }
}

/// How many columns there may be, where there are too many, or how many in the key.
fn too_many(items: &[CreateItem]) -> Option<u64>
    ensures { result ≡ most 0 0 items.now }
{
    let mut columns = 0;
    let mut keyed = false;
    for item in items {
        columns += columns_in(item);
        if columns > MOST_COLUMNS {
            return Some(MOST_COLUMNS as u64);
        }
        match keys_in(item) {
            0 => {}
            1 if !keyed => keyed = true,
            _ => return Some(1),
        }
    }
    if columns == 0 { Some(1) } else { None }
}

/// What a new table is refused for by its columns and its key.
#[tactic(auto, unfolding(crate::specs::Creating::shape_fault))]
pub fn shape_fault(alloc: Global, items: &CreateItems) -> Result<Option<Refusal>, Memory>
    ensures { IfOk result (λ refusal. refusal ≡ fault_of_shape items.now) }
{
    if let Some(name) = bad_columns(items) {
        return Ok(Some(Refusal::Form(FormRefusal::Wm012(name.copy(alloc)?))));
    }
    match too_many(items.as_slice()) {
        Some(count) => Ok(Some(Refusal::Form(FormRefusal::Wm014(count)))),
        None => Ok(None),
    }
}
