//! What the names are refused for that CREATE TABLE would make.
ghost use Rattle.std.specs.Prelude.{◌≡◌, IfOk, option_copied};
ghost use Rattle.std.specs.List.{list_all};
ghost use Rattle.wm_graph.specs.Rules.{is_short as short};
ghost use Rattle.wm_making.specs.Creating.{declares_short as item_is_short, names_view as view_name, names_own_column as own_name, own_column as first_own, reserved_name as first_reserved, names_fault as fault_of_names};

use std::alloc::Global;
use wm_base::{FormRefusal, Memory, Name, Refusal, SpaceRefusal};
use wm_syntax::statement::{CreateItem, CreateItems};

/// The most bytes of a name.
const LONGEST: usize = 30;

fn is_short(name: &Name) -> bool
    ensures { result ≡ short name.now }
{
    name.len() <= LONGEST
}

/// Whether the item declares no column of a longer name.
fn declares_short(item: &CreateItem) -> bool
    ensures { result ≡ item_is_short item.now }
{
    match item {
        CreateItem::Column { name, .. } => is_short(name),
        CreateItem::Primary { .. } => true,
    }
}

fn all_declare_short(items: &[CreateItem]) -> bool
    ensures { result ≡ list_all item_is_short items.now }
{
    items.iter().all(|item| declares_short(item))
}

/// Whether it is how the name of a view ends.
fn names_view(name: &[u8]) -> bool
    ensures { result ≡ view_name name.now }
{
    name.ends_with(b"_CONF")
        || name.ends_with(b"_DIFF")
        || name.ends_with(b"_HIST")
        || name.ends_with(b"_LOCK")
}

/// Whether it is how the names of the product's own columns begin.
fn names_own_column(name: &[u8]) -> bool
    ensures { result ≡ own_name name.now }
{
    name.starts_with(b"WM_")
}

/// The first column that is declared under such a name.
fn own_column(items: &[CreateItem]) -> Option<&Name>
    ensures { option_copied result ≡ first_own items.now }
{
    for item in items {
        if let CreateItem::Column { name, .. } = item {
            if names_own_column(name.as_bytes()) {
                return Some(name);
            }
        }
    }
    None
}

/// The first reserved name: that of the table, or of a column.
fn reserved_name<'a>(table: &'a Name, items: &'a [CreateItem]) -> Option<&'a Name>
    ensures { option_copied result ≡ first_reserved table.now items.now }
{
    if names_view(table.as_bytes()) {
        return Some(table);
    }
    own_column(items)
}

/// What a new table is refused for by its own name and those of its columns.
#[tactic(auto, unfolding(crate::specs::Creating::names_fault))]
pub fn names_fault(
    alloc: Global,
    name: &Name,
    items: &CreateItems,
) -> Result<Option<Refusal>, Memory>
    ensures { IfOk result (λ refusal. refusal ≡ fault_of_names name.now items.now) }
{
    let items = items.as_slice();
    if !is_short(name) || !all_declare_short(items) {
        return Ok(Some(Refusal::Form(FormRefusal::Wm016(LONGEST as u64))));
    }
    match reserved_name(name, items) {
        Some(reserved) => Ok(Some(Refusal::Space(SpaceRefusal::Wm024(reserved.copy(alloc)?)))),
        None => Ok(None),
    }
}
