//! The tables in the order of their numbers, by name in a catalog, and the number after theirs.

ghost use Rattle.std.specs.Prelude.{◌≡◌, ◌≤◌, length, insert, IfOk};
ghost use Rattle.std.specs.Option.{option_copied};
ghost use Rattle.wm_graph.specs.Parts.{as_table};
ghost use Rattle.wm_index.specs.Indexed.{IsIndexed, listed};
ghost use Rattle.wm_index.specs.Kinds.{kind_at};
ghost use Rattle.wm_records.specs.Cataloged.{IsCatalog};
ghost use Rattle.wm_records.specs.Cataloged.{past};
ghost use Rattle.wm_state.specs.Standing.{by_number, place_table};
ghost use Rattle.wm_state.specs.State.{next_table};

use std::alloc::Global;
use wm_base::Memory;
use wm_catalog::Catalog;
use wm_index::index::Index;
use wm_index::kinds::table_of;
use wm_index::records::{Kept, at};
use wm_index::tables::copies_at;
use wm_spec::record::Table;

/// The place of a table among others that stand by number: before the first whose number is not smaller.
fn place_of(tables: &[Table], table: &Table) -> usize
    ensures within { result ≤ length tables.now }
    ensures there { insert tables.now result table.now ≡ place_table table.now tables.now }
{
    for (place, other) in tables.iter().enumerate() {
        if table.number <= other.number {
            return place;
        }
    }
    tables.len()
}

/// Tables in the order of their numbers.
fn sorted(alloc: Global, tables: Vec<Table>) -> Result<Vec<Table>, Memory>
    ensures { IfOk result (λ sorted. sorted.items ≡ by_number tables.items) }
{
    let mut left = tables;
    let mut sorted = Vec::with_capacity(alloc, left.len())?;
    while let Some(table) = left.pop() {
        let place = place_of(sorted.as_slice(), &table);
        sorted.insert(place, table)?;
    }
    Ok(sorted)
}

/// The tables by name, in the order of their numbers.
pub fn catalog_of(alloc: Global, kept: &Kept, index: &Index) -> Result<Catalog, Memory>
    requires { IsIndexed kept.now index.now }
    ensures { IfOk result (λ catalog. IsCatalog (listed kept.now.entries) catalog) }
{
    let tables = copies_at(alloc, kept, index.tables.as_slice())?;
    let tables = sorted(alloc, tables)?;
    let catalog = Catalog::from_tables(alloc, tables)?;
    Ok(catalog)
}

/// The greater of a number and the one after that of a table, where there is one.
fn past(number: u32, found: Option<&Table>) -> u32
    ensures { result ≡ past number (option_copied found.entry) }
{
    match found {
        Some(table) => number.max(u32::from(table.number) + 1),
        None => number,
    }
}

/// The number after the greatest of some tables, 0 where there is none.
pub fn after_last(kept: &Kept, ids: &[u64]) -> u32
    ensures { result ≡ next_table (kind_at as_table (listed kept.now.entries) ids.now) }
{
    let mut next = 0;
    for id in ids {
        next = past(next, table_of(at(kept, *id)));
    }
    next
}
