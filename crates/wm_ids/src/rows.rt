//! The ids of rows by stamp. In a store each stamp has one row, so an id alone is kept for most.

ghost use Rattle.std.specs.Prelude.{◌≡◌, ℕ, ◌==◌, [], if◌then◌else◌, None, Some, OnOk};
ghost use Rattle.std.specs.List.Sorted.{IsStrictlySortedBy};
ghost use Rattle.std.specs.Ordering.{nat_cmp};
ghost use Rattle.wm_chunks.specs.Numbers.{value_at};
ghost use Rattle.wm_ids.specs.Rows.{row_ids};
ghost use Rattle.wm_ids.specs.Ids.{placed, without};
ghost use Rattle.wm_ids.specs.declared.rows.RowIds.{RowIds};

use crate::id_list::IdList;
use crate::keyed::{Ids, add_to, drop_from, ids_of};
use std::alloc::Global;
use std::collections::BTreeMap;
use std::slice::from_ref;
use wm_base::Memory;
use wm_chunks::NumberMap;

/// The id of a stamp that has one, and for a stamp that has no such id those that it has, in ascending order.
#[derive(Drop)]
pub struct RowIds {
    pub one: NumberMap<u64>,
    pub several: Ids<u64>,
}

/// The ids of no rows.
pub fn no_rows(alloc: Global) -> RowIds
    ensures { (stamp : ℕ) → row_ids result stamp ≡ [] }
{
    RowIds {
        one: NumberMap::new(alloc),
        several: BTreeMap::new(alloc),
    }
}

/// The ids of a stamp.
pub fn ids_of_stamp(rows: &RowIds, stamp: u64) -> &[u64]
    ensures { result.now ≡ row_ids rows.now stamp }
{
    match rows.one.get(stamp) {
        Some(id) => from_ref(id),
        None => ids_of(&rows.several, &stamp),
    }
}

/// Puts an id under a stamp that has another alone.
fn add_second(
    alloc: Global,
    rows: &mut RowIds,
    stamp: u64,
    id: u64,
    other: u64,
) -> Result<(), Memory>
    requires { value_at rows.old.one.entries stamp ≡ Some other }
    ensures { OnOk result ((q : ℕ) → row_ids rows.new q ≡ (if stamp == q then placed id (row_ids rows.old q) else row_ids rows.old q)) }
{
    let mut ids = IdList::one(other);
    ids.add(alloc, id)?;
    rows.several.insert(stamp, ids)?;
    let _ = rows.one.remove(stamp);
    Ok(())
}

/// Puts an id under a stamp that has none alone.
fn add_first(alloc: Global, rows: &mut RowIds, stamp: u64, id: u64) -> Result<(), Memory>
    requires none { value_at rows.old.one.entries stamp ≡ None }
    requires ascend { IsStrictlySortedBy nat_cmp (row_ids rows.old stamp) }
    ensures { OnOk result ((q : ℕ) → row_ids rows.new q ≡ (if stamp == q then placed id (row_ids rows.old q) else row_ids rows.old q)) }
{
    if !ids_of(&rows.several, &stamp).is_empty() {
        return add_to(alloc, &mut rows.several, stamp, id);
    }
    rows.one.insert(stamp, id)?;
    Ok(())
}

/// Puts an id under a stamp, where those there ascend.
pub fn add_row(alloc: Global, rows: &mut RowIds, stamp: u64, id: u64) -> Result<(), Memory>
    requires { IsStrictlySortedBy nat_cmp (row_ids rows.old stamp) }
    ensures { OnOk result ((q : ℕ) → row_ids rows.new q ≡ (if stamp == q then placed id (row_ids rows.old q) else row_ids rows.old q)) }
{
    match rows.one.get(stamp).copied() {
        Some(other) => add_second(alloc, rows, stamp, id, other),
        None => add_first(alloc, rows, stamp, id),
    }
}

/// Takes the only id from under a stamp. A list of several may stand there that has none left: it goes too.
fn drop_only(rows: &mut RowIds, stamp: u64, id: u64)
    requires { value_at rows.old.one.entries stamp ≡ Some id }
    ensures { (q : ℕ) → row_ids rows.new q ≡ (if stamp == q then without id (row_ids rows.old q) else row_ids rows.old q) }
{
    let _ = rows.one.remove(stamp);
    drop(rows.several.remove(&stamp));
}

/// Takes an id from under a stamp, where those there ascend.
pub fn drop_row(rows: &mut RowIds, stamp: u64, id: u64)
    requires { IsStrictlySortedBy nat_cmp (row_ids rows.old stamp) }
    ensures { (q : ℕ) → row_ids rows.new q ≡ (if stamp == q then without id (row_ids rows.old q) else row_ids rows.old q) }
{
    match rows.one.get(stamp).copied() {
        Some(other) => {
            if other == id {
                drop_only(rows, stamp, id);
            }
        }
        None => drop_from(&mut rows.several, &stamp, id),
    }
}
