//! Ids under keys.

ghost use Rattle.std.specs.Prelude.{◌≡◌, unwrap_or, ℕ, ◌==◌, ◌&&◌, List, if◌then◌else◌, IfOk, OnOk};
ghost use Rattle.std.specs.BTreeMap.{IsOrdered};
ghost use Rattle.std.specs.List.Sorted.{IsStrictlySortedBy};
ghost use Rattle.std.specs.Map.{keys_of};
ghost use Rattle.std.specs.Option.{option_copied};
ghost use Rattle.std.specs.Ordering.{is_eq, nat_cmp};
ghost use Rattle.wm_base.specs.Key.{key_order};
ghost use Rattle.wm_base.specs.declared.value.Value.{Value};
ghost use Rattle.wm_ids.specs.Ids.{placed, without, ids_at_position, ids_in, ids_since, keyed_at, last_used, number_ids, piece_ids};

use crate::id_list::IdList;
use std::alloc::Global;
use std::collections::{BTreeMap, BTreeSet};
use wm_base::{Key, Memory};

pub type Ids<K> = BTreeMap<K, IdList>;

pub type TableIds = BTreeMap<u16, Ids<Key>>;

/// Ids by workspace and position: the three, in order.
pub type Positions = BTreeSet<(u32, u64, u64)>;

/// Ids by workspace, and in it by number.
pub type NumberIds = BTreeMap<u32, Ids<u64>>;

/// The ids under a key.
pub fn ids_of<'a, K: Ord>(map: &'a Ids<K>, key: &K) -> &'a [u64]
    ensures { result.now ≡ ids_in K.cmp map.now.entries key.now }
{
    match map.get(key) {
        Some(ids) => ids.as_slice(),
        None => &[],
    }
}

/// Puts an id under a key, where those there ascend.
pub fn add_to<K: Ord + Drop>(alloc: Global, map: &mut Ids<K>, key: K, id: u64) -> Result<(), Memory>
    requires { IsStrictlySortedBy nat_cmp (ids_in K.cmp map.old.entries key) }
    ensures { OnOk result ((q : K) → ids_in K.cmp map.new.entries q ≡ (if is_eq (K.cmp key q) then placed id (ids_in K.cmp map.old.entries key) else ids_in K.cmp map.old.entries q)) }
{
    let ids = map.entry(key)?.or_insert(IdList::new());
    ids.add(alloc, id)
}

/// Takes an id from under a key, where those there ascend. A key that has none left goes.
pub fn drop_from<K: Ord + Drop>(map: &mut Ids<K>, key: &K, id: u64)
    requires { IsStrictlySortedBy nat_cmp (ids_in K.cmp map.old.entries key.now) }
    ensures { (q : K) → ids_in K.cmp map.new.entries q ≡ (if is_eq (K.cmp key.now q) then without id (ids_in K.cmp map.old.entries key.now) else ids_in K.cmp map.old.entries q) }
{
    let Some(ids) = map.get_mut(key) else {
        return;
    };
    ids.remove(id);
    if ids.is_empty() {
        drop(map.remove(key));
    }
}

/// The last key that has ids. A key that has none is not kept, so the very last is looked at alone.
pub fn last_key<K: Ord>(map: &Ids<K>) -> Option<&K>
    ensures last { option_copied result ≡ last_used map.now.entries }
    ensures ordered { IsOrdered K.cmp map.now }
{
    let mut entries = map.iter();
    while let Some((key, ids)) = entries.next_back() {
        if !ids.is_empty() {
            return Some(key);
        }
    }
    None
}

/// Puts an id at a position of a workspace.
pub fn add_at(places: &mut Positions, space: u32, position: u64, id: u64) -> Result<(), Memory>
    ensures { OnOk result ((q : ℕ × ℕ) → ids_at_position places.new.keys q ≡ (if (space == q.0) && (position == q.1) then placed id (ids_at_position places.old.keys q) else ids_at_position places.old.keys q)) }
{
    places.insert((space, position, id))?;
    Ok(())
}

/// Takes an id from a position of a workspace, where it is there.
pub fn drop_at(places: &mut Positions, space: u32, position: u64, id: u64)
    ensures { (q : ℕ × ℕ) → ids_at_position places.new.keys q ≡ (if (space == q.0) && (position == q.1) then without id (ids_at_position places.old.keys q) else ids_at_position places.old.keys q) }
{
    places.remove(&(space, position, id));
}

/// The ids at a position of a workspace or behind it, by position. Those of a workspace stand together.
pub fn ids_since(
    alloc: Global,
    places: &Positions,
    space: u32,
    from: u64,
) -> Result<Vec<u64>, Memory>
    ensures { IfOk result (λ ids. ids.items ≡ ids_since places.now.keys space from) }
{
    let mut ids = Vec::new(alloc);
    for place in places.range((space, from, 0)..) {
        if place.0 != space {
            return Ok(ids);
        }
        ids.push(place.2)?;
    }
    Ok(ids)
}

/// The ids under a table and a key.
pub fn ids_on<'a>(tables: &'a TableIds, table: u16, key: &Key) -> &'a [u64]
    ensures { result.now ≡ piece_ids tables.now.entries table key.now }
{
    match tables.get(&table) {
        Some(keys) => ids_of(keys, key),
        None => &[],
    }
}

/// Puts an id under a table and a key, where those there ascend.
pub fn add_on(
    alloc: Global,
    tables: &mut TableIds,
    table: u16,
    key: &Key,
    id: u64,
) -> Result<(), Memory>
    requires { IsStrictlySortedBy nat_cmp (piece_ids tables.old.entries table key.now) }
    ensures { OnOk result ((t : ℕ) (k : List Value) → piece_ids tables.new.entries t k ≡ (if (table == t) && is_eq (key_order key.now k) then placed id (piece_ids tables.old.entries t k) else piece_ids tables.old.entries t k)) }
{
    let keys = tables.entry(table)?.or_insert(BTreeMap::new(alloc));
    add_to(alloc, keys, key.copy(alloc)?, id)
}

/// Takes an id from under a table and a key, where those there ascend.
pub fn drop_on(tables: &mut TableIds, table: u16, key: &Key, id: u64)
    requires { IsStrictlySortedBy nat_cmp (piece_ids tables.old.entries table key.now) }
    ensures { (t : ℕ) (k : List Value) → piece_ids tables.new.entries t k ≡ (if (table == t) && is_eq (key_order key.now k) then without id (piece_ids tables.old.entries t k) else piece_ids tables.old.entries t k) }
{
    if let Some(keys) = tables.get_mut(&table) {
        drop_from(keys, key, id);
    }
}

/// Puts an id under a workspace and a number, where those there ascend.
pub fn add_in(
    alloc: Global,
    spaces: &mut NumberIds,
    space: u32,
    number: u64,
    id: u64,
) -> Result<(), Memory>
    requires { IsStrictlySortedBy nat_cmp (number_ids spaces.old.entries space number) }
    ensures { OnOk result ((s n : ℕ) → number_ids spaces.new.entries s n ≡ (if (space == s) && (number == n) then placed id (number_ids spaces.old.entries s n) else number_ids spaces.old.entries s n)) }
{
    let numbers = spaces.entry(space)?.or_insert(BTreeMap::new(alloc));
    add_to(alloc, numbers, number, id)
}

/// Takes an id from under a workspace and a number, where those there ascend. A workspace that has none left goes.
pub fn drop_in(spaces: &mut NumberIds, space: u32, number: u64, id: u64)
    requires { IsStrictlySortedBy nat_cmp (number_ids spaces.old.entries space number) }
    ensures { (s n : ℕ) → number_ids spaces.new.entries s n ≡ (if (space == s) && (number == n) then without id (number_ids spaces.old.entries s n) else number_ids spaces.old.entries s n) }
{
    let Some(numbers) = spaces.get_mut(&space) else {
        return;
    };
    drop_from(numbers, &number, id);
    if numbers.is_empty() {
        drop(spaces.remove(&space));
    }
}

/// The last number of a workspace that has ids, 0 where none has.
pub fn last_in(spaces: &NumberIds, space: u32) -> u64
    ensures last { result ≡ unwrap_or (last_used (keyed_at spaces.now.entries space)) 0 }
    ensures ordered { IsStrictlySortedBy nat_cmp (keys_of (keyed_at spaces.now.entries space)) }
{
    match spaces.get(&space) {
        Some(numbers) => last_key(numbers).copied().unwrap_or(0),
        None => 0,
    }
}
