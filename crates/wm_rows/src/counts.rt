//! How many versions store pieces of each key. By it the keys of a table are told without going over versions.

ghost use Rattle.std.specs.Prelude.{◌≡◌, ℕ, ◌==◌, ◌&&◌, ◌<◌, ◌≤◌, ◌+◌, ◌-◌, ◌^◌, List, Some, if◌then◌else◌, IfOk, OnOk, OnErr, unwrap_or};
ghost use Rattle.std.specs.BTreeMap.{is_at};
ghost use Rattle.std.specs.List.Sorted.{IsStrictlySortedBy};
ghost use Rattle.std.specs.Map.{keys_of, lookup};
ghost use Rattle.std.specs.Ordering.{is_eq};
ghost use Rattle.wm_base.specs.Key.{key_order};
ghost use Rattle.wm_base.specs.declared.value.Value.{Value};
ghost use Rattle.wm_rows.specs.Counts.{entry_at, count_at, positive, stores};
ghost use Rattle.wm_rows.specs.Maps.{maps_of, map_at};

use crate::layer::Layer;
use std::alloc::Global;
use std::collections::BTreeMap;
use wm_base::{Key, Memory};

pub type KeyCounts = BTreeMap<Key, u64>;

pub type Counts = BTreeMap<u16, KeyCounts>;

/// The count of a key, 0 where it has none.
fn count_of(counts: &Counts, table: u16, key: &Key) -> u64
    ensures { result ≡ count_at (maps_of counts.now.entries) table key.now }
{
    match counts.get(&table) {
        Some(keys) => keys.get(key).copied().unwrap_or(0),
        None => 0,
    }
}

/// Sets the count of a key.
fn set_count(keys: &mut KeyCounts, key: Key, count: u64) -> Result<(), Memory>
    ensures ok { OnOk result ((q : List Value) → lookup (is_at (key_order q)) keys.new.entries ≡ (if is_eq (key_order key q) then Some count else lookup (is_at (key_order q)) keys.old.entries)) }
    ensures err { OnErr result (keys.new.entries ≡ keys.old.entries) }
{
    keys.insert(key, count)?;
    Ok(())
}

/// Counts one version more that stores pieces of a key.
pub fn count_more(alloc: Global, counts: &mut Counts, table: u16, key: &Key) -> Result<(), Memory>
    requires { count_at (maps_of counts.old.entries) table key.now < 2 ^ 63 }
    ensures ok { OnOk result ((t : ℕ) (k : List Value) → entry_at (maps_of counts.new.entries) t k ≡ (if (table == t) && is_eq (key_order key.now k) then Some (count_at (maps_of counts.old.entries) table key.now + 1) else entry_at (maps_of counts.old.entries) t k)) }
    ensures err { OnErr result (maps_of counts.new.entries ≡ maps_of counts.old.entries) }
{
    let count = count_of(counts, table, key) + 1;
    let key = key.copy(alloc)?;
    if let Some(keys) = counts.get_mut(&table) {
        return set_count(keys, key, count);
    }
    let mut keys = BTreeMap::new(alloc);
    set_count(&mut keys, key, count)?;
    counts.insert(table, keys)?;
    Ok(())
}

/// Takes one from the count of a key, which goes where nothing is left of it.
fn lower_count(keys: &mut KeyCounts, key: &Key)
    ensures { (q : List Value) → lookup (is_at (key_order q)) keys.new.entries ≡ (if is_eq (key_order key.now q) then positive (unwrap_or (lookup (is_at (key_order key.now)) keys.old.entries) 0 - 1) else lookup (is_at (key_order q)) keys.old.entries) }
{
    let count = keys.get(key).copied().unwrap_or(0);
    if count <= 1 {
        let _ = keys.remove(key);
        return;
    }
    if let Some(slot) = keys.get_mut(key) {
        *slot = count - 1;
    }
}

/// Counts one version less that stores pieces of a key.
pub fn count_less(counts: &mut Counts, table: u16, key: &Key)
    ensures { (t : ℕ) (k : List Value) → entry_at (maps_of counts.new.entries) t k ≡ (if (table == t) && is_eq (key_order key.now k) then positive (count_at (maps_of counts.old.entries) table key.now - 1) else entry_at (maps_of counts.old.entries) t k) }
{
    if let Some(keys) = counts.get_mut(&table) {
        lower_count(keys, key);
    }
}

/// Counts one version less for each row of a layer.
pub fn count_layer_less(counts: &mut Counts, layer: &Layer)
    requires positive { (t : ℕ) (k : List Value) → entry_at (maps_of counts.old.entries) t k ≡ positive (count_at (maps_of counts.old.entries) t k) }
    requires enough { (t : ℕ) (k : List Value) → stores (record { table = t; key = k }) layer.now.entries ≤ count_at (maps_of counts.old.entries) t k }
    ensures positive { (t : ℕ) (k : List Value) → entry_at (maps_of counts.new.entries) t k ≡ positive (count_at (maps_of counts.new.entries) t k) }
    ensures less { (t : ℕ) (k : List Value) → count_at (maps_of counts.new.entries) t k + stores (record { table = t; key = k }) layer.now.entries ≡ count_at (maps_of counts.old.entries) t k }
{
    for row in layer.keys() {
        count_less(counts, row.table, &row.key);
    }
}

/// The keys that have a count in a table.
pub fn counted_keys(alloc: Global, counts: &Counts, table: u16) -> Result<Vec<Key>, Memory>
    ensures keys { IfOk result (λ keys. keys.items ≡ keys_of (map_at (maps_of counts.now.entries) table)) }
    ensures ascending { IfOk result (λ keys. IsStrictlySortedBy key_order keys.items) }
{
    match counts.get(&table) {
        Some(keys) => copies_of(alloc, keys),
        None => Ok(Vec::new(alloc)),
    }
}

/// A copy of each key that has a count.
fn copies_of(alloc: Global, counts: &KeyCounts) -> Result<Vec<Key>, Memory>
    ensures keys { IfOk result (λ keys. keys.items ≡ keys_of counts.now.entries) }
    ensures ascending { IfOk result (λ keys. IsStrictlySortedBy key_order keys.items) }
{
    let mut keys = Vec::new(alloc);
    for key in counts.keys() {
        keys.push(key.copy(alloc)?)?;
    }
    Ok(keys)
}
