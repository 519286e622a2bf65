//! Ids in sets under keys: for what may be many, of which any may go.

ghost use Rattle.std.specs.Prelude.{◌≡◌, if◌then◌else◌, OnOk};
ghost use Rattle.std.specs.Ordering.{is_eq};
ghost use Rattle.wm_ids.specs.Ids.{ids_among, placed, without};

use std::alloc::Global;
use std::collections::{BTreeMap, BTreeSet};
use wm_base::Memory;

pub type IdSets<K> = BTreeMap<K, BTreeSet<u64>>;

/// Puts an id in a set.
fn put_in(ids: &mut BTreeSet<u64>, id: u64) -> Result<(), Memory>
    ensures { OnOk result (ids.new.keys ≡ placed id ids.old.keys) }
{
    ids.insert(id)?;
    Ok(())
}

/// Takes an id out of a set, where it is there.
fn take_from(ids: &mut BTreeSet<u64>, id: u64)
    ensures { ids.new.keys ≡ without id ids.old.keys }
{
    ids.remove(&id);
}

/// Puts an id in the set under a key.
pub fn add_among<K: Ord + Drop>(
    alloc: Global,
    map: &mut IdSets<K>,
    key: K,
    id: u64,
) -> Result<(), Memory>
    ensures { OnOk result ((q : K) → ids_among K.cmp map.new.entries q ≡ (if is_eq (K.cmp key q) then placed id (ids_among K.cmp map.old.entries key) else ids_among K.cmp map.old.entries q)) }
{
    let ids = map.entry(key)?.or_insert(BTreeSet::new(alloc));
    put_in(ids, id)
}

/// Takes an id out of the set under a key. A key that has none left goes.
pub fn drop_among<K: Ord + Drop>(map: &mut IdSets<K>, key: &K, id: u64)
    ensures { (q : K) → ids_among K.cmp map.new.entries q ≡ (if is_eq (K.cmp key.now q) then without id (ids_among K.cmp map.old.entries key.now) else ids_among K.cmp map.old.entries q) }
{
    let Some(ids) = map.get_mut(key) else {
        return;
    };
    take_from(ids, id);
    if ids.is_empty() {
        drop(map.remove(key));
    }
}
