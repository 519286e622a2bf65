//! Records under their ids, with the index of them, changed one by one and by batches.

ghost use Rattle.std.specs.Prelude.{◌≡◌, [], false, IfOk, OnOk};
ghost use Rattle.wm_chunks.specs.Numbers.{AreOrdered, Numbers};
ghost use Rattle.wm_graph.specs.Parts.{parts_of};
ghost use Rattle.wm_state.specs.ById.{applied, set_at};
ghost use Rattle.wm_index.specs.Indexed.{listed, IsIndexed};
ghost use Rattle.wm_records.specs.Cataloged.{IsCatalog};
ghost use Rattle.wm_records.specs.Hops.{AreHops};
ghost use Rattle.wm_spec.specs.declared.record.Record.{Record as OneRecord};

use crate::hops::Hops;
use crate::tables::catalog_of;
use std::alloc::Global;
use std::mem::replace;
use wm_base::Memory;
use wm_catalog::Catalog;
use wm_chunks::NumberMap;
use wm_index::index::Index;
use wm_index::kinds::version_of;
use wm_index::records::{Kept, add_new, at, drop_old, is_either};
use wm_spec::record::{Changes, Record};

/// Sets what becomes of an id.
fn set(kept: &mut Kept, id: u64, becomes: Option<Record>) -> Result<(), Memory>
    requires { AreOrdered kept.old.entries }
    ensures listed { OnOk result (listed kept.new.entries ≡ set_at id becomes (listed kept.old.entries)) }
    ensures ordered { OnOk result (AreOrdered kept.new.entries) }
{
    match becomes {
        Some(new) => {
            let before = kept.insert(id, new)?;
            drop(before);
        }
        None => {
            drop(kept.remove(id));
        }
    }
    Ok(())
}

/// Makes the index and the hops those of the records that stand when one comes under an id, or none: the old one goes
/// from them, the new one comes. Tells whether a table was or is there.
fn reindex(
    alloc: Global,
    kept: &Kept,
    index: &mut Index,
    hops: &mut Hops,
    id: u64,
    becomes: &Option<Record>,
) -> Result<bool, Memory>
    requires indexed { IsIndexed kept.now index.old }
    requires hops { AreHops (parts_of (listed kept.now.entries)).versions hops.old }
    ensures indexed { OnOk result ((next : Numbers OneRecord) → AreOrdered next.entries → listed next.entries ≡ set_at id becomes.now (listed kept.now.entries) → IsIndexed next index.new) }
    ensures tables { IfOk result (λ touched. touched ≡ false → (parts_of (set_at id becomes.now (listed kept.now.entries))).tables ≡ (parts_of (listed kept.now.entries)).tables) }
    ensures hops { OnOk result (AreHops (parts_of (set_at id becomes.now (listed kept.now.entries))).versions hops.new) }
{
    let found = at(kept, id);
    let stood = drop_old(index, id, found);
    let stands = add_new(alloc, index, id, becomes)?;
    hops.follow(version_of(found), version_of(becomes.as_ref()))?;
    Ok(is_either(stood, stands))
}

/// Changes what stands under an id, and the index and the hops with it, and tells whether a table was or is there.
fn change_one(
    alloc: Global,
    kept: &mut Kept,
    index: &mut Index,
    hops: &mut Hops,
    id: u64,
    becomes: Option<Record>,
) -> Result<bool, Memory>
    requires indexed { IsIndexed kept.old index.old }
    requires hops { AreHops (parts_of (listed kept.old.entries)).versions hops.old }
    ensures listed { OnOk result (listed kept.new.entries ≡ set_at id becomes (listed kept.old.entries)) }
    ensures indexed { OnOk result (IsIndexed kept.new index.new) }
    ensures tables { IfOk result (λ touched. touched ≡ false → (parts_of (listed kept.new.entries)).tables ≡ (parts_of (listed kept.old.entries)).tables) }
    ensures hops { OnOk result (AreHops (parts_of (listed kept.new.entries)).versions hops.new) }
{
    match reindex(alloc, kept, index, hops, id, &becomes) {
        Ok(touched) => {
            set(kept, id, becomes)?;
            Ok(touched)
        }
        Err(fault) => {
            drop(becomes);
            Err(fault)
        }
    }
}

/// Makes the changes of a batch, one after another, and tells whether a table was or is under one of their ids.
fn change_all(
    alloc: Global,
    kept: &mut Kept,
    index: &mut Index,
    hops: &mut Hops,
    changes: Changes,
) -> Result<bool, Memory>
    requires indexed { IsIndexed kept.old index.old }
    requires hops { AreHops (parts_of (listed kept.old.entries)).versions hops.old }
    ensures listed { OnOk result (listed kept.new.entries ≡ applied changes (listed kept.old.entries)) }
    ensures indexed { OnOk result (IsIndexed kept.new index.new) }
    ensures tables { IfOk result (λ touched. touched ≡ false → (parts_of (listed kept.new.entries)).tables ≡ (parts_of (listed kept.old.entries)).tables) }
    ensures hops { OnOk result (AreHops (parts_of (listed kept.new.entries)).versions hops.new) }
{
    let mut touched = false;
    for one in changes.into_vec() {
        let changed = change_one(alloc, kept, index, hops, one.id, one.becomes)?;
        touched = is_either(changed, touched);
    }
    Ok(touched)
}

/// Makes the changes of a batch, one after another, and then the catalog anew where a table was or is under one of
/// their ids.
pub fn apply_all(
    alloc: Global,
    kept: &mut Kept,
    index: &mut Index,
    hops: &mut Hops,
    catalog: &mut Catalog,
    changes: Changes,
) -> Result<(), Memory>
    requires indexed { IsIndexed kept.old index.old }
    requires hops { AreHops (parts_of (listed kept.old.entries)).versions hops.old }
    requires tables { IsCatalog (listed kept.old.entries) catalog.old }
    ensures listed { OnOk result (listed kept.new.entries ≡ applied changes (listed kept.old.entries)) }
    ensures indexed { OnOk result (IsIndexed kept.new index.new) }
    ensures hops { OnOk result (AreHops (parts_of (listed kept.new.entries)).versions hops.new) }
    ensures tables { OnOk result (IsCatalog (listed kept.new.entries) catalog.new) }
{
    let touched = change_all(alloc, kept, index, hops, changes)?;
    if touched {
        let made = catalog_of(alloc, kept, index)?;
        drop(replace(catalog, made));
    }
    Ok(())
}

/// Takes all records out, with all that is known of them.
pub fn clear_all(
    alloc: Global,
    kept: &mut Kept,
    index: &mut Index,
    hops: &mut Hops,
    catalog: &mut Catalog,
)
    ensures empty { listed kept.new.entries ≡ [] }
    ensures indexed { IsIndexed kept.new index.new }
    ensures hops { AreHops (parts_of (listed kept.new.entries)).versions hops.new }
    ensures tables { IsCatalog (listed kept.new.entries) catalog.new }
{
    drop(replace(kept, NumberMap::new(alloc)));
    drop(replace(index, Index::new(alloc)));
    drop(replace(hops, Hops::new(alloc)));
    drop(replace(catalog, Catalog::new(alloc)));
}
