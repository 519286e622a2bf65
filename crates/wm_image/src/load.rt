//! The records of a store, put under their ids with an index of them.
ghost use Rattle.std.specs.Prelude.{◌≡◌, [], map, false, None, Some, IsTrue, IfOk, IfErr, OnOk};
ghost use Rattle.std.specs.List.Sorted.{IsNonDecreasingBy, IsPermutation};
ghost use Rattle.wm_chunks.specs.Numbers.{AreOrdered};
ghost use Rattle.wm_index.specs.Indexed.{IsIndexed, listed};
ghost use Rattle.wm_graph.specs.Parts.{parts_of};
ghost use Rattle.wm_records.specs.Cataloged.{IsCatalog};
ghost use Rattle.wm_records.specs.Hops.{AreHops};
ghost use Rattle.wm_image.specs.declared.load.ImageFault.TheVariants.{Memory as OutOfMemory};
ghost use Rattle.wm_spec.specs.Records.{AreRecords, ids_differ, record_at};
ghost use Rattle.wm_spec.specs.declared.record.stored.Stored.{Stored as OneStored};
ghost use Rattle.wm_state.specs.ById.{Ascend, by_id, set_at};

use crate::indexing::add_all;
use std::alloc::Global;
use wm_base::Memory;
use wm_catalog::Catalog;
use wm_index::index::Index;
use wm_index::kinds::version_of;
use wm_index::records::Kept;
use wm_records::hops::Hops;
use wm_records::tables::catalog_of;
use wm_spec::record::{Records, Stored};

/// Why records make no image.
#[derive(Clone, Copy, Debug, PartialEq)]
pub enum ImageFault {
    /// An id stands in them twice, or they break a rule over all records of a store.
    Graph,
    Memory,
}

impl From<Memory> for ImageFault {
    ghost from_gives = { λ _ e. e ≡ OutOfMemory };

    fn from(_memory: Memory) -> ImageFault {
        ImageFault::Memory
    }
}

/// The records with their ids in order, an id that stands twice beside itself.
fn in_order(records: Records) -> Result<Records, Memory>
    ensures moved { IfOk result (λ ordered. IsPermutation records ordered) }
    ensures ordered { IfOk result (λ ordered. IsNonDecreasingBy (λ (s : OneStored). s.id) ordered) }
{
    let mut list = records.into_vec();
    list.sort_by_key(|one| one.id)?;
    // They were pushed one by one, and stay until each is put under its id.
    list.shrink_to_fit();
    Ok(Records::from_vec(list))
}

/// Whether each id is below the next.
fn ascend(records: &[Stored]) -> bool
    requires { IsNonDecreasingBy (λ (s : OneStored). s.id) records.now }
    ensures up { IsTrue result → Ascend records.now }
    ensures twice { result ≡ false → AreRecords records.now → ⊥ }
{
    records.is_sorted_by(|one, next| one.id < next.id)
}

/// The records in the order of their ids, where no id stands in them twice. Those of a store stand by id but for a few,
/// and a sort leaves what is in order in its place.
pub fn sorted(records: Records) -> Result<Records, ImageFault>
    ensures by_id { IfOk result (λ sorted. sorted ≡ by_id records) }
    ensures ascend { IfOk result (λ sorted. Ascend sorted) }
    ensures differ { IfOk result (λ sorted. AreRecords records) }
    ensures twice { IfErr result (λ fault. fault ≡ ImageFault.Graph → ids_differ (map (λ (s : OneStored). s.id) records) ≡ false) }
{
    let ordered = in_order(records)?;
    if !ascend(ordered.as_slice()) {
        return Err(ImageFault::Graph);
    }
    Ok(ordered)
}

/// Puts a record under its id, where none is, with the hop of its version.
fn put_one(kept: &mut Kept, hops: &mut Hops, one: Stored) -> Result<(), Memory>
    requires { AreOrdered kept.old.entries }
    ensures listed { OnOk result (listed kept.new.entries ≡ set_at one.id (Some one.record) (listed kept.old.entries)) }
    ensures ordered { OnOk result (AreOrdered kept.new.entries) }
    ensures hops { OnOk result (record_at (listed kept.old.entries) one.id ≡ None → AreHops (parts_of (listed kept.old.entries)).versions hops.old → AreHops (parts_of (listed kept.new.entries)).versions hops.new) }
{
    hops.follow(None, version_of(Some(&one.record)))?;
    let before = kept.insert(one.id, one.record)?;
    drop(before);
    Ok(())
}

/// Puts records that stand by id under their ids, with an index of them and the hops of their versions: from the first
/// on, so that each comes last among those that are there.
fn put_all(
    alloc: Global,
    kept: &mut Kept,
    index: &mut Index,
    hops: &mut Hops,
    records: Records,
) -> Result<(), Memory>
    requires indexed { IsIndexed kept.old index.old }
    requires hops { AreHops (parts_of (listed kept.old.entries)).versions hops.old }
    requires empty { listed kept.old.entries ≡ [] }
    requires ascend { Ascend records }
    ensures listed { OnOk result (listed kept.new.entries ≡ records) }
    ensures indexed { OnOk result (IsIndexed kept.new index.new) }
    ensures hops { OnOk result (AreHops (parts_of (listed kept.new.entries)).versions hops.new) }
{
    add_all(alloc, index, records.as_slice())?;
    for one in records.into_vec() {
        put_one(kept, hops, one)?;
    }
    Ok(())
}

/// Puts records that stand by id under their ids, with an index of them and the hops of their versions, and makes the
/// catalog of their tables.
pub fn put_with_catalog(
    alloc: Global,
    kept: &mut Kept,
    index: &mut Index,
    hops: &mut Hops,
    records: Records,
) -> Result<Catalog, Memory>
    requires indexed { IsIndexed kept.old index.old }
    requires hops { AreHops (parts_of (listed kept.old.entries)).versions hops.old }
    requires empty { listed kept.old.entries ≡ [] }
    requires ascend { Ascend records }
    ensures listed { OnOk result (listed kept.new.entries ≡ records) }
    ensures indexed { OnOk result (IsIndexed kept.new index.new) }
    ensures hops { OnOk result (AreHops (parts_of (listed kept.new.entries)).versions hops.new) }
    ensures tables { IfOk result (λ catalog. IsCatalog (listed kept.new.entries) catalog) }
{
    put_all(alloc, kept, index, hops, records)?;
    let catalog = catalog_of(alloc, kept, index)?;
    Ok(catalog)
}
