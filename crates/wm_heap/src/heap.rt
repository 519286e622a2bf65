//! The heap: where each record stands.
ghost use Rattle.std.specs.Prelude.{◌≡◌, ℕ, ◌+◌, ◌-◌, ◌*◌, ◌<◌, ◌≤◌, true, not, ◌==◌, ◌++◌, filter, length, is_some, IfOk, IsErrOf, OnOk};
ghost use Rattle.wm_faults.specs.declared.fault.StoreFault.TheVariants as faults;
ghost use Rattle.wm_page.specs.Batch.{entries};
ghost use Rattle.wm_page.specs.Cause.{StoreCause};
ghost use Rattle.wm_heap.specs.Blobs.{AreBlobs, AreBytes, AreSmall, AreSomeOf, OverBytes, WasRead, alters, change_something, moves, slots_put};
ghost use Rattle.wm_heap.specs.Content.{content, bytes_at, slots_in};
ghost use Rattle.wm_heap.specs.Places.{place_of, page_count, spots_of, spots_on, IsHeapOf};
ghost use Rattle.wm_heap.specs.Plan.{IsPlan, IsChanged, laid};
ghost use Rattle.wm_heap.specs.Room.{KnowsRoom};
ghost use Rattle.wm_heap.specs.Slots.{slots_of, used};

use crate::blob::{Blob, Blobs};
use crate::draft::{Changed, page_batch};
use crate::ids::Ids;
use crate::places::{Places, page_of as place_in};
use crate::room::Room;
use crate::slot::Slots;
use crate::spot::{Spot, Spots};
use crate::stored::stored_slots;
use std::alloc::Global;
use wm_base::{Bytes, Memory};
use wm_faults::StoreFault;
use wm_page::{PageBatch, Pages};

/// Where the records of a store stand. Their bytes are read from its pages.
#[derive(Drop)]
pub struct Heap {
    /// The ids of each page from page 2 on.
    pub(crate) ids: Vec<Ids>,
    /// The page of each id.
    pub(crate) places: Places,
    /// Which pages have room.
    pub(crate) room: Room,
}

impl Heap {
    /// How many pages the store has.
    pub fn page_count(&self) -> u64
        ensures { result ≡ page_count self.now }
    {
        self.ids.as_slice().len() as u64 + 2
    }

    /// The bytes of a record, None exactly where there is none of this id. Changed is answered where a page no longer
    /// has what it had.
    pub fn get<G: Pages>(
        &self,
        alloc: Global,
        pages: &mut G,
        id: u64,
    ) -> Result<Option<Bytes>, StoreFault>
        requires heap { G.tells → IsHeapOf self.now (G.held pages.old) (G.in_use pages.old) }
        requires whole { G.tells → G.in_use pages.old ≤ G.in_file pages.old }
        ensures bytes { G.tells → IfOk result (λ bytes. bytes ≡ bytes_at (content (G.held pages.old) (G.in_use pages.old)) id) }
        ensures there { IfOk result (λ bytes. is_some bytes ≡ is_some (place_of self.now id)) }
        ensures told { G.tells → G.held pages.new ≡ G.held pages.old }
        ensures past { G.tells → G.past pages.new ≡ G.past pages.old }
        ensures source { G.source pages.new ≡ G.source pages.old }
        ensures in_use { G.in_use pages.new ≡ G.in_use pages.old }
        ensures in_file { G.in_file pages.new ≡ G.in_file pages.old }
        ensures cause { StoreCause (G.faults pages.old) (G.faults pages.new) result }
        ensures sound { G.tells → IsErrOf result faults.Changed → ⊥ }
    {
        let Some(page) = place_in(&self.places, id) else {
            return Ok(None);
        };
        let slots = stored_slots(alloc, pages, page)?;
        match slots.find(alloc, id)? {
            Some(bytes) => Ok(Some(bytes)),
            None => Err(StoreFault::Changed),
        }
    }

    /// Where each record stands, in order of page and slot.
    pub fn spots(&self, alloc: Global) -> Result<Spots, Memory>
        ensures { IfOk result (λ spots. spots ≡ spots_of self.now.ids.items) }
    {
        let mut spots = Spots::new(alloc);
        for page in 2..self.page_count() {
            push_spots(&mut spots, page, self.ids[(page - 2) as usize].as_slice())?;
        }
        Ok(spots)
    }

    /// Whether a change says something else than stands under its id. Where nothing stands, and where a change drops
    /// what stands, no page tells more than the places do. The page that was read last is not read again.
    fn alters<G: Pages>(
        &self,
        alloc: Global,
        pages: &mut G,
        last: &mut Option<Read>,
        blob: &Blob,
    ) -> Result<bool, StoreFault>
        requires heap { G.tells → IsHeapOf self.now (G.held pages.old) (G.in_use pages.old) }
        requires whole { G.tells → G.in_use pages.old ≤ G.in_file pages.old }
        requires last { G.tells → WasRead last.old (G.held pages.old) }
        ensures moved { IfOk result (λ yes. moves (λ id. is_some (place_of self.now id)) blob.now ≡ true → yes ≡ true) }
        ensures last { G.tells → OnOk result (WasRead last.new (G.held pages.old)) }
        ensures alters { G.tells → IfOk result (λ yes. yes ≡ alters (bytes_at (content (G.held pages.old) (G.in_use pages.old))) blob.now) }
        ensures read { G.tells → OnOk result (is_some blob.now.bytes ≡ true → AreBytes (bytes_at (content (G.held pages.old) (G.in_use pages.old)) blob.now.id)) }
        ensures told { G.tells → G.held pages.new ≡ G.held pages.old }
        ensures past { G.tells → G.past pages.new ≡ G.past pages.old }
        ensures source { G.source pages.new ≡ G.source pages.old }
        ensures in_use { G.in_use pages.new ≡ G.in_use pages.old }
        ensures in_file { G.in_file pages.new ≡ G.in_file pages.old }
        ensures cause { StoreCause (G.faults pages.old) (G.faults pages.new) result }
        ensures sound { G.tells → IsErrOf result faults.Changed → ⊥ }
    {
        let Some(page) = place_in(&self.places, blob.id) else {
            return Ok(blob.bytes.is_some());
        };
        if blob.bytes.is_none() {
            return Ok(true);
        }
        let read = read_page(alloc, pages, last.take(), page)?;
        let same = read.slots.hold(blob);
        *last = Some(read);
        Ok(!same)
    }

    /// Those changes of a batch, in order, that say something else than stands under their ids. What stands under an id
    /// that is put again is read from its page, so it is known to be bytes. A change that puts a record that has no
    /// place, or drops one that has, is always left.
    pub fn altering<G: Pages>(
        &self,
        alloc: Global,
        pages: &mut G,
        batch: Blobs,
    ) -> Result<Blobs, StoreFault>
        requires heap { G.tells → IsHeapOf self.now (G.held pages.old) (G.in_use pages.old) }
        requires whole { G.tells → G.in_use pages.old ≤ G.in_file pages.old }
        ensures some { IfOk result (λ left. AreSomeOf left batch) }
        ensures moved { IfOk result (λ left. filter (moves (λ id. is_some (place_of self.now id))) left ≡ filter (moves (λ id. is_some (place_of self.now id))) batch) }
        ensures altering { G.tells → IfOk result (λ left. left ≡ filter (alters (bytes_at (content (G.held pages.old) (G.in_use pages.old)))) batch) }
        ensures read { G.tells → OnOk result (OverBytes (bytes_at (content (G.held pages.old) (G.in_use pages.old))) batch) }
        ensures told { G.tells → G.held pages.new ≡ G.held pages.old }
        ensures past { G.tells → G.past pages.new ≡ G.past pages.old }
        ensures source { G.source pages.new ≡ G.source pages.old }
        ensures in_use { G.in_use pages.new ≡ G.in_use pages.old }
        ensures in_file { G.in_file pages.new ≡ G.in_file pages.old }
        ensures cause { StoreCause (G.faults pages.old) (G.faults pages.new) result }
        ensures sound { G.tells → IsErrOf result faults.Changed → ⊥ }
    {
        let mut left = Blobs::new(alloc);
        let mut last = None;
        for blob in batch.into_vec() {
            if self.alters(alloc, pages, &mut last, &blob)? {
                left.push(blob)?;
            }
        }
        Ok(left)
    }

    /// The pages that put the changes in place, and none exactly where nothing changes. The heap is then that of the
    /// store with these pages. They are at most two for each change, and two more. A page is added only where every
    /// page has less than a quarter of a page more room than the batch puts, and the last has no room for it; of every
    /// page it is said where their room is known, as it is once they were loaded, and stays. After an error the heap is
    /// to be given up.
    pub fn plan<G: Pages>(
        &mut self,
        alloc: Global,
        pages: &mut G,
        batch: &Blobs,
    ) -> Result<PageBatch, StoreFault>
        requires once { AreBlobs batch.now }
        requires small { AreSmall batch.now }
        requires heap { G.tells → IsHeapOf self.old (G.held pages.old) (G.in_use pages.old) }
        requires whole { G.tells → G.in_use pages.old ≤ G.in_file pages.old }
        ensures plan { IfOk result (λ b. IsPlan (page_count self.old) (page_count self.new) (entries b.pages)) }
        ensures nothing { IfOk result (λ b. (length b.pages == 0) ≡ not (change_something (λ id. is_some (place_of self.old id)) batch.now)) }
        ensures few { IfOk result (λ b. length b.pages ≤ 2 * length batch.now + 2) }
        ensures lean { G.tells → OnOk result (page_count self.old < page_count self.new → 2 < page_count self.old → 4096 < used (slots_in (G.held pages.old) (page_count self.old - 1) ++ slots_put batch.now)) }
        ensures spread { G.tells → KnowsRoom self.old.room (slots_in (G.held pages.old)) (page_count self.old) → OnOk result (page_count self.old < page_count self.new → (p : ℕ) → 2 ≤ p → p < page_count self.old → 4096 < used (slots_in (G.held pages.old) p ++ slots_put batch.now) + 1024) }
        ensures knows { G.tells → KnowsRoom self.old.room (slots_in (G.held pages.old)) (page_count self.old) → IfOk result (λ b. KnowsRoom self.new.room (slots_in (laid (entries b.pages) (G.held pages.old))) (page_count self.new)) }
        ensures changed { G.tells → IfOk result (λ b. IsChanged self.new batch.now (entries b.pages) (G.held pages.old) (G.in_use pages.old)) }
        ensures told { G.tells → G.held pages.new ≡ G.held pages.old }
        ensures past { G.tells → G.past pages.new ≡ G.past pages.old }
        ensures source { G.source pages.new ≡ G.source pages.old }
        ensures in_use { G.in_use pages.new ≡ G.in_use pages.old }
        ensures in_file { G.in_file pages.new ≡ G.in_file pages.old }
        ensures cause { StoreCause (G.faults pages.old) (G.faults pages.new) result }
        ensures sound { G.tells → IsErrOf result faults.Changed → ⊥ }
    {
        let before = self.page_count();
        let mut changed = Changed::new(alloc);
        for blob in batch.as_slice() {
            self.change(alloc, &mut changed, pages, blob)?;
        }
        let batch = page_batch(alloc, &changed, before, self.page_count())?;
        Ok(batch)
    }
}

/// A page that was read, with its slots.
#[derive(Drop)]
struct Read {
    page: u64,
    slots: Slots,
}

/// A page with its slots. Where it is the one that was read last it is not read again.
fn read_page<G: Pages>(
    alloc: Global,
    pages: &mut G,
    last: Option<Read>,
    page: u64,
) -> Result<Read, StoreFault>
    requires { G.tells → WasRead last (G.held pages.old) }
    ensures page { IfOk result (λ read. read.page ≡ page) }
    ensures value { G.tells → IfOk result (λ read. read.slots ≡ slots_in (G.held pages.old) page) }
    ensures told { G.tells → G.held pages.new ≡ G.held pages.old }
    ensures past { G.tells → G.past pages.new ≡ G.past pages.old }
    ensures source { G.source pages.new ≡ G.source pages.old }
    ensures in_use { G.in_use pages.new ≡ G.in_use pages.old }
    ensures in_file { G.in_file pages.new ≡ G.in_file pages.old }
    ensures cause { StoreCause (G.faults pages.old) (G.faults pages.new) result }
    ensures sound { G.tells → page < G.in_use pages.old → page < G.in_file pages.old → is_some (slots_of (G.held pages.old page)) ≡ true → IsErrOf result faults.Changed → ⊥ }
{
    if let Some(read) = last {
        if read.page == page {
            return Ok(read);
        }
    }
    let slots = stored_slots(alloc, pages, page)?;
    Ok(Read { page, slots })
}

/// Puts the ids of a page behind the spots.
fn push_spots(spots: &mut Spots, page: u64, ids: &[u64]) -> Result<(), Memory>
    ensures { OnOk result (spots.new ≡ spots.old ++ spots_on page ids.now) }
{
    for id in ids {
        spots.push(Spot { page, id: *id })?;
    }
    Ok(())
}
