//! How a heap is read from the pages of a store, or put on the first of them.
ghost use Rattle.std.specs.Prelude.{◌≡◌, ℕ, ◌+◌, ◌-◌, ◌<◌, ◌≤◌, Bool, false, nat_lt, if◌then◌else◌, List, [], ◌∷◌, ◌++◌, length, Some, None, is_some, IfOk, OnOk, IfErr, IsErrOf};
ghost use Rattle.wm_faults.specs.declared.fault.OpenFault.TheVariants as faults;
ghost use Rattle.wm_heap.specs.Asking.{Finds, FindsTwice};
ghost use Rattle.wm_heap.specs.Content.{bytes_at, is_twice, damage_on, fault_of, slots_in};
ghost use Rattle.wm_heap.specs.Places.{at, ids_of, page_count, place_of, IsHeapOf};
ghost use Rattle.wm_heap.specs.Room.{KnowsRoom};
ghost use Rattle.wm_heap.specs.Slots.{slots_of, page_of, used};
ghost use Rattle.wm_heap.specs.declared.slot.Slot.{Slot};
ghost use Rattle.wm_heap.specs.Blobs.{AreBlobs, slots_put};
ghost use Rattle.wm_heap.specs.Plan.{root_of};
ghost use Rattle.wm_page.specs.Batch.{entries};
ghost use Rattle.wm_page.specs.Cause.{OpenCause};
ghost use Rattle.wm_page.specs.Fields.{number_at};

use crate::blob::{Blob, Blobs};
use crate::draft::root_pages;
use crate::heap::Heap;
use crate::ids::{Ids, ids_of_slots};
use crate::places::{Places, set_page_of};
use crate::reading::read_slots;
use crate::room::Room;
use crate::slot::{Slots, slot_of};
use crate::writing::write_slots;
use std::alloc::Global;
use wm_base::Memory;
use wm_faults::{Damage, OpenFault};
use wm_page::{PAGE_SIZE, PageBatch, PageWrite, Pages, PagesFailed};

/// The slots of a page that is in use.
fn load_slots<G: Pages>(alloc: Global, pages: &mut G, page: u64) -> Result<Slots, OpenFault>
    requires { page < G.in_use pages.old }
    ensures slots { G.tells → IfOk result (λ slots. slots_of (G.held pages.old page) ≡ Some slots) }
    ensures whole { OnOk result (page < G.in_file pages.old) }
    ensures fault { G.tells → IfErr result (λ e. (seen : ℕ → Bool) → Finds e (damage_on seen page (nat_lt page (G.in_file pages.old)) (slots_of (G.held pages.old page)))) }
    ensures store { IsErrOf result faults.NotStore → ⊥ }
    ensures told { G.tells → G.held pages.new ≡ G.held pages.old }
    ensures past { G.tells → G.past pages.new ≡ G.past pages.old }
    ensures source { G.source pages.new ≡ G.source pages.old }
    ensures in_use { G.in_use pages.new ≡ G.in_use pages.old }
    ensures in_file { G.in_file pages.new ≡ G.in_file pages.old }
    ensures cause { OpenCause (G.faults pages.old) (G.faults pages.new) result }
{
    if page >= pages.whole() {
        return Err(OpenFault::Damaged {
            page,
            kind: Damage::Short,
        });
    }
    let mut bytes = [0; PAGE_SIZE];
    match pages.page(page, &mut bytes) {
        Ok(()) => {}
        Err(PagesFailed::Failed) => return Err(OpenFault::Disk),
        Err(PagesFailed::Memory) => return Err(OpenFault::Memory),
    }
    match read_slots(alloc, &bytes)? {
        Some(slots) => Ok(slots),
        None => Err(OpenFault::Damaged {
            page,
            kind: Damage::Slots,
        }),
    }
}

/// Keeps the page of each id of the slots.
fn place_all(places: &mut Places, page: u64, slots: &Slots) -> Result<(), OpenFault>
    ensures ok { OnOk result (is_twice (λ id. is_some (at places.old.entries id)) slots.now ≡ false) }
    ensures placed { OnOk result ((id : ℕ) → at places.new.entries id ≡ (if is_some (bytes_at slots.now id) then Some page else at places.old.entries id)) }
    ensures twice { IfErr result (λ e. FindsTwice e page (is_twice (λ id. is_some (at places.old.entries id)) slots.now)) }
{
    for slot in slots.iter() {
        let before = set_page_of(places, slot.id, page)?;
        if before.is_some() {
            return Err(OpenFault::Damaged {
                page,
                kind: Damage::Twice,
            });
        }
    }
    Ok(())
}

impl Heap {
    /// The heap of a store of which no page with slots was loaded.
    pub fn new(alloc: Global) -> Heap
        ensures count { page_count result ≡ 2 }
        ensures heap { (held : ℕ → List ℕ) → IsHeapOf result held 2 }
        ensures room { (slots : ℕ → List Slot) → KnowsRoom result.room slots 2 }
    {
        Heap {
            ids: Vec::new(alloc),
            places: Places::new(alloc),
            room: Room::new(alloc),
        }
    }

    /// Keeps the ids of the slots of the next page, that page as the place of each, and how much room it has.
    fn keep_slots(&mut self, alloc: Global, page: u64, slots: &Slots) -> Result<(), OpenFault>
        ensures ok { OnOk result (is_twice (λ id. is_some (place_of self.old id)) slots.now ≡ false) }
        ensures placed { OnOk result ((id : ℕ) → place_of self.new id ≡ (if is_some (bytes_at slots.now id) then Some page else place_of self.old id)) }
        ensures ids { OnOk result (self.new.ids.items ≡ self.old.ids.items ++ ids_of slots.now ∷ []) }
        ensures room { OnOk result ((all : ℕ → List Slot) → all page ≡ slots.now → 2 ≤ page → KnowsRoom self.old.room all page → KnowsRoom self.new.room all (page + 1)) }
        ensures twice { IfErr result (λ e. FindsTwice e page (is_twice (λ id. is_some (place_of self.old id)) slots.now)) }
    {
        place_all(&mut self.places, page, slots)?;
        self.ids.push(ids_of_slots(alloc, slots)?)?;
        self.room.prefer(page);
        self.room.keep(page, slots.left(), 0)?;
        Ok(())
    }

    /// Loads the page behind those that were loaded and passed each test: tests it, keeps where its records stand, and
    /// gives its slots. A fault is the first of the store. After an error the heap is to be given up.
    pub fn load_page<G: Pages>(&mut self, alloc: Global, pages: &mut G) -> Result<Slots, OpenFault>
        requires next { page_count self.old < G.in_use pages.old }
        requires heap { G.tells → IsHeapOf self.old (G.held pages.old) (page_count self.old) }
        requires undamaged { G.tells → fault_of (G.held pages.old) (page_count self.old) (G.in_file pages.old) ≡ None }
        ensures slots { G.tells → IfOk result (λ slots. slots ≡ slots_in (G.held pages.old) (page_count self.old)) }
        ensures count { OnOk result (page_count self.new ≡ page_count self.old + 1) }
        ensures whole { OnOk result (page_count self.old < G.in_file pages.old) }
        ensures heap { G.tells → OnOk result (IsHeapOf self.new (G.held pages.old) (page_count self.new)) }
        ensures room { G.tells → KnowsRoom self.old.room (slots_in (G.held pages.old)) (page_count self.old) → OnOk result (KnowsRoom self.new.room (slots_in (G.held pages.old)) (page_count self.new)) }
        ensures undamaged { G.tells → OnOk result (fault_of (G.held pages.old) (page_count self.new) (G.in_file pages.old) ≡ None) }
        ensures fault { G.tells → IfErr result (λ e. Finds e (fault_of (G.held pages.old) (G.in_use pages.old) (G.in_file pages.old))) }
        ensures store { IsErrOf result faults.NotStore → ⊥ }
        ensures told { G.tells → G.held pages.new ≡ G.held pages.old }
        ensures past { G.tells → G.past pages.new ≡ G.past pages.old }
        ensures source { G.source pages.new ≡ G.source pages.old }
        ensures in_use { G.in_use pages.new ≡ G.in_use pages.old }
        ensures in_file { G.in_file pages.new ≡ G.in_file pages.old }
        ensures cause { OpenCause (G.faults pages.old) (G.faults pages.new) result }
    {
        let page = self.page_count();
        let slots = load_slots(alloc, pages, page)?;
        self.keep_slots(alloc, page, &slots)?;
        Ok(slots)
    }

    /// Where the records of a store stand, after each page was tested. It serves where no slots are wanted besides.
    pub fn load<G: Pages>(alloc: Global, pages: &mut G) -> Result<Heap, OpenFault>
        ensures heap { G.tells → IfOk result (λ heap. IsHeapOf heap (G.held pages.old) (G.in_use pages.old)) }
        ensures room { G.tells → IfOk result (λ heap. KnowsRoom heap.room (slots_in (G.held pages.old)) (page_count heap)) }
        ensures count { IfOk result (λ heap. length heap.ids.items ≡ G.in_use pages.old - 2) }
        ensures whole { OnOk result ((p : ℕ) → 2 ≤ p → p < G.in_use pages.old → p < G.in_file pages.old) }
        ensures undamaged { G.tells → OnOk result (fault_of (G.held pages.old) (G.in_use pages.old) (G.in_file pages.old) ≡ None) }
        ensures fault { G.tells → IfErr result (λ e. Finds e (fault_of (G.held pages.old) (G.in_use pages.old) (G.in_file pages.old))) }
        ensures store { IsErrOf result faults.NotStore → ⊥ }
        ensures told { G.tells → G.held pages.new ≡ G.held pages.old }
        ensures past { G.tells → G.past pages.new ≡ G.past pages.old }
        ensures source { G.source pages.new ≡ G.source pages.old }
        ensures in_use { G.in_use pages.new ≡ G.in_use pages.old }
        ensures in_file { G.in_file pages.new ≡ G.in_file pages.old }
        ensures cause { OpenCause (G.faults pages.old) (G.faults pages.new) result }
    {
        let mut heap = Heap::new(alloc);
        for _ in 2..pages.count() {
            heap.load_page(alloc, pages)?;
        }
        Ok(heap)
    }

    /// The heap of a store that holds these records alone, and its pages: page 1 and page 2.
    pub fn first(alloc: Global, batch: &Blobs) -> Result<(Heap, PageBatch), Memory>
        requires once { AreBlobs batch.now }
        requires room { used (slots_put batch.now) ≤ 4096 }
        ensures pages { IfOk result (λ r. entries r.1.pages ≡ (1, root_of 3) ∷ (2, page_of (slots_put batch.now)) ∷ []) }
        ensures root { OnOk result (number_at (root_of 3) 0 ≡ 3) }
        ensures again { OnOk result (slots_of (page_of (slots_put batch.now)) ≡ Some (slots_put batch.now)) }
        ensures heap { IfOk result (λ r. (held : ℕ → List ℕ) → held 2 ≡ page_of (slots_put batch.now) → IsHeapOf r.0 held 3) }
        ensures room { IfOk result (λ r. (held : ℕ → List ℕ) → held 2 ≡ page_of (slots_put batch.now) → KnowsRoom r.0.room (slots_in held) 3) }
        ensures sound { OnOk result ((held : ℕ → List ℕ) (whole : ℕ) → held 2 ≡ page_of (slots_put batch.now) → 3 ≤ whole → fault_of held 3 whole ≡ None) }
    {
        let slots = slots_of_blobs(alloc, batch.as_slice())?;
        let mut places = Places::new(alloc);
        place_each(&mut places, 2, &slots)?;
        let mut ids = Vec::new(alloc);
        ids.push(ids_of_slots(alloc, &slots)?)?;
        let mut room = Room::new(alloc);
        room.prefer(2);
        room.keep(2, slots.left(), 0)?;
        let pages = first_pages(alloc, &slots)?;
        Ok((Heap { ids, places, room }, pages))
    }
}

/// The slots of the blobs that have bytes.
fn slots_of_blobs(alloc: Global, blobs: &[Blob]) -> Result<Slots, Memory>
    ensures { IfOk result (λ slots. slots ≡ slots_put blobs.now) }
{
    let mut slots = Slots::new(alloc);
    for blob in blobs {
        if let Some(bytes) = &blob.bytes {
            slots.push(slot_of(alloc, blob.id, bytes)?)?;
        }
    }
    Ok(slots)
}

/// Keeps the page of each id of the slots.
fn place_each(places: &mut Places, page: u64, slots: &Slots) -> Result<(), Memory>
    ensures { OnOk result ((id : ℕ) → at places.new.entries id ≡ (if is_some (bytes_at slots.now id) then Some page else at places.old.entries id)) }
{
    for slot in slots.iter() {
        set_page_of(places, slot.id, page)?;
    }
    Ok(())
}

/// Pages 1 and 2 of a store with these slots.
fn first_pages(alloc: Global, slots: &Slots) -> Result<PageBatch, Memory>
    requires { used slots.now ≤ 4096 }
    ensures pages { IfOk result (λ b. entries b.pages ≡ (1, root_of 3) ∷ (2, page_of slots.now) ∷ []) }
    ensures root { OnOk result (number_at (root_of 3) 0 ≡ 3) }
    ensures again { OnOk result (slots_of (page_of slots.now) ≡ Some slots.now) }
{
    let mut pages = root_pages(alloc, 2, 3)?;
    let bytes = write_slots(alloc, slots)?;
    pages.push(PageWrite { page: 2, bytes })?;
    Ok(PageBatch { pages })
}
