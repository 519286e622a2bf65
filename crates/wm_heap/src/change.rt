//! One change of a heap: what is under an id is put where there is room, or taken out.
ghost use Rattle.std.specs.Prelude.{◌≡◌, ℕ, ◌+◌, ◌-◌, ◌<◌, ◌≤◌, true, ◌||◌, if◌then◌else◌, ◌++◌, ◌∷◌, [], length, Some, None, is_some, IfOk, OnOk, IsErrOf, IfSome};
ghost use Rattle.wm_faults.specs.declared.fault.StoreFault.TheVariants as faults;
ghost use Rattle.wm_page.specs.Cause.{StoreCause};
ghost use Rattle.wm_heap.specs.Draft.{HasRoom, Stands, Puts, Goes, Done, IsLean, slots_now, slots_with, slot_size, place_with};
ghost use Rattle.wm_heap.specs.Places.{place_of, page_count};
ghost use Rattle.wm_heap.specs.Room.{Keeps, KnowsRoom, Spreads};
ghost use Rattle.wm_heap.specs.Slots.{used};

use crate::blob::Blob;
use crate::draft::{Changed, take_slots};
use crate::heap::Heap;
use crate::ids::ids_of_slots;
use crate::places::{clear_page_of, page_of as place_in, set_page_of};
use crate::room::take_roomy;
use crate::slot::{Slots, slot_of};
use std::alloc::Global;
use wm_base::{Bytes, Memory};
use wm_faults::StoreFault;
use wm_page::Pages;

impl Heap {
    /// Puts these slots on a page, or on a new page behind the last, since a change of what is under an id.
    #[tactic(auto, using(crate::proofs::Standing::one_more))]
    fn set_slots(
        &mut self,
        alloc: Global,
        changed: &mut Changed,
        page: u64,
        slots: Slots,
        changed_id: u64,
    ) -> Result<(), Memory>
        requires from { 2 ≤ page }
        requires till { page ≤ page_count self.old }
        ensures ok { OnOk result ((id : ℕ) → Puts page slots id (place_of self.old id) self.old self.new changed.old.entries changed.new.entries) }
        ensures places { self.new.places ≡ self.old.places }
        ensures keeps { OnOk result (Keeps page (4096 - used slots) self.old.room self.new.room) }
        ensures few { OnOk result (length changed.new.entries ≤ length changed.old.entries + 1) }
    {
        self.room.keep(page, slots.left(), changed_id)?;
        let at = (page - 2) as usize;
        if at < self.ids.len() {
            self.ids[at].set(&slots)?;
        } else {
            self.ids.push(ids_of_slots(alloc, &slots)?)?;
        }
        changed.insert(page, slots)?;
        Ok(())
    }

    /// Puts bytes under an id behind the slots of a page, which have none under it.
    fn put_behind(
        &mut self,
        alloc: Global,
        changed: &mut Changed,
        page: u64,
        slots: Slots,
        id: u64,
        bytes: &Bytes,
    ) -> Result<(), Memory>
        requires from { 2 ≤ page }
        requires till { page ≤ page_count self.old }
        ensures puts { OnOk result (Puts page (slots ++ (record { id = id; bytes = bytes.now }) ∷ []) id (Some page) self.old self.new changed.old.entries changed.new.entries) }
        ensures keeps { OnOk result (Keeps page (4096 - used (slots ++ (record { id = id; bytes = bytes.now }) ∷ [])) self.old.room self.new.room) }
        ensures few { OnOk result (length changed.new.entries ≤ length changed.old.entries + 1) }
    {
        let mut slots = slots;
        slots.push(slot_of(alloc, id, bytes)?)?;
        self.set_slots(alloc, changed, page, slots, id)?;
        set_page_of(&mut self.places, id, page)?;
        Ok(())
    }

    /// Puts bytes under an id that has none: on a page that has room, or on a new one.
    fn add<G: Pages>(
        &mut self,
        alloc: Global,
        changed: &mut Changed,
        pages: &mut G,
        id: u64,
        bytes: &Bytes,
    ) -> Result<(), StoreFault>
        requires room { HasRoom changed.old.entries }
        requires small { length bytes.now ≤ 4084 }
        requires absent { place_of self.old id ≡ None }
        requires stands { G.tells → Stands self.old changed.old.entries (G.held pages.old) (G.in_use pages.old) (G.in_file pages.old) }
        ensures goes { OnOk result (Goes self.old self.new changed.old.entries changed.new.entries id true) }
        ensures done { G.tells → OnOk result (Done self.old self.new changed.old.entries changed.new.entries (G.held pages.old) (G.in_use pages.old) (G.in_file pages.old) id (Some bytes.now)) }
        ensures lean { G.tells → OnOk result (IsLean self.old self.new changed.old.entries changed.new.entries (G.held pages.old) (slot_size (Some bytes.now))) }
        ensures spread { G.tells → KnowsRoom self.old.room (slots_now changed.old.entries (G.held pages.old)) (page_count self.old) → OnOk result (Spreads self.old self.new changed.old.entries changed.new.entries (G.held pages.old) (slot_size (Some bytes.now))) }
        ensures few { OnOk result (length changed.new.entries ≤ length changed.old.entries + 1) }
        ensures told { G.tells → G.held pages.new ≡ G.held pages.old }
        ensures past { G.tells → G.past pages.new ≡ G.past pages.old }
        ensures source { G.source pages.new ≡ G.source pages.old }
        ensures in_use { G.in_use pages.new ≡ G.in_use pages.old }
        ensures in_file { G.in_file pages.new ≡ G.in_file pages.old }
        ensures cause { StoreCause (G.faults pages.old) (G.faults pages.new) result }
        ensures sound { G.tells → IsErrOf result faults.Changed → ⊥ }
    {
        let count = self.page_count();
        let Some(roomy) = take_roomy(alloc, &mut self.room, changed, pages, count, bytes.len())?
        else {
            self.put_behind(alloc, changed, count, Slots::new(alloc), id, bytes)?;
            return Ok(());
        };
        self.put_behind(alloc, changed, roomy.page, roomy.slots, id, bytes)?;
        Ok(())
    }

    /// Takes out what is under an id of a page.
    fn take_out(
        &mut self,
        alloc: Global,
        changed: &mut Changed,
        page: u64,
        slots: Slots,
        id: u64,
    ) -> Result<(), Memory>
        requires from { 2 ≤ page }
        requires till { page ≤ page_count self.old }
        ensures puts { OnOk result (Puts page slots id None self.old self.new changed.old.entries changed.new.entries) }
        ensures keeps { OnOk result (Keeps page (4096 - used slots) self.old.room self.new.room) }
        ensures few { OnOk result (length changed.new.entries ≤ length changed.old.entries + 1) }
    {
        self.set_slots(alloc, changed, page, slots, id)?;
        clear_page_of(&mut self.places, id);
        Ok(())
    }

    /// Whether so many bytes that are put again under an id stay on their page, which has these other slots: they fit,
    /// and do not go along. What changes with each line, as the counters do, goes along to the page that takes what is
    /// new, and a line mostly writes one page in place of two.
    fn stays(&self, id: u64, page: u64, slots: &Slots, len: usize) -> bool
        ensures { result ≡ true → used slots.now + 10 + len ≤ 4096 }
    {
        slots.fit_with(len) && !self.room.goes_along(id, page, 10 + len)
    }

    /// Puts bytes under an id behind the slots of a page, which have none under it, where they stay there; else nothing
    /// is under the id. Whether that is all of the change.
    fn change_here(
        &mut self,
        alloc: Global,
        changed: &mut Changed,
        page: u64,
        slots: Slots,
        blob: &Blob,
    ) -> Result<bool, Memory>
        requires from { 2 ≤ page }
        requires till { page ≤ page_count self.old }
        requires fits { used slots ≤ 4096 }
        ensures room { IfOk result (λ all. used (slots_with slots blob.now.id (if all then blob.now.bytes else None)) ≤ 4096) }
        ensures puts { IfOk result (λ all. Puts page (slots_with slots blob.now.id (if all then blob.now.bytes else None)) blob.now.id (place_with page (if all then blob.now.bytes else None)) self.old self.new changed.old.entries changed.new.entries) }
        ensures keeps { IfOk result (λ all. Keeps page (4096 - used (slots_with slots blob.now.id (if all then blob.now.bytes else None))) self.old.room self.new.room) }
        ensures few { OnOk result (length changed.new.entries ≤ length changed.old.entries + 1) }
    {
        let Some(bytes) = &blob.bytes else {
            self.take_out(alloc, changed, page, slots, blob.id)?;
            return Ok(true);
        };
        if self.stays(blob.id, page, &slots, bytes.len()) {
            self.put_behind(alloc, changed, page, slots, blob.id, bytes)?;
            return Ok(true);
        }
        self.take_out(alloc, changed, page, slots, blob.id)?;
        Ok(false)
    }

    /// Puts or drops what is under an id of a page: on the same page where it stays there.
    fn change_on<G: Pages>(
        &mut self,
        alloc: Global,
        changed: &mut Changed,
        pages: &mut G,
        page: u64,
        blob: &Blob,
    ) -> Result<(), StoreFault>
        requires room { HasRoom changed.old.entries }
        requires small { IfSome blob.now.bytes (λ bytes. length bytes ≤ 4084) }
        requires here { place_of self.old blob.now.id ≡ Some page }
        requires stands { G.tells → Stands self.old changed.old.entries (G.held pages.old) (G.in_use pages.old) (G.in_file pages.old) }
        ensures goes { OnOk result (Goes self.old self.new changed.old.entries changed.new.entries blob.now.id true) }
        ensures done { G.tells → OnOk result (Done self.old self.new changed.old.entries changed.new.entries (G.held pages.old) (G.in_use pages.old) (G.in_file pages.old) blob.now.id blob.now.bytes) }
        ensures lean { G.tells → OnOk result (IsLean self.old self.new changed.old.entries changed.new.entries (G.held pages.old) (slot_size blob.now.bytes)) }
        ensures spread { G.tells → KnowsRoom self.old.room (slots_now changed.old.entries (G.held pages.old)) (page_count self.old) → OnOk result (Spreads self.old self.new changed.old.entries changed.new.entries (G.held pages.old) (slot_size blob.now.bytes)) }
        ensures few { OnOk result (length changed.new.entries ≤ length changed.old.entries + 2) }
        ensures told { G.tells → G.held pages.new ≡ G.held pages.old }
        ensures past { G.tells → G.past pages.new ≡ G.past pages.old }
        ensures source { G.source pages.new ≡ G.source pages.old }
        ensures in_use { G.in_use pages.new ≡ G.in_use pages.old }
        ensures in_file { G.in_file pages.new ≡ G.in_file pages.old }
        ensures cause { StoreCause (G.faults pages.old) (G.faults pages.new) result }
        ensures sound { G.tells → IsErrOf result faults.Changed → ⊥ }
    {
        if page < 2 || page >= self.page_count() {
            return Err(StoreFault::Changed);
        }
        let found = take_slots(alloc, changed, pages, page)?;
        let slots = found.without(blob.id);
        let all = self.change_here(alloc, changed, page, slots, blob)?;
        if all {
            return Ok(());
        }
        // What drops a record is all done by now, so that something is left to be put.
        let Some(bytes) = &blob.bytes else {
            return Ok(());
        };
        self.add(alloc, changed, pages, blob.id, bytes)
    }

    /// Puts or drops what is under an id.
    pub(crate) fn change<G: Pages>(
        &mut self,
        alloc: Global,
        changed: &mut Changed,
        pages: &mut G,
        blob: &Blob,
    ) -> Result<(), StoreFault>
        requires room { HasRoom changed.old.entries }
        requires small { IfSome blob.now.bytes (λ bytes. length bytes ≤ 4084) }
        requires stands { G.tells → Stands self.old changed.old.entries (G.held pages.old) (G.in_use pages.old) (G.in_file pages.old) }
        ensures goes { OnOk result (Goes self.old self.new changed.old.entries changed.new.entries blob.now.id (is_some blob.now.bytes || is_some (place_of self.old blob.now.id))) }
        ensures done { G.tells → OnOk result (Done self.old self.new changed.old.entries changed.new.entries (G.held pages.old) (G.in_use pages.old) (G.in_file pages.old) blob.now.id blob.now.bytes) }
        ensures lean { G.tells → OnOk result (IsLean self.old self.new changed.old.entries changed.new.entries (G.held pages.old) (slot_size blob.now.bytes)) }
        ensures spread { G.tells → KnowsRoom self.old.room (slots_now changed.old.entries (G.held pages.old)) (page_count self.old) → OnOk result (Spreads self.old self.new changed.old.entries changed.new.entries (G.held pages.old) (slot_size blob.now.bytes)) }
        ensures few { OnOk result (length changed.new.entries ≤ length changed.old.entries + 2) }
        ensures told { G.tells → G.held pages.new ≡ G.held pages.old }
        ensures past { G.tells → G.past pages.new ≡ G.past pages.old }
        ensures source { G.source pages.new ≡ G.source pages.old }
        ensures in_use { G.in_use pages.new ≡ G.in_use pages.old }
        ensures in_file { G.in_file pages.new ≡ G.in_file pages.old }
        ensures cause { StoreCause (G.faults pages.old) (G.faults pages.new) result }
        ensures sound { G.tells → IsErrOf result faults.Changed → ⊥ }
    {
        match place_in(&self.places, blob.id) {
            Some(page) => self.change_on(alloc, changed, pages, page, blob),
            None => match &blob.bytes {
                Some(bytes) => self.add(alloc, changed, pages, blob.id, bytes),
                None => Ok(()),
            },
        }
    }
}
