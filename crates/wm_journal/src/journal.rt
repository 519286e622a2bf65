//! The journal of a store's pages.
ghost use Rattle.std.specs.Prelude.{◌≡◌, ℕ, ◌*◌, ◌<◌, ◌≤◌, ◌⊎◌, max, [], true, false, length, IsTrue, Ok, IfOk, IfErr, OnOk, OnErr, IsErrOf, None};
ghost use Rattle.wm_page.specs.Batch.{entries};
ghost use Rattle.wm_page.specs.Cause.{MakeCause, OpenCause, StoreCause};
ghost use Rattle.wm_page.specs.Entries.{is_named};
ghost use Rattle.wm_station.specs.History.{now, said, Leaves, Synced};
ghost use Rattle.wm_station.specs.Moments.{During, Ended};
ghost use Rattle.wm_station.specs.Cause.{Rises};
ghost use Rattle.wm_journal.specs.Disk.{page, is_made, is_open, count_of, damage_of, are_below};
ghost use Rattle.wm_journal.specs.Store.{IsAtRest, OldOrNew, Keeps, Settles, over, count_after, commit_steps, made_page};
ghost use Rattle.wm_journal.specs.Opening.{Says, IsUntouched};
ghost use Rattle.wm_journal.specs.Writes.{Did, DidPart, making, root_page};

use crate::batch::{count_after, journal_bytes};
use crate::device::{make_fault, settle, store_fault, write_made, write_through};
use crate::header::{is_made, read_count, read_header, size_of};
use crate::replay::repair;
use std::alloc::Global;
use std::marker::Model;
use wm_faults::{MakeFault, OpenFault, StoreFault};
use wm_page::PageBatch;
use wm_station::Station;

const PAGE: u64 = 4096;

/// The journal of a store. What is seen of it is the page count: so many pages are in use, from page 0 on.
#[derive(Drop)]
pub struct Journal {
    count: u64,
}

impl Model for Journal {
    ghost Value = { ℕ };

    ghost view = { λ j. j.count };

    ghost invariant = { λ j. 3 ≤ j.count };
}

impl Journal {
    /// How many pages are in use.
    pub fn count(&self) -> u64
        ensures value { result ≡ self.now }
        ensures enough { 3 ≤ result }
    {
        self.count
    }

    /// Writes the pages of the batch, all or nothing. After an error the store is to be opened again: then
    /// it has the old pages or the new ones.
    pub fn commit<P: Station>(
        &mut self,
        alloc: Global,
        station: &mut P,
        batch: &PageBatch,
    ) -> Result<(), StoreFault>
        requires some { 0 < length batch.now.pages }
        requires pages { IsTrue (are_below (max self.old (count_after self.old (entries batch.now.pages))) (entries batch.now.pages)) }
        requires root { 3 ≤ count_after self.old (entries batch.now.pages) }
        requires grown { (p : ℕ) → self.old ≤ p → p < count_after self.old (entries batch.now.pages) → IsTrue (is_named p (entries batch.now.pages)) }
        requires rests { P.tells → IsAtRest (P.history station.old) self.old }

        ensures rests { P.tells → OnOk result (IsAtRest (P.history station.new) self.new) }
        ensures pages { P.tells → OnOk result ((p : ℕ) → 1 ≤ p → p < self.new → page (now (P.history station.new)) p ≡ over (entries batch.now.pages) (page (now (P.history station.old))) p) }
        ensures count { OnOk result (self.new ≡ count_after self.old (entries batch.now.pages)) }
        ensures same_count { OnErr result (self.new ≡ self.old) }

        // The journal is written and synced, then the gate opened, the pages put in their places and the gate closed.
        ensures did { P.tells → OnOk result (Did (commit_steps self.old (entries batch.now.pages)) (P.history station.old) (P.history station.new)) }
        ensures part { P.tells → OnErr result (DidPart (commit_steps self.old (entries batch.now.pages)) (P.history station.old) (P.history station.new)) }

        // Its own memory is taken before its first write.
        ensures untouched { P.tells → (P.wants → ⊥) → IsErrOf result StoreFault.Memory → P.history station.new ≡ P.history station.old }

        // A crash at any moment of the call, and a read after it, finds all old pages or all new ones.
        ensures any_moment { P.tells → Ended (P.history station.old) (P.history station.new) (OldOrNew (page (now (P.history station.old))) self.old (entries batch.now.pages)) }

        ensures later { P.disk_faults station.old ≤ P.disk_faults station.new }
        ensures disk { IsErrOf result StoreFault.Disk → Rises (P.disk_faults station.old) (P.disk_faults station.new) }
        ensures cause { StoreCause (P.disk_faults station.old) (P.disk_faults station.new) result }
        ensures not_changed { IsErrOf result StoreFault.Changed → ⊥ }
        ensures say_quiet { P.say_faults station.new ≡ P.say_faults station.old }
    {
        let pages = batch.pages.as_slice();
        let count = count_after(self.count, pages);
        let start = self.count.max(count);
        let journal = journal_bytes(alloc, pages)?;
        if start > u64::MAX / PAGE {
            return Err(StoreFault::Memory);
        }
        match write_through(station, start, &journal, pages) {
            Ok(()) => {
                self.count = count;
                Ok(())
            }
            Err(failed) => Err(store_fault(failed)),
        }
    }

    /// Makes a store of pages 1 and 2. What a crash within it leaves, or an error but Exists, is not said.
    pub fn make<P: Station>(station: &mut P, batch: &PageBatch) -> Result<Journal, MakeFault>
        requires pages { IsTrue (are_below 3 (entries batch.now.pages)) }
        requires first { IsTrue (is_named 1 (entries batch.now.pages)) }
        requires second { IsTrue (is_named 2 (entries batch.now.pages)) }
        requires root { count_after 0 (entries batch.now.pages) ≡ 3 }

        ensures rests { P.tells → IfOk result (λ j. IsAtRest (P.history station.new) j) }
        ensures durable { P.tells → OnOk result ((c : _) → Leaves (P.history station.new) c → c ≡ now (P.history station.new)) }
        ensures count { IfOk result (λ j. j ≡ 3) }
        ensures pages { P.tells → OnOk result ((p : ℕ) → 1 ≤ p → p < 3 → page (now (P.history station.new)) p ≡ over (entries batch.now.pages) (λ _. []) p) }
        ensures root { P.tells → OnOk result (page (now (P.history station.new)) 0 ≡ made_page) }
        ensures size { P.tells → OnOk result (length (now (P.history station.new)) ≡ max 12288 (length (now (P.history station.old)))) }
        ensures quiet { P.tells → said (P.history station.new) ≡ said (P.history station.old) }

        ensures exists { P.tells → IsErrOf result MakeFault.Exists → (is_made (now (P.history station.old)) ≡ true) × (P.history station.new ≡ P.history station.old) }
        ensures absent { P.tells → OnOk result (is_made (now (P.history station.old)) ≡ false) }
        // A store that is there is never touched, whatever the answer.
        ensures kept { P.tells → is_made (now (P.history station.old)) ≡ true → P.history station.new ≡ P.history station.old }
        ensures did { P.tells → OnOk result (Did (making root_page (entries batch.now.pages)) (P.history station.old) (P.history station.new)) }
        ensures part { P.tells → OnErr result (DidPart (making root_page (entries batch.now.pages)) (P.history station.old) (P.history station.new)) }
        ensures later { P.disk_faults station.old ≤ P.disk_faults station.new }
        ensures disk { IsErrOf result MakeFault.Disk → Rises (P.disk_faults station.old) (P.disk_faults station.new) }
        ensures cause { MakeCause (P.disk_faults station.old) (P.disk_faults station.new) result }
        ensures wants { IsErrOf result MakeFault.Memory → P.wants }
        ensures say_quiet { P.say_faults station.new ≡ P.say_faults station.old }
    {
        match is_made(station) {
            Ok(false) => {}
            Ok(true) => return Err(MakeFault::Exists),
            Err(failed) => return Err(make_fault(failed)),
        }
        match write_made(station, batch.pages.as_slice()) {
            Ok(()) => Ok(Journal { count: 3 }),
            Err(failed) => Err(make_fault(failed)),
        }
    }

    /// Opens a store that a crash may have left, and repairs it: the images of an open journal go to their
    /// places, and it is closed.
    pub fn open<P: Station>(alloc: Global, station: &mut P) -> Result<Journal, OpenFault>
        // What each answer says of the file as it was.
        ensures fault { P.tells → IfErr result (λ e. Says e (now (P.history station.old))) }
        ensures store { P.tells → OnOk result ((is_made (now (P.history station.old)) ≡ true) × (damage_of (now (P.history station.old)) ≡ None)) }
        ensures count { P.tells → IfOk result (λ j. j ≡ count_of (now (P.history station.old))) }

        // The file then says what it said, with the gate closed, and a crash leaves that alone.
        ensures keeps { P.tells → Keeps (now (P.history station.old)) (now (P.history station.new)) }
        ensures closed { P.tells → OnOk result (is_open (now (P.history station.new)) ≡ false) }
        ensures durable { P.tells → OnOk result ((c : _) → Leaves (P.history station.new) c → c ≡ now (P.history station.new)) }
        ensures rests { P.tells → IfOk result (λ j. j * 4096 ≤ length (now (P.history station.new)) → IsAtRest (P.history station.new) j) }

        // A crash at any moment leaves what one could leave before, or a file that says what this one said.
        ensures any_moment { P.tells → During (P.history station.old) (P.history station.new) (λ c s. (Leaves (P.history station.old) c ⊎ Keeps (now (P.history station.old)) c) × (s ≡ said (P.history station.old))) }
        // It syncs first, and a crash behind that leaves a file that says what this one said.
        ensures settles { P.tells → Settles (P.history station.old) (P.history station.new) (Keeps (now (P.history station.old))) }
        ensures quiet { P.tells → said (P.history station.new) ≡ said (P.history station.old) }
        ensures untouched { P.tells → IfErr result (λ e. IsUntouched e → P.history station.new ≡ Synced (P.history station.old)) }

        ensures later { P.disk_faults station.old ≤ P.disk_faults station.new }
        ensures disk { IsErrOf result OpenFault.Disk → Rises (P.disk_faults station.old) (P.disk_faults station.new) }
        ensures cause { OpenCause (P.disk_faults station.old) (P.disk_faults station.new) result }
        ensures say_quiet { P.say_faults station.new ≡ P.say_faults station.old }
    {
        settle(station)?;
        let size = size_of(station)?;
        let header = read_header(station, size)?;
        repair(alloc, station, size, &header)?;
        let count = read_count(station, size)?;
        Ok(Journal { count })
    }
}
