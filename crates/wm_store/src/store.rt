//! A store: its records, and how they change.
ghost use Rattle.std.specs.Prelude.{◌≡◌, ℕ, ◌+◌, ◌*◌, ◌<◌, ◌≤◌, ◌⊎◌, max, true, false, List, length, is_some, Ok, Err, IfOk, IfErr, OnOk, IsErrOf};
ghost use Rattle.wm_faults.specs.declared.fault.MakeFault.TheVariants as making;
ghost use Rattle.wm_faults.specs.declared.fault.OpenFault.TheVariants as opening;
ghost use Rattle.wm_faults.specs.declared.fault.StoreFault.TheVariants as storing;
ghost use Rattle.wm_spec.specs.Records.{AreChanges, AfterBatch, record_at};
ghost use Rattle.wm_spec.specs.declared.record.stored.Stored.{Stored};
ghost use Rattle.wm_page.specs.Cause.{MakeCause, OpenCause, StoreCause};
ghost use Rattle.wm_station.specs.Cause.{Rises};
ghost use Rattle.wm_station.specs.History.{now, said, Leaves, Synced};
ghost use Rattle.wm_station.specs.Moments.{Holds, During, Ended};
ghost use Rattle.wm_journal.specs.Disk.{is_made, count_of, page};
ghost use Rattle.wm_journal.specs.Opening.{IsUntouched};
ghost use Rattle.wm_journal.specs.Store.{Settles};
ghost use Rattle.wm_heap.specs.Blobs.{slots_put};
ghost use Rattle.wm_heap.specs.Places.{place_of};
ghost use Rattle.wm_store.specs.Answers.{SaysOf};
ghost use Rattle.wm_store.specs.Few.{AddsLate};
ghost use Rattle.wm_store.specs.Fresh.{fresh_records};
ghost use Rattle.wm_store.specs.Opened.{Held, SaysAs, HoldsAs};
ghost use Rattle.wm_store.specs.Spelled.{FitPages, blobs_of};

use crate::blobs::spell_changes;
use crate::fresh::fresh_heap;
use crate::over::{change_over, get_over, load_over};
use crate::records::record_in;
use std::alloc::Global;
use wm_faults::{MakeFault, OpenFault, StoreFault};
use wm_heap::Heap;
use wm_journal::Journal;
use wm_spec::record::{Batch, Record, Records};
use wm_station::Station;

/// Where the records of a store stand. They are read from its station and changed there.
#[derive(Drop)]
pub struct Store {
    pub(crate) journal: Journal,
    pub(crate) heap: Heap,
}

impl Store {
    ghost use Rattle.wm_store.specs.Stores.{IsStoreOf, KnowsRoomOf, OldOrAfter, ChangesNothing, ChangesOnly, DifferOnFew};

    /// Makes a store of a file that holds none, which takes `limit` changes. It then holds three records: counters, the
    /// workspace LIVE, and its version. What a crash within the call leaves, or an error but Exists, is not said.
    pub fn make<P: Station>(alloc: Global, station: &mut P, limit: u32) -> Result<Store, MakeFault>
        requires some { 1 ≤ limit }
        requires most { limit ≤ 1048576 }
        ensures held { P.tells → OnOk result (Holds (P.history station.new) (Held (fresh_records limit))) }
        ensures store { P.tells → IfOk result (λ s. IsStoreOf s (P.history station.new)) }
        ensures room { P.tells → IfOk result (λ s. KnowsRoomOf s (P.history station.new)) }
        ensures durable { P.tells → OnOk result ((c : List ℕ) → Leaves (P.history station.new) c → c ≡ now (P.history station.new)) }
        ensures count { P.tells → OnOk result (count_of (now (P.history station.new)) ≡ 3) }
        ensures size { P.tells → OnOk result (length (now (P.history station.new)) ≡ max 12288 (length (now (P.history station.old)))) }
        ensures quiet { P.tells → said (P.history station.new) ≡ said (P.history station.old) }
        ensures exists { P.tells → IsErrOf result making.Exists → (is_made (now (P.history station.old)) ≡ true) × (P.history station.new ≡ P.history station.old) }
        ensures absent { P.tells → OnOk result (is_made (now (P.history station.old)) ≡ false) }
        // A store that is there is never touched, whatever the answer.
        ensures kept { P.tells → is_made (now (P.history station.old)) ≡ true → P.history station.new ≡ P.history station.old }
        // Its own memory is taken before its first write.
        ensures untouched { P.tells → (P.wants → ⊥) → IsErrOf result making.Memory → P.history station.new ≡ P.history station.old }
        ensures later { P.disk_faults station.old ≤ P.disk_faults station.new }
        ensures disk { IsErrOf result making.Disk → Rises (P.disk_faults station.old) (P.disk_faults station.new) }
        ensures cause { MakeCause (P.disk_faults station.old) (P.disk_faults station.new) result }
        ensures say_quiet { P.say_faults station.new ≡ P.say_faults station.old }
    {
        let (heap, pages) = fresh_heap(alloc, limit)?;
        let journal = Journal::make(station, &pages)?;
        Ok(Store { journal, heap })
    }

    /// Opens a store that a crash may have left, and gives its records, in the order in which they stand.
    pub fn open<P: Station>(alloc: Global, station: &mut P) -> Result<(Store, Records), OpenFault>
        // What each answer says of the file as it was.
        ensures records { P.tells → IfOk result (λ r. Held r.1 (now (P.history station.old))) }
        ensures fault { P.tells → IfErr result (λ e. SaysOf e (now (P.history station.old))) }

        // The file then says what it said, and so does each that a crash leaves.
        ensures held { P.tells → IfOk result (λ r. Holds (P.history station.new) (Held r.1)) }
        ensures store { P.tells → IfOk result (λ r. IsStoreOf r.0 (P.history station.new)) }
        ensures room { P.tells → IfOk result (λ r. KnowsRoomOf r.0 (P.history station.new)) }
        ensures same { P.tells → SaysAs (now (P.history station.old)) (now (P.history station.new)) }
        ensures any_moment { P.tells → During (P.history station.old) (P.history station.new) (λ c s. (Leaves (P.history station.old) c ⊎ SaysAs (now (P.history station.old)) c) × (s ≡ said (P.history station.old))) }
        ensures quiet { P.tells → said (P.history station.new) ≡ said (P.history station.old) }
        ensures untouched { P.tells → IsErrOf result opening.NotStore → now (P.history station.new) ≡ now (P.history station.old) }

        // Whatever the answer, each page is held as it was, now and after a crash at any moment.
        ensures pages { P.tells → HoldsAs (now (P.history station.old)) (now (P.history station.new)) }
        ensures pages_any_moment { P.tells → During (P.history station.old) (P.history station.new) (λ c s. (Leaves (P.history station.old) c ⊎ HoldsAs (now (P.history station.old)) c) × (s ≡ said (P.history station.old))) }

        // It syncs first, and a crash behind that leaves a file whose pages are held as they were.
        ensures settles { P.tells → Settles (P.history station.old) (P.history station.new) (HoldsAs (now (P.history station.old))) }

        // Where the file is no store, or page 0 is damaged, it was only synced.
        ensures synced { P.tells → IfErr result (λ e. IsUntouched e → P.history station.new ≡ Synced (P.history station.old)) }

        ensures later { P.disk_faults station.old ≤ P.disk_faults station.new }
        ensures disk { IsErrOf result opening.Disk → Rises (P.disk_faults station.old) (P.disk_faults station.new) }
        ensures cause { OpenCause (P.disk_faults station.old) (P.disk_faults station.new) result }
        ensures say_quiet { P.say_faults station.new ≡ P.say_faults station.old }
    {
        let journal = Journal::open(alloc, station)?;
        let (heap, records) = load_over(alloc, station, journal.count())?;
        Ok((Store { journal, heap }, records))
    }

    /// Changes the records as the batch says, all or nothing. After an error the store is to be opened again: then it
    /// holds the old records or those after the batch.
    pub fn commit<P: Station>(
        &mut self,
        alloc: Global,
        station: &mut P,
        batch: &Batch,
    ) -> Result<(), StoreFault>
        requires changes { AreChanges batch.now.changes }
        requires fit { FitPages batch.now.changes }
        requires store { P.tells → IsStoreOf self.old (P.history station.old) }
        ensures store { P.tells → OnOk result (IsStoreOf self.new (P.history station.new)) }
        ensures held { P.tells → OnOk result ((old : List Stored) → Held old (now (P.history station.old)) → (new : List Stored) × AfterBatch old batch.now.changes new × Holds (P.history station.new) (Held new)) }

        // A crash at any moment of the call, and a read after it, finds the old records or those after the batch.
        ensures any_moment { P.tells → (old : List Stored) → Held old (now (P.history station.old)) → Ended (P.history station.old) (P.history station.new) (OldOrAfter old batch.now.changes) }

        // At most two pages for each change and two more are other than they were, whatever the store holds.
        ensures few { P.tells → OnOk result (DifferOnFew self.new.journal (2 * length batch.now.changes + 2) (page (now (P.history station.old))) (page (now (P.history station.new)))) }

        // At most two for each record that is other than it was, and two more.
        ensures pages { P.tells → OnOk result ((old : List Stored) → Held old (now (P.history station.old)) → (ids : List ℕ) → ChangesOnly ids old batch.now.changes → DifferOnFew self.new.journal (2 * length ids + 2) (page (now (P.history station.old))) (page (now (P.history station.new)))) }

        // A store that knows the room of its pages still does, and then a page is added only where each page has less
        // than a quarter of a page more room than the batch puts, and the last has no room for it.
        ensures room { P.tells → KnowsRoomOf self.old (P.history station.old) → OnOk result (KnowsRoomOf self.new (P.history station.new)) }
        ensures late { P.tells → KnowsRoomOf self.old (P.history station.old) → OnOk result (AddsLate self.old.journal self.new.journal (page (now (P.history station.old))) (slots_put (blobs_of batch.now.changes))) }

        // A batch that changes nothing leaves the station alone.
        ensures nothing { P.tells → (old : List Stored) → Held old (now (P.history station.old)) → ChangesNothing old batch.now.changes → P.history station.new ≡ P.history station.old }

        // Its own memory is taken before its first write.
        ensures untouched { P.tells → (P.wants → ⊥) → IsErrOf result storing.Memory → P.history station.new ≡ P.history station.old }

        ensures later { P.disk_faults station.old ≤ P.disk_faults station.new }
        ensures disk { IsErrOf result storing.Disk → Rises (P.disk_faults station.old) (P.disk_faults station.new) }
        ensures cause { StoreCause (P.disk_faults station.old) (P.disk_faults station.new) result }
        ensures not_changed { P.tells → IsErrOf result storing.Changed → ⊥ }
        ensures say_quiet { P.say_faults station.new ≡ P.say_faults station.old }
    {
        let count = self.journal.count();
        if self.heap.page_count() != count {
            return Err(StoreFault::Changed);
        }
        let blobs = spell_changes(alloc, batch.changes.as_slice())?;
        let pages = change_over(alloc, station, &mut self.heap, count, blobs)?;
        if pages.pages.is_empty() {
            return Ok(());
        }
        self.journal.commit(alloc, station, &pages)?;
        Ok(())
    }

    /// The record of an id, read from its page; None exactly where there is none of this id. The store knows where an
    /// id stands and nothing of what the records say, so a row is asked for by its id and not by its stamp. Changed is
    /// answered where the page no longer has what it had.
    pub fn fetch<P: Station>(
        &self,
        alloc: Global,
        station: &mut P,
        id: u64,
    ) -> Result<Option<Record>, StoreFault>
        requires store { P.tells → IsStoreOf self.now (P.history station.old) }
        ensures record { P.tells → IfOk result (λ found. (records : List Stored) → Held records (now (P.history station.old)) → found ≡ record_at records id) }

        // Also where the station tells nothing: None is no answer for a record that was not read.
        ensures there { IfOk result (λ found. is_some found ≡ is_some (place_of self.now.heap id)) }

        // Reading changes nothing, so the store is still that of the station.
        ensures told { P.tells → P.history station.new ≡ P.history station.old }

        ensures later { P.disk_faults station.old ≤ P.disk_faults station.new }
        ensures disk { IsErrOf result storing.Disk → Rises (P.disk_faults station.old) (P.disk_faults station.new) }
        ensures cause { StoreCause (P.disk_faults station.old) (P.disk_faults station.new) result }
        ensures not_changed { P.tells → IsErrOf result storing.Changed → ⊥ }
        ensures say_quiet { P.say_faults station.new ≡ P.say_faults station.old }
    {
        let count = self.journal.count();
        let Some(bytes) = get_over(alloc, station, &self.heap, count, id)? else {
            return Ok(None);
        };
        match record_in(alloc, bytes.as_slice())? {
            Some(record) => Ok(Some(record)),
            None => Err(StoreFault::Changed),
        }
    }
}
