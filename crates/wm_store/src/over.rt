//! The heap over the pages of a station.
ghost use Rattle.std.specs.Prelude.{◌≡◌, ◌+◌, ◌*◌, ◌/◌, ◌<◌, ◌≤◌, true, false, [], length, is_some, Ok, IfOk, IfErr, OnOk, IsErrOf};
ghost use Rattle.std.specs.List.{list_any};
ghost use Rattle.wm_faults.specs.declared.fault.OpenFault.TheVariants as opening;
ghost use Rattle.wm_faults.specs.declared.fault.StoreFault.TheVariants as storing;
ghost use Rattle.wm_page.specs.Batch.{entries};
ghost use Rattle.wm_page.specs.Cause.{OpenCause, StoreCause};
ghost use Rattle.wm_station.specs.History.{now};
ghost use Rattle.wm_journal.specs.Disk.{page};
ghost use Rattle.wm_heap.specs.Blobs.{AreBlobs, AreSmall, change_something, moves, slots_put};
ghost use Rattle.wm_heap.specs.Content.{content, bytes_at, slots_in};
ghost use Rattle.wm_heap.specs.Places.{place_of, page_count, IsHeapOf};
ghost use Rattle.wm_heap.specs.Plan.{IsPlan, IsChanged, laid};
ghost use Rattle.wm_heap.specs.Room.{KnowsRoom};
ghost use Rattle.wm_store.specs.Answers.{FindsIn};
ghost use Rattle.wm_store.specs.Few.{AddsLate, PutsFew};
ghost use Rattle.wm_store.specs.Opened.{pages_opened};

use crate::changes::change_pages;
use crate::records::load_pages;
use crate::station_pages::{StationPages, whole_pages};
use std::alloc::Global;
use wm_base::Bytes;
use wm_faults::{OpenFault, StoreFault};
use wm_heap::{Blobs, Heap};
use wm_journal::{open_fault, store_fault};
use wm_page::PageBatch;
use wm_spec::record::Records;
use wm_station::Station;

/// The heap and the records of a store with so many pages, whose station is at rest.
#[tactic(auto, using(crate::proofs::Pasts::past_injective))]
pub fn load_over<P: Station>(
    alloc: Global,
    station: &mut P,
    count: u64,
) -> Result<(Heap, Records), OpenFault>
    requires { 3 ≤ count }
    ensures heap { P.tells → IfOk result (λ r. IsHeapOf r.0 (page (now (P.history station.old))) count) }
    ensures room { P.tells → IfOk result (λ r. KnowsRoom r.0.room (slots_in (page (now (P.history station.old)))) count) }
    ensures size { P.tells → OnOk result (count * 4096 ≤ length (now (P.history station.old))) }
    ensures records { P.tells → IfOk result (λ r. pages_opened (page (now (P.history station.old))) count (length (now (P.history station.old)) / 4096) ≡ Ok r.1) }
    ensures fault { P.tells → IfErr result (λ e. FindsIn e (pages_opened (page (now (P.history station.old))) count (length (now (P.history station.old)) / 4096))) }
    ensures store { IsErrOf result opening.NotStore → ⊥ }
    ensures told { P.tells → P.history station.new ≡ P.history station.old }
    ensures cause { OpenCause (P.disk_faults station.old) (P.disk_faults station.new) result }
    ensures say_quiet { P.say_faults station.new ≡ P.say_faults station.old }
{
    let whole = match whole_pages(station) {
        Ok(whole) => whole,
        Err(failed) => return Err(open_fault(failed)),
    };
    let mut pages = StationPages::new(station, count, whole);
    load_pages(alloc, &mut pages)
}

/// The pages of those changes that say something else than stands there. There are some where a record comes or goes,
/// whatever the station tells.
#[tactic(auto, using(crate::proofs::Pasts::past_injective))]
pub fn change_over<P: Station>(
    alloc: Global,
    station: &mut P,
    heap: &mut Heap,
    count: u64,
    blobs: Blobs,
) -> Result<PageBatch, StoreFault>
    requires once { AreBlobs blobs }
    requires small { AreSmall blobs }
    requires heap { P.tells → IsHeapOf heap.old (page (now (P.history station.old))) count }
    requires size { P.tells → count * 4096 ≤ length (now (P.history station.old)) }
    ensures plan { IfOk result (λ b. IsPlan (page_count heap.old) (page_count heap.new) (entries b.pages)) }
    ensures few { IfOk result (λ b. length b.pages ≤ 2 * length blobs + 2) }
    ensures idle { IfOk result (λ b. change_something (λ id. is_some (place_of heap.old id)) blobs ≡ false → b.pages ≡ []) }
    ensures moved { IfOk result (λ b. list_any (moves (λ id. is_some (place_of heap.old id))) blobs ≡ true → 0 < length b.pages) }
    ensures altered { P.tells → IfOk result (λ b. PutsFew blobs b.pages (bytes_at (content (page (now (P.history station.old))) count))) }
    ensures late { P.tells → KnowsRoom heap.old.room (slots_in (page (now (P.history station.old)))) (page_count heap.old) → OnOk result (AddsLate (page_count heap.old) (page_count heap.new) (page (now (P.history station.old))) (slots_put blobs)) }
    ensures changed { P.tells → IfOk result (λ b. IsChanged heap.new blobs (entries b.pages) (page (now (P.history station.old))) count) }
    ensures knows { P.tells → KnowsRoom heap.old.room (slots_in (page (now (P.history station.old)))) (page_count heap.old) → IfOk result (λ b. KnowsRoom heap.new.room (slots_in (laid (entries b.pages) (page (now (P.history station.old))))) (page_count heap.new)) }
    ensures told { P.tells → P.history station.new ≡ P.history station.old }
    ensures cause { StoreCause (P.disk_faults station.old) (P.disk_faults station.new) result }
    ensures sound { P.tells → IsErrOf result storing.Changed → ⊥ }
    ensures say_quiet { P.say_faults station.new ≡ P.say_faults station.old }
{
    let whole = match whole_pages(station) {
        Ok(whole) => whole,
        Err(failed) => return Err(store_fault(failed)),
    };
    // Another writer cut the file.
    if whole < count {
        return Err(StoreFault::Changed);
    }
    let mut pages = StationPages::new(station, count, whole);
    change_pages(alloc, &mut pages, heap, blobs)
}

/// The bytes of a record of a store with so many pages, whose station is at rest.
#[tactic(auto, using(crate::proofs::Pasts::past_injective))]
pub fn get_over<P: Station>(
    alloc: Global,
    station: &mut P,
    heap: &Heap,
    count: u64,
    id: u64,
) -> Result<Option<Bytes>, StoreFault>
    requires heap { P.tells → IsHeapOf heap.now (page (now (P.history station.old))) count }
    requires size { P.tells → count * 4096 ≤ length (now (P.history station.old)) }
    ensures bytes { P.tells → IfOk result (λ bytes. bytes ≡ bytes_at (content (page (now (P.history station.old))) count) id) }
    ensures there { IfOk result (λ bytes. is_some bytes ≡ is_some (place_of heap.now id)) }
    ensures told { P.tells → P.history station.new ≡ P.history station.old }
    ensures cause { StoreCause (P.disk_faults station.old) (P.disk_faults station.new) result }
    ensures sound { P.tells → IsErrOf result storing.Changed → ⊥ }
    ensures say_quiet { P.say_faults station.new ≡ P.say_faults station.old }
{
    let whole = match whole_pages(station) {
        Ok(whole) => whole,
        Err(failed) => return Err(store_fault(failed)),
    };
    let mut pages = StationPages::new(station, count, whole);
    let bytes = heap.get(alloc, &mut pages, id)?;
    Ok(bytes)
}
