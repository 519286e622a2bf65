//! The pages that change the records of a store.
ghost use Rattle.std.specs.Prelude.{◌≡◌, ◌+◌, ◌*◌, ◌<◌, ◌≤◌, true, false, [], length, is_some, IfOk, OnOk, IsErrOf};
ghost use Rattle.std.specs.List.{list_any};
ghost use Rattle.wm_faults.specs.declared.fault.StoreFault.TheVariants as faults;
ghost use Rattle.wm_page.specs.Batch.{entries};
ghost use Rattle.wm_page.specs.Cause.{StoreCause};
ghost use Rattle.wm_heap.specs.Blobs.{AreBlobs, AreSmall, change_something, moves, slots_put};
ghost use Rattle.wm_heap.specs.Content.{content, bytes_at, slots_in};
ghost use Rattle.wm_heap.specs.Places.{place_of, page_count, IsHeapOf};
ghost use Rattle.wm_heap.specs.Plan.{IsPlan, IsChanged, laid};
ghost use Rattle.wm_heap.specs.Room.{KnowsRoom};
ghost use Rattle.wm_store.specs.Few.{AddsLate, PutsFew};

use std::alloc::Global;
use wm_faults::StoreFault;
use wm_heap::{Blobs, Heap};
use wm_page::{PageBatch, Pages};

/// The pages of those changes that say something else than stands there. There are some where a record comes or goes,
/// whatever the pages tell.
pub fn change_pages<G: Pages>(
    alloc: Global,
    pages: &mut G,
    heap: &mut Heap,
    blobs: Blobs,
) -> Result<PageBatch, StoreFault>
    requires once { AreBlobs blobs }
    requires small { AreSmall blobs }
    requires heap { G.tells → IsHeapOf heap.old (G.held pages.old) (G.in_use pages.old) }
    requires whole { G.tells → G.in_use pages.old ≤ G.in_file pages.old }
    ensures plan { IfOk result (λ b. IsPlan (page_count heap.old) (page_count heap.new) (entries b.pages)) }
    ensures few { IfOk result (λ b. length b.pages ≤ 2 * length blobs + 2) }
    ensures idle { IfOk result (λ b. change_something (λ id. is_some (place_of heap.old id)) blobs ≡ false → b.pages ≡ []) }
    ensures moved { IfOk result (λ b. list_any (moves (λ id. is_some (place_of heap.old id))) blobs ≡ true → 0 < length b.pages) }
    ensures altered { G.tells → IfOk result (λ b. PutsFew blobs b.pages (bytes_at (content (G.held pages.old) (G.in_use pages.old)))) }
    ensures late { G.tells → KnowsRoom heap.old.room (slots_in (G.held pages.old)) (page_count heap.old) → OnOk result (AddsLate (page_count heap.old) (page_count heap.new) (G.held pages.old) (slots_put blobs)) }
    ensures changed { G.tells → IfOk result (λ b. IsChanged heap.new blobs (entries b.pages) (G.held pages.old) (G.in_use pages.old)) }
    ensures knows { G.tells → KnowsRoom heap.old.room (slots_in (G.held pages.old)) (page_count heap.old) → IfOk result (λ b. KnowsRoom heap.new.room (slots_in (laid (entries b.pages) (G.held pages.old))) (page_count heap.new)) }
    ensures told { G.tells → G.held pages.new ≡ G.held pages.old }
    ensures past { G.tells → G.past pages.new ≡ G.past pages.old }
    ensures source { G.source pages.new ≡ G.source pages.old }
    ensures in_use { G.in_use pages.new ≡ G.in_use pages.old }
    ensures in_file { G.in_file pages.new ≡ G.in_file pages.old }
    ensures cause { StoreCause (G.faults pages.old) (G.faults pages.new) result }
    ensures sound { G.tells → IsErrOf result faults.Changed → ⊥ }
{
    let left = heap.altering(alloc, pages, blobs)?;
    heap.plan(alloc, pages, &left)
}
