//! The records of a store that was just made, and its heap.
ghost use Rattle.std.specs.Prelude.{◌≡◌, ℕ, ◌≤◌, ◌∷◌, [], List, Some, None, IfOk, OnOk};
ghost use Rattle.wm_page.specs.Batch.{entries};
ghost use Rattle.wm_page.specs.Fields.{number_at};
ghost use Rattle.wm_heap.specs.Blobs.{slots_put};
ghost use Rattle.wm_heap.specs.Content.{fault_of, slots_in};
ghost use Rattle.wm_heap.specs.Places.{IsHeapOf};
ghost use Rattle.wm_heap.specs.Plan.{root_of};
ghost use Rattle.wm_heap.specs.Room.{KnowsRoom};
ghost use Rattle.wm_heap.specs.Slots.{slots_of, page_of};
ghost use Rattle.wm_store.specs.Fresh.{fresh_changes, live};
ghost use Rattle.wm_store.specs.Spelled.{HaveSpellings, blobs_of};

use crate::blobs::spell_changes;
use std::alloc::Global;
use wm_base::{Memory, Name};
use wm_heap::Heap;
use wm_page::PageBatch;
use wm_spec::record::{Boxed, Change, Changes, Counters, FreezeMode, Record, Space, Version};

/// The workspace LIVE, with nothing in it.
fn live_space(alloc: Global) -> Result<Space, Memory>
    ensures { IfOk result (λ space. space ≡ live) }
{
    let name = Name::copy_of(alloc, &[76, 73, 86, 69])?;
    let writer = Name::copy_of(alloc, &[])?;
    Ok(Space {
        number: 0,
        name,
        parent: 0,
        born: 0,
        birth_version: 1,
        birth_place: 0,
        base_version: 0,
        from: 0,
        log_length: 0,
        rebases: 0,
        next_place: 1,
        next_implicit: 1,
        freeze: FreezeMode::Free,
        writer,
    })
}

/// What is put in a store that takes so many changes: counters, LIVE and its version.
fn fresh(alloc: Global, limit: u32) -> Result<Changes, Memory>
    ensures { IfOk result (λ changes. changes ≡ fresh_changes limit) }
{
    let counters = Counters {
        next_stamp: 1,
        last_moment: 0,
        limit,
        next_version: 2,
        work: 0,
    };
    let version = Version {
        number: 1,
        space: 0,
        parent: 0,
    };
    let space = Boxed::new(alloc, live_space(alloc)?)?;
    let mut changes = Changes::new(alloc);
    changes.push(Change {
        id: 1,
        becomes: Some(Record::Counters(counters)),
    })?;
    changes.push(Change {
        id: 2,
        becomes: Some(Record::Space(space)),
    })?;
    changes.push(Change {
        id: 3,
        becomes: Some(Record::Version(version)),
    })?;
    Ok(changes)
}

/// The heap of a store that takes so many changes, and its pages. No station is asked for them.
pub fn fresh_heap(alloc: Global, limit: u32) -> Result<(Heap, PageBatch), Memory>
    ensures spelled { OnOk result (HaveSpellings (fresh_changes limit)) }
    ensures pages { IfOk result (λ r. entries r.1.pages ≡ (1, root_of 3) ∷ (2, page_of (slots_put (blobs_of (fresh_changes limit)))) ∷ []) }
    ensures root { OnOk result (number_at (root_of 3) 0 ≡ 3) }
    ensures again { OnOk result (slots_of (page_of (slots_put (blobs_of (fresh_changes limit)))) ≡ Some (slots_put (blobs_of (fresh_changes limit)))) }
    ensures heap { IfOk result (λ r. (held : ℕ → List ℕ) → held 2 ≡ page_of (slots_put (blobs_of (fresh_changes limit))) → IsHeapOf r.0 held 3) }
    ensures room { IfOk result (λ r. (held : ℕ → List ℕ) → held 2 ≡ page_of (slots_put (blobs_of (fresh_changes limit))) → KnowsRoom r.0.room (slots_in held) 3) }
    ensures sound { OnOk result ((held : ℕ → List ℕ) (whole : ℕ) → held 2 ≡ page_of (slots_put (blobs_of (fresh_changes limit))) → 3 ≤ whole → fault_of held 3 whole ≡ None) }
{
    let changes = fresh(alloc, limit)?;
    let blobs = spell_changes(alloc, changes.as_slice())?;
    let (heap, pages) = Heap::first(alloc, &blobs)?;
    Ok((heap, pages))
}
