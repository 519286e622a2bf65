//! The pages of a change, before they are written.
ghost use Rattle.std.specs.Prelude.{◌≡◌, ℕ, ◌+◌, ◌<◌, ◌≤◌, ◌++◌, ◌==◌, List, true, false, nat_lt, length, Some, None, is_some, IfOk, IfSome, OnOk, IsErrOf};
ghost use Rattle.std.specs.BTreeMap.{IsOrdered};
ghost use Rattle.std.specs.Ordering.{nat_cmp};
ghost use Rattle.wm_faults.specs.declared.fault.StoreFault.TheVariants as faults;
ghost use Rattle.wm_page.specs.Batch.{entries};
ghost use Rattle.wm_page.specs.Cause.{StoreCause};
ghost use Rattle.wm_page.specs.Fields.{number_at};
ghost use Rattle.wm_heap.specs.Draft.{slots_now, written, rooted, paged, HasRoom, IsThere};
ghost use Rattle.wm_heap.specs.Places.{at};
ghost use Rattle.wm_heap.specs.Plan.{root_of};
ghost use Rattle.wm_heap.specs.Slots.{slots_of, page_of, used};
ghost use Rattle.wm_heap.specs.declared.slot.Slot.{Slot};

use crate::slot::Slots;
use crate::stored::stored_slots;
use crate::writing::write_slots;
use std::alloc::Global;
use std::collections::BTreeMap;
use wm_base::{Bytes, Memory};
use wm_faults::StoreFault;
use wm_page::{PAGE_SIZE, PageBatch, PageWrite, PageWrites, Pages, write_number};

/// The slots of the pages that a change puts.
pub type Changed = BTreeMap<u64, Slots>;

/// The slots of a page by now. Those that were put there are taken out.
pub fn take_slots<G: Pages>(
    alloc: Global,
    changed: &mut Changed,
    pages: &mut G,
    page: u64,
) -> Result<Slots, StoreFault>
    requires { HasRoom changed.old.entries }
    ensures value { G.tells → IfOk result (λ slots. slots ≡ slots_now changed.old.entries (G.held pages.old) page) }
    ensures room { IfOk result (λ slots. used slots ≤ 4096) }
    ensures others { (p : ℕ) → (p == page) ≡ false → at changed.new.entries p ≡ at changed.old.entries p }
    ensures fewer { length changed.new.entries ≤ length changed.old.entries }
    ensures told { G.tells → G.held pages.new ≡ G.held pages.old }
    ensures past { G.tells → G.past pages.new ≡ G.past pages.old }
    ensures source { G.source pages.new ≡ G.source pages.old }
    ensures in_use { G.in_use pages.new ≡ G.in_use pages.old }
    ensures in_file { G.in_file pages.new ≡ G.in_file pages.old }
    ensures cause { StoreCause (G.faults pages.old) (G.faults pages.new) result }
    ensures sound { G.tells → IsThere changed.old.entries (G.held pages.old) (G.in_use pages.old) (G.in_file pages.old) page → IsErrOf result faults.Changed → ⊥ }
{
    match changed.remove(&page) {
        Some(slots) => Ok(slots),
        None => stored_slots(alloc, pages, page),
    }
}

/// The slots of a page by now, exactly where they leave room for a slot of so many bytes. Those that were put there are
/// taken out. Else nothing is taken out.
pub fn take_fitting<G: Pages>(
    alloc: Global,
    changed: &mut Changed,
    pages: &mut G,
    page: u64,
    len: usize,
) -> Result<Option<Slots>, StoreFault>
    ensures value { G.tells → IfOk result (λ found. IfSome found (λ slots. slots ≡ slots_now changed.old.entries (G.held pages.old) page)) }
    ensures room { IfOk result (λ found. IfSome found (λ slots. used slots + 10 + len ≤ 4096)) }
    ensures none { G.tells → IfOk result (λ found. found ≡ None → 4096 < used (slots_now changed.old.entries (G.held pages.old) page) + 10 + len) }
    ensures others { (p : ℕ) → (p == page) ≡ false → at changed.new.entries p ≡ at changed.old.entries p }
    ensures fewer { length changed.new.entries ≤ length changed.old.entries }
    ensures kept { IfOk result (λ found. found ≡ None → changed.new.entries ≡ changed.old.entries) }
    ensures told { G.tells → G.held pages.new ≡ G.held pages.old }
    ensures past { G.tells → G.past pages.new ≡ G.past pages.old }
    ensures source { G.source pages.new ≡ G.source pages.old }
    ensures in_use { G.in_use pages.new ≡ G.in_use pages.old }
    ensures in_file { G.in_file pages.new ≡ G.in_file pages.old }
    ensures cause { StoreCause (G.faults pages.old) (G.faults pages.new) result }
    ensures sound { G.tells → IsThere changed.old.entries (G.held pages.old) (G.in_use pages.old) (G.in_file pages.old) page → IsErrOf result faults.Changed → ⊥ }
{
    let Some(put) = changed.get(&page) else {
        let slots = stored_slots(alloc, pages, page)?;
        if slots.fit_with(len) {
            return Ok(Some(slots));
        }
        return Ok(None);
    };
    if put.fit_with(len) {
        return Ok(changed.remove(&page));
    }
    Ok(None)
}

/// Page 1 of a store with so many pages.
fn root_page(alloc: Global, count: u64) -> Result<Bytes, Memory>
    ensures page { IfOk result (λ page. page ≡ root_of count) }
    ensures reads { OnOk result (number_at (root_of count) 0 ≡ count) }
{
    let mut page = [0; PAGE_SIZE];
    write_number(&mut page, 0, count);
    let mut bytes = Bytes::new(alloc);
    bytes.append(&page)?;
    Ok(bytes)
}

/// The pages of the slots, as bytes.
fn write_pages(alloc: Global, writes: &mut PageWrites, changed: &Changed) -> Result<(), Memory>
    requires { HasRoom changed.now.entries }
    ensures pages { OnOk result (entries writes.new ≡ entries writes.old ++ written changed.now.entries) }
    ensures again { OnOk result ((p : ℕ) (slots : List Slot) → at changed.now.entries p ≡ Some slots → slots_of (page_of slots) ≡ Some slots) }
    ensures ordered { IsOrdered nat_cmp changed.now }
{
    for (page, slots) in changed.iter() {
        let bytes = write_slots(alloc, slots)?;
        writes.push(PageWrite { page: *page, bytes })?;
    }
    Ok(())
}

/// Page 1, where the page count changes.
pub fn root_pages(alloc: Global, before: u64, count: u64) -> Result<PageWrites, Memory>
    ensures pages { IfOk result (λ pages. entries pages ≡ rooted (nat_lt before count) count) }
    ensures root { OnOk result (before < count → number_at (root_of count) 0 ≡ count) }
{
    let mut pages = PageWrites::new(alloc);
    if before < count {
        let bytes = root_page(alloc, count)?;
        pages.push(PageWrite { page: 1, bytes })?;
    }
    Ok(pages)
}

/// The pages of a change, with page 1 where their number grew.
pub fn page_batch(
    alloc: Global,
    changed: &Changed,
    before: u64,
    count: u64,
) -> Result<PageBatch, Memory>
    requires room { HasRoom changed.now.entries }
    requires within { (p : ℕ) → is_some (at changed.now.entries p) ≡ true → 2 ≤ p }
    ensures pages { IfOk result (λ b. entries b.pages ≡ paged before count changed.now.entries) }
    ensures root { OnOk result (before < count → number_at (root_of count) 0 ≡ count) }
    ensures again { OnOk result ((p : ℕ) (slots : List Slot) → at changed.now.entries p ≡ Some slots → slots_of (page_of slots) ≡ Some slots) }
{
    let mut pages = root_pages(alloc, before, count)?;
    write_pages(alloc, &mut pages, changed)?;
    Ok(PageBatch { pages })
}
