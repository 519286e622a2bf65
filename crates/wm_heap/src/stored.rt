//! The slots of a page, as the store has them.
ghost use Rattle.std.specs.Prelude.{◌≡◌, ◌<◌, ◌≤◌, true, is_some, IfOk, IsErrOf};
ghost use Rattle.wm_faults.specs.declared.fault.StoreFault.TheVariants as faults;
ghost use Rattle.wm_page.specs.Cause.{StoreCause};
ghost use Rattle.wm_heap.specs.Content.{slots_in};
ghost use Rattle.wm_heap.specs.Slots.{slots_of, used};

use crate::reading::read_slots;
use crate::slot::Slots;
use std::alloc::Global;
use wm_faults::StoreFault;
use wm_page::{PAGE_SIZE, Pages, PagesFailed};

/// The slots of a page. Changed is answered where the page is not in use or holds none.
pub fn stored_slots<G: Pages>(alloc: Global, pages: &mut G, page: u64) -> Result<Slots, StoreFault>
    ensures value { G.tells → IfOk result (λ slots. slots ≡ slots_in (G.held pages.old) page) }
    ensures room { IfOk result (λ slots. used slots ≤ 4096) }
    ensures told { G.tells → G.held pages.new ≡ G.held pages.old }
    ensures past { G.tells → G.past pages.new ≡ G.past pages.old }
    ensures source { G.source pages.new ≡ G.source pages.old }
    ensures in_use { G.in_use pages.new ≡ G.in_use pages.old }
    ensures in_file { G.in_file pages.new ≡ G.in_file pages.old }
    ensures cause { StoreCause (G.faults pages.old) (G.faults pages.new) result }
    ensures sound { G.tells → page < G.in_use pages.old → page < G.in_file pages.old → is_some (slots_of (G.held pages.old page)) ≡ true → IsErrOf result faults.Changed → ⊥ }
{
    if page >= pages.count() || page >= pages.whole() {
        return Err(StoreFault::Changed);
    }
    let mut bytes = [0; PAGE_SIZE];
    match pages.page(page, &mut bytes) {
        Ok(()) => {}
        Err(PagesFailed::Failed) => return Err(StoreFault::Disk),
        Err(PagesFailed::Memory) => return Err(StoreFault::Memory),
    }
    match read_slots(alloc, &bytes)? {
        Some(slots) => Ok(slots),
        None => Err(StoreFault::Changed),
    }
}
