//! Which pages have room, and where a change puts a record that had no place.
ghost use Rattle.std.specs.Prelude.{◌≡◌, ℕ, ◌+◌, ◌-◌, ◌<◌, ◌≤◌, ◌==◌, List, true, false, if◌then◌else◌, length, None, IfOk, OnOk, IfSome, IsErrOf};
ghost use Rattle.std.specs.BTreeSet.{contains};
ghost use Rattle.std.specs.Ordering.{nat_cmp};
ghost use Rattle.wm_faults.specs.declared.fault.StoreFault.TheVariants as faults;
ghost use Rattle.wm_page.specs.Cause.{StoreCause};
ghost use Rattle.wm_heap.specs.Draft.{slots_now, IsThere};
ghost use Rattle.wm_heap.specs.Places.{at};
ghost use Rattle.wm_heap.specs.Room.{KnowsRoom, Keeps, Leaves, quarters};
ghost use Rattle.wm_heap.specs.Slots.{used};
ghost use Rattle.wm_heap.specs.declared.slot.Slot.{Slot};

use crate::draft::{Changed, take_fitting};
use crate::slot::Slots;
use std::alloc::Global;
use std::collections::BTreeSet;
use wm_base::Memory;
use wm_faults::StoreFault;
use wm_page::Pages;

/// A quarter of a page, in bytes.
const QUARTER: usize = 1024;
/// The bytes that a page without slots leaves.
const EMPTY: usize = 4094;
/// How many changes are kept in mind: those of a few lines.
const RECENT: usize = 32;

/// Which pages have room, as far as it is known. A page is looked at before anything is put on it, so that what is
/// wrong here, where another writer changed the pages, costs room and no record.
#[derive(Drop)]
pub struct Room {
    /// The page that took the last record that had no place. It is filled before another is begun.
    page: u64,
    /// How many bytes it leaves.
    left: usize,
    /// The pages that leave a quarter of their bytes, or more.
    quarter: BTreeSet<u64>,
    half: BTreeSet<u64>,
    three_quarters: BTreeSet<u64>,
    /// The pages without slots.
    empty: BTreeSet<u64>,
    /// The ids of the last changes, round and round.
    recent: [u64; RECENT],
    /// Where the next of them goes.
    next: usize,
}

impl Room {
    /// No page is known to have room.
    pub fn new(alloc: Global) -> Room
        ensures { (slots : ℕ → List Slot) → KnowsRoom result slots 2 }
    {
        Room {
            page: 0,
            left: 0,
            quarter: BTreeSet::new(alloc),
            half: BTreeSet::new(alloc),
            three_quarters: BTreeSet::new(alloc),
            empty: BTreeSet::new(alloc),
            recent: [0; RECENT],
            next: 0,
        }
    }

    /// The next record goes to this page.
    pub fn prefer(&mut self, page: u64)
        ensures { (slots : ℕ → List Slot) (count : ℕ) → KnowsRoom self.old slots count → KnowsRoom self.new slots count }
    {
        self.page = page;
        self.left = 0;
    }

    /// A page leaves so many bytes by now, since a change of what is under an id, or under none, which is 0.
    pub fn keep(&mut self, page: u64, left: usize, id: u64) -> Result<(), Memory>
        ensures { OnOk result (Keeps page left self.old self.new) }
    {
        let at = self.next % RECENT;
        self.recent[at] = id;
        self.next = at + 1;
        if page == self.page {
            self.left = left;
        }
        keep_in(&mut self.quarter, page, left >= QUARTER)?;
        keep_in(&mut self.half, page, left >= 2 * QUARTER)?;
        keep_in(&mut self.three_quarters, page, left >= 3 * QUARTER)?;
        keep_in(&mut self.empty, page, left >= EMPTY)
    }

    /// Whether what is put again under an id goes along to another page than its own, that is being filled and leaves
    /// so many bytes: it changed lately, so it will soon change again.
    pub fn goes_along(&self, id: u64, page: u64, need: usize) -> bool
        ensures { result ≡ true → need ≤ self.now.left }
    {
        self.page != page && need <= self.left && self.recent.contains(&id)
    }

    /// A page that leaves so many bytes. There is one at least where a page leaves so many in whole quarters.
    fn page_for(&self, need: usize) -> Option<u64>
        ensures some { (slots : ℕ → List Slot) (count : ℕ) → KnowsRoom self.now slots count → 0 < need → need ≤ 4094 → IfSome result (λ page. Leaves need slots count page) }
        ensures none { (slots : ℕ → List Slot) (count : ℕ) → KnowsRoom self.now slots count → result ≡ None → (p : ℕ) → 2 ≤ p → p < count → 4096 < used (slots p) + quarters need }
    {
        if need <= self.left {
            return Some(self.page);
        }
        if need <= QUARTER {
            return least_of(&self.quarter);
        }
        if need <= 2 * QUARTER {
            return least_of(&self.half);
        }
        if need <= 3 * QUARTER {
            return least_of(&self.three_quarters);
        }
        least_of(&self.empty)
    }
}

/// The first of some pages.
fn least_of(pages: &BTreeSet<u64>) -> Option<u64>
    ensures some { IfSome result (λ page. contains nat_cmp pages.now page ≡ true) }
    ensures none { result ≡ None → (p : ℕ) → contains nat_cmp pages.now p ≡ false }
{
    pages.first().copied()
}

/// Puts a page in a set, or takes it out.
fn keep_in(pages: &mut BTreeSet<u64>, page: u64, is_in: bool) -> Result<(), Memory>
    ensures { OnOk result ((p : ℕ) → contains nat_cmp pages.new p ≡ (if p == page then is_in else contains nat_cmp pages.old p)) }
{
    if is_in {
        pages.insert(page)?;
    } else {
        pages.remove(&page);
    }
    Ok(())
}

/// A page with its slots.
#[derive(Drop)]
pub struct Roomy {
    pub page: u64,
    pub slots: Slots,
}

/// A page of so many that has room for a slot of so many bytes: one that is known to have it, or else the last. Its
/// slots are then taken out of the change. There is none only where the last page has no room, and each that is known
/// leaves less than so many bytes in whole quarters. The next page is then preferred.
pub fn take_roomy<G: Pages>(
    alloc: Global,
    room: &mut Room,
    changed: &mut Changed,
    pages: &mut G,
    count: u64,
    len: usize,
) -> Result<Option<Roomy>, StoreFault>
    requires some { 2 ≤ count }
    requires small { len ≤ 4084 }
    requires there { G.tells → (p : ℕ) → 2 ≤ p → p < count → IsThere changed.old.entries (G.held pages.old) (G.in_use pages.old) (G.in_file pages.old) p }
    ensures from { IfOk result (λ found. IfSome found (λ roomy. 2 ≤ roomy.page)) }
    ensures till { IfOk result (λ found. IfSome found (λ roomy. roomy.page < count)) }
    ensures value { G.tells → IfOk result (λ found. IfSome found (λ roomy. roomy.slots ≡ slots_now changed.old.entries (G.held pages.old) roomy.page)) }
    ensures room { IfOk result (λ found. IfSome found (λ roomy. used roomy.slots + 10 + len ≤ 4096)) }
    ensures none { G.tells → IfOk result (λ found. found ≡ None → 2 < count → 4096 < used (slots_now changed.old.entries (G.held pages.old) (count - 1)) + 10 + len) }
    ensures spread { G.tells → KnowsRoom room.old (slots_now changed.old.entries (G.held pages.old)) count → IfOk result (λ found. found ≡ None → (p : ℕ) → 2 ≤ p → p < count → 4096 < used (slots_now changed.old.entries (G.held pages.old) p) + quarters (10 + len)) }
    ensures knows { G.tells → KnowsRoom room.old (slots_now changed.old.entries (G.held pages.old)) count → OnOk result (KnowsRoom room.new (slots_now changed.old.entries (G.held pages.old)) count) }
    ensures others { IfOk result (λ found. IfSome found (λ roomy. (p : ℕ) → (p == roomy.page) ≡ false → at changed.new.entries p ≡ at changed.old.entries p)) }
    ensures fewer { IfOk result (λ found. length changed.new.entries ≤ length changed.old.entries) }
    ensures kept { IfOk result (λ found. found ≡ None → changed.new.entries ≡ changed.old.entries) }
    ensures told { G.tells → G.held pages.new ≡ G.held pages.old }
    ensures past { G.tells → G.past pages.new ≡ G.past pages.old }
    ensures source { G.source pages.new ≡ G.source pages.old }
    ensures in_use { G.in_use pages.new ≡ G.in_use pages.old }
    ensures in_file { G.in_file pages.new ≡ G.in_file pages.old }
    ensures cause { StoreCause (G.faults pages.old) (G.faults pages.new) result }
    ensures sound { G.tells → IsErrOf result faults.Changed → ⊥ }
{
    // Page 0, which has no slots, where no page is known to have room.
    let page = room.page_for(10 + len).unwrap_or(0);
    if page < 2 || page >= count {
        return take_last(alloc, room, changed, pages, count, len);
    }
    let Some(slots) = take_fitting(alloc, changed, pages, page, len)? else {
        // What was known of it was wrong: another writer changed it.
        room.keep(page, 0, 0)?;
        return take_last(alloc, room, changed, pages, count, len);
    };
    room.prefer(page);
    Ok(Some(Roomy { page, slots }))
}

/// The last page of so many, where it has room for a slot of so many bytes. Its slots are then taken out of the change.
/// Else the next page is preferred.
fn take_last<G: Pages>(
    alloc: Global,
    room: &mut Room,
    changed: &mut Changed,
    pages: &mut G,
    count: u64,
    len: usize,
) -> Result<Option<Roomy>, StoreFault>
    requires some { 2 ≤ count }
    requires small { len ≤ 4084 }
    requires there { G.tells → (p : ℕ) → 2 ≤ p → p < count → IsThere changed.old.entries (G.held pages.old) (G.in_use pages.old) (G.in_file pages.old) p }
    ensures from { IfOk result (λ found. IfSome found (λ roomy. 2 ≤ roomy.page)) }
    ensures till { IfOk result (λ found. IfSome found (λ roomy. roomy.page < count)) }
    ensures value { G.tells → IfOk result (λ found. IfSome found (λ roomy. roomy.slots ≡ slots_now changed.old.entries (G.held pages.old) roomy.page)) }
    ensures room { IfOk result (λ found. IfSome found (λ roomy. used roomy.slots + 10 + len ≤ 4096)) }
    ensures none { G.tells → IfOk result (λ found. found ≡ None → 2 < count → 4096 < used (slots_now changed.old.entries (G.held pages.old) (count - 1)) + 10 + len) }
    ensures knows { OnOk result ((slots : ℕ → List Slot) (n : ℕ) → KnowsRoom room.old slots n → KnowsRoom room.new slots n) }
    ensures others { IfOk result (λ found. IfSome found (λ roomy. (p : ℕ) → (p == roomy.page) ≡ false → at changed.new.entries p ≡ at changed.old.entries p)) }
    ensures fewer { IfOk result (λ found. length changed.new.entries ≤ length changed.old.entries) }
    ensures kept { IfOk result (λ found. found ≡ None → changed.new.entries ≡ changed.old.entries) }
    ensures told { G.tells → G.held pages.new ≡ G.held pages.old }
    ensures past { G.tells → G.past pages.new ≡ G.past pages.old }
    ensures source { G.source pages.new ≡ G.source pages.old }
    ensures in_use { G.in_use pages.new ≡ G.in_use pages.old }
    ensures in_file { G.in_file pages.new ≡ G.in_file pages.old }
    ensures cause { StoreCause (G.faults pages.old) (G.faults pages.new) result }
    ensures sound { G.tells → IsErrOf result faults.Changed → ⊥ }
{
    let page = count - 1;
    if page < 2 {
        room.prefer(count);
        return Ok(None);
    }
    let Some(slots) = take_fitting(alloc, changed, pages, page, len)? else {
        room.prefer(count);
        return Ok(None);
    };
    room.prefer(page);
    Ok(Some(Roomy { page, slots }))
}
