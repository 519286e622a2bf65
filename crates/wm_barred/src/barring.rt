//! What a change of cells is refused for since a lock keeps the user from them.
ghost use Rattle.std.specs.Prelude.{◌≡◌, ◌<◌, ◌≤◌, ◌&&◌, ℕ, List, map, true, IfOk, IfSome};
ghost use Rattle.std.specs.List.{find, list_all};
ghost use Rattle.std.specs.Option.{option_copied, option_map_or};
ghost use Rattle.wm_barred.specs.Alone.{is_timed, outline_alone};
ghost use Rattle.wm_barred.specs.Views.{claim_view, stretch_view};
ghost use Rattle.wm_base.specs.declared.instant.TheConstants.{END};
ghost use Rattle.wm_graph.specs.Parts.{parts_of};
ghost use Rattle.wm_graph.specs.Rules.{keep_rules};
ghost use Rattle.wm_guard.specs.Barring.{meets};
ghost use Rattle.wm_guard.specs.Orders.{nows};
ghost use Rattle.wm_model.specs.Step.{barring_at, bars_claim, cells_of, has_parent, lock_fault, locked_told, refused_for};
ghost use Rattle.wm_outline.specs.Outline.{outline_of};
ghost use Rattle.wm_spec.specs.declared.record.lock.Lock.{Lock as OneLock};
ghost use Rattle.wm_state.specs.Drafts.{cells_locked};
ghost use Rattle.wm_state.specs.Editing.{entry_of, is_other};
ghost use Rattle.wm_state.specs.State.{Session as SessionState};

use crate::held::locks_on;
use crate::stretch::Stretch;
use crate::told::locked_told;
use std::alloc::Global;
use wm_base::{Memory, Name, Refusal};
use wm_guard::barring::bars;
use wm_image::Image;
use wm_spec::record::Lock;
use wm_state::edit::{NewEntry, NewLock};

/// Who is to change cells of the workspace of a number; the locks of one workspace may be left out.
#[derive(Clone, Copy)]
pub struct Claim<'a> {
    pub space: u32,
    pub user: &'a Name,
    pub except: Option<u32>,
}

/// Whether a workspace is a child of another one, by their numbers.
fn has_parent(image: &Image, parent: u32, child: u32) -> bool
    ensures { result ≡ has_parent (outline_alone (parts_of image.now)) parent child }
{
    match image.space(child) {
        Some(space) => space.parent == parent && space.number != parent,
        None => false,
    }
}

/// Whether a lock counts: it is of no workspace whose locks are left out.
fn counts(except: Option<u32>, lock: &Lock) -> bool
    ensures { result ≡ option_map_or (λ n. is_other n lock.now.space) except true }
{
    match except {
        Some(space) => space != lock.space,
        None => true,
    }
}

/// Whether a lock keeps the user from cells that it covers.
fn bars_claim(image: &Image, claim: Claim<'_>, lock: &Lock) -> bool
    ensures { result ≡ bars_claim (outline_alone (parts_of image.now)) (claim_view claim.entry) lock.now }
{
    let child = has_parent(image, claim.space, lock.space);
    bars(lock, child, claim.space, claim.user) && counts(claim.except, lock)
}

/// The first of the locks on the key of cells that covers one of them and keeps the user from it.
fn first_barring<'a>(
    image: &Image,
    claim: Claim<'_>,
    cells: Stretch<'_>,
    locks: &[&'a Lock],
) -> Option<&'a Lock>
    requires timed { list_all is_timed (nows locks.now) ≡ true }
    ensures first { option_copied result ≡ find (λ (x : OneLock). meets (stretch_view cells.entry) x.cells && bars_claim (outline_alone (parts_of image.now)) (claim_view claim.entry) x) (nows locks.now) }
    ensures some { IfSome result (λ lock. lock.now.cells.from < lock.now.cells.till) }
    ensures till { IfSome result (λ lock. lock.now.cells.till ≤ END) }
{
    for lock in locks {
        if cells.is_met_by(lock) && bars_claim(image, claim, lock) {
            return Some(*lock);
        }
    }
    None
}

/// What a change of cells of one key is refused for.
fn fault_at(
    alloc: Global,
    image: &Image,
    claim: Claim<'_>,
    cells: Stretch<'_>,
) -> Result<Option<Refusal>, Memory>
    requires rules { keep_rules (parts_of image.now) ≡ true }
    ensures { IfOk result (λ fault. fault ≡ refused_for (locked_told (outline_alone (parts_of image.now))) (barring_at (outline_alone (parts_of image.now)) (claim_view claim.entry) (stretch_view cells.entry))) }
{
    let locks = locks_on(alloc, image, cells)?;
    match first_barring(image, claim, cells, locks.as_slice()) {
        Some(lock) => Ok(locked_told(alloc, image, lock)?.into_refusal()),
        None => Ok(None),
    }
}

/// What entries are refused for, which stand by table, key and from: of the first of them from which a lock keeps the user,
/// the first such lock is told.
pub fn entries_fault(
    alloc: Global,
    image: &Image,
    claim: Claim<'_>,
    entries: &[NewEntry],
) -> Result<Option<Refusal>, Memory>
    requires rules { keep_rules (parts_of image.now) ≡ true }
    ensures { IfOk result (λ fault. (xs : List SessionState) (m : ℕ) → fault ≡ lock_fault (outline_of (parts_of image.now) xs m) (claim_view claim.entry) (map cells_of (map entry_of entries.now))) }
{
    for entry in entries {
        let cells = Stretch::of_entry(entry);
        if let Some(refusal) = fault_at(alloc, image, claim, cells)? {
            return Ok(Some(refusal));
        }
    }
    Ok(None)
}

/// What locks on cells are refused for, as entries are.
pub fn cells_fault(
    alloc: Global,
    image: &Image,
    claim: Claim<'_>,
    cells: &[NewLock],
) -> Result<Option<Refusal>, Memory>
    requires rules { keep_rules (parts_of image.now) ≡ true }
    ensures { IfOk result (λ fault. (xs : List SessionState) (m : ℕ) → fault ≡ lock_fault (outline_of (parts_of image.now) xs m) (claim_view claim.entry) (map cells_locked cells.now)) }
{
    for lock in cells {
        let cells = Stretch::of_lock(lock);
        if let Some(refusal) = fault_at(alloc, image, claim, cells)? {
            return Ok(Some(refusal));
        }
    }
    Ok(None)
}
