//! What of cells is locked: the longest parts that no lock of the same user, mode and workspace covers.
ghost use Rattle.std.specs.Prelude.{◌≡◌, ◌++◌, ◌&&◌, ℕ, List, map, true, IfOk, OnOk};
ghost use Rattle.std.specs.List.{filter, list_all};
ghost use Rattle.wm_barred.specs.Alone.{is_timed, outline_alone};
ghost use Rattle.wm_barred.specs.Views.{holder_view, stretch_view};
ghost use Rattle.wm_graph.specs.Parts.{parts_of};
ghost use Rattle.wm_graph.specs.Rules.{keep_rules};
ghost use Rattle.wm_guard.specs.Barring.{span_of};
ghost use Rattle.wm_guard.specs.Orders.{nows};
ghost use Rattle.wm_model.specs.Step.{cells_of, is_held_by, lock_over, lock_parts, parts_at};
ghost use Rattle.wm_outline.specs.Outline.{outline_of};
ghost use Rattle.wm_spec.specs.declared.record.lock.Lock.{Lock as OneLock};
ghost use Rattle.wm_state.specs.Drafts.{cells_locked};
ghost use Rattle.wm_state.specs.Editing.{entry_of};
ghost use Rattle.wm_state.specs.State.{Session as SessionState};

use crate::held::locks_on;
use crate::stretch::Stretch;
use std::alloc::Global;
use wm_base::{Memory, Name, Period};
use wm_guard::barring::is_mode;
use wm_image::Image;
use wm_spec::record::{Lock, LockMode};
use wm_state::edit::{NewEntry, NewLock};
use wm_temporal::push_free;
use wm_view_rows::rows::period_of;

/// Who locks cells of the workspace of a number, and in which mode.
#[derive(Clone, Copy)]
pub struct Holder<'a> {
    pub space: u32,
    pub mode: LockMode,
    pub user: &'a Name,
}

/// Whether a lock is of the same workspace, mode and user.
fn is_held_by(holder: Holder<'_>, lock: &Lock) -> bool
    ensures { result ≡ is_held_by (holder_view holder.entry) lock.now }
{
    (lock.space == holder.space && is_mode(holder.mode, lock.mode))
        && holder.user.as_bytes() == lock.user.as_bytes()
}

/// The periods of the locks that are, in order.
fn spans_held(alloc: Global, holder: Holder<'_>, locks: &[&Lock]) -> Result<Vec<Period>, Memory>
    requires timed { list_all is_timed (nows locks.now) ≡ true }
    ensures { IfOk result (λ spans. spans.items ≡ map (λ (x : OneLock). span_of x.cells) (filter (is_held_by (holder_view holder.entry)) (nows locks.now))) }
{
    let mut spans = Vec::new(alloc);
    for lock in locks {
        if is_held_by(holder, lock) {
            spans.push(period_of(&lock.cells))?;
        }
    }
    Ok(spans)
}

/// Puts locks on cells over these periods behind others.
fn push_locks(
    alloc: Global,
    cells: Stretch<'_>,
    periods: &[Period],
    parts: &mut Vec<NewLock>,
) -> Result<(), Memory>
    ensures { OnOk result (parts.new.items ≡ parts.old.items ++ map (lock_over (stretch_view cells.entry)) periods.now) }
{
    for period in periods {
        parts.push(NewLock {
            table: cells.table,
            key: cells.key.copy(alloc)?,
            period: *period,
        })?;
    }
    Ok(())
}

/// Puts what of cells is to be locked behind others.
fn push_parts(
    alloc: Global,
    image: &Image,
    holder: Holder<'_>,
    cells: Stretch<'_>,
    parts: &mut Vec<NewLock>,
) -> Result<(), Memory>
    requires rules { keep_rules (parts_of image.now) ≡ true }
    ensures { OnOk result (parts.new.items ≡ parts.old.items ++ parts_at (outline_alone (parts_of image.now)) (holder_view holder.entry) (stretch_view cells.entry)) }
{
    let locks = locks_on(alloc, image, cells)?;
    let held = spans_held(alloc, holder, locks.as_slice())?;
    let mut free = Vec::new(alloc);
    push_free(&mut free, cells.period, held.as_slice())?;
    push_locks(alloc, cells, free.as_slice(), parts)
}

/// What of the cells of entries is locked where a session locks what it changes.
pub fn entry_parts(
    alloc: Global,
    image: &Image,
    holder: Holder<'_>,
    entries: &[NewEntry],
) -> Result<Vec<NewLock>, Memory>
    requires rules { keep_rules (parts_of image.now) ≡ true }
    ensures { IfOk result (λ parts. (xs : List SessionState) (m : ℕ) → parts.items ≡ lock_parts (outline_of (parts_of image.now) xs m) (holder_view holder.entry) (map cells_of (map entry_of entries.now))) }
{
    let mut parts = Vec::new(alloc);
    for entry in entries {
        push_parts(alloc, image, holder, Stretch::of_entry(entry), &mut parts)?;
    }
    Ok(parts)
}

/// What of cells is locked.
pub fn cell_parts(
    alloc: Global,
    image: &Image,
    holder: Holder<'_>,
    cells: &[NewLock],
) -> Result<Vec<NewLock>, Memory>
    requires rules { keep_rules (parts_of image.now) ≡ true }
    ensures { IfOk result (λ parts. (xs : List SessionState) (m : ℕ) → parts.items ≡ lock_parts (outline_of (parts_of image.now) xs m) (holder_view holder.entry) (map cells_locked cells.now)) }
{
    let mut parts = Vec::new(alloc);
    for lock in cells {
        push_parts(alloc, image, holder, Stretch::of_lock(lock), &mut parts)?;
    }
    Ok(parts)
}
