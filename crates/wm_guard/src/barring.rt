//! Whom locks keep from cells, and how locks stand in order.
ghost use Rattle.std.specs.Prelude.{◌≡◌, OnOk};
ghost use Rattle.wm_guard.specs.Barring.{bars, comes_before, is_mode, keeps_off, lock_word, meets};
ghost use Rattle.wm_guard.specs.Orders.{key_places, nows};
ghost use Rattle.wm_ordering.specs.Sorting.{sorted};

use std::cmp::Ordering;
use wm_base::{Memory, Name};
use wm_spec::record::{CellRange, Lock, LockMode};

/// The word of a mode.
pub fn word(mode: LockMode) -> &'static [u8]
    ensures { result.now ≡ lock_word mode }
{
    match mode {
        LockMode::Exclusive => b"E",
        LockMode::Shared => b"S",
        LockMode::WorkspaceExclusive => b"WE",
        LockMode::VersionExclusive => b"VE",
    }
}

/// Whether the two modes are one.
pub fn is_mode(mode: LockMode, other: LockMode) -> bool
    ensures { result ≡ is_mode mode other }
{
    matches!(
        (mode, other),
        (LockMode::Exclusive, LockMode::Exclusive)
            | (LockMode::Shared, LockMode::Shared)
            | (LockMode::WorkspaceExclusive, LockMode::WorkspaceExclusive)
            | (LockMode::VersionExclusive, LockMode::VersionExclusive)
    )
}

/// Whether a lock of a mode keeps a user off. `other`: it is another user's, in the workspace where cells are changed;
/// `child`: it is in a child of that workspace; `apart`: it is another user's.
fn keeps_off(mode: LockMode, other: bool, child: bool, apart: bool) -> bool
    ensures { result ≡ keeps_off mode other child apart }
{
    match mode {
        LockMode::Exclusive => other || child,
        LockMode::Shared => child,
        LockMode::WorkspaceExclusive => other,
        LockMode::VersionExclusive => apart,
    }
}

/// Whether a lock keeps a user from its cells in a workspace. `child`: the lock is in a child of that workspace.
pub fn bars(lock: &Lock, child: bool, space: u32, user: &Name) -> bool
    ensures { result ≡ bars child space user.now lock.now }
{
    let apart = user.as_bytes() != lock.user.as_bytes();
    keeps_off(lock.mode, space == lock.space && apart, child, apart)
}

/// Whether the cells of one key share a moment with a stretch of time.
pub fn meets(cells: &CellRange, other: &CellRange) -> bool
    ensures { result ≡ meets cells.now other.now }
{
    cells.from < other.till && other.from < cells.till
}

/// How two locks on one key compare: by the moment from which they are, by workspace, by making.
fn on_key(one: &Lock, other: &Lock) -> Ordering
    ensures { result ≡ key_places one.now other.now }
{
    one.cells.from.cmp(&other.cells.from).then(
        one.space
            .cmp(&other.space)
            .then(one.making.cmp(&other.making)),
    )
}

/// Puts locks on one key in order.
pub fn sort_on_key(locks: &mut Vec<&Lock>) -> Result<(), Memory>
    ensures { OnOk result (nows locks.new.items ≡ sorted comes_before (nows locks.old.items)) }
{
    locks.sort_by(|one, other| on_key(one, other))?;
    Ok(())
}
