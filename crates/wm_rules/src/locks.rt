//! The rules of the records of locks.
ghost use Rattle.std.specs.Prelude.{◌≡◌, ◌==◌, IfOk};
ghost use Rattle.std.specs.List.{list_all};
ghost use Rattle.wm_cells.specs.Lookups.{found, referred};
ghost use Rattle.wm_graph.specs.Rules.{differ, is_lock};

use crate::spaces;
use std::alloc::Global;
use wm_base::Memory;
use wm_cells::index::{Index, index_of};
use wm_cells::{cells, names};
use wm_spec::record::{Lock, Space, Table};

/// Whether the lock has a short user, a making of at most the work and 2, and cells and a place as it is to have them.
fn is_lock(tables: &Index<Table>, spaces: &Index<Space>, work: u64, lock: &Lock) -> bool
    ensures { result ≡ is_lock (found tables.now.entries) (found spaces.now.entries) work lock.now }
{
    if !names::is_short(&lock.user) || lock.making.saturating_sub(2) > work {
        return false;
    }
    cells::are_cells(tables, &lock.cells) && spaces::is_given(spaces, lock.space, lock.place)
}

/// Whether each lock has a short user, a making of at most the work and 2, and cells and a place as it is to have them.
pub fn each_is_lock(
    tables: &Index<Table>,
    spaces: &Index<Space>,
    work: u64,
    locks: &[&Lock],
) -> bool
    ensures { result ≡ list_all (is_lock (found tables.now.entries) (found spaces.now.entries) work) (referred locks.now) }
{
    for lock in locks {
        if !is_lock(tables, spaces, work, lock) {
            return false;
        }
    }
    true
}

/// Whether the makings of the locks differ.
pub fn makings_differ(alloc: Global, locks: &[&Lock]) -> Result<bool, Memory>
    ensures { IfOk result (λ differs. differs ≡ differ (λ x y. x.making == y.making) (referred locks.now)) }
{
    let indexed = index_of(alloc, locks)?;
    Ok(indexed.differ)
}
