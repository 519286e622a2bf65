//! The rules of the records of savepoints.
ghost use Rattle.std.specs.Prelude.{◌≡◌, ◌==◌, ◌&&◌, nat_le, IfOk};
ghost use Rattle.std.specs.List.{list_all};
ghost use Rattle.wm_cells.specs.Lookups.{found, referred, counted};
ghost use Rattle.wm_graph.specs.Rules.{differ, is_base_of, is_saved_in, is_savepoint, same_savepoint, has_few};

use crate::versions;
use std::alloc::Global;
use wm_base::Memory;
use wm_cells::counts::{Counts, count_of, counts_of};
use wm_cells::distinct::are_distinct;
use wm_cells::index::{self, Index, index_of};
use wm_cells::names;
use wm_spec::record::{Savepoint, Space, Version};

/// The most savepoints of a workspace.
const MOST_SAVEPOINTS: u64 = 4096;

/// Whether a workspace may see the version under its own: one of its parent, and none in LIVE.
fn is_base_of(versions: &Index<Version>, base: u64, space: &Space) -> bool
    ensures { result ≡ is_base_of (found versions.now.entries) base space.now }
{
    if space.number == 0 {
        base == 0
    } else {
        versions::is_version_of(versions, base, space.parent)
    }
}

/// Whether the savepoint keeps a version of its workspace, at a place that was given, with no more of the log than there is.
fn is_saved_in(versions: &Index<Version>, savepoint: &Savepoint, space: &Space) -> bool
    ensures { result ≡ is_saved_in (found versions.now.entries) savepoint.now space.now }
{
    versions::is_version_of(versions, savepoint.version, space.number)
        && is_base_of(versions, savepoint.base_version, space)
        && savepoint.place < space.next_place
        && savepoint.log_length <= space.log_length
}

/// Whether the savepoint has a short name and a making of at most the work and 2, and is in order in its workspace,
/// which is there.
fn is_savepoint(
    spaces: &Index<Space>,
    versions: &Index<Version>,
    work: u64,
    savepoint: &Savepoint,
) -> bool
    ensures { result ≡ is_savepoint (found spaces.now.entries) (found versions.now.entries) work savepoint.now }
{
    if !names::is_short(&savepoint.name) || savepoint.making.saturating_sub(2) > work {
        return false;
    }
    match index::look(spaces, u64::from(savepoint.space)) {
        Some(space) => is_saved_in(versions, savepoint, space),
        None => false,
    }
}

/// Whether each savepoint is in order in its workspace.
pub fn each_is_savepoint(
    spaces: &Index<Space>,
    versions: &Index<Version>,
    work: u64,
    savepoints: &[&Savepoint],
) -> bool
    ensures { result ≡ list_all (is_savepoint (found spaces.now.entries) (found versions.now.entries) work) (referred savepoints.now) }
{
    for savepoint in savepoints {
        if !is_savepoint(spaces, versions, work, savepoint) {
            return false;
        }
    }
    true
}

/// Whether the makings of the savepoints differ.
fn makings_differ(alloc: Global, savepoints: &[&Savepoint]) -> Result<bool, Memory>
    ensures { IfOk result (λ differs. differs ≡ differ (λ x y. x.making == y.making) (referred savepoints.now)) }
{
    let indexed = index_of(alloc, savepoints)?;
    Ok(indexed.differ)
}

/// Whether the names of the savepoints of each workspace differ.
fn names_differ(alloc: Global, savepoints: &[&Savepoint]) -> Result<bool, Memory>
    ensures { IfOk result (λ differs. differs ≡ differ same_savepoint (referred savepoints.now)) }
{
    let differs = are_distinct(alloc, savepoints)?;
    Ok(differs)
}

/// Whether no workspace has more savepoints than it may, by their counts.
fn each_has_few(counts: &Counts, spaces: &[&Space]) -> bool
    ensures { result ≡ list_all (λ s. nat_le (counted counts.now.entries s.number) 4096) (referred spaces.now) }
{
    for space in spaces {
        if count_of(counts, space.number) > MOST_SAVEPOINTS {
            return false;
        }
    }
    true
}

/// Whether no workspace has more savepoints than it may.
fn are_few(alloc: Global, spaces: &[&Space], savepoints: &[&Savepoint]) -> Result<bool, Memory>
    ensures { IfOk result (λ few. few ≡ list_all (has_few (referred savepoints.now)) (referred spaces.now)) }
{
    let counts = counts_of(alloc, savepoints)?;
    let few = each_has_few(&counts, spaces);
    Ok(few)
}

/// Whether the savepoints differ by their makings and by their names, and no workspace has more than it may.
pub fn stand_together(
    alloc: Global,
    spaces: &[&Space],
    savepoints: &[&Savepoint],
) -> Result<bool, Memory>
    ensures { IfOk result (λ kept. kept ≡ (differ (λ x y. x.making == y.making) (referred savepoints.now) && (differ same_savepoint (referred savepoints.now) && list_all (has_few (referred savepoints.now)) (referred spaces.now)))) }
{
    if !makings_differ(alloc, savepoints)? || !names_differ(alloc, savepoints)? {
        return Ok(false);
    }
    let few = are_few(alloc, spaces, savepoints)?;
    Ok(few)
}
