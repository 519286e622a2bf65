//! The rules of the records of versions.
ghost use Rattle.std.specs.Prelude.{◌≡◌, ℕ, IfOk};
ghost use Rattle.std.specs.BTreeSet.{contains};
ghost use Rattle.std.specs.List.{list_all};
ghost use Rattle.std.specs.Ordering.{nat_cmp};
ghost use Rattle.wm_cells.specs.Lookups.{found, referred};
ghost use Rattle.wm_graph.specs.Parts.{has_version};
ghost use Rattle.wm_graph.specs.Rules.{is_version_of, stands_under, is_version, has_versions};

use std::alloc::Global;
use std::collections::BTreeSet;
use wm_base::Memory;
use wm_cells::index::{self, Index};
use wm_spec::record::{Space, Version};

/// The numbers of the workspaces that have a version.
pub fn spaces_of(alloc: Global, versions: &[&Version]) -> Result<BTreeSet<u32>, Memory>
    ensures { IfOk result (λ spaces. (n : ℕ) → contains nat_cmp spaces n ≡ has_version (referred versions.now) n) }
{
    let mut spaces = BTreeSet::new(alloc);
    for version in versions {
        spaces.insert(version.space)?;
    }
    Ok(spaces)
}

/// Whether the version is there, and is one of the workspace.
pub fn is_version_of(versions: &Index<Version>, number: u64, space: u32) -> bool
    ensures { result ≡ is_version_of (found versions.now.entries) number space }
{
    match index::look(versions, number) {
        Some(version) => version.space == space,
        None => false,
    }
}

/// Whether the parent of a version is there, is older, and is of its workspace or of that one's parent.
fn stands_under(versions: &Index<Version>, version: &Version, space: &Space) -> bool
    ensures { result ≡ stands_under (found versions.now.entries) version.now space.now }
{
    let parent = version.parent;
    parent < version.number
        && (is_version_of(versions, parent, version.space)
            || is_version_of(versions, parent, space.parent))
}

/// Whether the version was given, is of a workspace that is there, and stands where it may.
fn is_version(
    spaces: &Index<Space>,
    versions: &Index<Version>,
    next: u64,
    version: &Version,
) -> bool
    ensures { result ≡ is_version (found spaces.now.entries) (found versions.now.entries) next version.now }
{
    if version.number >= next {
        return false;
    }
    let Some(space) = index::look(spaces, u64::from(version.space)) else {
        return false;
    };
    if version.parent == 0 {
        version.number == 1
    } else {
        stands_under(versions, version, space)
    }
}

/// Whether the workspace has a version, and those that it was made from and stands on are there.
fn has_versions(having: &BTreeSet<u32>, versions: &Index<Version>, space: &Space) -> bool
    ensures { result ≡ has_versions (contains nat_cmp having.now) (found versions.now.entries) space.now }
{
    if !having.contains(&space.number) {
        return false;
    }
    if space.number == 0 {
        space.birth_version == 1 && space.base_version == 0
    } else {
        is_version_of(versions, space.birth_version, space.parent)
            && is_version_of(versions, space.base_version, space.parent)
    }
}

/// Whether each version is given, has its workspace and stands where it may.
pub fn each_is_version(
    spaces: &Index<Space>,
    index: &Index<Version>,
    next: u64,
    versions: &[&Version],
) -> bool
    ensures { result ≡ list_all (is_version (found spaces.now.entries) (found index.now.entries) next) (referred versions.now) }
{
    for version in versions {
        if !is_version(spaces, index, next, version) {
            return false;
        }
    }
    true
}

/// Whether each workspace has a version, and those that it was made from and stands on.
pub fn each_has_versions(
    having: &BTreeSet<u32>,
    versions: &Index<Version>,
    spaces: &[&Space],
) -> bool
    ensures { result ≡ list_all (has_versions (contains nat_cmp having.now) (found versions.now.entries)) (referred spaces.now) }
{
    for space in spaces {
        if !has_versions(having, versions, space) {
            return false;
        }
    }
    true
}
