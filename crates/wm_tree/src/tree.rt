//! The tree of versions.
ghost use Rattle.std.specs.Prelude.{◌≡◌, ◌≢◌, ℕ, ◌<◌, ◌==◌, if◌then◌else◌, [], ◌∷◌, None, IsSome, IfSome, IfNone, IsSomeAnd, OnOk, OnErr};
ghost use Rattle.std.specs.List.{filter};
ghost use Rattle.wm_tree.specs.Versions.{Grown, version_in, parent_in, path_in, latest_in, number_at, grow, is_outside, NoneUnder, shared_of, IsTree, newest_first};

use crate::numbers::{Numbers, clear_number, number_of, set_number};
use crate::path::Path;
use crate::place::{find, place_of};
use crate::version::Version;
use std::alloc::Global;
use std::collections::BTreeMap;
use std::marker::Model;
use wm_base::Memory;

/// The versions of a store, each under its parent, and the base version of each space.
#[derive(Drop)]
pub struct Tree {
    versions: Vec<Version>,
    latest: Numbers,
    bases: Numbers,
}

impl Model for Tree {
    ghost use Rattle.std.specs.Prelude.{◌≡◌, ℕ};
    ghost use Rattle.wm_tree.specs.Versions.{Grown, IsTree, newest_first, latest_in, number_at};

    ghost Value = { Grown };

    ghost view = { λ t. record { versions = newest_first t.versions.items; bases = t.bases.entries } };

    ghost invariant = { λ t. IsTree (newest_first t.versions.items) × ((s : ℕ) → number_at t.latest.entries s ≡ latest_in (newest_first t.versions.items) s) };
}

impl Tree {
    /// No versions.
    pub fn new(alloc: Global) -> Tree
        ensures versions { result.versions ≡ [] }
        ensures bases { result.bases ≡ [] }
    {
        Tree {
            versions: Vec::new(alloc),
            latest: BTreeMap::new(alloc),
            bases: BTreeMap::new(alloc),
        }
    }

    /// The version of a number, found in as many steps as the number of versions has binary digits.
    pub fn find(&self, number: u64) -> Option<Version>
        ensures value { result ≡ version_in self.now.versions number }
        ensures path { IfSome result (λ x. path_in self.now.versions number ≡ x.number ∷ path_in self.now.versions x.parent) }
        ensures no_path { IfNone result (path_in self.now.versions number ≡ []) }
        ensures tree { IsTree self.now.versions }
    {
        find(self.versions.as_slice(), number)
    }

    /// The path of a version: its number, its parent's, and so on up to a root. It is empty where the
    /// version is not there.
    pub fn path(&self, version: u64) -> Path<'_>
        ensures { result ≡ path_in self.now.versions version }
    {
        Path::of(self, version)
    }

    /// The parent of a version, 0 where the version or the parent is none.
    pub fn parent_of(&self, version: u64) -> u64
        ensures { result ≡ parent_in self.now.versions version }
    {
        parent_of(self.versions.as_slice(), version)
    }

    /// The first version that stands on both paths, 0 where none does.
    pub fn common(&self, v: u64, w: u64) -> u64
        ensures { result ≡ shared_of (path_in self.now.versions v) (path_in self.now.versions w) }
    {
        common_of(self.versions.as_slice(), v, w)
    }

    /// The base version last set of a space, 0 where none was.
    pub fn base_of(&self, space: u32) -> u64
        ensures { result ≡ number_at self.now.bases space }
    {
        number_of(&self.bases, space)
    }

    /// The version of a space that has the greatest number, 0 where it has none.
    pub fn latest(&self, space: u32) -> u64
        ensures { result ≡ latest_in self.now.versions space }
    {
        number_of(&self.latest, space)
    }

    /// Adds a version of a space under its parent, 0 where it has none.
    pub fn add(&mut self, version: u64, space: u32, parent: u64) -> Result<(), Memory>
        requires named { 0 < version }
        requires fresh { version_in self.old.versions version ≡ None }
        requires older { parent < version }
        requires under { parent ≢ 0 → IsSome (version_in self.old.versions parent) }
        ensures ok { OnOk result (self.new ≡ record self.old { versions = grow (record { number = version; space = space; parent = parent }) self.old.versions }) }
        ensures path { OnOk result (path_in self.new.versions version ≡ version ∷ path_in self.old.versions parent) }
        ensures paths { OnOk result ((v : ℕ) → v ≢ version → path_in self.new.versions v ≡ path_in self.old.versions v) }
        ensures err { OnErr result (self.new ≡ self.old) }
    {
        let latest = number_of(&self.latest, space).max(version);
        let place = place_of(self.versions.as_slice(), version);
        self.versions.reserve(1)?;
        set_number(&mut self.latest, space, latest)?;
        let added = Version {
            number: version,
            space,
            parent,
        };
        self.versions.insert(place, added).unwrap();
        Ok(())
    }

    /// Drops all versions of a space, and its base version.
    pub fn drop_space(&mut self, space: u32)
        requires { NoneUnder space self.old.versions }
        ensures versions { self.new.versions ≡ filter (is_outside space) self.old.versions }
        ensures bases { (s : ℕ) → number_at self.new.bases s ≡ (if s == space then 0 else number_at self.old.bases s) }
        ensures paths { (v : ℕ) → IsSomeAnd (version_in self.old.versions v) (λ x. x.space ≢ space) → path_in self.new.versions v ≡ path_in self.old.versions v }
    {
        drop_versions(&mut self.versions, space);
        clear_number(&mut self.latest, space);
        clear_number(&mut self.bases, space);
    }

    /// Sets the base version of a space.
    pub fn rebase(&mut self, space: u32, base: u64) -> Result<(), Memory>
        ensures versions { self.new.versions ≡ self.old.versions }
        ensures ok { OnOk result ((s : ℕ) → number_at self.new.bases s ≡ (if s == space then base else number_at self.old.bases s)) }
        ensures err { OnErr result (self.new ≡ self.old) }
    {
        set_number(&mut self.bases, space, base)?;
        Ok(())
    }
}

/// The first version that stands on the paths of both.
fn common_of(versions: &[Version], v: u64, w: u64) -> u64
    requires { IsTree (newest_first versions.now) }
    ensures { result ≡ shared_of (path_in (newest_first versions.now) v) (path_in (newest_first versions.now) w) }
{
    let mut v = v;
    let mut w = w;
    while v != w {
        if v > w {
            v = parent_of(versions, v);
        } else {
            w = parent_of(versions, w);
        }
    }
    match find(versions, v) {
        Some(_) => v,
        None => 0,
    }
}

/// The parent of a version, 0 where the version or the parent is none.
fn parent_of(versions: &[Version], version: u64) -> u64
    requires { IsTree (newest_first versions.now) }
    ensures { result ≡ parent_in (newest_first versions.now) version }
{
    match find(versions, version) {
        Some(version) => version.parent,
        None => 0,
    }
}

/// Drops the versions of a space.
fn drop_versions(versions: &mut Vec<Version>, space: u32)
    ensures { versions.new.items ≡ filter (is_outside space) versions.old.items }
{
    let mut kept = 0;
    for index in 0..versions.len() {
        let version = versions[index];
        if version.space != space {
            versions[kept] = version;
            kept += 1;
        }
    }
    versions.truncate(kept);
}
