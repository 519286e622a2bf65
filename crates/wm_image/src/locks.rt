//! The locks of an image, found by their keys and their workspaces.
ghost use Rattle.std.specs.Prelude.{◌≡◌, [], true};
ghost use Rattle.std.specs.Option.{option_copied, option_map, unwrap_or};
ghost use Rattle.wm_graph.specs.Parts.{parts_of};
ghost use Rattle.wm_graph.specs.Rules.{keep_rules};
ghost use Rattle.wm_ids.specs.Ids.{set_found};
ghost use Rattle.wm_image.specs.Locked.{AreLockedKeys};
ghost use Rattle.wm_index.specs.Sought.{LockAt, LocksOf, LocksOn, ids_with, is_sought};
ghost use Rattle.wm_state.specs.Editing.{lock_after};

use crate::image::Image;
use std::collections::BTreeSet;
use wm_base::Key;
use wm_ids::keyed::{Ids, ids_of, ids_on, last_key};
use wm_index::savepoints::making_after;

impl Image {
    /// The ids of the locks for a key of a table, of any workspace, in order.
    pub fn locks_on(&self, table: u16, key: &Key) -> &[u64]
        ensures { result.now ≡ ids_with (is_sought (LocksOn table key.now)) self.now }
    {
        ids_on(&self.index.locks, table, key)
    }

    /// The ids of the locks of a table, by key; None where it never had one.
    pub fn locked_keys(&self, table: u16) -> Option<&Ids<Key>>
        ensures { AreLockedKeys self.now table (unwrap_or (option_map (λ keys. keys.entries) (option_copied result)) []) }
    {
        self.index.locks.get(&table)
    }

    /// The ids of the locks of a workspace, in order; None where it has none.
    pub fn locks_of(&self, space: u32) -> Option<&BTreeSet<u64>>
        ensures { set_found (option_copied result) ≡ ids_with (is_sought (LocksOf space)) self.now }
    {
        self.index.locks_of.get(&space)
    }

    /// The ids of the locks of a making: one at most where the rules are kept.
    pub fn locks_made_as(&self, making: u64) -> &[u64]
        ensures { result.now ≡ ids_with (is_sought (LockAt making)) self.now }
    {
        ids_of(&self.index.lock_makings, &making)
    }

    /// One more than the greatest making of a lock, 1 where there is none.
    pub fn lock_making(&self) -> u64
        requires { keep_rules (parts_of self.now) ≡ true }
        ensures { result ≡ lock_after (parts_of self.now).locks }
    {
        making_after(last_key(&self.index.lock_makings))
    }
}
