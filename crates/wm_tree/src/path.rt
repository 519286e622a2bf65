//! The path of a version up to its root.
ghost use Rattle.std.specs.Prelude.{◌≡◌};
ghost use Rattle.std.specs.Iterator.{YieldsFirst, item_count};
ghost use Rattle.wm_tree.specs.Versions.{path_in};

use crate::tree::Tree;
use std::marker::Model;

/// The numbers on the path of a version: its own, its parent's, and so on up to a root.
#[derive(Drop)]
pub struct Path<'a> {
    tree: &'a Tree,
    next: u64,
}

impl<'a> Model for Path<'a> {
    ghost use Rattle.std.specs.Prelude.{List, ℕ};
    ghost use Rattle.wm_tree.specs.Versions.{path_in};

    ghost Value = { List ℕ };

    ghost view = { λ p. path_in p.tree.now.versions p.next };
}

impl<'a> Path<'a> {
    /// The path of a version, of which nothing is gone through yet.
    pub fn of(tree: &'a Tree, version: u64) -> Path<'a>
        ensures { result ≡ path_in tree.now.versions version }
    {
        Path {
            tree,
            next: version,
        }
    }
}

impl Iterator for Path<'_> {
    type Item = u64;

    ghost next_gives = { YieldsFirst (λ path. path) };

    ghost remaining = { item_count (λ path. path) };

    fn next(&mut self) -> Option<u64> {
        let version = self.tree.find(self.next)?;
        self.next = version.parent;
        Some(version.number)
    }
}
