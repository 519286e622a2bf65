//! The pieces of all rows in all versions.
ghost use Rattle.std.specs.Prelude.{◌≡◌, ℕ, ◌==◌, ◌&&◌, ◌↔◌, false, nat_eq, List, Contains, [], None, if◌then◌else◌, IsTrue, IsSome, IfSome, IsOk, IfOk, OnOk, OnErr};
ghost use Rattle.std.specs.Bool.{then_some};
ghost use Rattle.std.specs.List.{list_any};
ghost use Rattle.std.specs.List.Sorted.{IsStrictlySortedBy};
ghost use Rattle.std.specs.Option.{option_map, option_or, IsSomeAnd};
ghost use Rattle.wm_base.specs.Key.{key_order};
ghost use Rattle.wm_base.specs.Period.{covers};
ghost use Rattle.wm_base.specs.declared.value.Value.{Value};
ghost use Rattle.wm_period.specs.Pieces.{held, held_at};
ghost use Rattle.wm_rows.specs.Own.{own_at};
ghost use Rattle.wm_rows.specs.Rows.{IsStored, is_same, stored, seen_in, own_in};
ghost use Rattle.wm_rows.specs.declared.row_key.RowKey.{RowKey as Row};
ghost use Rattle.wm_tree.specs.Versions.{IsTree, version_in, path_in};
ghost use Rattle.wm_tree.specs.declared.version.Version.{Version};

use crate::counted::{drop_all_counted, write_counted};
use crate::counts::{Counts, counted_keys};
use crate::keys::Keys;
use crate::layers::{Layers, own_layer, seen_piece, seen_pieces};
use crate::own::OwnPieces;
use crate::row_key::RowKey;
use std::alloc::Global;
use std::collections::BTreeMap;
use std::marker::Model;
use wm_base::{Instant, Key, Memory};
use wm_period::{Piece, Pieces};
use wm_tree::Tree;

/// The pieces that each version stores, by row. A version stores what was written in it, and no more.
#[derive(Drop)]
pub struct Rows {
    layers: Layers,
    counts: Counts,
}

impl Model for Rows {
    ghost use Rattle.wm_rows.specs.Maps.{maps_of};
    ghost use Rattle.wm_rows.specs.Counts.{Counted};
    ghost use Rattle.wm_rows.specs.Rows.{Layers as Stored};

    ghost Value = { Stored };

    ghost view = { λ r. maps_of r.layers.entries };

    ghost invariant = { λ r. Counted (maps_of r.layers.entries) (maps_of r.counts.entries) };
}

impl Rows {
    /// Nothing stored.
    pub fn new(alloc: Global) -> Rows
        ensures { result ≡ [] }
    {
        Rows {
            layers: BTreeMap::new(alloc),
            counts: BTreeMap::new(alloc),
        }
    }

    /// What a version holds of a row: at each moment what the nearest version on its path stores there.
    pub fn seen(
        &self,
        alloc: Global,
        tree: &Tree,
        version: u64,
        table: u16,
        key: &Key,
    ) -> Result<Pieces, Memory>
        ensures { IfOk result (λ seen. (t : ℕ) → held_at seen t ≡ seen_in tree.now.versions self.now version (record { table = table; key = key.now }) t) }
    {
        let row = RowKey::of(alloc, table, key)?;
        seen_pieces(alloc, &self.layers, tree, version, &row)
    }

    /// What a version holds of a row at one instant, or None where it holds nothing there.
    ///
    /// It takes no memory. It is found in as many look-ups as the path has versions, at most.
    pub fn seen_at(&self, tree: &Tree, version: u64, row: &RowKey, at: Instant) -> Option<Piece>
        ensures held { option_map held result ≡ seen_in tree.now.versions self.now version row.now at }
        ensures covers { IfSome result (λ piece. IsTrue (covers piece.period at)) }
    {
        seen_piece(&self.layers, tree, version, row, at)
    }

    /// What a version holds that stands above a base version on its path, for all rows.
    pub fn own(
        &self,
        alloc: Global,
        tree: &Tree,
        version: u64,
        base: u64,
    ) -> Result<OwnPieces, Memory>
        ensures { IfOk result (λ own. (row : Row) (t : ℕ) → own_at own row t ≡ own_in tree.now.versions self.now version base row t) }
    {
        let layer = own_layer(alloc, &self.layers, tree, version, base)?;
        OwnPieces::of_layer(alloc, &layer)
    }

    /// Puts a piece over the others that a version stores of a row.
    pub fn write(
        &mut self,
        alloc: Global,
        version: u64,
        table: u16,
        key: &Key,
        piece: Piece,
    ) -> Result<(), Memory>
        ensures ok { OnOk result ((v : ℕ) (row : Row) (t : ℕ) → stored self.new v row t ≡ option_or (then_some (((version == v) && is_same (record { table = table; key = key.now }) row) && covers piece.period t) (held piece)) (stored self.old v row t)) }
        // the version sees the piece over what it saw
        ensures here { OnOk result ((tree : List Version) (row : Row) (t : ℕ) → IsTree tree → IsSome (version_in tree version) → seen_in tree self.new version row t ≡ option_or (then_some (is_same (record { table = table; key = key.now }) row && covers piece.period t) (held piece)) (seen_in tree self.old version row t)) }
        // a version that does not stand on the written one sees what it saw
        ensures elsewhere { OnOk result ((tree : List Version) (v : ℕ) (row : Row) (t : ℕ) → list_any (nat_eq version) (path_in tree v) ≡ false → seen_in tree self.new v row t ≡ seen_in tree self.old v row t) }
        ensures err { OnErr result (self.new ≡ self.old) }
    {
        write_counted(
            alloc,
            &mut self.layers,
            &mut self.counts,
            version,
            table,
            key,
            piece,
        )
    }

    /// Lets `to`, which holds nothing yet, hold what `version` does. Nothing is stored for it: `to` sees
    /// it in each tree in which it stands under `version`.
    ///
    /// It takes no memory, and always succeeds.
    pub fn fork(&mut self, version: u64, to: u64) -> Result<(), Memory>
        requires { (row : Row) (t : ℕ) → stored self.old to row t ≡ None }
        ensures ok { IsOk result }
        ensures same { self.new ≡ self.old }
        ensures sees { (tree : List Version) → IsTree tree → IsSomeAnd (version_in tree to) (λ x. x.parent ≡ version) → (row : Row) (t : ℕ) → seen_in tree self.new to row t ≡ seen_in tree self.new version row t }
    {
        Ok(())
    }

    /// The keys of a table of which some version stores pieces, each once.
    pub fn keys(&self, alloc: Global, table: u16) -> Result<Keys, Memory>
        ensures ascending { IfOk result (λ keys. IsStrictlySortedBy key_order keys) }
        ensures stored { IfOk result (λ keys. (key : List Value) → Contains keys key ↔ IsStored self.now table key) }
    {
        let keys = counted_keys(alloc, &self.counts, table)?;
        Ok(Keys::from_vec(keys))
    }

    /// Drops what some versions store.
    ///
    /// It takes no memory.
    pub fn drop_versions(&mut self, versions: &[u64])
        ensures stored { (v : ℕ) (row : Row) (t : ℕ) → stored self.new v row t ≡ (if list_any (nat_eq v) versions.now then None else stored self.old v row t) }
        // a version that stands on no dropped one sees what it saw
        ensures elsewhere { (tree : List Version) (v : ℕ) (row : Row) (t : ℕ) → list_any (λ w. list_any (nat_eq w) versions.now) (path_in tree v) ≡ false → seen_in tree self.new v row t ≡ seen_in tree self.old v row t }
    {
        drop_all_counted(&mut self.layers, &mut self.counts, versions);
    }
}
