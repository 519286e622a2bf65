//! What all versions store: a layer for each.

ghost use Rattle.std.specs.Prelude.{◌≡◌, ℕ, ◌==◌, ◌&&◌, ◌+◌, ◌<◌, ◌^◌, Some, is_none, if◌then◌else◌, IsTrue, IfSome, IfOk, OnOk, OnErr};
ghost use Rattle.std.specs.Bool.{then_some};
ghost use Rattle.std.specs.List.Sorted.{IsStrictlySortedBy};
ghost use Rattle.std.specs.Map.{keys_of};
ghost use Rattle.std.specs.Option.{option_copied, option_map, option_or};
ghost use Rattle.std.specs.Ordering.{nat_cmp};
ghost use Rattle.wm_base.specs.Period.{covers};
ghost use Rattle.wm_period.specs.Pieces.{held, held_at, put_in};
ghost use Rattle.wm_rows.specs.Counts.{times};
ghost use Rattle.wm_rows.specs.Rows.{group_of, groups_in, pieces_in, is_same, stored, seen_in, own_in};
ghost use Rattle.wm_rows.specs.Maps.{maps_of};
ghost use Rattle.wm_rows.specs.declared.row_key.RowKey.{RowKey as Row};

use crate::layer::{Layer, lay_under, put_piece};
use crate::row_key::RowKey;
use std::alloc::Global;
use std::collections::BTreeMap;
use wm_base::{Instant, Memory};
use wm_period::{Piece, Pieces};
use wm_tree::Tree;

pub type Layers = BTreeMap<u64, Layer>;

/// The pieces that a version stores of a row.
pub fn group<'a>(layers: &'a Layers, version: u64, row: &RowKey) -> Option<&'a Pieces>
    ensures { option_copied result ≡ group_of (maps_of layers.now.entries) version row.now }
{
    layers.get(&version)?.get(row)
}

/// Whether a version stores nothing of a row.
pub fn is_new(layers: &Layers, version: u64, row: &RowKey) -> bool
    ensures value { result ≡ is_none (group_of (maps_of layers.now.entries) version row.now) }
    // there is room to count one more
    ensures few { times (maps_of layers.now.entries) row.now < 2 ^ 63 }
{
    let _count = layers.len();
    group(layers, version, row).is_none()
}

/// Puts a piece over the others that a version stores of its row.
pub fn write_piece(
    alloc: Global,
    layers: &mut Layers,
    version: u64,
    row: RowKey,
    piece: Piece,
) -> Result<(), Memory>
    ensures groups { OnOk result ((v : ℕ) (q : Row) → group_of (maps_of layers.new.entries) v q ≡ (if (version == v) && is_same row q then Some (put_in piece (pieces_in (groups_in (maps_of layers.old.entries) version) row)) else group_of (maps_of layers.old.entries) v q)) }
    ensures cells { OnOk result ((t : ℕ) → held_at (put_in piece (pieces_in (groups_in (maps_of layers.old.entries) version) row)) t ≡ option_or (then_some (covers piece.period t) (held piece)) (held_at (pieces_in (groups_in (maps_of layers.old.entries) version) row) t)) }
    ensures times { OnOk result ((q : Row) → times (maps_of layers.new.entries) q ≡ times (maps_of layers.old.entries) q + (if is_same row q && is_none (group_of (maps_of layers.old.entries) version row) then 1 else 0)) }
    ensures order { OnOk result (IsStrictlySortedBy nat_cmp (keys_of (maps_of layers.new.entries))) }
    ensures err { OnErr result (maps_of layers.new.entries ≡ maps_of layers.old.entries) }
{
    if let Some(layer) = layers.get_mut(&version) {
        return put_piece(alloc, layer, row, piece);
    }
    let mut layer = BTreeMap::new(alloc);
    put_piece(alloc, &mut layer, row, piece)?;
    layers.insert(version, layer)?;
    Ok(())
}

/// What a version holds of a row: the pieces of the versions on its path, each under those nearer to it.
pub fn seen_pieces(
    alloc: Global,
    layers: &Layers,
    tree: &Tree,
    version: u64,
    row: &RowKey,
) -> Result<Pieces, Memory>
    ensures { IfOk result (λ seen. (t : ℕ) → held_at seen t ≡ seen_in tree.now.versions (maps_of layers.now.entries) version row.now t) }
{
    let mut seen = Pieces::new(alloc);
    for version in tree.path(version) {
        if let Some(pieces) = group(layers, version, row) {
            seen = Pieces::over(alloc, pieces, &seen)?;
        }
    }
    Ok(seen)
}

/// The piece that a version stores of a row at an instant.
fn piece_at(layers: &Layers, version: u64, row: &RowKey, at: Instant) -> Option<Piece>
    ensures held { option_map held result ≡ stored (maps_of layers.now.entries) version row.now at }
    ensures covers { IfSome result (λ piece. IsTrue (covers piece.period at)) }
{
    group(layers, version, row)?.covering(at)
}

/// What a version holds of a row at an instant: the piece of the nearest version on its path that has one.
pub fn seen_piece(
    layers: &Layers,
    tree: &Tree,
    version: u64,
    row: &RowKey,
    at: Instant,
) -> Option<Piece>
    ensures held { option_map held result ≡ seen_in tree.now.versions (maps_of layers.now.entries) version row.now at }
    ensures covers { IfSome result (λ piece. IsTrue (covers piece.period at)) }
{
    for version in tree.path(version) {
        if let Some(piece) = piece_at(layers, version, row, at) {
            return Some(piece);
        }
    }
    None
}

/// Lays what a version stores under what stands.
fn lay_version_under(
    alloc: Global,
    upper: &mut Layer,
    layers: &Layers,
    version: u64,
) -> Result<(), Memory>
    ensures { OnOk result ((row : Row) (t : ℕ) → held_at (pieces_in upper.new.entries row) t ≡ option_or (held_at (pieces_in upper.old.entries row) t) (stored (maps_of layers.now.entries) version row t)) }
{
    match layers.get(&version) {
        Some(layer) => lay_under(alloc, upper, layer),
        None => Ok(()),
    }
}

/// What is held on the path of a version above a base version.
pub fn own_layer(
    alloc: Global,
    layers: &Layers,
    tree: &Tree,
    version: u64,
    base: u64,
) -> Result<Layer, Memory>
    ensures { IfOk result (λ own. (row : Row) (t : ℕ) → held_at (pieces_in own.entries row) t ≡ own_in tree.now.versions (maps_of layers.now.entries) version base row t) }
{
    let mut own = BTreeMap::new(alloc);
    for version in tree.path(version) {
        if version == base {
            return Ok(own);
        }
        lay_version_under(alloc, &mut own, layers, version)?;
    }
    Ok(own)
}
