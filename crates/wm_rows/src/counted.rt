//! The layers and the counts of their keys, changed together.

ghost use Rattle.std.specs.Prelude.{◌≡◌, ℕ, ◌==◌, ◌&&◌, [], Some, nat_eq, if◌then◌else◌, OnOk, OnErr};
ghost use Rattle.std.specs.Bool.{then_some};
ghost use Rattle.std.specs.List.{list_any};
ghost use Rattle.std.specs.Option.{option_or};
ghost use Rattle.wm_base.specs.Period.{covers};
ghost use Rattle.wm_period.specs.Pieces.{held, held_at, put_in};
ghost use Rattle.wm_rows.specs.Counts.{Counted};
ghost use Rattle.wm_rows.specs.Maps.{maps_of};
ghost use Rattle.wm_rows.specs.Rows.{group_of, groups_in, pieces_in, is_same};
ghost use Rattle.wm_rows.specs.declared.row_key.RowKey.{RowKey as Row};

use crate::counts::{Counts, count_layer_less, count_less, count_more};
use crate::layers::{Layers, is_new, write_piece};
use crate::row_key::RowKey;
use std::alloc::Global;
use wm_base::{Key, Memory};
use wm_period::Piece;

/// Puts a piece over the others that a version stores of a row.
pub fn write_counted(
    alloc: Global,
    layers: &mut Layers,
    counts: &mut Counts,
    version: u64,
    table: u16,
    key: &Key,
    piece: Piece,
) -> Result<(), Memory>
    requires { Counted (maps_of layers.old.entries) (maps_of counts.old.entries) }
    ensures counted { Counted (maps_of layers.new.entries) (maps_of counts.new.entries) }
    ensures groups { OnOk result ((v : ℕ) (q : Row) → group_of (maps_of layers.new.entries) v q ≡ (if (version == v) && is_same (record { table = table; key = key.now }) q then Some (put_in piece (pieces_in (groups_in (maps_of layers.old.entries) version) (record { table = table; key = key.now }))) else group_of (maps_of layers.old.entries) v q)) }
    ensures cells { OnOk result ((t : ℕ) → held_at (put_in piece (pieces_in (groups_in (maps_of layers.old.entries) version) (record { table = table; key = key.now }))) t ≡ option_or (then_some (covers piece.period t) (held piece)) (held_at (pieces_in (groups_in (maps_of layers.old.entries) version) (record { table = table; key = key.now })) t)) }
    ensures err { OnErr result (maps_of layers.new.entries ≡ maps_of layers.old.entries) }
{
    let _order = piece.period.from();
    let row = RowKey::of(alloc, table, key)?;
    if !is_new(layers, version, &row) {
        return write_piece(alloc, layers, version, row, piece);
    }
    count_more(alloc, counts, table, key)?;
    if let Err(error) = write_piece(alloc, layers, version, row, piece) {
        count_less(counts, table, key);
        return Err(error);
    }
    Ok(())
}

/// Drops what a version stores.
fn drop_counted(layers: &mut Layers, counts: &mut Counts, version: u64)
    requires { Counted (maps_of layers.old.entries) (maps_of counts.old.entries) }
    ensures counted { Counted (maps_of layers.new.entries) (maps_of counts.new.entries) }
    ensures groups { (v : ℕ) → groups_in (maps_of layers.new.entries) v ≡ (if version == v then [] else groups_in (maps_of layers.old.entries) v) }
{
    let Some(layer) = layers.remove(&version) else {
        return;
    };
    count_layer_less(counts, &layer);
}

/// Drops what some versions store.
pub fn drop_all_counted(layers: &mut Layers, counts: &mut Counts, versions: &[u64])
    requires { Counted (maps_of layers.old.entries) (maps_of counts.old.entries) }
    ensures counted { Counted (maps_of layers.new.entries) (maps_of counts.new.entries) }
    ensures groups { (v : ℕ) → groups_in (maps_of layers.new.entries) v ≡ (if list_any (nat_eq v) versions.now then [] else groups_in (maps_of layers.old.entries) v) }
{
    for version in versions {
        drop_counted(layers, counts, *version);
    }
}
