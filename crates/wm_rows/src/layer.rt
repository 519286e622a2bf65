//! What one version stores: pieces by row.

ghost use Rattle.std.specs.Prelude.{◌≡◌, ℕ, Some, if◌then◌else◌, IfOk, OnOk, OnErr};
ghost use Rattle.std.specs.Bool.{then_some};
ghost use Rattle.std.specs.Option.{option_or};
ghost use Rattle.wm_base.specs.Period.{covers};
ghost use Rattle.wm_period.specs.Pieces.{held, held_at, put_in};
ghost use Rattle.wm_rows.specs.Rows.{group_in, pieces_in, is_same};
ghost use Rattle.wm_rows.specs.declared.row_key.RowKey.{RowKey as Row};

use crate::row_key::RowKey;
use std::alloc::Global;
use std::collections::BTreeMap;
use wm_base::Memory;
use wm_period::{Piece, Pieces};

pub type Layer = BTreeMap<RowKey, Pieces>;

/// A copy of the pieces of a row, none where there are none.
fn copy_of(alloc: Global, layer: &Layer, row: &RowKey) -> Result<Pieces, Memory>
    ensures { IfOk result (λ copy. copy ≡ pieces_in layer.now.entries row.now) }
{
    match layer.get(row) {
        Some(pieces) => pieces.copy(alloc),
        None => Ok(Pieces::new(alloc)),
    }
}

/// Puts a piece over the others of its row.
pub fn put_piece(alloc: Global, layer: &mut Layer, row: RowKey, piece: Piece) -> Result<(), Memory>
    ensures groups { OnOk result ((q : Row) → group_in layer.new.entries q ≡ (if is_same row q then Some (put_in piece (pieces_in layer.old.entries row)) else group_in layer.old.entries q)) }
    ensures cells { OnOk result ((t : ℕ) → held_at (put_in piece (pieces_in layer.old.entries row)) t ≡ option_or (then_some (covers piece.period t) (held piece)) (held_at (pieces_in layer.old.entries row) t)) }
    ensures err { OnErr result (layer.new.entries ≡ layer.old.entries) }
{
    if let Some(pieces) = layer.get_mut(&row) {
        return pieces.put(alloc, piece);
    }
    let mut pieces = Pieces::new(alloc);
    pieces.put(alloc, piece)?;
    layer.insert(row, pieces)?;
    Ok(())
}

/// Lays the pieces of another layer under those that stand.
pub fn lay_under(alloc: Global, upper: &mut Layer, lower: &Layer) -> Result<(), Memory>
    ensures { OnOk result ((row : Row) (t : ℕ) → held_at (pieces_in upper.new.entries row) t ≡ option_or (held_at (pieces_in upper.old.entries row) t) (held_at (pieces_in lower.now.entries row) t)) }
{
    for (row, pieces) in lower {
        let row = row.copy(alloc)?;
        let above = copy_of(alloc, upper, &row)?;
        let both = Pieces::over(alloc, pieces, &above)?;
        upper.insert(row, both)?;
    }
    Ok(())
}
