//! What a version holds above its base, as a list.

ghost use Rattle.std.specs.Prelude.{◌≡◌, ℕ, ◌++◌, map, IfOk, OnOk};
ghost use Rattle.std.specs.List.Sorted.{IsStrictlySortedBy};
ghost use Rattle.std.specs.Map.{keys_of};
ghost use Rattle.wm_base.specs.declared.instant.TheConstants.{END};
ghost use Rattle.wm_period.specs.Pieces.{Between, held_at};
ghost use Rattle.wm_rows.specs.Own.{own_piece, own_list, own_at, IsInOrder, AllInOrder};
ghost use Rattle.wm_rows.specs.Rows.{row_order, pieces_in};
ghost use Rattle.wm_rows.specs.declared.row_key.RowKey.{RowKey as Row};

use crate::layer::Layer;
use crate::row_key::RowKey;
use std::alloc::Global;
use std::marker::Model;
use wm_base::{Key, Memory};
use wm_period::{Piece, Pieces};

/// A piece with its table and key.
#[derive(Drop)]
pub struct OwnPiece {
    pub table: u16,
    pub key: Key,
    pub piece: Piece,
}

/// Pieces by table, key and beginning. Those of one key do not overlap.
#[derive(Drop)]
pub struct OwnPieces {
    list: Vec<OwnPiece>,
}

impl Model for OwnPieces {
    ghost use Rattle.std.specs.Prelude.{List};
    ghost use Rattle.wm_rows.specs.Own.{IsInOrder};
    ghost use Rattle.wm_rows.specs.declared.own.OwnPiece.{OwnPiece};

    ghost Value = { List OwnPiece };

    ghost view = { λ o. o.list.items };

    ghost invariant = { λ o. IsInOrder o.list.items };
}

impl OwnPieces {
    /// The pieces of a layer.
    pub(crate) fn of_layer(alloc: Global, layer: &Layer) -> Result<OwnPieces, Memory>
        ensures { IfOk result (λ own. (row : Row) (t : ℕ) → own_at own row t ≡ held_at (pieces_in layer.now.entries row) t) }
    {
        let list = list_of(alloc, layer)?;
        Ok(OwnPieces { list })
    }

    /// The pieces in their order.
    pub fn list(&self) -> &[OwnPiece]
        ensures value { result.now ≡ self.now }
        ensures in_order { IsInOrder self.now }
    {
        self.list.as_slice()
    }
}

/// The pieces of all rows of a layer, one row after another.
fn list_of(alloc: Global, layer: &Layer) -> Result<Vec<OwnPiece>, Memory>
    ensures list { IfOk result (λ list. list.items ≡ own_list layer.now.entries) }
    ensures rows { OnOk result (IsStrictlySortedBy row_order (keys_of layer.now.entries)) }
    ensures in_order { OnOk result (AllInOrder layer.now.entries) }
{
    let mut list = Vec::new(alloc);
    for (row, pieces) in layer {
        push_pieces(alloc, &mut list, row, pieces)?;
    }
    Ok(list)
}

/// Puts the pieces of a row behind the others.
fn push_pieces(
    alloc: Global,
    list: &mut Vec<OwnPiece>,
    row: &RowKey,
    pieces: &Pieces,
) -> Result<(), Memory>
    ensures list { OnOk result (list.new.items ≡ list.old.items ++ map (own_piece row.now) pieces.now) }
    ensures in_order { Between 0 pieces.now END }
{
    for piece in pieces.list() {
        list.push(OwnPiece {
            table: row.table,
            key: row.key.copy(alloc)?,
            piece: *piece,
        })?;
    }
    Ok(())
}
