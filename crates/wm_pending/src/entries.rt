//! What pieces say, as entries of the line that writes it again.

ghost use Rattle.std.specs.Prelude.{◌≡◌, ◌++◌, map, IfOk, OnOk};
ghost use Rattle.std.specs.Option.{option_map};
ghost use Rattle.wm_graph.specs.Parts.{parts_of};
ghost use Rattle.wm_net.specs.Groups.{Group};
ghost use Rattle.wm_pending.specs.Owned.{key_pieces};
ghost use Rattle.wm_pending.specs.Replayed.{as_stretch, as_stretches};
ghost use Rattle.wm_period.specs.Pieces.{held};
ghost use Rattle.wm_state.specs.Editing.{entry_of, row_value};
ghost use Rattle.wm_telling.specs.Telling.{group_at, replayed_by, told_by};

use crate::own::OwnKey;
use std::alloc::Global;
use wm_base::{Key, Memory, Name, Values};
use wm_image::Image;
use wm_period::Piece;
use wm_state::edit::NewEntry;

/// A copy of the values of a piece's row, or None where it is gone or its row is not there.
fn values_of(alloc: Global, image: &Image, piece: &Piece) -> Result<Option<Values>, Memory>
    ensures { IfOk result (λ values. option_map row_value values ≡ (told_by (parts_of image.now) (held piece.now)).row) }
{
    if piece.gone {
        return Ok(None);
    }
    match image.row(piece.stamp.number) {
        Some(row) => Ok(Some(row.values.copy(alloc)?)),
        None => Ok(None),
    }
}

/// A piece of a key of a table as an entry of the line of a moment and a user: its row, stamp and kind are kept.
fn replayed(
    alloc: Global,
    image: &Image,
    table: u16,
    key: &Key,
    piece: &Piece,
    moment: u64,
    user: &Name,
) -> Result<NewEntry, Memory>
    ensures { IfOk result (λ entry. entry_of entry ≡ replayed_by (parts_of image.now) moment user.now (let g : Group = record { table = table; key = key.now } in g) (as_stretch piece.now)) }
{
    let user = user.copy(alloc)?;
    let key = key.copy(alloc)?;
    match values_of(alloc, image, piece) {
        Ok(row) => Ok(NewEntry {
            table,
            key,
            period: piece.period,
            row,
            stamp: piece.stamp.number,
            kind: piece.kind,
            moment,
            user,
        }),
        Err(fault) => {
            drop(key);
            Err(fault)
        }
    }
}

/// Puts the pieces of a key behind others, as entries of the line of a moment and a user.
pub fn push_entries(
    alloc: Global,
    image: &Image,
    entries: &mut Vec<NewEntry>,
    key: &OwnKey,
    moment: u64,
    user: &Name,
) -> Result<(), Memory>
    ensures { OnOk result (map entry_of entries.new.items ≡ map entry_of entries.old.items ++ map (replayed_by (parts_of image.now) moment user.now (group_at (key_pieces key.now))) (as_stretches key.now.pieces)) }
{
    for piece in key.pieces.list() {
        entries.push(replayed(alloc, image, key.table, &key.key, piece, moment, user)?)?;
    }
    Ok(())
}
