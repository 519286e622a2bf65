//! The keys of which a workspace has something of its own.

ghost use Rattle.std.specs.Prelude.{◌≡◌, ◌||◌, false, true, None, IfOk, OnOk};
ghost use Rattle.std.specs.BTreeSet.{contains};
ghost use Rattle.std.specs.Option.{option_and_then, option_copied, option_to_list};
ghost use Rattle.wm_graph.specs.Parts.{as_piece, parts_of};
ghost use Rattle.wm_graph.specs.Rules.{keep_rules};
ghost use Rattle.wm_index.specs.Kinds.{kind_at};
ghost use Rattle.wm_index.specs.Sought.{PiecesIn, ids_with, is_sought};
ghost use Rattle.wm_pending.specs.Keys.{Place, has_piece_of, place_order};
ghost use Rattle.wm_spec.specs.Lists.{Cell};
ghost use Rattle.wm_telling.specs.Telling.{own_held};

use crate::path::version_above;
use std::alloc::Global;
use std::collections::BTreeSet;
use wm_base::{Key, Memory};
use wm_image::Image;
use wm_spec::record::{Record, Space};

/// Keys of tables, each once, by table and key.
pub type TableKeys = BTreeSet<(u16, Key)>;

/// Adds the key of a record, where that is a piece.
fn add_key(alloc: Global, keys: &mut TableKeys, found: Option<&Record>) -> Result<(), Memory>
    ensures { OnOk result ((q : Place) → contains place_order keys.new q ≡ (contains place_order keys.old q || has_piece_of q (option_to_list (option_and_then as_piece (option_copied found.entry))))) }
{
    if let Some(Record::Piece(piece)) = found {
        keys.insert((piece.cells.table, piece.cells.key.copy(alloc)?))?;
    }
    Ok(())
}

/// Adds the keys of the pieces of a version.
fn add_keys(alloc: Global, image: &Image, keys: &mut TableKeys, version: u64) -> Result<(), Memory>
    ensures { OnOk result ((q : Place) → contains place_order keys.new q ≡ (contains place_order keys.old q || has_piece_of q (kind_at as_piece image.now (ids_with (is_sought (PiecesIn version)) image.now)))) }
{
    let Some(ids) = image.pieces_in(version) else {
        return Ok(());
    };
    for id in ids {
        add_key(alloc, keys, image.record(*id))?;
    }
    Ok(())
}

/// The keys of the pieces of a workspace's versions above the one that it sees under its own. It has nothing of its own
/// for any other.
pub fn own_keys(alloc: Global, image: &Image, space: &Space) -> Result<TableKeys, Memory>
    requires { keep_rules (parts_of image.now) ≡ true }
    ensures { IfOk result (λ keys. (c : Cell) → contains place_order keys (c.table, c.key) ≡ false → own_held (parts_of image.now) space.now c ≡ None) }
{
    image.law_of_order();
    let mut keys = BTreeSet::new(alloc);
    let mut number = image.latest(space.number);
    while let Some(version) = version_above(image, space.base_version, number) {
        add_keys(alloc, image, &mut keys, number)?;
        number = version.parent;
    }
    Ok(keys)
}
