//! What older marks leave of new ones: at a cell of a place the greatest position counts.

ghost use Rattle.std.specs.Prelude.{◌≡◌, IfOk};
ghost use Rattle.std.specs.List.{flat_map};
ghost use Rattle.std.specs.Option.{option_and_then, option_copied, option_to_list};
ghost use Rattle.wm_append.specs.Layers.{mark_in};
ghost use Rattle.wm_settle.specs.Leaving.{left_of};
ghost use Rattle.wm_settled.specs.Settling.{cut, greater};
ghost use Rattle.wm_state.specs.Drafts.{mark_piece};

use std::alloc::Global;
use wm_append::append::entered::cells_of;
use wm_append::redraw::{Layer, all_left, append, drawn_as};
use wm_base::{Kind, Memory};
use wm_image::Image;
use wm_spec::record::{PieceRecord, Record};
use wm_state::edit::{Marks, NewMark};

/// A new mark as a piece of a place.
fn mark_piece(place: u32, mark: NewMark) -> PieceRecord
    ensures { result ≡ mark_piece place mark }
{
    let NewMark {
        table,
        key,
        period,
        position,
    } = mark;
    PieceRecord {
        version: u64::from(place),
        cells: cells_of(table, key, period),
        stamp: position,
        kind: Kind::Insert,
        gone: false,
    }
}

/// What a mark of the workspace leaves of pieces, where it is at a greater position.
fn cut_by(
    alloc: Global,
    found: Option<&Record>,
    space: u32,
    position: u64,
    pieces: Vec<PieceRecord>,
) -> Result<Vec<PieceRecord>, Memory>
    ensures { IfOk result (λ left. left.items ≡ cut (greater position (option_to_list (option_and_then (mark_in space) (option_copied found.entry)))) pieces.items) }
{
    if let Some(older) = drawn_as(alloc, found, Layer::Marks(space))? {
        if older.stamp > position {
            return all_left(alloc, &older, pieces);
        }
    }
    Ok(pieces)
}

/// What the marks of the workspace leave of a new one at a place.
fn left_of(
    alloc: Global,
    image: &Image,
    space: u32,
    place: u32,
    mark: NewMark,
) -> Result<Vec<PieceRecord>, Memory>
    ensures { IfOk result (λ left. left.items ≡ left_of image.now space place mark) }
{
    let ids = image.marks_of(mark.table, &mark.key);
    let position = mark.position;
    let mut left = Vec::new(alloc);
    left.push(mark_piece(place, mark))?;
    for id in ids {
        left = cut_by(alloc, image.record(*id), space, position, left)?;
    }
    Ok(left)
}

/// What they leave of new ones, one behind the other.
pub fn left_of_all(
    alloc: Global,
    image: &Image,
    space: u32,
    place: u32,
    marks: Marks,
) -> Result<Vec<PieceRecord>, Memory>
    ensures { IfOk result (λ news. news.items ≡ flat_map (left_of image.now space place) marks) }
{
    let mut news = Vec::new(alloc);
    for mark in marks.into_vec() {
        let left = left_of(alloc, image, space, place, mark)?;
        append(&mut news, left)?;
    }
    Ok(news)
}
