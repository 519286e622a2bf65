//! What becomes of pieces, or of touches or marks as pieces, where new ones come over them.

ghost use Rattle.std.specs.Prelude.{◌≡◌, ◌≤◌, ◌+◌, ◌*◌, ◌∷◌, [], ◌++◌, length, true, List, IfOk, OnOk};
ghost use Rattle.std.specs.List.{filter, flat_map};
ghost use Rattle.std.specs.Option.{option_and_then, option_copied, option_to_list};
ghost use Rattle.wm_graph.specs.Rules.{collide, differ};
ghost use Rattle.wm_append.specs.Layers.{view_of};
ghost use Rattle.wm_append.specs.Redraw.{AreFew, AreNewsOf, IsDraft, IsRedrawn, are_ascending, hand_cells, is_at_hand, is_of_version, met, unmet};
ghost use Rattle.wm_append.specs.Views.{drawn_in, has_version, ids_of_key};
ghost use Rattle.wm_index.specs.Kinds.{kind_at};
ghost use Rattle.wm_spec.specs.Records.{record_at};
ghost use Rattle.wm_spec.specs.declared.record.piece.PieceRecord.{PieceRecord as OnePiece};
ghost use Rattle.wm_state.specs.ById.{Ascend};
ghost use Rattle.wm_state.specs.Drawing.{has_moments, left_by};

mod layer;
mod over;

use crate::redraw::layer::{ids_in, is_own, is_touched};
pub use crate::redraw::layer::{Layer, drawn_as};
pub use crate::redraw::over::all_left;
use crate::redraw::over::lay_over;
use std::alloc::Global;
use wm_base::Memory;
use wm_image::Image;
use wm_spec::record::{CellRange, PieceRecord, Record};

/// The ids of the records that go, and the pieces that come.
#[derive(Drop)]
pub struct Redrawn {
    pub dropped: Vec<u64>,
    pub drawn: Vec<PieceRecord>,
}

/// What is drawn so far: the ids that go, the pieces of the keys that are finished, the ids of what the version has of
/// the key at hand and that no new piece shares a moment with, and the pieces at hand, the one that was laid last before
/// the others.
#[derive(Drop)]
struct Draft {
    dropped: Vec<u64>,
    finished: Vec<PieceRecord>,
    left: Vec<u64>,
    hand: Vec<PieceRecord>,
}

/// Puts a record as a piece behind others, where it is drawn as one.
fn push_drawn(
    alloc: Global,
    pieces: &mut Vec<PieceRecord>,
    found: Option<&Record>,
    layer: Layer,
) -> Result<(), Memory>
    ensures { OnOk result (pieces.new.items ≡ pieces.old.items ++ option_to_list (option_and_then (view_of layer) (option_copied found.entry))) }
{
    if let Some(piece) = drawn_as(alloc, found, layer)? {
        pieces.push(piece)?;
    }
    Ok(())
}

/// Puts the records of some ids as pieces behind others.
fn push_pieces_at(
    alloc: Global,
    image: &Image,
    layer: Layer,
    pieces: &mut Vec<PieceRecord>,
    ids: &[u64],
) -> Result<(), Memory>
    ensures { OnOk result (pieces.new.items ≡ pieces.old.items ++ kind_at (view_of layer) image.now ids.now) }
{
    for id in ids {
        push_drawn(alloc, pieces, image.record(*id), layer)?;
    }
    Ok(())
}

/// Puts pieces behind others.
pub fn append(pieces: &mut Vec<PieceRecord>, more: Vec<PieceRecord>) -> Result<(), Memory>
    ensures { OnOk result (pieces.new.items ≡ pieces.old.items ++ more.items) }
{
    for piece in more {
        pieces.push(piece)?;
    }
    Ok(())
}

/// Whether the pieces at hand are of the table and the key of some cells.
fn is_at_hand(hand: &[PieceRecord], cells: &CellRange) -> bool
    ensures { result ≡ is_at_hand hand.now cells.now }
{
    match hand {
        [] => false,
        [first, ..] => {
            first.cells.table == cells.table && first.cells.key.compare(&cells.key).is_eq()
        }
    }
}

/// Of some ids those whose record is drawn as a piece that shares a cell with a new one, and the others.
fn part_ids(
    alloc: Global,
    image: &Image,
    layer: Layer,
    new: &PieceRecord,
    ids: Vec<u64>,
) -> Result<(Vec<u64>, Vec<u64>), Memory>
    ensures met { IfOk result (λ parted. parted.0.items ≡ met (view_of layer) image.now new.now ids.items) }
    ensures unmet { IfOk result (λ parted. parted.1.items ≡ unmet (view_of layer) image.now new.now ids.items) }
{
    let mut met = Vec::new(alloc);
    let mut unmet = Vec::new(alloc);
    for id in ids {
        if is_touched(new, image.record(id), layer) {
            met.push(id)?;
        } else {
            unmet.push(id)?;
        }
    }
    Ok((met, unmet))
}

/// Those of some ids whose record is drawn as a piece of a version.
fn own_ids(
    alloc: Global,
    image: &Image,
    layer: Layer,
    ids: &[u64],
    version: u64,
) -> Result<Vec<u64>, Memory>
    ensures { IfOk result (λ own. own.items ≡ filter (λ id. has_version (view_of layer) version (record_at image.now id)) ids.now) }
{
    let mut own = Vec::new(alloc);
    for id in ids {
        if is_own(image.record(*id), version, layer) {
            own.push(*id)?;
        }
    }
    Ok(own)
}

/// Finishes the pieces at hand, and begins with the table and the key of some cells: all that a version has of it is left
/// so far.
fn begin_key(
    alloc: Global,
    image: &Image,
    layer: Layer,
    version: u64,
    draft: Draft,
    cells: &CellRange,
) -> Result<Draft, Memory>
    requires { Ascend image.now }
    ensures dropped { IfOk result (λ begun. begun.dropped.items ≡ draft.dropped.items) }
    ensures finished { IfOk result (λ begun. begun.finished.items ≡ draft.finished.items ++ draft.hand.items) }
    ensures left { IfOk result (λ begun. begun.left.items ≡ ids_of_key (view_of layer) image.now version cells.now.table cells.now.key) }
    ensures hand { IfOk result (λ begun. begun.hand.items ≡ []) }
{
    let Draft {
        dropped,
        mut finished,
        hand,
        left: _,
    } = draft;
    append(&mut finished, hand)?;
    let ids = ids_in(image, layer, version, cells.table, &cells.key);
    let left = own_ids(alloc, image, layer, ids, version)?;
    let hand = Vec::new(alloc);
    Ok(Draft {
        dropped,
        finished,
        left,
        hand,
    })
}

/// Lays a new piece over those at hand and those of the left ones that share a cell with it, which go.
fn lay(
    alloc: Global,
    image: &Image,
    layer: Layer,
    draft: Draft,
    new: PieceRecord,
) -> Result<Draft, Memory>
    ensures dropped { IfOk result (λ laid. laid.dropped.items ≡ draft.dropped.items ++ met (view_of layer) image.now new draft.left.items) }
    ensures finished { IfOk result (λ laid. laid.finished.items ≡ draft.finished.items) }
    ensures left { IfOk result (λ laid. laid.left.items ≡ unmet (view_of layer) image.now new draft.left.items) }
    ensures hand { IfOk result (λ laid. laid.hand.items ≡ new ∷ flat_map (left_by new) (draft.hand.items ++ kind_at (view_of layer) image.now (met (view_of layer) image.now new draft.left.items))) }
{
    let Draft {
        mut dropped,
        finished,
        left,
        mut hand,
    } = draft;
    let (met, left) = part_ids(alloc, image, layer, &new, left)?;
    push_pieces_at(alloc, image, layer, &mut hand, met.as_slice())?;
    let extended = dropped.extend_from_slice(met.as_slice());
    drop(met);
    extended?;
    let hand = lay_over(alloc, new, hand)?;
    Ok(Draft {
        dropped,
        finished,
        left,
        hand,
    })
}

/// Draws one new piece more, of the table and key at hand or of those above them.
fn draw_one(
    alloc: Global,
    image: &Image,
    layer: Layer,
    version: u64,
    draft: Draft,
    new: PieceRecord,
) -> Result<Draft, Memory>
    requires sorted { Ascend image.now }
    requires apart { differ collide (drawn_in (view_of layer) image.now) ≡ true }
    requires here { is_of_version version new ≡ true }
    requires lasts { has_moments new ≡ true }
    requires keys { are_ascending (hand_cells draft.hand.items ++ new.cells ∷ []) ≡ true }
    ensures hand { IfOk result (λ drawn. hand_cells drawn.hand.items ≡ new.cells ∷ []) }
    ensures draft { IfOk result (λ drawn. (news : List OnePiece) → IsDraft (view_of layer) image.now version news draft.dropped.items draft.left.items draft.finished.items draft.hand.items → IsDraft (view_of layer) image.now version (news ++ new ∷ []) drawn.dropped.items drawn.left.items drawn.finished.items drawn.hand.items) }
    ensures few { IfOk result (λ drawn. (news : List OnePiece) → IsDraft (view_of layer) image.now version news draft.dropped.items draft.left.items draft.finished.items draft.hand.items → AreFew news draft.dropped.items (draft.finished.items ++ draft.hand.items) → AreFew (news ++ new ∷ []) drawn.dropped.items (drawn.finished.items ++ drawn.hand.items)) }
{
    if is_at_hand(draft.hand.as_slice(), &new.cells) {
        return lay(alloc, image, layer, draft, new);
    }
    let begun = begin_key(alloc, image, layer, version, draft, &new.cells)?;
    lay(alloc, image, layer, begun, new)
}

/// The pieces of all keys, those at hand too.
fn finish(draft: Draft) -> Result<Redrawn, Memory>
    ensures dropped { IfOk result (λ redrawn. redrawn.dropped.items ≡ draft.dropped.items) }
    ensures drawn { IfOk result (λ redrawn. redrawn.drawn.items ≡ draft.finished.items ++ draft.hand.items) }
{
    let Draft {
        dropped,
        finished,
        hand,
        left: _,
    } = draft;
    let mut drawn = finished;
    append(&mut drawn, hand)?;
    Ok(Redrawn { dropped, drawn })
}

/// What goes of the records, and what comes, where new pieces come over those that a version has. Only what is drawn for
/// their keys is looked at, and only what shares a moment with a new one goes. No more pieces come than two for each
/// new one and one for each that goes.
pub fn redraw(
    alloc: Global,
    image: &Image,
    layer: Layer,
    version: u64,
    news: Vec<PieceRecord>,
) -> Result<Redrawn, Memory>
    requires apart { differ collide (drawn_in (view_of layer) image.now) ≡ true }
    requires news { AreNewsOf version news.items }
    ensures redrawn { IfOk result (λ redrawn. IsRedrawn (view_of layer) image.now news.items redrawn.dropped.items redrawn.drawn.items) }
    ensures few { IfOk result (λ redrawn. length redrawn.drawn.items ≤ 2 * length news.items + length redrawn.dropped.items) }
{
    image.law_of_order();
    let mut draft = Draft {
        dropped: Vec::new(alloc),
        finished: Vec::new(alloc),
        left: Vec::new(alloc),
        hand: Vec::new(alloc),
    };
    for new in news {
        draft = draw_one(alloc, image, layer, version, draft, new)?;
    }
    finish(draft)
}
