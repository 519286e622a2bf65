//! The records that are drawn: pieces as they are, and touches and marks as pieces.

ghost use Rattle.std.specs.Prelude.{◌≡◌, ◌==◌, ◌&&◌, IfOk};
ghost use Rattle.std.specs.Option.{option_and_then, option_copied};
ghost use Rattle.wm_append.specs.Layers.{sought_in, view_of};
ghost use Rattle.wm_append.specs.Redraw.{is_touched};
ghost use Rattle.wm_append.specs.Views.{has_version};
ghost use Rattle.wm_graph.specs.Rules.{as_drawn, collide};
ghost use Rattle.wm_index.specs.Sought.{ids_with, is_sought};
ghost use Rattle.wm_state.specs.Touching.{drawn_as};

use crate::redraw::over::{collide, copy_part, meets};
use std::alloc::Global;
use wm_base::{Key, Kind, Memory};
use wm_changes::copies::cells_copy;
use wm_image::Image;
use wm_spec::record::{PieceRecord, Record, Trace};

/// The records that are drawn: the pieces, or the touches or the marks of a workspace, each as a piece whose version is its
/// place and whose stamp is its position.
#[derive(Clone, Copy)]
pub enum Layer {
    Pieces,
    Touches(u32),
    Marks(u32),
}

/// A touch or a mark as a piece, where it is of the workspace.
fn trace_drawn(alloc: Global, trace: &Trace, space: u32) -> Result<Option<PieceRecord>, Memory>
    ensures { IfOk result (λ drawn. drawn ≡ drawn_as space trace.now) }
{
    if trace.space != space {
        return Ok(None);
    }
    let cells = cells_copy(alloc, &trace.cells)?;
    Ok(Some(PieceRecord {
        version: u64::from(trace.place),
        cells,
        stamp: trace.position,
        kind: Kind::Insert,
        gone: false,
    }))
}

/// Whether a touch or a mark of the workspace shares a cell with a new piece.
fn is_trace_touched(new: &PieceRecord, trace: &Trace, space: u32) -> bool
    ensures { result ≡ ((trace.now.space == space) && collide new.now (as_drawn trace.now)) }
{
    trace.space == space && meets(new, u64::from(trace.place), &trace.cells)
}

/// Whether a touch or a mark is of the workspace and a place.
fn is_trace_own(trace: &Trace, place: u64, space: u32) -> bool
    ensures { result ≡ ((trace.now.space == space) && (trace.now.place == place)) }
{
    trace.space == space && u64::from(trace.place) == place
}

/// A record as the piece that it is drawn as.
pub fn drawn_as(
    alloc: Global,
    found: Option<&Record>,
    layer: Layer,
) -> Result<Option<PieceRecord>, Memory>
    ensures { IfOk result (λ drawn. drawn ≡ option_and_then (view_of layer) (option_copied found.entry)) }
{
    match layer {
        Layer::Pieces => match found {
            Some(Record::Piece(piece)) => {
                let copy = copy_part(alloc, piece, piece.cells.from, piece.cells.till)?;
                Ok(Some(copy))
            }
            _ => Ok(None),
        },
        Layer::Touches(space) => match found {
            Some(Record::Touch(touch)) => trace_drawn(alloc, touch, space),
            _ => Ok(None),
        },
        Layer::Marks(space) => match found {
            Some(Record::Mark(mark)) => trace_drawn(alloc, mark, space),
            _ => Ok(None),
        },
    }
}

/// Whether a record is drawn as a piece that shares a cell with a new one.
pub fn is_touched(new: &PieceRecord, found: Option<&Record>, layer: Layer) -> bool
    ensures { result ≡ is_touched (view_of layer) new.now (option_copied found.entry) }
{
    match layer {
        Layer::Pieces => match found {
            Some(Record::Piece(piece)) => collide(new, piece),
            _ => false,
        },
        Layer::Touches(space) => match found {
            Some(Record::Touch(touch)) => is_trace_touched(new, touch, space),
            _ => false,
        },
        Layer::Marks(space) => match found {
            Some(Record::Mark(mark)) => is_trace_touched(new, mark, space),
            _ => false,
        },
    }
}

/// Whether a record is drawn as a piece of a version.
pub fn is_own(found: Option<&Record>, version: u64, layer: Layer) -> bool
    ensures { result ≡ has_version (view_of layer) version (option_copied found.entry) }
{
    match layer {
        Layer::Pieces => match found {
            Some(Record::Piece(piece)) => piece.version == version,
            _ => false,
        },
        Layer::Touches(space) => match found {
            Some(Record::Touch(touch)) => is_trace_own(touch, version, space),
            _ => false,
        },
        Layer::Marks(space) => match found {
            Some(Record::Mark(mark)) => is_trace_own(mark, version, space),
            _ => false,
        },
    }
}

/// The ids of the records that are drawn for a key of a table as pieces of a version, and maybe of others.
pub fn ids_in<'a>(image: &'a Image, layer: Layer, version: u64, table: u16, key: &Key) -> &'a [u64]
    ensures { result.now ≡ ids_with (is_sought (sought_in layer version table key.now)) image.now }
{
    match layer {
        Layer::Pieces => image.pieces_at(table, key, version),
        Layer::Touches(_) => image.touches_of(table, key),
        Layer::Marks(_) => image.marks_of(table, key),
    }
}
