//! What goes of the records and what comes where entries come into a version.

ghost use Rattle.std.specs.Prelude.{◌≡◌, ◌+◌, ◌++◌, map, true, Some, IfOk, OnOk};
ghost use Rattle.wm_append.specs.Appending.{AreMade};
ghost use Rattle.wm_graph.specs.Parts.{parts_of, space_of};
ghost use Rattle.wm_graph.specs.Rules.{keep_rules};
ghost use Rattle.wm_spec.specs.declared.record.Record.TheVariants as records;
ghost use Rattle.wm_state.specs.Drafts.{CanAppend};
ghost use Rattle.wm_state.specs.Editing.{entry_of};
ghost use Rattle.wm_state.specs.Standing.{has_history};
ghost use Rattle.wm_state.specs.Touching.{trace_at};

use crate::append::entered::{Entered, Target, enter};
use crate::redraw::{Layer, redraw};
use std::alloc::Global;
use wm_base::Memory;
use wm_image::Image;
use wm_spec::record::{PieceRecord, Record, Space, Trace};
use wm_state::edit::Entries;

/// The ids of the records that go, and the records that come.
#[derive(Drop)]
pub struct Made {
    pub dropped: Vec<u64>,
    pub news: Vec<Record>,
}

/// Whether the table of a number keeps its history.
pub fn has_history(image: &Image, table: u16) -> bool
    ensures { result ≡ has_history (parts_of image.now).tables table }
{
    match image.table_numbered(table) {
        Some(found) => found.history,
        None => false,
    }
}

/// Puts pieces behind other records.
pub fn push_pieces(news: &mut Vec<Record>, pieces: Vec<PieceRecord>) -> Result<(), Memory>
    ensures { OnOk result (news.new.items ≡ news.old.items ++ map records.Piece pieces.items) }
{
    for piece in pieces {
        news.push(Record::Piece(piece))?;
    }
    Ok(())
}

/// Puts pieces as touches of a workspace at a place behind other records.
pub fn push_touches(
    news: &mut Vec<Record>,
    space: u32,
    place: u32,
    pieces: Vec<PieceRecord>,
) -> Result<(), Memory>
    ensures { OnOk result (news.new.items ≡ news.old.items ++ map records.Touch (map (trace_at space place) pieces.items)) }
{
    for piece in pieces {
        news.push(Record::Touch(Trace {
            space,
            place,
            cells: piece.cells,
            position: piece.stamp,
        }))?;
    }
    Ok(())
}

/// Puts records behind others.
pub fn push_all(news: &mut Vec<Record>, more: Vec<Record>) -> Result<(), Memory>
    ensures { OnOk result (news.new.items ≡ news.old.items ++ more.items) }
{
    for one in more {
        news.push(one)?;
    }
    Ok(())
}

/// Puts pieces as touches of a workspace at a place behind other records, and behind them what its log keeps.
pub fn push_traced(
    news: &mut Vec<Record>,
    space: u32,
    place: u32,
    drawn: Vec<PieceRecord>,
    hists: Vec<Record>,
) -> Result<(), Memory>
    ensures { OnOk result (news.new.items ≡ news.old.items ++ map records.Touch (map (trace_at space place) drawn.items) ++ hists.items) }
{
    let pushed = push_touches(news, space, place, drawn);
    match pushed {
        Ok(()) => push_all(news, hists),
        Err(fault) => {
            drop(hists);
            Err(fault)
        }
    }
}

/// What goes and what comes where entries come into a version of a workspace, at the last place that was given there and
/// behind its log.
pub fn draw_entries(
    alloc: Global,
    image: &Image,
    space: &Space,
    version: u64,
    entries: Entries,
) -> Result<Made, Memory>
    requires rules { keep_rules (parts_of image.now) ≡ true }
    requires there { space_of (parts_of image.now).spaces space.now.number ≡ Some space.now }
    requires can { CanAppend (parts_of image.now) space.now.number (map entry_of entries) }
    ensures { IfOk result (λ made. AreMade image.now space.now version (map entry_of entries) made.dropped.items made.news.items) }
{
    let place = space.next_place - 1;
    let target = Target {
        version,
        space: space.number,
        place,
        history: has_history(image, entries.as_slice()[0].table),
    };
    let entered = enter(alloc, target, space.log_length, entries)?;
    let Entered {
        rows,
        pieces: own,
        marks,
        hists,
    } = entered;
    let mut news = rows;
    let pieces = redraw(alloc, image, Layer::Pieces, version, own)?;
    push_pieces(&mut news, pieces.drawn)?;
    let layer = Layer::Touches(space.number);
    let touches = redraw(alloc, image, layer, u64::from(place), marks)?;
    push_traced(&mut news, space.number, place, touches.drawn, hists)?;
    let mut dropped = pieces.dropped;
    let extended = dropped.extend_from_slice(touches.dropped.as_slice());
    drop(touches.dropped);
    extended?;
    Ok(Made { dropped, news })
}
