//! Cells of a workspace are settled.

ghost use Rattle.std.specs.Prelude.{◌≡◌, ◌+◌, ◌<◌, ◌^◌, ◌∷◌, [], ◌++◌, length, map, true, IfOk, IfErr, OnOk};
ghost use Rattle.wm_changes.specs.Ids.{HasGreatId};
ghost use Rattle.wm_graph.specs.Parts.{parts_of};
ghost use Rattle.wm_graph.specs.Rules.{keep_rules};
ghost use Rattle.wm_prices.specs.Prices.{Costs};
ghost use Rattle.wm_settle.specs.Leaving.{AreMarked};
ghost use Rattle.wm_spec.specs.declared.record.Record.TheVariants as records;
ghost use Rattle.wm_state.specs.ById.{applied};
ghost use Rattle.wm_state.specs.Drafts.{CanSettle, CanWork, DraftsBy};
ghost use Rattle.wm_state.specs.Touching.{trace_at};
ghost use Rattle.wm_state.specs.declared.edit.Edit.TheVariants as edits;

use crate::left::left_of_all;
use std::alloc::Global;
use wm_append::append::made::Made;
use wm_append::redraw::{Layer, redraw};
use wm_base::Memory;
use wm_changes::DraftFault;
use wm_changes::changes::{drop_all, put, put_all};
use wm_changes::counts::{ids_from, moved};
use wm_image::Image;
use wm_spec::record::{Changes, Counters, PieceRecord, Record, Trace};
use wm_state::edit::Marks;

/// Puts pieces as marks of a workspace at a place behind other records.
fn push_marks(
    news: &mut Vec<Record>,
    space: u32,
    place: u32,
    pieces: Vec<PieceRecord>,
) -> Result<(), Memory>
    ensures { OnOk result (news.new.items ≡ news.old.items ++ map records.Mark (map (trace_at space place) pieces.items)) }
{
    for piece in pieces {
        news.push(Record::Mark(Trace {
            space,
            place,
            cells: piece.cells,
            position: piece.stamp,
        }))?;
    }
    Ok(())
}

/// What is put for counters, and for records that come in the place of others; new ids begin with this one.
fn marked(
    alloc: Global,
    image: &Image,
    counters: Counters,
    id: u64,
    made: Made,
) -> Result<Changes, Memory>
    requires rules { keep_rules (parts_of image.now) ≡ true }
    requires ids { id + length made.news.items < 2 ^ 64 }
    ensures { IfOk result (AreMarked image.now counters id made.dropped.items made.news.items) }
{
    let Made { dropped, news } = made;
    let mut changes = Changes::new(alloc);
    changes.push(put(image.id_of_counters(), Record::Counters(counters)))?;
    let pushed = drop_all(&mut changes, dropped.as_slice());
    drop(dropped);
    pushed?;
    put_all(&mut changes, id, news)?;
    Ok(changes)
}

/// The workspace has marks more, at the last place that was given there; of those that it has there each stays where it is
/// at a greater position.
pub fn settle(
    alloc: Global,
    image: &Image,
    moment: u64,
    work: u64,
    space: u32,
    marks: Marks,
) -> Result<Changes, DraftFault>
    requires rules { keep_rules (parts_of image.now) ≡ true }
    requires work { CanWork (parts_of image.now) moment work }
    requires can { CanSettle (parts_of image.now) space marks }
    ensures drafts { IfOk result (DraftsBy work image.now moment (edits.Settle space marks ∷ [])) }
    ensures costs { IfOk result (λ changes. Costs image.now (edits.Settle space marks) (applied changes image.now)) }
    ensures full { IfErr result (λ fault. fault ≡ DraftFault.Ids → HasGreatId image.now) }
{
    image.law_of_order();
    let found = image.space(space).unwrap();
    let counters = moved(image.counters(), moment, work);
    let place = found.next_place - 1;
    let left = left_of_all(alloc, image, space, place, marks)?;
    let drawn = redraw(alloc, image, Layer::Marks(space), u64::from(place), left)?;
    let mut news = Vec::new(alloc);
    push_marks(&mut news, space, place, drawn.drawn)?;
    let made = Made {
        dropped: drawn.dropped,
        news,
    };
    let id = ids_from(image, made.news.len() as u64)?;
    let changes = marked(alloc, image, counters, id, made)?;
    Ok(changes)
}
