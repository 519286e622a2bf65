//! What the marks of a workspace settle.

ghost use Rattle.std.specs.Prelude.{◌≡◌, ℕ, ◌<◌, ◌&&◌, not, is_some, nat_le, nat_lt, IfOk, OnOk};
ghost use Rattle.std.specs.Option.{option_and_then, option_copied};
ghost use Rattle.wm_base.specs.declared.instant.TheConstants.{END};
ghost use Rattle.wm_graph.specs.Parts.{as_mark, parts_of};
ghost use Rattle.wm_index.specs.Kinds.{passing};
ghost use Rattle.wm_net.specs.Groups.{cell};
ghost use Rattle.wm_pending.specs.Lookups.{group_own};
ghost use Rattle.wm_pending.specs.Settled.{is_settled, settles_at};
ghost use Rattle.wm_pending.specs.Touched.{is_since, is_touched, since_position};
ghost use Rattle.wm_period.specs.Pieces.{held_at};

use crate::erasing::erase_all;
use crate::own::OwnKey;
use crate::touched::{Since, erase_touched, is_since, over_period};
use std::alloc::Global;
use wm_base::Memory;
use wm_image::Image;
use wm_period::Pieces;
use wm_spec::record::{Record, Trace};
use wm_version_rows::laying::period_of;

/// A record that is a mark that is meant.
fn mark_since(found: Option<&Record>, marks: Since) -> Option<&Trace>
    ensures { option_copied result ≡ passing (is_since marks) (option_and_then as_mark (option_copied found.entry)) }
{
    match found {
        Some(Record::Mark(mark)) => {
            if is_since(mark, marks) {
                Some(mark)
            } else {
                None
            }
        }
        _ => None,
    }
}

/// The periods of a key that a mark settles: those of the mark that no touch covers since its position. What the pieces
/// say means nothing.
fn settled_by(
    alloc: Global,
    image: &Image,
    mark: &Trace,
    touches: Since,
    own: &OwnKey,
) -> Result<Pieces, Memory>
    ensures { IfOk result (λ settled. (t : ℕ) → t < END → is_some (held_at settled t) ≡ ((nat_le mark.now.cells.from t && nat_lt t mark.now.cells.till) && not (is_touched (parts_of image.now).touches (since_position touches mark.now.position) (cell (group_own own.now) t)))) }
{
    let Some(period) = period_of(&mark.cells) else {
        return Ok(Pieces::new(alloc));
    };
    let mut settled = over_period(alloc, period)?;
    let since = touches.from_position(mark.position);
    erase_touched(alloc, image, &mut settled, since, own.table, &own.key)?;
    Ok(settled)
}

/// Takes out of pieces of a key what a record settles, where it is a mark that is meant.
fn erase_mark(
    alloc: Global,
    image: &Image,
    pieces: &mut Pieces,
    found: Option<&Record>,
    marks: Since,
    touches: Since,
    own: &OwnKey,
) -> Result<(), Memory>
    ensures { OnOk result ((t : ℕ) → t < END → is_some (held_at pieces.new t) ≡ (is_some (held_at pieces.old t) && not (settles_at (parts_of image.now).touches marks touches (cell (group_own own.now) t) (option_and_then as_mark (option_copied found.entry))))) }
{
    if let Some(mark) = mark_since(found, marks) {
        let settled = settled_by(alloc, image, mark, touches, own)?;
        erase_all(alloc, pieces, settled.list())?;
    }
    Ok(())
}

/// Takes out of pieces of a key what marks that are meant settle: their cells, where no touch covers them since the
/// position of the mark. No other key's marks are looked at.
pub fn erase_settled(
    alloc: Global,
    image: &Image,
    pieces: &mut Pieces,
    marks: Since,
    touches: Since,
    own: &OwnKey,
) -> Result<(), Memory>
    ensures { OnOk result ((t : ℕ) → t < END → is_some (held_at pieces.new t) ≡ (is_some (held_at pieces.old t) && not (is_settled (parts_of image.now) marks touches (cell (group_own own.now) t)))) }
{
    image.law_of_order();
    for id in image.marks_of(own.table, &own.key) {
        erase_mark(alloc, image, pieces, image.record(*id), marks, touches, own)?;
    }
    Ok(())
}
