//! Entries that were made before come into the log of a workspace alone.

ghost use Rattle.std.specs.Prelude.{◌≡◌, ◌∷◌, [], map, true, IfOk, IfErr};
ghost use Rattle.wm_changes.specs.Ids.{HasGreatId};
ghost use Rattle.wm_graph.specs.Parts.{parts_of};
ghost use Rattle.wm_graph.specs.Rules.{keep_rules};
ghost use Rattle.wm_prices.specs.Prices.{Costs};
ghost use Rattle.wm_state.specs.ById.{applied};
ghost use Rattle.wm_state.specs.Drafts.{CanGain, CanWork, DraftsBy};
ghost use Rattle.wm_state.specs.Editing.{entry_of};
ghost use Rattle.wm_state.specs.declared.edit.Edit.TheVariants as edits;

use crate::entered::enter;
use std::alloc::Global;
use wm_append::append::entered::Entered;
use wm_append::append::made::{Made, push_traced};
use wm_append::append::written;
use wm_append::redraw::{Layer, redraw};
use wm_changes::DraftFault;
use wm_changes::changes::longer_by;
use wm_changes::counts::{ids_from, moved};
use wm_image::Image;
use wm_spec::record::Changes;
use wm_state::edit::Entries;

/// The log of a workspace gains entries: what they touch comes over its touches.
pub fn gain(
    alloc: Global,
    image: &Image,
    moment: u64,
    work: u64,
    space: u32,
    entries: Entries,
) -> Result<Changes, DraftFault>
    requires rules { keep_rules (parts_of image.now) ≡ true }
    requires work { CanWork (parts_of image.now) moment work }
    requires can { CanGain (parts_of image.now) space (map entry_of entries) }
    ensures drafts { IfOk result (DraftsBy work image.now moment (edits.Gain space entries ∷ [])) }
    ensures costs { IfOk result (λ changes. Costs image.now (edits.Gain space entries) (applied changes image.now)) }
    ensures full { IfErr result (λ fault. fault ≡ DraftFault.Ids → HasGreatId image.now) }
{
    let old = image.space(space).unwrap();
    let counters = moved(image.counters(), moment, work);
    let count = entries.len() as u64;
    let place = old.next_place - 1;
    let entered = enter(alloc, image, old, 0, entries)?;
    let Entered {
        rows,
        pieces,
        marks,
        hists,
    } = entered;
    drop(rows);
    drop(pieces);
    let touches = redraw(alloc, image, Layer::Touches(space), u64::from(place), marks)?;
    let mut news = Vec::new(alloc);
    push_traced(&mut news, space, place, touches.drawn, hists)?;
    let made = Made {
        dropped: touches.dropped,
        news,
    };
    let id = ids_from(image, made.news.len() as u64)?;
    let longer = longer_by(alloc, count, old)?;
    let front = Changes::new(alloc);
    let changes = written(alloc, image, front, counters, longer, id, made)?;
    Ok(changes)
}
