//! Entries that were made before come into a workspace.

ghost use Rattle.std.specs.Prelude.{◌≡◌, ◌∷◌, [], map, true, IfOk, IfErr};
ghost use Rattle.wm_changes.specs.Ids.{HasGreatId};
ghost use Rattle.wm_graph.specs.Parts.{parts_of};
ghost use Rattle.wm_graph.specs.Rules.{keep_rules};
ghost use Rattle.wm_prices.specs.Prices.{Costs};
ghost use Rattle.wm_state.specs.ById.{applied};
ghost use Rattle.wm_state.specs.Drafts.{CanReplay, CanWork, DraftsBy};
ghost use Rattle.wm_state.specs.Editing.{entry_of};
ghost use Rattle.wm_state.specs.declared.edit.Edit.TheVariants as edits;

use crate::entered::enter;
use std::alloc::Global;
use wm_append::append::entered::Entered;
use wm_append::append::made::{Made, push_pieces, push_traced};
use wm_append::append::{version_changes, written};
use wm_append::redraw::{Layer, redraw};
use wm_changes::DraftFault;
use wm_changes::changes::longer_by;
use wm_changes::counts::{ids_from, versioned};
use wm_image::Image;
use wm_spec::record::{Changes, Version};
use wm_state::edit::Entries;

/// Entries come into a version more of a workspace, with the stamps and the rows that they have; no piece of before is
/// drawn anew for them.
pub fn replay(
    alloc: Global,
    image: &Image,
    moment: u64,
    work: u64,
    space: u32,
    entries: Entries,
) -> Result<Changes, DraftFault>
    requires rules { keep_rules (parts_of image.now) ≡ true }
    requires work { CanWork (parts_of image.now) moment work }
    requires can { CanReplay (parts_of image.now) space (map entry_of entries) }
    ensures drafts { IfOk result (DraftsBy work image.now moment (edits.Replay space entries ∷ [])) }
    ensures costs { IfOk result (λ changes. Costs image.now (edits.Replay space entries) (applied changes image.now)) }
    ensures full { IfErr result (λ fault. fault ≡ DraftFault.Ids → HasGreatId image.now) }
{
    let old = image.space(space).unwrap();
    let before = image.counters();
    let version = Version {
        number: before.next_version,
        space,
        parent: image.latest(space),
    };
    let counters = versioned(before, moment, work);
    let count = entries.len() as u64;
    let place = old.next_place - 1;
    let entered = enter(alloc, image, old, before.next_version, entries)?;
    let Entered {
        rows,
        pieces,
        marks,
        hists,
    } = entered;
    drop(rows);
    let mut news = Vec::new(alloc);
    push_pieces(&mut news, pieces)?;
    let touches = redraw(alloc, image, Layer::Touches(space), u64::from(place), marks)?;
    push_traced(&mut news, space, place, touches.drawn, hists)?;
    let made = Made {
        dropped: touches.dropped,
        news,
    };
    let id = ids_from(image, made.news.len() as u64 + 1)?;
    let front = version_changes(alloc, id, version)?;
    let longer = longer_by(alloc, count, old)?;
    let changes = written(alloc, image, front, counters, longer, id + 1, made)?;
    Ok(changes)
}
