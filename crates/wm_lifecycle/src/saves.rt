//! What is newest in a workspace is kept in a savepoint.
ghost use Rattle.std.specs.Prelude.{◌≡◌, ◌∷◌, [], true, IfOk, IfErr};
ghost use Rattle.wm_graph.specs.Parts.{parts_of};
ghost use Rattle.wm_graph.specs.Rules.{keep_rules};
ghost use Rattle.wm_changes.specs.Ids.{HasGreatId};
ghost use Rattle.wm_prices.specs.Prices.{Costs};
ghost use Rattle.wm_state.specs.ById.{applied};
ghost use Rattle.wm_state.specs.Drafts.{CanKeep, CanSave, CanWork, DraftsBy};
ghost use Rattle.wm_state.specs.declared.edit.Edit.TheVariants as edits;

use crate::batches::savepoint_changes;
use crate::points::{made_at, newest_point};
use std::alloc::Global;
use wm_base::Name;
use wm_changes::DraftFault;
use wm_changes::changes::marked;
use wm_changes::counts::{ids_from, moved};
use wm_changes::names::implicit_name;
use wm_image::Image;
use wm_spec::record::Changes;

/// A savepoint of a name is made of what is newest in a workspace.
pub fn save(
    alloc: Global,
    image: &Image,
    moment: u64,
    work: u64,
    space: u32,
    name: Name,
) -> Result<Changes, DraftFault>
    requires rules { keep_rules (parts_of image.now) ≡ true }
    requires work { CanWork (parts_of image.now) moment work }
    requires can { CanSave (parts_of image.now) space name }
    ensures drafts { IfOk result (DraftsBy work image.now moment (edits.Save space name ∷ [])) }
    ensures full { IfErr result (λ fault. fault ≡ DraftFault.Ids → HasGreatId image.now) }
{
    let id = ids_from(image, 1)?;
    let old = image.space(space).unwrap();
    let space_id = image.id_of_space(space).unwrap();
    let point = newest_point(image, moment, old);
    let savepoint = made_at(image, old, name, false, point);
    let counters = moved(image.counters(), moment, work);
    let new = marked(alloc, old.next_place + 1, old.next_implicit, old)?;
    let counters_id = image.id_of_counters();
    let changes = savepoint_changes(alloc, counters_id, counters, space_id, new, id, savepoint)?;
    Ok(changes)
}

/// An implicit savepoint is made of what is newest in a workspace.
pub fn keep(
    alloc: Global,
    image: &Image,
    moment: u64,
    work: u64,
    space: u32,
) -> Result<Changes, DraftFault>
    requires rules { keep_rules (parts_of image.now) ≡ true }
    requires work { CanWork (parts_of image.now) moment work }
    requires can { CanKeep (parts_of image.now) space }
    ensures drafts { IfOk result (DraftsBy work image.now moment (edits.Keep space ∷ [])) }
    ensures costs { IfOk result (λ changes. Costs image.now (edits.Keep space) (applied changes image.now)) }
    ensures full { IfErr result (λ fault. fault ≡ DraftFault.Ids → HasGreatId image.now) }
{
    let id = ids_from(image, 1)?;
    let old = image.space(space).unwrap();
    let space_id = image.id_of_space(space).unwrap();
    let point = newest_point(image, moment, old);
    let name = implicit_name(alloc, old.next_implicit)?;
    let savepoint = made_at(image, old, name, true, point);
    let counters = moved(image.counters(), moment, work);
    let new = marked(alloc, old.next_place + 1, old.next_implicit + 1, old)?;
    let counters_id = image.id_of_counters();
    let changes = savepoint_changes(alloc, counters_id, counters, space_id, new, id, savepoint)?;
    Ok(changes)
}
