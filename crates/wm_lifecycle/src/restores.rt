//! A workspace goes back to one of its savepoints.
ghost use Rattle.std.specs.Prelude.{◌≡◌, ◌∷◌, [], not, true, IfOk, IfErr};
ghost use Rattle.std.specs.List.{filter};
ghost use Rattle.std.specs.Option.{option_copied};
ghost use Rattle.wm_changes.specs.Ids.{HasGreatId};
ghost use Rattle.wm_graph.specs.Parts.{parts_of};
ghost use Rattle.wm_graph.specs.Rules.{keep_rules};
ghost use Rattle.wm_index.specs.Sought.{ids_with};
ghost use Rattle.wm_lifecycle.specs.Gone.{goes_back};
ghost use Rattle.wm_spec.specs.Records.{record_at};
ghost use Rattle.wm_state.specs.ById.{Ascend};
ghost use Rattle.wm_state.specs.Drafts.{CanRestore, CanWork, DraftsBy};
ghost use Rattle.wm_state.specs.declared.edit.Edit.TheVariants as edits;
ghost use Rattle.wm_undone.specs.Restoring.{keeps_back, restored_to};

use crate::batches::space_changes;
use std::alloc::Global;
use std::collections::BTreeSet;
use wm_base::Memory;
use wm_changes::DraftFault;
use wm_changes::changes::{drop_all, put};
use wm_changes::copies::space_copy;
use wm_changes::counts::{ids_from, versioned};
use wm_image::Image;
use wm_spec::record::{Changes, Record, Savepoint, Space, Version};

/// Whether a record goes where its workspace goes back to a savepoint: a later savepoint, a touch that was made from its
/// place on or by a later entry, a mark or a lock that was made from its place on, and a later entry of the log.
fn goes_back(savepoint: &Savepoint, found: Option<&Record>) -> bool
    ensures { result ≡ goes_back savepoint.now (option_copied found.entry) }
{
    match found {
        Some(Record::Savepoint(other)) => {
            let other = other.get();
            other.space == savepoint.space
                && (other.place > savepoint.place || other.log_length > savepoint.log_length)
        }
        Some(Record::Touch(touch)) => {
            touch.space == savepoint.space
                && (touch.place >= savepoint.place || touch.position >= savepoint.log_length)
        }
        Some(Record::Mark(mark)) => {
            mark.space == savepoint.space && mark.place >= savepoint.place
        }
        Some(Record::Lock(lock)) => {
            let lock = lock.get();
            lock.space == savepoint.space && lock.place >= savepoint.place
        }
        Some(Record::Hist(hist)) => {
            let hist = hist.get();
            hist.space == savepoint.space && hist.position >= savepoint.log_length
        }
        _ => false,
    }
}

/// Those of some ids whose record goes where its workspace goes back to a savepoint.
fn going_back(
    alloc: Global,
    image: &Image,
    savepoint: &Savepoint,
    ids: &BTreeSet<u64>,
) -> Result<Vec<u64>, Memory>
    ensures { IfOk result (λ going. going.items ≡ filter (λ id. goes_back savepoint.now (record_at image.now id)) ids.now.keys) }
{
    let mut going = Vec::new(alloc);
    for id in ids {
        if goes_back(savepoint, image.record(*id)) {
            going.push(*id)?;
        }
    }
    Ok(going)
}

/// The ids of all records that go where a workspace goes back to a savepoint.
fn dropped_back(alloc: Global, image: &Image, savepoint: &Savepoint) -> Result<Vec<u64>, Memory>
    requires { Ascend image.now }
    ensures { IfOk result (λ dropped. dropped.items ≡ ids_with (λ r. not (keeps_back savepoint.now r)) image.now) }
{
    let Some(own) = image.records_of(savepoint.space) else {
        return Ok(Vec::new(alloc));
    };
    let dropped = going_back(alloc, image, savepoint, own)?;
    Ok(dropped)
}

/// The workspace as it was at a savepoint.
fn restored_to(alloc: Global, savepoint: &Savepoint, space: &Space) -> Result<Space, Memory>
    ensures { IfOk result (λ new. new ≡ restored_to savepoint.now space.now) }
{
    let mut new = space_copy(alloc, space)?;
    new.base_version = savepoint.base_version;
    new.from = savepoint.from;
    new.log_length = savepoint.log_length;
    Ok(new)
}

/// A workspace goes back to the savepoint of a making.
pub fn restore(
    alloc: Global,
    image: &Image,
    moment: u64,
    work: u64,
    space: u32,
    making: u64,
) -> Result<Changes, DraftFault>
    requires rules { keep_rules (parts_of image.now) ≡ true }
    requires work { CanWork (parts_of image.now) moment work }
    requires can { CanRestore (parts_of image.now) space making }
    ensures drafts { IfOk result (DraftsBy work image.now moment (edits.Restore space making ∷ [])) }
    ensures full { IfErr result (λ fault. fault ≡ DraftFault.Ids → HasGreatId image.now) }
{
    let id = ids_from(image, 1)?;
    let old = image.space(space).unwrap();
    let savepoint = image.savepoint(space, making).unwrap();
    let space_id = image.id_of_space(space).unwrap();
    let counters_id = image.id_of_counters();
    let counters = image.counters();
    let version = Version {
        number: counters.next_version,
        space,
        parent: savepoint.version,
    };
    let counted = versioned(counters, moment, work);
    let dropped = dropped_back(alloc, image, savepoint)?;
    let new = restored_to(alloc, savepoint, old)?;
    let mut changes = space_changes(alloc, counters_id, counted, space_id, new)?;
    let pushed = drop_all(&mut changes, dropped.as_slice());
    drop(dropped);
    pushed?;
    changes.push(put(id, Record::Version(version)))?;
    Ok(changes)
}
