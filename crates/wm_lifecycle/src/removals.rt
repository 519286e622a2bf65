//! A workspace goes, with all that is its own.
ghost use Rattle.std.specs.Prelude.{◌≡◌, ◌∷◌, [], ◌++◌, true, IfOk, OnOk};
ghost use Rattle.std.specs.List.{flat_map};
ghost use Rattle.wm_graph.specs.Parts.{parts_of};
ghost use Rattle.wm_graph.specs.Rules.{keep_rules};
ghost use Rattle.wm_index.specs.Sought.{OwnedBy, PiecesIn, ids_with, is_sought};
ghost use Rattle.wm_lifecycle.specs.Gone.{with_pieces};
ghost use Rattle.wm_state.specs.Drafts.{CanRemove, CanWork, DraftsBy};
ghost use Rattle.wm_state.specs.declared.edit.Edit.TheVariants as edits;

use std::alloc::Global;
use wm_base::Memory;
use wm_changes::changes::{drop_all, put};
use wm_changes::counts::moved;
use wm_image::Image;
use wm_spec::record::{Changes, Record};

/// Puts the ids of the pieces of a version behind others.
fn push_pieces(image: &Image, ids: &mut Vec<u64>, version: u64) -> Result<(), Memory>
    ensures { OnOk result (ids.new.items ≡ ids.old.items ++ ids_with (is_sought (PiecesIn version)) image.now) }
{
    let Some(pieces) = image.pieces_in(version) else {
        return Ok(());
    };
    for piece in pieces {
        ids.push(*piece)?;
    }
    Ok(())
}

/// Puts the id of a record behind others, and behind it those of the pieces of a version.
fn push_with_pieces(image: &Image, ids: &mut Vec<u64>, id: u64) -> Result<(), Memory>
    ensures { OnOk result (ids.new.items ≡ ids.old.items ++ with_pieces image.now id) }
{
    ids.push(id)?;
    if let Some(Record::Version(version)) = image.record(id) {
        push_pieces(image, ids, version.number)?;
    }
    Ok(())
}

/// The ids of a workspace's records, and behind that of each version those of its pieces.
fn all_with_pieces(alloc: Global, image: &Image, space: u32) -> Result<Vec<u64>, Memory>
    ensures { IfOk result (λ all. all.items ≡ flat_map (with_pieces image.now) (ids_with (is_sought (OwnedBy space)) image.now)) }
{
    let mut all = Vec::new(alloc);
    let Some(own) = image.records_of(space) else {
        return Ok(all);
    };
    for id in own {
        push_with_pieces(image, &mut all, *id)?;
    }
    Ok(all)
}

/// A workspace goes: its records, and the pieces of its versions.
pub fn remove(
    alloc: Global,
    image: &Image,
    moment: u64,
    work: u64,
    space: u32,
) -> Result<Changes, Memory>
    requires rules { keep_rules (parts_of image.now) ≡ true }
    requires work { CanWork (parts_of image.now) moment work }
    requires can { CanRemove (parts_of image.now) space }
    ensures { IfOk result (DraftsBy work image.now moment (edits.Remove space ∷ [])) }
{
    let counters_id = image.id_of_counters();
    let counters = image.counters();
    let counted = moved(counters, moment, work);
    let dropped = all_with_pieces(alloc, image, space)?;
    let mut changes = Changes::new(alloc);
    changes.push(put(counters_id, Record::Counters(counted)))?;
    let pushed = drop_all(&mut changes, dropped.as_slice());
    drop(dropped);
    pushed?;
    Ok(changes)
}
