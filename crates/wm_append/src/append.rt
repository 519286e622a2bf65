//! Entries come into a workspace.
ghost use Rattle.std.specs.Prelude.{◌≡◌, ◌+◌, ◌<◌, ◌^◌, ◌∷◌, [], length, map, true, false, Some, is_some, IfOk, IfErr};
ghost use Rattle.wm_graph.specs.Parts.{parts_of, space_of};
ghost use Rattle.wm_graph.specs.Rules.{keep_rules};
ghost use Rattle.wm_append.specs.Appending.{AreWritten};
ghost use Rattle.wm_changes.specs.Ids.{HasGreatId};
ghost use Rattle.wm_spec.specs.declared.record.Record.TheVariants as records;
ghost use Rattle.wm_state.specs.Batches.{put};
ghost use Rattle.wm_state.specs.Drafts.{CanAppend, CanWork, DraftsBy, IsSpare};
ghost use Rattle.wm_state.specs.Editing.{entry_of};
ghost use Rattle.wm_state.specs.Effects.{IsFree, IsLeaf};
ghost use Rattle.wm_state.specs.Standing.{latest, newest_first};
ghost use Rattle.wm_state.specs.declared.edit.Edit.TheVariants as edits;

pub mod entered;
pub mod made;

use crate::append::made::{Made, draw_entries};
use std::alloc::Global;
use wm_base::Memory;
use wm_changes::DraftFault;
use wm_changes::changes::{drop_all, longer_by, put, put_all};
use wm_changes::counts::{ids_from, stepped_by, stepped_new_by};
use wm_image::Image;
use wm_spec::record::{Boxed, Changes, Counters, Record, Space, Version};
use wm_state::edit::Entries;

/// What is put for counters, for a workspace whose record is there, and for records that come in the place of others,
/// behind other changes; new ids begin with this one.
pub fn written(
    alloc: Global,
    image: &Image,
    front: Changes,
    counters: Counters,
    space: Space,
    id: u64,
    made: Made,
) -> Result<Changes, Memory>
    requires rules { keep_rules (parts_of image.now) ≡ true }
    requires there { is_some (space_of (parts_of image.now).spaces space.number) ≡ true }
    requires ids { id + length made.news.items < 2 ^ 64 }
    ensures { IfOk result (AreWritten image.now front counters space id made.dropped.items made.news.items) }
{
    let space_id = image.id_of_space(space.number).unwrap();
    let Made { dropped, news } = made;
    let mut changes = front;
    changes.push(put(image.id_of_counters(), Record::Counters(counters)))?;
    changes.push(put(space_id, Record::Space(Boxed::new(alloc, space)?)))?;
    let pushed = drop_all(&mut changes, dropped.as_slice());
    drop(dropped);
    pushed?;
    put_all(&mut changes, id, news)?;
    Ok(changes)
}

/// Entries come into the newest version of their workspace, under which none stands and which nothing names.
fn append_here(
    alloc: Global,
    image: &Image,
    moment: u64,
    work: u64,
    space: &Space,
    entries: Entries,
) -> Result<Changes, DraftFault>
    requires rules { keep_rules (parts_of image.now) ≡ true }
    requires work { CanWork (parts_of image.now) moment work }
    requires there { space_of (parts_of image.now).spaces space.now.number ≡ Some space.now }
    requires can { CanAppend (parts_of image.now) space.now.number (map entry_of entries) }
    requires leaf { IsLeaf (latest (parts_of image.now) space.now.number) (newest_first (parts_of image.now).versions) }
    requires free { IsFree (parts_of image.now) (latest (parts_of image.now) space.now.number) }
    ensures drafts { IfOk result (DraftsBy work image.now moment (edits.Append space.now.number entries ∷ [])) }
    ensures full { IfErr result (λ fault. fault ≡ DraftFault.Ids → HasGreatId image.now) }
{
    let count = entries.len() as u64;
    let counters = stepped_by(image.counters(), moment, work, count);
    let version = image.latest(space.number);
    let made = draw_entries(alloc, image, space, version, entries)?;
    let id = ids_from(image, made.news.len() as u64)?;
    let longer = longer_by(alloc, count, space)?;
    let front = Changes::new(alloc);
    let changes = written(alloc, image, front, counters, longer, id, made)?;
    Ok(changes)
}

/// What is put first where entries come into a version more.
pub fn version_changes(alloc: Global, id: u64, version: Version) -> Result<Changes, Memory>
    ensures { IfOk result (λ changes. changes ≡ put id (records.Version version) ∷ []) }
{
    let mut changes = Changes::new(alloc);
    changes.push(put(id, Record::Version(version)))?;
    Ok(changes)
}

/// Entries come into a version more of their workspace.
fn append_above(
    alloc: Global,
    image: &Image,
    moment: u64,
    work: u64,
    space: &Space,
    entries: Entries,
) -> Result<Changes, DraftFault>
    requires rules { keep_rules (parts_of image.now) ≡ true }
    requires work { CanWork (parts_of image.now) moment work }
    requires there { space_of (parts_of image.now).spaces space.now.number ≡ Some space.now }
    requires can { CanAppend (parts_of image.now) space.now.number (map entry_of entries) }
    requires used { IsSpare (parts_of image.now) space.now.number → ⊥ }
    ensures drafts { IfOk result (DraftsBy work image.now moment (edits.Append space.now.number entries ∷ [])) }
    ensures full { IfErr result (λ fault. fault ≡ DraftFault.Ids → HasGreatId image.now) }
{
    let count = entries.len() as u64;
    let old = image.counters();
    let version = Version {
        number: old.next_version,
        space: space.number,
        parent: image.latest(space.number),
    };
    let number = version.number;
    let counters = stepped_new_by(old, moment, work, count);
    let made = draw_entries(alloc, image, space, number, entries)?;
    let id = ids_from(image, made.news.len() as u64 + 1)?;
    let front = version_changes(alloc, id, version)?;
    let longer = longer_by(alloc, count, space)?;
    let changes = written(alloc, image, front, counters, longer, id + 1, made)?;
    Ok(changes)
}

/// Whether a version is spare: none stands under it, and no savepoint and no workspace names it.
fn is_spare(image: &Image, version: u64) -> bool
    requires { keep_rules (parts_of image.now) ≡ true }
    ensures leaf { result ≡ true → IsLeaf version (newest_first (parts_of image.now).versions) }
    ensures free { result ≡ true → IsFree (parts_of image.now) version }
    ensures used { result ≡ false → IsLeaf version (newest_first (parts_of image.now).versions) × IsFree (parts_of image.now) version → ⊥ }
{
    image.is_leaf(version) && image.is_free(version)
}

/// Entries come into a workspace: into its newest version, or into a version more where another stands under that one or a
/// savepoint or a workspace names it.
pub fn append(
    alloc: Global,
    image: &Image,
    moment: u64,
    work: u64,
    space: u32,
    entries: Entries,
) -> Result<Changes, DraftFault>
    requires rules { keep_rules (parts_of image.now) ≡ true }
    requires work { CanWork (parts_of image.now) moment work }
    requires can { CanAppend (parts_of image.now) space (map entry_of entries) }
    ensures drafts { IfOk result (DraftsBy work image.now moment (edits.Append space entries ∷ [])) }
    ensures full { IfErr result (λ fault. fault ≡ DraftFault.Ids → HasGreatId image.now) }
{
    let found = image.space(space).unwrap();
    if is_spare(image, image.latest(space)) {
        return append_here(alloc, image, moment, work, found, entries);
    }
    append_above(alloc, image, moment, work, found, entries)
}
