//! What becomes of the records where a line makes its edits.
ghost use Rattle.std.specs.Prelude.{◌≡◌, ◌≤◌, ◌+◌, ◌∷◌, [], length, true, IfOk, IfErr, OnOk};
ghost use Rattle.wm_changes.specs.Ids.{HasGreatId};
ghost use Rattle.wm_graph.specs.Parts.{parts_of};
ghost use Rattle.wm_graph.specs.Rules.{keep_rules};
ghost use Rattle.wm_prices.specs.Prices.{Costs, Spends};
ghost use Rattle.wm_state.specs.ById.{Ascend, applied};
ghost use Rattle.wm_state.specs.Drafts.{CanDraft, CanEdit, CanWork, Drafts, DraftsBy, followed_by};
ghost use Rattle.wm_state.specs.Editing.{locks_by};

use crate::followed::followed_by;
use std::alloc::Global;
use std::mem::replace;
use wm_append::append::append;
use wm_base::Memory;
use wm_changes::DraftFault;
use wm_changes::copies::change_copies;
use wm_image::Image;
use wm_lifecycle::births::bear;
use wm_lifecycle::freezes::freeze;
use wm_lifecycle::locks::{NewLocks, lock, unlock};
use wm_lifecycle::removals::remove;
use wm_lifecycle::restores::restore;
use wm_lifecycle::saves::{keep, save};
use wm_lifecycle::tables::{create, enable};
use wm_replay::gains::gain;
use wm_replay::rebases::rebase;
use wm_replay::replays::replay;
use wm_settle::settles::settle;
use wm_spec::record::{Batch, Changes};
use wm_state::edit::{Edit, LINE_WORK};

/// How many locks an edit makes.
fn locks_by(edit: &Edit) -> u64
    ensures { result ≡ locks_by edit.now }
{
    match edit {
        Edit::Lock { cells, .. } => cells.len() as u64,
        _ => 0,
    }
}

/// What an edit at a moment makes of the records, with so much work, which is no less than the locks that it makes.
fn draft_one(
    alloc: Global,
    image: &Image,
    moment: u64,
    work: u64,
    edit: Edit,
) -> Result<Changes, DraftFault>
    requires rules { keep_rules (parts_of image.now) ≡ true }
    requires work { CanWork (parts_of image.now) moment work }
    requires can { CanEdit (parts_of image.now) moment edit }
    requires locks { locks_by edit ≤ work }
    ensures drafts { IfOk result (DraftsBy work image.now moment (edit ∷ [])) }
    ensures costs { IfOk result (λ changes. Costs image.now edit (applied changes image.now)) }
    ensures full { IfErr result (λ fault. fault ≡ DraftFault.Ids → HasGreatId image.now) }
{
    match edit {
        Edit::Create(table) => create(alloc, image, moment, work, table),
        Edit::Enable {
            name,
            valid,
            history,
        } => {
            let enabled = enable(alloc, image, moment, work, &name, valid, history);
            drop(name);
            Ok(enabled?)
        }
        Edit::Append { space, entries } => append(alloc, image, moment, work, space, entries),
        Edit::Save { space, name } => save(alloc, image, moment, work, space, name),
        Edit::Bear { parent, at, name } => bear(alloc, image, moment, work, parent, at, name),
        Edit::Restore { space, making } => restore(alloc, image, moment, work, space, making),
        Edit::Remove { space } => Ok(remove(alloc, image, moment, work, space)?),
        Edit::Keep { space } => keep(alloc, image, moment, work, space),
        Edit::Replay { space, entries } => replay(alloc, image, moment, work, space, entries),
        Edit::Gain { space, entries } => gain(alloc, image, moment, work, space, entries),
        Edit::Rebase { space, emptied } => rebase(alloc, image, moment, work, space, emptied),
        Edit::Settle { space, marks } => settle(alloc, image, moment, work, space, marks),
        Edit::Lock {
            space,
            mode,
            user,
            cells,
        } => {
            let locks = NewLocks {
                space,
                mode,
                user,
                cells,
            };
            lock(alloc, image, moment, work, locks)
        }
        Edit::Unlock { makings } => Ok(unlock(alloc, image, moment, work, makings)?),
        Edit::Freeze {
            space,
            mode,
            writer,
        } => Ok(freeze(alloc, image, moment, work, space, mode, writer)?),
    }
}

/// The image goes on to what changes make of it.
fn go_on(alloc: Global, image: &mut Image, changes: &Changes) -> Result<(), Memory>
    ensures { OnOk result (image.new ≡ applied changes.now image.old) }
{
    let copies = change_copies(alloc, changes)?;
    image.apply(alloc, Batch { changes: copies })?;
    Ok(())
}

/// Drafts one edit more: the image goes on to what the changes of the last edit make of it, they come behind those in
/// front, and the edit is the last. It adds work of 1, and of 1 for each lock that it makes.
fn draft_next(
    alloc: Global,
    image: &mut Image,
    moment: u64,
    front: &mut Changes,
    last: &mut Changes,
    edit: Edit,
) -> Result<(), DraftFault>
    requires rules { keep_rules (parts_of (applied last.old image.old)) ≡ true }
    requires work { CanWork (parts_of (applied last.old image.old)) moment (1 + locks_by edit) }
    requires can { CanEdit (parts_of (applied last.old image.old)) moment edit }
    ensures image { OnOk result (image.new ≡ applied last.old image.old) }
    ensures front { OnOk result (front.new ≡ followed_by front.old last.old) }
    ensures drafts { OnOk result (DraftsBy (1 + locks_by edit) image.new moment (edit ∷ []) last.new) }
    ensures costs { OnOk result (Costs image.new edit (applied last.new image.new)) }
    ensures full { IfErr result (λ fault. fault ≡ DraftFault.Ids → HasGreatId image.new) }
{
    if let Err(fault) = go_on(alloc, image, last) {
        drop(edit);
        return Err(fault.into());
    }
    let work = 1 + locks_by(&edit);
    let newest = draft_one(alloc, image, moment, work, edit)?;
    let later = replace(last, newest);
    let earlier = replace(front, Changes::new(alloc));
    let both = followed_by(alloc, earlier, later)?;
    *front = both;
    Ok(())
}

/// What the edits of a line at a moment make of the records: the changes of the last edit, and in front of them those
/// of all others. These are applied to the image, so that each edit is drafted of what the ones before it left. Each
/// adds work, since the numbers of versions and the makings of savepoints and of locks are held to it: each but the first
/// 1, and 1 for each lock that it makes, and the first the rest of the line's work.
fn draft_each(
    alloc: Global,
    image: &mut Image,
    moment: u64,
    front: &mut Changes,
    last: &mut Changes,
    edits: Vec<Edit>,
) -> Result<(), DraftFault>
    requires sorted { Ascend image.old }
    requires rules { keep_rules (parts_of image.old) ≡ true }
    requires can { CanDraft image.old moment edits.items }
    requires front { front.old ≡ [] }
    requires last { last.old ≡ [] }
    ensures drafts { OnOk result (Drafts image.old moment edits.items (followed_by front.new last.new)) }
    ensures spends { OnOk result (Spends moment image.old edits.items (applied (followed_by front.new last.new) image.old)) }
    ensures rest { OnOk result (applied (followed_by front.new last.new) image.new ≡ applied (followed_by front.new last.new) image.old) }
    ensures one { length edits.items ≤ 1 → OnOk result (image.new ≡ image.old) }
    ensures full { IfErr result (λ fault. fault ≡ DraftFault.Ids → HasGreatId image.new) }
{
    let mut edits = edits.into_iter();
    let Some(first) = edits.next() else {
        return Ok(());
    };
    let locks = locks_by(&first);
    let work = LINE_WORK - edits.len() as u64 + locks;
    let drafted = draft_one(alloc, image, moment, work, first)?;
    *last = drafted;
    for edit in edits {
        draft_next(alloc, image, moment, front, last, edit)?;
    }
    Ok(())
}

/// What the edits of a line at a moment make of the records: of each state that they stand for, what the edits make of it
/// in their order. Where there are several the image goes on to what all but the last one leave; then it is good for one
/// thing, which is to apply the batch, and that makes of it what it makes of the records as they were. Where memory runs
/// out, or ids do, the image is not to be used any more; ids do so only where a record of the image has an id of
/// 2 ^ 63 - 1 or more.
pub fn draft(
    alloc: Global,
    image: &mut Image,
    moment: u64,
    edits: Vec<Edit>,
) -> Result<Batch, DraftFault>
    requires rules { keep_rules (parts_of image.old) ≡ true }
    requires can { CanDraft image.old moment edits.items }
    ensures drafts { IfOk result (λ batch. Drafts image.old moment edits.items batch.changes) }
    // Each edit of a merge or a refresh costs no more than it may.
    ensures spends { IfOk result (λ batch. Spends moment image.old edits.items (applied batch.changes image.old)) }
    ensures rest { IfOk result (λ batch. applied batch.changes image.new ≡ applied batch.changes image.old) }
    ensures one { length edits.items ≤ 1 → OnOk result (image.new ≡ image.old) }
    ensures full { IfErr result (λ fault. fault ≡ DraftFault.Ids → HasGreatId image.new) }
{
    image.law_of_order();
    let mut front = Changes::new(alloc);
    let mut last = Changes::new(alloc);
    if let Err(fault) = draft_each(alloc, image, moment, &mut front, &mut last, edits) {
        drop(front);
        drop(last);
        return Err(fault);
    }
    let changes = followed_by(alloc, front, last)?;
    Ok(Batch { changes })
}
