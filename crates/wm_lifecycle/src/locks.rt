//! Locks come into a workspace, and go.
ghost use Rattle.std.specs.Prelude.{◌≡◌, ◌≤◌, ◌+◌, ◌<◌, ◌^◌, ◌∷◌, [], ◌||◌, ◌==◌, ℕ, length, map, true, IfOk, IfErr, OnOk};
ghost use Rattle.std.specs.List.{list_any};
ghost use Rattle.wm_changes.specs.Ids.{HasGreatId};
ghost use Rattle.wm_graph.specs.Parts.{parts_of};
ghost use Rattle.wm_graph.specs.Rules.{keep_rules};
ghost use Rattle.wm_index.specs.Sought.{LockAt, ids_with, is_sought};
ghost use Rattle.wm_prices.specs.Prices.{Costs};
ghost use Rattle.wm_spec.specs.Records.{ids_differ};
ghost use Rattle.wm_spec.specs.declared.record.Record.TheVariants as records;
ghost use Rattle.wm_state.specs.Batches.{is_dropped};
ghost use Rattle.wm_state.specs.ById.{applied};
ghost use Rattle.wm_state.specs.Drafts.{CanLock, CanWork, DraftsBy};
ghost use Rattle.wm_state.specs.Editing.{lock_made, locks_made};
ghost use Rattle.wm_state.specs.declared.edit.Edit.TheVariants as edits;

use std::alloc::Global;
use std::collections::BTreeSet;
use wm_base::{Memory, Name};
use wm_changes::DraftFault;
use wm_changes::changes::{drop_all, put, put_all};
use wm_changes::counts::{ids_from, moved};
use wm_image::Image;
use wm_spec::record::{Boxed, CellRange, Changes, Lock, LockMode, Record};
use wm_state::edit::{Cells, Makings, NewLock};

/// Locks that a user sets in a workspace, one for each of the cells.
#[derive(Drop)]
pub struct NewLocks {
    pub space: u32,
    pub mode: LockMode,
    pub user: Name,
    pub cells: Cells,
}

/// The lock on cells that a user sets at a place of a workspace.
fn lock_made(
    alloc: Global,
    space: u32,
    place: u32,
    mode: LockMode,
    user: &Name,
    making: u64,
    cells: NewLock,
) -> Result<Lock, Memory>
    ensures { IfOk result (λ lock. lock ≡ lock_made space place mode user.now making cells) }
{
    let user = user.copy(alloc)?;
    let cells = CellRange {
        table: cells.table,
        key: cells.key,
        from: cells.period.from().seconds(),
        till: cells.period.till().seconds(),
    };
    Ok(Lock {
        space,
        place,
        cells,
        mode,
        user,
        making,
    })
}

/// The records of locks that are set at a place. Their makings follow one another from this one on.
fn locks_made(
    alloc: Global,
    place: u32,
    making: u64,
    locks: NewLocks,
) -> Result<Vec<Record>, Memory>
    requires { making + length locks.cells < 2 ^ 64 }
    ensures { IfOk result (λ news. news.items ≡ map records.Lock (locks_made locks.space place locks.mode locks.user making locks.cells)) }
{
    let NewLocks {
        space,
        mode,
        user,
        cells,
    } = locks;
    let mut making = making;
    let mut news = Vec::new(alloc);
    for one in cells.into_vec() {
        let lock = lock_made(alloc, space, place, mode, &user, making, one)?;
        news.push(Record::Lock(Boxed::new(alloc, lock)?))?;
        making += 1;
    }
    Ok(news)
}

/// A user sets locks in a workspace. There is as much work as there are locks.
pub fn lock(
    alloc: Global,
    image: &Image,
    moment: u64,
    work: u64,
    locks: NewLocks,
) -> Result<Changes, DraftFault>
    requires rules { keep_rules (parts_of image.now) ≡ true }
    requires work { CanWork (parts_of image.now) moment work }
    requires room { length locks.cells ≤ work }
    requires can { CanLock (parts_of image.now) locks.space locks.user locks.cells }
    ensures drafts { IfOk result (DraftsBy work image.now moment (edits.Lock locks.space locks.mode locks.user locks.cells ∷ [])) }
    ensures full { IfErr result (λ fault. fault ≡ DraftFault.Ids → HasGreatId image.now) }
{
    let id = ids_from(image, locks.cells.len() as u64)?;
    let found = image.space(locks.space).unwrap();
    let place = found.next_place - 1;
    let counters_id = image.id_of_counters();
    let counters = moved(image.counters(), moment, work);
    let making = image.lock_making();
    let news = locks_made(alloc, place, making, locks)?;
    let mut changes = Changes::new(alloc);
    changes.push(put(counters_id, Record::Counters(counters)))?;
    put_all(&mut changes, id, news)?;
    Ok(changes)
}

/// Puts an id in a set.
fn put_one(set: &mut BTreeSet<u64>, id: u64) -> Result<(), Memory>
    ensures { OnOk result ((k : ℕ) → is_dropped set.new.keys k ≡ (is_dropped set.old.keys k || (id == k))) }
{
    set.insert(id)?;
    Ok(())
}

/// Puts ids in a set.
fn put_in(set: &mut BTreeSet<u64>, ids: &[u64]) -> Result<(), Memory>
    ensures { OnOk result ((id : ℕ) → is_dropped set.new.keys id ≡ (is_dropped set.old.keys id || is_dropped ids.now id)) }
{
    for id in ids {
        put_one(set, *id)?;
    }
    Ok(())
}

/// The ids of the locks of some makings.
fn ids_made_as(alloc: Global, image: &Image, makings: &[u64]) -> Result<BTreeSet<u64>, Memory>
    ensures { IfOk result (λ ids. (id : ℕ) → is_dropped ids.keys id ≡ list_any (λ making. is_dropped (ids_with (is_sought (LockAt making)) image.now) id) makings.now) }
{
    let mut ids = BTreeSet::new(alloc);
    for making in makings {
        put_in(&mut ids, image.locks_made_as(*making))?;
    }
    Ok(ids)
}

/// The ids of a set, in order.
fn in_order(alloc: Global, set: &BTreeSet<u64>) -> Result<Vec<u64>, Memory>
    ensures ids { IfOk result (λ ids. ids.items ≡ set.now.keys) }
    ensures differ { OnOk result (ids_differ set.now.keys ≡ true) }
{
    let mut ids = Vec::new(alloc);
    for id in set {
        ids.push(*id)?;
    }
    Ok(ids)
}

/// The locks of some makings go.
pub fn unlock(
    alloc: Global,
    image: &Image,
    moment: u64,
    work: u64,
    makings: Makings,
) -> Result<Changes, Memory>
    requires rules { keep_rules (parts_of image.now) ≡ true }
    requires work { CanWork (parts_of image.now) moment work }
    ensures drafts { IfOk result (DraftsBy work image.now moment (edits.Unlock makings ∷ [])) }
    ensures costs { IfOk result (λ changes. Costs image.now (edits.Unlock makings) (applied changes image.now)) }
{
    let counters_id = image.id_of_counters();
    let counters = moved(image.counters(), moment, work);
    let set = ids_made_as(alloc, image, makings.as_slice())?;
    let dropped = in_order(alloc, &set)?;
    let mut changes = Changes::new(alloc);
    changes.push(put(counters_id, Record::Counters(counters)))?;
    let pushed = drop_all(&mut changes, dropped.as_slice());
    drop(dropped);
    pushed?;
    Ok(changes)
}
