//! The changes of records that such edits make.
ghost use Rattle.std.specs.Prelude.{◌≡◌, ◌+◌, ◌<◌, ◌^◌, ◌∷◌, [], ◌++◌, IfOk};
ghost use Rattle.wm_spec.specs.declared.record.Record.TheVariants as records;
ghost use Rattle.wm_state.specs.Batches.{put, create_batch, ready, savepoint_batch};

use std::alloc::Global;
use wm_base::Memory;
use wm_changes::changes::put;
use wm_index::copies::table_copy;
use wm_spec::record::{Boxed, Changes, Counters, Record, Savepoint, Space, Table, Turn, Version};

/// What becomes of the counters and of a table.
pub fn table_changes(
    alloc: Global,
    counters_id: u64,
    counters: Counters,
    id: u64,
    table: Table,
) -> Result<Changes, Memory>
    ensures { IfOk result (λ changes. changes ≡ create_batch counters_id counters id table) }
{
    let mut changes = Changes::new(alloc);
    changes.push(put(counters_id, Record::Counters(counters)))?;
    changes.push(put(id, Record::Table(Boxed::new(alloc, table)?)))?;
    Ok(changes)
}

/// What is put first where the record of a workspace changes.
pub fn space_changes(
    alloc: Global,
    counters_id: u64,
    counters: Counters,
    space_id: u64,
    space: Space,
) -> Result<Changes, Memory>
    ensures { IfOk result (λ changes. changes ≡ put counters_id (records.Counters counters) ∷ put space_id (records.Space space) ∷ []) }
{
    let mut changes = Changes::new(alloc);
    changes.push(put(counters_id, Record::Counters(counters)))?;
    changes.push(put(space_id, Record::Space(Boxed::new(alloc, space)?)))?;
    Ok(changes)
}

/// What is put for a savepoint of a workspace.
pub fn savepoint_changes(
    alloc: Global,
    counters_id: u64,
    counters: Counters,
    space_id: u64,
    space: Space,
    id: u64,
    savepoint: Savepoint,
) -> Result<Changes, Memory>
    ensures { IfOk result (λ changes. changes ≡ savepoint_batch counters_id counters space_id space id savepoint) }
{
    let mut changes = space_changes(alloc, counters_id, counters, space_id, space)?;
    changes.push(put(id, Record::Savepoint(Boxed::new(alloc, savepoint)?)))?;
    Ok(changes)
}

/// What is put for a workspace that is born at a savepoint, beside what is put for that.
pub fn birth_changes(
    alloc: Global,
    saved: Changes,
    id: u64,
    child: Space,
    version: Version,
    turn: Turn,
) -> Result<Changes, Memory>
    requires { id + 3 < 2 ^ 64 }
    ensures { IfOk result (λ changes. changes ≡ saved ++ put (id + 1) (records.Space child) ∷ put (id + 2) (records.Version version) ∷ put (id + 3) (records.Turn turn) ∷ []) }
{
    let mut changes = saved;
    changes.push(put(id + 1, Record::Space(Boxed::new(alloc, child)?)))?;
    changes.push(put(id + 2, Record::Version(version)))?;
    changes.push(put(id + 3, Record::Turn(turn)))?;
    Ok(changes)
}

/// The table, ready for rows with or without valid time, and with or without its history.
pub fn readied(alloc: Global, valid: bool, history: bool, table: &Table) -> Result<Table, Memory>
    ensures { IfOk result (λ new. new ≡ ready (record { valid = valid; history = history }) table.now) }
{
    let mut new = table_copy(alloc, table)?;
    new.versioned = true;
    new.valid = valid;
    new.history = history;
    Ok(new)
}
