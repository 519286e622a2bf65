//! Changes of records one by one, and workspaces that change.
ghost use Rattle.std.specs.Prelude.{◌≡◌, ◌+◌, ◌<◌, ◌^◌, ◌++◌, length, map, IfOk, OnOk};
ghost use Rattle.wm_state.specs.Batches.{put, drop_one};
ghost use Rattle.wm_state.specs.Effects.{marked};
ghost use Rattle.wm_state.specs.Writes.{longer_by, put_all};

use crate::copies::space_copy;
use std::alloc::Global;
use wm_base::Memory;
use wm_spec::record::{Change, Changes, Record, Space};

/// A record takes the place of the one of its id, or is new.
pub fn put(id: u64, new: Record) -> Change
    ensures { result ≡ put id new }
{
    Change {
        id,
        becomes: Some(new),
    }
}

/// Drops the records of these ids.
pub fn drop_all(changes: &mut Changes, ids: &[u64]) -> Result<(), Memory>
    ensures { OnOk result (changes.new ≡ changes.old ++ map drop_one ids.now) }
{
    for id in ids {
        changes.push(Change {
            id: *id,
            becomes: None,
        })?;
    }
    Ok(())
}

/// Puts new records, whose ids follow one another from this one on.
pub fn put_all(changes: &mut Changes, id: u64, records: Vec<Record>) -> Result<(), Memory>
    requires { id + length records.items < 2 ^ 64 }
    ensures { OnOk result (changes.new ≡ changes.old ++ put_all id records.items) }
{
    let mut id = id;
    for record in records {
        changes.push(put(id, record))?;
        id += 1;
    }
    Ok(())
}

/// The workspace with a log that is longer by so many.
pub fn longer_by(alloc: Global, count: u64, space: &Space) -> Result<Space, Memory>
    requires { space.now.log_length + count < 2 ^ 64 }
    ensures { IfOk result (λ new. new ≡ longer_by count space.now) }
{
    let mut new = space_copy(alloc, space)?;
    new.log_length += count;
    Ok(new)
}

/// The workspace, the next place and the next number of an implicit savepoint being these.
pub fn marked(alloc: Global, place: u32, implicit: u32, space: &Space) -> Result<Space, Memory>
    ensures { IfOk result (λ new. new ≡ marked place implicit space.now) }
{
    let mut new = space_copy(alloc, space)?;
    new.next_place = place;
    new.next_implicit = implicit;
    Ok(new)
}
