//! Reading a record.
ghost use Rattle.std.specs.Prelude.{◌≡◌, ◌↔◌, ◌==◌, if◌then◌else◌, ℕ, List, length, IfOk, Ok, Option, None, Some};
ghost use Rattle.std.specs.Option.{option_and_then};
ghost use Rattle.wm_codec.specs.Reading.{Gives, record_of, record_of_kind};
ghost use Rattle.wm_codec.specs.Spelling.{HasSpelling, spelling};
ghost use Rattle.wm_spec.specs.declared.record.Record.{Record};

use crate::fault::ReadFault;
use crate::numbers::u8_at;
use crate::records::{
    counters_at, hist_of, lock_of, piece_of, row_of, savepoint_of, space_of, table_of, trace_of,
    turn_at, version_at,
};
use std::alloc::Global;
use wm_base::Memory;
use wm_spec::record::{Boxed, Record};

/// What was read, where nothing is behind it, for the record that is made of it.
fn only<T: Drop>(read: Result<(T, &[u8]), ReadFault>) -> Result<T, ReadFault>
    ensures { (make : T → Record) (found : Option (T × List ℕ)) → Gives (λ x. (x.0, x.1.now)) read.entry found
        → Gives make result (option_and_then (λ x. if length x.1 == 0 then Some (make x.0) else None) found) }
{
    let (value, rest) = read?;
    if rest.is_empty() {
        Ok(value)
    } else {
        Err(ReadFault::NoRecord)
    }
}

/// What was read, where nothing is behind it, in memory of its own, for the record that is made of it.
fn apart<T: Drop>(alloc: Global, read: Result<(T, &[u8]), ReadFault>) -> Result<Boxed<T>, ReadFault>
    ensures { (make : T → Record) (found : Option (T × List ℕ)) → Gives (λ x. (x.0, x.1.now)) read.entry found
        → Gives make result (option_and_then (λ x. if length x.1 == 0 then Some (make x.0) else None) found) }
{
    let boxed = Boxed::new(alloc, only(read)?)?;
    Ok(boxed)
}

/// The record of a kind, by its fields.
#[tactic(auto, unfolding(crate::specs::Reading::record_of_kind))]
fn record_of_fields(alloc: Global, tag: u8, bytes: &[u8]) -> Result<Record, ReadFault>
    ensures { Gives (λ x. x) result (record_of_kind tag bytes.now) }
{
    match tag {
        1 => only(counters_at(bytes)).map(Record::Counters),
        2 => apart(alloc, table_of(alloc, bytes)).map(Record::Table),
        3 => apart(alloc, space_of(alloc, bytes)).map(Record::Space),
        4 => only(version_at(bytes)).map(Record::Version),
        5 => apart(alloc, savepoint_of(alloc, bytes)).map(Record::Savepoint),
        6 => only(row_of(alloc, bytes)).map(Record::Row),
        7 => only(piece_of(alloc, bytes)).map(Record::Piece),
        8 => only(trace_of(alloc, bytes)).map(Record::Touch),
        9 => apart(alloc, lock_of(alloc, bytes)).map(Record::Lock),
        10 => apart(alloc, hist_of(alloc, bytes)).map(Record::Hist),
        11 => only(trace_of(alloc, bytes)).map(Record::Mark),
        12 => only(turn_at(bytes)).map(Record::Turn),
        _ => Err(ReadFault::NoRecord),
    }
}

/// The record, as it is read from left to right.
#[tactic(auto, unfolding(crate::specs::Reading::record_of))]
fn record_in(alloc: Global, bytes: &[u8]) -> Result<Record, ReadFault>
    ensures { Gives (λ x. x) result (record_of bytes.now) }
{
    let (tag, rest) = u8_at(bytes)?;
    record_of_fields(alloc, tag, rest)
}

/// The record that the bytes spell, or None exactly where they spell none.
pub fn decode(alloc: Global, bytes: &[u8]) -> Result<Option<Record>, Memory>
    ensures { IfOk result (λ found. (it : Record)
        → (found ≡ Some it) ↔ (HasSpelling it × (bytes.now ≡ spelling it))) }
{
    match record_in(alloc, bytes) {
        Ok(record) => Ok(Some(record)),
        Err(ReadFault::NoRecord) => Ok(None),
        Err(ReadFault::Memory) => Err(Memory),
    }
}
