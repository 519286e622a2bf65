//! Reading the fields of each kind of record.
ghost use Rattle.wm_codec.specs.Format.{◌▸◌};
ghost use Rattle.wm_codec.specs.Fields.{u32, u64, flag, freeze_mode, kind, text};
ghost use Rattle.wm_codec.specs.Spelling.{counters, table, space, version, savepoint, row, piece, trace, lock, hist, turn};
ghost use Rattle.wm_codec.specs.Reading.{Gives};

use crate::fault::ReadFault;
use crate::lists::{columns_of, values_of};
use crate::numbers::{u16_at, u32_at, u64_at};
use crate::values::{
    cell_range_of, flag_at, freeze_mode_at, key_columns_of, kind_at, lock_mode_at, text_of,
};
use std::alloc::Global;
use wm_base::{Kind, Text};
use wm_spec::record::{
    Counters, FreezeMode, Hist, Lock, PieceRecord, RowRecord, Savepoint, Space, Table, Trace, Turn,
    Version,
};

/// What a workspace has behind its base version.
type SpaceTail = (u64, u64, u32, u32, u32, FreezeMode, Text);

pub fn counters_at(bytes: &[u8]) -> Result<(Counters, &[u8]), ReadFault>
    ensures { Gives (λ x. (x.0, x.1.now)) result (counters.read bytes.now) }
{
    let (next_stamp, rest) = u64_at(bytes)?;
    let (last_moment, rest) = u64_at(rest)?;
    let (limit, rest) = u32_at(rest)?;
    let (next_version, rest) = u64_at(rest)?;
    let (work, rest) = u64_at(rest)?;
    Ok((
        Counters {
            next_stamp,
            last_moment,
            limit,
            next_version,
            work,
        },
        rest,
    ))
}

pub fn table_of(alloc: Global, bytes: &[u8]) -> Result<(Table, &[u8]), ReadFault>
    ensures { Gives (λ x. (x.0, x.1.now)) result (table.read bytes.now) }
{
    let (number, rest) = u16_at(bytes)?;
    let (name, rest) = text_of(alloc, rest)?;
    let (versioned, rest) = flag_at(rest)?;
    let (valid, rest) = flag_at(rest)?;
    let (history, rest) = flag_at(rest)?;
    let (key_columns, rest) = key_columns_of(alloc, rest)?;
    let (columns, rest) = columns_of(alloc, rest)?;
    Ok((
        Table {
            number,
            name,
            versioned,
            valid,
            history,
            key_columns,
            columns,
        },
        rest,
    ))
}

/// The fields of a workspace behind its base version. One function for all of its fields is long to prove.
fn space_tail_of(alloc: Global, bytes: &[u8]) -> Result<(SpaceTail, &[u8]), ReadFault>
    ensures { Gives (λ x. ((x.0.0, (x.0.1, (x.0.2, (x.0.3, (x.0.4, (x.0.5, x.0.6)))))), x.1.now)) result ((u64 ▸ u64 ▸ u32 ▸ u32 ▸ u32 ▸ freeze_mode ▸ text).read bytes.now) }
{
    let (from, rest) = u64_at(bytes)?;
    let (log_length, rest) = u64_at(rest)?;
    let (rebases, rest) = u32_at(rest)?;
    let (next_place, rest) = u32_at(rest)?;
    let (next_implicit, rest) = u32_at(rest)?;
    let (freeze, rest) = freeze_mode_at(rest)?;
    let (writer, rest) = text_of(alloc, rest)?;
    let tail = (
        from,
        log_length,
        rebases,
        next_place,
        next_implicit,
        freeze,
        writer,
    );
    Ok((tail, rest))
}

pub fn space_of(alloc: Global, bytes: &[u8]) -> Result<(Space, &[u8]), ReadFault>
    ensures { Gives (λ x. (x.0, x.1.now)) result (space.read bytes.now) }
{
    let (number, rest) = u32_at(bytes)?;
    let (name, rest) = text_of(alloc, rest)?;
    let (parent, rest) = u32_at(rest)?;
    let (born, rest) = u64_at(rest)?;
    let (birth_version, rest) = u64_at(rest)?;
    let (birth_place, rest) = u32_at(rest)?;
    let (base_version, rest) = u64_at(rest)?;
    let (tail, rest) = space_tail_of(alloc, rest)?;
    let (from, log_length, rebases, next_place, next_implicit, freeze, writer) = tail;
    Ok((
        Space {
            number,
            name,
            parent,
            born,
            birth_version,
            birth_place,
            base_version,
            from,
            log_length,
            rebases,
            next_place,
            next_implicit,
            freeze,
            writer,
        },
        rest,
    ))
}

pub fn version_at(bytes: &[u8]) -> Result<(Version, &[u8]), ReadFault>
    ensures { Gives (λ x. (x.0, x.1.now)) result (version.read bytes.now) }
{
    let (number, rest) = u64_at(bytes)?;
    let (space, rest) = u32_at(rest)?;
    let (parent, rest) = u64_at(rest)?;
    Ok((
        Version {
            number,
            space,
            parent,
        },
        rest,
    ))
}

/// The fields of a savepoint from its version on.
fn savepoint_tail_at(bytes: &[u8]) -> Result<((u64, u64, u64, u64, u32), &[u8]), ReadFault>
    ensures { Gives (λ x. ((x.0.0, (x.0.1, (x.0.2, (x.0.3, x.0.4)))), x.1.now)) result ((u64 ▸ u64 ▸ u64 ▸ u64 ▸ u32).read bytes.now) }
{
    let (version, rest) = u64_at(bytes)?;
    let (base_version, rest) = u64_at(rest)?;
    let (from, rest) = u64_at(rest)?;
    let (log_length, rest) = u64_at(rest)?;
    let (rebases, rest) = u32_at(rest)?;
    Ok(((version, base_version, from, log_length, rebases), rest))
}

pub fn savepoint_of(alloc: Global, bytes: &[u8]) -> Result<(Savepoint, &[u8]), ReadFault>
    ensures { Gives (λ x. (x.0, x.1.now)) result (savepoint.read bytes.now) }
{
    let (space, rest) = u32_at(bytes)?;
    let (name, rest) = text_of(alloc, rest)?;
    let (implicit, rest) = flag_at(rest)?;
    let (place, rest) = u32_at(rest)?;
    let (making, rest) = u64_at(rest)?;
    let (moment, rest) = u64_at(rest)?;
    let (tail, rest) = savepoint_tail_at(rest)?;
    let (version, base_version, from, log_length, rebases) = tail;
    Ok((
        Savepoint {
            space,
            name,
            implicit,
            place,
            making,
            moment,
            version,
            base_version,
            from,
            log_length,
            rebases,
        },
        rest,
    ))
}

pub fn row_of(alloc: Global, bytes: &[u8]) -> Result<(RowRecord, &[u8]), ReadFault>
    ensures { Gives (λ x. (x.0, x.1.now)) result (row.read bytes.now) }
{
    let (stamp, rest) = u64_at(bytes)?;
    let (table, rest) = u16_at(rest)?;
    let (values, rest) = values_of(alloc, rest)?;
    Ok((
        RowRecord {
            stamp,
            table,
            values,
        },
        rest,
    ))
}

pub fn piece_of(alloc: Global, bytes: &[u8]) -> Result<(PieceRecord, &[u8]), ReadFault>
    ensures { Gives (λ x. (x.0, x.1.now)) result (piece.read bytes.now) }
{
    let (version, rest) = u64_at(bytes)?;
    let (cells, rest) = cell_range_of(alloc, rest)?;
    let (stamp, rest) = u64_at(rest)?;
    let (kind, rest) = kind_at(rest)?;
    let (gone, rest) = flag_at(rest)?;
    Ok((
        PieceRecord {
            version,
            cells,
            stamp,
            kind,
            gone,
        },
        rest,
    ))
}

/// A touch, or a mark.
pub fn trace_of(alloc: Global, bytes: &[u8]) -> Result<(Trace, &[u8]), ReadFault>
    ensures { Gives (λ x. (x.0, x.1.now)) result (trace.read bytes.now) }
{
    let (space, rest) = u32_at(bytes)?;
    let (place, rest) = u32_at(rest)?;
    let (cells, rest) = cell_range_of(alloc, rest)?;
    let (position, rest) = u64_at(rest)?;
    Ok((
        Trace {
            space,
            place,
            cells,
            position,
        },
        rest,
    ))
}

pub fn lock_of(alloc: Global, bytes: &[u8]) -> Result<(Lock, &[u8]), ReadFault>
    ensures { Gives (λ x. (x.0, x.1.now)) result (lock.read bytes.now) }
{
    let (space, rest) = u32_at(bytes)?;
    let (place, rest) = u32_at(rest)?;
    let (cells, rest) = cell_range_of(alloc, rest)?;
    let (mode, rest) = lock_mode_at(rest)?;
    let (user, rest) = text_of(alloc, rest)?;
    let (making, rest) = u64_at(rest)?;
    Ok((
        Lock {
            space,
            place,
            cells,
            mode,
            user,
            making,
        },
        rest,
    ))
}

/// The fields of an entry of the history behind its stamp.
fn hist_tail_of(alloc: Global, bytes: &[u8]) -> Result<((Kind, bool, u64, Text), &[u8]), ReadFault>
    ensures { Gives (λ x. ((x.0.0, (x.0.1, (x.0.2, x.0.3))), x.1.now)) result ((kind ▸ flag ▸ u64 ▸ text).read bytes.now) }
{
    let (kind, rest) = kind_at(bytes)?;
    let (gone, rest) = flag_at(rest)?;
    let (moment, rest) = u64_at(rest)?;
    let (user, rest) = text_of(alloc, rest)?;
    Ok(((kind, gone, moment, user), rest))
}

pub fn hist_of(alloc: Global, bytes: &[u8]) -> Result<(Hist, &[u8]), ReadFault>
    ensures { Gives (λ x. (x.0, x.1.now)) result (hist.read bytes.now) }
{
    let (space, rest) = u32_at(bytes)?;
    let (position, rest) = u64_at(rest)?;
    let (cells, rest) = cell_range_of(alloc, rest)?;
    let (stamp, rest) = u64_at(rest)?;
    let ((kind, gone, moment, user), rest) = hist_tail_of(alloc, rest)?;
    Ok((
        Hist {
            space,
            position,
            cells,
            stamp,
            kind,
            gone,
            moment,
            user,
        },
        rest,
    ))
}

pub fn turn_at(bytes: &[u8]) -> Result<(Turn, &[u8]), ReadFault>
    ensures { Gives (λ x. (x.0, x.1.now)) result (turn.read bytes.now) }
{
    let (space, rest) = u32_at(bytes)?;
    let (rebase, rest) = u32_at(rest)?;
    let (log_length, rest) = u64_at(rest)?;
    let (rebases, rest) = u32_at(rest)?;
    Ok((
        Turn {
            space,
            rebase,
            log_length,
            rebases,
        },
        rest,
    ))
}
