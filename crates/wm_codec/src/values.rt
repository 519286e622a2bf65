//! Reading fields that are no numbers.
ghost use Rattle.wm_codec.specs.Fields.{cell_range, column_kind, flag, freeze_mode, key, key_columns, kind, lock_mode, text_at, value_at, value_of_type};
ghost use Rattle.wm_codec.specs.Reading.{Gives};

use crate::fault::ReadFault;
use crate::numbers::{i64_at, u8_at, u16_at, u64_at};
use std::alloc::Global;
use wm_base::{Instant, Key, Kind, Text, Value};
use wm_spec::record::{CellRange, ColumnKind, FreezeMode, KeyColumns, LockMode};

pub fn flag_at(bytes: &[u8]) -> Result<(bool, &[u8]), ReadFault>
    ensures { Gives (λ x. (x.0, x.1.now)) result (flag.read bytes.now) }
{
    let (byte, rest) = u8_at(bytes)?;
    match byte {
        0 => Ok((false, rest)),
        1 => Ok((true, rest)),
        _ => Err(ReadFault::NoRecord),
    }
}

pub fn kind_at(bytes: &[u8]) -> Result<(Kind, &[u8]), ReadFault>
    ensures { Gives (λ x. (x.0, x.1.now)) result (kind.read bytes.now) }
{
    let (byte, rest) = u8_at(bytes)?;
    match byte {
        1 => Ok((Kind::Insert, rest)),
        2 => Ok((Kind::Update, rest)),
        3 => Ok((Kind::Delete, rest)),
        _ => Err(ReadFault::NoRecord),
    }
}

pub fn column_kind_at(bytes: &[u8]) -> Result<(ColumnKind, &[u8]), ReadFault>
    ensures { Gives (λ x. (x.0, x.1.now)) result (column_kind.read bytes.now) }
{
    let (byte, rest) = u8_at(bytes)?;
    match byte {
        1 => Ok((ColumnKind::Number, rest)),
        2 => Ok((ColumnKind::Text, rest)),
        3 => Ok((ColumnKind::Time, rest)),
        _ => Err(ReadFault::NoRecord),
    }
}

pub fn freeze_mode_at(bytes: &[u8]) -> Result<(FreezeMode, &[u8]), ReadFault>
    ensures { Gives (λ x. (x.0, x.1.now)) result (freeze_mode.read bytes.now) }
{
    let (byte, rest) = u8_at(bytes)?;
    match byte {
        0 => Ok((FreezeMode::Free, rest)),
        1 => Ok((FreezeMode::NoAccess, rest)),
        2 => Ok((FreezeMode::ReadOnly, rest)),
        3 => Ok((FreezeMode::OneWriter, rest)),
        4 => Ok((FreezeMode::WmOnly, rest)),
        _ => Err(ReadFault::NoRecord),
    }
}

pub fn lock_mode_at(bytes: &[u8]) -> Result<(LockMode, &[u8]), ReadFault>
    ensures { Gives (λ x. (x.0, x.1.now)) result (lock_mode.read bytes.now) }
{
    let (byte, rest) = u8_at(bytes)?;
    match byte {
        1 => Ok((LockMode::Exclusive, rest)),
        2 => Ok((LockMode::Shared, rest)),
        3 => Ok((LockMode::WorkspaceExclusive, rest)),
        4 => Ok((LockMode::VersionExclusive, rest)),
        _ => Err(ReadFault::NoRecord),
    }
}

/// A text: two bytes of length, and that many bytes.
#[tactic(auto, unfolding(crate::specs::Fields::text_at))]
pub fn text_of(alloc: Global, bytes: &[u8]) -> Result<(Text, &[u8]), ReadFault>
    ensures { Gives (λ x. (x.0, x.1.now)) result (text_at bytes.now) }
{
    let (len, rest) = u16_at(bytes)?;
    let Some((text, rest)) = rest.split_at_checked(usize::from(len)) else {
        return Err(ReadFault::NoRecord);
    };
    Ok((Text::copy_of(alloc, text)?, rest))
}

/// A text among values, which is not empty.
#[tactic(auto, unfolding(crate::specs::Fields::value_of_type))]
fn text_value_of(alloc: Global, bytes: &[u8]) -> Result<(Value, &[u8]), ReadFault>
    ensures { Gives (λ x. (x.0, x.1.now)) result (value_of_type 2 bytes.now) }
{
    let (text, rest) = text_of(alloc, bytes)?;
    if text.len() == 0 {
        return Err(ReadFault::NoRecord);
    }
    Ok((Value::Text(text), rest))
}

/// An instant, at most `END`.
#[tactic(auto, unfolding(crate::specs::Fields::value_of_type))]
fn time_value_at(bytes: &[u8]) -> Result<(Value, &[u8]), ReadFault>
    ensures { Gives (λ x. (x.0, x.1.now)) result (value_of_type 3 bytes.now) }
{
    let (seconds, rest) = u64_at(bytes)?;
    match Instant::new(seconds) {
        Some(instant) => Ok((Value::Time(instant), rest)),
        None => Err(ReadFault::NoRecord),
    }
}

/// A value: a byte for its type, and what the type has.
#[tactic(auto, unfolding(crate::specs::Fields::value_at, crate::specs::Fields::value_of_type))]
pub fn value_of(alloc: Global, bytes: &[u8]) -> Result<(Value, &[u8]), ReadFault>
    ensures { Gives (λ x. (x.0, x.1.now)) result (value_at bytes.now) }
{
    let (tag, rest) = u8_at(bytes)?;
    match tag {
        0 => Ok((Value::Null, rest)),
        1 => {
            let (number, rest) = i64_at(rest)?;
            Ok((Value::Num(number), rest))
        }
        2 => text_value_of(alloc, rest),
        3 => time_value_at(rest),
        _ => Err(ReadFault::NoRecord),
    }
}

/// A key of one value.
pub fn key_of(alloc: Global, bytes: &[u8]) -> Result<(Key, &[u8]), ReadFault>
    ensures { Gives (λ x. (x.0, x.1.now)) result (key.read bytes.now) }
{
    let (value, rest) = value_of(alloc, bytes)?;
    Ok((Key::single(value), rest))
}

pub fn cell_range_of(alloc: Global, bytes: &[u8]) -> Result<(CellRange, &[u8]), ReadFault>
    ensures { Gives (λ x. (x.0, x.1.now)) result (cell_range.read bytes.now) }
{
    let (table, rest) = u16_at(bytes)?;
    let (key, rest) = key_of(alloc, rest)?;
    let (from, rest) = u64_at(rest)?;
    let (till, rest) = u64_at(rest)?;
    Ok((
        CellRange {
            table,
            key,
            from,
            till,
        },
        rest,
    ))
}

/// Whether there is a key column, and its place, which is 0 where there is none.
pub fn key_columns_of(alloc: Global, bytes: &[u8]) -> Result<(KeyColumns, &[u8]), ReadFault>
    ensures { Gives (λ x. (x.0, x.1.now)) result (key_columns.read bytes.now) }
{
    let (has_key, rest) = flag_at(bytes)?;
    let (place, rest) = u8_at(rest)?;
    let mut places = KeyColumns::new(alloc);
    if has_key {
        places.push(place)?;
    } else if place > 0 {
        return Err(ReadFault::NoRecord);
    }
    Ok((places, rest))
}
