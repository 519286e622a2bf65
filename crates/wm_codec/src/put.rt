//! Writing fields.
ghost use Rattle.std.specs.Prelude.{[], ◌<◌, ◌^◌, length, OnOk};
ghost use Rattle.wm_codec.specs.Fields.{u16, u32, u64, i64, flag, kind, column_kind, freeze_mode, lock_mode, text, value, key, cell_range, key_columns, CanSpellValue, CanSpellKey, CanSpellKeyColumns};
ghost use Rattle.wm_codec.specs.Writing.{Appends};

use byteorder::{BigEndian, ByteOrder};
use wm_base::{Bytes, Key, Kind, Memory, Text, Value};
use wm_spec::record::{CellRange, ColumnKind, FreezeMode, KeyColumns, LockMode};

pub fn put_u16(into: &mut Bytes, number: u16) -> Result<(), Memory>
    ensures { OnOk result (Appends u16 into.old into.new number) }
{
    let mut bytes = [0; 2];
    BigEndian::write_u16(&mut bytes, number);
    into.append(&bytes)
}

pub fn put_u32(into: &mut Bytes, number: u32) -> Result<(), Memory>
    ensures { OnOk result (Appends u32 into.old into.new number) }
{
    let mut bytes = [0; 4];
    BigEndian::write_u32(&mut bytes, number);
    into.append(&bytes)
}

pub fn put_u64(into: &mut Bytes, number: u64) -> Result<(), Memory>
    ensures { OnOk result (Appends u64 into.old into.new number) }
{
    let mut bytes = [0; 8];
    BigEndian::write_u64(&mut bytes, number);
    into.append(&bytes)
}

/// A number in two's complement.
pub fn put_i64(into: &mut Bytes, number: i64) -> Result<(), Memory>
    ensures { OnOk result (Appends i64 into.old into.new number) }
{
    put_u64(into, number.cast_unsigned())
}

pub fn put_flag(into: &mut Bytes, set: bool) -> Result<(), Memory>
    ensures { OnOk result (Appends flag into.old into.new set) }
{
    into.push(u8::from(set))
}

pub fn put_kind(into: &mut Bytes, of: Kind) -> Result<(), Memory>
    ensures { OnOk result (Appends kind into.old into.new of) }
{
    into.push(match of {
        Kind::Insert => 1,
        Kind::Update => 2,
        Kind::Delete => 3,
    })
}

pub fn put_column_kind(into: &mut Bytes, of: ColumnKind) -> Result<(), Memory>
    ensures { OnOk result (Appends column_kind into.old into.new of) }
{
    into.push(match of {
        ColumnKind::Number => 1,
        ColumnKind::Text => 2,
        ColumnKind::Time => 3,
    })
}

pub fn put_freeze_mode(into: &mut Bytes, mode: FreezeMode) -> Result<(), Memory>
    ensures { OnOk result (Appends freeze_mode into.old into.new mode) }
{
    into.push(match mode {
        FreezeMode::Free => 0,
        FreezeMode::NoAccess => 1,
        FreezeMode::ReadOnly => 2,
        FreezeMode::OneWriter => 3,
        FreezeMode::WmOnly => 4,
    })
}

pub fn put_lock_mode(into: &mut Bytes, mode: LockMode) -> Result<(), Memory>
    ensures { OnOk result (Appends lock_mode into.old into.new mode) }
{
    into.push(match mode {
        LockMode::Exclusive => 1,
        LockMode::Shared => 2,
        LockMode::WorkspaceExclusive => 3,
        LockMode::VersionExclusive => 4,
    })
}

/// A text: two bytes of length, and its bytes.
pub fn put_text(into: &mut Bytes, of: &Text) -> Result<(), Memory>
    requires { length of.now < 2 ^ 16 }
    ensures { OnOk result (Appends text into.old into.new of.now) }
{
    put_u16(into, of.len() as u16)?;
    into.append(of.as_bytes())
}

/// A number among values.
#[tactic(auto, unfolding(crate::specs::Fields::spell_value, crate::specs::Fields::FitsValue))]
fn put_number(into: &mut Bytes, number: i64) -> Result<(), Memory>
    ensures { OnOk result (Appends value into.old into.new (Value.Num number)) }
{
    into.push(1)?;
    put_i64(into, number)?;
    Ok(())
}

/// A value: a byte for its type, and what the type has.
#[tactic(auto, unfolding(crate::specs::Fields::spell_value, crate::specs::Fields::FitsValue))]
pub fn put_value(into: &mut Bytes, of: &Value) -> Result<(), Memory>
    requires { CanSpellValue of.now }
    ensures { OnOk result (Appends value into.old into.new of.now) }
{
    match of {
        Value::Null => into.push(0),
        Value::Num(number) => put_number(into, *number),
        Value::Text(text) => {
            into.push(2)?;
            put_text(into, text)
        }
        Value::Time(instant) => {
            into.push(3)?;
            put_u64(into, instant.seconds())
        }
        Value::Span(_) => unreachable!(),
    }
}

/// A key of one value is written as its value.
#[tactic(auto, unfolding(crate::specs::Fields::spell_key, crate::specs::Fields::FitsKey))]
fn put_key(into: &mut Bytes, of: &Key) -> Result<(), Memory>
    requires { CanSpellKey of.now }
    ensures { OnOk result (Appends key into.old into.new of.now) }
{
    match of.values() {
        [value] => put_value(into, value),
        _ => unreachable!(),
    }
}

/// A range of cells, whose key has one value.
pub fn put_cell_range(into: &mut Bytes, of: &CellRange) -> Result<(), Memory>
    requires { CanSpellKey of.now.key }
    ensures { OnOk result (Appends cell_range into.old into.new of.now) }
{
    put_u16(into, of.table)?;
    put_key(into, &of.key)?;
    put_u64(into, of.from)?;
    put_u64(into, of.till)?;
    Ok(())
}

/// Whether there is a key column, and its place, which is 0 where there is none.
pub fn put_key_columns(into: &mut Bytes, of: &KeyColumns) -> Result<(), Memory>
    requires { CanSpellKeyColumns of.now }
    ensures { OnOk result (Appends key_columns into.old into.new of.now) }
{
    match of.as_slice() {
        [] => into.append(&[0, 0]),
        [place] => into.append(&[1, *place]),
        _ => unreachable!(),
    }
}
