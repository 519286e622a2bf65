//! Writing a record.
ghost use Rattle.std.specs.Prelude.{◌≡◌, ◌++◌, ◌<◌, slice_index, OnOk, OnErr};
ghost use Rattle.std.specs.List.{AllByRecursion};
ghost use Rattle.wm_codec.specs.Fields.{value, CanSpellValue};
ghost use Rattle.wm_codec.specs.Format.{counted};
ghost use Rattle.wm_codec.specs.Spelling.{counters, column, table, space, version, savepoint, row, piece, trace, lock, hist, turn, CanSpell, HasSpelling, spelling};
ghost use Rattle.wm_codec.specs.Writing.{Appends, AppendsEach, AppendsRecord};

use crate::put::{
    put_cell_range, put_column_kind, put_flag, put_freeze_mode, put_key_columns, put_kind,
    put_lock_mode, put_text, put_u16, put_u32, put_u64, put_value,
};
use std::alloc::Global;
use std::mem::swap;
use wm_base::{Bytes, Memory, Value, Values};
use wm_spec::record::{
    Counters, Hist, Lock, PieceRecord, Record, RowRecord, Savepoint, Space, Table, TableColumn,
    TableColumns, Trace, Turn, Version,
};

fn put_counters(into: &mut Bytes, of: &Counters) -> Result<(), Memory>
    ensures { OnOk result (Appends counters into.old into.new of.now) }
{
    put_u64(into, of.next_stamp)?;
    put_u64(into, of.last_moment)?;
    put_u32(into, of.limit)?;
    put_u64(into, of.next_version)?;
    put_u64(into, of.work)?;
    Ok(())
}

fn put_column(into: &mut Bytes, of: &TableColumn) -> Result<(), Memory>
    requires { column.CanSpell of.now }
    ensures { OnOk result (Appends column into.old into.new of.now) }
{
    put_text(into, &of.name)?;
    put_column_kind(into, of.kind)?;
    put_u16(into, of.size)?;
    put_flag(into, of.not_null)?;
    Ok(())
}

fn put_each_column(into: &mut Bytes, columns: &[TableColumn]) -> Result<(), Memory>
    requires { AllByRecursion column.CanSpell columns.now }
    ensures { OnOk result (AppendsEach column into.old into.new columns.now) }
{
    for column in columns {
        put_column(into, column)?;
    }
    Ok(())
}

fn put_each_value(into: &mut Bytes, values: &[Value]) -> Result<(), Memory>
    requires { AllByRecursion CanSpellValue values.now }
    ensures { OnOk result (AppendsEach value into.old into.new values.now) }
{
    for value in values {
        put_value(into, value)?;
    }
    Ok(())
}

/// A byte that counts the columns, and the columns.
fn put_columns(into: &mut Bytes, columns: &TableColumns) -> Result<(), Memory>
    requires { (counted column).CanSpell columns.now }
    ensures { OnOk result (Appends (counted column) into.old into.new columns.now) }
{
    into.push(columns.len() as u8)?;
    put_each_column(into, columns.as_slice())?;
    Ok(())
}

/// A byte that counts the values, and the values.
fn put_values(into: &mut Bytes, values: &Values) -> Result<(), Memory>
    requires { (counted value).CanSpell values.now }
    ensures { OnOk result (Appends (counted value) into.old into.new values.now) }
{
    into.push(values.len() as u8)?;
    put_each_value(into, values.as_slice())?;
    Ok(())
}

fn put_table(into: &mut Bytes, of: &Table) -> Result<(), Memory>
    requires { table.CanSpell of.now }
    ensures { OnOk result (Appends table into.old into.new of.now) }
{
    put_u16(into, of.number)?;
    put_text(into, &of.name)?;
    put_flag(into, of.versioned)?;
    put_flag(into, of.valid)?;
    put_flag(into, of.history)?;
    put_key_columns(into, &of.key_columns)?;
    put_columns(into, &of.columns)?;
    Ok(())
}

fn put_space(into: &mut Bytes, of: &Space) -> Result<(), Memory>
    requires { space.CanSpell of.now }
    ensures { OnOk result (Appends space into.old into.new of.now) }
{
    put_u32(into, of.number)?;
    put_text(into, &of.name)?;
    put_u32(into, of.parent)?;
    put_u64(into, of.born)?;
    put_u64(into, of.birth_version)?;
    put_u32(into, of.birth_place)?;
    put_u64(into, of.base_version)?;
    put_u64(into, of.from)?;
    put_u64(into, of.log_length)?;
    put_u32(into, of.rebases)?;
    put_u32(into, of.next_place)?;
    put_u32(into, of.next_implicit)?;
    put_freeze_mode(into, of.freeze)?;
    put_text(into, &of.writer)?;
    Ok(())
}

fn put_version(into: &mut Bytes, of: &Version) -> Result<(), Memory>
    ensures { OnOk result (Appends version into.old into.new of.now) }
{
    put_u64(into, of.number)?;
    put_u32(into, of.space)?;
    put_u64(into, of.parent)?;
    Ok(())
}

fn put_savepoint(into: &mut Bytes, of: &Savepoint) -> Result<(), Memory>
    requires { savepoint.CanSpell of.now }
    ensures { OnOk result (Appends savepoint into.old into.new of.now) }
{
    put_u32(into, of.space)?;
    put_text(into, &of.name)?;
    put_flag(into, of.implicit)?;
    put_u32(into, of.place)?;
    put_u64(into, of.making)?;
    put_u64(into, of.moment)?;
    put_u64(into, of.version)?;
    put_u64(into, of.base_version)?;
    put_u64(into, of.from)?;
    put_u64(into, of.log_length)?;
    put_u32(into, of.rebases)?;
    Ok(())
}

fn put_row(into: &mut Bytes, of: &RowRecord) -> Result<(), Memory>
    requires { row.CanSpell of.now }
    ensures { OnOk result (Appends row into.old into.new of.now) }
{
    put_u64(into, of.stamp)?;
    put_u16(into, of.table)?;
    put_values(into, &of.values)?;
    Ok(())
}

fn put_piece(into: &mut Bytes, of: &PieceRecord) -> Result<(), Memory>
    requires { piece.CanSpell of.now }
    ensures { OnOk result (Appends piece into.old into.new of.now) }
{
    put_u64(into, of.version)?;
    put_cell_range(into, &of.cells)?;
    put_u64(into, of.stamp)?;
    put_kind(into, of.kind)?;
    put_flag(into, of.gone)?;
    Ok(())
}

/// A touch, or a mark.
fn put_trace(into: &mut Bytes, of: &Trace) -> Result<(), Memory>
    requires { trace.CanSpell of.now }
    ensures { OnOk result (Appends trace into.old into.new of.now) }
{
    put_u32(into, of.space)?;
    put_u32(into, of.place)?;
    put_cell_range(into, &of.cells)?;
    put_u64(into, of.position)?;
    Ok(())
}

fn put_lock(into: &mut Bytes, of: &Lock) -> Result<(), Memory>
    requires { lock.CanSpell of.now }
    ensures { OnOk result (Appends lock into.old into.new of.now) }
{
    put_u32(into, of.space)?;
    put_u32(into, of.place)?;
    put_cell_range(into, &of.cells)?;
    put_lock_mode(into, of.mode)?;
    put_text(into, &of.user)?;
    put_u64(into, of.making)?;
    Ok(())
}

fn put_hist(into: &mut Bytes, of: &Hist) -> Result<(), Memory>
    requires { hist.CanSpell of.now }
    ensures { OnOk result (Appends hist into.old into.new of.now) }
{
    put_u32(into, of.space)?;
    put_u64(into, of.position)?;
    put_cell_range(into, &of.cells)?;
    put_u64(into, of.stamp)?;
    put_kind(into, of.kind)?;
    put_flag(into, of.gone)?;
    put_u64(into, of.moment)?;
    put_text(into, &of.user)?;
    Ok(())
}

fn put_turn(into: &mut Bytes, of: &Turn) -> Result<(), Memory>
    ensures { OnOk result (Appends turn into.old into.new of.now) }
{
    put_u32(into, of.space)?;
    put_u32(into, of.rebase)?;
    put_u64(into, of.log_length)?;
    put_u32(into, of.rebases)?;
    Ok(())
}

/// The byte for the kind of the record, with which its spelling begins.
#[tactic(auto, unfolding(crate::specs::Spelling::spelling))]
fn tag_of(what: &Record) -> u8
    ensures { slice_index (spelling what.now) 0 ≡ result }
{
    match what {
        Record::Counters(_) => 1,
        Record::Table(_) => 2,
        Record::Space(_) => 3,
        Record::Version(_) => 4,
        Record::Savepoint(_) => 5,
        Record::Row(_) => 6,
        Record::Piece(_) => 7,
        Record::Touch(_) => 8,
        Record::Lock(_) => 9,
        Record::Hist(_) => 10,
        Record::Mark(_) => 11,
        Record::Turn(_) => 12,
    }
}

/// A byte for the kind of the record, and its fields.
fn put_record(into: &mut Bytes, what: &Record) -> Result<(), Memory>
    requires { CanSpell what.now }
    ensures { OnOk result (AppendsRecord into.old into.new what.now) }
{
    into.push(tag_of(what))?;
    match what {
        Record::Counters(counters) => put_counters(into, counters),
        Record::Table(table) => put_table(into, table.get()),
        Record::Space(space) => put_space(into, space.get()),
        Record::Version(version) => put_version(into, version),
        Record::Savepoint(savepoint) => put_savepoint(into, savepoint.get()),
        Record::Row(row) => put_row(into, row),
        Record::Piece(piece) => put_piece(into, piece),
        Record::Touch(touch) => put_trace(into, touch),
        Record::Lock(lock) => put_lock(into, lock.get()),
        Record::Hist(hist) => put_hist(into, hist.get()),
        Record::Mark(mark) => put_trace(into, mark),
        Record::Turn(turn) => put_turn(into, turn),
    }
}

/// Appends the spelling of a record that has one. Where memory runs out nothing is appended.
pub fn encode(alloc: Global, what: &Record, into: &mut Bytes) -> Result<(), Memory>
    requires { CanSpell what.now }
    ensures ok { OnOk result (into.new ≡ into.old ++ spelling what.now) }
    ensures fits { OnOk result (HasSpelling what.now) }
    ensures err { OnErr result (into.new ≡ into.old) }
{
    let mut bytes = Bytes::new(alloc);
    if into.is_empty() {
        // The room that the caller has made serves, and nothing is copied.
        swap(into, &mut bytes);
    }
    put_record(&mut bytes, what)?;
    if into.is_empty() {
        *into = bytes;
        return Ok(());
    }
    into.append(bytes.as_slice())
}
