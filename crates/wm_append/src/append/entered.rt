//! Entries as records.

ghost use Rattle.std.specs.Prelude.{◌≡◌, ◌+◌, ◌<◌, ◌^◌, ◌∷◌, [], ◌++◌, length, map, IfOk, OnOk};
ghost use Rattle.wm_append.specs.Appending.{hists_if};
ghost use Rattle.wm_spec.specs.declared.record.Record.TheVariants as records;
ghost use Rattle.wm_state.specs.Editing.{entry_of};
ghost use Rattle.wm_state.specs.Entries.{piece_of, pieces_of, rows_in};
ghost use Rattle.wm_state.specs.Touching.{marks_of};

use std::alloc::Global;
use wm_base::{Key, Kind, Memory, Period};
use wm_spec::record::{Boxed, CellRange, Hist, PieceRecord, Record, RowRecord};
use wm_state::edit::{Entries, NewEntry};

/// Where entries come: the version that is to have them, the number of its workspace, the last place that was given there,
/// and whether their table keeps its history.
#[derive(Clone, Copy)]
pub struct Target {
    pub version: u64,
    pub space: u32,
    pub place: u32,
    pub history: bool,
}

/// Entries as records: the new rows, the pieces of a version, as pieces the cells that they touch, and what a log keeps of
/// them.
#[derive(Drop)]
pub struct Entered {
    pub rows: Vec<Record>,
    pub pieces: Vec<PieceRecord>,
    pub marks: Vec<PieceRecord>,
    pub hists: Vec<Record>,
}

/// The cells of a key of a table over a period.
pub fn cells_of(table: u16, key: Key, period: Period) -> CellRange
    ensures { result ≡ record { table = table; key = key; from = period.from; till = period.till } }
{
    CellRange {
        table,
        key,
        from: period.from().seconds(),
        till: period.till().seconds(),
    }
}

/// Puts the record of an entry behind others, where its table keeps its history.
fn push_hist(
    alloc: Global,
    hists: &mut Vec<Record>,
    target: Target,
    position: u64,
    entry: &NewEntry,
) -> Result<(), Memory>
    ensures { OnOk result (hists.new.items ≡ hists.old.items ++ map records.Hist (hists_if target.history target.space position (entry_of entry.now ∷ []))) }
{
    if !target.history {
        return Ok(());
    }
    let hist = Hist {
        space: target.space,
        position,
        cells: cells_of(entry.table, entry.key.copy(alloc)?, entry.period),
        stamp: entry.stamp,
        kind: entry.kind,
        gone: entry.row.is_none(),
        moment: entry.moment,
        user: entry.user.copy(alloc)?,
    };
    hists.push(Record::Hist(Boxed::new(alloc, hist)?))?;
    Ok(())
}

/// Puts behind others what a log keeps of an entry, and as a piece the cells that it touches.
fn push_traces(
    alloc: Global,
    hists: &mut Vec<Record>,
    marks: &mut Vec<PieceRecord>,
    target: Target,
    position: u64,
    entry: &NewEntry,
) -> Result<(), Memory>
    ensures marks { OnOk result (marks.new.items ≡ marks.old.items ++ marks_of target.place position (entry_of entry.now ∷ [])) }
    ensures hists { OnOk result (hists.new.items ≡ hists.old.items ++ map records.Hist (hists_if target.history target.space position (entry_of entry.now ∷ []))) }
{
    push_hist(alloc, hists, target, position, entry)?;
    marks.push(PieceRecord {
        version: u64::from(target.place),
        cells: cells_of(entry.table, entry.key.copy(alloc)?, entry.period),
        stamp: position,
        kind: Kind::Insert,
        gone: false,
    })?;
    Ok(())
}

/// Puts behind others the new row of an entry, where it has one, and the piece of it that a version has.
fn push_own(
    rows: &mut Vec<Record>,
    pieces: &mut Vec<PieceRecord>,
    version: u64,
    entry: NewEntry,
) -> Result<(), Memory>
    ensures rows { OnOk result (rows.new.items ≡ rows.old.items ++ map records.Row (rows_in (entry_of entry ∷ []))) }
    ensures pieces { OnOk result (pieces.new.items ≡ pieces.old.items ++ piece_of version (entry_of entry) ∷ []) }
{
    let NewEntry {
        table,
        key,
        period,
        row,
        stamp,
        kind,
        moment: _,
        user,
    } = entry;
    drop(user);
    pieces.push(PieceRecord {
        version,
        cells: cells_of(table, key, period),
        stamp,
        kind,
        gone: row.is_none(),
    })?;
    if let Some(values) = row {
        rows.push(Record::Row(RowRecord {
            stamp,
            table,
            values,
        }))?;
    }
    Ok(())
}

/// Adds the records of an entry, which has a position in the log of a workspace.
pub fn add_entry(
    alloc: Global,
    entered: &mut Entered,
    target: Target,
    position: u64,
    entry: NewEntry,
) -> Result<(), Memory>
    ensures rows { OnOk result (entered.new.rows.items ≡ entered.old.rows.items ++ map records.Row (rows_in (entry_of entry ∷ []))) }
    ensures pieces { OnOk result (entered.new.pieces.items ≡ entered.old.pieces.items ++ piece_of target.version (entry_of entry) ∷ []) }
    ensures marks { OnOk result (entered.new.marks.items ≡ entered.old.marks.items ++ marks_of target.place position (entry_of entry ∷ [])) }
    ensures hists { OnOk result (entered.new.hists.items ≡ entered.old.hists.items ++ map records.Hist (hists_if target.history target.space position (entry_of entry ∷ []))) }
{
    let hists = &mut entered.hists;
    match push_traces(alloc, hists, &mut entered.marks, target, position, &entry) {
        Ok(()) => push_own(
            &mut entered.rows,
            &mut entered.pieces,
            target.version,
            entry,
        ),
        Err(fault) => {
            drop(entry);
            Err(fault)
        }
    }
}

/// The records of entries of one table, whose positions in the log of their workspace follow one another from this one on.
pub fn enter(
    alloc: Global,
    target: Target,
    position: u64,
    entries: Entries,
) -> Result<Entered, Memory>
    requires { position + length entries < 2 ^ 64 }
    ensures rows { IfOk result (λ entered. entered.rows.items ≡ map records.Row (rows_in (map entry_of entries))) }
    ensures pieces { IfOk result (λ entered. entered.pieces.items ≡ pieces_of target.version (map entry_of entries)) }
    ensures marks { IfOk result (λ entered. entered.marks.items ≡ marks_of target.place position (map entry_of entries)) }
    ensures hists { IfOk result (λ entered. entered.hists.items ≡ map records.Hist (hists_if target.history target.space position (map entry_of entries))) }
{
    let mut entered = Entered {
        rows: Vec::new(alloc),
        pieces: Vec::new(alloc),
        marks: Vec::new(alloc),
        hists: Vec::new(alloc),
    };
    let mut position = position;
    for entry in entries.into_vec() {
        add_entry(alloc, &mut entered, target, position, entry)?;
        position += 1;
    }
    Ok(entered)
}
