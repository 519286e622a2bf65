//! Copies of records and of changes.
ghost use Rattle.std.specs.Prelude.{◌≡◌, IfOk};

use std::alloc::Global;
use wm_base::Memory;
use wm_index::copies::table_copy;
use wm_spec::record::{
    Boxed, CellRange, Change, Changes, Hist, Lock, PieceRecord, Record, RowRecord, Savepoint,
    Space, Trace,
};

/// A copy of a workspace.
pub fn space_copy(alloc: Global, space: &Space) -> Result<Space, Memory>
    ensures { IfOk result (λ new. new ≡ space.now) }
{
    let name = space.name.copy(alloc)?;
    let writer = space.writer.copy(alloc)?;
    Ok(Space {
        number: space.number,
        name,
        parent: space.parent,
        born: space.born,
        birth_version: space.birth_version,
        birth_place: space.birth_place,
        base_version: space.base_version,
        from: space.from,
        log_length: space.log_length,
        rebases: space.rebases,
        next_place: space.next_place,
        next_implicit: space.next_implicit,
        freeze: space.freeze,
        writer,
    })
}

/// A copy of a savepoint.
fn savepoint_copy(alloc: Global, savepoint: &Savepoint) -> Result<Savepoint, Memory>
    ensures { IfOk result (λ new. new ≡ savepoint.now) }
{
    let name = savepoint.name.copy(alloc)?;
    Ok(Savepoint {
        space: savepoint.space,
        name,
        implicit: savepoint.implicit,
        place: savepoint.place,
        making: savepoint.making,
        moment: savepoint.moment,
        version: savepoint.version,
        base_version: savepoint.base_version,
        from: savepoint.from,
        log_length: savepoint.log_length,
        rebases: savepoint.rebases,
    })
}

/// A copy of a row.
fn row_copy(alloc: Global, row: &RowRecord) -> Result<RowRecord, Memory>
    ensures { IfOk result (λ new. new ≡ row.now) }
{
    let values = row.values.copy(alloc)?;
    Ok(RowRecord {
        stamp: row.stamp,
        table: row.table,
        values,
    })
}

/// A copy of cells.
pub fn cells_copy(alloc: Global, cells: &CellRange) -> Result<CellRange, Memory>
    ensures { IfOk result (λ new. new ≡ cells.now) }
{
    let key = cells.key.copy(alloc)?;
    Ok(CellRange {
        table: cells.table,
        key,
        from: cells.from,
        till: cells.till,
    })
}

/// A copy of a piece.
fn piece_copy(alloc: Global, piece: &PieceRecord) -> Result<PieceRecord, Memory>
    ensures { IfOk result (λ new. new ≡ piece.now) }
{
    let cells = cells_copy(alloc, &piece.cells)?;
    Ok(PieceRecord {
        version: piece.version,
        cells,
        stamp: piece.stamp,
        kind: piece.kind,
        gone: piece.gone,
    })
}

/// A copy of a touch or of a mark.
fn trace_copy(alloc: Global, trace: &Trace) -> Result<Trace, Memory>
    ensures { IfOk result (λ new. new ≡ trace.now) }
{
    let cells = cells_copy(alloc, &trace.cells)?;
    Ok(Trace {
        space: trace.space,
        place: trace.place,
        cells,
        position: trace.position,
    })
}

/// A copy of a lock.
fn lock_copy(alloc: Global, lock: &Lock) -> Result<Lock, Memory>
    ensures { IfOk result (λ new. new ≡ lock.now) }
{
    let cells = cells_copy(alloc, &lock.cells)?;
    let user = lock.user.copy(alloc)?;
    Ok(Lock {
        space: lock.space,
        place: lock.place,
        cells,
        mode: lock.mode,
        user,
        making: lock.making,
    })
}

/// A copy of the entry of a log.
fn hist_copy(alloc: Global, hist: &Hist) -> Result<Hist, Memory>
    ensures { IfOk result (λ new. new ≡ hist.now) }
{
    let cells = cells_copy(alloc, &hist.cells)?;
    let user = hist.user.copy(alloc)?;
    Ok(Hist {
        space: hist.space,
        position: hist.position,
        cells,
        stamp: hist.stamp,
        kind: hist.kind,
        gone: hist.gone,
        moment: hist.moment,
        user,
    })
}

/// A copy of a record.
fn record_copy(alloc: Global, old: &Record) -> Result<Record, Memory>
    ensures { IfOk result (λ new. new ≡ old.now) }
{
    Ok(match old {
        Record::Counters(counters) => Record::Counters(*counters),
        Record::Table(table) => Record::Table(Boxed::new(alloc, table_copy(alloc, table.get())?)?),
        Record::Space(space) => Record::Space(Boxed::new(alloc, space_copy(alloc, space.get())?)?),
        Record::Version(version) => Record::Version(*version),
        Record::Savepoint(savepoint) => {
            let copy = savepoint_copy(alloc, savepoint.get())?;
            Record::Savepoint(Boxed::new(alloc, copy)?)
        }
        Record::Row(row) => Record::Row(row_copy(alloc, row)?),
        Record::Piece(piece) => Record::Piece(piece_copy(alloc, piece)?),
        Record::Touch(touch) => Record::Touch(trace_copy(alloc, touch)?),
        Record::Lock(lock) => Record::Lock(Boxed::new(alloc, lock_copy(alloc, lock.get())?)?),
        Record::Hist(hist) => Record::Hist(Boxed::new(alloc, hist_copy(alloc, hist.get())?)?),
        Record::Mark(mark) => Record::Mark(trace_copy(alloc, mark)?),
        Record::Turn(turn) => Record::Turn(*turn),
    })
}

/// A copy of a change.
fn change_copy(alloc: Global, change: &Change) -> Result<Change, Memory>
    ensures { IfOk result (λ new. new ≡ change.now) }
{
    let becomes = match &change.becomes {
        Some(new) => Some(record_copy(alloc, new)?),
        None => None,
    };
    Ok(Change {
        id: change.id,
        becomes,
    })
}

/// A copy of changes.
pub fn change_copies(alloc: Global, changes: &Changes) -> Result<Changes, Memory>
    ensures { IfOk result (λ new. new ≡ changes.now) }
{
    let mut copies = Changes::new(alloc);
    for change in changes.as_slice() {
        copies.push(change_copy(alloc, change)?)?;
    }
    Ok(copies)
}
