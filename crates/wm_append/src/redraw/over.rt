//! A new piece over others.

ghost use Rattle.std.specs.Prelude.{◌≡◌, ◌∷◌, ◌++◌, false, IfOk, OnOk};
ghost use Rattle.std.specs.List.{flat_map};
ghost use Rattle.wm_base.specs.declared.kind.Kind.TheVariants.{Insert};
ghost use Rattle.wm_graph.specs.Rules.{collide};
ghost use Rattle.wm_state.specs.Drawing.{around, between, left_by, part};

use std::alloc::Global;
use wm_base::Memory;
use wm_spec::record::{CellRange, PieceRecord};

/// A copy of a piece with other ends.
pub fn copy_part(
    alloc: Global,
    piece: &PieceRecord,
    from: u64,
    till: u64,
) -> Result<PieceRecord, Memory>
    ensures { IfOk result (λ copy. copy ≡ between from till piece.now) }
{
    Ok(PieceRecord {
        version: piece.version,
        cells: CellRange {
            table: piece.cells.table,
            key: piece.cells.key.copy(alloc)?,
            from,
            till,
        },
        stamp: piece.stamp,
        kind: piece.kind,
        gone: piece.gone,
    })
}

/// Puts a part of a piece behind others, where the part has a moment.
fn push_part(
    alloc: Global,
    pieces: &mut Vec<PieceRecord>,
    piece: &PieceRecord,
    from: u64,
    till: u64,
) -> Result<(), Memory>
    ensures { OnOk result (pieces.new.items ≡ pieces.old.items ++ part from till piece.now) }
{
    if from < till {
        let copy = copy_part(alloc, piece, from, till)?;
        pieces.push(copy)?;
    }
    Ok(())
}

/// Whether a piece has one of some cells of a version.
pub fn meets(piece: &PieceRecord, version: u64, cells: &CellRange) -> bool
    ensures { result ≡ collide piece.now (record { version = version; cells = cells.now; stamp = 0; kind = Insert; gone = false }) }
{
    let own = &piece.cells;
    piece.version == version
        && own.table == cells.table
        && own.from < cells.till
        && cells.from < own.till
        && own.key.compare(&cells.key).is_eq()
}

/// Whether two pieces share a cell of a version.
pub fn collide(piece: &PieceRecord, other: &PieceRecord) -> bool
    ensures { result ≡ collide piece.now other.now }
{
    meets(piece, other.version, &other.cells)
}

/// Puts what a piece has before a new one, and what it has after it, behind others.
fn push_around(
    alloc: Global,
    pieces: &mut Vec<PieceRecord>,
    over: &PieceRecord,
    piece: &PieceRecord,
) -> Result<(), Memory>
    ensures { OnOk result (pieces.new.items ≡ pieces.old.items ++ around over.now piece.now) }
{
    let cells = &piece.cells;
    let before = cells.till.min(over.cells.from);
    let after = cells.from.max(over.cells.till);
    push_part(alloc, pieces, piece, cells.from, before)?;
    push_part(alloc, pieces, piece, after, cells.till)
}

/// Puts what a new piece leaves of another one behind others.
fn push_left(
    alloc: Global,
    pieces: &mut Vec<PieceRecord>,
    over: &PieceRecord,
    piece: PieceRecord,
) -> Result<(), Memory>
    ensures { OnOk result (pieces.new.items ≡ pieces.old.items ++ left_by over.now piece) }
{
    if collide(over, &piece) {
        return push_around(alloc, pieces, over, &piece);
    }
    pieces.push(piece)?;
    Ok(())
}

/// What a new piece leaves of others.
pub fn all_left(
    alloc: Global,
    over: &PieceRecord,
    pieces: Vec<PieceRecord>,
) -> Result<Vec<PieceRecord>, Memory>
    ensures { IfOk result (λ left. left.items ≡ flat_map (left_by over.now) pieces.items) }
{
    let mut left = Vec::new(alloc);
    for piece in pieces {
        push_left(alloc, &mut left, over, piece)?;
    }
    Ok(left)
}

/// A new piece, and what it leaves of others behind it.
pub fn lay_over(
    alloc: Global,
    over: PieceRecord,
    pieces: Vec<PieceRecord>,
) -> Result<Vec<PieceRecord>, Memory>
    ensures { IfOk result (λ laid. laid.items ≡ over ∷ flat_map (left_by over) pieces.items) }
{
    let mut laid = all_left(alloc, &over, pieces)?;
    laid.insert(0, over)?;
    Ok(laid)
}
