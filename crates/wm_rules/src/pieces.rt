//! The rules of the records of pieces.
ghost use Rattle.std.specs.Prelude.{◌≡◌, nat_lt, true, false, IfOk};
ghost use Rattle.std.specs.Option.{option_map_or};
ghost use Rattle.std.specs.List.{list_all};
ghost use Rattle.wm_cells.specs.Lookups.{found, referred};
ghost use Rattle.wm_graph.specs.Rules.{differ, is_piece, is_row_at, collide};

use std::alloc::Global;
use wm_base::Memory;
use wm_cells::index::{self, Index};
use wm_cells::{cells, overlaps};
use wm_spec::record::{CellRange, PieceRecord, RowRecord, Table, Version};

/// Whether the row of the stamp is there, in the table and with the key of the cells.
pub fn has_row(
    tables: &Index<Table>,
    rows: &Index<RowRecord>,
    cells: &CellRange,
    stamp: u64,
) -> bool
    ensures { result ≡ option_map_or (is_row_at (found tables.now.entries) cells.now) (found rows.now.entries stamp) false }
{
    match index::look(rows, stamp) {
        Some(row) => cells::is_row_at(tables, cells, row),
        None => false,
    }
}

/// Whether the piece has a version, cells, a stamp and a row as it is to have them.
fn is_piece(
    tables: &Index<Table>,
    versions: &Index<Version>,
    rows: &Index<RowRecord>,
    next: u64,
    piece: &PieceRecord,
) -> bool
    ensures { result ≡ is_piece (found tables.now.entries) (found versions.now.entries) (found rows.now.entries) next piece.now }
{
    index::look(versions, piece.version).is_some()
        && cells::are_cells(tables, &piece.cells)
        && piece.stamp < next
        && (piece.gone || has_row(tables, rows, &piece.cells, piece.stamp))
}

/// Whether each piece has a version, cells, a stamp and a row as it is to have them.
pub fn each_is_piece(
    tables: &Index<Table>,
    versions: &Index<Version>,
    rows: &Index<RowRecord>,
    next: u64,
    pieces: &[&PieceRecord],
) -> bool
    ensures { result ≡ list_all (is_piece (found tables.now.entries) (found versions.now.entries) (found rows.now.entries) next) (referred pieces.now) }
{
    for piece in pieces {
        if !is_piece(tables, versions, rows, next, piece) {
            return false;
        }
    }
    true
}

/// Whether no two pieces collide, each of which begins before it ends.
pub fn are_apart(alloc: Global, pieces: &[&PieceRecord]) -> Result<bool, Memory>
    requires { list_all (λ x. nat_lt x.cells.from x.cells.till) (referred pieces.now) ≡ true }
    ensures { IfOk result (λ apart. apart ≡ differ collide (referred pieces.now)) }
{
    let apart = overlaps::are_apart(alloc, pieces)?;
    Ok(apart)
}
