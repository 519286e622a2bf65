//! The rules of the records of entries of logs.
ghost use Rattle.std.specs.Prelude.{◌≡◌, IfOk};
ghost use Rattle.std.specs.List.{list_all};
ghost use Rattle.wm_cells.specs.Lookups.{found, referred};
ghost use Rattle.wm_graph.specs.Rules.{differ, is_hist, same_position};

use crate::{pieces, spaces};
use std::alloc::Global;
use wm_base::Memory;
use wm_cells::distinct::are_distinct;
use wm_cells::index::Index;
use wm_cells::{cells, names};
use wm_spec::record::{Hist, RowRecord, Space, Table};

/// Whether the entry has a short user, a position, cells, a stamp and a row as it is to have them.
fn is_hist(
    tables: &Index<Table>,
    spaces: &Index<Space>,
    rows: &Index<RowRecord>,
    next: u64,
    hist: &Hist,
) -> bool
    ensures { result ≡ is_hist (found tables.now.entries) (found spaces.now.entries) (found rows.now.entries) next hist.now }
{
    names::is_short(&hist.user)
        && spaces::has_position(spaces, hist.space, hist.position)
        && cells::are_cells(tables, &hist.cells)
        && hist.stamp < next
        && (hist.gone || pieces::has_row(tables, rows, &hist.cells, hist.stamp))
}

/// Whether each entry has a short user, a position, cells, a stamp and a row as it is to have them.
pub fn each_is_hist(
    tables: &Index<Table>,
    spaces: &Index<Space>,
    rows: &Index<RowRecord>,
    next: u64,
    hists: &[&Hist],
) -> bool
    ensures { result ≡ list_all (is_hist (found tables.now.entries) (found spaces.now.entries) (found rows.now.entries) next) (referred hists.now) }
{
    for hist in hists {
        if !is_hist(tables, spaces, rows, next, hist) {
            return false;
        }
    }
    true
}

/// Whether the positions of the entries of each log differ.
pub fn positions_differ(alloc: Global, hists: &[&Hist]) -> Result<bool, Memory>
    ensures { IfOk result (λ differs. differs ≡ differ same_position (referred hists.now)) }
{
    let differs = are_distinct(alloc, hists)?;
    Ok(differs)
}
