//! The rows of the history of a table in a workspace.

ghost use Rattle.std.specs.Prelude.{◌≡◌, ◌<◌, ◌≤◌, ◌++◌, List, [], ◌∷◌, reverse, true, if◌then◌else◌, None, IfOk, OnOk};
ghost use Rattle.std.specs.Option.{option_copied};
ghost use Rattle.wm_base.specs.declared.instant.TheConstants.{END};
ghost use Rattle.wm_graph.specs.Parts.{parts_of};
ghost use Rattle.wm_graph.specs.Rules.{keep_rules};
ghost use Rattle.wm_history.specs.Later.{AreTold, events_at, row_before};
ghost use Rattle.wm_view_rows.specs.Conflicts.{values_with};
ghost use Rattle.wm_view_rows.specs.History.{IsHistoryView, event_by};
ghost use Rattle.wm_view_rows.specs.Rows.{Event, history_rows};

use crate::later::{Later, add_written, last_over, written_at};
use std::alloc::Global;
use std::collections::BTreeMap;
use wm_base::{Memory, Row, Values};
use wm_image::Image;
use wm_index::kinds::hist_of;
use wm_listing::RowList;
use wm_spec::record::{Hist, Space, Table};
use wm_view_rows::rows::{EventAt, history_row};

/// The values of the row that an entry wrote, or None where it is gone.
fn values_written<'a>(image: &'a Image, hist: &Hist) -> Option<&'a Values>
    ensures { option_copied result ≡ (if hist.now.gone then None else values_with (parts_of image.now) hist.now.stamp) }
{
    if hist.gone {
        return None;
    }
    let row = image.row(hist.stamp)?;
    Some(&row.values)
}

/// The row of an entry, by what was written behind it.
fn row_told(
    alloc: Global,
    image: &Image,
    space: &Space,
    table: &Table,
    later: &Later,
    hist: &Hist,
) -> Result<Row, Memory>
    requires some { hist.now.cells.from < hist.now.cells.till }
    requires till { hist.now.cells.till ≤ END }
    ensures { IfOk result (λ row. row ≡ row_before space.now.name table.now later.now.entries (event_by (parts_of image.now) hist.now)) }
{
    let over = last_over(written_at(later, &hist.cells.key), &hist.cells);
    let event = EventAt {
        cells: &hist.cells,
        row: values_written(image, hist),
        kind: hist.kind,
        moment: hist.moment,
        user: &hist.user,
    };
    history_row(alloc, &space.name, table, &event, over)
}

/// Puts the row of the entry of an id behind those of later ones, and what it wrote behind what they did.
fn push_told(
    alloc: Global,
    image: &Image,
    space: &Space,
    table: &Table,
    id: u64,
    later: &mut Later,
    rows: &mut Vec<Row>,
) -> Result<(), Memory>
    requires { keep_rules (parts_of image.now) ≡ true }
    ensures { OnOk result ((done : List Event) → AreTold space.now.name table.now done later.old.entries rows.old.items → AreTold space.now.name table.now (events_at image.now (id ∷ []) ++ done) later.new.entries rows.new.items) }
{
    let Some(hist) = hist_of(image.record(id)) else {
        return Ok(());
    };
    let row = row_told(alloc, image, space, table, later, hist)?;
    rows.push(row)?;
    add_written(alloc, later, hist)
}

/// The rows of the entries of some ids, the last first: so it is known of each what was written behind it.
fn rows_back(
    alloc: Global,
    image: &Image,
    space: &Space,
    table: &Table,
    ids: Vec<u64>,
) -> Result<Vec<Row>, Memory>
    requires { keep_rules (parts_of image.now) ≡ true }
    ensures { IfOk result (λ rows. rows.items ≡ reverse (history_rows space.now.name table.now (events_at image.now ids.items))) }
{
    let mut left = ids;
    let mut later = BTreeMap::new(alloc);
    let mut rows = Vec::with_capacity(alloc, left.len())?;
    while let Some(id) = left.pop() {
        push_told(alloc, image, space, table, id, &mut later, &mut rows)?;
    }
    Ok(rows)
}

/// The history of a table in a workspace: a row for each entry of its log on the table, in their order, with the moment
/// at which it was first written over. Only those entries are looked at, and each beside later ones of its key.
pub fn history_view(
    alloc: Global,
    image: &Image,
    space: &Space,
    table: &Table,
) -> Result<RowList, Memory>
    requires { keep_rules (parts_of image.now) ≡ true }
    ensures { IfOk result (λ rows. IsHistoryView (parts_of image.now) space.now table.now rows) }
{
    let ids = image.hists(alloc, space.number, table.number)?;
    let mut rows = rows_back(alloc, image, space, table, ids)?;
    rows.reverse();
    Ok(RowList::from_vec(rows))
}
