//! The rows that are shown of the conflicts of a workspace with its parent in a table.

ghost use Rattle.std.specs.Prelude.{◌≡◌, ◌++◌, true, option_copied, IfOk, OnOk};
ghost use Rattle.std.specs.Option.{option_and_then};
ghost use Rattle.wm_conflicts.specs.Shown.{rows_shown};
ghost use Rattle.wm_graph.specs.Parts.{parts_of};
ghost use Rattle.wm_graph.specs.Rules.{keep_rules};
ghost use Rattle.wm_telling.specs.Telling.{AreFamily};
ghost use Rattle.wm_view_rows.specs.Conflicts.{IsConflictView, values_with};

use std::alloc::Global;
use wm_base::{Memory, Values};
use wm_image::Image;
use wm_listing::RowList;
use wm_pending::clash::{Conflict, conflicts};
use wm_pending::own::own_pieces;
use wm_spec::record::{Space, Table};
use wm_view_rows::rows::{Names, Sides, conflict_rows};

/// The values of the row of a stamp.
pub fn values_with(image: &Image, stamp: Option<u64>) -> Option<&Values>
    ensures { option_copied result ≡ option_and_then (values_with (parts_of image.now)) stamp }
{
    let row = image.row(stamp?)?;
    Some(&row.values)
}

/// Adds the three rows of a stretch of conflict.
fn push_conflict(
    alloc: Global,
    image: &Image,
    table: &Table,
    names: Names<'_>,
    conflict: &Conflict,
    rows: &mut RowList,
) -> Result<(), Memory>
    ensures { OnOk result (rows.new ≡ rows.old ++ rows_shown (parts_of image.now) table.now names.entry.parent.now names.entry.child.now conflict.now) }
{
    let stamps = conflict.stamps;
    let sides = Sides {
        base: values_with(image, stamps.base),
        parent: values_with(image, stamps.parent),
        child: values_with(image, stamps.child),
    };
    conflict_rows(
        alloc,
        table,
        &conflict.key,
        &conflict.period,
        names,
        sides,
        rows,
    )?;
    Ok(())
}

/// Three rows for each stretch of a table on which a workspace and its parent are in conflict, by key and from.
pub fn conflict_view(
    alloc: Global,
    image: &Image,
    space: &Space,
    parent: &Space,
    table: &Table,
) -> Result<RowList, Memory>
    requires rules { keep_rules (parts_of image.now) ≡ true }
    requires family { AreFamily (parts_of image.now) space.now parent.now }
    ensures { IfOk result (λ rows. IsConflictView (parts_of image.now) space.now parent.now table.now rows) }
{
    let own = own_pieces(alloc, image, space)?;
    let found = conflicts(alloc, image, space, parent, own.as_slice(), table.number)?;
    let names = Names {
        parent: &parent.name,
        child: &space.name,
    };
    let mut rows = RowList::new(alloc);
    for conflict in &found {
        push_conflict(alloc, image, table, names, conflict, &mut rows)?;
    }
    Ok(rows)
}
