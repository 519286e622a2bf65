//! The rows of differences.
ghost use Rattle.std.specs.Prelude.{◌≡◌, ◌++◌, ◌∷◌, [], option_copied, IfOk, OnOk};
ghost use Rattle.wm_view_rows.specs.Given.{side_rows, side_stamps};
ghost use Rattle.wm_view_rows.specs.Rows.{change_word, difference_row, difference_rows, point_name};

use crate::rows::{Names, Sides, push_shown, push_text};
use std::alloc::Global;
use wm_base::{Key, Memory, Name, Period, Row, Values};
use wm_listing::RowList;
use wm_spec::record::Table;

/// The stamps of the rows that stand at the common point, at the first and at the second, where one does.
#[derive(Clone, Copy)]
pub struct PointStamps {
    pub base: Option<u64>,
    pub first: Option<u64>,
    pub second: Option<u64>,
}

/// What stands at the common point and at the two: the stamps and the values of the rows.
#[derive(Clone, Copy)]
pub struct Compared<'a> {
    pub stamps: PointStamps,
    pub rows: Sides<'a>,
}

/// What became at a point of the row that stands at the common point.
pub fn change_word(base: Option<u64>, other: Option<u64>) -> &'static [u8]
    ensures { result.now ≡ change_word base other }
{
    match (base, other) {
        (None, None) => b"NE",
        (None, Some(_)) => b"I",
        (Some(_), None) => b"D",
        (Some(one), Some(stamp)) => { if one == stamp { b"NC" } else { b"U" } }
    }
}

/// The name under which a point is shown: its workspace and its savepoint, LATEST where that is what is newest.
pub fn point_name(alloc: Global, workspace: &Name, savepoint: Option<&Name>) -> Result<Name, Memory>
    ensures { IfOk result (λ name. name ≡ point_name workspace.now (option_copied savepoint.entry)) }
{
    let mut name = Vec::from_slice(alloc, workspace.as_bytes())?;
    name.extend_from_slice(b", ")?;
    match savepoint {
        Some(savepoint) => name.extend_from_slice(savepoint.as_bytes())?,
        None => name.extend_from_slice(b"LATEST")?,
    }
    Ok(Name::from_vec(name))
}

/// The row of a point, under its name.
fn difference_row(
    alloc: Global,
    table: &Table,
    key: &Key,
    period: &Period,
    name: &[u8],
    word: &[u8],
    row: Option<&Values>,
) -> Result<Row, Memory>
    ensures { IfOk result (λ made. made ≡ difference_row table.now key.now period.now name.now word.now (option_copied row.entry)) }
{
    let mut values = Values::new(alloc);
    push_shown(alloc, table, key, period, row, &mut values)?;
    push_text(alloc, name, &mut values)?;
    push_text(alloc, word, &mut values)?;
    Ok(Row { values })
}

/// Adds the three rows of a stretch on which two points differ from the common one: those of the common point, the
/// first and the second.
pub fn difference_rows(
    alloc: Global,
    table: &Table,
    key: &Key,
    period: &Period,
    names: Names<'_>,
    compared: Compared<'_>,
    out: &mut RowList,
) -> Result<(), Memory>
    ensures { OnOk result (out.new ≡ out.old ++ difference_rows table.now key.now period.now names.entry.parent.now names.entry.child.now (side_stamps compared.entry.stamps) (side_rows compared.entry.rows)) }
{
    let stamps = compared.stamps;
    let rows = compared.rows;
    let first = names.parent.as_bytes();
    let second = names.child.as_bytes();
    let same = change_word(stamps.base, stamps.base);
    let base = difference_row(alloc, table, key, period, b"DiffBase", same, rows.base)?;
    out.push(base)?;
    let above = change_word(stamps.base, stamps.first);
    let parent = difference_row(alloc, table, key, period, first, above, rows.parent)?;
    out.push(parent)?;
    let below = change_word(stamps.base, stamps.second);
    let child = difference_row(alloc, table, key, period, second, below, rows.child)?;
    out.push(child)
}
