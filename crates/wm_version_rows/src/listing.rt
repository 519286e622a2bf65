//! The rows of a table that a version holds, and what is shown of them.

ghost use Rattle.std.specs.Prelude.{◌≡◌, true, List, [], ◌∷◌, ◌++◌, if◌then◌else◌, IfOk, OnOk};
ghost use Rattle.std.specs.Option.{option_to_list};
ghost use Rattle.wm_base.specs.Period.{overlaps};
ghost use Rattle.wm_base.specs.declared.value.Value.{Value as OneValue};
ghost use Rattle.wm_base.specs.declared.value.Value.TheVariants as values;
ghost use Rattle.wm_graph.specs.Parts.{parts_of};
ghost use Rattle.wm_graph.specs.Rules.{keep_rules};
ghost use Rattle.wm_version_rows.specs.Listing.{AddsRows, IsKeyShowing, row_under, shown_on};
ghost use Rattle.wm_image.specs.Shown.{HoldKey};
ghost use Rattle.wm_version_rows.specs.Standing.{IsBegun, stretch_ending, stretch_of, stretches_on};
ghost use Rattle.wm_ids.specs.Versioned.{AreNested, AreSpanned};
ghost use Rattle.wm_state.specs.Listing.{IsShowing, seen_row};

use crate::laying::lay_key;
use crate::standing::{ending, first_from, from_behind};
use std::alloc::Global;
use wm_base::{Instant, Key, Memory, Period, Row, Value};
use wm_ids::versioned::Versioned;
use wm_image::Image;
use wm_listing::RowList;
use wm_period::Piece;
use wm_spec::record::{RowRecord, Table};

/// Which rows are asked for: those of a table in a version. Where they have valid time, those that overlap a period
/// are, and each is shown with its own.
#[derive(Drop)]
pub struct Asked {
    pub version: u64,
    pub table: u16,
    pub valid: bool,
    pub within: Period,
}

impl Asked {
    /// The rows of a table in a version; where they have valid time, those that overlap a period.
    pub fn of(version: u64, table: &Table, within: &Period) -> Asked
        ensures { result ≡ (record { version = version; table = table.now.number; valid = table.now.valid; within = within.now }) }
    {
        Asked {
            version,
            table: table.number,
            valid: table.valid,
            within: *within,
        }
    }
}

/// Whether a row that stands on a period is shown.
fn is_shown(asked: &Asked, period: &Period) -> bool
    ensures { result ≡ (if asked.now.valid then overlaps period.now asked.now.within else true) }
{
    !asked.valid || period.overlaps(&asked.within)
}

/// A copy of a row, with its period behind its values where it has valid time.
fn copy_of(alloc: Global, found: &RowRecord, valid: bool, period: Period) -> Result<Row, Memory>
    ensures { IfOk result (λ row. row.values ≡ (if valid then found.now.values ++ values.Span period ∷ [] else found.now.values)) }
{
    let mut values = found.values.copy(alloc)?;
    if valid {
        values.push(Value::Span(period))?;
    }
    Ok(Row { values })
}

/// Puts what is shown of the row of a stamp on a period behind others.
fn push_row(
    alloc: Global,
    image: &Image,
    rows: &mut RowList,
    asked: &Asked,
    period: Period,
    stamp: u64,
) -> Result<(), Memory>
    ensures { OnOk result (rows.new ≡ rows.old ++ option_to_list (seen_row asked.now.valid asked.now.within (stretch_of stamp period) (row_under (parts_of image.now) stamp))) }
{
    if !is_shown(asked, &period) {
        return Ok(());
    }
    if let Some(found) = image.row(stamp) {
        let row = copy_of(alloc, found, asked.valid, period)?;
        rows.push(row)?;
    }
    Ok(())
}

/// Puts what is shown of the row of a piece behind others, where it stands on the piece and not behind it.
fn push_ending(
    alloc: Global,
    image: &Image,
    rows: &mut RowList,
    asked: &Asked,
    from: Instant,
    piece: &Piece,
    rest: &[Piece],
) -> Result<(), Memory>
    requires { IsBegun from (piece.now ∷ rest.now) }
    ensures { OnOk result (rows.new ≡ rows.old ++ shown_on (parts_of image.now) asked.now.valid asked.now.within (stretch_ending from piece.now rest.now)) }
{
    if let Some(period) = ending(from, piece, rest) {
        push_row(alloc, image, rows, asked, period, piece.stamp.number)?;
    }
    Ok(())
}

/// Puts what is shown of the rows of pieces behind others: a row once, where it stands on pieces that meet.
pub fn push_rows(
    alloc: Global,
    image: &Image,
    rows: &mut RowList,
    asked: &Asked,
    pieces: &[Piece],
) -> Result<(), Memory>
    ensures { OnOk result (rows.new ≡ rows.old ++ shown_on (parts_of image.now) asked.now.valid asked.now.within (stretches_on pieces.now)) }
{
    let mut left = pieces;
    let mut from = first_from(pieces);
    while let [piece, rest @ ..] = left {
        push_ending(alloc, image, rows, asked, from, piece, rest)?;
        from = from_behind(from, piece, rest);
        left = rest;
    }
    Ok(())
}

/// Puts what is shown of the rows of a key behind others, by what versions have of its pieces.
fn push_key(
    alloc: Global,
    image: &Image,
    rows: &mut RowList,
    asked: &Asked,
    versions: &[Versioned],
) -> Result<(), Memory>
    requires rules { keep_rules (parts_of image.now) ≡ true }
    requires nested { AreNested versions.now }
    requires spanned { AreSpanned image.now versions.now }
    ensures { OnOk result ((key : List OneValue) → HoldKey image.now asked.now.table key versions.now → AddsRows (parts_of image.now) asked.now.version asked.now.table asked.now.valid asked.now.within key rows.old rows.new) }
{
    let pieces = lay_key(alloc, image, versions, asked.version)?;
    push_rows(alloc, image, rows, asked, pieces.list())?;
    Ok(())
}

/// What is shown of the rows of a key, by from. Only the pieces of that key are looked at.
pub fn list_key(alloc: Global, image: &Image, asked: &Asked, key: &Key) -> Result<RowList, Memory>
    requires { keep_rules (parts_of image.now) ≡ true }
    ensures { IfOk result (λ rows. IsKeyShowing (parts_of image.now) asked.now.version asked.now.table asked.now.valid asked.now.within key.now rows) }
{
    let versions = image.versions_of(asked.table, key);
    let mut rows = RowList::new(alloc);
    push_key(alloc, image, &mut rows, asked, versions)?;
    Ok(rows)
}

/// What is shown of the rows of a table, by key and from. The keys and what versions have of them are gone through at
/// once.
pub fn list_rows(alloc: Global, image: &Image, asked: &Asked) -> Result<RowList, Memory>
    requires { keep_rules (parts_of image.now) ≡ true }
    ensures { IfOk result (λ rows. IsShowing (parts_of image.now) asked.now.version asked.now.table asked.now.valid asked.now.within rows) }
{
    let mut rows = RowList::new(alloc);
    let Some(keys) = image.keys_of(asked.table) else {
        return Ok(rows);
    };
    for (_, versions) in keys {
        push_key(alloc, image, &mut rows, asked, versions.as_slice())?;
    }
    Ok(rows)
}

/// What is shown of the rows of a table that a version holds, by key and from: the rows; where the table has valid
/// time, those that overlap a period, each with its own behind its values.
pub fn showing(
    alloc: Global,
    image: &Image,
    version: u64,
    table: &Table,
    within: &Period,
) -> Result<RowList, Memory>
    requires { keep_rules (parts_of image.now) ≡ true }
    ensures { IfOk result (λ rows. IsShowing (parts_of image.now) version table.now.number table.now.valid within.now rows) }
{
    let asked = Asked::of(version, table, within);
    list_rows(alloc, image, &asked)
}

/// What is shown of the rows of a key of a table that a version holds, by from. The rest of the table is not looked at.
pub fn showing_of_key(
    alloc: Global,
    image: &Image,
    version: u64,
    table: &Table,
    within: &Period,
    key: &Key,
) -> Result<RowList, Memory>
    requires { keep_rules (parts_of image.now) ≡ true }
    ensures { IfOk result (λ rows. IsKeyShowing (parts_of image.now) version table.now.number table.now.valid within.now key.now rows) }
{
    let asked = Asked::of(version, table, within);
    list_key(alloc, image, &asked, key)
}
