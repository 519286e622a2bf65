//! The rows that are shown of the differences of two versions of a table.

ghost use Rattle.std.specs.Prelude.{◌≡◌, ℕ, ◌++◌, List, true, IfOk, OnOk};
ghost use Rattle.wm_base.specs.declared.value.Value.{Value as OneValue};
ghost use Rattle.wm_differences.specs.Shown.{GainsRows, all_time, differing, group_in, rows_shown, versions_of};
ghost use Rattle.wm_graph.specs.Parts.{parts_of};
ghost use Rattle.wm_graph.specs.Rules.{keep_rules};
ghost use Rattle.wm_ids.specs.Versioned.{AreNested, AreSpanned};
ghost use Rattle.wm_image.specs.Shown.{HoldKey};
ghost use Rattle.wm_net.specs.Groups.{cell};
ghost use Rattle.wm_pending.specs.Sides.{contest_at, stamps_in};
ghost use Rattle.wm_pending.specs.Walks.{stretch_in};
ghost use Rattle.wm_view_rows.specs.Differences.{IsDifferenceView, difference_held, differs};

use std::alloc::Global;
use wm_base::{Key, Kind, Memory, Name, Period, Stamp};
use wm_conflicts::shown::values_with;
use wm_ids::versioned::Versioned;
use wm_image::Image;
use wm_listing::RowList;
use wm_pending::SideStamps;
use wm_pending::sides::{Sides, stand_alike};
use wm_pending::walk::{Contest, Walk};
use wm_period::{Piece, Pieces};
use wm_spec::record::Table;
use wm_version_rows::laying::lay_key;
use wm_view_rows::differences::{Compared, PointStamps, difference_rows};
use wm_view_rows::rows::{Names, Sides as Rows};

/// The versions of the common point, the first and the second.
#[derive(Clone, Copy)]
pub struct Versions {
    pub base: u64,
    pub first: u64,
    pub second: u64,
}

/// A table, and the names under which the rows of two points are shown.
#[derive(Clone, Copy)]
struct Asked<'a> {
    table: &'a Table,
    first: &'a Name,
    second: &'a Name,
}

/// Whether one of two points differs from the common one.
fn differs(stamps: SideStamps) -> bool
    ensures { result ≡ differs (stamps_in stamps) }
{
    !(stand_alike(stamps.base, stamps.parent) && stand_alike(stamps.base, stamps.child))
}

/// The three rows of a stretch are added, where one of the points differs there from the common one.
fn push_contest(
    alloc: Global,
    image: &Image,
    asked: Asked<'_>,
    key: &Key,
    contest: Contest,
    rows: &mut RowList,
) -> Result<(), Memory>
    ensures { OnOk result (rows.new ≡ rows.old ++ rows_shown (parts_of image.now) asked.entry.first.now asked.entry.second.now asked.entry.table.now key.now (stretch_in contest)) }
{
    let stamps = contest.stamps;
    if !differs(stamps) {
        return Ok(());
    }
    let names = Names {
        parent: asked.first,
        child: asked.second,
    };
    let compared = Compared {
        stamps: PointStamps {
            base: stamps.base,
            first: stamps.parent,
            second: stamps.child,
        },
        rows: Rows {
            base: values_with(image, stamps.base),
            parent: values_with(image, stamps.parent),
            child: values_with(image, stamps.child),
        },
    };
    difference_rows(
        alloc,
        asked.table,
        key,
        &contest.period,
        names,
        compared,
        rows,
    )?;
    Ok(())
}

/// Adds the rows of a key, by what its sides hold.
fn push_stretches(
    alloc: Global,
    image: &Image,
    asked: Asked<'_>,
    key: &Key,
    sides: &Sides,
    rows: &mut RowList,
) -> Result<(), Memory>
    ensures { OnOk result (GainsRows (parts_of image.now) asked.entry.first.now asked.entry.second.now asked.entry.table.now key.now (λ (t : ℕ). differing (contest_at sides.now t)) rows.old rows.new) }
{
    let mut walk = Walk::over(sides);
    while let Some((contest, rest)) = walk.next_contest() {
        push_contest(alloc, image, asked, key, contest, rows)?;
        walk = rest;
    }
    Ok(())
}

/// A piece over all of time.
fn all_time(alloc: Global) -> Result<Pieces, Memory>
    ensures { IfOk result (λ pieces. pieces ≡ all_time) }
{
    let mut pieces = Pieces::new(alloc);
    let piece = Piece {
        period: Period::always(),
        stamp: Stamp { number: 0 },
        kind: Kind::Insert,
        gone: false,
    };
    pieces.put(alloc, piece)?;
    Ok(pieces)
}

/// What three versions hold of a key, by what all versions have of it.
fn sides_of(
    alloc: Global,
    image: &Image,
    versions: Versions,
    held: &[Versioned],
) -> Result<Sides, Memory>
    requires rules { keep_rules (parts_of image.now) ≡ true }
    requires nested { AreNested held.now }
    requires spanned { AreSpanned image.now held.now }
    ensures { IfOk result (λ sides. (table : ℕ) → (key : List OneValue) → HoldKey image.now table key held.now → (t : ℕ) → differing (contest_at sides t) ≡ difference_held (parts_of image.now) (versions_of versions) (record { table = table; key = key; time = t })) }
{
    let contested = all_time(alloc)?;
    let base = lay_key(alloc, image, held, versions.base)?;
    let parent = lay_key(alloc, image, held, versions.first)?;
    let child = lay_key(alloc, image, held, versions.second)?;
    Ok(Sides {
        contested,
        base,
        parent,
        child,
    })
}

/// Adds the rows of a key, by what all versions have of it.
fn push_key(
    alloc: Global,
    image: &Image,
    asked: Asked<'_>,
    versions: Versions,
    key: &Key,
    held: &[Versioned],
    rows: &mut RowList,
) -> Result<(), Memory>
    requires rules { keep_rules (parts_of image.now) ≡ true }
    requires nested { AreNested held.now }
    requires spanned { AreSpanned image.now held.now }
    ensures { OnOk result (HoldKey image.now asked.entry.table.now.number key.now held.now → GainsRows (parts_of image.now) asked.entry.first.now asked.entry.second.now asked.entry.table.now key.now (λ (t : ℕ). difference_held (parts_of image.now) (versions_of versions) (cell (group_in asked.entry.table.now key.now) t)) rows.old rows.new) }
{
    let sides = sides_of(alloc, image, versions, held)?;
    let pushed = push_stretches(alloc, image, asked, key, &sides, rows);
    drop(sides);
    pushed?;
    Ok(())
}

/// Three rows for each stretch of a table on which one of two versions differs from their common point, by key and from,
/// under the names of the two. The keys and what versions have of them are gone through at once.
pub fn difference_view(
    alloc: Global,
    image: &Image,
    versions: Versions,
    first: &Name,
    second: &Name,
    table: &Table,
) -> Result<RowList, Memory>
    requires { keep_rules (parts_of image.now) ≡ true }
    ensures { IfOk result (λ rows. IsDifferenceView (parts_of image.now) (versions_of versions) first.now second.now table.now rows) }
{
    let asked = Asked {
        table,
        first,
        second,
    };
    let mut rows = RowList::new(alloc);
    let Some(keys) = image.keys_of(table.number) else {
        return Ok(rows);
    };
    for (key, held) in keys {
        push_key(
            alloc,
            image,
            asked,
            versions,
            key,
            held.as_slice(),
            &mut rows,
        )?;
    }
    Ok(rows)
}
