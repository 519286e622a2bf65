//! What the sources of a query show a session.
ghost use Rattle.std.specs.Prelude.{◌≡◌, ◌+◌, ◌<◌, ◌≤◌, ◌^◌, length, true, None, IfOk, IfSome};
ghost use Rattle.wm_base.specs.declared.instant.TheConstants.{END};
ghost use Rattle.wm_syntax.specs.Views.{query_view, src_view, srcs_view};
ghost use Rattle.wm_chosen.specs.Keyed.{FixesKeyAt};
ghost use Rattle.wm_graph.specs.Parts.{parts_of};
ghost use Rattle.wm_graph.specs.Rules.{is_table, keep_rules};
ghost use Rattle.wm_model.specs.Looking.{IsLook};
ghost use Rattle.wm_model.specs.Planning.{tables_in};
ghost use Rattle.wm_model.specs.Sources.{AreConflicts};
ghost use Rattle.wm_model.specs.Step.{columns_in, lost_source, source_name};
ghost use Rattle.wm_joining.specs.Kept.{is_kept};
ghost use Rattle.wm_view_rows.specs.Columns.{columns_of_view};
ghost use Rattle.wm_view_rows.specs.Views.{view_named};
ghost use Rattle.wm_view_rows.specs.declared.view.View.TheVariants as views;
ghost use Rattle.wm_views.specs.Looking.{look_view, reading_view};
ghost use Rattle.wm_views.specs.Narrowed.{AreHeld, AreListedFor, AreShown, may_narrow};

use crate::differences::differences_shown;
use crate::locks::locks_shown;
use crate::looking::{Look, Reading, reading_of};
use crate::sources::{source_name, table_asked};
use std::alloc::Global;
use wm_base::{Key, Memory, Period};
use wm_chosen::keyed::key_asked_at;
use wm_conflicts::conflict_view;
use wm_history::dated::dated_showing;
use wm_history::history_view;
use wm_image::Image;
use wm_listing::{Column, Listing, Listings, RowList};
use wm_plan::within::within;
use wm_spec::record::Table;
use wm_syntax::query::{Query, Src};
use wm_version_rows::listing::{showing, showing_of_key};
use wm_view_rows::columns::columns_of_view;
use wm_view_rows::view::{View, view_named};

/// The rows of a table that a version shows a session. Where a key is given, only its rows are looked at.
fn version_shown(
    alloc: Global,
    image: &Image,
    version: u64,
    table: &Table,
    within: &Period,
    key: Option<Key>,
) -> Result<RowList, Memory>
    requires { keep_rules (parts_of image.now) ≡ true }
    ensures { IfOk result (λ rows. AreHeld (parts_of image.now) version table.now within.now key rows) }
{
    match key {
        Some(key) => showing_of_key(alloc, image, version, table, within, &key),
        None => showing(alloc, image, version, table, within),
    }
}

/// The rows of a table that a session sees. Where a key is given, which it is only where a version is read, the rows of
/// that key alone are looked at.
fn rows_shown(
    alloc: Global,
    image: &Image,
    look: &Look<'_>,
    table: &Table,
    key: Option<Key>,
) -> Result<RowList, Memory>
    requires rules { keep_rules (parts_of image.now) ≡ true }
    requires moment { look.now.moment < END }
    requires narrow { may_narrow views.Rows ((look_view (parts_of image.now) look.now).reading table.now) key ≡ true }
    ensures { IfOk result (λ rows. AreShown (parts_of image.now) (look_view (parts_of image.now) look.now) views.Rows table.now key rows) }
{
    let within = within(look.moment, look.session, table);
    match reading_of(image, look.session, table) {
        Reading::Version(version) => version_shown(alloc, image, version, table, &within, key),
        Reading::Day(date) => dated_showing(alloc, image, look.home, date, table, &within),
    }
}

/// The conflicts of a table in the workspace at whose conflicts a session looks.
fn conflicts_shown(
    alloc: Global,
    image: &Image,
    look: &Look<'_>,
    table: &Table,
) -> Result<RowList, Memory>
    requires rules { keep_rules (parts_of image.now) ≡ true }
    requires look { IsLook (parts_of image.now) look.now.moment look.now.session.now (look_view (parts_of image.now) look.now) }
    ensures { IfOk result (λ rows. AreConflicts (parts_of image.now) (look_view (parts_of image.now) look.now).family table.now rows) }
{
    match look.family {
        Some(family) => conflict_view(alloc, image, family.space, family.parent, table),
        None => Ok(RowList::new(alloc)),
    }
}

/// What a session sees of a table, or the rows of one key of it. A view is listed whole.
fn rows_seen(
    alloc: Global,
    image: &Image,
    look: &Look<'_>,
    view: View,
    table: &Table,
    key: Option<Key>,
) -> Result<RowList, Memory>
    requires rules { keep_rules (parts_of image.now) ≡ true }
    requires moment { look.now.moment < END }
    requires look { IsLook (parts_of image.now) look.now.moment look.now.session.now (look_view (parts_of image.now) look.now) }
    requires narrow { may_narrow view ((look_view (parts_of image.now) look.now).reading table.now) key ≡ true }
    ensures { IfOk result (λ rows. AreShown (parts_of image.now) (look_view (parts_of image.now) look.now) view table.now key rows) }
{
    match view {
        View::Rows => rows_shown(alloc, image, look, table, key),
        View::Conflicts => conflicts_shown(alloc, image, look, table),
        View::Differences => differences_shown(alloc, image, look.session, table),
        View::History => history_view(alloc, image, look.home, table),
        View::Locks => locks_shown(alloc, image, table),
    }
}

/// What a source shows a session of its table, or of one key of the table.
fn shown_by(
    alloc: Global,
    image: &Image,
    look: &Look<'_>,
    source: &Src,
    table: &Table,
    key: Option<Key>,
) -> Result<Listing, Memory>
    requires rules { keep_rules (parts_of image.now) ≡ true }
    requires moment { look.now.moment < END }
    requires look { IsLook (parts_of image.now) look.now.moment look.now.session.now (look_view (parts_of image.now) look.now) }
    requires narrow { may_narrow (view_named (src_view source.now).table) ((look_view (parts_of image.now) look.now).reading table.now) key ≡ true }
    ensures columns { IfOk result (λ l. l.columns ≡ columns_of_view (view_named (src_view source.now).table) (source_name (src_view source.now)) table.now) }
    ensures rows { IfOk result (λ l. AreShown (parts_of image.now) (look_view (parts_of image.now) look.now) (view_named (src_view source.now).table) table.now key l.rows) }
{
    let view = view_named(source.table.as_bytes());
    let columns = columns_of_view(alloc, view, source_name(source), table)?;
    let rows = rows_seen(alloc, image, look, view, table, key)?;
    Ok(Listing { columns, rows })
}

/// The key that each tuple that a query keeps has at a table of its, where it asks for one. None is asked of a view, nor of
/// a table that is read on a date.
fn key_asked(
    alloc: Global,
    columns: &[Column],
    before: usize,
    source: &Src,
    table: &Table,
    query: &Query,
    reading: Reading,
) -> Result<Option<Key>, Memory>
    requires well { is_table table.now ≡ true }
    requires room { before + length (columns_of_view (view_named (src_view source.now).table) (source_name (src_view source.now)) table.now) ≤ length columns.now }
    ensures narrow { IfOk result (λ key. may_narrow (view_named (src_view source.now).table) (reading_view reading) key ≡ true) }
    ensures fixed { IfOk result (λ key. IfSome key (FixesKeyAt table.now (is_kept (query_view query.now) columns.now) before)) }
{
    match view_named(source.table.as_bytes()) {
        View::Rows => match reading {
            Reading::Version(_) => key_asked_at(alloc, columns, before, table, query),
            Reading::Day(_) => Ok(None),
        },
        View::Conflicts | View::Differences | View::History | View::Locks => Ok(None),
    }
}

/// What the sources of a query show a session: of a table whose key the query fixes, the rows of that key alone. These
/// are the columns of all sources.
pub fn sources_in(
    alloc: Global,
    image: &Image,
    look: &Look<'_>,
    sources: &[Src],
    columns: &[Column],
    query: &Query,
) -> Result<Listings, Memory>
    requires rules { keep_rules (parts_of image.now) ≡ true }
    requires moment { look.now.moment < END }
    requires look { IsLook (parts_of image.now) look.now.moment look.now.session.now (look_view (parts_of image.now) look.now) }
    requires there { lost_source (tables_in image.now) (srcs_view sources.now) ≡ None }
    requires columns { columns.now ≡ columns_in (tables_in image.now) (srcs_view sources.now) }
    requires few { length columns.now < 2 ^ 64 }
    ensures { IfOk result (λ ls. AreListedFor (parts_of image.now) (look_view (parts_of image.now) look.now) (tables_in image.now) (is_kept (query_view query.now) columns.now) 0 (srcs_view sources.now) ls) }
{
    let mut listings = Vec::new(alloc);
    let mut before = 0usize;
    for source in sources {
        if let Some(table) = table_asked(image, source) {
            let reading = reading_of(image, look.session, table);
            let key = key_asked(alloc, columns, before, source, table, query, reading)?;
            let shown = shown_by(alloc, image, look, source, table, key)?;
            before += shown.columns.as_slice().len();
            listings.push(shown)?;
        }
    }
    Ok(Listings::from_vec(listings))
}
