//! UPDATE and DELETE.
ghost use Rattle.std.specs.Prelude.{◌≡◌, ◌<◌, List, length, map, true, false, IfOk};
ghost use Rattle.std.specs.List.{list_all};
ghost use Rattle.wm_base.specs.declared.instant.TheConstants.{END};
ghost use Rattle.wm_base.specs.declared.row.Row.{Row as RowOf};
ghost use Rattle.wm_syntax.specs.Trees.{Set as SetTree};
ghost use Rattle.wm_syntax.specs.Views.{filter_view, sets_view};
ghost use Rattle.wm_dml.specs.Changing.{all_overlap, gone, updated_rows};
ghost use Rattle.wm_dml.specs.Standing.{MayReplace, all_stand};
ghost use Rattle.wm_change.specs.Acting.{AreFull, DoesAt, IsSite, IsUpdate};
ghost use Rattle.wm_chosen.specs.Chosen.{are_keyed};
ghost use Rattle.wm_plan.specs.Idle.{Idles};
ghost use Rattle.wm_plan.specs.Planning.{DoesIt};
ghost use Rattle.wm_graph.specs.Parts.{parts_of};
ghost use Rattle.wm_graph.specs.Rules.{keep_rules};
ghost use Rattle.wm_making.specs.Rows.{is_filled};
ghost use Rattle.wm_model.specs.Planning.{IsOpen};
ghost use Rattle.wm_model.specs.Step.{change_all, delete, replace_all, update, write_ascending};
ghost use Rattle.wm_spec.specs.Expressions.{has_no_empty_period};
ghost use Rattle.wm_state.specs.State.{Session as SessionState};

use crate::moving::move_all;
use crate::site::Site;
use crate::write_all::write_all;
use std::alloc::Global;
use wm_base::{Memory, Name, Period, Row, Value, Values};
use wm_chosen::choosing::chosen_rows;
use wm_dml::{deleted, moves_of, replacing, rows_fault, sets_period, updated_rows};
use wm_expr::ValueFault;
use wm_image::Image;
use wm_plan::answer::Answer;
use wm_plan::planned::Planned;
use wm_plan::refuse::{empty_period, no_table, not_built, not_latest, out_of_range, versioning};
use wm_plan::session::{Session, Stand};
use wm_plan::within::within;
use wm_syntax::cond::Cond;
use wm_syntax::statement::Set;
use wm_typing::{delete_fault, update_fault};

/// Whether the value is no empty text.
fn is_filled(value: &Value) -> bool
    ensures { result ≡ is_filled value.now }
{
    match value {
        Value::Text(text) => text.len() > 0,
        _ => true,
    }
}

/// Whether no text in the values is empty.
fn is_row_filled(values: &[Value]) -> bool
    ensures { result ≡ list_all is_filled values.now }
{
    for value in values {
        if !is_filled(value) {
            return false;
        }
    }
    true
}

/// Whether no text in the rows is empty.
fn are_filled(rows: &[Row]) -> bool
    ensures { result ≡ list_all (λ (r : RowOf). list_all is_filled r.values) rows.now }
{
    for row in rows {
        if !is_row_filled(row.values.as_slice()) {
            return false;
        }
    }
    true
}

/// Makes the rows gone. No text in them is empty in a state that the records stand for.
fn delete_rows(
    alloc: Global,
    site: Site<'_>,
    within: &Period,
    rows: &[Row],
) -> Result<Planned, Memory>
    requires site { IsSite site }
    requires keyed { are_keyed site.table.now rows.now ≡ true }
    requires full { AreFull site.image.now site.moment site.session.now site.space.now rows.now }
    requires overlap { all_overlap site.table.now within.now rows.now ≡ true }
    ensures does { IfOk result (DoesAt site.entry (write_ascending site.entry.session.now site.entry.table.now (length rows.now) (map (gone site.entry.table.now within.now) rows.now))) }
    ensures idle { IfOk result Idles }
{
    if !are_filled(rows) {
        return Ok(Planned::answered(alloc, not_built()));
    }
    let count = rows.len() as u64;
    let changes = deleted(alloc, site.table, within, rows)?;
    write_all(alloc, site, count, changes)
}

/// DELETE makes the rows gone on which the condition is true.
pub fn delete(
    alloc: Global,
    image: &Image,
    moment: u64,
    session: &Session,
    name: &Name,
    filter: &Option<Cond>,
    empty: bool,
) -> Result<Planned, Memory>
    requires rules { keep_rules (parts_of image.now) ≡ true }
    requires moment { moment < END }
    ensures does { IfOk result (λ p. (xs : List SessionState) → IsOpen xs session.now → DoesIt image.now xs moment p (delete session.now name.now (filter_view filter.now) empty)) }
    ensures idle { IfOk result Idles }
{
    let Some(table) = image.table(name.as_bytes()) else {
        return Ok(Planned::answered(alloc, no_table(name.copy(alloc)?)));
    };
    if !table.versioned {
        return Ok(Planned::answered(alloc, versioning(name.copy(alloc)?, false)));
    }
    if let Some(refusal) = delete_fault(alloc, table, filter)? {
        return Ok(Planned::answered(alloc, Answer::Refused(refusal)));
    }
    let Some(space) = image.space(session.space()) else {
        return Ok(Planned::answered(alloc, not_built()));
    };
    let Stand::Latest = session.stand() else {
        return Ok(Planned::answered(alloc, not_latest()));
    };
    if empty {
        return Ok(Planned::answered(alloc, empty_period()));
    }
    let within = within(moment, session, table);
    let version = image.latest(session.space());
    let rows = chosen_rows(alloc, image, version, table, &within, filter)?;
    let site = Site {
        image,
        moment,
        session,
        space,
        table,
    };
    delete_rows(alloc, site, &within, rows.as_slice())
}

/// Writes the new rows in the places of the old ones, or over the new periods that the sets give them.
fn change_all(
    alloc: Global,
    site: Site<'_>,
    within: &Period,
    sets: &[Set],
    rows: &[Row],
    news: Vec<Values>,
) -> Result<Planned, Memory>
    requires site { IsSite site }
    requires lasting { list_all (λ (s : SetTree). has_no_empty_period s.becomes) (sets_view sets.now) ≡ true }
    requires stand { all_stand site.table.now rows.now ≡ true }
    requires overlap { all_overlap site.table.now within.now rows.now ≡ true }
    requires may_replace { MayReplace site.table.now rows.now news.items }
    ensures does { IfOk result (DoesAt site.entry (change_all site.entry.session.now site.entry.table.now within.now (sets_view sets.now) rows.now news.items)) }
    ensures idle { IfOk result Idles }
{
    if sets_period(site.table, sets) {
        let moves = moves_of(alloc, site.table, sets, rows, news)?;
        return move_all(alloc, site, moves);
    }
    let count = rows.len() as u64;
    let changes = replacing(alloc, site.table, within, rows, news)?;
    write_all(alloc, site, count, changes)
}

/// Writes what the sets make of the rows.
fn replace_all(
    alloc: Global,
    site: Site<'_>,
    within: &Period,
    sets: &[Set],
    rows: &[Row],
) -> Result<Planned, Memory>
    requires site { IsSite site }
    requires update { IsUpdate site.table.now (sets_view sets.now) }
    requires stand { all_stand site.table.now rows.now ≡ true }
    requires overlap { all_overlap site.table.now within.now rows.now ≡ true }
    ensures does { IfOk result (DoesAt site.entry (replace_all site.entry.session.now site.entry.table.now within.now (sets_view sets.now) rows.now (updated_rows site.entry.table.now (sets_view sets.now) rows.now))) }
    ensures idle { IfOk result Idles }
{
    let news = match updated_rows(alloc, site.table, sets, rows) {
        Ok(news) => news,
        Err(ValueFault::OutOfRange) => return Ok(Planned::answered(alloc, out_of_range())),
        Err(ValueFault::Memory) => return Err(Memory),
    };
    if let Some(refusal) = rows_fault(alloc, site.table, news.as_slice())? {
        return Ok(Planned::answered(alloc, Answer::Refused(refusal)));
    }
    change_all(alloc, site, within, sets, rows, news)
}

/// Writes what the sets make of the rows. No text in them is empty in a state that the records stand for.
fn update_rows(
    alloc: Global,
    site: Site<'_>,
    within: &Period,
    sets: &[Set],
    rows: &[Row],
) -> Result<Planned, Memory>
    requires site { IsSite site }
    requires update { IsUpdate site.table.now (sets_view sets.now) }
    requires keyed { are_keyed site.table.now rows.now ≡ true }
    requires full { AreFull site.image.now site.moment site.session.now site.space.now rows.now }
    requires overlap { all_overlap site.table.now within.now rows.now ≡ true }
    ensures does { IfOk result (DoesAt site.entry (replace_all site.entry.session.now site.entry.table.now within.now (sets_view sets.now) rows.now (updated_rows site.entry.table.now (sets_view sets.now) rows.now))) }
    ensures idle { IfOk result Idles }
{
    if !are_filled(rows) {
        return Ok(Planned::answered(alloc, not_built()));
    }
    replace_all(alloc, site, within, sets, rows)
}

/// UPDATE writes a new row for each on which the condition is true.
pub fn update(
    alloc: Global,
    image: &Image,
    moment: u64,
    session: &Session,
    name: &Name,
    sets: &[Set],
    filter: &Option<Cond>,
    empty: bool,
) -> Result<Planned, Memory>
    requires rules { keep_rules (parts_of image.now) ≡ true }
    requires moment { moment < END }
    // Where it has no empty period, none of its sets has one.
    requires lasting { empty ≡ false → list_all (λ (s : SetTree). has_no_empty_period s.becomes) (sets_view sets.now) ≡ true }
    ensures does { IfOk result (λ p. (xs : List SessionState) → IsOpen xs session.now → DoesIt image.now xs moment p (update session.now name.now (sets_view sets.now) (filter_view filter.now) empty)) }
    ensures idle { IfOk result Idles }
{
    let Some(table) = image.table(name.as_bytes()) else {
        return Ok(Planned::answered(alloc, no_table(name.copy(alloc)?)));
    };
    if !table.versioned {
        return Ok(Planned::answered(alloc, versioning(name.copy(alloc)?, false)));
    }
    if let Some(refusal) = update_fault(alloc, table, sets, filter)? {
        return Ok(Planned::answered(alloc, Answer::Refused(refusal)));
    }
    let Some(space) = image.space(session.space()) else {
        return Ok(Planned::answered(alloc, not_built()));
    };
    let Stand::Latest = session.stand() else {
        return Ok(Planned::answered(alloc, not_latest()));
    };
    if empty {
        return Ok(Planned::answered(alloc, empty_period()));
    }
    let within = within(moment, session, table);
    let version = image.latest(session.space());
    let rows = chosen_rows(alloc, image, version, table, &within, filter)?;
    let site = Site {
        image,
        moment,
        session,
        space,
        table,
    };
    update_rows(alloc, site, &within, sets, rows.as_slice())
}
