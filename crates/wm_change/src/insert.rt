//! INSERT.
ghost use Rattle.std.specs.Prelude.{◌≡◌, ◌<◌, List, [], ◌∷◌, true, false, Some, IfOk};
ghost use Rattle.std.specs.List.{list_all};
ghost use Rattle.wm_base.specs.declared.instant.TheConstants.{END};
ghost use Rattle.wm_syntax.specs.Views.{exprs_view};
ghost use Rattle.wm_change.specs.Acting.{DoesAs, DoesAt, IsSite};
ghost use Rattle.wm_chosen.specs.Chosen.{is_keyed_row};
ghost use Rattle.wm_plan.specs.Idle.{Idles};
ghost use Rattle.wm_change.specs.Inserting.{IsFine};
ghost use Rattle.wm_plan.specs.Planning.{DoesIt};
ghost use Rattle.wm_graph.specs.Parts.{parts_of, space_of};
ghost use Rattle.wm_graph.specs.Rules.{keep_rules};
ghost use Rattle.wm_making.specs.Rows.{is_filled, row_of};
ghost use Rattle.wm_model.specs.Planning.{IsOpen};
ghost use Rattle.wm_model.specs.Step.{add_found, add_to, insert, new_period, told_period};
ghost use Rattle.wm_spec.specs.Expressions.{has_no_empty_period};
ghost use Rattle.wm_state.specs.State.{Session as SessionState};

use crate::site::Site;
use crate::write_all::write_all;
use std::alloc::Global;
use wm_base::{Memory, Name, Period, Values};
use wm_dml::{RowChange, added};
use wm_expr::ValueFault;
use wm_image::Image;
use wm_making::{insert_fault, period_given, row_fault, row_of};
use wm_plan::answer::Answer;
use wm_plan::planned::Planned;
use wm_plan::refuse::{
    empty_period, key_there, no_table, not_built, not_latest, out_of_range, versioning,
};
use wm_plan::session::{Session, Stand};
use wm_spec::record::{Space, Table};
use wm_syntax::column::Names;
use wm_syntax::expr::Expr;
use wm_version_rows::overlap::overlap;

/// The statement, and the table that it names.
#[derive(Clone, Copy)]
pub struct Insertion<'a> {
    pub name: &'a Name,
    pub names: &'a Option<Names>,
    pub values: &'a [Expr],
    pub table: &'a Table,
}

/// The period of the new row: the one that the statement gives, or the one that is set for the session, or all of time.
fn new_period(session: &Session, insertion: Insertion<'_>) -> Period
    requires { list_all has_no_empty_period (exprs_view insertion.values.now) ≡ true }
    ensures { result ≡ new_period session.now insertion.entry.table.now insertion.entry.names.now (exprs_view insertion.entry.values.now) }
{
    if !insertion.table.valid {
        return Period::always();
    }
    match period_given(insertion.table, insertion.names, insertion.values) {
        Some(period) => period,
        None => session.period().unwrap_or(Period::always()),
    }
}

/// A period that is told, which is one of a table with valid time.
fn told_period(table: &Table, period: Period) -> Option<Period>
    ensures { result ≡ told_period table.now period }
{
    if table.valid { Some(period) } else { None }
}

/// The change alone.
fn alone(alloc: Global, change: RowChange) -> Result<Vec<RowChange>, Memory>
    ensures { IfOk result (λ changes. changes.items ≡ change ∷ []) }
{
    let mut changes = Vec::new(alloc);
    changes.push(change)?;
    Ok(changes)
}

/// Adds a row, where no row of its key stands.
fn add_to(alloc: Global, site: Site<'_>, period: Period, row: Values) -> Result<Planned, Memory>
    requires site { IsSite site }
    requires keyed { is_keyed_row site.table.now row ≡ true }
    requires filled { list_all is_filled row ≡ true }
    ensures does { IfOk result (DoesAt site.entry (add_to site.entry.session.now site.entry.table.now period row)) }
    ensures idle { IfOk result Idles }
{
    let _till = period.till();
    let change = added(alloc, site.table, &period, row)?;
    let version = site.image.latest(site.session.space());
    let number = site.table.number;
    let shared = overlap(alloc, site.image, version, number, &change.key, &period)?;
    if let Some(shared) = shared {
        let told = told_period(site.table, shared);
        return Ok(Planned::answered(alloc, key_there(change.key, told)));
    }
    let changes = alone(alloc, change)?;
    write_all(alloc, site, 1, changes)
}

/// Adds the row of a statement that is in order, unless something is wrong with the row.
fn add_row(
    alloc: Global,
    image: &Image,
    moment: u64,
    session: &Session,
    space: &Space,
    insertion: Insertion<'_>,
) -> Result<Planned, Memory>
    requires rules { keep_rules (parts_of image.now) ≡ true }
    requires moment { moment < END }
    requires fine { IsFine image.now insertion }
    requires home { space_of (parts_of image.now).spaces session.now.space ≡ Some space.now }
    requires lasting { list_all has_no_empty_period (exprs_view insertion.values.now) ≡ true }
    ensures does { IfOk result (DoesAs image.now moment session.now space.now (add_found session.now insertion.entry.table.now (new_period session.now insertion.entry.table.now insertion.entry.names.now (exprs_view insertion.entry.values.now)) (row_of insertion.entry.table.now insertion.entry.names.now (exprs_view insertion.entry.values.now)))) }
    ensures idle { IfOk result Idles }
{
    let table = insertion.table;
    let row = match row_of(alloc, table, insertion.names, insertion.values) {
        Ok(row) => row,
        Err(ValueFault::OutOfRange) => return Ok(Planned::answered(alloc, out_of_range())),
        Err(ValueFault::Memory) => return Err(Memory),
    };
    if let Some(refusal) = row_fault(alloc, table, row.as_slice())? {
        return Ok(Planned::answered(alloc, Answer::Refused(refusal)));
    }
    let period = new_period(session, insertion);
    let site = Site {
        image,
        moment,
        session,
        space,
        table,
    };
    add_to(alloc, site, period, row)
}

/// Adds the row of a statement that is in order, in the workspace that the session stands in at what is newest.
fn add_found(
    alloc: Global,
    image: &Image,
    moment: u64,
    session: &Session,
    insertion: Insertion<'_>,
    empty: bool,
) -> Result<Planned, Memory>
    requires rules { keep_rules (parts_of image.now) ≡ true }
    requires moment { moment < END }
    requires fine { IsFine image.now insertion }
    requires lasting { empty ≡ false → list_all has_no_empty_period (exprs_view insertion.values.now) ≡ true }
    ensures does { IfOk result (λ p. (xs : List SessionState) → IsOpen xs session.now → DoesIt image.now xs moment p (insert session.now insertion.entry.name.now insertion.entry.names.now (exprs_view insertion.entry.values.now) empty)) }
    ensures idle { IfOk result Idles }
{
    let Some(space) = image.space(session.space()) else {
        return Ok(Planned::answered(alloc, not_built()));
    };
    let Stand::Latest = session.stand() else {
        return Ok(Planned::answered(alloc, not_latest()));
    };
    if empty {
        return Ok(Planned::answered(alloc, empty_period()));
    }
    add_row(alloc, image, moment, session, space, insertion)
}

/// INSERT adds a row to a table.
pub fn insert(
    alloc: Global,
    image: &Image,
    moment: u64,
    session: &Session,
    name: &Name,
    names: &Option<Names>,
    values: &[Expr],
    empty: bool,
) -> Result<Planned, Memory>
    requires rules { keep_rules (parts_of image.now) ≡ true }
    requires moment { moment < END }
    // Where it has no empty period, none of its values has one.
    requires lasting { empty ≡ false → list_all has_no_empty_period (exprs_view values.now) ≡ true }
    ensures does { IfOk result (λ p. (xs : List SessionState) → IsOpen xs session.now → DoesIt image.now xs moment p (insert session.now name.now names.now (exprs_view values.now) empty)) }
    ensures idle { IfOk result Idles }
{
    let Some(table) = image.table(name.as_bytes()) else {
        return Ok(Planned::answered(alloc, no_table(name.copy(alloc)?)));
    };
    if !table.versioned {
        return Ok(Planned::answered(alloc, versioning(name.copy(alloc)?, false)));
    }
    if let Some(refusal) = insert_fault(alloc, table, names, values)? {
        return Ok(Planned::answered(alloc, Answer::Refused(refusal)));
    }
    let insertion = Insertion {
        name,
        names,
        values,
        table,
    };
    add_found(alloc, image, moment, session, insertion, empty)
}
