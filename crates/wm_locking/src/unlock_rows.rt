//! UnlockRows.
ghost use Rattle.std.specs.Prelude.{◌≡◌, map, true, Some, IfOk};
ghost use Rattle.std.specs.List.{filter, list_all};
ghost use Rattle.wm_base.specs.declared.row.Row.{Row as RowOf};
ghost use Rattle.wm_base.specs.declared.truth.Truth.{Truth as TruthOf};
ghost use Rattle.wm_decided.specs.Keys.{columns_of_keys, key_as_row};
ghost use Rattle.wm_dml.specs.Changing.{meets};
ghost use Rattle.wm_grammar.specs.declared.procedure.Procedure.TheVariants as procedures;
ghost use Rattle.wm_graph.specs.Parts.{parts_of, table_of};
ghost use Rattle.wm_graph.specs.Rules.{keep_rules};
ghost use Rattle.wm_ground.specs.Grounds.{outline_on};
ghost use Rattle.wm_ground.specs.Outcomes.{outcome_view};
ghost use Rattle.wm_guard.specs.Barring.{locks_in};
ghost use Rattle.wm_guard.specs.Orders.{nows};
ghost use Rattle.wm_locking.specs.Asked.{asking_of};
ghost use Rattle.wm_locking.specs.Freed.{is_users, unlocking_of};
ghost use Rattle.wm_model.specs.Step.{is_freed, outcome, unlock_rows_plan};
ghost use Rattle.wm_spec.specs.Conditions.{fits, is_yes, truth_of, typed};
ghost use Rattle.wm_spec.specs.declared.record.lock.Lock.{Lock as OneLock};
ghost use Rattle.wm_state.specs.Standing.{locks_by_making};
ghost use Rattle.wm_syntax.specs.Views.{cond_view, filter_view};
ghost use Rattle.wm_typing.specs.Types.{is_filter_typed};

use crate::asked::{Asking, Site, site_asked};
use std::alloc::Global;
use wm_base::{Memory, Row, Truth};
use wm_decided::keyed::{columns_of_keys, key_as_row};
use wm_expr::truth;
use wm_grammar::Procedure;
use wm_ground::ground::Ground;
use wm_ground::outcome::{answered, refused};
use wm_image::Image;
use wm_listing::Columns;
use wm_locks::locks::locks_in;
use wm_plan::answer::Answer;
use wm_plan::given::Given;
use wm_plan::planned::Planned;
use wm_plan::session::Session;
use wm_rowtest::{Judge, RowTest};
use wm_spec::record::Lock;
use wm_state::edit::{Edit, Makings};
use wm_syntax::cond::Cond;

/// Those of the locks that the session's user holds in the workspace of a number, in order.
fn users<'a>(
    alloc: Global,
    session: &Session,
    space: u32,
    locks: &[&'a Lock],
) -> Result<Vec<&'a Lock>, Memory>
    ensures { IfOk result (λ held. nows held.items ≡ filter (is_users session.now space) (nows locks.now)) }
{
    let user = session.user().as_bytes();
    let mut held = Vec::new(alloc);
    for lock in locks {
        if lock.space == space && user == lock.user.as_bytes() {
            held.push(*lock)?;
        }
    }
    Ok(held)
}

/// The makings of the locks.
fn makings_of(alloc: Global, locks: &[&Lock]) -> Result<Vec<u64>, Memory>
    ensures { IfOk result (λ makings. makings.items ≡ map (λ (x : OneLock). x.making) (nows locks.now)) }
{
    let mut makings = Vec::with_capacity(alloc, locks.len())?;
    for lock in locks {
        makings.push(lock.making)?;
    }
    Ok(makings)
}

/// The makings of the locks whose keys the test keeps, in order.
fn makings_kept<F: Fn(&Row) -> Truth + Judge>(
    alloc: Global,
    locks: &[&Lock],
    test: &RowTest<'_, F>,
) -> Result<Vec<u64>, Memory>
    requires { list_all (λ (x : OneLock). fits test.now.columns.now (key_as_row x.cells.key)) (nows locks.now) ≡ true }
    ensures { IfOk result (λ makings. makings.items ≡ map (λ (x : OneLock). x.making) (filter (λ (x : OneLock). is_yes (truth_of (cond_view test.now.cond.now) test.now.columns.now (key_as_row x.cells.key))) (nows locks.now))) }
{
    let mut makings = Vec::new(alloc);
    for lock in locks {
        let row = key_as_row(alloc, &lock.cells.key)?;
        if test.keep(&row) {
            makings.push(lock.making)?;
        }
    }
    Ok(makings)
}

/// The makings of the locks on whose keys a condition is true, in order. The closure answers the condition.
fn makings_by<F: Fn(&Row) -> Truth + Judge + Drop>(
    alloc: Global,
    cond: &Cond,
    columns: &Columns,
    locks: &[&Lock],
    test: F,
) -> Result<Vec<u64>, Memory>
    requires typed { typed (cond_view cond.now) columns.now ≡ true }
    requires fitting { list_all (λ (x : OneLock). fits columns.now (key_as_row x.cells.key)) (nows locks.now) ≡ true }
    requires callable { (row : RowOf) → fits columns.now row ≡ true → ∥ F.may test row ∥₁ }
    requires answers { (row : RowOf) (truth : TruthOf) → fits columns.now row ≡ true → F.gives test row truth → truth ≡ truth_of (cond_view cond.now) columns.now row }
    ensures { IfOk result (λ makings. makings.items ≡ map (λ (x : OneLock). x.making) (filter (λ (x : OneLock). is_yes (truth_of (cond_view cond.now) columns.now (key_as_row x.cells.key))) (nows locks.now))) }
{
    let test = RowTest::new(cond, columns, test);
    makings_kept(alloc, locks, &test)
}

/// The makings of the locks whose keys a condition means, in order: those on whose keys it is true, and all where there
/// is none.
fn makings_meant(
    alloc: Global,
    columns: &Columns,
    condition: &Option<Cond>,
    locks: &[&Lock],
) -> Result<Vec<u64>, Memory>
    requires typed { is_filter_typed columns.now (filter_view condition.now) ≡ true }
    requires fitting { list_all (λ (x : OneLock). fits columns.now (key_as_row x.cells.key)) (nows locks.now) ≡ true }
    ensures { IfOk result (λ makings. makings.items ≡ map (λ (x : OneLock). x.making) (filter (λ (x : OneLock). meets (filter_view condition.now) columns.now (key_as_row x.cells.key)) (nows locks.now))) }
{
    match condition {
        Some(cond) => makings_by(
            alloc,
            cond,
            columns,
            locks,
            |row: &Row| truth(cond, columns, row),
        ),
        None => makings_of(alloc, locks),
    }
}

/// The makings of the locks on a table that the session's user holds in a workspace, on keys that the condition means.
fn makings_freed(
    alloc: Global,
    image: &Image,
    session: &Session,
    site: Site<'_>,
    condition: &Option<Cond>,
) -> Result<Vec<u64>, Memory>
    requires rules { keep_rules (parts_of image.now) ≡ true }
    requires there { table_of (parts_of image.now).tables site.table.now.number ≡ Some site.table.now }
    requires typed { is_filter_typed (columns_of_keys site.table.now) (filter_view condition.now) ≡ true }
    ensures { IfOk result (λ makings. makings.items ≡ map (λ (x : OneLock). x.making) (filter (is_freed session.now (filter_view condition.now) site.entry.table.now site.entry.space.now.number) (locks_in site.entry.table.now.number (locks_by_making (parts_of image.now).locks)))) }
{
    let table = site.table;
    let columns = columns_of_keys(alloc, table)?;
    let locks = locks_in(alloc, image, table.number)?;
    let held = users(alloc, session, site.space.number, locks.as_slice())?;
    makings_meant(alloc, &columns, condition, held.as_slice())
}

/// The locks of these makings go, if there are any, while the work has room.
fn unlock(alloc: Global, ground: Ground<'_>, makings: Vec<u64>) -> Result<Planned, Memory>
    ensures { IfOk result (λ p. outcome_view p ≡ outcome (unlocking_of makings.items (outline_on ground.entry))) }
{
    let list = makings.as_slice();
    let count = list.len() as u64;
    if list.is_empty() {
        return Ok(answered(alloc, Answer::Done(0)));
    }
    if let Some(refusal) = ground.spent_refusal(alloc)? {
        return Ok(refused(alloc, refusal));
    }
    let edit = Edit::Unlock {
        makings: Makings::from_vec(makings),
    };
    Planned::editing(alloc, edit, Answer::Done(count))
}

/// UnlockRows drops locks of the session's user, whatever their modes.
pub fn unlock_rows(
    alloc: Global,
    ground: Ground<'_>,
    session: &Session,
    given: Given<'_>,
    empty: bool,
) -> Result<Planned, Memory>
    ensures { IfOk result (λ p. outcome_view p ≡ outcome (unlock_rows_plan session.now (asking_of procedures.UnlockRows given.entry empty) (outline_on ground.entry))) }
{
    let asking = Asking {
        procedure: Procedure::UnlockRows,
        args: given.args,
        condition: given.condition,
        empty,
    };
    let site = match site_asked(alloc, ground, asking)? {
        Ok(site) => site,
        Err(planned) => return Ok(planned),
    };
    let makings = makings_freed(alloc, ground.image, session, site, given.condition)?;
    unlock(alloc, ground, makings)
}
