//! LockRows.
ghost use Rattle.std.specs.Prelude.{◌≡◌, List, map, true, IfOk};
ghost use Rattle.std.specs.List.{list_all};
ghost use Rattle.wm_base.specs.declared.row.Row.{Row as RowOf};
ghost use Rattle.wm_dml.specs.Changing.{all_overlap};
ghost use Rattle.wm_grammar.specs.declared.procedure.Procedure.TheVariants as procedures;
ghost use Rattle.wm_graph.specs.Rules.{is_short};
ghost use Rattle.wm_ground.specs.Grounds.{outline_on};
ghost use Rattle.wm_ground.specs.Outcomes.{outcome_view};
ghost use Rattle.wm_locking.specs.Asked.{asking_of, asking_view};
ghost use Rattle.wm_locking.specs.Rows.{AreRowsMeant, IsLocking, LocksAt, cells_changed, is_lasting_lock, locking_cells, locking_parts};
ghost use Rattle.wm_model.specs.Step.{cells_in, lock_rows_plan, outcome};
ghost use Rattle.wm_outline.specs.Outline.{SpaceOutline};
ghost use Rattle.wm_plan.specs.Idle.{Idles};
ghost use Rattle.wm_plan.specs.Views.{seating_view};
ghost use Rattle.wm_model.specs.Planning.{Stay};
ghost use Rattle.wm_spec.specs.declared.record.table.Table.{Table as TableOf};
ghost use Rattle.wm_state.specs.Drafts.{CanDraft, can_keep, cells_locked};
ghost use Rattle.wm_state.specs.declared.edit.NewLock.{NewLock as LockOf};

use crate::asked::{Asking, Site, site_asked};
use crate::setting::mode_given;
use std::alloc::Global;
use wm_barred::barring::{Claim, cells_fault};
use wm_barred::parts::{Holder, cell_parts};
use wm_base::{Memory, Period, Row};
use wm_chosen::choosing::chosen_rows;
use wm_dml::{RowChange, deleted};
use wm_grammar::{Parameter, Procedure};
use wm_ground::ground::Ground;
use wm_ground::outcome::{answered, refused};
use wm_plan::answer::Answer;
use wm_plan::given::Given;
use wm_plan::kept::are_kept;
use wm_plan::planned::Planned;
use wm_plan::refuse::{at_its_end, not_built};
use wm_plan::session::Session;
use wm_plan::within::within;
use wm_plan::work::is_spent_by;
use wm_spec::record::{LockMode, Table};
use wm_state::edit::{Cells, Edit, NewLock};

/// Who locks, in which mode and in the workspace of which number.
#[derive(Clone, Copy)]
pub struct Locking<'a> {
    pub session: &'a Session,
    pub mode: LockMode,
    pub space: u32,
}

/// The cells of changes of a table.
fn cells_changed(
    alloc: Global,
    table: &Table,
    changes: Vec<RowChange>,
) -> Result<Vec<NewLock>, Memory>
    ensures exact { IfOk result (λ cells. map cells_locked cells.items ≡ map (cells_changed table.now.number) changes.items) }
    ensures lasting { IfOk result (λ cells. list_all is_lasting_lock cells.items ≡ true) }
{
    let mut cells = Vec::new(alloc);
    for change in changes {
        let _till = change.period.till();
        cells.push(NewLock {
            table: table.number,
            key: change.key,
            period: change.period,
        })?;
    }
    Ok(cells)
}

/// The cells of rows, each cut to a period: those that a DELETE would change.
fn cells_of_rows(
    alloc: Global,
    table: &Table,
    within: &Period,
    rows: &[Row],
) -> Result<Vec<NewLock>, Memory>
    requires overlap { all_overlap table.now within.now rows.now ≡ true }
    ensures exact { IfOk result (λ cells. map cells_locked cells.items ≡ map (cells_in table.now within.now) rows.now) }
    ensures lasting { IfOk result (λ cells. list_all is_lasting_lock cells.items ≡ true) }
{
    let changes = deleted(alloc, table, within, rows)?;
    cells_changed(alloc, table, changes)
}

/// Whether a record can keep the keys of all these cells.
fn are_kept_cells(cells: &[NewLock]) -> bool
    ensures { result ≡ list_all (λ (x : LockOf). list_all can_keep x.key) cells.now }
{
    for lock in cells {
        if !are_kept(lock.key.values()) {
            return false;
        }
    }
    true
}

/// These parts are locked, if there are any, while the work has room for them; so many rows are told.
fn lock_parts(
    alloc: Global,
    ground: Ground<'_>,
    locking: Locking<'_>,
    parts: Vec<NewLock>,
    count: u64,
) -> Result<Planned, Memory>
    ensures { IfOk result (λ p. outcome_view p ≡ locking_parts locking.entry.session.now.user locking.entry.mode locking.entry.space parts.items count (outline_on ground.entry)) }
{
    if parts.is_empty() {
        return Ok(answered(alloc, Answer::Done(count)));
    }
    if is_spent_by(&ground.image.counters(), parts.len() as u64) {
        return Ok(answered(alloc, at_its_end(alloc, b"WORK")?));
    }
    let edit = Edit::Lock {
        space: locking.space,
        mode: locking.mode,
        user: locking.session.user().copy(alloc)?,
        cells: Cells::from_vec(parts),
    };
    Planned::editing(alloc, edit, Answer::Done(count))
}

/// Cells are locked, unless a lock bars it.
fn lock_cells(
    alloc: Global,
    ground: Ground<'_>,
    locking: Locking<'_>,
    cells: &[NewLock],
) -> Result<Planned, Memory>
    ensures does { IfOk result (λ p. outcome_view p ≡ outcome (locking_cells locking.entry.session.now locking.entry.mode (outline_on ground.entry) (map cells_locked cells.now) locking.entry.space)) }
    // A record has room for the user.
    ensures short { is_short locking.entry.session.now.user ≡ true }
{
    let Locking {
        session,
        mode,
        space,
    } = locking;
    let user = session.user();
    let claim = Claim {
        space,
        user,
        except: None,
    };
    if let Some(refusal) = cells_fault(alloc, ground.image, claim, cells)? {
        return Ok(refused(alloc, refusal));
    }
    let holder = Holder { space, mode, user };
    let parts = cell_parts(alloc, ground.image, holder, cells)?;
    lock_parts(alloc, ground, locking, parts, cells.len() as u64)
}

/// The rows of a table are locked that are newest in a workspace, as the session's period shows them, on whose keys the
/// condition is true. No text in their keys is empty in a state that the records stand for.
fn lock_on(
    alloc: Global,
    ground: Ground<'_>,
    locking: Locking<'_>,
    site: Site<'_>,
    asking: Asking<'_>,
) -> Result<Planned, Memory>
    requires site { IsLocking ground locking site (asking_view asking) }
    ensures does { IfOk result (LocksAt ground.entry locking.entry site.entry (asking_view asking.entry)) }
    ensures can { IfOk result (λ p. CanDraft ground.entry.image.now ground.entry.moment p.edits.items) }
    ensures seats { IfOk result (λ p. seating_view p.seating ≡ Stay) }
    ensures idle { IfOk result Idles }
{
    let _user = locking.session.user();
    let table = site.table;
    let within = within(ground.moment, locking.session, table);
    let version = ground.image.latest(site.space.number);
    let condition = asking.condition;
    let rows = chosen_rows(alloc, ground.image, version, table, &within, condition)?;
    let cells = cells_of_rows(alloc, table, &within, rows.as_slice())?;
    if !are_kept_cells(cells.as_slice()) {
        return Ok(answered(alloc, not_built()));
    }
    lock_cells(alloc, ground, locking, cells.as_slice())
}

/// LockRows locks rows that a workspace holds.
pub fn lock_rows(
    alloc: Global,
    ground: Ground<'_>,
    session: &Session,
    given: Given<'_>,
    empty: bool,
) -> Result<Planned, Memory>
    ensures does { IfOk result (λ p. (rows : TableOf → SpaceOutline → List RowOf) → AreRowsMeant ground.entry session.now (asking_of procedures.LockRows given.entry empty) rows → outcome_view p ≡ outcome (lock_rows_plan session.now (asking_of procedures.LockRows given.entry empty) rows (outline_on ground.entry))) }
    ensures can { IfOk result (λ p. CanDraft ground.entry.image.now ground.entry.moment p.edits.items) }
    ensures seats { IfOk result (λ p. seating_view p.seating ≡ Stay) }
    ensures idle { IfOk result Idles }
{
    let asking = Asking {
        procedure: Procedure::LockRows,
        args: given.args,
        condition: given.condition,
        empty,
    };
    let site = match site_asked(alloc, ground, asking)? {
        Ok(site) => site,
        Err(planned) => return Ok(planned),
    };
    let locking = Locking {
        session,
        mode: mode_given(Procedure::LockRows, given.args, Parameter::RowLockMode),
        space: site.space.number,
    };
    lock_on(alloc, ground, locking, site, asking)
}
