//! Calls of DBMS_WM.
ghost use Rattle.std.specs.Prelude.{Some, IfOk};
ghost use Rattle.wm_engine.specs.ForkLines.{forks_call};
ghost use Rattle.wm_engine.specs.NetLines.{nets_call};
ghost use Rattle.wm_engine.specs.Performing.{Performs, called_with};
ghost use Rattle.wm_grammar.specs.Calls.{procedure_of};
ghost use Rattle.wm_model.specs.Planning.{IsOpen};

use std::alloc::Global;
use wm_base::{Memory, Name};
use wm_freezing::freeze::freeze_plan;
use wm_freezing::unfreeze::unfreeze_plan;
use wm_grammar::{Procedure, procedure_of};
use wm_ground::ground::Ground;
use wm_locking::lock_rows::lock_rows;
use wm_locking::setting::{set_locking_off, set_locking_on};
use wm_locking::unlock_rows::unlock_rows;
use wm_merge::calls::{merge_call, refresh_call};
use wm_plan::given::Given;
use wm_plan::planned::Planned;
use wm_plan::refuse::not_built;
use wm_plan::session::Session;
use wm_resolve::calls::{commit_call, resolve_call};
use wm_resolve::opening::{begin_resolve_plan, rollback_resolve_plan};
use wm_space::bearing::create_workspace_plan;
use wm_space::comparing::set_difference;
use wm_space::enable::enable_plan;
use wm_space::going::{goto_date, goto_savepoint_plan, goto_workspace_plan};
use wm_space::looking::set_conflict_plan;
use wm_space::removing::remove_plan;
use wm_space::rolling::rollback_plan;
use wm_space::saving::create_savepoint_plan;
use wm_space::valid_time::set_valid_time_plan;

/// A call: what it is given, and whether a period in it is empty.
#[derive(Clone, Copy)]
pub struct Called<'a> {
    pub given: Given<'a>,
    pub empty: bool,
}

/// What a call of a procedure does and answers.
fn call_of(
    alloc: Global,
    ground: Ground<'_>,
    session: &Session,
    procedure: Procedure,
    called: Called<'_>,
) -> Result<Planned, Memory>
    requires open { IsOpen ground.sessions.now session.now }
    ensures { IfOk result (Performs ground.entry (called_with session.now (Some procedure) called.entry) (forks_call (Some procedure)) (nets_call (Some procedure) called.entry.given.args.now)) }
{
    let args = called.given.args;
    let given = called.given;
    let empty = called.empty;
    let image = ground.image;
    let sessions = ground.sessions;
    let moment = ground.moment;
    match procedure {
        Procedure::EnableVersioning => enable_plan(alloc, ground, args),
        Procedure::CreateWorkspace => create_workspace_plan(alloc, ground, session, args),
        Procedure::CreateSavepoint => create_savepoint_plan(alloc, ground, args),
        Procedure::GotoWorkspace => goto_workspace_plan(alloc, ground, session, args),
        Procedure::GotoSavepoint => goto_savepoint_plan(alloc, ground, session, args),
        Procedure::GotoDate => goto_date(alloc, ground, session, args),
        Procedure::SetDiffVersions => set_difference(alloc, ground, session, args),
        Procedure::SetConflictWorkspace => set_conflict_plan(alloc, ground, session, args),
        Procedure::SetValidTime => set_valid_time_plan(alloc, session, args),
        Procedure::RollbackToSp => rollback_plan(alloc, ground, args),
        Procedure::RemoveWorkspace => remove_plan(alloc, ground, args),
        Procedure::RefreshWorkspace => refresh_call(alloc, image, sessions, moment, session, args),
        Procedure::MergeWorkspace => merge_call(alloc, image, sessions, moment, session, args),
        Procedure::FreezeWorkspace => freeze_plan(alloc, ground, session, args),
        Procedure::UnfreezeWorkspace => unfreeze_plan(alloc, ground, args),
        Procedure::SetLockingOn => set_locking_on(alloc, session, args),
        Procedure::SetLockingOff => set_locking_off(alloc, session, args),
        Procedure::LockRows => lock_rows(alloc, ground, session, given, empty),
        Procedure::UnlockRows => unlock_rows(alloc, ground, session, given, empty),
        Procedure::BeginResolve => begin_resolve_plan(alloc, ground, session, args),
        Procedure::ResolveConflicts => resolve_call(alloc, image, session, given, empty),
        Procedure::CommitResolve => commit_call(alloc, image, moment, session, args),
        Procedure::RollbackResolve => rollback_resolve_plan(alloc, ground, session, args),
    }
}

/// What a call does and answers.
pub fn call(
    alloc: Global,
    ground: Ground<'_>,
    session: &Session,
    name: &Name,
    called: Called<'_>,
) -> Result<Planned, Memory>
    requires open { IsOpen ground.sessions.now session.now }
    ensures { IfOk result (Performs ground.entry (called_with session.now (procedure_of name.now) called.entry) (forks_call (procedure_of name.now)) (nets_call (procedure_of name.now) called.entry.given.args.now)) }
{
    match procedure_of(name.as_bytes()) {
        Some(procedure) => call_of(alloc, ground, session, procedure, called),
        None => Ok(Planned::answered(alloc, not_built())),
    }
}
