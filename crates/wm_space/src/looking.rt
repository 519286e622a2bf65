//! SetConflictWorkspace.
ghost use Rattle.std.specs.Prelude.{◌≡◌, [], IfOk};
ghost use Rattle.wm_ground.specs.Grounds.{outline_on};
ghost use Rattle.wm_ground.specs.Outcomes.{outcome_view};
ghost use Rattle.wm_model.specs.Step.Sessions as settings;
ghost use Rattle.wm_model.specs.Step.{for_named, no_workspace, outcome, set_conflict_plan, setting, space_named};

use std::alloc::Global;
use wm_base::{Memory, Name};
use wm_grammar::{Parameter, Procedure};
use wm_ground::ground::Ground;
use wm_ground::outcome::{answered, setting};
use wm_plan::given::{bytes_given, fault_of};
use wm_plan::planned::Planned;
use wm_plan::refuse::{mistyped, no_workspace};
use wm_plan::session::{Session, Setting};
use wm_syntax::statement::Arg;

/// The session looks at the conflicts of the workspace of a name.
fn look(
    alloc: Global,
    ground: Ground<'_>,
    session: &Session,
    name: &[u8],
) -> Result<Planned, Memory>
    ensures { IfOk result (λ p. outcome_view p ≡ outcome (for_named (no_workspace name.now) (λ x. setting [] session.now (settings.Conflict name.now)) (space_named name.now (outline_on ground.entry)))) }
{
    let workspace = Name::copy_of(alloc, name)?;
    match ground.space_named(name) {
        Some(_) => setting(alloc, session, Setting::Conflict(workspace)),
        None => Ok(answered(alloc, no_workspace(workspace))),
    }
}

/// SetConflictWorkspace has the session look at the conflicts of a workspace.
pub fn set_conflict_plan(
    alloc: Global,
    ground: Ground<'_>,
    session: &Session,
    args: &[Arg],
) -> Result<Planned, Memory>
    ensures { IfOk result (λ p. outcome_view p ≡ outcome (set_conflict_plan session.now args.now (outline_on ground.entry))) }
{
    if let Some(parameter) = fault_of(alloc, Procedure::SetConflictWorkspace, args)? {
        return Ok(answered(alloc, mistyped(parameter)));
    }
    let name = bytes_given(
        Procedure::SetConflictWorkspace,
        args,
        Parameter::Workspace,
        b"",
    );
    look(alloc, ground, session, name)
}
