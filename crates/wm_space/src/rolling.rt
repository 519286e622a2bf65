//! RollbackToSP.
ghost use Rattle.std.specs.Prelude.{◌≡◌, None, if◌then◌else◌, IfOk};
ghost use Rattle.std.specs.Option.{option_copied, option_or};
ghost use Rattle.std.specs.List.{find};
ghost use Rattle.wm_graph.specs.Parts.{parts_of};
ghost use Rattle.wm_ground.specs.Grounds.{outline_on};
ghost use Rattle.wm_ground.specs.Outcomes.{outcome_view};
ghost use Rattle.wm_model.specs.Step.{first_fault, for_named, for_savepoint, is_still, no_savepoint, no_workspace, outcome, rollback_plan, rolling, rolling_faults, savepoint_called, space_named, spent, stands_behind, stays_behind, would_go};
ghost use Rattle.wm_outline.specs.Outline.{outline_by};
ghost use Rattle.wm_plan.specs.Stands.{stand_view};
ghost use Rattle.wm_state.specs.Standing.{saved_fields};

use crate::dependent::{all_stay_behind, first_dependent, is_marked_since};
use crate::locks::are_before;
use crate::removing::inside_refusal;
use std::alloc::Global;
use wm_base::{Memory, Name, Refusal};
use wm_calls::text_given;
use wm_grammar::{Parameter, Procedure};
use wm_ground::ground::Ground;
use wm_ground::outcome::{answered, done, refused};
use wm_plan::answer::Answer;
use wm_plan::given::{bytes_given, fault_of, lacking};
use wm_plan::names::is_latest;
use wm_plan::planned::Planned;
use wm_plan::refuse::{
    dependent_child, mistyped, no_savepoint, no_workspace, rebased_since, reserved_name,
};
use wm_plan::session::{Session, Stand};
use wm_spec::record::{Savepoint, Space};
use wm_state::edit::Edit;
use wm_syntax::statement::Arg;

// ---- what is in the way

/// Whether a savepoint stays where its workspace goes back to another one.
fn stays_behind(savepoint: &Savepoint, other: &Savepoint) -> bool
    ensures { result ≡ stays_behind (saved_fields savepoint.now) (saved_fields other.now) }
{
    other.place <= savepoint.place && other.log_length <= savepoint.log_length
}

/// Whether one stands where a rollback to a savepoint would leave nothing.
fn would_go(ground: Ground<'_>, space: &Space, savepoint: &Savepoint, stand: Stand) -> bool
    ensures { result ≡ would_go (outline_by (parts_of ground.entry.image.now) space.now) (saved_fields savepoint.now) (stand_view stand) }
{
    let Stand::At(making) = stand else {
        return false;
    };
    match ground.savepoint_at(space, making) {
        Some(other) => !stays_behind(savepoint, other),
        None => false,
    }
}

/// Whether a session stands so in the workspace.
fn stands_behind(
    ground: Ground<'_>,
    space: &Space,
    savepoint: &Savepoint,
    session: &Session,
) -> bool
    ensures { result ≡ stands_behind (outline_by (parts_of ground.entry.image.now) space.now) (saved_fields savepoint.now) session.now }
{
    session.space() == space.number && would_go(ground, space, savepoint, session.stand())
}

/// The first session, in the order of CONNECT, that does.
fn first_behind<'a>(ground: Ground<'a>, space: &Space, savepoint: &Savepoint) -> Option<&'a Session>
    ensures { option_copied result ≡ find (stands_behind (outline_by (parts_of ground.entry.image.now) space.now) (saved_fields savepoint.now)) ground.entry.sessions.now }
{
    for session in ground.sessions {
        if stands_behind(ground, space, savepoint, session) {
            return Some(session);
        }
    }
    None
}

/// Whether nothing came behind a savepoint: neither a change nor another savepoint nor a mark nor a lock.
fn is_still(ground: Ground<'_>, space: &Space, savepoint: &Savepoint) -> bool
    ensures { result ≡ is_still (outline_on ground.entry) (outline_by (parts_of ground.entry.image.now) space.now) (saved_fields savepoint.now) }
{
    space.log_length <= savepoint.log_length
        && all_stay_behind(ground.image, space, savepoint)
        && !is_marked_since(ground.image, savepoint.place, space)
        && are_before(ground.image, savepoint.place, space.number)
}

/// What a rollback to a savepoint is refused for, whether or not anything came behind it: a session stands at a later
/// one, a child, or a mark or a decision of a resolve of one, took of the workspace what came behind it, the workspace
/// was rebased since, or a resolve of it is open.
fn rolling_fault(
    alloc: Global,
    ground: Ground<'_>,
    space: &Space,
    savepoint: &Savepoint,
) -> Result<Option<Refusal>, Memory>
    ensures { IfOk result (λ fault. option_or fault (if is_still (outline_on ground.entry) (outline_by (parts_of ground.entry.image.now) space.now) (saved_fields savepoint.now) then None else spent (outline_on ground.entry)) ≡ first_fault (rolling_faults (outline_on ground.entry) (outline_by (parts_of ground.entry.image.now) space.now) (saved_fields savepoint.now))) }
{
    if let Some(session) = first_behind(ground, space, savepoint) {
        return inside_refusal(alloc, space, session);
    }
    if let Some(child) = first_dependent(ground, space, savepoint) {
        return Ok(dependent_child(child.name.copy(alloc)?).into_refusal());
    }
    if savepoint.rebases != space.rebases {
        return Ok(rebased_since(savepoint.name.copy(alloc)?).into_refusal());
    }
    ground.resolve_refusal(alloc, space)
}

// ---- what is done

/// A workspace goes back to a savepoint of it. Where nothing came behind the savepoint nothing changes.
fn roll(
    alloc: Global,
    ground: Ground<'_>,
    space: &Space,
    savepoint: &Savepoint,
) -> Result<Planned, Memory>
    ensures { IfOk result (λ p. outcome_view p ≡ outcome (rolling (outline_on ground.entry) (outline_by (parts_of ground.entry.image.now) space.now) (saved_fields savepoint.now))) }
{
    if let Some(refusal) = rolling_fault(alloc, ground, space, savepoint)? {
        return Ok(refused(alloc, refusal));
    }
    if is_still(ground, space, savepoint) {
        return Ok(answered(alloc, Answer::Fine));
    }
    if let Some(ended) = ground.spent_refusal(alloc)? {
        return Ok(refused(alloc, ended));
    }
    let edit = Edit::Restore {
        space: space.number,
        making: savepoint.making,
    };
    done(alloc, edit)
}

/// The workspace of a name goes back to its savepoint of a name.
fn roll_named(
    alloc: Global,
    ground: Ground<'_>,
    workspace: &[u8],
    name: &[u8],
) -> Result<Planned, Memory>
    ensures { IfOk result (λ p. outcome_view p ≡ outcome (for_named (no_workspace workspace.now) (λ x. for_savepoint (no_savepoint name.now) (rolling (outline_on ground.entry) x) (savepoint_called name.now x)) (space_named workspace.now (outline_on ground.entry)))) }
{
    let Some(space) = ground.space_named(workspace) else {
        return Ok(answered(alloc, no_workspace(Name::copy_of(alloc, workspace)?)));
    };
    match ground.savepoint_called(space, name) {
        Some(savepoint) => roll(alloc, ground, space, savepoint),
        None => Ok(answered(alloc, no_savepoint(Name::copy_of(alloc, name)?))),
    }
}

/// RollbackToSP takes a workspace back to one of its savepoints.
pub fn rollback_plan(alloc: Global, ground: Ground<'_>, args: &[Arg]) -> Result<Planned, Memory>
    ensures { IfOk result (λ p. outcome_view p ≡ outcome (rollback_plan args.now (outline_on ground.entry))) }
{
    let fault = fault_of(alloc, Procedure::RollbackToSp, args)?;
    let Some(savepoint) = text_given(Procedure::RollbackToSp, args, Parameter::SavepointName) else {
        return Ok(lacking(alloc, fault));
    };
    let name = savepoint.as_bytes();
    if is_latest(name) {
        return Ok(answered(alloc, reserved_name(Name::copy_of(alloc, name)?)));
    }
    if let Some(parameter) = fault {
        return Ok(answered(alloc, mistyped(parameter)));
    }
    let workspace = bytes_given(Procedure::RollbackToSp, args, Parameter::Workspace, b"");
    roll_named(alloc, ground, workspace, name)
}
