//! RemoveWorkspace.
ghost use Rattle.std.specs.Prelude.{◌≡◌, IfOk};
ghost use Rattle.std.specs.Option.{option_copied};
ghost use Rattle.std.specs.List.{find};
ghost use Rattle.wm_graph.specs.Parts.{parts_of};
ghost use Rattle.wm_ground.specs.Grounds.{outline_on};
ghost use Rattle.wm_ground.specs.Outcomes.{outcome_view};
ghost use Rattle.wm_model.specs.Step.{first_fault, for_named, no_workspace, outcome, refusal_of, remove_plan, removing, removing_faults, session_inside, space_named, stands_in};
ghost use Rattle.wm_outline.specs.Outline.{outline_by};

use std::alloc::Global;
use wm_base::{Memory, Name, Refusal};
use wm_grammar::{Parameter, Procedure};
use wm_ground::ground::Ground;
use wm_ground::outcome::{answered, done_seated, refused};
use wm_plan::given::{bytes_given, fault_of};
use wm_plan::planned::Planned;
use wm_plan::refuse::{has_child, mistyped, no_parent, no_workspace, session_inside};
use wm_plan::seating::Seating;
use wm_plan::session::Session;
use wm_spec::record::Space;
use wm_state::edit::Edit;
use wm_syntax::statement::Arg;

/// The first session, in the order of CONNECT, that stands in a workspace.
pub fn first_inside(sessions: &[Session], space: u32) -> Option<&Session>
    ensures { option_copied result ≡ find (stands_in space) sessions.now }
{
    for session in sessions {
        if session.space() == space {
            return Some(session);
        }
    }
    None
}

/// What a line is refused for where a session stands in a workspace.
pub fn inside_refusal(
    alloc: Global,
    space: &Space,
    session: &Session,
) -> Result<Option<Refusal>, Memory>
    ensures { IfOk result (λ fault. fault ≡ refusal_of (session_inside space.now.name session.now.name)) }
{
    let space = space.name.copy(alloc)?;
    Ok(session_inside(space, session.name().copy(alloc)?).into_refusal())
}

/// What the removal of a workspace is refused for, in the order of the rows.
fn removing_fault(
    alloc: Global,
    ground: Ground<'_>,
    name: &[u8],
    space: &Space,
) -> Result<Option<Refusal>, Memory>
    ensures { IfOk result (λ fault. fault ≡ first_fault (removing_faults name.now (outline_on ground.entry) (outline_by (parts_of ground.entry.image.now) space.now))) }
{
    if space.number == 0 {
        return Ok(no_parent(Name::copy_of(alloc, name)?).into_refusal());
    }
    if let Some(session) = first_inside(ground.sessions, space.number) {
        return inside_refusal(alloc, space, session);
    }
    if let Some(child) = ground.child_of(space.number) {
        let child = has_child(space.name.copy(alloc)?, child.name.copy(alloc)?);
        return Ok(child.into_refusal());
    }
    if let Some(refusal) = ground.resolve_refusal(alloc, space)? {
        return Ok(Some(refusal));
    }
    ground.spent_refusal(alloc)
}

/// The workspace of a name ends.
fn remove(alloc: Global, ground: Ground<'_>, name: &[u8]) -> Result<Planned, Memory>
    ensures { IfOk result (λ p. outcome_view p ≡ outcome (for_named (no_workspace name.now) (removing name.now (outline_on ground.entry)) (space_named name.now (outline_on ground.entry)))) }
{
    let Some(space) = ground.space_named(name) else {
        return Ok(answered(alloc, no_workspace(Name::copy_of(alloc, name)?)));
    };
    match removing_fault(alloc, ground, name, space)? {
        Some(refusal) => Ok(refused(alloc, refusal)),
        None => {
            let edit = Edit::Remove {
                space: space.number,
            };
            done_seated(alloc, edit, Seating::Thaw(space.number))
        }
    }
}

/// RemoveWorkspace ends a workspace, which is not LIVE.
pub fn remove_plan(alloc: Global, ground: Ground<'_>, args: &[Arg]) -> Result<Planned, Memory>
    ensures { IfOk result (λ p. outcome_view p ≡ outcome (remove_plan args.now (outline_on ground.entry))) }
{
    if let Some(parameter) = fault_of(alloc, Procedure::RemoveWorkspace, args)? {
        return Ok(answered(alloc, mistyped(parameter)));
    }
    let name = bytes_given(Procedure::RemoveWorkspace, args, Parameter::Workspace, b"");
    remove(alloc, ground, name)
}
