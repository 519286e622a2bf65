//! UnfreezeWorkspace.
ghost use Rattle.std.specs.Prelude.{◌≡◌, IfOk};
ghost use Rattle.wm_freezing.specs.Freeing.{freeing};
ghost use Rattle.wm_graph.specs.Parts.{parts_of};
ghost use Rattle.wm_ground.specs.Grounds.{outline_on};
ghost use Rattle.wm_ground.specs.Outcomes.{outcome_view};
ghost use Rattle.wm_model.specs.Step.{for_named, no_workspace, outcome, space_named, thawing, unfreeze_plan};
ghost use Rattle.wm_outline.specs.Outline.{outline_by};

use crate::hold::hold_of;
use std::alloc::Global;
use wm_base::{Memory, Name};
use wm_grammar::{Parameter, Procedure};
use wm_ground::ground::Ground;
use wm_ground::outcome::{answered, done, refused, seated};
use wm_guard::access::Hold;
use wm_plan::given::{bytes_given, fault_of};
use wm_plan::planned::Planned;
use wm_plan::refuse::{mistyped, no_workspace, not_frozen};
use wm_plan::seating::Seating;
use wm_spec::record::{FreezeMode, Space};
use wm_state::edit::Edit;
use wm_syntax::statement::Arg;

/// That the record of a workspace says no more that it is frozen.
fn freed(alloc: Global, ground: Ground<'_>, space: u32) -> Result<Planned, Memory>
    ensures { IfOk result (λ p. outcome_view p ≡ outcome (freeing (outline_on ground.entry) space)) }
{
    match ground.spent_refusal(alloc)? {
        Some(refusal) => Ok(refused(alloc, refusal)),
        None => done(
            alloc,
            Edit::Freeze {
                space,
                mode: FreezeMode::Free,
                writer: Name::from_vec(Vec::new(alloc)),
            },
        ),
    }
}

/// That a workspace that is there is let go.
fn unfreeze(alloc: Global, ground: Ground<'_>, space: &Space) -> Result<Planned, Memory>
    ensures { IfOk result (λ p. outcome_view p ≡ outcome (thawing (outline_on ground.entry) (outline_by (parts_of ground.entry.image.now) space.now))) }
{
    match hold_of(ground.sessions, space) {
        Hold::Free => Ok(answered(alloc, not_frozen(space.name.copy(alloc)?))),
        Hold::OneSession(_) => Ok(seated(alloc, Seating::Thaw(space.number))),
        _ => freed(alloc, ground, space.number),
    }
}

/// That the workspace of a name is let go.
fn unfreeze_named(alloc: Global, ground: Ground<'_>, name: &[u8]) -> Result<Planned, Memory>
    ensures { IfOk result (λ p. outcome_view p ≡ outcome (for_named (no_workspace name.now) (thawing (outline_on ground.entry)) (space_named name.now (outline_on ground.entry)))) }
{
    match ground.space_named(name) {
        Some(space) => unfreeze(alloc, ground, space),
        None => Ok(answered(alloc, no_workspace(Name::copy_of(alloc, name)?))),
    }
}

/// UnfreezeWorkspace lets a workspace go again, whoever froze it.
pub fn unfreeze_plan(alloc: Global, ground: Ground<'_>, args: &[Arg]) -> Result<Planned, Memory>
    ensures { IfOk result (λ p. outcome_view p ≡ outcome (unfreeze_plan args.now (outline_on ground.entry))) }
{
    if let Some(parameter) = fault_of(alloc, Procedure::UnfreezeWorkspace, args)? {
        return Ok(answered(alloc, mistyped(parameter)));
    }
    let name = bytes_given(
        Procedure::UnfreezeWorkspace,
        args,
        Parameter::Workspace,
        b"",
    );
    unfreeze_named(alloc, ground, name)
}
