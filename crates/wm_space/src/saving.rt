//! CreateSavepoint.
ghost use Rattle.std.specs.Prelude.{◌≡◌, ◌+◌, is_some, length, nat_le, nat_lt, IfOk};
ghost use Rattle.wm_graph.specs.Parts.{parts_of};
ghost use Rattle.wm_ground.specs.Grounds.{outline_on};
ghost use Rattle.wm_ground.specs.Outcomes.{outcome_view};
ghost use Rattle.wm_model.specs.Step.{create_savepoint_plan, first_fault, for_named, no_workspace, number_limit, outcome, savepoint_called, saving, saving_faults, space_named};
ghost use Rattle.wm_outline.specs.Outline.{outline_by};

use crate::naming::naming_fault;
use std::alloc::Global;
use wm_base::{Memory, Name, Refusal};
use wm_calls::text_given;
use wm_grammar::{Parameter, Procedure};
use wm_ground::ground::Ground;
use wm_ground::outcome::{answered, done, refused};
use wm_plan::given::{bytes_given, fault_of, lacking};
use wm_plan::names::names_no_savepoint;
use wm_plan::planned::Planned;
use wm_plan::refuse::{at_its_end, most_savepoints, no_workspace, savepoint_there};
use wm_spec::record::Space;
use wm_state::edit::Edit;
use wm_syntax::statement::Arg;

/// The most savepoints of a workspace.
pub const SAVEPOINT_LIMIT: usize = 4_096;

/// Whether a number has no next.
pub fn is_last(number: u32) -> bool
    ensures { result ≡ nat_lt number_limit (number + 1) }
{
    number == u32::MAX
}

/// Whether a workspace has a savepoint of this name.
pub fn has_savepoint(ground: Ground<'_>, space: &Space, name: &Name) -> bool
    ensures { result ≡ is_some (savepoint_called name.now (outline_by (parts_of ground.entry.image.now) space.now)) }
{
    ground.savepoint_called(space, name.as_bytes()).is_some()
}

/// Whether a workspace has no room for another savepoint.
pub fn is_full(ground: Ground<'_>, space: &Space) -> bool
    ensures { result ≡ nat_le 4096 (length (outline_by (parts_of ground.entry.image.now) space.now).savepoints) }
{
    ground.savepoint_count(space) >= SAVEPOINT_LIMIT
}

/// What a savepoint of a name is refused for in a workspace, in the order of the rows.
fn saving_fault(
    alloc: Global,
    ground: Ground<'_>,
    space: &Space,
    name: &Name,
) -> Result<Option<Refusal>, Memory>
    ensures { IfOk result (λ fault. fault ≡ first_fault (saving_faults name.now (outline_on ground.entry) (outline_by (parts_of ground.entry.image.now) space.now))) }
{
    if has_savepoint(ground, space, name) {
        return Ok(savepoint_there(name.copy(alloc)?).into_refusal());
    }
    if is_full(ground, space) {
        return Ok(most_savepoints().into_refusal());
    }
    if is_last(space.next_place) {
        return Ok(at_its_end(alloc, b"PLACE")?.into_refusal());
    }
    ground.spent_refusal(alloc)
}

/// Keeps what is newest in a workspace under a name.
fn save(alloc: Global, ground: Ground<'_>, space: &Space, name: &Name) -> Result<Planned, Memory>
    ensures { IfOk result (λ p. outcome_view p ≡ outcome (saving name.now (outline_on ground.entry) (outline_by (parts_of ground.entry.image.now) space.now))) }
{
    match saving_fault(alloc, ground, space, name)? {
        Some(refusal) => Ok(refused(alloc, refusal)),
        None => {
            let name = name.copy(alloc)?;
            let space = space.number;
            done(alloc, Edit::Save { space, name })
        }
    }
}

/// The same in the workspace of a name.
fn save_named(
    alloc: Global,
    ground: Ground<'_>,
    workspace: &[u8],
    name: &Name,
) -> Result<Planned, Memory>
    ensures { IfOk result (λ p. outcome_view p ≡ outcome (for_named (no_workspace workspace.now) (saving name.now (outline_on ground.entry)) (space_named workspace.now (outline_on ground.entry)))) }
{
    match ground.space_named(workspace) {
        Some(space) => save(alloc, ground, space, name),
        None => Ok(answered(alloc, no_workspace(Name::copy_of(alloc, workspace)?))),
    }
}

/// CreateSavepoint keeps what is newest in a workspace under a name.
pub fn create_savepoint_plan(
    alloc: Global,
    ground: Ground<'_>,
    args: &[Arg],
) -> Result<Planned, Memory>
    ensures { IfOk result (λ p. outcome_view p ≡ outcome (create_savepoint_plan args.now (outline_on ground.entry))) }
{
    let call = Procedure::CreateSavepoint;
    let Some(name) = text_given(call, args, Parameter::SavepointName) else {
        return Ok(lacking(alloc, fault_of(alloc, call, args)?));
    };
    let is_reserved = names_no_savepoint(name.as_bytes());
    if let Some(refusal) = naming_fault(alloc, call, args, name, is_reserved)? {
        return Ok(refused(alloc, refusal));
    }
    let workspace = bytes_given(call, args, Parameter::Workspace, b"");
    save_named(alloc, ground, workspace, name)
}
