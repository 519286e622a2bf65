//! CreateWorkspace.
ghost use Rattle.std.specs.Prelude.{◌≡◌, is_some, nat_le, nat_lt, IfOk};
ghost use Rattle.wm_graph.specs.Parts.{Parts, parts_of};
ghost use Rattle.wm_ground.specs.Grounds.{outline_on};
ghost use Rattle.wm_ground.specs.Outcomes.{outcome_view};
ghost use Rattle.wm_model.specs.Step.{bearing, bearing_faults, counting_faults, create_workspace_plan, first_fault, for_home, is_dated, making_stood, number_limit, outcome, place_after, space_named, stands_nowhere};
ghost use Rattle.wm_outline.specs.Outline.{outline_by};
ghost use Rattle.wm_plan.specs.Stands.{stand_view};

use crate::naming::naming_fault;
use crate::saving::{has_savepoint, is_full, is_last};
use std::alloc::Global;
use wm_base::{Memory, Name, Refusal};
use wm_calls::text_given;
use wm_changes::names::implicit_name;
use wm_grammar::{Parameter, Procedure};
use wm_ground::ground::Ground;
use wm_ground::outcome::{answered, done, refused};
use wm_plan::given::{fault_of, lacking};
use wm_plan::names::names_no_workspace;
use wm_plan::planned::Planned;
use wm_plan::refuse::{
    at_its_end, most_savepoints, most_workspaces, no_savepoint, no_workspace, not_latest,
    savepoint_there, workspace_there,
};
use wm_plan::session::{Session, Stand};
use wm_spec::record::Space;
use wm_state::edit::Edit;
use wm_syntax::statement::Arg;

/// The most workspaces of a store.
const SPACE_LIMIT: usize = 1_024;

// ---- where one stands

/// The making of the savepoint at which one stands.
fn making_stood(stand: Stand) -> Option<u64>
    ensures { result ≡ making_stood (stand_view stand) }
{
    match stand {
        Stand::At(making) => Some(making),
        Stand::Latest | Stand::Dated(_) => None,
    }
}

/// Whether one stands on a date.
fn is_dated(stand: Stand) -> bool
    ensures { result ≡ is_dated (stand_view stand) }
{
    matches!(stand, Stand::Dated(_))
}

/// Whether one stands in a workspace at a savepoint that is not there.
fn stands_nowhere(ground: Ground<'_>, space: &Space, stand: Stand) -> bool
    ensures { result ≡ stands_nowhere (outline_by (parts_of ground.entry.image.now) space.now) (stand_view stand) }
{
    match stand {
        Stand::At(making) => ground.savepoint_at(space, making).is_none(),
        Stand::Latest | Stand::Dated(_) => false,
    }
}

// ---- what is wrong

/// Whether a workspace has no place left behind a savepoint that is made where one stands.
fn is_placeless(space: &Space, stand: Stand) -> bool
    ensures { (p : Parts) → result ≡ nat_lt number_limit (place_after (outline_by p space.now) (stand_view stand)) }
{
    let next = space.next_place;
    match stand {
        Stand::Latest => is_last(next),
        Stand::At(_) | Stand::Dated(_) => false,
    }
}

/// Whether no number is left for another workspace.
fn is_numberless(ground: Ground<'_>) -> bool
    ensures { result ≡ nat_lt number_limit (outline_on ground.entry).next_space }
{
    ground.next_space() > u64::from(u32::MAX)
}

/// Whether the store has no room for another workspace.
fn has_most(ground: Ground<'_>) -> bool
    ensures { result ≡ nat_le 1024 (outline_on ground.entry).space_count }
{
    ground.space_count() >= SPACE_LIMIT
}

/// Whether a workspace has this name.
fn is_taken(ground: Ground<'_>, name: &Name) -> bool
    ensures { result ≡ is_some (space_named name.now (outline_on ground.entry)) }
{
    ground.space_named(name.as_bytes()).is_some()
}

/// What a birth in a workspace is refused for since a counter is at its end.
fn counting_fault(
    alloc: Global,
    ground: Ground<'_>,
    space: &Space,
    stand: Stand,
) -> Result<Option<Refusal>, Memory>
    ensures { IfOk result (λ fault. fault ≡ first_fault (counting_faults (stand_view stand) (outline_on ground.entry) (outline_by (parts_of ground.entry.image.now) space.now))) }
{
    if is_placeless(space, stand) {
        return Ok(at_its_end(alloc, b"PLACE")?.into_refusal());
    }
    if is_last(space.next_implicit) {
        return Ok(at_its_end(alloc, b"ICP")?.into_refusal());
    }
    if is_numberless(ground) {
        return Ok(at_its_end(alloc, b"WORKSPACE")?.into_refusal());
    }
    ground.spent_refusal(alloc)
}

/// What it is refused for, in the order of the rows.
fn bearing_fault(
    alloc: Global,
    ground: Ground<'_>,
    space: &Space,
    stand: Stand,
    name: &Name,
) -> Result<Option<Refusal>, Memory>
    ensures { IfOk result (λ fault. fault ≡ first_fault (bearing_faults (stand_view stand) name.now (outline_on ground.entry) (outline_by (parts_of ground.entry.image.now) space.now))) }
{
    if is_taken(ground, name) {
        return Ok(workspace_there(name.copy(alloc)?).into_refusal());
    }
    if stands_nowhere(ground, space, stand) {
        // No line leads there, and such a savepoint has no name.
        return Ok(no_savepoint(Name::from_vec(Vec::new(alloc))).into_refusal());
    }
    let implicit = implicit_name(alloc, space.next_implicit)?;
    if has_savepoint(ground, space, &implicit) {
        return Ok(savepoint_there(implicit).into_refusal());
    }
    if is_dated(stand) {
        return Ok(not_latest().into_refusal());
    }
    if has_most(ground) {
        return Ok(most_workspaces().into_refusal());
    }
    if is_full(ground, space) {
        return Ok(most_savepoints().into_refusal());
    }
    counting_fault(alloc, ground, space, stand)
}

// ---- what is done

/// A workspace is born where a session stands in another.
fn bear(
    alloc: Global,
    ground: Ground<'_>,
    session: &Session,
    space: &Space,
    name: &Name,
) -> Result<Planned, Memory>
    ensures { IfOk result (λ p. outcome_view p ≡ outcome (bearing session.now name.now (outline_on ground.entry) (outline_by (parts_of ground.entry.image.now) space.now))) }
{
    let stand = session.stand();
    match bearing_fault(alloc, ground, space, stand, name)? {
        Some(refusal) => Ok(refused(alloc, refusal)),
        None => {
            let parent = space.number;
            let at = making_stood(stand);
            let name = name.copy(alloc)?;
            done(alloc, Edit::Bear { parent, at, name })
        }
    }
}

/// The same in the session's workspace, which is there in each state that lines lead to.
fn bear_at_home(
    alloc: Global,
    ground: Ground<'_>,
    session: &Session,
    name: &Name,
) -> Result<Planned, Memory>
    ensures { IfOk result (λ p. outcome_view p ≡ outcome (for_home (bearing session.now name.now (outline_on ground.entry)) session.now (outline_on ground.entry))) }
{
    match ground.space_numbered(session.space()) {
        Some(space) => bear(alloc, ground, session, space, name),
        None => Ok(answered(alloc, no_workspace(Name::from_vec(Vec::new(alloc))))),
    }
}

/// CreateWorkspace makes a child of the session's workspace.
pub fn create_workspace_plan(
    alloc: Global,
    ground: Ground<'_>,
    session: &Session,
    args: &[Arg],
) -> Result<Planned, Memory>
    ensures { IfOk result (λ p. outcome_view p ≡ outcome (create_workspace_plan session.now args.now (outline_on ground.entry))) }
{
    let call = Procedure::CreateWorkspace;
    let Some(name) = text_given(call, args, Parameter::Workspace) else {
        return Ok(lacking(alloc, fault_of(alloc, call, args)?));
    };
    let is_reserved = names_no_workspace(name.as_bytes());
    if let Some(refusal) = naming_fault(alloc, call, args, name, is_reserved)? {
        return Ok(refused(alloc, refusal));
    }
    bear_at_home(alloc, ground, session, name)
}
