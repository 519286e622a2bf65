//! GotoWorkspace, GotoSavepoint and GotoDate.
ghost use Rattle.std.specs.Prelude.{◌≡◌, [], IfOk};
ghost use Rattle.std.specs.Option.{option_and_then};
ghost use Rattle.wm_graph.specs.Parts.{Parts as PartsOf, parts_of};
ghost use Rattle.wm_ground.specs.Grounds.{outline_on};
ghost use Rattle.wm_ground.specs.Outcomes.{outcome_view};
ghost use Rattle.wm_model.specs.Step.Sessions as settings;
ghost use Rattle.wm_model.specs.Step.{early_fault, for_home, for_named, for_savepoint, goto_date_plan, goto_savepoint_plan, goto_workspace_plan, no_savepoint, no_workspace, outcome, savepoint_called, setting, space_named, space_numbered, standing};
ghost use Rattle.wm_outline.specs.Outline.{outline_by};
ghost use Rattle.wm_plan.specs.Stands.{stand_view};
ghost use Rattle.wm_state.specs.State.{At, Latest};

use std::alloc::Global;
use wm_base::{Instant, Memory, Name, Refusal};
use wm_calls::moment_given;
use wm_grammar::{Parameter, Procedure};
use wm_ground::ground::Ground;
use wm_ground::outcome::{answered, refused, seated, setting};
use wm_plan::given::{bytes_given, fault_of};
use wm_plan::names::is_latest;
use wm_plan::planned::Planned;
use wm_plan::refuse::{date_before, mistyped, no_savepoint, no_workspace};
use wm_plan::seating::Seating;
use wm_plan::session::{Session, Setting, Stand};
use wm_spec::record::Space;
use wm_syntax::statement::Arg;

/// Stands a session so in its workspace.
fn stand(alloc: Global, session: &Session, stand: Stand) -> Result<Planned, Memory>
    ensures { IfOk result (λ p. outcome_view p ≡ outcome (standing session.now (stand_view stand))) }
{
    let space = session.space();
    setting(alloc, session, Setting::Stand { space, stand })
}

/// Stands a session in the workspace of a name, at what is newest.
fn enter(
    alloc: Global,
    ground: Ground<'_>,
    session: &Session,
    name: &[u8],
) -> Result<Planned, Memory>
    ensures { IfOk result (λ p. outcome_view p ≡ outcome (for_named (no_workspace name.now) (λ x. setting [] session.now (settings.Stand x.number Latest)) (space_named name.now (outline_on ground.entry)))) }
{
    match ground.space_named(name) {
        Some(space) => setting(
            alloc,
            session,
            Setting::Stand {
                space: space.number,
                stand: Stand::Latest,
            },
        ),
        None => Ok(answered(alloc, no_workspace(Name::copy_of(alloc, name)?))),
    }
}

/// GotoWorkspace stands the session in a workspace, at what is newest.
pub fn goto_workspace_plan(
    alloc: Global,
    ground: Ground<'_>,
    session: &Session,
    args: &[Arg],
) -> Result<Planned, Memory>
    ensures { IfOk result (λ p. outcome_view p ≡ outcome (goto_workspace_plan session.now args.now (outline_on ground.entry))) }
{
    if let Some(parameter) = fault_of(alloc, Procedure::GotoWorkspace, args)? {
        return Ok(answered(alloc, mistyped(parameter)));
    }
    let name = bytes_given(Procedure::GotoWorkspace, args, Parameter::Workspace, b"");
    enter(alloc, ground, session, name)
}

/// Stands a session at the savepoint of a name, in a workspace that is its own.
fn stand_saved(
    alloc: Global,
    ground: Ground<'_>,
    session: &Session,
    space: &Space,
    name: &[u8],
) -> Result<Planned, Memory>
    ensures { IfOk result (λ p. outcome_view p ≡ outcome (for_savepoint (no_savepoint name.now) (λ k. standing session.now (At k.making)) (savepoint_called name.now (outline_by (parts_of ground.entry.image.now) space.now)))) }
{
    match ground.savepoint_called(space, name) {
        Some(savepoint) => stand(alloc, session, Stand::At(savepoint.making)),
        None => Ok(answered(alloc, no_savepoint(Name::copy_of(alloc, name)?))),
    }
}

/// Stands a session at the savepoint of a name in its workspace.
fn stand_home(
    alloc: Global,
    ground: Ground<'_>,
    session: &Session,
    name: &[u8],
) -> Result<Planned, Memory>
    ensures { IfOk result (λ p. outcome_view p ≡ outcome (for_home (λ x. for_savepoint (no_savepoint name.now) (λ k. standing session.now (At k.making)) (savepoint_called name.now x)) session.now (outline_on ground.entry))) }
{
    match ground.space_numbered(session.space()) {
        Some(space) => stand_saved(alloc, ground, session, space, name),
        // No line leads there.
        None => Ok(answered(alloc, no_workspace(Name::from_vec(Vec::new(alloc))))),
    }
}

/// GotoSavepoint stands the session at a savepoint of its workspace, or at what is newest.
pub fn goto_savepoint_plan(
    alloc: Global,
    ground: Ground<'_>,
    session: &Session,
    args: &[Arg],
) -> Result<Planned, Memory>
    ensures { IfOk result (λ p. outcome_view p ≡ outcome (goto_savepoint_plan session.now args.now (outline_on ground.entry))) }
{
    if let Some(parameter) = fault_of(alloc, Procedure::GotoSavepoint, args)? {
        return Ok(answered(alloc, mistyped(parameter)));
    }
    let name = bytes_given(
        Procedure::GotoSavepoint,
        args,
        Parameter::SavepointName,
        b"LATEST",
    );
    if is_latest(name) {
        return stand(alloc, session, Stand::Latest);
    }
    stand_home(alloc, ground, session, name)
}

/// What a date is refused for in a workspace: it is before its birth. No line is run behind the end of time.
fn early_fault(alloc: Global, date: u64, space: &Space) -> Result<Option<Refusal>, Memory>
    ensures { (p : PartsOf) → IfOk result (λ fault. fault ≡ early_fault date (outline_by p space.now)) }
{
    if date >= space.born {
        return Ok(None);
    }
    let birth = Instant::new(space.born).unwrap_or(Instant::end());
    Ok(date_before(space.name.copy(alloc)?, birth).into_refusal())
}

/// The same in the workspace of a number.
fn date_fault(
    alloc: Global,
    ground: Ground<'_>,
    date: u64,
    space: u32,
) -> Result<Option<Refusal>, Memory>
    ensures { IfOk result (λ fault. fault ≡ option_and_then (early_fault date) (space_numbered space (outline_on ground.entry))) }
{
    match ground.space_numbered(space) {
        Some(space) => early_fault(alloc, date, space),
        None => Ok(None),
    }
}

/// GotoDate stands the session on a date in its workspace.
pub fn goto_date(
    alloc: Global,
    ground: Ground<'_>,
    session: &Session,
    args: &[Arg],
) -> Result<Planned, Memory>
    ensures { IfOk result (λ p. outcome_view p ≡ outcome (goto_date_plan session.now args.now (outline_on ground.entry))) }
{
    if let Some(parameter) = fault_of(alloc, Procedure::GotoDate, args)? {
        return Ok(answered(alloc, mistyped(parameter)));
    }
    let space = session.space();
    let given = moment_given(Procedure::GotoDate, args, Parameter::InDate);
    let date = given.unwrap_or(Instant::beginning()).seconds();
    if let Some(refusal) = date_fault(alloc, ground, date, space)? {
        return Ok(refused(alloc, refusal));
    }
    let name = session.name().copy(alloc)?;
    let stand = Stand::Dated(date);
    let setting = Setting::Stand { space, stand };
    Ok(seated(alloc, Seating::Set { name, setting }))
}
