//! SetDiffVersions.
ghost use Rattle.std.specs.Prelude.{◌≡◌, [], IfOk};
ghost use Rattle.std.specs.Option.{option_copied};
ghost use Rattle.wm_ground.specs.Grounds.{outline_on};
ghost use Rattle.wm_ground.specs.Outcomes.{outcome_view};
ghost use Rattle.wm_model.specs.Planning.{Set};
ghost use Rattle.wm_model.specs.Step.Sessions as settings;
ghost use Rattle.wm_model.specs.Step.{difference_given, outcome, savepoint_meant, set_difference_plan, viewpoint_given};
ghost use Rattle.wm_print.specs.Texts.{Fine};

use std::alloc::Global;
use wm_base::{Memory, Name};
use wm_calls::{count_asked, text_given};
use wm_decided::viewpoint::{Difference, Viewpoint};
use wm_grammar::{Parameter, Procedure};
use wm_ground::ground::Ground;
use wm_ground::outcome::{answered, seated};
use wm_plan::given::{bytes_given, fault_of};
use wm_plan::names::is_latest;
use wm_plan::planned::Planned;
use wm_plan::refuse::{miscounted, mistyped, no_savepoint, no_workspace};
use wm_plan::seating::Seating;
use wm_plan::session::{Session, Setting};
use wm_syntax::statement::Arg;

/// The savepoint that is meant by what is given: LATEST is what is newest.
fn savepoint_meant(alloc: Global, given: Option<&Name>) -> Result<Option<Name>, Memory>
    ensures { IfOk result (λ name. name ≡ savepoint_meant (option_copied given.entry)) }
{
    let Some(name) = given else {
        return Ok(None);
    };
    if is_latest(name.as_bytes()) {
        return Ok(None);
    }
    Ok(Some(name.copy(alloc)?))
}

/// The point that is given by two parameters.
fn viewpoint_given(
    alloc: Global,
    args: &[Arg],
    workspace: Parameter,
    savepoint: Parameter,
) -> Result<Viewpoint, Memory>
    ensures { IfOk result (λ point. point ≡ viewpoint_given args.now workspace savepoint) }
{
    let name = bytes_given(Procedure::SetDiffVersions, args, workspace, b"");
    let given = text_given(Procedure::SetDiffVersions, args, savepoint);
    Ok(Viewpoint {
        workspace: Name::copy_of(alloc, name)?,
        savepoint: savepoint_meant(alloc, given)?,
    })
}

/// The two points that are given.
fn difference_given(alloc: Global, args: &[Arg]) -> Result<Difference, Memory>
    ensures { IfOk result (λ points. points ≡ difference_given args.now) }
{
    let first = viewpoint_given(alloc, args, Parameter::Workspace1, Parameter::Savepoint1)?;
    let second = viewpoint_given(alloc, args, Parameter::Workspace2, Parameter::Savepoint2)?;
    Ok(Difference { first, second })
}

/// The session compares two points.
fn compare(alloc: Global, session: &Session, points: Difference) -> Result<Planned, Memory>
    ensures { IfOk result (λ p. outcome_view p ≡ record { edits = []; seating = Set session.now.name (settings.Compare points); answer = Fine }) }
{
    let name = session.name().copy(alloc)?;
    let setting = Setting::Compare(points);
    Ok(seated(alloc, Seating::Set { name, setting }))
}

/// SetDiffVersions has the session compare two points.
pub fn set_difference(
    alloc: Global,
    ground: Ground<'_>,
    session: &Session,
    args: &[Arg],
) -> Result<Planned, Memory>
    ensures { IfOk result (λ p. outcome_view p ≡ outcome (set_difference_plan session.now args.now (outline_on ground.entry))) }
{
    if let Some(count) = count_asked(args.len()) {
        return Ok(answered(alloc, miscounted(count)));
    }
    if let Some(parameter) = fault_of(alloc, Procedure::SetDiffVersions, args)? {
        return Ok(answered(alloc, mistyped(parameter)));
    }
    let points = difference_given(alloc, args)?;
    if let Some(name) = ground.lost_workspaces(&points) {
        return Ok(answered(alloc, no_workspace(name.copy(alloc)?)));
    }
    if let Some(name) = ground.lost_savepoints(&points) {
        return Ok(answered(alloc, no_savepoint(name.copy(alloc)?)));
    }
    compare(alloc, session, points)
}
