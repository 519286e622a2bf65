//! BeginResolve and RollbackResolve.

ghost use Rattle.std.specs.Prelude.{◌≡◌, ◌==◌, ◌∷◌, [], not, IfOk};
ghost use Rattle.wm_graph.specs.Parts.{parts_of};
ghost use Rattle.wm_ground.specs.Grounds.{outline_on};
ghost use Rattle.wm_ground.specs.Outcomes.{outcome_view};
ghost use Rattle.wm_model.specs.Step.Sessions as settings;
ghost use Rattle.wm_model.specs.Step.{begin_resolve_plan, first_fault, for_named, has_open, no_parent, no_resolve, no_workspace, outcome, refused_if, resolve_fault, rollback_resolve_plan, setting, space_named, unopened_fault};
ghost use Rattle.wm_outline.specs.Outline.{outline_by};

use std::alloc::Global;
use wm_base::{Memory, Name, Refusal};
use wm_grammar::{Parameter, Procedure};
use wm_ground::ground::Ground;
use wm_ground::outcome::{answered, refused, setting};
use wm_plan::given::{bytes_given, fault_of};
use wm_plan::planned::Planned;
use wm_plan::refuse::{mistyped, no_parent, no_resolve, no_workspace};
use wm_plan::resolving::resolves;
use wm_plan::session::{Session, Setting};
use wm_spec::record::Space;
use wm_syntax::statement::Arg;

/// Whether a session has a resolve of a workspace open, which none has of LIVE.
pub fn has_open(session: &Session, space: &Space) -> bool
    ensures { result ≡ has_open space.now.number session.now }
{
    space.number > 0 && resolves(session, space.number)
}

// ---- BeginResolve

/// What is refused of a workspace that is there, in the order of the rows.
fn beginning_fault(
    alloc: Global,
    ground: Ground<'_>,
    name: &[u8],
    space: &Space,
) -> Result<Option<Refusal>, Memory>
    ensures { IfOk result (λ fault. fault ≡ first_fault (refused_if (space.now.number == 0) (no_parent name.now) ∷ resolve_fault (outline_on ground.entry) (outline_by (parts_of ground.entry.image.now) space.now) ∷ [])) }
{
    if space.number == 0 {
        return Ok(no_parent(Name::copy_of(alloc, name)?).into_refusal());
    }
    ground.resolve_refusal(alloc, space)
}

/// A resolve of a workspace that is there is opened.
fn begin(
    alloc: Global,
    ground: Ground<'_>,
    session: &Session,
    name: &[u8],
    space: &Space,
) -> Result<Planned, Memory>
    ensures { IfOk result (λ p. outcome_view p ≡ outcome (setting (refused_if (space.now.number == 0) (no_parent name.now) ∷ resolve_fault (outline_on ground.entry) (outline_by (parts_of ground.entry.image.now) space.now) ∷ []) session.now (settings.Begin space.now.number))) }
{
    match beginning_fault(alloc, ground, name, space)? {
        Some(refusal) => Ok(refused(alloc, refusal)),
        None => setting(alloc, session, Setting::Begin(space.number)),
    }
}

/// A resolve of the workspace of a name is opened.
fn begin_named(
    alloc: Global,
    ground: Ground<'_>,
    session: &Session,
    name: &[u8],
) -> Result<Planned, Memory>
    ensures { IfOk result (λ p. outcome_view p ≡ outcome (for_named (no_workspace name.now) (λ x. setting (refused_if (x.number == 0) (no_parent name.now) ∷ resolve_fault (outline_on ground.entry) x ∷ []) session.now (settings.Begin x.number)) (space_named name.now (outline_on ground.entry)))) }
{
    match ground.space_named(name) {
        Some(space) => begin(alloc, ground, session, name, space),
        None => Ok(answered(alloc, no_workspace(Name::copy_of(alloc, name)?))),
    }
}

/// BeginResolve opens a resolve of a workspace, which is not LIVE, for the session.
pub fn begin_resolve_plan(
    alloc: Global,
    ground: Ground<'_>,
    session: &Session,
    args: &[Arg],
) -> Result<Planned, Memory>
    ensures { IfOk result (λ p. outcome_view p ≡ outcome (begin_resolve_plan session.now args.now (outline_on ground.entry))) }
{
    if let Some(parameter) = fault_of(alloc, Procedure::BeginResolve, args)? {
        return Ok(answered(alloc, mistyped(parameter)));
    }
    let name = bytes_given(Procedure::BeginResolve, args, Parameter::Workspace, b"");
    begin_named(alloc, ground, session, name)
}

// ---- RollbackResolve

/// A resolve of a workspace that is there is closed.
fn close(alloc: Global, session: &Session, space: &Space) -> Result<Planned, Memory>
    ensures { IfOk result (λ p. outcome_view p ≡ outcome (setting (refused_if (not (has_open space.now.number session.now)) (no_resolve space.now.name) ∷ []) session.now settings.End)) }
{
    if !has_open(session, space) {
        return Ok(answered(alloc, no_resolve(space.name.copy(alloc)?)));
    }
    setting(alloc, session, Setting::End)
}

/// A resolve of the workspace of a name is closed.
fn close_named(
    alloc: Global,
    ground: Ground<'_>,
    session: &Session,
    name: &[u8],
) -> Result<Planned, Memory>
    ensures { IfOk result (λ p. outcome_view p ≡ outcome (for_named (no_workspace name.now) (λ x. setting (unopened_fault session.now x ∷ []) session.now settings.End) (space_named name.now (outline_on ground.entry)))) }
{
    match ground.space_named(name) {
        Some(space) => close(alloc, session, space),
        None => Ok(answered(alloc, no_workspace(Name::copy_of(alloc, name)?))),
    }
}

/// RollbackResolve closes the resolve of a workspace that the session has open.
pub fn rollback_resolve_plan(
    alloc: Global,
    ground: Ground<'_>,
    session: &Session,
    args: &[Arg],
) -> Result<Planned, Memory>
    ensures { IfOk result (λ p. outcome_view p ≡ outcome (rollback_resolve_plan session.now args.now (outline_on ground.entry))) }
{
    if let Some(parameter) = fault_of(alloc, Procedure::RollbackResolve, args)? {
        return Ok(answered(alloc, mistyped(parameter)));
    }
    let name = bytes_given(Procedure::RollbackResolve, args, Parameter::Workspace, b"");
    close_named(alloc, ground, session, name)
}
