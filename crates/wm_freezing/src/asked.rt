//! What lines ask of the workspaces that they are about: whether freezing allows it.
ghost use Rattle.std.specs.Prelude.{◌≡◌, IfOk};
ghost use Rattle.wm_graph.specs.Parts.{parts_of};
ghost use Rattle.wm_ground.specs.Grounds.{outline_on};
ghost use Rattle.wm_model.specs.Step.{asked_fault, asks_call, family_fault, frozen_fault, hold_fault, named_fault, numbered_fault, workspace_given};
ghost use Rattle.wm_outline.specs.Outline.{outline_by};
ghost use Rattle.wm_syntax.specs.Views.{statement_view};

use crate::hold::hold_of;
use std::alloc::Global;
use wm_base::{Memory, Name, Refusal};
use wm_grammar::{Parameter, Procedure, procedure_of};
use wm_ground::ground::Ground;
use wm_guard::access::Class;
use wm_plan::given::bytes_given;
use wm_plan::refuse::frozen;
use wm_plan::session::Session;
use wm_spec::record::Space;
use wm_syntax::statement::{Arg, Statement};

/// What a session is refused for that does so in a workspace.
fn hold_fault(
    alloc: Global,
    ground: Ground<'_>,
    class: Class,
    session: &Session,
    space: &Space,
) -> Result<Option<Refusal>, Memory>
    ensures { IfOk result (λ fault. fault ≡ hold_fault class session.now (outline_on ground.entry) (outline_by (parts_of ground.entry.image.now) space.now)) }
{
    let hold = hold_of(ground.sessions, space);
    if hold.allows(class, session.user(), session.name()) {
        return Ok(None);
    }
    let word = Name::copy_of(alloc, hold.word())?;
    Ok(frozen(space.name.copy(alloc)?, word).into_refusal())
}

/// The same of the workspace of a number; where it is not there another refusal is told.
fn numbered_fault(
    alloc: Global,
    ground: Ground<'_>,
    class: Class,
    session: &Session,
    number: u32,
) -> Result<Option<Refusal>, Memory>
    ensures { IfOk result (λ fault. fault ≡ numbered_fault class session.now (outline_on ground.entry) number) }
{
    match ground.space_numbered(number) {
        Some(space) => hold_fault(alloc, ground, class, session, space),
        None => Ok(None),
    }
}

/// The same of the workspace of a name.
fn named_fault(
    alloc: Global,
    ground: Ground<'_>,
    class: Class,
    session: &Session,
    name: &[u8],
) -> Result<Option<Refusal>, Memory>
    ensures { IfOk result (λ fault. fault ≡ named_fault class session.now (outline_on ground.entry) name.now) }
{
    match ground.space_named(name) {
        Some(space) => hold_fault(alloc, ground, class, session, space),
        None => Ok(None),
    }
}

/// What a session is refused for that does so in a workspace and in its parent: the workspace comes first.
fn family_fault(
    alloc: Global,
    ground: Ground<'_>,
    class: Class,
    session: &Session,
    space: &Space,
) -> Result<Option<Refusal>, Memory>
    ensures { IfOk result (λ fault. fault ≡ family_fault class session.now (outline_on ground.entry) (outline_by (parts_of ground.entry.image.now) space.now)) }
{
    match hold_fault(alloc, ground, class, session, space)? {
        Some(refusal) => Ok(Some(refusal)),
        None => match numbered_fault(alloc, ground, class, session, space.parent)? {
            Some(refusal) => Ok(Some(refusal)),
            None => Ok(None),
        },
    }
}

/// What a call of a procedure is refused for.
fn call_fault(
    alloc: Global,
    ground: Ground<'_>,
    session: &Session,
    procedure: Procedure,
    args: &[Arg],
) -> Result<Option<Refusal>, Memory>
    ensures { IfOk result (λ fault. fault ≡ asked_fault (asks_call procedure) session.now (workspace_given procedure args.now) (outline_on ground.entry)) }
{
    let name = bytes_given(procedure, args, Parameter::Workspace, b"");
    match procedure {
        Procedure::GotoWorkspace => named_fault(alloc, ground, Class::Enter, session, name),
        Procedure::CreateWorkspace => {
            numbered_fault(alloc, ground, Class::Manage, session, session.space())
        }
        Procedure::MergeWorkspace => match ground.space_named(name) {
            Some(space) => family_fault(alloc, ground, Class::Manage, session, space),
            None => Ok(None),
        },
        Procedure::LockRows | Procedure::UnlockRows => {
            named_fault(alloc, ground, Class::Write, session, name)
        }
        Procedure::CreateSavepoint
        | Procedure::RollbackToSp
        | Procedure::RemoveWorkspace
        | Procedure::RefreshWorkspace
        | Procedure::BeginResolve
        | Procedure::ResolveConflicts
        | Procedure::CommitResolve
        | Procedure::RollbackResolve => { named_fault(alloc, ground, Class::Manage, session, name) }
        _ => Ok(None),
    }
}

/// What a statement is refused for since a workspace is frozen.
pub fn frozen_fault(
    alloc: Global,
    ground: Ground<'_>,
    session: &Session,
    statement: &Statement,
) -> Result<Option<Refusal>, Memory>
    ensures { IfOk result (λ fault. fault ≡ frozen_fault session.now (statement_view statement.now) (outline_on ground.entry)) }
{
    match statement {
        Statement::Create { .. } | Statement::Select(_) => Ok(None),
        Statement::Insert { .. } | Statement::Update { .. } | Statement::Delete { .. } => {
            numbered_fault(alloc, ground, Class::Write, session, session.space())
        }
        Statement::Call {
            procedure,
            args,
            ..
        } => match procedure_of(procedure.as_bytes()) {
            Some(procedure) => call_fault(alloc, ground, session, procedure, args.as_slice()),
            None => Ok(None),
        },
    }
}
