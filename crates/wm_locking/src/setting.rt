//! SetLockingON and SetLockingOFF.
ghost use Rattle.std.specs.Prelude.{◌≡◌, None, Some, IfOk};
ghost use Rattle.wm_calls.specs.Faults.{argument_fault};
ghost use Rattle.wm_grammar.specs.declared.procedure.Parameter.TheVariants as parameters;
ghost use Rattle.wm_grammar.specs.declared.procedure.Procedure.TheVariants as procedures;
ghost use Rattle.wm_ground.specs.Outcomes.{outcome_view};
ghost use Rattle.wm_model.specs.Step.{mode_given, mode_in, outcome, set_locking_plan};

use std::alloc::Global;
use wm_base::Memory;
use wm_grammar::{Parameter, Procedure};
use wm_ground::outcome::{answered, seated};
use wm_plan::given::{bytes_given, fault_of};
use wm_plan::planned::Planned;
use wm_plan::refuse::mistyped;
use wm_plan::seating::Seating;
use wm_plan::session::{Session, Setting};
use wm_spec::record::LockMode;
use wm_syntax::statement::Arg;

/// The mode of a word: one that fits its parameter is one of four.
fn mode_in(word: &[u8]) -> LockMode
    ensures { result ≡ mode_in word.now }
{
    if word.eq_ignore_ascii_case(b"S") {
        LockMode::Shared
    } else if word.eq_ignore_ascii_case(b"WE") {
        LockMode::WorkspaceExclusive
    } else if word.eq_ignore_ascii_case(b"VE") {
        LockMode::VersionExclusive
    } else {
        LockMode::Exclusive
    }
}

/// The mode that is given for a parameter: E where none is.
pub fn mode_given(procedure: Procedure, args: &[Arg], parameter: Parameter) -> LockMode
    ensures { result ≡ mode_given procedure args.now parameter }
{
    mode_in(bytes_given(procedure, args, parameter, b"E"))
}

/// How a session's changes lock what they change is set, where nothing is wrong with the arguments.
fn set_locking(
    alloc: Global,
    session: &Session,
    procedure: Procedure,
    args: &[Arg],
    mode: Option<LockMode>,
) -> Result<Planned, Memory>
    ensures { IfOk result (λ p. outcome_view p ≡ outcome (set_locking_plan session.now (argument_fault procedure args.now) mode)) }
{
    if let Some(parameter) = fault_of(alloc, procedure, args)? {
        return Ok(answered(alloc, mistyped(parameter)));
    }
    let name = session.name().copy(alloc)?;
    let setting = Setting::Lock(mode);
    Ok(seated(alloc, Seating::Set { name, setting }))
}

/// SetLockingON: the session's changes lock what they change, in a mode.
pub fn set_locking_on(alloc: Global, session: &Session, args: &[Arg]) -> Result<Planned, Memory>
    ensures { IfOk result (λ p. outcome_view p ≡ outcome (set_locking_plan session.now (argument_fault procedures.SetLockingOn args.now) (Some (mode_given procedures.SetLockingOn args.now parameters.LockMode)))) }
{
    let mode = mode_given(Procedure::SetLockingOn, args, Parameter::LockMode);
    set_locking(alloc, session, Procedure::SetLockingOn, args, Some(mode))
}

/// SetLockingOFF: they do not.
pub fn set_locking_off(alloc: Global, session: &Session, args: &[Arg]) -> Result<Planned, Memory>
    ensures { IfOk result (λ p. outcome_view p ≡ outcome (set_locking_plan session.now (argument_fault procedures.SetLockingOff args.now) None)) }
{
    set_locking(alloc, session, Procedure::SetLockingOff, args, None)
}
