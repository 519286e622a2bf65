//! What is given of the arguments of a call, and what is wrong with them.
ghost use Rattle.std.specs.Prelude.{◌≡◌, [], unwrap_or, option_copied, IfOk};
ghost use Rattle.wm_calls.specs.Arguments.{text_given};
ghost use Rattle.wm_calls.specs.Faults.{argument_fault};
ghost use Rattle.wm_model.specs.Step.{fault_around, mistyped};
ghost use Rattle.wm_plan.specs.Views.{answer_view};
ghost use Rattle.wm_plan.specs.declared.seating.Seating.TheVariants.{Stay};

use crate::planned::Planned;
use crate::refuse::mistyped;
use std::alloc::Global;
use wm_base::{Memory, Name};
use wm_calls::{argument_fault, misfit_before, parameter_name, text_given};
use wm_grammar::{Parameter, Procedure};
use wm_syntax::cond::Cond;
use wm_syntax::statement::Arg;

/// What a call is given.
#[derive(Clone, Copy)]
pub struct Given<'a> {
    pub args: &'a [Arg],
    /// The condition of its WHERE, where it has one.
    pub condition: &'a Option<Cond>,
}

/// The name of the parameter whose argument is wrong, or that lacks one.
pub fn fault_of(alloc: Global, procedure: Procedure, args: &[Arg]) -> Result<Option<Name>, Memory>
    ensures { IfOk result (λ fault. fault ≡ argument_fault procedure args.now) }
{
    match argument_fault(procedure, args) {
        Some(parameter) => Ok(Some(Name::copy_of(alloc, parameter_name(parameter))?)),
        None => Ok(None),
    }
}

/// What is wrong with the arguments of a call with a condition, where this is of a wrong type first in the condition.
pub fn fault_around(
    alloc: Global,
    procedure: Procedure,
    args: &[Arg],
    inside: Option<&[u8]>,
) -> Result<Option<Name>, Memory>
    ensures { IfOk result (λ fault. fault ≡ fault_around procedure args.now (option_copied inside.entry)) }
{
    if let Some(parameter) = misfit_before(procedure, Parameter::WhereClause, args) {
        return Ok(Some(Name::copy_of(alloc, parameter_name(parameter))?));
    }
    match inside {
        Some(mark) => Ok(Some(Name::copy_of(alloc, mark)?)),
        None => fault_of(alloc, procedure, args),
    }
}

/// The answer of a call that lacks a text which it requires: that of the parameter that is at fault.
pub fn lacking(alloc: Global, fault: Option<Name>) -> Planned
    ensures edits { result.edits.items ≡ [] }
    ensures seating { result.seating ≡ Stay }
    ensures answer { answer_view result.answer ≡ mistyped (unwrap_or fault []) }
{
    let parameter = fault.unwrap_or(Name::from_vec(Vec::new(alloc)));
    Planned::answered(alloc, mistyped(parameter))
}

/// The bytes of the text that is given for a parameter, or these.
pub fn bytes_given<'a>(
    procedure: Procedure,
    args: &'a [Arg],
    parameter: Parameter,
    default: &'a [u8],
) -> &'a [u8]
    ensures { result.now ≡ unwrap_or (text_given procedure args.now parameter) default.now }
{
    match text_given(procedure, args, parameter) {
        Some(text) => text.as_bytes(),
        None => default,
    }
}
