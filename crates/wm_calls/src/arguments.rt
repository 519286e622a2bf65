ghost use Rattle.std.specs.Prelude.{◌≡◌};
ghost use Rattle.std.specs.Option.{option_copied};
ghost use Rattle.wm_calls.specs.Arguments.{argument, text_given, moment_given, is_true_given};

use crate::places::{is_that, parameter_at};
use wm_base::{Instant, Text};
use wm_grammar::{Parameter, Procedure};
use wm_syntax::constant::Const;
use wm_syntax::statement::{Arg, ArgValue};

/// What a call gives for a parameter, by its name or by its place.
#[tactic(auto, unfolding(crate::specs::Arguments::argument))]
pub fn argument(procedure: Procedure, args: &[Arg], parameter: Parameter) -> Option<&ArgValue>
    ensures { option_copied result ≡ argument procedure args.now parameter }
{
    for (place, arg) in args.iter().enumerate() {
        if is_that(parameter_at(procedure, args.len(), place, arg), parameter) {
            return Some(&arg.value);
        }
    }
    None
}

/// The text that a call gives for a parameter. NULL, which the empty text is too, is none.
pub fn text_given(procedure: Procedure, args: &[Arg], parameter: Parameter) -> Option<&Text>
    ensures { option_copied result ≡ text_given procedure args.now parameter }
{
    match argument(procedure, args, parameter) {
        Some(ArgValue::Const(Const::Text(text))) => Some(text),
        _ => None,
    }
}

/// The time that a call gives for a parameter. UNTIL_CHANGED is one, and NULL is none.
pub fn moment_given(procedure: Procedure, args: &[Arg], parameter: Parameter) -> Option<Instant>
    ensures { result ≡ moment_given procedure args.now parameter }
{
    match argument(procedure, args, parameter) {
        Some(ArgValue::Const(Const::Time(instant))) => Some(*instant),
        _ => None,
    }
}

/// Whether a call gives a parameter as TRUE.
pub fn is_true_given(procedure: Procedure, args: &[Arg], parameter: Parameter) -> bool
    ensures { result ≡ is_true_given procedure args.now parameter }
{
    match argument(procedure, args, parameter) {
        Some(ArgValue::Bool(value)) => *value,
        _ => false,
    }
}
