ghost use Rattle.std.specs.Prelude.{◌≡◌, length};
ghost use Rattle.std.specs.Option.{option_map};
ghost use Rattle.wm_calls.specs.Takes.{parameter_name};
ghost use Rattle.wm_calls.specs.Faults.{fits_parameter, misfit, misfit_from, missing, faulty_parameter, misfit_before, argument_fault, count_asked};

use crate::arguments::argument;
use crate::fits::fits;
use crate::places::{is_among, is_diff, is_that, parameter_at, required_of};
use crate::takes::takes_of;
use wm_grammar::{Parameter, Procedure};
use wm_syntax::statement::{Arg, ArgValue};

/// Whether a parameter takes the value, in a call with so many arguments.
fn fits_parameter(
    procedure: Procedure,
    count: usize,
    parameter: Parameter,
    value: &ArgValue,
) -> bool
    ensures { result ≡ fits_parameter procedure count parameter value.now }
{
    let required = is_among(required_of(procedure, count), parameter);
    fits(required, takes_of(parameter), value)
}

/// The parameter, where it does not take the value.
fn misfit(
    procedure: Procedure,
    count: usize,
    parameter: Option<Parameter>,
    value: &ArgValue,
) -> Option<Parameter>
    ensures { result ≡ misfit procedure count parameter value.now }
{
    let one = parameter?;
    if fits_parameter(procedure, count, one, value) {
        return None;
    }
    Some(one)
}

/// The parameter of the first argument that does not fit.
fn first_misfit(procedure: Procedure, args: &[Arg]) -> Option<Parameter>
    ensures { result ≡ misfit_from procedure (length args.now) 0 args.now }
{
    let count = args.len();
    for (place, arg) in args.iter().enumerate() {
        let parameter = parameter_at(procedure, count, place, arg);
        if let Some(one) = misfit(procedure, count, parameter, &arg.value) {
            return Some(one);
        }
    }
    None
}

/// The first parameter whose value does not fit, of those that are given before this one.
pub fn misfit_before(procedure: Procedure, parameter: Parameter, args: &[Arg]) -> Option<Parameter>
    ensures { option_map parameter_name result ≡ misfit_before procedure parameter args.now }
{
    let count = args.len();
    for (place, arg) in args.iter().enumerate() {
        let given = parameter_at(procedure, count, place, arg);
        if is_that(given, parameter) {
            return None;
        }
        if let Some(one) = misfit(procedure, count, given, &arg.value) {
            return Some(one);
        }
    }
    None
}

/// The first parameter without a default that is not given.
fn missing(procedure: Procedure, args: &[Arg]) -> Option<Parameter>
    ensures { result ≡ missing procedure args.now }
{
    if is_diff(procedure) {
        return None;
    }
    let required = required_of(procedure, args.len());
    for parameter in required {
        if argument(procedure, args, *parameter).is_none() {
            return Some(*parameter);
        }
    }
    None
}

/// How many arguments SetDiffVersions asks for where it is given so many others: it takes two, the workspaces, or four.
pub fn count_asked(count: usize) -> Option<u64>
    ensures { result ≡ count_asked count }
{
    match count {
        2 | 4 => None,
        3 => Some(4),
        _ => Some(2),
    }
}

/// The parameter whose value does not fit, the first in the line, or else the first that is missing.
///
/// That there are too few arguments of SetDiffVersions is not told here.
#[tactic(auto, unfolding(crate::specs::Faults::faulty_parameter))]
pub fn argument_fault(procedure: Procedure, args: &[Arg]) -> Option<Parameter>
    ensures is { result ≡ faulty_parameter procedure args.now }
    ensures named { option_map parameter_name result ≡ argument_fault procedure args.now }
{
    first_misfit(procedure, args).or_else(|| missing(procedure, args))
}
