ghost use Rattle.std.specs.Prelude.{◌≡◌};
ghost use Rattle.wm_grammar.specs.Calls.{parameters_of, at_place, is_text, is_some_same, is_description, placed_parameter, parameter_for, is_given, closes, is_closed, next_place, is_among, open_parameter};

use wm_grammar::{Parameter, Procedure, is_same, parameter_of};
use wm_syntax::constant::Const;
use wm_syntax::statement::{Arg, ArgValue};

/// The parameter of a procedure at a place.
fn parameter_at(procedure: Procedure, place: usize) -> Option<Parameter>
    ensures { result ≡ at_place (parameters_of procedure) place }
{
    procedure.parameters().get(place).copied()
}

fn is_text(value: &ArgValue) -> bool
    ensures { result ≡ is_text value.now }
{
    matches!(value, ArgValue::Const(Const::Text(_)))
}

fn is_that(found: Option<Parameter>, parameter: Parameter) -> bool
    ensures { result ≡ is_some_same found parameter }
{
    match found {
        Some(one) => is_same(one, parameter),
        None => false,
    }
}

/// Whether the value is the description, given by place where isrefreshed stands.
fn is_description(parameter: Option<Parameter>, value: &ArgValue) -> bool
    ensures { result ≡ is_description parameter value.now }
{
    is_that(parameter, Parameter::IsRefreshed) && is_text(value)
}

/// The parameter of an argument by place.
fn placed_parameter(parameter: Option<Parameter>, value: &ArgValue) -> Option<Parameter>
    ensures { result ≡ placed_parameter parameter value.now }
{
    if is_description(parameter, value) {
        return Some(Parameter::Description);
    }
    parameter
}

/// The parameter of the argument at a place.
fn parameter_for(procedure: Procedure, place: usize, arg: &Arg) -> Option<Parameter>
    ensures { result ≡ parameter_for procedure place arg.now }
{
    match &arg.name {
        Some(name) => parameter_of(name.as_bytes()),
        None => placed_parameter(parameter_at(procedure, place), &arg.value),
    }
}

/// Whether one of the arguments is that parameter's.
#[tactic(auto, unfolding(wm_grammar::specs::Calls::is_given))]
fn is_given(procedure: Procedure, parameter: Parameter, args: &[Arg]) -> bool
    ensures { result ≡ is_given procedure parameter args.now }
{
    for (place, arg) in args.iter().enumerate() {
        if is_that(parameter_for(procedure, place, arg), parameter) {
            return true;
        }
    }
    false
}

/// Whether no argument by place may follow this one.
fn closes(procedure: Procedure, place: usize, arg: &Arg) -> bool
    ensures { result ≡ closes procedure place arg.now }
{
    arg.name.is_some() || is_description(parameter_at(procedure, place), &arg.value)
}

#[tactic(auto, unfolding(wm_grammar::specs::Calls::is_closed))]
fn is_closed(procedure: Procedure, args: &[Arg]) -> bool
    ensures { result ≡ is_closed procedure args.now }
{
    for (place, arg) in args.iter().enumerate() {
        if closes(procedure, place, arg) {
            return true;
        }
    }
    false
}

/// The parameter of the next argument by place, behind these arguments.
#[tactic(auto, unfolding(wm_grammar::specs::Calls::next_place))]
pub fn next_place(procedure: Procedure, args: &[Arg]) -> Option<Parameter>
    ensures { result ≡ next_place procedure args.now }
{
    if is_closed(procedure, args) {
        return None;
    }
    parameter_at(procedure, args.len())
}

fn is_among(parameters: &[Parameter], parameter: Parameter) -> bool
    ensures { result ≡ is_among parameters.now parameter }
{
    for one in parameters {
        if is_same(*one, parameter) {
            return true;
        }
    }
    false
}

/// The parameter that a word names, where it is one of the procedure's and has no argument among these.
#[tactic(auto, unfolding(wm_grammar::specs::Calls::open_parameter))]
pub fn open_parameter(procedure: Procedure, args: &[Arg], word: &[u8]) -> Option<Parameter>
    ensures { result ≡ open_parameter procedure args.now word.now }
{
    let parameter = parameter_of(word)?;
    if procedure.takes_names()
        && is_among(procedure.parameters(), parameter)
        && !is_given(procedure, parameter, args)
    {
        return Some(parameter);
    }
    None
}
