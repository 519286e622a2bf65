ghost use Rattle.std.specs.Prelude.{◌≡◌};
ghost use Rattle.wm_grammar.specs.Calls.{is_text, is_some_same, is_among, placed_parameter};
ghost use Rattle.wm_calls.specs.Places.{is_diff, parameters_in, parameter_at, valid_time_required, required_of};

use wm_grammar::{Parameter, Procedure, is_same, parameter_of};
use wm_syntax::constant::Const;
use wm_syntax::statement::{Arg, ArgValue};

pub fn is_diff(procedure: Procedure) -> bool
    ensures { result ≡ is_diff procedure }
{
    procedure == Procedure::SetDiffVersions
}

/// The parameters of a call with so many arguments.
fn parameters_in(procedure: Procedure, count: usize) -> &'static [Parameter]
    ensures { result.now ≡ parameters_in procedure count }
{
    if is_diff(procedure) && count < 3 {
        return &[Parameter::Workspace1, Parameter::Workspace2];
    }
    procedure.parameters()
}

fn is_text(value: &ArgValue) -> bool
    ensures { result ≡ is_text value.now }
{
    matches!(value, ArgValue::Const(Const::Text(_)))
}

/// Whether it is that parameter.
pub fn is_that(found: Option<Parameter>, parameter: Parameter) -> bool
    ensures { result ≡ is_some_same found parameter }
{
    match found {
        Some(one) => is_same(one, parameter),
        None => false,
    }
}

/// The parameter of an argument by place: a text where isrefreshed stands is the description.
fn placed_parameter(parameter: Option<Parameter>, value: &ArgValue) -> Option<Parameter>
    ensures { result ≡ placed_parameter parameter value.now }
{
    if is_that(parameter, Parameter::IsRefreshed) && is_text(value) {
        return Some(Parameter::Description);
    }
    parameter
}

/// The parameter of the argument at a place of so many.
pub fn parameter_at(
    procedure: Procedure,
    count: usize,
    place: usize,
    arg: &Arg,
) -> Option<Parameter>
    ensures { result ≡ parameter_at procedure count place arg.now }
{
    match &arg.name {
        Some(name) => parameter_of(name.as_bytes()),
        None => {
            let parameter = parameters_in(procedure, count).get(place).copied();
            placed_parameter(parameter, &arg.value)
        }
    }
}

/// Whether the parameter is one of them.
pub fn is_among(parameters: &[Parameter], parameter: Parameter) -> bool
    ensures { result ≡ is_among parameters.now parameter }
{
    for one in parameters {
        if is_same(*one, parameter) {
            return true;
        }
    }
    false
}

/// validFrom, where there is an argument.
fn valid_time_required(count: usize) -> &'static [Parameter]
    ensures { result.now ≡ valid_time_required count }
{
    if count > 0 {
        return &[Parameter::ValidFrom];
    }
    &[]
}

/// The parameters of a procedure that have no default, in order.
pub fn required_of(procedure: Procedure, count: usize) -> &'static [Parameter]
    ensures { result.now ≡ required_of procedure count }
{
    match procedure {
        Procedure::EnableVersioning => &[Parameter::TableName],
        Procedure::CreateWorkspace => &[Parameter::Workspace],
        Procedure::CreateSavepoint => &[Parameter::Workspace, Parameter::SavepointName],
        Procedure::GotoWorkspace => &[Parameter::Workspace],
        Procedure::RefreshWorkspace => &[Parameter::Workspace],
        Procedure::RemoveWorkspace => &[Parameter::Workspace],
        Procedure::UnfreezeWorkspace => &[Parameter::Workspace],
        Procedure::SetConflictWorkspace => &[Parameter::Workspace],
        Procedure::BeginResolve => &[Parameter::Workspace],
        Procedure::CommitResolve => &[Parameter::Workspace],
        Procedure::RollbackResolve => &[Parameter::Workspace],
        Procedure::GotoSavepoint => &[],
        Procedure::GotoDate => &[Parameter::InDate],
        Procedure::RollbackToSp => &[Parameter::Workspace, Parameter::SavepointName],
        Procedure::MergeWorkspace => &[Parameter::Workspace],
        Procedure::FreezeWorkspace => &[Parameter::Workspace],
        Procedure::SetLockingOn => &[Parameter::LockMode],
        Procedure::SetLockingOff => &[],
        Procedure::LockRows => &[Parameter::Workspace, Parameter::TableName],
        Procedure::UnlockRows => &[Parameter::Workspace, Parameter::TableName],
        Procedure::ResolveConflicts => &[
            Parameter::Workspace,
            Parameter::TableName,
            Parameter::WhereClause,
            Parameter::Keep,
        ],
        Procedure::SetDiffVersions => &[
            Parameter::Workspace1,
            Parameter::Savepoint1,
            Parameter::Workspace2,
            Parameter::Savepoint2,
        ],
        Procedure::SetValidTime => valid_time_required(count),
    }
}
