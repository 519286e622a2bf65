//! What LockRows and UnlockRows ask first, each of rows of a table in a workspace.
ghost use Rattle.std.specs.Prelude.{◌≡◌, None, true, IfOk};
ghost use Rattle.wm_decided.specs.Keys.{columns_of_keys};
ghost use Rattle.wm_locking.specs.Asked.{IsAsked, IsTabled, asking_view, given_faults};
ghost use Rattle.wm_model.specs.Step.{first_fault};
ghost use Rattle.wm_syntax.specs.Views.{filter_view};
ghost use Rattle.wm_typing.specs.Types.{is_filter_typed};

use std::alloc::Global;
use wm_base::{FormRefusal, Memory, Name, Refusal};
use wm_calls::text_given;
use wm_decided::keyed::{mistyped_key, unkeyed_name};
use wm_grammar::{Parameter, Procedure};
use wm_ground::ground::Ground;
use wm_ground::outcome::{answered, refused};
use wm_plan::given::{bytes_given, fault_around, fault_of, lacking};
use wm_plan::planned::Planned;
use wm_plan::refuse::{empty_period, mistyped, no_table, no_workspace, versioning};
use wm_reader::capitals_of;
use wm_spec::record::{Space, Table};
use wm_syntax::cond::Cond;
use wm_syntax::statement::Arg;

/// What a call asks about rows of a table: its arguments, the condition on their keys, and whether a period in that is
/// empty.
#[derive(Clone, Copy)]
pub struct Asking<'a> {
    pub procedure: Procedure,
    pub args: &'a [Arg],
    pub condition: &'a Option<Cond>,
    pub empty: bool,
}

/// The table whose rows are meant, and the workspace.
#[derive(Clone, Copy)]
pub struct Site<'a> {
    pub table: &'a Table,
    pub space: &'a Space,
}

/// The table that is named, or the answer where none is.
fn table_asked<'a>(
    alloc: Global,
    ground: Ground<'a>,
    asking: Asking<'_>,
) -> Result<Result<&'a Table, Planned>, Memory>
    ensures { IfOk result (IsTabled ground.entry (asking_view asking.entry)) }
{
    let Asking {
        procedure,
        args,
        ..
    } = asking;
    let Some(name) = text_given(procedure, args, Parameter::TableName) else {
        let fault = fault_of(alloc, procedure, args)?;
        return Ok(Err(lacking(alloc, fault)));
    };
    let name = capitals_of(alloc, name.as_bytes())?;
    match ground.image.table(name.as_bytes()) {
        Some(table) => Ok(Ok(table)),
        None => Ok(Err(answered(alloc, no_table(name)))),
    }
}

/// What is wrong with a call for a table, before a workspace is looked for.
fn given_fault(alloc: Global, table: &Table, asking: Asking<'_>) -> Result<Option<Refusal>, Memory>
    ensures exact { IfOk result (λ fault. fault ≡ first_fault (given_faults (asking_view asking.entry) table.now)) }
    ensures typed { IfOk result (λ fault. fault ≡ None → is_filter_typed (columns_of_keys table.now) (filter_view asking.entry.condition.now) ≡ true) }
{
    if !table.versioned {
        return Ok(versioning(table.name.copy(alloc)?, false).into_refusal());
    }
    if let Some(name) = unkeyed_name(alloc, table, asking.condition)? {
        return Ok(Some(Refusal::Form(FormRefusal::Wm012(name))));
    }
    let mark = mistyped_key(alloc, table, asking.condition)?;
    match fault_around(alloc, asking.procedure, asking.args, mark)? {
        Some(parameter) => Ok(mistyped(parameter).into_refusal()),
        None => Ok(None),
    }
}

/// The table and the workspace, or the answer where nothing comes of the call.
pub fn site_asked<'a>(
    alloc: Global,
    ground: Ground<'a>,
    asking: Asking<'_>,
) -> Result<Result<Site<'a>, Planned>, Memory>
    ensures { IfOk result (IsAsked ground.entry (asking_view asking.entry)) }
{
    let table = match table_asked(alloc, ground, asking)? {
        Ok(table) => table,
        Err(planned) => return Ok(Err(planned)),
    };
    if let Some(refusal) = given_fault(alloc, table, asking)? {
        return Ok(Err(refused(alloc, refusal)));
    }
    let name = bytes_given(asking.procedure, asking.args, Parameter::Workspace, b"");
    let Some(space) = ground.image.space_named(name) else {
        let name = Name::copy_of(alloc, name)?;
        return Ok(Err(answered(alloc, no_workspace(name))));
    };
    if asking.empty {
        return Ok(Err(answered(alloc, empty_period())));
    }
    Ok(Ok(Site { table, space }))
}
