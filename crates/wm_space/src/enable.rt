//! EnableVersioning.
ghost use Rattle.std.specs.Prelude.{◌≡◌, ◌∷◌, [], nat_lt, length, IfOk};
ghost use Rattle.std.specs.Option.{option_copied};
ghost use Rattle.wm_ground.specs.Grounds.{outline_on};
ghost use Rattle.wm_ground.specs.Outcomes.{outcome_view};
ghost use Rattle.wm_model.specs.Step.{also, enable_plan, enabling, first_fault, for_table, keeps_history, long_name, no_table, outcome, readiness_given, refused_if};
ghost use Rattle.wm_space.specs.Readying.{readiness_view};
ghost use Rattle.wm_state.specs.State.{table_named};

use std::alloc::Global;
use wm_base::{Memory, Name, Refusal, Text};
use wm_calls::{is_true_given, text_given};
use wm_grammar::{Parameter, Procedure};
use wm_ground::ground::Ground;
use wm_ground::outcome::{answered, done, refused};
use wm_plan::given::{fault_of, lacking};
use wm_plan::planned::Planned;
use wm_plan::refuse::{long_name, mistyped, no_key, no_table, versioning};
use wm_reader::capitals_of;
use wm_spec::record::Table;
use wm_state::edit::Edit;
use wm_syntax::statement::Arg;

/// How a table becomes ready for rows: with or without valid time, and with or without its history.
#[derive(Clone, Copy)]
pub struct Readiness {
    pub valid: bool,
    pub history: bool,
}

/// The most bytes that the name of a table with views may have.
const NAME_LIMIT: usize = 25;

/// Whether a table keeps its history by this word.
fn keeps_history(alloc: Global, word: Option<&Text>) -> Result<bool, Memory>
    ensures { IfOk result (λ keeps. keeps ≡ keeps_history (option_copied word.entry)) }
{
    match word {
        Some(word) => {
            let capitals = capitals_of(alloc, word.as_bytes())?;
            Ok(capitals.as_bytes() == b"VIEW_WO_OVERWRITE".as_slice())
        }
        None => Ok(false),
    }
}

/// How the arguments ask for a table to become ready.
fn readiness_given(alloc: Global, args: &[Arg]) -> Result<Readiness, Memory>
    ensures { IfOk result (λ how. readiness_view how ≡ readiness_given args.now) }
{
    let history = text_given(Procedure::EnableVersioning, args, Parameter::Hist);
    Ok(Readiness {
        valid: is_true_given(Procedure::EnableVersioning, args, Parameter::ValidTime),
        history: keeps_history(alloc, history)?,
    })
}

/// What is refused of a table that is there, in the order of the rows.
fn enabling_fault(
    alloc: Global,
    ground: Ground<'_>,
    args: &[Arg],
    name: &Name,
    table: &Table,
) -> Result<Option<Refusal>, Memory>
    ensures { IfOk result (λ fault. fault ≡ first_fault (enabling name.now args.now (outline_on ground.entry) table.now).faults) }
{
    if table.versioned {
        return Ok(versioning(name.copy(alloc)?, true).into_refusal());
    }
    if let Some(parameter) = fault_of(alloc, Procedure::EnableVersioning, args)? {
        return Ok(mistyped(parameter).into_refusal());
    }
    if table.key_columns.as_slice().is_empty() {
        return Ok(no_key(name.copy(alloc)?).into_refusal());
    }
    ground.spent_refusal(alloc)
}

/// A table that is there becomes ready.
fn enable(
    alloc: Global,
    ground: Ground<'_>,
    args: &[Arg],
    name: Name,
    table: &Table,
) -> Result<Planned, Memory>
    ensures { IfOk result (λ p. outcome_view p ≡ outcome (enabling name args.now (outline_on ground.entry) table.now)) }
{
    if let Some(refusal) = enabling_fault(alloc, ground, args, &name, table)? {
        return Ok(refused(alloc, refusal));
    }
    let how = readiness_given(alloc, args)?;
    done(
        alloc,
        Edit::Enable {
            name,
            valid: how.valid,
            history: how.history,
        },
    )
}

/// The table of a name becomes ready, where its views can be named.
fn enable_named(
    alloc: Global,
    ground: Ground<'_>,
    args: &[Arg],
    name: Name,
) -> Result<Planned, Memory>
    ensures { IfOk result (λ p. outcome_view p ≡ outcome (also (refused_if (nat_lt 25 (length name)) long_name ∷ []) (for_table (no_table name) (enabling name args.now (outline_on ground.entry)) (table_named name (outline_on ground.entry).tables)))) }
{
    if name.len() > NAME_LIMIT {
        return Ok(answered(alloc, long_name()));
    }
    match ground.table_named(name.as_bytes()) {
        Some(table) => enable(alloc, ground, args, name, table),
        None => Ok(answered(alloc, no_table(name))),
    }
}

/// EnableVersioning makes a table ready for rows, once.
pub fn enable_plan(alloc: Global, ground: Ground<'_>, args: &[Arg]) -> Result<Planned, Memory>
    ensures { IfOk result (λ p. outcome_view p ≡ outcome (enable_plan args.now (outline_on ground.entry))) }
{
    match text_given(Procedure::EnableVersioning, args, Parameter::TableName) {
        Some(table) => {
            let name = capitals_of(alloc, table.as_bytes())?;
            enable_named(alloc, ground, args, name)
        }
        None => {
            let fault = fault_of(alloc, Procedure::EnableVersioning, args)?;
            Ok(lacking(alloc, fault))
        }
    }
}
