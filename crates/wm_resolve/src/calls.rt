//! What ResolveConflicts and CommitResolve are given.

ghost use Rattle.std.specs.Prelude.{◌≡◌, ◌<◌, ℕ, List, [], Some, true, unwrap_or, IfOk};
ghost use Rattle.wm_syntax.specs.Views.{filter_view};
ghost use Rattle.wm_base.specs.declared.instant.TheConstants.{END};
ghost use Rattle.wm_calls.specs.Arguments.{text_given};
ghost use Rattle.wm_grammar.specs.declared.procedure.Parameter.TheVariants as parameters;
ghost use Rattle.wm_grammar.specs.declared.procedure.Procedure.TheVariants as procedures;
ghost use Rattle.wm_graph.specs.Parts.{parts_of, table_of};
ghost use Rattle.wm_graph.specs.Rules.{keep_rules};
ghost use Rattle.wm_model.specs.Planning.{IsOpen, named};
ghost use Rattle.wm_model.specs.Step.{call, call_with, fault_around, keep_given, keep_in, resolve_conflicts};
ghost use Rattle.wm_plan.specs.Idle.{Idles};
ghost use Rattle.wm_plan.specs.Planning.{DoesIt};
ghost use Rattle.wm_state.specs.State.{Session as SessionState};

use crate::committing::commit_resolve;
use crate::deciding::{Asked, resolve_in};
use std::alloc::Global;
use wm_base::{FormRefusal, Memory, Refusal};
use wm_calls::text_given;
use wm_decided::Keep;
use wm_decided::keyed::{mistyped_key, unkeyed_name};
use wm_grammar::{Parameter, Procedure};
use wm_image::Image;
use wm_plan::answer::Answer;
use wm_plan::given::{Given, bytes_given, fault_around, fault_of, lacking};
use wm_plan::planned::Planned;
use wm_plan::refuse::{mistyped, no_table, versioning};
use wm_plan::session::Session;
use wm_reader::capitals_of;
use wm_spec::record::Table;
use wm_syntax::statement::Arg;

/// CommitResolve.
pub fn commit_call(
    alloc: Global,
    image: &Image,
    moment: u64,
    session: &Session,
    args: &[Arg],
) -> Result<Planned, Memory>
    requires rules { keep_rules (parts_of image.now) ≡ true }
    requires moment { moment < END }
    ensures does { IfOk result (λ p. (xs : List SessionState) → IsOpen xs session.now → DoesIt image.now xs moment p (call session.now (Some procedures.CommitResolve) args.now)) }
    ensures idle { IfOk result Idles }
{
    if let Some(parameter) = fault_of(alloc, Procedure::CommitResolve, args)? {
        return Ok(Planned::answered(alloc, mistyped(parameter)));
    }
    let workspace = bytes_given(Procedure::CommitResolve, args, Parameter::Workspace, b"");
    commit_resolve(alloc, image, moment, session, workspace)
}

/// The side that a word names: one that fits the parameter is one of three.
fn keep_in(word: &[u8]) -> Keep
    ensures { result ≡ keep_in word.now }
{
    if word.eq_ignore_ascii_case(b"PARENT") {
        Keep::Parent
    } else if word.eq_ignore_ascii_case(b"CHILD") {
        Keep::Child
    } else {
        Keep::Base
    }
}

/// The side that is given.
fn keep_given(args: &[Arg]) -> Keep
    ensures { result ≡ keep_given args.now }
{
    keep_in(bytes_given(Procedure::ResolveConflicts, args, Parameter::Keep, b""))
}

/// ResolveConflicts over a table that is there.
fn resolve_over(
    alloc: Global,
    image: &Image,
    session: &Session,
    table: &Table,
    given: Given<'_>,
    empty: bool,
) -> Result<Planned, Memory>
    requires rules { keep_rules (parts_of image.now) ≡ true }
    requires there { table_of (parts_of image.now).tables table.now.number ≡ Some table.now }
    ensures does { IfOk result (λ p. (xs : List SessionState) (m : ℕ) (name : List ℕ) → named image.now name ≡ Some table.now → DoesIt image.now xs m p (resolve_conflicts session.now (unwrap_or (text_given procedures.ResolveConflicts given.entry.args.now parameters.Workspace) []) name (filter_view given.entry.condition.now) (keep_given given.entry.args.now) (fault_around procedures.ResolveConflicts given.entry.args.now) empty)) }
    ensures idle { IfOk result Idles }
{
    if !table.versioned {
        let name = table.name.copy(alloc)?;
        return Ok(Planned::answered(alloc, versioning(name, false)));
    }
    if let Some(name) = unkeyed_name(alloc, table, given.condition)? {
        let refusal = Refusal::Form(FormRefusal::Wm012(name));
        return Ok(Planned::answered(alloc, Answer::Refused(refusal)));
    }
    let mark = mistyped_key(alloc, table, given.condition)?;
    if let Some(parameter) = fault_around(alloc, Procedure::ResolveConflicts, given.args, mark)? {
        return Ok(Planned::answered(alloc, mistyped(parameter)));
    }
    let workspace = bytes_given(
        Procedure::ResolveConflicts,
        given.args,
        Parameter::Workspace,
        b"",
    );
    let asked = Asked {
        workspace,
        keep: keep_given(given.args),
        condition: given.condition,
        empty,
    };
    resolve_in(alloc, image, session, table, asked)
}

/// ResolveConflicts; empty: a period in its condition is.
pub fn resolve_call(
    alloc: Global,
    image: &Image,
    session: &Session,
    given: Given<'_>,
    empty: bool,
) -> Result<Planned, Memory>
    requires rules { keep_rules (parts_of image.now) ≡ true }
    ensures does { IfOk result (λ p. (xs : List SessionState) (m : ℕ) → DoesIt image.now xs m p (call_with session.now (Some procedures.ResolveConflicts) given.entry.args.now (filter_view given.entry.condition.now) empty)) }
    ensures idle { IfOk result Idles }
{
    let args = given.args;
    let Some(name) = text_given(Procedure::ResolveConflicts, args, Parameter::TableName) else {
        let fault = fault_of(alloc, Procedure::ResolveConflicts, args)?;
        return Ok(lacking(alloc, fault));
    };
    let name = capitals_of(alloc, name.as_bytes())?;
    let Some(table) = image.table(name.as_bytes()) else {
        return Ok(Planned::answered(alloc, no_table(name)));
    };
    resolve_over(alloc, image, session, table, given, empty)
}
