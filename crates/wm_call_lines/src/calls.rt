ghost use Rattle.std.specs.Prelude.{◌≡◌, ◌≢◌, ◌<◌, ◌^◌, [], None, length};
ghost use Rattle.wm_syntax.specs.Views.{cond_view, filter_view, statement_view};
ghost use Rattle.wm_grammar.specs.Calls.{first_some};
ghost use Rattle.wm_grammar.specs.Sorts.{code_of};
ghost use Rattle.wm_grammar.specs.Scanned.{symbols_of};
ghost use Rattle.wm_grammar.specs.Faults.{all_of};
ghost use Rattle.wm_grammar.specs.ExpressionReaders.{condition_at};
ghost use Rattle.wm_grammar.specs.CallReaders.{constant_but_text_at, clause_at, value_by_at, value_for_at, parameter_at, parameter_name_at, placed_at, arg_at, next_arg_at, arguments_at, parenthesis_at, arguments_of_at, procedure_name_at, package_call_at, call_at};
ghost use Rattle.wm_terms.specs.Telling.{Told, Tells};
ghost use Rattle.wm_call_lines.specs.Gathering.{gathered_view, first_at, Gathers};

use crate::parameters::{next_place, open_parameter};
use std::alloc::Global;
use std::mem::replace;
use wm_base::{Instant, Name, Text};
use wm_conditions::condition;
use wm_grammar::{Parameter, Procedure, Sort, is_same, procedure_of};
use wm_syntax::cond::Cond;
use wm_syntax::constant::Const;
use wm_syntax::statement::{Arg, ArgValue, Args, Statement};
use wm_terms::cursor::Cursor;
use wm_terms::error::ParseError;
use wm_terms::meaning::unquoted_bytes;
use wm_terms::operands::{constant, instant, period, until_changed};

#[tactic(auto, unfolding(wm_grammar::specs::CallReaders::constant_but_text_at))]
fn constant_but_text(cursor: &mut Cursor) -> Result<Const, ParseError>
    ensures { Told (λ k. k) result cursor.new (constant_but_text_at cursor.old) }
{
    if cursor.is(Sort::Minus) {
        cursor.mark(Sort::Minus)?;
        let number = cursor.integer()?;
        return Ok(Const::Num(-(number as i64)));
    }
    if cursor.is(Sort::Int) {
        let number = cursor.integer()?;
        return Ok(Const::Num(number as i64));
    }
    if cursor.is(Sort::Null) {
        cursor.mark(Sort::Null)?;
        return Ok(Const::Null);
    }
    if cursor.is(Sort::Sysdate) {
        cursor.mark(Sort::Sysdate)?;
        return Ok(Const::Sysdate);
    }
    if cursor.is(Sort::DbmsWm) {
        until_changed(cursor)?;
        return Ok(Const::Time(Instant::end()));
    }
    if cursor.is_any(&[Sort::Date, Sort::Timestamp, Sort::ToDate]) {
        let time = instant(cursor)?;
        return Ok(Const::Time(time));
    }
    let (from, till) = period(cursor)?;
    Ok(Const::Span { from, till })
}

/// The condition that the bytes are, all of them.
fn condition_in(alloc: Global, bytes: &[u8]) -> Result<Cond, ParseError>
    requires { length bytes.now < 2 ^ 32 }
    ensures { Tells cond_view result (all_of (condition_at 64 (symbols_of bytes.now))) }
{
    let mut cursor = Cursor::new(bytes);
    let found = condition(&mut cursor, alloc)?;
    if cursor.is_at_end() {
        return Ok(found);
    }
    drop(found);
    Err(cursor.fault())
}

/// The text of a where_clause, and its condition where it is not empty.
fn clause(cursor: &mut Cursor, alloc: Global) -> Result<(ArgValue, Option<Cond>), ParseError>
    ensures { Told (λ p. (p.0, filter_view p.1)) result cursor.new (clause_at cursor.old) }
{
    if !cursor.is(Sort::Text) {
        return Err(cursor.fault());
    }
    let bytes = unquoted_bytes(alloc, cursor.word())?;
    if bytes.is_empty() {
        cursor.advance();
        return Ok((ArgValue::Const(Const::Null), None));
    }
    match condition_in(alloc, bytes.as_slice()) {
        Ok(found) => {
            cursor.advance();
            let text = Text::from_vec(bytes);
            Ok((ArgValue::Const(Const::Text(text)), Some(found)))
        }
        Err(ParseError::Memory) => Err(ParseError::Memory),
        Err(ParseError::Syntax(_)) => Err(cursor.fault()),
    }
}

/// The value of an argument, and the condition that it is where it is a where_clause.
#[tactic(auto, unfolding(wm_grammar::specs::CallReaders::value_by_at))]
fn value_by(
    cursor: &mut Cursor,
    alloc: Global,
    is_clause: bool,
) -> Result<(ArgValue, Option<Cond>), ParseError>
    ensures { Told (λ p. (p.0, filter_view p.1)) result cursor.new (value_by_at is_clause cursor.old) }
{
    if cursor.is(Sort::True) {
        cursor.mark(Sort::True)?;
        return Ok((ArgValue::Bool(true), None));
    }
    if cursor.is(Sort::False) {
        cursor.mark(Sort::False)?;
        return Ok((ArgValue::Bool(false), None));
    }
    if is_clause {
        if cursor.is(Sort::Text) {
            return clause(cursor, alloc);
        }
        let value = constant_but_text(cursor)?;
        return Ok((ArgValue::Const(value), None));
    }
    let value = constant(cursor, alloc)?;
    Ok((ArgValue::Const(value), None))
}

fn value_for(
    cursor: &mut Cursor,
    alloc: Global,
    parameter: Parameter,
) -> Result<(ArgValue, Option<Cond>), ParseError>
    ensures { Told (λ p. (p.0, filter_view p.1)) result cursor.new (value_for_at parameter cursor.old) }
{
    value_by(cursor, alloc, is_same(parameter, Parameter::WhereClause))
}

/// The name of a parameter that has no argument yet, if it is a word of this sort.
fn parameter_of_sort(
    cursor: &mut Cursor,
    alloc: Global,
    procedure: Procedure,
    args: &[Arg],
    sort: Sort,
) -> Result<(Name, Parameter), ParseError>
    requires { code_of sort ≢ 77 }
    ensures { Told (λ p. p) result cursor.new (parameter_at procedure args.now (code_of sort) cursor.old) }
{
    if !cursor.is(sort) {
        return Err(cursor.fault());
    }
    match open_parameter(procedure, args, cursor.word()) {
        Some(parameter) => {
            let name = cursor.name(alloc, sort)?;
            Ok((name, parameter))
        }
        None => Err(cursor.fault()),
    }
}

#[tactic(auto, unfolding(wm_grammar::specs::CallReaders::parameter_name_at))]
fn parameter_name(
    cursor: &mut Cursor,
    alloc: Global,
    procedure: Procedure,
    args: &[Arg],
) -> Result<(Name, Parameter), ParseError>
    ensures { Told (λ p. p) result cursor.new (parameter_name_at procedure args.now cursor.old) }
{
    if cursor.is(Sort::Id) {
        return parameter_of_sort(cursor, alloc, procedure, args, Sort::Id);
    }
    if cursor.is(Sort::Validfrom) {
        return parameter_of_sort(cursor, alloc, procedure, args, Sort::Validfrom);
    }
    parameter_of_sort(cursor, alloc, procedure, args, Sort::Validtill)
}

/// An argument by place, where one may follow.
#[tactic(auto, unfolding(wm_grammar::specs::CallReaders::placed_at))]
fn placed(
    cursor: &mut Cursor,
    alloc: Global,
    parameter: Option<Parameter>,
) -> Result<(Arg, Option<Cond>), ParseError>
    ensures { Told (λ p. (p.0, filter_view p.1)) result cursor.new (placed_at parameter cursor.old) }
{
    match parameter {
        Some(one) => {
            let (value, condition) = value_for(cursor, alloc, one)?;
            Ok((Arg { name: None, value }, condition))
        }
        None => Err(cursor.fault()),
    }
}

/// An argument, behind these arguments.
#[tactic(auto, unfolding(wm_grammar::specs::CallReaders::arg_at))]
fn arg(
    cursor: &mut Cursor,
    alloc: Global,
    procedure: Procedure,
    args: &[Arg],
) -> Result<(Arg, Option<Cond>), ParseError>
    ensures { Told (λ p. (p.0, filter_view p.1)) result cursor.new (arg_at procedure args.now cursor.old) }
{
    if cursor.is_any(&[Sort::Id, Sort::Validfrom, Sort::Validtill]) {
        let (name, parameter) = parameter_name(cursor, alloc, procedure, args)?;
        cursor.mark(Sort::Arrow)?;
        let (value, condition) = value_for(cursor, alloc, parameter)?;
        let name = Some(name);
        return Ok((Arg { name, value }, condition));
    }
    placed(cursor, alloc, next_place(procedure, args))
}

fn next_arg(
    cursor: &mut Cursor,
    alloc: Global,
    procedure: Procedure,
    args: &[Arg],
) -> Result<(Arg, Option<Cond>), ParseError>
    ensures { Told (λ p. (p.0, filter_view p.1)) result cursor.new (next_arg_at procedure args.now cursor.old) }
{
    cursor.mark(Sort::Comma)?;
    arg(cursor, alloc, procedure, args)
}

/// Arguments, and the condition of the where_clause among them.
#[derive(Drop)]
struct Gathered {
    list: Vec<Arg>,
    condition: Option<Cond>,
}

/// No arguments.
fn none_gathered(alloc: Global) -> Gathered
    ensures { gathered_view result ≡ ([], None) }
{
    Gathered {
        list: Vec::new(alloc),
        condition: None,
    }
}

/// Keeps the first of two, where there is one.
fn keep_first(kept: &mut Option<Cond>, other: Option<Cond>)
    ensures { filter_view kept.new ≡ first_some (filter_view kept.old) (filter_view other) }
{
    if kept.is_none() {
        drop(replace(kept, other));
    } else {
        drop(other);
    }
}

fn first_argument(
    cursor: &mut Cursor,
    alloc: Global,
    procedure: Procedure,
) -> Result<Gathered, ParseError>
    ensures { Told gathered_view result cursor.new (first_at procedure cursor.old) }
{
    let (first, condition) = arg(cursor, alloc, procedure, &[])?;
    let mut list = Vec::new(alloc);
    match list.push(first) {
        Ok(()) => Ok(Gathered { list, condition }),
        Err(failed) => {
            drop(condition);
            Err(ParseError::from(failed))
        }
    }
}

/// One more argument, behind a comma.
fn gather(
    cursor: &mut Cursor,
    alloc: Global,
    procedure: Procedure,
    gathered: &mut Gathered,
) -> Result<(), ParseError>
    ensures { Gathers result procedure (gathered_view gathered.old) (gathered_view gathered.new) cursor.old cursor.new }
{
    let (next, other) = next_arg(cursor, alloc, procedure, gathered.list.as_slice())?;
    match gathered.list.push(next) {
        Ok(()) => {
            keep_first(&mut gathered.condition, other);
            Ok(())
        }
        Err(failed) => {
            drop(other);
            Err(ParseError::from(failed))
        }
    }
}

/// Arguments, at least one.
#[tactic(auto, unfolding(wm_grammar::specs::CallReaders::arguments_at))]
fn arguments(
    cursor: &mut Cursor,
    alloc: Global,
    procedure: Procedure,
) -> Result<Gathered, ParseError>
    ensures { Told gathered_view result cursor.new (arguments_at procedure cursor.old) }
{
    let mut gathered = first_argument(cursor, alloc, procedure)?;
    'items: while cursor.is(Sort::Comma) {
        match gather(cursor, alloc, procedure, &mut gathered) {
            Ok(()) => {}
            Err(fault) => {
                drop(gathered);
                return Err(fault);
            }
        }
    }
    Ok(gathered)
}

/// Arguments or none, behind their parenthesis.
#[tactic(auto, unfolding(wm_grammar::specs::CallReaders::parenthesis_at))]
fn parenthesis(
    cursor: &mut Cursor,
    alloc: Global,
    procedure: Procedure,
) -> Result<Gathered, ParseError>
    ensures { Told gathered_view result cursor.new (parenthesis_at procedure cursor.old) }
{
    if cursor.is(Sort::Close) {
        cursor.mark(Sort::Close)?;
        return Ok(none_gathered(alloc));
    }
    let gathered = arguments(cursor, alloc, procedure)?;
    match cursor.mark(Sort::Close) {
        Ok(()) => Ok(gathered),
        Err(fault) => {
            drop(gathered);
            Err(fault)
        }
    }
}

#[tactic(auto, unfolding(wm_grammar::specs::CallReaders::arguments_of_at))]
fn arguments_of(
    cursor: &mut Cursor,
    alloc: Global,
    procedure: Procedure,
) -> Result<Gathered, ParseError>
    ensures { Told gathered_view result cursor.new (arguments_of_at procedure cursor.old) }
{
    if cursor.is(Sort::Open) {
        cursor.mark(Sort::Open)?;
        return parenthesis(cursor, alloc, procedure);
    }
    Ok(none_gathered(alloc))
}

fn procedure_name(cursor: &mut Cursor, alloc: Global) -> Result<(Name, Procedure), ParseError>
    ensures { Told (λ p. p) result cursor.new (procedure_name_at cursor.old) }
{
    if !cursor.is(Sort::Id) {
        return Err(cursor.fault());
    }
    match procedure_of(cursor.word()) {
        Some(procedure) => {
            let name = cursor.name(alloc, Sort::Id)?;
            Ok((name, procedure))
        }
        None => Err(cursor.fault()),
    }
}

#[tactic(auto, unfolding(wm_grammar::specs::CallReaders::package_call_at))]
fn package_call(cursor: &mut Cursor, alloc: Global) -> Result<Statement, ParseError>
    ensures { Told statement_view result cursor.new (package_call_at cursor.old) }
{
    cursor.mark(Sort::DbmsWm)?;
    cursor.mark(Sort::Dot)?;
    let (name, procedure) = procedure_name(cursor, alloc)?;
    let Gathered { list, condition } = arguments_of(cursor, alloc, procedure)?;
    let args = Args::from_vec(list);
    Ok(Statement::Call {
        procedure: name,
        args,
        condition,
    })
}

/// A call.
#[tactic(auto, unfolding(wm_grammar::specs::CallReaders::call_at))]
pub fn call(cursor: &mut Cursor, alloc: Global) -> Result<Statement, ParseError>
    ensures { Told statement_view result cursor.new (call_at cursor.old) }
{
    if cursor.is(Sort::Execute) {
        cursor.mark(Sort::Execute)?;
        return package_call(cursor, alloc);
    }
    cursor.mark(Sort::Exec)?;
    package_call(cursor, alloc)
}
