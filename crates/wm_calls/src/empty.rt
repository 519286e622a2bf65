ghost use Rattle.std.specs.Prelude.{◌≡◌};
ghost use Rattle.std.specs.List.{list_any};
ghost use Rattle.wm_syntax.specs.Views.{expr_view, exprs_view, cond_view, filter_view, item_view, projection_view, srcs_view, outs_view, sets_view, query_view, statement_view};
ghost use Rattle.wm_spec.specs.Operands.{end_seconds};
ghost use Rattle.wm_calls.specs.Empty.{is_empty_span, is_empty_const, is_empty_per, operand_has_empty, expr_has_empty, cond_has_empty, filter_has_empty, item_has_empty, out_has_empty, projection_has_empty, src_has_empty, query_has_empty, set_has_empty, value_has_empty, arg_has_empty, has_empty_period};

use wm_syntax::cond::Cond;
use wm_syntax::constant::{Const, PeriodEnd};
use wm_syntax::expr::Expr;
use wm_syntax::operand::{Operand, Per};
use wm_syntax::query::{Item, Out, Projection, Query, Src};
use wm_syntax::statement::{Arg, ArgValue, Set, Statement};

/// The seconds of an end. The moment of the line stands in the place of SYSDATE before this is asked.
fn seconds_of(end: &PeriodEnd) -> u64
    ensures { result ≡ end_seconds end.now }
{
    match end {
        PeriodEnd::Time(instant) => instant.seconds(),
        PeriodEnd::Sysdate => 0,
    }
}

/// Whether the first end is not below the second.
fn is_empty_span(from: &PeriodEnd, till: &PeriodEnd) -> bool
    ensures { result ≡ is_empty_span from.now till.now }
{
    seconds_of(from) >= seconds_of(till)
}

/// Whether it is a written period that is empty.
fn is_empty_const(constant: &Const) -> bool
    ensures { result ≡ is_empty_const constant.now }
{
    match constant {
        Const::Span { from, till } => is_empty_span(from, till),
        _ => false,
    }
}

fn is_empty_per(per: &Per) -> bool
    ensures { result ≡ is_empty_per per.now }
{
    match per {
        Per::Span { from, till } => is_empty_span(from, till),
        Per::Valid { .. } => false,
    }
}

fn operand_has_empty(operand: &Operand) -> bool
    ensures { result ≡ operand_has_empty operand.now }
{
    match operand {
        Operand::Col(_) => false,
        Operand::Const(constant) => is_empty_const(constant),
        Operand::Test { left, right, .. } => is_empty_per(left) || is_empty_per(right),
    }
}

/// Whether the expression has an empty period. A chain of operators nests to the left, and is gone down in a loop.
fn expr_has_empty(expr: &Expr) -> bool
    ensures { result ≡ expr_has_empty (expr_view expr.now) }
{
    let mut rest = expr;
    loop {
        match rest {
            Expr::Add(left, right) | Expr::Sub(left, right) | Expr::Mul(left, right) => {
                if expr_has_empty(right) {
                    return true;
                }
                rest = left;
            }
            Expr::Neg(inner) => rest = inner,
            Expr::Operand(operand) => return operand_has_empty(operand),
        }
    }
}

fn any_const(constants: &[Const]) -> bool
    ensures { result ≡ list_any is_empty_const constants.now }
{
    constants.iter().any(|one| is_empty_const(one))
}

/// Whether the condition has an empty period. A chain nests to the left, and is gone down in a loop.
fn cond_has_empty(cond: &Cond) -> bool
    ensures { result ≡ cond_has_empty (cond_view cond.now) }
{
    let mut rest = cond;
    loop {
        match rest {
            Cond::Or(left, right) | Cond::And(left, right) => {
                if cond_has_empty(right) {
                    return true;
                }
                rest = left;
            }
            Cond::Not(inner) => rest = inner,
            Cond::Compare { left, right, .. } => {
                return operand_has_empty(left) || operand_has_empty(right);
            }
            Cond::IsNull { what, .. } => return operand_has_empty(what),
            Cond::OneOf { what, list, .. } => {
                return operand_has_empty(what) || any_const(list.as_slice());
            }
            Cond::Between {
                what,
                low,
                high,
                ..
            } => {
                return operand_has_empty(what) || operand_has_empty(low) || operand_has_empty(high);
            }
        }
    }
}

fn filter_has_empty(filter: &Option<Cond>) -> bool
    ensures { result ≡ filter_has_empty (filter_view filter.now) }
{
    match filter {
        Some(cond) => cond_has_empty(cond),
        None => false,
    }
}

fn item_has_empty(item: &Item) -> bool
    ensures { result ≡ item_has_empty (item_view item.now) }
{
    match item {
        Item::Expr(of) | Item::Agg { of, .. } => expr_has_empty(of),
        Item::CountAll => false,
    }
}

fn any_out(outs: &[Out]) -> bool
    ensures { result ≡ list_any out_has_empty (outs_view outs.now) }
{
    for out in outs {
        if item_has_empty(&out.item) {
            return true;
        }
    }
    false
}

fn projection_has_empty(projection: &Projection) -> bool
    ensures { result ≡ projection_has_empty (projection_view projection.now) }
{
    match projection {
        Projection::All => false,
        Projection::Outs(outs) => any_out(outs.as_slice()),
    }
}

fn any_source(sources: &[Src]) -> bool
    ensures { result ≡ list_any src_has_empty (srcs_view sources.now) }
{
    for source in sources {
        if filter_has_empty(&source.on) {
            return true;
        }
    }
    false
}

fn query_has_empty(query: &Query) -> bool
    ensures { result ≡ query_has_empty (query_view query.now) }
{
    projection_has_empty(&query.projection)
        || any_source(query.sources.as_slice())
        || filter_has_empty(&query.filter)
}

fn any_set(sets: &[Set]) -> bool
    ensures { result ≡ list_any set_has_empty (sets_view sets.now) }
{
    for set in sets {
        if expr_has_empty(&set.becomes) {
            return true;
        }
    }
    false
}

fn any_expr(exprs: &[Expr]) -> bool
    ensures { result ≡ list_any expr_has_empty (exprs_view exprs.now) }
{
    for expr in exprs {
        if expr_has_empty(expr) {
            return true;
        }
    }
    false
}

fn value_has_empty(value: &ArgValue) -> bool
    ensures { result ≡ value_has_empty value.now }
{
    match value {
        ArgValue::Const(constant) => is_empty_const(constant),
        ArgValue::Bool(_) => false,
    }
}

fn any_arg(args: &[Arg]) -> bool
    ensures { result ≡ list_any arg_has_empty args.now }
{
    args.iter().any(|arg| value_has_empty(&arg.value))
}

/// Whether a period that is written somewhere in the statement is empty: its first end is not below its second.
pub fn has_empty_period(statement: &Statement) -> bool
    ensures { result ≡ has_empty_period (statement_view statement.now) }
{
    match statement {
        Statement::Create { .. } => false,
        Statement::Insert { values, .. } => any_expr(values.as_slice()),
        Statement::Update { sets, filter, .. } => {
            any_set(sets.as_slice()) || filter_has_empty(filter)
        }
        Statement::Delete { filter, .. } => filter_has_empty(filter),
        Statement::Select(query) => query_has_empty(query),
        Statement::Call {
            args,
            condition,
            ..
        } => any_arg(args.as_slice()) || filter_has_empty(condition),
    }
}
