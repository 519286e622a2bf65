//! The period that INSERT gives to its row.
ghost use Rattle.std.specs.Prelude.{◌≡◌, true, nat_lt, option_copied, option_map};
ghost use Rattle.std.specs.List.{list_all};
ghost use Rattle.wm_syntax.specs.Views.{expr_view, exprs_view};
ghost use Rattle.wm_spec.specs.Expressions.{lasts, has_no_empty_period};
ghost use Rattle.wm_spec.specs.Operands.{end_seconds, span_between};
ghost use Rattle.wm_making.specs.Inserting.{value_for_period as value_of_period};
ghost use Rattle.wm_making.specs.Rows.{written_in as period_in, written_period as period_of_expr, period_given as given_period};

use crate::insert::column_for;
use wm_base::{Instant, Period};
use wm_spec::record::Table;
use wm_syntax::column::Names;
use wm_syntax::constant::{Const, PeriodEnd};
use wm_syntax::expr::Expr;
use wm_syntax::operand::Operand;

/// The value for WM_VALID: the first that goes to no declared column.
pub fn value_for_period<'a>(
    table: &Table,
    names: &Option<Names>,
    values: &'a [Expr],
) -> Option<&'a Expr>
    ensures { option_map expr_view (option_copied result) ≡ value_of_period table.now names.now 0 (exprs_view values.now) }
{
    for (place, value) in values.iter().enumerate() {
        match column_for(table, names, place) {
            Some(_) => {}
            None => return Some(value),
        }
    }
    None
}

/// The moment of the line stands in the place of SYSDATE before anything is evaluated.
fn end_of(end: &PeriodEnd) -> Instant
    ensures { result ≡ end_seconds end.now }
{
    match end {
        PeriodEnd::Time(instant) => *instant,
        PeriodEnd::Sysdate => Instant::beginning(),
    }
}

/// The period from one end to the other, which is later.
fn period_between(from: &PeriodEnd, till: &PeriodEnd) -> Period
    requires { nat_lt (end_seconds from.now) (end_seconds till.now) ≡ true }
    ensures { result ≡ span_between from.now till.now }
{
    match Period::new(end_of(from), end_of(till)) {
        Some(period) => period,
        None => unreachable!(),
    }
}

fn written_in(operand: &Operand) -> Option<Period>
    requires { lasts operand.now ≡ true }
    ensures { result ≡ period_in operand.now }
{
    match operand {
        Operand::Const(Const::Span { from, till }) => Some(period_between(from, till)),
        _ => None,
    }
}

/// The period that is written, where the expression is one.
fn written_period(expr: &Expr) -> Option<Period>
    requires { has_no_empty_period (expr_view expr.now) ≡ true }
    ensures { result ≡ period_of_expr (expr_view expr.now) }
{
    match expr {
        Expr::Operand(operand) => written_in(operand),
        Expr::Neg(_) | Expr::Add(_, _) | Expr::Sub(_, _) | Expr::Mul(_, _) => None,
    }
}

/// The period that stands for WM_VALID.
#[tactic(auto, unfolding(crate::specs::Rows::period_given))]
pub fn period_given(table: &Table, names: &Option<Names>, values: &[Expr]) -> Option<Period>
    requires { list_all has_no_empty_period (exprs_view values.now) ≡ true }
    ensures { result ≡ given_period table.now names.now (exprs_view values.now) }
{
    match value_for_period(table, names, values) {
        Some(value) => written_period(value),
        None => None,
    }
}
