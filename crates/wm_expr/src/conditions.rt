//! How true a condition is on a row.
ghost use Rattle.std.specs.Prelude.{◌≡◌};
ghost use Rattle.wm_base.specs.Truth.{truth_and, truth_or};
ghost use Rattle.wm_syntax.specs.Views.{cond_view};
ghost use Rattle.wm_spec.specs.Conditions.{truth_of, truth_in as truth_of_values};

use crate::compare::{between, is_null, negate_if, one_of, test, truth_if};
use crate::operands::operand_seen;
use wm_base::{Row, Truth, Value};
use wm_listing::{Column, Columns};
use wm_syntax::cond::Cond;

/// How true the condition is for a row of these columns. A comparison with NULL is unknown, and AND, OR and NOT are
/// those of three-valued logic. A column that is not there is NULL.
#[tactic(auto, unfolding(wm_spec::specs::Conditions::truth_of))]
pub fn truth(cond: &Cond, columns: &Columns, row: &Row) -> Truth
    ensures { result ≡ truth_of (cond_view cond.now) columns.now row.now }
{
    truth_in(cond, columns.as_slice(), row.values.as_slice())
}

#[cycle(truths)]
fn truth_in(cond: &Cond, columns: &[Column], row: &[Value]) -> Truth
    ensures { result ≡ truth_of_values (cond_view cond.now) columns.now row.now }
{
    match cond {
        Cond::Or(left, right) => truth_with_or(left, truth_in(right, columns, row), columns, row),
        Cond::And(left, right) => truth_with_and(left, truth_in(right, columns, row), columns, row),
        Cond::Not(inner) => truth_in(inner, columns, row).not(),
        Cond::Compare { left, cmp, right } => {
            let left = operand_seen(left, columns, row);
            test(*cmp, left, operand_seen(right, columns, row))
        }
        Cond::IsNull { what, negated } => negate_if(
            *negated,
            truth_if(is_null(operand_seen(what, columns, row))),
        ),
        Cond::OneOf {
            what,
            negated,
            list,
        } => negate_if(
            *negated,
            one_of(operand_seen(what, columns, row), list.as_slice()),
        ),
        Cond::Between {
            what,
            negated,
            low,
            high,
        } => {
            let low = operand_seen(low, columns, row);
            let high = operand_seen(high, columns, row);
            negate_if(
                *negated,
                between(operand_seen(what, columns, row), low, high),
            )
        }
    }
}

/// How true the condition is, or what stands behind it. A chain of OR nests to the left, and is gone down in a loop.
#[cycle(truths)]
#[tactic(auto, using(crate::proofs::Logic::or_assoc))]
fn truth_with_or(cond: &Cond, behind: Truth, columns: &[Column], row: &[Value]) -> Truth
    ensures { result ≡ truth_or (truth_of_values (cond_view cond.now) columns.now row.now) behind }
{
    let mut truth = behind;
    let mut rest = cond;
    'chain: while let Cond::Or(left, right) = rest {
        truth = truth_in(right, columns, row).or(truth);
        rest = left;
    }
    truth_in(rest, columns, row).or(truth)
}

/// How true the condition is together with what stands behind it. A chain of AND nests to the left, and is gone down in a loop.
#[cycle(truths)]
#[tactic(auto, using(crate::proofs::Logic::and_assoc))]
fn truth_with_and(cond: &Cond, behind: Truth, columns: &[Column], row: &[Value]) -> Truth
    ensures { result ≡ truth_and (truth_of_values (cond_view cond.now) columns.now row.now) behind }
{
    let mut truth = behind;
    let mut rest = cond;
    'chain: while let Cond::And(left, right) = rest {
        truth = truth_in(right, columns, row).and(truth);
        rest = left;
    }
    truth_in(rest, columns, row).and(truth)
}
