//! Whether written periods are empty.
ghost use Rattle.std.specs.Prelude.{◌≡◌};
ghost use Rattle.wm_syntax.specs.Views.{expr_view};
ghost use Rattle.wm_spec.specs.Operands.{end_seconds};
ghost use Rattle.wm_spec.specs.Expressions.{lasts as lasts_in, has_no_empty_period as has_none};

use wm_syntax::constant::{Const, PeriodEnd};
use wm_syntax::expr::Expr;
use wm_syntax::operand::Operand;

/// The seconds of an end. The moment of the line stands in the place of SYSDATE before anything is evaluated.
pub fn seconds_of(end: &PeriodEnd) -> u64
    ensures { result ≡ end_seconds end.now }
{
    match end {
        PeriodEnd::Time(instant) => instant.seconds(),
        PeriodEnd::Sysdate => 0,
    }
}

/// Whether the operand, if it is a written period, has its first end below its second.
fn lasts(operand: &Operand) -> bool
    ensures { result ≡ lasts_in operand.now }
{
    match operand {
        Operand::Const(Const::Span { from, till }) => seconds_of(from) < seconds_of(till),
        _ => true,
    }
}

/// Whether each operand of the expression that is a written period has its first end below its second: what `value`
/// asks. A chain of operators nests to the left, and is gone down in a loop.
pub fn has_no_empty_period(expr: &Expr) -> bool
    ensures { result ≡ has_none (expr_view expr.now) }
{
    let mut rest = expr;
    loop {
        match rest {
            Expr::Add(left, right) | Expr::Sub(left, right) | Expr::Mul(left, right) => {
                if !has_no_empty_period(right) {
                    return false;
                }
                rest = left;
            }
            Expr::Neg(inner) => rest = inner,
            Expr::Operand(operand) => return lasts(operand),
        }
    }
}
