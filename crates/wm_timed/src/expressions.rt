ghost use Rattle.std.specs.Prelude.{◌≡◌, map};
ghost use Rattle.wm_syntax.specs.Views.{expr_view, exprs_view};
ghost use Rattle.wm_timed.specs.Timed.{timed_expr};

use crate::operands::set_operand;
use wm_base::Instant;
use wm_syntax::expr::Expr;

pub fn set_expr(expr: &mut Expr, moment: Instant)
    ensures { expr_view expr.new ≡ timed_expr moment (expr_view expr.old) }
{
    match expr {
        Expr::Operand(operand) => set_operand(operand, moment),
        Expr::Neg(inner) => set_expr(inner, moment),
        Expr::Add(left, right) => {
            set_expr(left, moment);
            set_expr(right, moment);
        }
        Expr::Sub(left, right) => {
            set_expr(left, moment);
            set_expr(right, moment);
        }
        Expr::Mul(left, right) => {
            set_expr(left, moment);
            set_expr(right, moment);
        }
    }
}

pub fn set_exprs(exprs: &mut [Expr], moment: Instant)
    ensures { exprs_view exprs.new ≡ map (timed_expr moment) (exprs_view exprs.old) }
{
    for expr in exprs.iter_mut() {
        set_expr(expr, moment);
    }
}
