ghost use Rattle.std.specs.Prelude.{◌≡◌};
ghost use Rattle.wm_syntax.specs.Views.{cond_view, filter_view};
ghost use Rattle.wm_timed.specs.Timed.{timed_cond, timed_filter};

use crate::operands::{set_consts, set_operand};
use std::alloc::Global;
use wm_base::Instant;
use wm_syntax::cond::Cond;

pub fn set_cond(alloc: Global, cond: &mut Cond, moment: Instant)
    ensures { cond_view cond.new ≡ timed_cond moment (cond_view cond.old) }
{
    match cond {
        Cond::Or(left, right) => {
            set_cond(alloc, left, moment);
            set_cond(alloc, right, moment);
        }
        Cond::And(left, right) => {
            set_cond(alloc, left, moment);
            set_cond(alloc, right, moment);
        }
        Cond::Not(inner) => set_cond(alloc, inner, moment),
        Cond::Compare { left, right, .. } => {
            set_operand(left, moment);
            set_operand(right, moment);
        }
        Cond::IsNull { what, .. } => set_operand(what, moment),
        Cond::OneOf { what, list, .. } => {
            set_operand(what, moment);
            set_consts(alloc, list, moment);
        }
        Cond::Between {
            what,
            low,
            high,
            ..
        } => {
            set_operand(what, moment);
            set_operand(low, moment);
            set_operand(high, moment);
        }
    }
}

pub fn set_filter(alloc: Global, filter: &mut Option<Cond>, moment: Instant)
    ensures { filter_view filter.new ≡ timed_filter moment (filter_view filter.old) }
{
    if let Some(cond) = filter {
        set_cond(alloc, cond, moment);
    }
}
