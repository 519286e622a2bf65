ghost use Rattle.std.specs.Prelude.{◌≡◌, map};
ghost use Rattle.wm_timed.specs.Timed.{timed_end, timed_const, timed_consts, timed_per, timed_operand};

use std::alloc::Global;
use std::mem;
use wm_base::Instant;
use wm_syntax::constant::{Const, Consts, PeriodEnd};
use wm_syntax::operand::{Operand, Per};

fn set_end(end: &mut PeriodEnd, moment: Instant)
    ensures { end.new ≡ timed_end moment end.old }
{
    if let PeriodEnd::Sysdate = *end {
        *end = PeriodEnd::Time(moment);
    }
}

/// Puts the moment in the place of SYSDATE.
pub fn set_const(constant: &mut Const, moment: Instant)
    ensures { constant.new ≡ timed_const moment constant.old }
{
    match constant {
        Const::Sysdate => *constant = Const::Time(moment),
        Const::Span { from, till } => {
            set_end(from, moment);
            set_end(till, moment);
        }
        Const::Null | Const::Num(_) | Const::Text(_) | Const::Time(_) => {}
    }
}

fn set_each(constants: &mut [Const], moment: Instant)
    ensures { constants.new ≡ map (timed_const moment) constants.old }
{
    for constant in constants.iter_mut() {
        set_const(constant, moment);
    }
}

/// Puts the moment in the place of SYSDATE in a list. An empty list stands in its place meanwhile, which takes no memory.
pub fn set_consts(alloc: Global, constants: &mut Consts, moment: Instant)
    ensures { constants.new ≡ timed_consts moment constants.old }
{
    let empty = Consts::from_vec(Vec::new(alloc));
    let mut list = mem::replace(constants, empty).into_vec();
    set_each(list.as_mut_slice(), moment);
    *constants = Consts::from_vec(list);
}

fn set_per(per: &mut Per, moment: Instant)
    ensures { per.new ≡ timed_per moment per.old }
{
    match per {
        Per::Span { from, till } => {
            set_end(from, moment);
            set_end(till, moment);
        }
        Per::Valid { .. } => {}
    }
}

pub fn set_operand(operand: &mut Operand, moment: Instant)
    ensures { operand.new ≡ timed_operand moment operand.old }
{
    match operand {
        Operand::Const(constant) => set_const(constant, moment),
        Operand::Test { left, right, .. } => {
            set_per(left, moment);
            set_per(right, moment);
        }
        Operand::Col(_) => {}
    }
}
