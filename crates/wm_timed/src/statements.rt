ghost use Rattle.std.specs.Prelude.{◌≡◌, map, false};
ghost use Rattle.wm_syntax.specs.Views.{sets_view, statement_view};
ghost use Rattle.wm_timed.specs.Timed.{timed_set, timed_value, timed_arg, timed};
ghost use Rattle.wm_timed.specs.Left.{has_sysdate};

use crate::conditions::set_filter;
use crate::expressions::{set_expr, set_exprs};
use crate::operands::set_const;
use crate::queries::set_query;
use std::alloc::Global;
use std::mem;
use wm_base::Instant;
use wm_syntax::statement::{Arg, ArgValue, Args, Set, Statement};

fn set_sets(sets: &mut [Set], moment: Instant)
    ensures { sets_view sets.new ≡ map (timed_set moment) (sets_view sets.old) }
{
    for set in sets.iter_mut() {
        set_expr(&mut set.becomes, moment);
    }
}

fn set_value(value: &mut ArgValue, moment: Instant)
    ensures { value.new ≡ timed_value moment value.old }
{
    match value {
        ArgValue::Const(constant) => set_const(constant, moment),
        ArgValue::Bool(_) => {}
    }
}

fn set_each(args: &mut [Arg], moment: Instant)
    ensures { args.new ≡ map (timed_arg moment) args.old }
{
    for arg in args.iter_mut() {
        set_value(&mut arg.value, moment);
    }
}

/// Puts the moment in the place of SYSDATE in arguments. An empty list stands in their place meanwhile, which takes no memory.
fn set_args(alloc: Global, args: &mut Args, moment: Instant)
    ensures { args.new ≡ map (timed_arg moment) args.old }
{
    let empty = Args::from_vec(Vec::new(alloc));
    let mut list = mem::replace(args, empty).into_vec();
    set_each(list.as_mut_slice(), moment);
    *args = Args::from_vec(list);
}

/// Puts the moment in the place of each SYSDATE of a statement, part by part.
fn set_parts(alloc: Global, statement: &mut Statement, moment: Instant)
    ensures { statement_view statement.new ≡ timed moment (statement_view statement.old) }
{
    match statement {
        Statement::Create { .. } => {}
        Statement::Insert { values, .. } => set_exprs(values.as_mut_slice(), moment),
        Statement::Update { sets, filter, .. } => {
            set_sets(sets.as_mut_slice(), moment);
            set_filter(alloc, filter, moment);
        }
        Statement::Delete { filter, .. } => set_filter(alloc, filter, moment),
        Statement::Select(query) => set_query(alloc, query, moment),
        Statement::Call {
            args,
            condition,
            ..
        } => {
            set_args(alloc, args, moment);
            set_filter(alloc, condition, moment);
        }
    }
}

/// Puts the moment in the place of each SYSDATE. It allocates nothing.
#[tactic(auto, using(crate::proofs::NoneLeft::none_left))]
pub fn set_moment(alloc: Global, statement: &mut Statement, moment: Instant)
    ensures value { statement_view statement.new ≡ timed moment (statement_view statement.old) }
    ensures none_left { has_sysdate (statement_view statement.new) ≡ false }
{
    set_parts(alloc, statement, moment);
}
