ghost use Rattle.std.specs.Prelude.{◌≡◌, ◌≢◌, IfOk, IfErr};
ghost use Rattle.wm_syntax.specs.Trees.{And, Or, Not, Compare, IsNull, OneOf, Between};
ghost use Rattle.wm_syntax.specs.Views.{cond_view, filter_view};
ghost use Rattle.wm_grammar.specs.ExpressionReaders.{comparison_at, next_constant_at, constant_list_at, chosen_at, test_of_at, test_at, and_at, conj_at, or_at, cond_of_at, negation_at, condition_at};
ghost use Rattle.wm_grammar.specs.QueryReaders.{filter_at};
ghost use Rattle.wm_grammar.specs.Sorts.{code_of};
ghost use Rattle.wm_conditions.specs.Parts.{compares_at, null_at, listed_at, high_at, bounds_at, compared_at};
ghost use Rattle.wm_terms.specs.Telling.{Told};
ghost use Rattle.wm_terms.specs.declared.error.ParseError.TheVariants.{Memory};

use std::alloc::Global;
use wm_grammar::Sort;
use wm_syntax::cond::{Cmp, Cond};
use wm_syntax::constant::{Const, Consts};
use wm_syntax::operand::Operand;
use wm_terms::cursor::Cursor;
use wm_terms::depth::DEPTH;
use wm_terms::error::ParseError;
use wm_terms::operands::{constant, operand};

/// The mark of that sort, which compares so.
fn marked(cursor: &mut Cursor, sort: Sort, cmp: Cmp) -> Result<Cmp, ParseError>
    requires { code_of sort ≢ 77 }
    ensures { Told (λ c. c) result cursor.new (compares_at (code_of sort) cmp cursor.old) }
{
    cursor.mark(sort)?;
    Ok(cmp)
}

#[tactic(auto, unfolding(wm_grammar::specs::ExpressionReaders::comparison_at))]
fn comparison(cursor: &mut Cursor) -> Result<Cmp, ParseError>
    ensures { Told (λ c. c) result cursor.new (comparison_at cursor.old) }
{
    if cursor.is(Sort::Eq) {
        return marked(cursor, Sort::Eq, Cmp::Eq);
    }
    if cursor.is(Sort::NotEq) {
        return marked(cursor, Sort::NotEq, Cmp::NotEq);
    }
    if cursor.is(Sort::BangEq) {
        return marked(cursor, Sort::BangEq, Cmp::BangEq);
    }
    if cursor.is(Sort::Lt) {
        return marked(cursor, Sort::Lt, Cmp::Lt);
    }
    if cursor.is(Sort::Le) {
        return marked(cursor, Sort::Le, Cmp::Le);
    }
    if cursor.is(Sort::Gt) {
        return marked(cursor, Sort::Gt, Cmp::Gt);
    }
    marked(cursor, Sort::Ge, Cmp::Ge)
}

fn next_constant(cursor: &mut Cursor, alloc: Global) -> Result<Const, ParseError>
    ensures { Told (λ k. k) result cursor.new (next_constant_at cursor.old) }
{
    cursor.mark(Sort::Comma)?;
    constant(cursor, alloc)
}

#[tactic(auto, unfolding(wm_grammar::specs::ExpressionReaders::constant_list_at))]
fn constant_list(cursor: &mut Cursor, alloc: Global) -> Result<Consts, ParseError>
    ensures { Told (λ ks. ks) result cursor.new (constant_list_at cursor.old) }
{
    let first = constant(cursor, alloc)?;
    let mut list = Vec::new(alloc);
    list.push(first)?;
    'items: while cursor.is(Sort::Comma) {
        let next = next_constant(cursor, alloc)?;
        list.push(next)?;
    }
    Ok(Consts::from_vec(list))
}

/// A condition in a box, in which it is handed on while it is read: as a value it is large, and what its drop takes is proved once.
fn boxed(alloc: Global, test: Cond) -> Result<Box<Cond>, ParseError>
    ensures ok { IfOk result (λ b. b.value ≡ test) }
    ensures err { IfErr result (λ e. e ≡ Memory) }
{
    match Box::new(alloc, test) {
        Ok(made) => Ok(made),
        Err(failed) => {
            drop(failed);
            Err(ParseError::Memory)
        }
    }
}

fn null_test(alloc: Global, what: Operand, negated: bool) -> Result<Box<Cond>, ParseError>
    ensures ok { IfOk result (λ b. cond_view b.value ≡ IsNull what negated) }
    ensures err { IfErr result (λ e. e ≡ Memory) }
{
    boxed(alloc, Cond::IsNull { what, negated })
}

fn comparison_of(
    alloc: Global,
    left: Operand,
    cmp: Cmp,
    right: Operand,
) -> Result<Box<Cond>, ParseError>
    ensures ok { IfOk result (λ b. cond_view b.value ≡ Compare left cmp right) }
    ensures err { IfErr result (λ e. e ≡ Memory) }
{
    boxed(alloc, Cond::Compare { left, cmp, right })
}

fn one_of(
    alloc: Global,
    what: Operand,
    negated: bool,
    list: Consts,
) -> Result<Box<Cond>, ParseError>
    ensures ok { IfOk result (λ b. cond_view b.value ≡ OneOf what negated list) }
    ensures err { IfErr result (λ e. e ≡ Memory) }
{
    boxed(
        alloc,
        Cond::OneOf {
            what,
            negated,
            list,
        },
    )
}

fn between(
    alloc: Global,
    what: Operand,
    negated: bool,
    low: Operand,
    high: Operand,
) -> Result<Box<Cond>, ParseError>
    ensures ok { IfOk result (λ b. cond_view b.value ≡ Between what negated low high) }
    ensures err { IfErr result (λ e. e ≡ Memory) }
{
    boxed(
        alloc,
        Cond::Between {
            what,
            negated,
            low,
            high,
        },
    )
}

fn not_of(alloc: Global, negated: Box<Cond>) -> Result<Box<Cond>, ParseError>
    ensures ok { IfOk result (λ b. cond_view b.value ≡ Not (cond_view negated.value)) }
    ensures err { IfErr result (λ e. e ≡ Memory) }
{
    boxed(alloc, Cond::Not(negated))
}

fn and_of(alloc: Global, left: Box<Cond>, right: Box<Cond>) -> Result<Box<Cond>, ParseError>
    ensures ok { IfOk result (λ b. cond_view b.value ≡ And (cond_view left.value) (cond_view right.value)) }
    ensures err { IfErr result (λ e. e ≡ Memory) }
{
    boxed(alloc, Cond::And(left, right))
}

fn or_of(alloc: Global, left: Box<Cond>, right: Box<Cond>) -> Result<Box<Cond>, ParseError>
    ensures ok { IfOk result (λ b. cond_view b.value ≡ Or (cond_view left.value) (cond_view right.value)) }
    ensures err { IfErr result (λ e. e ≡ Memory) }
{
    boxed(alloc, Cond::Or(left, right))
}

/// The list behind IN.
fn listed(cursor: &mut Cursor, alloc: Global) -> Result<Consts, ParseError>
    ensures { Told (λ ks. ks) result cursor.new (listed_at cursor.old) }
{
    cursor.mark(Sort::In)?;
    cursor.mark(Sort::Open)?;
    let list = constant_list(cursor, alloc)?;
    match cursor.mark(Sort::Close) {
        Ok(()) => Ok(list),
        Err(fault) => {
            drop(list);
            Err(fault)
        }
    }
}

/// The upper bound, behind AND.
fn high(cursor: &mut Cursor, alloc: Global) -> Result<Operand, ParseError>
    ensures { Told (λ x. x) result cursor.new (high_at cursor.old) }
{
    cursor.mark(Sort::And)?;
    operand(cursor, alloc)
}

/// The bounds behind BETWEEN.
fn bounds(cursor: &mut Cursor, alloc: Global) -> Result<(Operand, Operand), ParseError>
    ensures { Told (λ p. p) result cursor.new (bounds_at cursor.old) }
{
    cursor.mark(Sort::Between)?;
    let low = operand(cursor, alloc)?;
    match high(cursor, alloc) {
        Ok(high) => Ok((low, high)),
        Err(fault) => {
            drop(low);
            Err(fault)
        }
    }
}

/// What follows an operand and perhaps NOT: IN or BETWEEN.
#[tactic(auto, unfolding(wm_grammar::specs::ExpressionReaders::chosen_at))]
fn chosen(
    cursor: &mut Cursor,
    alloc: Global,
    what: Operand,
    negated: bool,
) -> Result<Box<Cond>, ParseError>
    ensures { Told (λ b. cond_view b.value) result cursor.new (chosen_at what negated cursor.old) }
{
    if cursor.is(Sort::In) {
        return match listed(cursor, alloc) {
            Ok(list) => one_of(alloc, what, negated, list),
            Err(fault) => {
                drop(what);
                Err(fault)
            }
        };
    }
    match bounds(cursor, alloc) {
        Ok((low, high)) => between(alloc, what, negated, low, high),
        Err(fault) => {
            drop(what);
            Err(fault)
        }
    }
}

/// IS NULL, and whether it is negated.
fn null_mark(cursor: &mut Cursor) -> Result<bool, ParseError>
    ensures { Told (λ b. b) result cursor.new (null_at cursor.old) }
{
    cursor.mark(Sort::Is)?;
    let negated = cursor.is(Sort::Not);
    if negated {
        cursor.mark(Sort::Not)?;
    }
    cursor.mark(Sort::Null)?;
    Ok(negated)
}

/// A mark that compares, and the operand behind it.
fn compared(cursor: &mut Cursor, alloc: Global) -> Result<(Cmp, Operand), ParseError>
    ensures { Told (λ p. p) result cursor.new (compared_at cursor.old) }
{
    let cmp = comparison(cursor)?;
    let right = operand(cursor, alloc)?;
    Ok((cmp, right))
}

/// What makes a test of an operand.
#[tactic(auto, unfolding(wm_grammar::specs::ExpressionReaders::test_of_at))]
fn test_of(cursor: &mut Cursor, alloc: Global, what: Operand) -> Result<Box<Cond>, ParseError>
    ensures { Told (λ b. cond_view b.value) result cursor.new (test_of_at what cursor.old) }
{
    if cursor.is(Sort::Is) {
        return match null_mark(cursor) {
            Ok(negated) => null_test(alloc, what, negated),
            Err(fault) => {
                drop(what);
                Err(fault)
            }
        };
    }
    if cursor.is(Sort::Not) {
        return match cursor.mark(Sort::Not) {
            Ok(()) => chosen(cursor, alloc, what, true),
            Err(fault) => {
                drop(what);
                Err(fault)
            }
        };
    }
    if cursor.is_any(&[
        Sort::Eq,
        Sort::NotEq,
        Sort::BangEq,
        Sort::Lt,
        Sort::Le,
        Sort::Gt,
        Sort::Ge,
    ]) {
        return match compared(cursor, alloc) {
            Ok((cmp, right)) => comparison_of(alloc, what, cmp, right),
            Err(fault) => {
                drop(what);
                Err(fault)
            }
        };
    }
    chosen(cursor, alloc, what, false)
}

#[tactic(auto, unfolding(wm_grammar::specs::ExpressionReaders::test_at))]
fn test(cursor: &mut Cursor, alloc: Global) -> Result<Box<Cond>, ParseError>
    ensures { Told (λ b. cond_view b.value) result cursor.new (test_at cursor.old) }
{
    let what = operand(cursor, alloc)?;
    test_of(cursor, alloc, what)
}

/// A negation, in which at most `depth` parentheses and NOT are open.
#[cycle(conditions)]
#[tactic(auto, unfolding(wm_grammar::specs::ExpressionReaders::negation_at))]
fn negation(cursor: &mut Cursor, alloc: Global, depth: u8) -> Result<Box<Cond>, ParseError>
    ensures { Told (λ b. cond_view b.value) result cursor.new (negation_at depth cursor.old) }
{
    if depth == 0 {
        return test(cursor, alloc);
    }
    if cursor.is(Sort::Not) {
        cursor.mark(Sort::Not)?;
        let negated = negation(cursor, alloc, depth - 1)?;
        let found = not_of(alloc, negated)?;
        return Ok(found);
    }
    if cursor.is(Sort::Open) {
        cursor.mark(Sort::Open)?;
        let inner = cond_within(cursor, alloc, depth - 1)?;
        cursor.mark(Sort::Close)?;
        return Ok(inner);
    }
    test(cursor, alloc)
}

#[cycle(conditions)]
fn next_negation(cursor: &mut Cursor, alloc: Global, depth: u8) -> Result<Box<Cond>, ParseError>
    ensures { Told (λ b. cond_view b.value) result cursor.new (and_at (negation_at depth) cursor.old) }
{
    cursor.mark(Sort::And)?;
    negation(cursor, alloc, depth)
}

#[cycle(conditions)]
fn conj(cursor: &mut Cursor, alloc: Global, depth: u8) -> Result<Box<Cond>, ParseError>
    ensures { Told (λ b. cond_view b.value) result cursor.new (conj_at (negation_at depth) cursor.old) }
{
    let mut all = negation(cursor, alloc, depth)?;
    'items: while cursor.is(Sort::And) {
        let next = next_negation(cursor, alloc, depth)?;
        let made = and_of(alloc, all, next)?;
        all = made;
    }
    Ok(all)
}

#[cycle(conditions)]
fn next_conj(cursor: &mut Cursor, alloc: Global, depth: u8) -> Result<Box<Cond>, ParseError>
    ensures { Told (λ b. cond_view b.value) result cursor.new (or_at (negation_at depth) cursor.old) }
{
    cursor.mark(Sort::Or)?;
    conj(cursor, alloc, depth)
}

#[cycle(conditions)]
fn cond_within(cursor: &mut Cursor, alloc: Global, depth: u8) -> Result<Box<Cond>, ParseError>
    ensures { Told (λ b. cond_view b.value) result cursor.new (cond_of_at (negation_at depth) cursor.old) }
{
    let mut all = conj(cursor, alloc, depth)?;
    'items: while cursor.is(Sort::Or) {
        let next = next_conj(cursor, alloc, depth)?;
        let made = or_of(alloc, all, next)?;
        all = made;
    }
    Ok(all)
}

/// A condition.
#[tactic(auto, unfolding(wm_grammar::specs::ExpressionReaders::condition_at))]
pub fn condition(cursor: &mut Cursor, alloc: Global) -> Result<Cond, ParseError>
    ensures { Told cond_view result cursor.new (condition_at 64 cursor.old) }
{
    match cond_within(cursor, alloc, DEPTH) {
        Ok(found) => Ok(Box::into_inner(found)),
        Err(e) => Err(e),
    }
}

/// The condition behind WHERE, if it stands there.
pub fn filter(cursor: &mut Cursor, alloc: Global) -> Result<Option<Cond>, ParseError>
    ensures { Told filter_view result cursor.new (filter_at 64 cursor.old) }
{
    if cursor.is(Sort::Where) {
        cursor.mark(Sort::Where)?;
        let test = condition(cursor, alloc)?;
        return Ok(Some(test));
    }
    Ok(None)
}
