ghost use Rattle.std.specs.Prelude.{◌≡◌, IfOk, IfErr};
ghost use Rattle.wm_syntax.specs.Trees.{Mul};
ghost use Rattle.wm_syntax.specs.Views.{expr_view};
ghost use Rattle.wm_grammar.specs.Expressions.{signed};
ghost use Rattle.wm_grammar.specs.ExpressionReaders.{times_at, term_at, signed_term_at, expr_of_at, factor_at, expr_at};
ghost use Rattle.wm_terms.specs.Telling.{Told};
ghost use Rattle.wm_terms.specs.declared.error.ParseError.TheVariants.{Memory};

use std::alloc::Global;
use wm_grammar::Sort;
use wm_syntax::expr::Expr;
use wm_terms::cursor::Cursor;
use wm_terms::depth::DEPTH;
use wm_terms::error::ParseError;
use wm_terms::operands::plain_operand;

/// An expression in a box.
fn boxed(alloc: Global, inner: Expr) -> Result<Box<Expr>, ParseError>
    ensures ok { IfOk result (λ b. b.value ≡ inner) }
    ensures err { IfErr result (λ e. e ≡ Memory) }
{
    match Box::new(alloc, inner) {
        Ok(made) => Ok(made),
        Err(failed) => {
            drop(failed);
            Err(ParseError::Memory)
        }
    }
}

/// Two operands, each in a box.
fn both_boxed(alloc: Global, left: Expr, right: Expr) -> Result<(Box<Expr>, Box<Expr>), ParseError>
    ensures left { IfOk result (λ p. p.0.value ≡ left) }
    ensures right { IfOk result (λ p. p.1.value ≡ right) }
    ensures err { IfErr result (λ e. e ≡ Memory) }
{
    match boxed(alloc, left) {
        Ok(one) => match boxed(alloc, right) {
            Ok(other) => Ok((one, other)),
            Err(fault) => {
                drop(one);
                Err(fault)
            }
        },
        Err(fault) => {
            drop(right);
            Err(fault)
        }
    }
}

fn product_of(alloc: Global, left: Expr, right: Expr) -> Result<Expr, ParseError>
    ensures ok { IfOk result (λ x. expr_view x ≡ Mul (expr_view left) (expr_view right)) }
    ensures err { IfErr result (λ e. e ≡ Memory) }
{
    let (one, other) = both_boxed(alloc, left, right)?;
    Ok(Expr::Mul(one, other))
}

fn sum_of(alloc: Global, minus: bool, left: Expr, right: Expr) -> Result<Expr, ParseError>
    ensures ok { IfOk result (λ x. expr_view x ≡ signed minus (expr_view left) (expr_view right)) }
    ensures err { IfErr result (λ e. e ≡ Memory) }
{
    let (one, other) = both_boxed(alloc, left, right)?;
    if minus {
        return Ok(Expr::Sub(one, other));
    }
    Ok(Expr::Add(one, other))
}

/// A factor, in which at most `depth` parentheses and signs are open.
#[cycle(expressions)]
#[tactic(auto, unfolding(wm_grammar::specs::ExpressionReaders::factor_at))]
fn factor(cursor: &mut Cursor, alloc: Global, depth: u8) -> Result<Expr, ParseError>
    ensures { Told expr_view result cursor.new (factor_at depth cursor.old) }
{
    if depth == 0 {
        let operand = plain_operand(cursor, alloc)?;
        return Ok(Expr::Operand(operand));
    }
    if cursor.is(Sort::Minus) {
        cursor.mark(Sort::Minus)?;
        let negated = factor(cursor, alloc, depth - 1)?;
        let inner = boxed(alloc, negated)?;
        return Ok(Expr::Neg(inner));
    }
    if cursor.is(Sort::Open) {
        cursor.mark(Sort::Open)?;
        let inner = expr_within(cursor, alloc, depth - 1)?;
        return match cursor.mark(Sort::Close) {
            Ok(()) => Ok(inner),
            Err(fault) => {
                drop(inner);
                Err(fault)
            }
        };
    }
    let operand = plain_operand(cursor, alloc)?;
    Ok(Expr::Operand(operand))
}

#[cycle(expressions)]
fn times(cursor: &mut Cursor, alloc: Global, depth: u8) -> Result<Expr, ParseError>
    ensures { Told expr_view result cursor.new (times_at (factor_at depth) cursor.old) }
{
    cursor.mark(Sort::Star)?;
    factor(cursor, alloc, depth)
}

#[cycle(expressions)]
fn term(cursor: &mut Cursor, alloc: Global, depth: u8) -> Result<Expr, ParseError>
    ensures { Told expr_view result cursor.new (term_at (factor_at depth) cursor.old) }
{
    let mut all = factor(cursor, alloc, depth)?;
    'items: while cursor.is(Sort::Star) {
        let next = match times(cursor, alloc, depth) {
            Ok(next) => next,
            Err(fault) => {
                drop(all);
                return Err(fault);
            }
        };
        let made = product_of(alloc, all, next)?;
        all = made;
    }
    Ok(all)
}

/// A term behind a sign, and whether the sign is a minus.
#[cycle(expressions)]
fn signed_term(cursor: &mut Cursor, alloc: Global, depth: u8) -> Result<(bool, Expr), ParseError>
    ensures { Told (λ p. (p.0, expr_view p.1)) result cursor.new (signed_term_at (factor_at depth) cursor.old) }
{
    if cursor.is(Sort::Plus) {
        cursor.mark(Sort::Plus)?;
        let next = term(cursor, alloc, depth)?;
        return Ok((false, next));
    }
    cursor.mark(Sort::Minus)?;
    let next = term(cursor, alloc, depth)?;
    Ok((true, next))
}

#[cycle(expressions)]
fn expr_within(cursor: &mut Cursor, alloc: Global, depth: u8) -> Result<Expr, ParseError>
    ensures { Told expr_view result cursor.new (expr_of_at (factor_at depth) cursor.old) }
{
    let mut all = term(cursor, alloc, depth)?;
    'items: while cursor.is_any(&[Sort::Plus, Sort::Minus]) {
        let (minus, next) = match signed_term(cursor, alloc, depth) {
            Ok(read) => read,
            Err(fault) => {
                drop(all);
                return Err(fault);
            }
        };
        let made = sum_of(alloc, minus, all, next)?;
        all = made;
    }
    Ok(all)
}

/// An expression.
#[tactic(auto, unfolding(wm_grammar::specs::ExpressionReaders::expr_at))]
pub fn expr(cursor: &mut Cursor, alloc: Global) -> Result<Expr, ParseError>
    ensures { Told expr_view result cursor.new (expr_at 64 cursor.old) }
{
    expr_within(cursor, alloc, DEPTH)
}
