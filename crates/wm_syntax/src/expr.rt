//! Expressions.
use crate::operand::Operand;

/// An expression. Parentheses leave no node, and chains nest to the left.
#[derive(Drop)]
pub enum Expr {
    Operand(Operand),
    Neg(Box<Expr>),
    Add(Box<Expr>, Box<Expr>),
    Sub(Box<Expr>, Box<Expr>),
    Mul(Box<Expr>, Box<Expr>),
}

/// A list of expressions.
pub type Exprs = Vec<Expr>;
