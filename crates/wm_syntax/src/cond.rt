//! Conditions.
use crate::constant::Consts;
use crate::operand::Operand;

/// A mark that compares.
#[derive(Clone, Copy, Debug, PartialEq)]
pub enum Cmp {
    Eq,
    /// `<>`
    NotEq,
    /// `!=`
    BangEq,
    Lt,
    Le,
    Gt,
    Ge,
}

/// A condition. Parentheses leave no node, and chains nest to the left.
#[derive(Drop)]
pub enum Cond {
    Or(Box<Cond>, Box<Cond>),
    And(Box<Cond>, Box<Cond>),
    Not(Box<Cond>),
    Compare {
        left: Operand,
        cmp: Cmp,
        right: Operand,
    },
    IsNull {
        what: Operand,
        negated: bool,
    },
    OneOf {
        what: Operand,
        negated: bool,
        list: Consts,
    },
    Between {
        what: Operand,
        negated: bool,
        low: Operand,
        high: Operand,
    },
}
