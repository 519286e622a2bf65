//! What conditions and expressions are made of.
use crate::column::Col;
use crate::constant::{Const, PeriodEnd};
use wm_base::Name;

/// A period of a row, or one that is written.
#[derive(Drop)]
pub enum Per {
    /// WM_VALID.
    Valid { source: Option<Name> },
    Span { from: PeriodEnd, till: PeriodEnd },
}

/// An operator on two periods.
#[derive(Clone, Copy, Debug, PartialEq)]
pub enum Operator {
    Overlaps,
    Contains,
    Meets,
    Equals,
    LessThan,
    GreaterThan,
}

#[derive(Drop)]
pub enum Operand {
    Col(Col),
    Const(Const),
    /// 1 where the operator holds, else 0.
    Test {
        operator: Operator,
        left: Per,
        right: Per,
    },
}
