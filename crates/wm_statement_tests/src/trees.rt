//! The trees of ID = 1 and of a query with it: one constructor in each function.
use std::alloc::Global;
use wm_base::{Memory, Name};
use wm_syntax::column::{Col, Cols};
use wm_syntax::cond::{Cmp, Cond};
use wm_syntax::constant::Const;
use wm_syntax::operand::Operand;
use wm_syntax::query::{Orders, Projection, Query, Src};

fn column(alloc: Global, name: &[u8]) -> Result<Operand, Memory> {
    let name = Name::copy_of(alloc, name)?;
    Ok(Operand::Col(Col {
        source: None,
        name,
        suffix: None,
    }))
}

/// ID = 1
pub fn first(alloc: Global) -> Result<Cond, Memory> {
    let left = column(alloc, b"ID")?;
    Ok(Cond::Compare {
        left,
        cmp: Cmp::Eq,
        right: Operand::Const(Const::Num(1)),
    })
}

/// SELECT * WHERE the condition holds
pub fn all_where(alloc: Global, cond: Cond) -> Query {
    Query {
        distinct: false,
        projection: Projection::All,
        sources: Vec::<Src>::new(alloc),
        filter: Some(cond),
        groups: Cols::from_vec(Vec::new(alloc)),
        orders: Orders::from_vec(Vec::new(alloc)),
    }
}
