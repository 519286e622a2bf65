//! Queries: their items, sources and orders.
ghost use Rattle.std.specs.Prelude.{◌≡◌};

use crate::column::{Col, Cols};
use crate::cond::Cond;
use crate::expr::Expr;
use std::marker::Model;
use wm_base::Name;

/// An aggregate.
#[derive(Clone, Copy, Debug, PartialEq)]
pub enum Agg {
    Count,
    Sum,
    Min,
    Max,
}

/// An item of a query.
#[derive(Drop)]
pub enum Item {
    Expr(Expr),
    /// COUNT(*)
    CountAll,
    Agg { agg: Agg, of: Expr },
}

#[derive(Drop)]
pub struct Out {
    pub item: Item,
    pub alias: Option<Name>,
}

/// A list of items.
pub type Outs = Vec<Out>;

#[derive(Drop)]
pub enum Projection {
    /// `*`
    All,
    Outs(Outs),
}

/// A source of rows. It has a condition of its own exactly where it stands behind JOIN.
#[derive(Drop)]
pub struct Src {
    pub table: Name,
    pub alias: Option<Name>,
    pub on: Option<Cond>,
}

/// A list of sources.
pub type Srcs = Vec<Src>;

#[derive(Drop)]
pub enum OrderBy {
    Position(i64),
    Col(Col),
}

#[derive(Drop)]
pub struct Order {
    pub by: OrderBy,
    pub descending: bool,
}

/// A list of orders.
#[derive(Drop)]
pub struct Orders {
    list: Vec<Order>,
}

impl Model for Orders {
    ghost use Rattle.std.specs.Prelude.{List};
    ghost use Rattle.wm_syntax.specs.declared.query.Order.{Order as OneOrder};

    ghost Value = { List OneOrder };

    ghost view = { λ o. o.list.items };
}

impl Orders {
    pub fn from_vec(list: Vec<Order>) -> Orders
        ensures { result ≡ list.items }
    {
        Orders { list }
    }

    pub fn as_slice(&self) -> &[Order]
        ensures { result.now ≡ self.now }
    {
        self.list.as_slice()
    }

    pub fn into_vec(self) -> Vec<Order>
        ensures { result.items ≡ self }
    {
        self.list
    }
}

#[derive(Drop)]
pub struct Query {
    pub distinct: bool,
    pub projection: Projection,
    pub sources: Srcs,
    pub filter: Option<Cond>,
    pub groups: Cols,
    pub orders: Orders,
}
