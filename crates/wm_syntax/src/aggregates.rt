//! Which queries answer groups of rows.
ghost use Rattle.std.specs.Prelude.{◌≡◌};
ghost use Rattle.std.specs.List.{list_any};
ghost use Rattle.wm_syntax.specs.Trees.{Out as OutTree, is_aggregate, has_aggregate, is_grouped};
ghost use Rattle.wm_syntax.specs.Views.{item_view, outs_view, projection_view, query_view};

use crate::query::{Item, Out, Projection, Query};

impl Item {
    pub fn is_aggregate(&self) -> bool
        ensures { result ≡ is_aggregate (item_view self.now) }
    {
        match self {
            Item::Expr(_) => false,
            Item::CountAll | Item::Agg { .. } => true,
        }
    }
}

fn any_aggregate(outs: &[Out]) -> bool
    ensures { result ≡ list_any (λ (o : OutTree). is_aggregate o.item) (outs_view outs.now) }
{
    for out in outs {
        if out.item.is_aggregate() {
            return true;
        }
    }
    false
}

impl Projection {
    pub fn has_aggregate(&self) -> bool
        ensures { result ≡ has_aggregate (projection_view self.now) }
    {
        match self {
            Projection::All => false,
            Projection::Outs(outs) => any_aggregate(outs.as_slice()),
        }
    }
}

impl Query {
    /// Whether the query has GROUP BY or an aggregate.
    pub fn is_grouped(&self) -> bool
        ensures { result ≡ is_grouped (query_view self.now) }
    {
        !self.groups.as_slice().is_empty() || self.projection.has_aggregate()
    }
}
