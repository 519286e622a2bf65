//! Whether items that stand in an order differ.

ghost use Rattle.std.specs.Prelude.{◌≡◌, IfOk};
ghost use Rattle.std.specs.Cmp.{IsTotalOrder};
ghost use Rattle.std.specs.Cmp.Lexicographic.{slice_cmp};
ghost use Rattle.std.specs.Ordering.{nat_cmp, on, then_cmp};
ghost use Rattle.std.specs.declared.cmp.Ordering.{Ordering as Order};
ghost use Rattle.std.proofs.lemmas.Cmp.{nat_cmp_total, nat_list_cmp_total, on_total, then_total};
ghost use Rattle.wm_cells.specs.Lookups.{referred};
ghost use Rattle.wm_cells.specs.Order.{alike, neighbours_differ};
ghost use Rattle.wm_graph.specs.Rules.{differ};

use std::alloc::Global;
use std::cmp::Ordering;
use wm_base::Memory;
use wm_spec::record::{Hist, Savepoint, Turn};

/// What stands in an order that finds those equal of which only one may be there, or which may not overlap.
pub trait Ordered {
    ghost order_of: { Self → Self → Order };

    ghost total: { IsTotalOrder order_of };

    fn order(&self, other: &Self) -> Ordering
        ensures { result ≡ order_of self.now other.now };
}

impl Ordered for Savepoint {
    ghost order_of = { then_cmp (on (λ x. x.space) nat_cmp) (on (λ x. x.name) (slice_cmp nat_cmp)) };

    ghost total = { then_total (on_total (λ x. x.space) nat_cmp_total) (on_total (λ x. x.name) nat_list_cmp_total) };

    fn order(&self, other: &Savepoint) -> Ordering {
        self.space
            .cmp(&other.space)
            .then_with(|| self.name.compare(&other.name))
    }
}

impl Ordered for Hist {
    ghost order_of = { then_cmp (on (λ x. x.space) nat_cmp) (on (λ x. x.position) nat_cmp) };

    ghost total = { then_total (on_total (λ x. x.space) nat_cmp_total) (on_total (λ x. x.position) nat_cmp_total) };

    fn order(&self, other: &Hist) -> Ordering {
        self.space
            .cmp(&other.space)
            .then_with(|| self.position.cmp(&other.position))
    }
}

impl Ordered for Turn {
    ghost order_of = { then_cmp (on (λ x. x.space) nat_cmp) (on (λ x. x.rebase) nat_cmp) };

    ghost total = { then_total (on_total (λ x. x.space) nat_cmp_total) (on_total (λ x. x.rebase) nat_cmp_total) };

    fn order(&self, other: &Turn) -> Ordering {
        self.space
            .cmp(&other.space)
            .then_with(|| self.rebase.cmp(&other.rebase))
    }
}

/// Whether no two neighbours are equal.
fn neighbours_differ<T: Ordered>(items: &[&T]) -> bool
    ensures { result ≡ neighbours_differ (alike T.order_of) (referred items.now) }
{
    for place in 1..items.len() {
        if items[place - 1].order(items[place]).is_eq() {
            return false;
        }
    }
    true
}

/// Whether no two items are equal. In their order those that are stand side by side.
pub fn are_distinct<T: Ordered>(alloc: Global, items: &[&T]) -> Result<bool, Memory>
    ensures { IfOk result (λ distinct. distinct ≡ differ (alike T.order_of) (referred items.now)) }
{
    let mut sorted = Vec::from_slice(alloc, items)?;
    sorted.sort_by(|item, other| item.order(other))?;
    let distinct = neighbours_differ(sorted.as_slice());
    Ok(distinct)
}
