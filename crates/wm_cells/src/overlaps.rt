//! Whether items that last for a time overlap.

ghost use Rattle.std.specs.Prelude.{◌≡◌, nat_lt, true, IfOk};
ghost use Rattle.std.specs.List.{list_all};
ghost use Rattle.std.specs.Ordering.{nat_cmp, on, then_cmp};
ghost use Rattle.std.proofs.lemmas.Cmp.{nat_cmp_total, on_total, then_total};
ghost use Rattle.wm_base.specs.Orders.{key_order_total};
ghost use Rattle.wm_cells.specs.Lookups.{referred};
ghost use Rattle.wm_cells.specs.Order.{cells_order, beginning_order, neighbours_differ, overlap};
ghost use Rattle.wm_graph.specs.Rules.{differ};
ghost use Rattle.wm_spec.specs.declared.record.cell_range.CellRange.{CellRange as Cells};

use crate::distinct::Ordered;
use std::alloc::Global;
use std::cmp::Ordering;
use wm_base::Memory;
use wm_spec::record::{CellRange, PieceRecord, Trace};

/// What lasts for a time on cells. Its order finds those equal that may not overlap.
pub trait Lasting: Ordered {
    ghost cells_of: { Self → Cells };

    fn cells(&self) -> &CellRange
        ensures { result.now ≡ cells_of self.now };
}

/// The order of cells by table and key.
fn cells_order(cells: &CellRange, others: &CellRange) -> Ordering
    ensures { result ≡ cells_order cells.now others.now }
{
    cells
        .table
        .cmp(&others.table)
        .then_with(|| cells.key.compare(&others.key))
}

impl Ordered for PieceRecord {
    ghost order_of = { then_cmp (on (λ x. x.version) nat_cmp) (on (λ x. x.cells) cells_order) };

    ghost total = { then_total (on_total (λ x. x.version) nat_cmp_total) (on_total (λ x. x.cells) (then_total (on_total (λ c. c.table) nat_cmp_total) (on_total (λ c. c.key) key_order_total))) };

    fn order(&self, other: &PieceRecord) -> Ordering {
        self.version
            .cmp(&other.version)
            .then_with(|| cells_order(&self.cells, &other.cells))
    }
}

impl Lasting for PieceRecord {
    ghost cells_of = { λ x. x.cells };

    fn cells(&self) -> &CellRange {
        &self.cells
    }
}

impl Ordered for Trace {
    ghost order_of = { then_cmp (on (λ x. x.space) nat_cmp) (then_cmp (on (λ x. x.place) nat_cmp) (on (λ x. x.cells) cells_order)) };

    ghost total = { then_total (on_total (λ x. x.space) nat_cmp_total) (then_total (on_total (λ x. x.place) nat_cmp_total) (on_total (λ x. x.cells) (then_total (on_total (λ c. c.table) nat_cmp_total) (on_total (λ c. c.key) key_order_total)))) };

    fn order(&self, other: &Trace) -> Ordering {
        self.space
            .cmp(&other.space)
            .then_with(|| self.place.cmp(&other.place))
            .then_with(|| cells_order(&self.cells, &other.cells))
    }
}

impl Lasting for Trace {
    ghost cells_of = { λ x. x.cells };

    fn cells(&self) -> &CellRange {
        &self.cells
    }
}

/// The order of items in which those that may not overlap stand side by side, by their beginnings.
fn beginning_order<T: Lasting>(item: &T, other: &T) -> Ordering
    ensures { result ≡ beginning_order T.order_of T.cells_of item.now other.now }
{
    let from = item.cells().from;
    item.order(other).then(from.cmp(&other.cells().from))
}

/// Whether the two overlap though they may not.
fn overlap<T: Lasting>(item: &T, other: &T) -> bool
    ensures { result ≡ overlap T.order_of T.cells_of item.now other.now }
{
    let cells = item.cells();
    let others = other.cells();
    item.order(other).is_eq() && cells.from < others.till && others.from < cells.till
}

/// Whether no two neighbours overlap though they may not.
fn neighbours_agree<T: Lasting>(items: &[&T]) -> bool
    ensures { result ≡ neighbours_differ (overlap T.order_of T.cells_of) (referred items.now) }
{
    for place in 1..items.len() {
        if overlap(items[place - 1], items[place]) {
            return false;
        }
    }
    true
}

/// Whether no two items overlap that may not, each of which begins before it ends. In their order those that do are
/// neighbours.
pub fn are_apart<T: Lasting>(alloc: Global, items: &[&T]) -> Result<bool, Memory>
    requires { list_all (λ x. nat_lt (T.cells_of x).from (T.cells_of x).till) (referred items.now) ≡ true }
    ensures { IfOk result (λ apart. apart ≡ differ (overlap T.order_of T.cells_of) (referred items.now)) }
{
    let mut sorted = Vec::from_slice(alloc, items)?;
    sorted.sort_by(|item, other| beginning_order(*item, *other))?;
    let apart = neighbours_agree(sorted.as_slice());
    Ok(apart)
}
