//! How many items each workspace has.
ghost use Rattle.std.specs.Prelude.{◌≡◌, ◌==◌, ℕ, IfOk};
ghost use Rattle.std.specs.List.{count_by};
ghost use Rattle.wm_cells.specs.Lookups.{referred, counted};

use std::alloc::Global;
use std::collections::BTreeMap;
use wm_base::Memory;
use wm_spec::record::{Savepoint, Turn};

/// What is of a workspace.
pub trait Placed {
    ghost space_of: { Self → ℕ };

    fn space(&self) -> u32
        ensures { result ≡ space_of self.now };
}

impl Placed for Savepoint {
    ghost space_of = { λ x. x.space };

    fn space(&self) -> u32 {
        self.space
    }
}

impl Placed for Turn {
    ghost space_of = { λ x. x.space };

    fn space(&self) -> u32 {
        self.space
    }
}

/// How many items each workspace has that has one.
pub type Counts = BTreeMap<u32, u64>;

/// How many items a workspace has.
pub fn count_of(counts: &Counts, space: u32) -> u64
    ensures { result ≡ counted counts.now.entries space }
{
    counts.get(&space).copied().unwrap_or(0)
}

/// The counts of the items of each workspace.
pub fn counts_of<T: Placed>(alloc: Global, items: &[&T]) -> Result<Counts, Memory>
    ensures { IfOk result (λ counts. (n : ℕ) → counted counts.entries n ≡ count_by (λ x. T.space_of x == n) (referred items.now)) }
{
    let mut counts = BTreeMap::new(alloc);
    for item in items {
        let space = item.space();
        let count = count_of(&counts, space);
        counts.insert(space, count + 1)?;
    }
    Ok(counts)
}
