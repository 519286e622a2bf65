//! Indexes of records by their numbers.

ghost use Rattle.std.specs.Prelude.{◌≡◌, ℕ, ◌==◌, IfOk};
ghost use Rattle.std.specs.List.{find};
ghost use Rattle.std.specs.Option.{option_copied};
ghost use Rattle.wm_cells.specs.Lookups.{found, referred};
ghost use Rattle.wm_graph.specs.Rules.{differ};

use std::alloc::Global;
use wm_base::Memory;
use wm_chunks::NumberMap;
use wm_spec::record::{Lock, RowRecord, Savepoint, Space, Table, Version};

/// What has a number among others of its kind.
pub trait Numbered {
    ghost number_of: { Self → ℕ };

    fn number(&self) -> u64
        ensures { result ≡ number_of self.now };
}

impl Numbered for Table {
    ghost number_of = { λ t. t.number };

    fn number(&self) -> u64 {
        u64::from(self.number)
    }
}

impl Numbered for Space {
    ghost number_of = { λ s. s.number };

    fn number(&self) -> u64 {
        u64::from(self.number)
    }
}

impl Numbered for Version {
    ghost number_of = { λ v. v.number };

    fn number(&self) -> u64 {
        self.number
    }
}

impl Numbered for Savepoint {
    ghost number_of = { λ x. x.making };

    fn number(&self) -> u64 {
        self.making
    }
}

impl Numbered for Lock {
    ghost number_of = { λ x. x.making };

    fn number(&self) -> u64 {
        self.making
    }
}

impl Numbered for RowRecord {
    ghost number_of = { λ r. r.stamp };

    fn number(&self) -> u64 {
        self.stamp
    }
}

/// For each number the first item that has it. At opening numbers mostly ascend, and one that does is put behind all
/// others without a search.
pub type Index<'a, T> = NumberMap<&'a T>;

/// The index of a list, and whether the numbers of its items differ.
#[derive(Drop)]
pub struct Indexed<'a, T> {
    pub index: Index<'a, T>,
    pub differ: bool,
}

/// The item of a number.
pub fn look<'a, T>(index: &Index<'a, T>, number: u64) -> Option<&'a T>
    ensures { option_copied result ≡ found index.now.entries number }
{
    index.get(number).copied()
}

/// The index of the items.
pub fn index_of<'a, T: Numbered>(alloc: Global, items: &[&'a T]) -> Result<Indexed<'a, T>, Memory>
    ensures finds { IfOk result (λ i. (n : ℕ) → found i.index.entries n ≡ find (λ x. T.number_of x == n) (referred items.now)) }
    ensures differ { IfOk result (λ i. i.differ ≡ differ (λ x y. T.number_of x == T.number_of y) (referred items.now)) }
{
    let mut index = NumberMap::new(alloc);
    let mut differ = true;
    for item in items {
        let number = item.number();
        if index.get(number).is_some() {
            differ = false;
        } else {
            index.insert(number, *item)?;
        }
    }
    Ok(Indexed { index, differ })
}
