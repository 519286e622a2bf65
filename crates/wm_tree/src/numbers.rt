//! A number for each space, 0 where none is set.

ghost use Rattle.std.specs.Prelude.{◌≡◌, ℕ, ◌==◌, if◌then◌else◌, OnOk, OnErr};
ghost use Rattle.wm_tree.specs.Versions.{number_at};

use std::collections::BTreeMap;
use wm_base::Memory;

pub type Numbers = BTreeMap<u32, u64>;

pub fn number_of(numbers: &Numbers, space: u32) -> u64
    ensures { result ≡ number_at numbers.now.entries space }
{
    numbers.get(&space).copied().unwrap_or(0)
}

pub fn set_number(numbers: &mut Numbers, space: u32, number: u64) -> Result<(), Memory>
    ensures ok { OnOk result ((s : ℕ) → number_at numbers.new.entries s ≡ (if s == space then number else number_at numbers.old.entries s)) }
    ensures err { OnErr result (numbers.new.entries ≡ numbers.old.entries) }
{
    numbers.insert(space, number)?;
    Ok(())
}

pub fn clear_number(numbers: &mut Numbers, space: u32)
    ensures { (s : ℕ) → number_at numbers.new.entries s ≡ (if s == space then 0 else number_at numbers.old.entries s) }
{
    let _ = numbers.remove(&space);
}
