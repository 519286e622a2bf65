//! Calls that are to fail, for tests of those who make them.
ghost use Rattle.std.specs.Prelude.{◌≡◌, ℕ, ◌+◌, ◌-◌, ◌^◌, ◌↔◌, min, [], IsTrue, Contains};
ghost use Rattle.wm_station.specs.Planned.{FailsIn, FailsNext, NeverFails};

use std::alloc::Global;

/// Which calls of a kind are to fail, by their numbers from 0 on.
#[derive(Debug, Drop)]
pub struct Failing {
    numbers: Vec<u64>,
    made: u64,
}

impl Failing {
    /// Those with these numbers.
    pub fn at(numbers: Vec<u64>) -> Self
        ensures { (n : ℕ) → FailsIn result n ↔ Contains numbers.items n }
    {
        Failing { numbers, made: 0 }
    }

    /// None.
    pub fn never(alloc: Global) -> Self
        ensures { NeverFails result }
    {
        Failing::at(Vec::new(alloc))
    }

    // Counts a call, and says whether it is to fail.
    pub(crate) fn next_fails(&mut self) -> bool
        ensures listed { IsTrue result ↔ FailsNext self.old }
        ensures same { self.new.numbers.items ≡ self.old.numbers.items }
        ensures counted { self.new.made ≡ min (self.old.made + 1) (2 ^ 64 - 1) }
    {
        let number = self.made;
        self.made = number.saturating_add(1);
        self.numbers.contains(&number)
    }
}

/// The calls of a station that are to fail, and what they then do.
#[derive(Debug, Drop)]
pub struct Faults {
    /// Of `len` and `read` together.
    pub reads: Failing,
    pub writes: Failing,
    pub syncs: Failing,
    pub says: Failing,
    /// What a write that fails leaves at the front of its range, as far as the range goes.
    pub torn: Vec<u8>,
    /// How many bytes a say takes at most.
    pub say_limit: usize,
}

impl Faults {
    /// No call fails, and each say takes all.
    pub fn none(alloc: Global) -> Self
        ensures reads { NeverFails result.reads }
        ensures writes { NeverFails result.writes }
        ensures syncs { NeverFails result.syncs }
        ensures says { NeverFails result.says }
        ensures torn { result.torn.items ≡ [] }
        ensures all { result.say_limit ≡ 2 ^ 64 - 1 }
    {
        Faults {
            reads: Failing::never(alloc),
            writes: Failing::never(alloc),
            syncs: Failing::never(alloc),
            says: Failing::never(alloc),
            torn: Vec::new(alloc),
            say_limit: usize::MAX,
        }
    }
}
