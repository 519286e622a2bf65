//! Where the bytes of a script come from.
ghost use Rattle.std.specs.Prelude.{◌≡◌, ℕ, ◌<◌, ◌≤◌, List, [], ◌++◌, length, take, Ok, IfOk, OnErr};
ghost use Rattle.wm_station.specs.Cause.{SourceCause};

use crate::SourceFailed;

/// A stream of bytes, taken in pieces.
pub trait Source {
    /// Whether it tells its bytes.
    ghost tells: { Type 0 };

    /// The bytes left. Nothing is known of them where the source does not tell.
    ghost left: { Self → List ℕ };

    /// How often a take has failed, up to the last value of a u64.
    ghost faults: { Self → ℕ };

    /// Puts the next bytes at the front of `into`, and says how many. None, for an `into` that is not
    /// empty, is the end. What is behind them in `into`, or is in it after a failure, may be anything.
    fn take(&mut self, into: &mut [u8]) -> Result<usize, SourceFailed>
        ensures within { IfOk result (λ n. n ≤ length into.old) }
        ensures taken { tells → IfOk result (λ n. left self.old ≡ take n into.new ++ left self.new) }
        ensures end { tells → IfOk result (λ n. n ≡ 0 → 0 < length into.old → left self.old ≡ []) }
        ensures untaken { tells → OnErr result (left self.new ≡ left self.old) }
        ensures cause { SourceCause (faults self.old) (faults self.new) result }
        ensures nothing { length into.old ≡ 0 → result ≡ Ok 0 };
}
