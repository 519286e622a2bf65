//! Moments, in seconds.
ghost use Rattle.std.specs.Prelude.{◌≡◌, ℕ, ◌<◌, ◌≤◌, ◌↔◌, IsTrue, IsSome, IfSome};

use std::marker::Model;

/// The instant that stands for "until changed": one second past the last moment, 9999-12-31 23:59:59.
pub const END: u64 = 315_537_897_600;

/// A count of seconds of UTC from 0001-01-01 00:00:00, which is 0, to `END`.
#[derive(Clone, Copy, Debug, PartialEq, Eq, PartialOrd, Ord)]
pub struct Instant {
    secs: u64,
}

impl Model for Instant {
    ghost use Rattle.std.specs.Prelude.{ℕ, ◌≤◌};
    ghost use Rattle.wm_base.specs.declared.instant.TheConstants.{END};

    ghost Value = { ℕ };

    ghost view = { λ i. i.secs };

    ghost invariant = { λ i. i.secs ≤ END };

    ghost inverse = { λ n. record { secs = n } };
}

impl Instant {
    /// The instant of so many seconds, or None exactly where they are more than `END`.
    pub fn new(secs: u64) -> Option<Instant>
        ensures valid { IsSome result ↔ (secs ≤ END) }
        ensures value { IfSome result (λ instant. instant ≡ secs) }
    {
        if secs <= END {
            Some(Instant { secs })
        } else {
            None
        }
    }

    /// The instant `END`.
    pub fn end() -> Instant
        ensures { result ≡ END }
    {
        Instant { secs: END }
    }

    /// The instant 0.
    pub fn beginning() -> Instant
        ensures { result ≡ 0 }
    {
        Instant { secs: 0 }
    }

    pub fn seconds(self) -> u64
        ensures value { result ≡ self }
        ensures bound { result ≤ END }
    {
        self.secs
    }

    /// Whether it is an instant at which something can happen, and not `END`.
    pub fn is_moment(self) -> bool
        ensures { IsTrue result ↔ (self < END) }
    {
        self.secs < END
    }
}
