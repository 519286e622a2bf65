//! Periods of time and the questions about two of them.
ghost use Rattle.std.specs.Prelude.{◌≡◌, ◌<◌, ◌≤◌, ◌↔◌, IsTrue, IsSome, IfSome};
ghost use Rattle.wm_base.specs.Period.{Span, overlaps, contains, meets, equals, before, after, shared, always, span_order};
ghost use Rattle.wm_base.specs.declared.instant.TheConstants.{END};

use crate::instant::Instant;
use std::cmp::Ordering;
use std::marker::Model;

/// The time from `from` to `till`, with its beginning and without its end. It is never empty.
#[derive(Clone, Copy, Debug, PartialEq, Eq)]
pub struct Period {
    from: Instant,
    till: Instant,
}

impl Model for Period {
    ghost use Rattle.std.specs.Prelude.{◌<◌, ◌≤◌};
    ghost use Rattle.wm_base.specs.Period.{Span};
    ghost use Rattle.wm_base.specs.declared.instant.TheConstants.{END};

    ghost Value = { Span };

    ghost view = { λ p. record { from = p.from; till = p.till } };

    ghost invariant = { λ p. (p.from < p.till) × (p.till ≤ END) };

    ghost inverse = { λ s. record { from = s.from; till = s.till } };
}

impl Period {
    /// The period from one instant to another, or None exactly where the first is not below the second.
    pub fn new(from: Instant, till: Instant) -> Option<Period>
        ensures valid { IsSome result ↔ (from < till) }
        ensures value { IfSome result (λ p. p ≡ record { from = from; till = till }) }
    {
        if from < till {
            let _end = till.seconds();
            Some(Period { from, till })
        } else {
            None
        }
    }

    /// All of time: from instant 0 to `END`.
    pub fn always() -> Period
        ensures { result ≡ always }
    {
        Period {
            from: Instant::beginning(),
            till: Instant::end(),
        }
    }

    pub fn from(&self) -> Instant
        ensures value { result ≡ self.now.from }
        ensures order { self.now.from < self.now.till }
    {
        self.from
    }

    pub fn till(&self) -> Instant
        ensures value { result ≡ self.now.till }
        ensures order { self.now.from < self.now.till }
        ensures bound { self.now.till ≤ END }
    {
        self.till
    }

    /// Whether some instant lies in both.
    pub fn overlaps(&self, q: &Period) -> bool
        ensures { result ≡ overlaps self.now q.now }
    {
        self.from < q.till && q.from < self.till
    }

    /// Whether `q` begins where this one ends.
    pub fn meets(&self, q: &Period) -> bool
        ensures { result ≡ meets self.now q.now }
    {
        self.till == q.from
    }

    /// Whether this one has all of `q`.
    pub fn contains(&self, q: &Period) -> bool
        ensures { result ≡ contains self.now q.now }
    {
        self.from <= q.from && q.till <= self.till
    }

    /// Whether both ends are equal.
    pub fn equals(&self, q: &Period) -> bool
        ensures value { result ≡ equals self.now q.now }
        ensures same { IsTrue result ↔ (self.now ≡ q.now) }
    {
        self.from == q.from && self.till == q.till
    }

    /// Whether this one ends before `q` begins, and does not meet it.
    pub fn before(&self, q: &Period) -> bool
        ensures { result ≡ before self.now q.now }
    {
        self.till < q.from
    }

    /// Whether this one begins after `q` ends, and is not met by it.
    pub fn after(&self, q: &Period) -> bool
        ensures { result ≡ after self.now q.now }
    {
        self.from > q.till
    }

    /// What the two share, or None exactly where they do not overlap.
    pub fn cut(&self, q: &Period) -> Option<Period>
        ensures valid { IsSome result ↔ IsTrue (overlaps self.now q.now) }
        ensures value { IfSome result (λ p. p ≡ shared self.now q.now) }
    {
        Period::new(self.from.max(q.from), self.till.min(q.till))
    }

    /// The order of periods: by their beginnings, and then by their ends.
    pub fn compare(&self, q: &Period) -> Ordering
        ensures { result ≡ span_order self.now q.now }
    {
        self.from.cmp(&q.from).then(self.till.cmp(&q.till))
    }
}
