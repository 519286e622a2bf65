//! What was written for one key over one period.
ghost use Rattle.std.specs.Prelude.{◌≡◌, ◌<◌, ◌≤◌, ◌↔◌, IsTrue, IsNone, IfSome, length, drop};
ghost use Rattle.wm_base.specs.Period.{meets};
ghost use Rattle.wm_period.specs.Pieces.{part_in, held, IsApart, JoinsFirst};

use wm_base::{Instant, Kind, Period, Stamp};

/// What was written for one key over one period: a row, or that the row is gone.
#[derive(Clone, Copy, Debug, PartialEq, Eq)]
pub struct Piece {
    pub period: Period,
    pub stamp: Stamp,
    pub kind: Kind,
    pub gone: bool,
}

impl Piece {
    /// What the piece has from one instant to another, or None where it has nothing there.
    pub fn part_in(&self, from: Instant, till: Instant) -> Option<Piece>
        ensures { result ≡ part_in from till self.now }
    {
        let from = self.period.from().max(from);
        let till = self.period.till().min(till);
        let period = Period::new(from, till)?;
        Some(Piece {
            period,
            stamp: self.stamp,
            kind: self.kind,
            gone: self.gone,
        })
    }

    /// Whether the two say the same of the moments that they cover.
    pub fn says_as(&self, q: &Piece) -> bool
        ensures { IsTrue result ↔ (held self.now ≡ held q.now) }
    {
        self.stamp == q.stamp && self.kind == q.kind && self.gone == q.gone
    }

    /// The one piece that this one and the one at a place of the list are, or None where the list ends
    /// there or the two do not meet or do not say the same.
    pub fn joined_with(&self, list: &[Piece], at: usize) -> Option<Piece>
        requires { at ≤ length list.now }
        ensures apart { IsNone result → IsApart self.now (drop at list.now) }
        ensures one { IfSome result (λ whole. JoinsFirst self.now (drop at list.now) whole) }
    {
        if at == list.len() {
            return None;
        }
        let next = &list[at];
        if !self.period.meets(&next.period) || !self.says_as(next) {
            return None;
        }
        let period = Period::new(self.period.from(), next.period.till())?;
        Some(Piece {
            period,
            stamp: next.stamp,
            kind: next.kind,
            gone: next.gone,
        })
    }
}
