//! A walk over all sides of a key, from stretch to stretch of conflict. Each piece is passed once.

ghost use Rattle.std.specs.Prelude.{◌≡◌, ℕ, ◌<◌, ◌≤◌, ◌&&◌, None, is_some, IfNone, IfSome};
ghost use Rattle.wm_base.specs.declared.instant.TheConstants.{END};
ghost use Rattle.wm_net.specs.Conflicts.{same_stamps};
ghost use Rattle.wm_pending.specs.Sides.{contest_at, stamps_at, stamps_in};
ghost use Rattle.wm_pending.specs.Walks.{BeginsAt, GoesTo, IsNext, IsReady, left_in, stretch_in};
ghost use Rattle.wm_period.specs.Pieces.{held_at};

use crate::front::{holds_till, left_at, next_held, piece_at, row_at};
use crate::sides::{SideStamps, Sides};
use wm_base::{Instant, Period};
use wm_period::Piece;

/// A period over which a key is contested and one row or none stands on each side, and the stamps of these rows.
#[derive(Clone, Copy)]
pub struct Contest {
    pub period: Period,
    pub stamps: SideStamps,
}

/// The instant that a walk has come to, and the pieces that are not over then.
#[derive(Clone, Copy)]
pub struct Walk<'a> {
    at: Instant,
    contested: &'a [Piece],
    base: &'a [Piece],
    parent: &'a [Piece],
    child: &'a [Piece],
}

impl<'a> Walk<'a> {
    /// At the beginning of time.
    pub fn over(sides: &'a Sides) -> Walk<'a>
        ensures ready { IsReady result }
        ensures begins { result.at ≡ 0 }
        ensures all { left_in result ≡ sides.now }
    {
        Walk {
            at: Instant::beginning(),
            contested: sides.contested.list(),
            base: sides.base.list(),
            parent: sides.parent.list(),
            child: sides.child.list(),
        }
    }

    /// At another instant that does not come before.
    fn moved(&self, at: Instant) -> Walk<'a>
        requires { IsReady self.now }
        ensures { GoesTo self.now at result }
    {
        Walk {
            at,
            contested: left_at(self.contested, at),
            base: left_at(self.base, at),
            parent: left_at(self.parent, at),
            child: left_at(self.child, at),
        }
    }

    /// The stamps of the rows that stand.
    fn stamps(&self) -> SideStamps
        requires { IsReady self.now }
        ensures { stamps_in result ≡ stamps_at (left_in self.now) self.now.at }
    {
        SideStamps {
            base: row_at(self.base, self.at),
            parent: row_at(self.parent, self.at),
            child: row_at(self.child, self.at),
        }
    }

    /// Whether both sides changed something, and the rows stand that these stamps are of.
    fn goes_on(&self, stamps: SideStamps) -> bool
        requires { IsReady self.now }
        ensures { result ≡ (is_some (held_at self.now.contested.now self.now.at) && same_stamps (stamps_in stamps) (stamps_at (left_in self.now) self.now.at)) }
    {
        piece_at(self.contested, self.at).is_some() && stamps.equals(self.stamps())
    }

    /// Up to which instant all sides say what they say now.
    fn steady_till(&self) -> Instant
        requires moment { self.now.at < END }
        requires ready { IsReady self.now }
        ensures later { self.now.at < result }
        ensures bound { result ≤ END }
        ensures steady { (t : ℕ) → self.now.at ≤ t → t < result → contest_at (left_in self.now) t ≡ contest_at (left_in self.now) self.now.at }
    {
        let at = self.at;
        let own = holds_till(self.contested, at).min(holds_till(self.base, at));
        let others = holds_till(self.parent, at).min(holds_till(self.child, at));
        own.min(others)
    }

    /// Where the next stretch of conflict begins.
    fn next_contested(&self) -> Option<Walk<'a>>
        requires { IsReady self.now }
        ensures some { IfSome result (BeginsAt self.now) }
        ensures none { IfNone result ((t : ℕ) → self.now.at ≤ t → contest_at (left_in self.now) t ≡ None) }
    {
        let from = next_held(self.contested, self.at)?;
        Some(self.moved(from))
    }

    /// The next stretch of conflict, and the walk at its end.
    pub fn next_contest(&self) -> Option<(Contest, Walk<'a>)>
        requires { IsReady self.now }
        ensures some { IfSome result (λ next. IsNext self.now (stretch_in next.0) next.1) }
        ensures none { IfNone result ((t : ℕ) → self.now.at ≤ t → contest_at (left_in self.now) t ≡ None) }
    {
        let Some(start) = self.next_contested() else {
            return None;
        };
        let stamps = start.stamps();
        let mut end = start.moved(start.steady_till());
        while end.goes_on(stamps) {
            end = end.moved(end.steady_till());
        }
        let period = Period::new(start.at, end.at).unwrap();
        Some((Contest { period, stamps }, end))
    }
}
