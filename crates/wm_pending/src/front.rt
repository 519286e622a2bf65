//! Pieces in order as a walk from their front to their back has them: at an instant, without those that are over then.

ghost use Rattle.std.specs.Prelude.{◌≡◌, ℕ, ◌<◌, ◌≤◌, None, IfNone, IfSome};
ghost use Rattle.std.specs.Option.{option_and_then, option_map};
ghost use Rattle.wm_base.specs.declared.instant.TheConstants.{END};
ghost use Rattle.wm_pending.specs.Fronts.{HoldsNext, IsAhead, IsLeft};
ghost use Rattle.wm_period.specs.Pieces.{Between, held, held_at};
ghost use Rattle.wm_state.specs.Listing.{standing};

use wm_base::Instant;
use wm_period::Piece;

/// The pieces that are not over at an instant.
pub fn left_at(pieces: &[Piece], at: Instant) -> &[Piece]
    requires { Between 0 pieces.now END }
    ensures { IsLeft pieces.now at result.now }
{
    let mut left = pieces;
    while let [first, rest @ ..] = left {
        if at < first.period.till() {
            return left;
        }
        left = rest;
    }
    left
}

/// The piece that covers an instant at which none is over: the first or none.
pub fn piece_at(left: &[Piece], at: Instant) -> Option<Piece>
    requires { IsAhead at left.now }
    ensures { option_map held result ≡ held_at left.now at }
{
    match left {
        [] => None,
        [first, ..] => {
            if at < first.period.from() {
                None
            } else {
                Some(*first)
            }
        }
    }
}

/// The stamp of the row that stands at such an instant.
pub fn row_at(left: &[Piece], at: Instant) -> Option<u64>
    requires { IsAhead at left.now }
    ensures { result ≡ option_and_then standing (held_at left.now at) }
{
    let piece = piece_at(left, at)?;
    if piece.gone {
        None
    } else {
        Some(piece.stamp.number)
    }
}

/// The first instant, from such an instant on, at which the pieces hold something.
pub fn next_held(left: &[Piece], at: Instant) -> Option<Instant>
    requires { IsAhead at left.now }
    ensures some { IfSome result (HoldsNext left.now at) }
    ensures none { IfNone result ((t : ℕ) → held_at left.now t ≡ None) }
{
    match left {
        [] => None,
        [first, ..] => {
            if at < first.period.from() {
                Some(first.period.from())
            } else {
                Some(at)
            }
        }
    }
}

/// Up to which instant the pieces say what they say at such an instant.
pub fn holds_till(left: &[Piece], at: Instant) -> Instant
    requires moment { at < END }
    requires ahead { IsAhead at left.now }
    ensures later { at < result }
    ensures bound { result ≤ END }
    ensures steady { (t : ℕ) → at ≤ t → t < result → held_at left.now t ≡ held_at left.now at }
{
    match left {
        [] => Instant::end(),
        [first, ..] => {
            if at < first.period.from() {
                first.period.from()
            } else {
                first.period.till()
            }
        }
    }
}
