//! What a piece has before a period, inside it and after it.
ghost use Rattle.std.specs.Prelude.{◌≡◌, ◌↔◌, ℕ, ◌&&◌, nat_lt, nat_le, ◌∷◌, [], IsSome, IfSome, IsFalse, IsTrue};
ghost use Rattle.wm_base.specs.Period.{covers, overlaps, shared};
ghost use Rattle.wm_period.specs.Pieces.{Between, held_at};
ghost use Rattle.wm_temporal.specs.Splitting.{IsPart, in_turn};

use wm_base::{Instant, Period};
use wm_period::Piece;

/// What a piece has before a period, inside it and after it. A part is None exactly where the piece
/// has no instant there.
#[derive(Clone, Copy)]
pub struct Parts {
    pub before: Option<Piece>,
    pub inside: Option<Piece>,
    pub after: Option<Piece>,
}

/// Splits a row's piece by a period. Each part keeps the stamp, the kind and the gone mark of the piece.
/// A sequenced change writes over the part inside alone. It takes no memory.
pub fn split(row: &Piece, by: &Period) -> Parts
    ensures before { IsPart row.now (λ t. covers row.now.period t && nat_lt t by.now.from) result.before }
    ensures inside { IsPart row.now (λ t. covers row.now.period t && covers by.now t) result.inside }
    ensures after { IsPart row.now (λ t. covers row.now.period t && nat_le by.now.till t) result.after }
    ensures in_order { Between row.now.period.from (in_turn result) row.now.period.till }
    ensures whole { (t : ℕ) → held_at (in_turn result) t ≡ held_at (row.now ∷ []) t }
    ensures before_apart { IfSome result.before (λ part. IsFalse (overlaps part.period by.now)) }
    ensures after_apart { IfSome result.after (λ part. IsFalse (overlaps part.period by.now)) }
    ensures met { IsSome result.inside ↔ IsTrue (overlaps row.now.period by.now) }
    ensures cut { IfSome result.inside (λ part. part.period ≡ shared row.now.period by.now) }
{
    let _row = row.period.till();
    let from = by.from();
    let till = by.till();
    Parts {
        before: row.part_in(Instant::beginning(), from),
        inside: row.part_in(from, till),
        after: row.part_in(till, Instant::end()),
    }
}
