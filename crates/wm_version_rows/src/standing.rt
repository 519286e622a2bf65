//! The longest periods on which the rows of a key stand, piece by piece.

ghost use Rattle.std.specs.Prelude.{◌≡◌, ◌<◌, ◌∷◌};
ghost use Rattle.wm_version_rows.specs.Standing.{IsBegun, ending, first_from, from_behind, goes_on};

use wm_base::{Instant, Period};
use wm_period::Piece;

/// Whether the row of a piece stands on behind it, where the others follow.
fn goes_on(piece: &Piece, rest: &[Piece]) -> bool
    ensures { result ≡ goes_on piece.now rest.now }
{
    match rest {
        [] => false,
        [next, ..] => {
            !next.gone
                && piece.period.meets(&next.period)
                && piece.stamp.number == next.stamp.number
        }
    }
}

/// Where the first piece begins, 0 where there is none.
pub fn first_from(pieces: &[Piece]) -> Instant
    ensures value { result ≡ first_from pieces.now }
    ensures begun { IsBegun result pieces.now }
{
    match pieces {
        [] => Instant::beginning(),
        [piece, ..] => piece.period.from(),
    }
}

/// Where the row of the next piece begins, where that of a piece begins at an instant.
pub fn from_behind(from: Instant, piece: &Piece, rest: &[Piece]) -> Instant
    requires { IsBegun from (piece.now ∷ rest.now) }
    ensures value { result ≡ from_behind from piece.now rest.now }
    ensures begun { IsBegun result rest.now }
{
    let _own = piece.period.from();
    if !piece.gone && goes_on(piece, rest) {
        from
    } else {
        first_from(rest)
    }
}

/// The whole period of a row that stands on a piece and not behind it, where it begins at an instant.
pub fn ending(from: Instant, piece: &Piece, rest: &[Piece]) -> Option<Period>
    requires { IsBegun from (piece.now ∷ rest.now) }
    ensures { result ≡ ending from piece.now rest.now }
{
    if piece.gone || goes_on(piece, rest) {
        return None;
    }
    let _own = piece.period.from();
    Period::new(from, piece.period.till())
}
