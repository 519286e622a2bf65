//! Pieces that meet and say the same as one.
ghost use Rattle.std.specs.Prelude.{◌≡◌, ℕ, ◌≤◌, length, drop};
ghost use Rattle.wm_base.specs.declared.instant.TheConstants.{END};
ghost use Rattle.wm_period.specs.Pieces.{Between, IsJoined, held_at};

use crate::piece::Piece;

/// Joins pieces that meet and say the same. What is left stands from the returned place on; what
/// stands before it is of no more use.
pub fn join_to_the_back(list: &mut [Piece]) -> usize
    requires { Between 0 list.old END }
    ensures place { result ≤ length list.new }
    ensures same { (t : ℕ) → held_at (drop result list.new) t ≡ held_at list.old t }
    ensures in_order { Between 0 (drop result list.new) END }
    ensures joined { IsJoined (drop result list.new) }
{
    let mut left = list.len();
    let mut kept = left;
    while left > 0 {
        left -= 1;
        let piece = list[left];
        match piece.joined_with(list, kept) {
            Some(whole) => list[kept] = whole,
            None => {
                kept -= 1;
                list[kept] = piece;
            }
        }
    }
    kept
}
