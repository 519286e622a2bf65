//! Pieces without the moments that others cover.

ghost use Rattle.std.specs.Prelude.{◌≡◌, ℕ, None, is_some, if◌then◌else◌, OnOk};
ghost use Rattle.wm_period.specs.Pieces.{held_at};

use std::alloc::Global;
use wm_base::Memory;
use wm_period::{Piece, Pieces};

/// Takes out of pieces what they have where others lie.
pub fn erase_all(alloc: Global, pieces: &mut Pieces, others: &[Piece]) -> Result<(), Memory>
    ensures { OnOk result ((t : ℕ) → held_at pieces.new t ≡ (if is_some (held_at others.now t) then None else held_at pieces.old t)) }
{
    for other in others {
        pieces.erase(alloc, &other.period)?;
    }
    Ok(())
}
