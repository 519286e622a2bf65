//! What the rows of a key are made of on a date: what a workspace was born with, and what was written over that.

ghost use Rattle.std.specs.Prelude.{◌≡◌, ◌<◌, ◌≤◌, ℕ, [], None, length, take, IfOk, OnOk};
ghost use Rattle.std.specs.Bool.{then_some};
ghost use Rattle.std.specs.Option.{option_or};
ghost use Rattle.wm_base.specs.Period.{covers};
ghost use Rattle.wm_history.specs.Laid.{last_held, layers_held};
ghost use Rattle.wm_period.specs.Pieces.{held, held_at};

use std::alloc::Global;
use wm_base::Memory;
use wm_period::{Piece, Pieces};

/// What a workspace was born with of a key, and what was written over that, the last at the end.
#[derive(Drop)]
pub struct Layers {
    pub born: Pieces,
    pub written: Vec<Piece>,
}

impl Layers {
    /// What a workspace was born with, with nothing over it.
    pub fn of_birth(alloc: Global, born: Pieces) -> Layers
        ensures { (t : ℕ) → layers_held result t ≡ held_at born t }
    {
        Layers {
            born,
            written: Vec::new(alloc),
        }
    }

    /// Puts a piece over all others.
    pub fn write(&mut self, piece: Piece) -> Result<(), Memory>
        ensures { OnOk result ((t : ℕ) → layers_held self.new t ≡ option_or (then_some (covers piece.period t) (held piece)) (layers_held self.old t)) }
    {
        self.written.push(piece)?;
        Ok(())
    }

    /// All that is held, in one layer.
    pub fn laid(&self, alloc: Global) -> Result<Pieces, Memory>
        ensures { IfOk result (λ laid. (t : ℕ) → held_at laid t ≡ layers_held self.now t) }
    {
        let upper = lay_written(alloc, self.written.as_slice())?;
        let laid = Pieces::over(alloc, &self.born, &upper)?;
        Ok(laid)
    }
}

/// Lays pieces behind one another, as long as each begins when those before it have ended: what is laid, and how many
/// they are.
fn lay_run(alloc: Global, written: &[Piece]) -> Result<(Pieces, usize), Memory>
    ensures held { IfOk result (λ run. (t : ℕ) → held_at run.0 t ≡ last_held (take run.1 written.now) t) }
    ensures within { IfOk result (λ run. run.1 ≤ length written.now) }
    ensures some { IfOk result (λ run. 0 < length written.now → 0 < run.1) }
{
    let mut run = Pieces::with_capacity(alloc, written.len())?;
    for (place, piece) in written.iter().enumerate() {
        if !run.push_behind(*piece)? {
            return Ok((run, place));
        }
    }
    Ok((run, written.len()))
}

/// Lays pieces over one another, the last uppermost. Most begin in the order in which they were written, and these are
/// laid one behind another. The two halves of the others are laid over them, each made so itself, so that of n pieces
/// each is copied at most twice for each time that n can be halved.
fn lay_written(alloc: Global, written: &[Piece]) -> Result<Pieces, Memory>
    ensures { IfOk result (λ laid. (t : ℕ) → held_at laid t ≡ last_held written.now t) }
{
    let (run, count) = lay_run(alloc, written)?;
    let (_, rest) = written.split_at(count);
    if rest.is_empty() {
        return Ok(run);
    }
    let (front, back) = rest.split_at(rest.len() / 2);
    let lower = lay_written(alloc, front)?;
    let upper = lay_written(alloc, back)?;
    let over = Pieces::over(alloc, &lower, &upper)?;
    let laid = Pieces::over(alloc, &run, &over)?;
    Ok(laid)
}
