//! The pieces of one key, laid over one another.
ghost use Rattle.std.specs.Prelude.{◌≡◌, ℕ, ◌↔◌, List, [], ◌∷◌, ◌++◌, length, Option, None, if◌then◌else◌, IsTrue, IfSome, IfOk, OnOk, OnErr, Contains};
ghost use Rattle.std.specs.Bool.{then_some};
ghost use Rattle.std.specs.Option.{option_or, option_map};
ghost use Rattle.wm_base.specs.Period.{covers};
ghost use Rattle.wm_base.specs.declared.instant.TheConstants.{END};
ghost use Rattle.wm_period.specs.Pieces.{Between, EndBy, held, held_at, put_in, erase_in, over_from, IsJoined};

use crate::joining::join_to_the_back;
use crate::parts::{lay_over, push_parts};
use crate::piece::Piece;
use std::alloc::Global;
use std::marker::Model;
use wm_base::{Instant, Memory, Period};

/// The pieces of one key. They lie one after another and do not overlap; where none lies nothing is held.
#[derive(Drop)]
pub struct Pieces {
    list: Vec<Piece>,
}

impl Model for Pieces {
    ghost use Rattle.std.specs.Prelude.{List};
    ghost use Rattle.wm_base.specs.declared.instant.TheConstants.{END};
    ghost use Rattle.wm_period.specs.Pieces.{Between};
    ghost use Rattle.wm_period.specs.declared.piece.Piece.{Piece};

    ghost Value = { List Piece };

    ghost view = { λ p. p.list.items };

    ghost invariant = { λ p. Between 0 p.list.items END };
}

impl Pieces {
    /// No pieces.
    pub fn new(alloc: Global) -> Pieces
        ensures { result ≡ [] }
    {
        Pieces {
            list: Vec::new(alloc),
        }
    }

    /// No pieces, with room for so many.
    pub fn with_capacity(alloc: Global, capacity: usize) -> Result<Pieces, Memory>
        ensures { IfOk result (λ pieces. pieces ≡ []) }
    {
        Ok(Pieces {
            list: Vec::with_capacity(alloc, capacity)?,
        })
    }

    /// The pieces in the order of their beginnings.
    pub fn list(&self) -> &[Piece]
        ensures value { result.now ≡ self.now }
        ensures in_order { Between 0 self.now END }
    {
        self.list.as_slice()
    }

    pub fn is_empty(&self) -> bool
        ensures { IsTrue result ↔ (self.now ≡ []) }
    {
        self.list.is_empty()
    }

    pub fn len(&self) -> usize
        ensures { result ≡ length self.now }
    {
        self.list.len()
    }

    pub fn copy(&self, alloc: Global) -> Result<Pieces, Memory>
        ensures { IfOk result (λ copy. copy ≡ self.now) }
    {
        Ok(Pieces {
            list: Vec::from_slice(alloc, self.list.as_slice())?,
        })
    }

    /// The piece that covers an instant, or None where nothing is held. It is found by halving.
    pub fn covering(&self, at: Instant) -> Option<Piece>
        ensures held { option_map held result ≡ held_at self.now at }
        ensures covers { IfSome result (λ piece. IsTrue (covers piece.period at)) }
        ensures one { IfSome result (Contains self.now) }
    {
        find(self.list(), at)
    }

    /// Puts a piece over the others: it alone is held at the moments of its period, and each other
    /// moment is as it was. What is left of the others keeps its stamp and kind.
    pub fn put(&mut self, alloc: Global, piece: Piece) -> Result<(), Memory>
        ensures exact { OnOk result (self.new ≡ put_in piece self.old) }
        ensures cells { OnOk result ((t : ℕ) → held_at self.new t ≡ option_or (then_some (covers piece.period t) (held piece)) (held_at self.old t)) }
        ensures err { OnErr result (self.new ≡ self.old) }
    {
        let from = piece.period.from();
        let till = piece.period.till();
        let pieces = self.list.as_slice();
        let mut list = Vec::with_capacity(alloc, pieces.len() + 2)?;
        push_parts(&mut list, pieces, Instant::beginning(), from)?;
        list.push(piece)?;
        push_parts(&mut list, pieces, till, Instant::end())?;
        self.list = list;
        Ok(())
    }

    /// Puts a piece behind the others, where each of them has ended when it begins, and tells whether it did.
    pub fn push_behind(&mut self, piece: Piece) -> Result<bool, Memory>
        ensures behind { IfOk result (λ put. IsTrue put ↔ EndBy piece.period.from self.old) }
        ensures exact { IfOk result (λ put. self.new ≡ (if put then self.old ++ piece ∷ [] else self.old)) }
        ensures err { OnErr result (self.new ≡ self.old) }
    {
        // A period ends by the end of time.
        let _end = piece.period.till();
        if !have_ended(self.list(), piece.period.from()) {
            return Ok(false);
        }
        self.list.push(piece)?;
        Ok(true)
    }

    /// Takes a period out: nothing is held at its moments, and each other moment is as it was.
    pub fn erase(&mut self, alloc: Global, period: &Period) -> Result<(), Memory>
        ensures exact { OnOk result (self.new ≡ erase_in period.now self.old) }
        ensures cells { OnOk result ((t : ℕ) → held_at self.new t ≡ (if covers period.now t then None else held_at self.old t)) }
        ensures err { OnErr result (self.new ≡ self.old) }
    {
        let from = period.from();
        let till = period.till();
        let pieces = self.list.as_slice();
        let mut list = Vec::with_capacity(alloc, pieces.len() + 1)?;
        push_parts(&mut list, pieces, Instant::beginning(), from)?;
        push_parts(&mut list, pieces, till, Instant::end())?;
        self.list = list;
        Ok(())
    }

    /// The pieces of `upper`, and what `lower` has where `upper` has nothing.
    pub fn over(alloc: Global, lower: &Pieces, upper: &Pieces) -> Result<Pieces, Memory>
        ensures exact { IfOk result (λ both. both ≡ over_from 0 lower.now upper.now) }
        ensures cells { IfOk result (λ both. (t : ℕ) → held_at both t ≡ option_or (held_at upper.now t) (held_at lower.now t)) }
    {
        let list = lay_over(alloc, lower.list(), upper.list())?;
        Ok(Pieces { list })
    }

    /// Makes one piece of those that meet and are equal in stamp, kind and gone. No moment changes.
    pub fn join_same_stamp(&mut self)
        ensures cells { (t : ℕ) → held_at self.new t ≡ held_at self.old t }
        ensures joined { IsJoined self.new }
    {
        let list = self.list.as_mut_slice();
        let kept = join_to_the_back(list);
        let left = list.len() - kept;
        list.rotate_left(kept);
        self.list.truncate(left);
    }
}

/// Whether all pieces of a list in order have ended by an instant: the last has.
fn have_ended(list: &[Piece], by: Instant) -> bool
    requires { Between 0 list.now END }
    ensures { IsTrue result ↔ EndBy by list.now }
{
    match list.split_last() {
        Some((last, _)) => last.period.till() <= by,
        None => true,
    }
}

/// The piece of a list in order that covers an instant.
fn find(list: &[Piece], at: Instant) -> Option<Piece>
    requires { Between 0 list.now END }
    ensures held { option_map held result ≡ held_at list.now at }
    ensures covers { IfSome result (λ piece. IsTrue (covers piece.period at)) }
    ensures one { IfSome result (Contains list.now) }
{
    let mut low = 0;
    let mut high = list.len();
    while low < high {
        let middle = low + (high - low) / 2;
        let piece = &list[middle];
        if at < piece.period.from() {
            high = middle;
        } else if piece.period.till() <= at {
            low = middle + 1;
        } else {
            return Some(*piece);
        }
    }
    None
}
