//! How many answers there were of each kind.
ghost use Rattle.std.specs.Prelude.{◌≡◌, ◌+◌, ◌^◌, ◌<◌, ◌++◌, [], if◌then◌else◌, IfOk, OnOk};
ghost use Rattle.wm_host.specs.Loading.{Counts, counted, five_lines, is_done, is_fine, is_listing, is_refused};

use std::alloc::Global;
use wm_base::{Bytes, Memory};
use wm_engine::Kind;

/// How many answers there were of each kind that says something.
#[derive(Clone, Copy)]
pub(crate) struct Tally {
    fine: u64,
    done: u64,
    listings: u64,
    refused: u64,
}

impl Tally {
    /// Of no answers.
    pub(crate) fn none() -> Tally
        ensures { Counts result [] }
    {
        Tally {
            fine: 0,
            done: 0,
            listings: 0,
            refused: 0,
        }
    }

    /// Counts an answer of this kind.
    pub(crate) fn count(&mut self, kind: Kind)
        requires fine { self.old.fine + 1 < 2 ^ 64 }
        requires done { self.old.done + 1 < 2 ^ 64 }
        requires listings { self.old.listings + 1 < 2 ^ 64 }
        requires refused { self.old.refused + 1 < 2 ^ 64 }
        ensures fine { self.new.fine ≡ self.old.fine + (if is_fine kind then 1 else 0) }
        ensures done { self.new.done ≡ self.old.done + (if is_done kind then 1 else 0) }
        ensures listings { self.new.listings ≡ self.old.listings + (if is_listing kind then 1 else 0) }
        ensures refused { self.new.refused ≡ self.old.refused + (if is_refused kind then 1 else 0) }
    {
        match kind {
            Kind::Nothing => {}
            Kind::Fine => self.fine += 1,
            Kind::Done => self.done += 1,
            Kind::Listing => self.listings += 1,
            Kind::Refused => self.refused += 1,
        }
    }

    /// The lines that say how many answers there were in all, and how many of each kind.
    #[tactic(auto, unfolding(crate::specs::Loading::five_lines))]
    pub(crate) fn text(&self, alloc: Global, all: u64) -> Result<Bytes, Memory>
        ensures { IfOk result (λ text. text ≡ five_lines all self.now.fine self.now.done self.now.listings self.now.refused) }
    {
        let mut out = Bytes::new(alloc);
        push_counted(alloc, &mut out, b"LINES ", all)?;
        push_counted(alloc, &mut out, b"OK ", self.fine)?;
        push_counted(alloc, &mut out, b"DONE ", self.done)?;
        push_counted(alloc, &mut out, b"ROWS ", self.listings)?;
        push_counted(alloc, &mut out, b"REFUSED ", self.refused)?;
        Ok(out)
    }
}

/// Adds a word, a number and LF.
fn push_counted(alloc: Global, out: &mut Bytes, word: &[u8], count: u64) -> Result<(), Memory>
    ensures { OnOk result (out.new ≡ out.old ++ counted word.now count) }
{
    let digits = count.to_string(alloc)?;
    out.append(word)?;
    out.append(digits.as_bytes())?;
    out.append(b"\n")
}
