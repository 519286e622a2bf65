//! What is held of a line until its end has come.
ghost use Rattle.std.specs.Prelude.{◌≡◌, ◌↔◌, ◌<◌, List, [], IsTrue, OnOk, OnErr};
ghost use Rattle.wm_model.specs.Lines.{cap, without_cr, held_more};
ghost use Rattle.wm_host.specs.declared.line.TheConstants.{HELD_BYTES};

use std::alloc::Global;
use std::marker::Model;
use wm_base::Memory;

/// The most bytes that are held of a line: those of the longest line that counts, and a CR.
const HELD_BYTES: usize = 16_385;

/// The bytes of a line that has not ended yet. Of one that is too long only the first are held: what is
/// answered to it depends on none of its bytes.
#[derive(Drop)]
pub(crate) struct LineBuffer {
    bytes: Vec<u8>,
    over: bool,
}

impl Model for LineBuffer {
    ghost use Rattle.std.specs.Prelude.{ℕ, ◌≡◌, ◌≤◌, List, [], ◌∷◌, ◌++◌, length, true, if◌then◌else◌};

    ghost Value = { List ℕ };

    // One 0 stands for all bytes that were let go.
    ghost view = { λ b. if b.over then b.bytes.items ++ 0 ∷ [] else b.bytes.items };

    ghost invariant = { λ b. (length b.bytes.items ≤ 16385) × (b.over ≡ true → length b.bytes.items ≡ 16385) };
}

impl LineBuffer {
    pub(crate) fn new(alloc: Global) -> LineBuffer
        ensures { result ≡ [] }
    {
        LineBuffer {
            bytes: Vec::new(alloc),
            over: false,
        }
    }

    pub(crate) fn is_empty(&self) -> bool
        ensures { IsTrue result ↔ (self.now ≡ []) }
    {
        self.bytes.is_empty()
    }

    /// Holds one byte more, or only that there was one.
    pub(crate) fn push(&mut self, byte: u8) -> Result<(), Memory>
        ensures ok { OnOk result (self.new ≡ held_more self.old byte) }
        ensures err { OnErr result (self.new ≡ self.old) }
    {
        if self.bytes.len() < HELD_BYTES {
            self.bytes.push(byte)?;
        } else {
            self.over = true;
        }
        Ok(())
    }

    /// The line without the CR at its end; one that is too long stands for all of these.
    pub(crate) fn line(&self) -> &[u8]
        ensures { cap result.now ≡ cap (without_cr self.now) }
    {
        if self.over {
            self.bytes.as_slice()
        } else {
            without_final_cr(self.bytes.as_slice())
        }
    }

    pub(crate) fn clear(&mut self)
        ensures { self.new ≡ [] }
    {
        self.bytes.clear();
        self.over = false;
    }
}

fn without_final_cr(line: &[u8]) -> &[u8]
    ensures { result.now ≡ without_cr line.now }
{
    let count = line.len();
    if count > 0 && line[count - 1] == b'\r' {
        line.split_at(count - 1).0
    } else {
        line
    }
}
