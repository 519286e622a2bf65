//! Texts and names.
ghost use Rattle.std.specs.Prelude.{◌≡◌, ℕ, ◌<◌, ◌^◌, ◌↔◌, List, length, IsTrue, IfOk};
ghost use Rattle.std.specs.Ordering.{nat_cmp};
ghost use Rattle.std.specs.Cmp.Lexicographic.{slice_cmp};

use crate::memory::Memory;
use std::alloc::Global;
use std::cmp::Ordering;
use std::marker::Model;

/// A text that does not change, as its bytes. That they are UTF-8 is not asked here.
#[derive(Debug, Drop)]
pub struct Text {
    bytes: Vec<u8>,
}

/// A name is a text: of a table, a column, a session, a user, a workspace or a savepoint.
pub type Name = Text;

impl Model for Text {
    ghost Value = { List ℕ };

    ghost view = { λ t. t.bytes.items };
}

impl Text {
    /// A text of these bytes.
    pub fn copy_of(alloc: Global, bytes: &[u8]) -> Result<Text, Memory>
        ensures { IfOk result (λ text. text ≡ bytes.now) }
    {
        Ok(Text {
            bytes: Vec::from_slice(alloc, bytes)?,
        })
    }

    pub fn from_vec(bytes: Vec<u8>) -> Text
        ensures { result ≡ bytes.items }
    {
        Text { bytes }
    }

    pub fn as_bytes(&self) -> &[u8]
        ensures { result.now ≡ self.now }
    {
        self.bytes.as_slice()
    }

    pub fn len(&self) -> usize
        ensures value { result ≡ length self.now }
        ensures small { result < 2 ^ 63 }
    {
        self.bytes.as_slice().len()
    }

    pub fn copy(&self, alloc: Global) -> Result<Text, Memory>
        ensures { IfOk result (λ text. text ≡ self.now) }
    {
        Text::copy_of(alloc, self.as_bytes())
    }

    /// Whether the text has exactly these bytes.
    pub fn equals(&self, bytes: &[u8]) -> bool
        ensures { IsTrue result ↔ (self.now ≡ bytes.now) }
    {
        self.as_bytes() == bytes
    }

    /// The order of texts, byte by byte, a front before what it begins.
    pub fn compare(&self, other: &Text) -> Ordering
        ensures { result ≡ slice_cmp nat_cmp self.now other.now }
    {
        self.as_bytes().cmp(other.as_bytes())
    }
}
