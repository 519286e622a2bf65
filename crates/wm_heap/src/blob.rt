//! What is to stand under ids, as bytes.
ghost use Rattle.std.specs.Prelude.{◌≡◌, ◌∷◌, [], ◌++◌, length, OnOk, OnErr};

use std::alloc::Global;
use std::marker::Model;
use wm_base::{Bytes, Memory};

/// What is to stand under an id: bytes, or nothing.
#[derive(Drop)]
pub struct Blob {
    pub id: u64,
    /// None drops what stands there.
    pub bytes: Option<Bytes>,
}

/// Changes of some ids, in order.
#[derive(Drop)]
pub struct Blobs {
    list: Vec<Blob>,
}

impl Model for Blobs {
    ghost use Rattle.std.specs.Prelude.{List};
    ghost use Rattle.wm_heap.specs.declared.blob.Blob.{Blob};

    ghost Value = { List Blob };

    ghost view = { λ b. b.list.items };
}

impl Blobs {
    /// No changes.
    pub fn new(alloc: Global) -> Blobs
        ensures { result ≡ [] }
    {
        Blobs {
            list: Vec::new(alloc),
        }
    }

    pub fn as_slice(&self) -> &[Blob]
        ensures { result.now ≡ self.now }
    {
        self.list.as_slice()
    }

    pub fn into_vec(self) -> Vec<Blob>
        ensures { result.items ≡ self }
    {
        self.list
    }

    pub fn len(&self) -> usize
        ensures { result ≡ length self.now }
    {
        self.list.len()
    }

    /// Puts a change behind those that are there.
    pub fn push(&mut self, blob: Blob) -> Result<(), Memory>
        ensures ok { OnOk result (self.new ≡ self.old ++ blob ∷ []) }
        ensures err { OnErr result (self.new ≡ self.old) }
    {
        self.list.push(blob)?;
        Ok(())
    }
}
