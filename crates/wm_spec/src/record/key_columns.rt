//! The key columns in the record of a table.
ghost use Rattle.std.specs.Prelude.{◌≡◌, ◌∷◌, [], ◌++◌, OnOk, OnErr};

use std::alloc::Global;
use std::marker::Model;
use wm_base::Memory;

/// The places of the key columns of a table among its columns, counted from 0.
#[derive(Drop)]
pub struct KeyColumns {
    list: Vec<u8>,
}

impl Model for KeyColumns {
    ghost use Rattle.std.specs.Prelude.{List, ℕ};

    ghost Value = { List ℕ };

    ghost view = { λ k. k.list.items };
}

impl KeyColumns {
    /// None of them.
    pub fn new(alloc: Global) -> KeyColumns
        ensures { result ≡ [] }
    {
        KeyColumns {
            list: Vec::new(alloc),
        }
    }

    pub fn as_slice(&self) -> &[u8]
        ensures { result.now ≡ self.now }
    {
        self.list.as_slice()
    }

    pub fn push(&mut self, place: u8) -> Result<(), Memory>
        ensures ok { OnOk result (self.new ≡ self.old ++ place ∷ []) }
        ensures err { OnErr result (self.new ≡ self.old) }
    {
        self.list.push(place)?;
        Ok(())
    }
}
