//! Records with their ids in the store.
ghost use Rattle.std.specs.Prelude.{◌≡◌, ◌∷◌, [], ◌++◌, OnOk, OnErr};

use crate::record::Record;
use std::alloc::Global;
use std::marker::Model;
use wm_base::Memory;

/// A record with its id in the store.
#[derive(Drop)]
pub struct Stored {
    pub id: u64,
    pub record: Record,
}

/// The records of a store; no id stands in it twice.
#[derive(Drop)]
pub struct Records {
    list: Vec<Stored>,
}

impl Model for Records {
    ghost use Rattle.std.specs.Prelude.{List};
    ghost use Rattle.wm_spec.specs.declared.record.stored.Stored.{Stored};

    ghost Value = { List Stored };

    ghost view = { λ r. r.list.items };
}

impl Records {
    /// No records.
    pub fn new(alloc: Global) -> Records
        ensures { result ≡ [] }
    {
        Records {
            list: Vec::new(alloc),
        }
    }

    pub fn from_vec(list: Vec<Stored>) -> Records
        ensures { result ≡ list.items }
    {
        Records { list }
    }

    pub fn into_vec(self) -> Vec<Stored>
        ensures { result.items ≡ self }
    {
        self.list
    }

    pub fn as_slice(&self) -> &[Stored]
        ensures { result.now ≡ self.now }
    {
        self.list.as_slice()
    }

    pub fn push(&mut self, stored: Stored) -> Result<(), Memory>
        ensures ok { OnOk result (self.new ≡ self.old ++ stored ∷ []) }
        ensures err { OnErr result (self.new ≡ self.old) }
    {
        self.list.push(stored)?;
        Ok(())
    }
}
