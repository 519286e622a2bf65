//! What becomes of records in one commit.
ghost use Rattle.std.specs.Prelude.{◌≡◌, ◌∷◌, [], ◌++◌, OnOk, OnErr};

use crate::record::Record;
use std::alloc::Global;
use std::marker::Model;
use wm_base::Memory;

/// What becomes of the record of an id: a record, or None where it is dropped.
#[derive(Drop)]
pub struct Change {
    pub id: u64,
    pub becomes: Option<Record>,
}

/// The changes of a batch; no id stands in it twice.
#[derive(Drop)]
pub struct Changes {
    list: Vec<Change>,
}

impl Model for Changes {
    ghost use Rattle.std.specs.Prelude.{List};
    ghost use Rattle.wm_spec.specs.declared.record.batch.Change.{Change};

    ghost Value = { List Change };

    ghost view = { λ c. c.list.items };
}

impl Changes {
    /// No changes.
    pub fn new(alloc: Global) -> Changes
        ensures { result ≡ [] }
    {
        Changes {
            list: Vec::new(alloc),
        }
    }

    pub fn into_vec(self) -> Vec<Change>
        ensures { result.items ≡ self }
    {
        self.list
    }

    pub fn as_slice(&self) -> &[Change]
        ensures { result.now ≡ self.now }
    {
        self.list.as_slice()
    }

    pub fn push(&mut self, change: Change) -> Result<(), Memory>
        ensures ok { OnOk result (self.new ≡ self.old ++ change ∷ []) }
        ensures err { OnErr result (self.new ≡ self.old) }
    {
        self.list.push(change)?;
        Ok(())
    }
}

/// The changes that are committed together, all or none of them.
#[derive(Drop)]
pub struct Batch {
    pub changes: Changes,
}
