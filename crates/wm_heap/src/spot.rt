//! The places at which records stand.
ghost use Rattle.std.specs.Prelude.{◌≡◌, ◌∷◌, [], ◌++◌, OnOk, OnErr};

use std::alloc::Global;
use std::marker::Model;
use wm_base::Memory;

/// Where a record stands.
#[derive(Clone, Copy, Debug, PartialEq)]
pub struct Spot {
    pub page: u64,
    pub id: u64,
}

/// Where records stand, in order.
#[derive(Drop)]
pub struct Spots {
    list: Vec<Spot>,
}

impl Model for Spots {
    ghost use Rattle.std.specs.Prelude.{List};
    ghost use Rattle.wm_heap.specs.declared.spot.Spot.{Spot};

    ghost Value = { List Spot };

    ghost view = { λ s. s.list.items };
}

impl Spots {
    /// No spots.
    pub fn new(alloc: Global) -> Spots
        ensures { result ≡ [] }
    {
        Spots {
            list: Vec::new(alloc),
        }
    }

    pub fn as_slice(&self) -> &[Spot]
        ensures { result.now ≡ self.now }
    {
        self.list.as_slice()
    }

    /// Puts a spot behind those that are there.
    pub fn push(&mut self, spot: Spot) -> Result<(), Memory>
        ensures ok { OnOk result (self.new ≡ self.old ++ spot ∷ []) }
        ensures err { OnErr result (self.new ≡ self.old) }
    {
        self.list.push(spot)?;
        Ok(())
    }
}
