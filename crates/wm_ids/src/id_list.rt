//! Lists of ids, of which most have one.

ghost use Rattle.std.specs.Prelude.{◌≡◌, ◌∷◌, [], ◌==◌, length, IfOk, OnOk};
ghost use Rattle.std.specs.List.Sorted.{IsStrictlySortedBy};
ghost use Rattle.std.specs.Ordering.{nat_cmp};
ghost use Rattle.wm_ids.specs.Held.{held_ids};
ghost use Rattle.wm_ids.specs.Ids.{placed, without};

use crate::ids::{add_id, drop_id};
use std::alloc::Global;
use std::marker::Model;
use std::slice::from_ref;
use wm_base::Memory;

/// Ids in ascending order. One alone takes no memory of its own.
#[derive(Drop)]
pub struct IdList {
    held: Held,
}

/// What a list holds. Several that have become fewer stay where they are.
#[derive(Drop)]
enum Held {
    Nothing,
    One(u64),
    Several(Box<Vec<u64>>),
}

impl Model for IdList {
    ghost use Rattle.std.specs.Prelude.{ℕ, List};

    ghost Value = { List ℕ };

    ghost use Rattle.wm_ids.specs.Held.{held_ids};

    ghost view = { λ list. held_ids list.held };
}

/// Two ids in ascending order, or one where they are the same.
fn both(alloc: Global, id: u64, other: u64) -> Result<Held, Memory>
    ensures { IfOk result (λ held. held_ids held ≡ placed id (other ∷ [])) }
{
    if id == other {
        return Ok(Held::One(other));
    }
    let mut ids = Vec::with_capacity(alloc, 2)?;
    ids.push(other)?;
    add_id(&mut ids, id)?;
    Ok(Held::Several(Box::new(alloc, ids)?))
}

impl IdList {
    /// A list of no ids.
    pub fn new() -> IdList
        ensures { result ≡ [] }
    {
        IdList {
            held: Held::Nothing,
        }
    }

    /// A list of one id.
    pub fn one(id: u64) -> IdList
        ensures { result ≡ id ∷ [] }
    {
        IdList {
            held: Held::One(id),
        }
    }

    /// The ids.
    pub fn as_slice(&self) -> &[u64]
        ensures { result.now ≡ self.now }
    {
        match &self.held {
            Held::Nothing => &[],
            Held::One(id) => from_ref(id),
            Held::Several(ids) => ids.as_slice(),
        }
    }

    /// Whether there are none.
    pub fn is_empty(&self) -> bool
        ensures { result ≡ (length self.now == 0) }
    {
        self.as_slice().is_empty()
    }

    /// Puts an id among those that ascend, where it is not there already.
    pub fn add(&mut self, alloc: Global, id: u64) -> Result<(), Memory>
        requires { IsStrictlySortedBy nat_cmp self.old }
        ensures { OnOk result (self.new ≡ placed id self.old) }
    {
        match &mut self.held {
            Held::Nothing => self.held = Held::One(id),
            Held::One(other) => self.held = both(alloc, id, *other)?,
            Held::Several(ids) => add_id(ids, id)?,
        }
        Ok(())
    }

    /// Takes an id out of those that ascend, where it is there.
    pub fn remove(&mut self, id: u64)
        requires { IsStrictlySortedBy nat_cmp self.old }
        ensures { self.new ≡ without id self.old }
    {
        match &mut self.held {
            Held::Nothing => {}
            Held::One(other) => {
                if *other == id {
                    self.held = Held::Nothing;
                }
            }
            Held::Several(ids) => drop_id(ids, id),
        }
    }
}
