//! The ids of a page's slots.
ghost use Rattle.std.specs.Prelude.{◌≡◌, ◌+◌, ◌^◌, ◌<◌, ◌≤◌, ◌++◌, ◌∷◌, [], length, take, IfOk, OnOk};
ghost use Rattle.wm_heap.specs.Places.{ids_of};

use crate::slot::Slots;
use std::alloc::Global;
use std::marker::Model;
use wm_base::Memory;

/// Ids, in order.
#[derive(Drop)]
pub struct Ids {
    list: Vec<u64>,
}

impl Model for Ids {
    ghost use Rattle.std.specs.Prelude.{List, ℕ};

    ghost Value = { List ℕ };

    ghost view = { λ i. i.list.items };
}

impl Ids {
    /// The ids, in order.
    pub fn as_slice(&self) -> &[u64]
        ensures { result.now ≡ self.now }
    {
        self.list.as_slice()
    }

    /// They become the ids of the slots, in order. Their room is used again, and no more is taken than they need: most
    /// pages stay as they are.
    pub fn set(&mut self, slots: &Slots) -> Result<(), Memory>
        ensures { OnOk result (self.new ≡ ids_of slots.now) }
    {
        let more = slots.len().saturating_sub(self.list.len());
        self.list.reserve_exact(more)?;
        let mut count = 0;
        for slot in slots.iter() {
            put_at(&mut self.list, count, slot.id)?;
            count += 1;
        }
        self.list.truncate(count);
        Ok(())
    }
}

/// Puts an id in a place, or behind the others.
fn put_at(ids: &mut Vec<u64>, place: usize, id: u64) -> Result<(), Memory>
    requires { place ≤ length ids.old.items }
    ensures put { OnOk result (take (place + 1) ids.new.items ≡ take place ids.old.items ++ id ∷ []) }
    ensures within { OnOk result (place < length ids.new.items) }
    ensures fits { OnOk result (place + 1 < 2 ^ 64) }
{
    if place < ids.len() {
        ids[place] = id;
    } else {
        ids.push(id)?;
    }
    Ok(())
}

/// The ids of the slots, in order.
pub fn ids_of_slots(alloc: Global, slots: &Slots) -> Result<Ids, Memory>
    ensures { IfOk result (λ ids. ids ≡ ids_of slots.now) }
{
    let mut ids = Ids {
        list: Vec::new(alloc),
    };
    ids.set(slots)?;
    Ok(ids)
}
