//! Slots that stand one behind another in bytes, looked at where they stand.
ghost use Rattle.std.specs.Prelude.{◌≡◌};
ghost use Rattle.std.specs.Iterator.{YieldsFirstBy, item_count};
ghost use Rattle.std.specs.Option.{option_map};
ghost use Rattle.wm_heap.specs.Slots.{slot, slots_at};
ghost use Rattle.wm_heap.specs.Walk.{slot_seen};

use std::marker::Model;

/// A slot where it stands: the bytes of a record under its id.
#[derive(Clone, Copy)]
pub struct SlotRef<'a> {
    pub id: u64,
    pub bytes: &'a [u8],
}

/// The slot that bytes begin with, and the bytes behind it. None where it runs past their end.
pub(crate) fn slot_at(bytes: &[u8]) -> Option<(SlotRef<'_>, &[u8])>
    ensures { option_map (λ x. (slot_seen x.0, x.1.now)) result ≡ slot.read bytes.now }
{
    let (id, rest) = bytes.split_first_chunk::<8>()?;
    let (len, rest) = rest.split_first_chunk::<2>()?;
    let (bytes, rest) = rest.split_at_checked(u16::from_be_bytes(*len) as usize)?;
    let id = u64::from_be_bytes(*id);
    Some((SlotRef { id, bytes }, rest))
}

/// Slots in order, as many as are left to be looked at.
#[derive(Drop)]
pub struct SlotIter<'a> {
    left: usize,
    rest: &'a [u8],
}

impl<'a> Model for SlotIter<'a> {
    ghost use Rattle.std.specs.Prelude.{List};
    ghost use Rattle.wm_heap.specs.declared.slot.Slot.{Slot};
    ghost use Rattle.wm_heap.specs.Slots.{slots_at};

    ghost Value = { List Slot };

    ghost view = { λ s. slots_at s.left s.rest.now };
}

impl<'a> SlotIter<'a> {
    /// The slots that bytes begin with, up to so many.
    pub(crate) fn new(left: usize, rest: &'a [u8]) -> SlotIter<'a>
        ensures { result ≡ slots_at left rest.now }
    {
        SlotIter { left, rest }
    }
}

impl<'a> Iterator for SlotIter<'a> {
    type Item = SlotRef<'a>;

    ghost next_gives = { YieldsFirstBy slot_seen (λ slots. slots) };

    ghost remaining = { item_count (λ slots. slots) };

    // Each change of a page walks all of its slots.
    #[inline(always)]
    fn next(&mut self) -> Option<SlotRef<'a>> {
        if self.left == 0 {
            return None;
        }
        let (slot, rest) = slot_at(self.rest)?;
        self.left -= 1;
        self.rest = rest;
        Some(slot)
    }
}
