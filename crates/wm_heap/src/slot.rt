//! The slots of a page.
ghost use Rattle.std.specs.Prelude.{◌≡◌, ◌+◌, ◌-◌, ◌<◌, ◌≤◌, false, IsTrue, ◌∷◌, [], ◌++◌, length, filter, not, ◌==◌, ◌↔◌, ℕ, slice_index, Some, OnOk, OnErr, IfOk, take, drop};
ghost use Rattle.wm_codec.specs.Writing.{Appends, AppendsEach};
ghost use Rattle.wm_heap.specs.Slots.{slot, slots_at, used, IsPacked};
ghost use Rattle.wm_heap.specs.Content.{bytes_at};
ghost use Rattle.wm_heap.specs.Blobs.{AreBytes};

use crate::blob::Blob;
use crate::walk::{SlotIter, slot_at};
use std::alloc::Global;
use std::marker::Model;
use wm_base::{Bytes, Memory};
use wm_page::PAGE_SIZE;

/// The bytes of a slot before those of its record: its id and their number.
const HEAD: usize = 10;

/// A slot of a page: the bytes of a record under its id.
#[derive(Drop)]
pub struct Slot {
    pub id: u64,
    pub bytes: Bytes,
}

/// The slots of a page, in order.
#[derive(Drop)]
pub struct Slots {
    count: usize,
    /// The slots one behind another, each as it stands on a page.
    bytes: Vec<u8>,
}

impl Model for Slots {
    ghost use Rattle.std.specs.Prelude.{List};
    ghost use Rattle.wm_heap.specs.declared.slot.Slot.{Slot};
    ghost use Rattle.wm_heap.specs.Slots.{slots_at, IsPacked};

    ghost Value = { List Slot };

    ghost view = { λ s. slots_at s.count s.bytes.items };

    ghost invariant = { λ s. IsPacked (slots_at s.count s.bytes.items) s.count s.bytes.items };
}

impl Slots {
    /// No slots.
    pub fn new(alloc: Global) -> Slots
        ensures { result ≡ [] }
    {
        Slots {
            count: 0,
            bytes: Vec::new(alloc),
        }
    }

    /// So many slots, as they stand on a page. There is room for a page of them.
    pub(crate) fn copied(alloc: Global, count: u16, slots: &[u8]) -> Result<Slots, Memory>
        requires { IsPacked (slots_at count slots.now) count slots.now }
        ensures { IfOk result (λ all. all ≡ slots_at count slots.now) }
    {
        let mut bytes = Vec::with_capacity(alloc, PAGE_SIZE)?;
        bytes.extend_from_slice(slots)?;
        let count = count as usize;
        Ok(Slots { count, bytes })
    }

    /// The slots, in order.
    pub fn iter(&self) -> SlotIter<'_>
        ensures { result ≡ self.now }
    {
        SlotIter::new(self.count, self.bytes.as_slice())
    }

    /// The slots one behind another, each as it stands on a page.
    pub(crate) fn as_bytes(&self) -> &[u8]
        ensures { AppendsEach slot [] result.now self.now }
    {
        self.bytes.as_slice()
    }

    /// How many slots there are.
    pub fn len(&self) -> usize
        ensures { result ≡ length self.now }
    {
        self.count
    }

    /// Puts a slot behind those that are there. A record of more bytes than two bytes count is answered as memory that
    /// ran out is: no page has room for it.
    pub fn push(&mut self, slot: Slot) -> Result<(), Memory>
        ensures ok { OnOk result (self.new ≡ self.old ++ slot ∷ []) }
        ensures err { OnErr result (self.new ≡ self.old) }
    {
        append_slot(&mut self.bytes, slot.id, slot.bytes.as_slice())?;
        self.count += 1;
        Ok(())
    }

    /// The slots but those of an id.
    pub fn without(self, id: u64) -> Slots
        ensures { result ≡ filter (λ s. not (s.id == id)) self }
    {
        let mut slots = self;
        drop_slots(&mut slots.count, &mut slots.bytes, id);
        slots
    }

    /// The bytes under an id.
    pub fn find(&self, alloc: Global, id: u64) -> Result<Option<Bytes>, Memory>
        ensures { IfOk result (λ found. found ≡ bytes_at self.now id) }
    {
        for slot in self.iter() {
            if slot.id == id {
                return Ok(Some(copy_of(alloc, slot.bytes)?));
            }
        }
        Ok(None)
    }

    /// Whether what is to stand under an id stands there: the same bytes, or none.
    pub fn hold(&self, blob: &Blob) -> bool
        ensures same { IsTrue result ↔ (bytes_at self.now blob.now.id ≡ blob.now.bytes) }
        ensures bytes { AreBytes (bytes_at self.now blob.now.id) }
    {
        for slot in self.iter() {
            if slot.id == blob.id {
                return are_bytes(slot.bytes, &blob.bytes);
            }
        }
        blob.bytes.is_none()
    }

    /// How many bytes of a page they leave.
    pub fn left(&self) -> usize
        ensures { result ≡ 4096 - used self.now }
    {
        (PAGE_SIZE - 2).saturating_sub(self.bytes.as_slice().len())
    }

    /// Whether a page has room for them and a slot of so many bytes.
    pub fn fit_with(&self, len: usize) -> bool
        ensures yes { IsTrue result → used self.now + 10 + len ≤ 4096 }
        ensures no { result ≡ false → 4096 < used self.now + 10 + len }
    {
        if len > 4084 {
            return false;
        }
        10 + len <= self.left()
    }
}

/// Whether there are bytes, and they are these.
fn are_bytes(these: &[u8], bytes: &Option<Bytes>) -> bool
    ensures same { IsTrue result ↔ (bytes.now ≡ Some these.now) }
    ensures bytes { (i : ℕ) → slice_index these.now i < 256 }
{
    match bytes {
        Some(bytes) => bytes.as_slice() == these,
        None => false,
    }
}

fn copy_of(alloc: Global, bytes: &[u8]) -> Result<Bytes, Memory>
    ensures { IfOk result (λ copy. copy ≡ bytes.now) }
{
    let mut copy = Bytes::new(alloc);
    copy.append(bytes)?;
    Ok(copy)
}

/// A slot with a copy of the bytes.
pub fn slot_of(alloc: Global, id: u64, bytes: &Bytes) -> Result<Slot, Memory>
    ensures { IfOk result (λ slot. slot ≡ record { id = id; bytes = bytes.now }) }
{
    let bytes = copy_of(alloc, bytes.as_slice())?;
    Ok(Slot { id, bytes })
}

/// Puts a slot behind the bytes, all of it or nothing.
fn append_slot(bytes: &mut Vec<u8>, id: u64, content: &[u8]) -> Result<(), Memory>
    ensures ok { OnOk result (Appends slot bytes.old.items bytes.new.items (record { id = id; bytes = content.now })) }
    ensures err { OnErr result (bytes.new.items ≡ bytes.old.items) }
{
    let Ok(len) = u16::try_from(content.len()) else {
        return Err(Memory);
    };
    bytes.reserve(HEAD + content.len())?;
    bytes.extend_from_slice(&id.to_be_bytes())?;
    bytes.extend_from_slice(&len.to_be_bytes())?;
    bytes.extend_from_slice(content)?;
    Ok(())
}

/// Takes the bytes between two places out.
fn cut(bytes: &mut Vec<u8>, from: usize, till: usize)
    requires from { from ≤ till }
    requires till { till ≤ length bytes.old.items }
    ensures { bytes.new.items ≡ take from bytes.old.items ++ drop till bytes.old.items }
{
    bytes.copy_within(till.., from);
    bytes.truncate(bytes.len() - (till - from));
}

/// Takes the slots of an id out of the bytes, and counts those that are left.
fn drop_slots(count: &mut usize, bytes: &mut Vec<u8>, id: u64)
    requires { IsPacked (slots_at count.old bytes.old.items) count.old bytes.old.items }
    ensures { IsPacked (filter (λ s. not (s.id == id)) (slots_at count.old bytes.old.items)) count.new bytes.new.items }
{
    let mut from = 0;
    while let Some((slot, rest)) = slot_at(&bytes[from..]) {
        let found = slot.id;
        let till = bytes.len() - rest.len();
        if found == id {
            cut(bytes, from, till);
            *count -= 1;
        } else {
            from = till;
        }
    }
}
