//! Slots as the bytes of a page.
ghost use Rattle.std.specs.Prelude.{◌≡◌, ◌≤◌, length, Some, IfOk, OnOk};
ghost use Rattle.wm_heap.specs.Slots.{slots_of, page_of, used};

use crate::slot::Slots;
use std::alloc::Global;
use wm_base::{Bytes, Memory};
use wm_page::PAGE_SIZE;

/// The bytes of a page that holds the slots.
pub fn write_slots(alloc: Global, slots: &Slots) -> Result<Bytes, Memory>
    requires { used slots.now ≤ 4096 }
    ensures page { IfOk result (λ page. page ≡ page_of slots.now) }
    ensures size { IfOk result (λ page. length page ≡ 4096) }
    ensures again { OnOk result (slots_of (page_of slots.now) ≡ Some slots.now) }
{
    let count = slots.len() as u16;
    let mut page = Vec::with_capacity(alloc, PAGE_SIZE)?;
    page.extend_from_slice(&count.to_be_bytes())?;
    page.extend_from_slice(slots.as_bytes())?;
    let zeros = [0; PAGE_SIZE];
    page.extend_from_slice(&zeros[..PAGE_SIZE - page.len()])?;
    Ok(Bytes::from_vec(page))
}
