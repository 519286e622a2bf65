//! The bytes of a page as slots.
ghost use Rattle.std.specs.Prelude.{◌≡◌, IfOk, IfSome};
ghost use Rattle.std.specs.Option.{option_map};
ghost use Rattle.wm_codec.specs.Format.{times};
ghost use Rattle.wm_heap.specs.Slots.{slot, slots_at, slots_of, IsPacked};

use crate::slot::Slots;
use crate::walk::slot_at;
use std::alloc::Global;
use wm_base::Memory;

/// What is behind so many slots. None where they run past the end of the bytes.
fn behind(count: u16, bytes: &[u8]) -> Option<&[u8]>
    ensures { option_map (λ rest. rest.now) result ≡ option_map (λ x. x.1) (times slot count bytes.now) }
{
    let mut rest = bytes;
    for _ in 0..count {
        let (_, after) = slot_at(rest)?;
        rest = after;
    }
    Some(rest)
}

/// How many slots a page has, and their bytes. None where they run past its end.
fn slots_in(page: &[u8]) -> Option<(u16, &[u8])>
    ensures are { option_map (λ x. slots_at x.0 x.1.now) result ≡ slots_of page.now }
    ensures packed { IfSome result (λ x. IsPacked (slots_at x.0 x.1.now) x.0 x.1.now) }
{
    let (count, bytes) = page.split_first_chunk::<2>()?;
    let count = u16::from_be_bytes(*count);
    let rest = behind(count, bytes)?;
    let (slots, _) = bytes.split_at(bytes.len() - rest.len());
    Some((count, slots))
}

/// The slots of a page, or None exactly where they run past its end.
pub fn read_slots(alloc: Global, page: &[u8]) -> Result<Option<Slots>, Memory>
    ensures { IfOk result (λ slots. slots ≡ slots_of page.now) }
{
    let Some((count, slots)) = slots_in(page) else {
        return Ok(None);
    };
    Ok(Some(Slots::copied(alloc, count, slots)?))
}
