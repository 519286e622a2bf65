//! Numbers in pages, with their highest byte first.
ghost use Rattle.std.specs.Prelude.{◌≡◌, ◌+◌, ◌≤◌, length};
ghost use Rattle.wm_page.specs.Fields.{number_at, eight_bytes, with_bytes};

use byteorder::{BigEndian, ByteOrder};

/// The number in the eight bytes from `at` on.
#[tactic(auto, unfolding(crate::specs::Fields::number_at))]
pub fn read_number(bytes: &[u8], at: usize) -> u64
    requires { at + 8 ≤ length bytes.now }
    ensures { result ≡ number_at bytes.now at }
{
    BigEndian::read_u64(&bytes[at..at + 8])
}

/// Writes the number into the eight bytes from `at` on.
#[tactic(auto, unfolding(crate::specs::Fields::number_at, crate::specs::Fields::eight_bytes))]
pub fn write_number(bytes: &mut [u8], at: usize, number: u64)
    requires { at + 8 ≤ length bytes.old }
    ensures bytes { bytes.new ≡ with_bytes bytes.old at (eight_bytes number) }
    ensures reads { number_at bytes.new at ≡ number }
{
    BigEndian::write_u64(&mut bytes[at..at + 8], number);
}
