//! Lines that are text.
ghost use Rattle.std.specs.Prelude.{◌≡◌};
ghost use Rattle.std.specs.Str.{is_utf8};

use std::str::from_utf8;

/// Whether the line is UTF-8.
pub fn is_text(line: &[u8]) -> bool
    ensures { result ≡ is_utf8 line.now }
{
    from_utf8(line).is_ok()
}
