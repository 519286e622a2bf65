//! The first of two texts.
ghost use Rattle.std.specs.Prelude.{◌≡◌, option_copied};
ghost use Rattle.std.specs.Option.{option_or};
ghost use Rattle.wm_typing.specs.Names.{unless};

/// The first text that is there.
pub fn first_of<'a>(one: Option<&'a [u8]>, other: Option<&'a [u8]>) -> Option<&'a [u8]>
    ensures { option_copied result ≡ option_or (option_copied one.entry) (option_copied other.entry) }
{
    match one {
        Some(text) => Some(text),
        None => other,
    }
}

/// The text, where the test fails.
pub fn unless(holds: bool, text: &[u8]) -> Option<&[u8]>
    ensures { option_copied result ≡ unless holds text.now }
{
    if holds { None } else { Some(text) }
}
