//! Lines that say nothing.
ghost use Rattle.std.specs.Prelude.{◌≡◌, length, take};
ghost use Rattle.std.specs.Str.{bytes_eq};
ghost use Rattle.wm_reader.specs.Reading.{is_blank, run_of, skip, is_spent, is_remark};

/// Whether the byte is a space or a tab.
fn is_blank(byte: u8) -> bool
    ensures { result ≡ is_blank byte }
{
    byte == b' ' || byte == b'\t'
}

/// How many blanks the text begins with.
fn blank_count(text: &[u8]) -> usize
    ensures { result ≡ run_of is_blank text.now }
{
    text.iter().take_while(|byte| is_blank(**byte)).count()
}

/// The text without the blanks at its front.
#[tactic(auto, unfolding(crate::specs::Reading::skip))]
fn skip(text: &[u8]) -> &[u8]
    ensures { result.now ≡ skip text.now }
{
    text.split_at(blank_count(text)).1
}

/// Whether nothing but blanks is left.
#[tactic(auto, unfolding(crate::specs::Reading::is_spent))]
fn is_spent(text: &[u8]) -> bool
    ensures { result ≡ is_spent text.now }
{
    blank_count(text) == text.len()
}

/// Whether the text begins with this.
fn starts_with(front: &[u8], text: &[u8]) -> bool
    ensures { result ≡ bytes_eq (take (length front.now) text.now) front.now }
{
    text.split_at(text.len().min(front.len())).0 == front
}

/// Whether the line is blank, or a comment, which begins with two dashes.
#[tactic(auto, unfolding(crate::specs::Reading::is_remark))]
pub fn is_remark(line: &[u8]) -> bool
    ensures { result ≡ is_remark line.now }
{
    is_spent(line) || starts_with(b"--", skip(line))
}
