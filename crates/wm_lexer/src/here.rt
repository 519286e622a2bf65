ghost use Rattle.std.specs.Prelude.{◌≡◌, ◌+◌, ◌<◌, ◌≤◌, ◌^◌, length, drop, take_while, IfSome};
ghost use Rattle.std.specs.Char.{is_ascii_digit};
ghost use Rattle.wm_lexer.specs.Scanning.{is_blank, is_word_byte, is_single, mark_len, text_len, skipped, token_from};

use crate::token::TokenKind;

/// A space or a tab.
pub fn is_blank(b: u8) -> bool
    ensures { result ≡ is_blank b }
{
    b == b' ' || b == b'\t'
}

fn is_word_byte(b: u8) -> bool
    ensures { result ≡ is_word_byte b }
{
    b.is_ascii_alphanumeric() || b == b'_' || b == b'$' || b == b'#'
}

fn is_single(b: u8) -> bool
    ensures { result ≡ is_single b }
{
    b == b'('
        || b == b')'
        || b == b','
        || b == b'.'
        || b == b':'
        || b == b';'
        || b == b'*'
        || b == b'+'
        || b == b'-'
}

/// How many bytes the longest mark has that begins with `b` and goes on with `bytes`; 0 where none does.
fn mark_len(b: u8, bytes: &[u8]) -> usize
    ensures value { result ≡ mark_len b bytes.now }
    ensures bound { result ≤ length bytes.now + 1 }
{
    if is_single(b) {
        return 1;
    }
    match (b, bytes) {
        (b'=', [b'>', ..]) => 2,
        (b'=', _) => 1,
        (b'<', [b'>' | b'=', ..]) => 2,
        (b'<', _) => 1,
        (b'>', [b'=', ..]) => 2,
        (b'>', _) => 1,
        (b'!', [b'=', ..]) => 2,
        _ => 0,
    }
}

/// How many bytes behind its first quote a text has, its last quote too, where it has a last one.
fn text_len(bytes: &[u8]) -> Option<usize>
    ensures value { result ≡ text_len bytes.now }
    ensures bound { IfSome result (λ size. size ≤ length bytes.now) }
{
    let mut quote = false;
    for (i, b) in bytes.iter().enumerate() {
        if *b == b'\'' {
            quote = !quote;
        } else if quote {
            return Some(i);
        }
    }
    if quote { Some(bytes.len()) } else { None }
}

fn word_len(bytes: &[u8]) -> usize
    ensures value { result ≡ length (take_while is_word_byte bytes.now) }
    ensures bound { result ≤ length bytes.now }
{
    bytes.iter().take_while(|b| is_word_byte(**b)).count()
}

fn digits_len(bytes: &[u8]) -> usize
    ensures value { result ≡ length (take_while is_ascii_digit bytes.now) }
    ensures bound { result ≤ length bytes.now }
{
    bytes.iter().take_while(|b| b.is_ascii_digit()).count()
}

/// The token that begins with `b` and goes on with `bytes`, and how many bytes it has.
#[tactic(auto, unfolding(crate::specs::Scanning::token_from))]
pub fn token_here(b: u8, bytes: &[u8]) -> (TokenKind, usize)
    requires { length bytes.now < 2 ^ 32 }
    ensures value { result ≡ token_from b bytes.now }
    ensures some { 0 < result.1 }
    ensures bound { result.1 ≤ length bytes.now + 1 }
{
    if b.is_ascii_alphabetic() {
        return (TokenKind::Id, word_len(bytes) + 1);
    }
    if b.is_ascii_digit() {
        return (TokenKind::Int, digits_len(bytes) + 1);
    }
    if b == b'\'' {
        return match text_len(bytes) {
            Some(size) => (TokenKind::Text, size + 1),
            None => (TokenKind::Bad, bytes.len() + 1),
        };
    }
    match mark_len(b, bytes) {
        0 => (TokenKind::Bad, 1),
        size => (TokenKind::Mark, size),
    }
}

/// The bytes from the first on that is no blank.
pub fn skipped(bytes: &[u8]) -> &[u8]
    ensures value { result.now ≡ skipped bytes.now }
    ensures bound { length result.now ≤ length bytes.now }
{
    for (i, b) in bytes.iter().enumerate() {
        if !is_blank(*b) {
            return &bytes[i..];
        }
    }
    &bytes[bytes.len()..]
}

/// The bytes behind so many bytes and the blanks that follow them.
pub fn skipped_behind(bytes: &[u8], size: usize) -> &[u8]
    requires { size ≤ length bytes.now }
    ensures value { result.now ≡ skipped (drop size bytes.now) }
    ensures bound { length result.now + size ≤ length bytes.now }
{
    skipped(&bytes[size..])
}
