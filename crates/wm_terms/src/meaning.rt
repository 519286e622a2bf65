ghost use Rattle.std.specs.Prelude.{◌≡◌, ◌≤◌, ◌<◌, IfOk, IfSome, Some, None, bytes_eq, if◌then◌else◌, nat_le, ◌&&◌, ◌==◌};
ghost use Rattle.std.specs.List.{list_all};
ghost use Rattle.wm_grammar.specs.Meaning.{number_of, greatest, between, unquoted, instant_for, mask_of, operator_of};

use std::alloc::Global;
use wm_base::{Instant, Memory};
use wm_grammar::is_word;
use wm_instants::{DateForm, read_in};
use wm_syntax::operand::Operator;

/// The number of the digits, unless it is above the greatest integer.
#[tactic(auto, unfolding(wm_grammar::specs::Meaning::number_of))]
pub fn number_within(digits: &[u8]) -> Option<u64>
    ensures value { result ≡ (if nat_le (number_of digits.now) greatest then Some (number_of digits.now) else None) }
    ensures bound { IfSome result (λ n. n ≤ greatest) }
{
    let mut number: u64 = 0;
    for b in digits {
        let digit = u64::from(b.saturating_sub(b'0'));
        if number > (i64::MAX as u64 - digit) / 10 {
            return None;
        }
        number = 10 * number + digit;
    }
    Some(number)
}

/// The number of the digits; one that is above the greatest integer is 0.
#[tactic(auto, using(crate::proofs::Numbers::some_within, crate::proofs::Numbers::none_within))]
pub fn int_of(digits: &[u8]) -> u64
    ensures value { result ≡ (if nat_le (number_of digits.now) greatest then number_of digits.now else 0) }
    ensures bound { result ≤ greatest }
{
    match number_within(digits) {
        Some(number) => number,
        None => 0,
    }
}

/// The bytes between the quotes of a text.
pub fn between(word: &[u8]) -> &[u8]
    ensures { result.now ≡ between word.now }
{
    match word {
        [_, inner @ .., _] => inner,
        _ => &word[word.len()..],
    }
}

/// The bytes that a text stands for.
#[tactic(auto, unfolding(wm_grammar::specs::Meaning::unquoted))]
pub fn unquoted_bytes(alloc: Global, word: &[u8]) -> Result<Vec<u8>, Memory>
    ensures { IfOk result (λ v. v.items ≡ unquoted word.now) }
{
    let mut bytes = Vec::new(alloc);
    let mut quote = false;
    let inner = if word.is_empty() { word } else { &word[1..] };
    'bytes: for b in inner {
        if *b == b'\'' {
            if quote {
                bytes.push(b'\'')?;
            }
            quote = !quote;
        } else if quote {
            return Ok(bytes);
        } else {
            bytes.push(*b)?;
        }
    }
    Ok(bytes)
}

/// The instant of a date text, or the first one where it has not the form or there is no such date.
pub fn instant_for(form: DateForm, bytes: &[u8]) -> Instant
    ensures { result ≡ instant_for form bytes.now }
{
    match read_in(form, bytes) {
        Ok(instant) => instant,
        Err(_) => Instant::beginning(),
    }
}

/// Whether these are the same bytes.
fn are(bytes: &[u8], others: &[u8]) -> bool
    ensures { result ≡ bytes_eq bytes.now others.now }
{
    bytes == others
}

/// The form that a mask of TO_DATE names.
#[tactic(auto, unfolding(wm_grammar::specs::Meaning::mask_of))]
pub fn mask_of(bytes: &[u8]) -> Option<DateForm>
    ensures { result ≡ mask_of bytes.now }
{
    if are(bytes, b"YYYY-MM-DD") {
        return Some(DateForm::Date);
    }
    if are(bytes, b"MM-DD-YYYY") {
        return Some(DateForm::MonthFirst);
    }
    if are(bytes, b"YYYY-MM-DD HH24:MI:SS") {
        return Some(DateForm::Seconds);
    }
    None
}

/// The operator on periods of this name.
#[tactic(auto, unfolding(wm_grammar::specs::Meaning::operator_of))]
pub fn operator_of(name: &[u8]) -> Option<Operator>
    ensures { result ≡ operator_of name.now }
{
    if is_word(name, b"WM_OVERLAPS") {
        return Some(Operator::Overlaps);
    }
    if is_word(name, b"WM_CONTAINS") {
        return Some(Operator::Contains);
    }
    if is_word(name, b"WM_MEETS") {
        return Some(Operator::Meets);
    }
    if is_word(name, b"WM_EQUALS") {
        return Some(Operator::Equals);
    }
    if is_word(name, b"WM_LESSTHAN") {
        return Some(Operator::LessThan);
    }
    if is_word(name, b"WM_GREATERTHAN") {
        return Some(Operator::GreaterThan);
    }
    None
}

/// Whether all digits are 0.
pub fn is_zero(digits: &[u8]) -> bool
    ensures { result ≡ list_all (λ b. b == 48) digits.now }
{
    digits.iter().all(|b| *b == b'0')
}

/// The size of a text; one that is not 1 to 2000 is 0.
pub fn size_of(digits: &[u8]) -> u16
    ensures { result ≡ (if nat_le 1 (number_of digits.now) && nat_le (number_of digits.now) 2000 then number_of digits.now else 0) }
{
    let size = int_of(digits);
    if size >= 1 && size <= 2000 {
        size as u16
    } else {
        0
    }
}
