//! A chunk: the values of the numbers between two multiples of one width, in ascending order.

ghost use Rattle.std.specs.Prelude.{◌≡◌, ◌<◌, ◌≤◌, ◌/◌, length, true, None, Some, IfErr, IfOk, OnErr, OnOk};
ghost use Rattle.std.specs.Option.{option_copied};
ghost use Rattle.wm_chunks.specs.Numbers.{IsChunk, Sets, entry_number, last_number, value_at};
ghost use Rattle.wm_chunks.specs.Rising.{FitsAt, StandsAt};

use std::alloc::AllocError;
use std::mem::replace;

/// How many numbers share a chunk.
pub const WIDTH: u64 = 32;

/// Where a number stands, or else where it may be put, by halving.
fn search<V>(chunk: &[(u64, V)], number: u64) -> Result<usize, usize>
    requires { IsChunk (number / 32) chunk.now }
    ensures found { IfOk result (λ place. StandsAt entry_number number chunk.now place) }
    ensures within { IfOk result (λ place. place < length chunk.now) }
    ensures fits { IfErr result (λ place. FitsAt entry_number number chunk.now place) }
    ensures between { IfErr result (λ place. place ≤ length chunk.now) }
{
    chunk.binary_search_by(|entry| entry.0.cmp(&number))
}

/// Whether a number stands at a place.
fn stands_at<V>(chunk: &[(u64, V)], number: u64, place: usize) -> bool
    requires { IsChunk (number / 32) chunk.now }
    ensures within { result ≡ true → place < length chunk.now }
    ensures stands { result ≡ true → StandsAt entry_number number chunk.now place }
{
    place < chunk.len() && chunk[place].0 == number
}

/// Whether a number is behind all others.
fn is_behind<V>(chunk: &[(u64, V)], number: u64) -> bool
    requires { IsChunk (number / 32) chunk.now }
    ensures { result ≡ true → FitsAt entry_number number chunk.now (length chunk.now) }
{
    match chunk {
        [] => true,
        [.., last] => last.0 < number,
    }
}

/// Where a number stands, or else where it may be put. In a chunk that lacks none each has a place of its own, and new
/// ones mostly come behind all others.
fn find<V>(chunk: &[(u64, V)], number: u64) -> Result<usize, usize>
    requires { IsChunk (number / 32) chunk.now }
    ensures found { IfOk result (λ place. StandsAt entry_number number chunk.now place) }
    ensures within { IfOk result (λ place. place < length chunk.now) }
    ensures fits { IfErr result (λ place. FitsAt entry_number number chunk.now place) }
    ensures between { IfErr result (λ place. place ≤ length chunk.now) }
{
    let own = (number % WIDTH) as usize;
    if stands_at(chunk, number, own) {
        return Ok(own);
    }
    if is_behind(chunk, number) {
        return Err(chunk.len());
    }
    search(chunk, number)
}

/// The value of a number.
pub fn get<V>(chunk: &[(u64, V)], number: u64) -> Option<&V>
    requires { IsChunk (number / 32) chunk.now }
    ensures { option_copied result ≡ value_at chunk.now number }
{
    match find(chunk, number) {
        Ok(place) => Some(&chunk[place].1),
        Err(_) => None,
    }
}

/// Sets the value of a number, and gives the one that it had.
pub fn insert<V: Drop>(
    chunk: &mut Vec<(u64, V)>,
    number: u64,
    value: V,
) -> Result<Option<V>, AllocError>
    requires { IsChunk (number / 32) chunk.old.items }
    ensures old { IfOk result (λ old. old ≡ value_at chunk.old.items number) }
    ensures sets { OnOk result (Sets number (Some value) chunk.old.items chunk.new.items) }
    ensures chunk { IsChunk (number / 32) chunk.new.items }
    ensures more { length chunk.old.items ≤ length chunk.new.items }
    ensures err { OnErr result (chunk.new.items ≡ chunk.old.items) }
{
    match find(chunk.as_slice(), number) {
        Ok(place) => Ok(Some(replace(&mut chunk[place].1, value))),
        Err(place) => {
            chunk.insert(place, (number, value))?;
            Ok(None)
        }
    }
}

/// Takes out the value of a number.
pub fn remove<V>(chunk: &mut Vec<(u64, V)>, number: u64) -> Option<V>
    requires { IsChunk (number / 32) chunk.old.items }
    ensures old { result ≡ value_at chunk.old.items number }
    ensures sets { Sets number None chunk.old.items chunk.new.items }
    ensures chunk { IsChunk (number / 32) chunk.new.items }
{
    match find(chunk.as_slice(), number) {
        Ok(place) => Some(chunk.remove(place).1),
        Err(_) => None,
    }
}

/// The greatest number.
pub fn last<V>(chunk: &[(u64, V)]) -> Option<u64>
    ensures { result ≡ last_number chunk.now }
{
    match chunk {
        [] => None,
        [.., last] => Some(last.0),
    }
}
