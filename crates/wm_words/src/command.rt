//! A command, by the values of its options.
ghost use Rattle.std.specs.Prelude.{◌≡◌, ◌≤◌, length, true, IfSome};
ghost use Rattle.std.specs.Char.{is_ascii_digit};
ghost use Rattle.std.specs.List.{list_all};
ghost use Rattle.wm_words.specs.Values.{init_of, load_of, run_of, are_digits, number_behind, number_within, IsInBounds};

use wm_base::Instant;
use wm_instants::read_instant;

/// What the words ask for.
#[derive(Clone, Copy, Debug, PartialEq)]
pub enum Command {
    /// To make a store that takes so many changes.
    Init { limit: u32 },
    /// To run a script from this moment on.
    Run { moment: Instant },
    /// To open the store, and leave it as it is.
    Check,
    /// To run the script of this number, with so many drawn lines.
    Load { seed: u64, lines: u32 },
}

/// The most digits that a number may have.
const DIGITS: usize = 20;

/// The most changes that a store can take.
const GREATEST_LIMIT: u128 = 1_048_576;

/// The greatest number from which a script is drawn, which is that of u64.
const GREATEST_SEED: u128 = 18_446_744_073_709_551_615;

/// The most lines that are drawn.
const MOST_LINES: u128 = 1_000_000;

/// `init` of the limit that the text writes.
pub(crate) fn init_command(text: &[u8]) -> Option<Command>
    ensures value { result ≡ init_of text.now }
    ensures bounds { IfSome result IsInBounds }
{
    let limit = number_within(text, 1, GREATEST_LIMIT)?;
    Some(Command::Init {
        limit: limit as u32,
    })
}

/// `run` from the moment that the text means.
pub(crate) fn run_command(text: &[u8]) -> Option<Command>
    ensures value { result ≡ run_of text.now }
    ensures bounds { IfSome result IsInBounds }
{
    match read_instant(text) {
        // A run begins below END; no text means END itself.
        Ok(moment) if moment.is_moment() => Some(Command::Run { moment }),
        _ => None,
    }
}

/// `load` of the number and the count of lines that the texts write.
pub(crate) fn load_command(seed: &[u8], lines: &[u8]) -> Option<Command>
    ensures value { result ≡ load_of seed.now lines.now }
    ensures bounds { IfSome result IsInBounds }
{
    let seed = number_within(seed, 0, GREATEST_SEED)?;
    let lines = number_within(lines, 0, MOST_LINES)?;
    Some(Command::Load {
        seed: seed as u64,
        lines: lines as u32,
    })
}

/// The number that the text writes, where it lies within the bounds.
fn number_within(text: &[u8], least: u128, greatest: u128) -> Option<u128>
    ensures value { result ≡ number_within least greatest text.now }
    ensures bounds { IfSome result (λ number. (least ≤ number) × (number ≤ greatest)) }
{
    if !are_number_digits(text) {
        return None;
    }
    let number = number_of(text);
    if least <= number && number <= greatest {
        Some(number)
    } else {
        None
    }
}

fn are_number_digits(text: &[u8]) -> bool
    ensures { result ≡ are_digits text.now }
{
    1 <= text.len() && text.len() <= DIGITS && are_all_digits(text)
}

fn are_all_digits(text: &[u8]) -> bool
    ensures { result ≡ list_all is_ascii_digit text.now }
{
    text.iter().all(|digit| digit.is_ascii_digit())
}

fn number_of(digits: &[u8]) -> u128
    requires short { length digits.now ≤ 20 }
    requires digits { list_all is_ascii_digit digits.now ≡ true }
    ensures { result ≡ number_behind 0 digits.now }
{
    let mut number = 0;
    for digit in digits {
        number = 10 * number + u128::from(*digit - b'0');
    }
    number
}
