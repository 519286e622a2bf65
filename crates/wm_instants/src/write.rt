ghost use Rattle.std.specs.Prelude.{◌≡◌, ◌+◌, ◌/◌, ◌%◌, ◌<◌, ◌++◌, pos, neg_ℤ, ◌+ℤ◌, ◌≤ℤ◌, unsigned_abs, Ok, OnOk, OnErr, codes};
ghost use Rattle.jiff_core.specs.Date.{epoch_day};
ghost use Rattle.jiff_core.specs.Time.{time_seconds};
ghost use Rattle.wm_instants.specs.Instants.{instant_of};
ghost use Rattle.wm_instants.specs.Texts.{year_of, month_of, day_of, second_of_day, date_text, clock_text, instant_text};

use crate::civil::beginning;
use jiff::civil::DateTime;
use std::time::Duration;
use wm_base::{Bytes, END, Instant, Memory};

/// What a calendar and a clock show at a moment.
fn datetime_at(at: Instant) -> DateTime
    requires { at < END }
    ensures year { result.date.year ≡ pos (year_of at) }
    ensures month { result.date.month ≡ month_of at }
    ensures day { result.date.day ≡ day_of at }
    ensures seconds { time_seconds result.time ≡ second_of_day at }
    ensures low { pos 1 ≤ℤ result.date.year }
    ensures days { epoch_day result.date ≡ neg_ℤ (pos 719_162) +ℤ pos (at / 86_400) }
{
    let Ok(shown) = beginning().checked_add(Duration::from_secs(at.seconds())) else {
        unreachable!()
    };
    shown
}

fn tens(n: u8) -> u8
    requires { n < 100 }
    ensures { result ≡ 48 + n / 10 }
{
    b'0' + n / 10
}

fn ones(n: u8) -> u8
    ensures { result ≡ 48 + n % 10 }
{
    b'0' + n % 10
}

/// `YYYY-MM-DD HH:MM:SS` of a date and time in the years 0 to 9999.
fn text_of(shown: DateTime) -> [u8; 19]
    requires { pos 0 ≤ℤ shown.date.year }
    ensures { result
        ≡ date_text (unsigned_abs shown.date.year) shown.date.month shown.date.day ++ codes " "
        ++ clock_text shown.time.hour shown.time.minute shown.time.second }
{
    let shown = shown.to_plain();
    let (date, time) = (shown.date, shown.time);
    let year = date.year as u16;
    let (century, year) = ((year / 100) as u8, (year % 100) as u8);
    [
        tens(century),
        ones(century),
        tens(year),
        ones(year),
        b'-',
        tens(date.month),
        ones(date.month),
        b'-',
        tens(date.day),
        ones(date.day),
        b' ',
        tens(time.hour),
        ones(time.hour),
        b':',
        tens(time.minute),
        ones(time.minute),
        b':',
        tens(time.second),
        ones(time.second),
    ]
}

/// Appends the text of an instant: `YYYY-MM-DD HH:MM:SS`, and `UNTIL_CHANGED` for `END`.
pub fn write_instant(at: Instant, into: &mut Bytes) -> Result<(), Memory>
    ensures ok { OnOk result (into.new ≡ into.old ++ instant_text at) }
    ensures err { OnErr result (into.new ≡ into.old) }

    // What is written for a moment is read as it.
    ensures read_back { at < END → instant_of (instant_text at) ≡ Ok at }
{
    if at.seconds() == END {
        into.append(b"UNTIL_CHANGED")
    } else {
        into.append(&text_of(datetime_at(at)))
    }
}
