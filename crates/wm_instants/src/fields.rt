ghost use Rattle.std.specs.Prelude.{◌≡◌, ◌<◌, IfSome};
ghost use Rattle.wm_instants.specs.Fields.{two_at, four_at, day_in, clock_in, IsSmallDay, IsSmallClock};
ghost use Rattle.wm_instants.specs.Instants.{date_form, month_first_form};

/// A date as it is written; the calendar may not have it.
#[derive(Clone, Copy)]
pub struct Day {
    pub year: u16,
    pub month: u8,
    pub day: u8,
}

/// A time of day as it is written; no clock may show it.
#[derive(Clone, Copy)]
pub struct Clock {
    pub hour: u8,
    pub minute: u8,
    pub second: u8,
}

/// The number of two digits, None where a byte is no digit.
pub fn two_digits(tens: u8, ones: u8) -> Option<u8>
    ensures value { result ≡ two_at tens ones }
    ensures bound { IfSome result (λ n. n < 100) }
{
    if tens.is_ascii_digit() && ones.is_ascii_digit() {
        Some(10 * (tens - b'0') + (ones - b'0'))
    } else {
        None
    }
}

/// The number of four digits, None where a byte is no digit.
pub fn four_digits(thousands: u8, hundreds: u8, tens: u8, ones: u8) -> Option<u16>
    ensures value { result ≡ four_at thousands hundreds tens ones }
    ensures bound { IfSome result (λ n. n < 10000) }
{
    let high = two_digits(thousands, hundreds)?;
    let low = two_digits(tens, ones)?;
    Some(100 * u16::from(high) + u16::from(low))
}

/// The fields of `YYYY-MM-DD`, None where the text has not that form.
#[tactic(auto, using(crate::proofs::FormLemmas::form_laws))]
pub fn year_first(text: &[u8]) -> Option<Day>
    ensures value { result ≡ day_in date_form text.now }
    ensures bound { IfSome result IsSmallDay }
{
    if text.len() != 10 || text[4] != b'-' || text[7] != b'-' {
        return None;
    }
    let year = four_digits(text[0], text[1], text[2], text[3])?;
    let month = two_digits(text[5], text[6])?;
    let day = two_digits(text[8], text[9])?;
    Some(Day { year, month, day })
}

/// The fields of `MM-DD-YYYY`, None where the text has not that form.
#[tactic(auto, using(crate::proofs::FormLemmas::form_laws))]
pub fn month_first(text: &[u8]) -> Option<Day>
    ensures value { result ≡ day_in month_first_form text.now }
    ensures bound { IfSome result IsSmallDay }
{
    if text.len() != 10 || text[2] != b'-' || text[5] != b'-' {
        return None;
    }
    let month = two_digits(text[0], text[1])?;
    let day = two_digits(text[3], text[4])?;
    let year = four_digits(text[6], text[7], text[8], text[9])?;
    Some(Day { year, month, day })
}

/// The fields of `HH:MM:SS`, None where the text has not that form.
#[tactic(auto, using(crate::proofs::FormLemmas::form_laws))]
pub fn time_of_day(text: &[u8]) -> Option<Clock>
    ensures value { result ≡ clock_in text.now }
    ensures bound { IfSome result IsSmallClock }
{
    if text.len() != 8 || text[2] != b':' || text[5] != b':' {
        return None;
    }
    let hour = two_digits(text[0], text[1])?;
    let minute = two_digits(text[3], text[4])?;
    let second = two_digits(text[6], text[7])?;
    Some(Clock {
        hour,
        minute,
        second,
    })
}
