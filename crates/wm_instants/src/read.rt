ghost use Rattle.std.specs.Prelude.{◌≡◌, ◌∷◌, [], false};
ghost use Rattle.std.specs.Option.{ForSome};
ghost use Rattle.wm_instants.specs.Fields.{IsSmallDay, instant_from, midnight};
ghost use Rattle.wm_instants.specs.Instants.{seconds_form, is_letter, read_by, instant_in, instant_of};

use crate::civil::instant_of_fields;
use crate::fields::{Clock, Day, month_first, time_of_day, year_first};
use crate::form::DateForm;
use crate::refusal::InstantRefusal;
use wm_base::Instant;

/// The instant at which a date begins.
fn day_begins(day: Option<Day>) -> Result<Instant, InstantRefusal>
    requires { ForSome day IsSmallDay }
    ensures { result ≡ instant_from day (Some midnight) }
{
    let midnight = Clock {
        hour: 0,
        minute: 0,
        second: 0,
    };
    instant_of_fields(day.ok_or(InstantRefusal::Shape)?, midnight)
}

/// The instant of `YYYY-MM-DD HH:MM:SS` with the mark in the place of the space.
fn read_seconds(text: &[u8], mark: u8) -> Result<Instant, InstantRefusal>
    requires { is_letter mark ≡ false }
    ensures { result ≡ read_by (seconds_form mark ∷ []) text.now }
{
    if text.len() != 19 || text[10] != mark {
        return Err(InstantRefusal::Shape);
    }
    let Some(day) = year_first(&text[..10]) else {
        return Err(InstantRefusal::Shape);
    };
    let Some(clock) = time_of_day(&text[11..]) else {
        return Err(InstantRefusal::Shape);
    };
    instant_of_fields(day, clock)
}

/// The instant of a date text of the form: Shape exactly where the text has not the digits and marks
/// of the form, Range exactly where it has them and there is no such date or time.
#[tactic(auto, using(crate::proofs::JoinedLemmas::reading_laws))]
pub fn read_in(form: DateForm, text: &[u8]) -> Result<Instant, InstantRefusal>
    ensures { result ≡ instant_in form text.now }
{
    match form {
        DateForm::Date => day_begins(year_first(text)),
        DateForm::MonthFirst => day_begins(month_first(text)),
        DateForm::Seconds => read_seconds(text, b' '),
        DateForm::Timestamp => read_timestamp(text),
    }
}

/// The instant of a date, or of a date and a time with a space or a `T` between them.
#[tactic(auto, using(crate::proofs::JoinedLemmas::reading_laws))]
fn read_timestamp(text: &[u8]) -> Result<Instant, InstantRefusal>
    ensures { result ≡ instant_in DateForm.Timestamp text.now }
{
    if text.len() == 10 {
        return day_begins(year_first(text));
    }
    if text.len() == 19 && text[10] == b'T' {
        return read_seconds(text, b'T');
    }
    read_seconds(text, b' ')
}

/// The instant of a text with a space or a `T` between date and time, or of a date alone. It takes no memory.
pub fn read_instant(text: &[u8]) -> Result<Instant, InstantRefusal>
    ensures { result ≡ instant_of text.now }
{
    read_in(DateForm::Timestamp, text)
}
