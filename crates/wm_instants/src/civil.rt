ghost use Rattle.std.specs.Prelude.{◌≡◌, ◌+◌, ◌*◌, ◌<◌, pos, ◌-ℤ◌, ◌≤ℤ◌, ◌*ℤ◌, unsigned_abs};
ghost use Rattle.jiff_core.specs.Calendar.{days_from_civil};
ghost use Rattle.jiff_core.specs.Date.{epoch_day};
ghost use Rattle.jiff_core.specs.DateTime.{civil_nanos};
ghost use Rattle.jiff_core.specs.Time.{time_seconds};
ghost use Rattle.wm_instants.specs.Instants.{instant_at};
ghost use Rattle.wm_instants.specs.Fields.{IsSmallDay, IsSmallClock};

use crate::fields::{Clock, Day};
use crate::refusal::InstantRefusal;
use jiff::civil::DateTime;
use wm_base::{END, Instant};

/// The first second of all, 0001-01-01 00:00:00.
pub fn beginning() -> DateTime
    ensures { civil_nanos result ≡ days_from_civil (pos 1) 1 1 *ℤ pos 86_400_000_000_000 }
{
    jiff::civil::datetime(1, 1, 1, 0, 0, 0, 0)
}

/// The seconds from the first second of all to a date and time.
pub fn seconds_of(shown: DateTime) -> u64
    requires { pos 1 ≤ℤ shown.date.year }
    ensures value { result
        ≡ unsigned_abs (epoch_day shown.date -ℤ days_from_civil (pos 1) 1 1) * 86_400
        + time_seconds shown.time }
    ensures bound { result < END }
{
    shown.duration_since(beginning()).as_secs() as u64
}

/// The instant of a date and a time of day, or Range where there is no such date or time.
pub fn instant_of_fields(day: Day, clock: Clock) -> Result<Instant, InstantRefusal>
    requires small_day { IsSmallDay day }
    requires small_clock { IsSmallClock clock }
    ensures { result
        ≡ instant_at day.year day.month day.day clock.hour clock.minute clock.second }
{
    if day.year == 0 {
        return Err(InstantRefusal::Range);
    }
    let Ok(shown) = DateTime::new(
        day.year as i16,
        day.month as i8,
        day.day as i8,
        clock.hour as i8,
        clock.minute as i8,
        clock.second as i8,
        0,
    ) else {
        return Err(InstantRefusal::Range);
    };
    Instant::new(seconds_of(shown)).ok_or(InstantRefusal::Range)
}
