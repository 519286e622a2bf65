//! What a line that changes something counts.
ghost use Rattle.std.specs.Prelude.{◌≡◌, ◌+◌, length, nat_lt};
ghost use Rattle.wm_model.specs.Step.{counter_limit, line_work};

use wm_spec::record::Counters;
use wm_state::edit::{LINE_WORK, NewEntry};

/// The greatest work.
const WORK_LIMIT: u64 = 1 << 62;

/// The greatest length of a log.
const LOG_LIMIT: u64 = 1 << 62;

/// Whether a log would be longer than a log may be, with entries more.
pub fn is_long(log_length: u64, entries: &[NewEntry]) -> bool
    ensures { result ≡ nat_lt counter_limit (log_length + length entries.now) }
{
    log_length.saturating_add(entries.len() as u64) > LOG_LIMIT
}

/// Whether the work is at its end for a line that makes so many locks.
pub fn is_spent_by(counters: &Counters, locks: u64) -> bool
    ensures { result ≡ nat_lt counter_limit (counters.now.work + (locks + line_work)) }
{
    let line = locks.saturating_add(LINE_WORK);
    counters.work.saturating_add(line) > WORK_LIMIT
}

/// Whether it is at its end for a line that makes none.
pub fn is_spent(counters: &Counters) -> bool
    ensures { result ≡ nat_lt counter_limit (counters.now.work + line_work) }
{
    is_spent_by(counters, 0)
}
