//! The period in which a session sees rows of a table and changes them.
ghost use Rattle.std.specs.Prelude.{◌≡◌, ◌<◌};
ghost use Rattle.wm_base.specs.declared.instant.TheConstants.{END};
ghost use Rattle.wm_model.specs.Step.{within};

use crate::session::Session;
use wm_base::{Instant, Period};
use wm_spec::record::Table;

/// What is left of time at a moment.
fn rest_of_time(moment: u64) -> Period
    requires { moment < END }
    ensures { result ≡ record { from = moment; till = END } }
{
    let now = Instant::new(moment).unwrap();
    Period::new(now, Instant::end()).unwrap()
}

/// All of time where the table has no valid time, and else the period that is set for the session, or what is left of time.
pub fn within(moment: u64, session: &Session, table: &Table) -> Period
    requires { moment < END }
    ensures { result ≡ within moment session.now table.now }
{
    if !table.valid {
        return Period::always();
    }
    match session.period() {
        Some(period) => period,
        None => rest_of_time(moment),
    }
}
