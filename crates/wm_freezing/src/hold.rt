//! How workspaces are held.
ghost use Rattle.std.specs.Prelude.{◌≡◌};
ghost use Rattle.std.specs.List.{find};
ghost use Rattle.std.specs.Option.{option_copied};
ghost use Rattle.wm_guard.specs.Access.{held_by, hold_view};
ghost use Rattle.wm_model.specs.Step.{first_session, holds};

use wm_guard::access::Hold;
use wm_plan::session::Session;
use wm_spec::record::Space;

/// The first session, in the order of CONNECT, that froze a workspace for itself.
fn first_holding(sessions: &[Session], space: u32) -> Option<&Session>
    ensures { option_copied result ≡ find (holds space) sessions.now }
{
    for session in sessions {
        if session.holds(space) {
            return Some(session);
        }
    }
    None
}

/// How a workspace is held: by a session that froze it for itself, or else as its record says.
pub fn hold_of<'a>(sessions: &'a [Session], space: &'a Space) -> Hold<'a>
    ensures { hold_view result ≡ held_by (first_session (holds space.now.number) sessions.now) space.now.freeze space.now.writer }
{
    let holder = match first_holding(sessions, space.number) {
        Some(session) => Some(session.name()),
        None => None,
    };
    Hold::by(holder, space.freeze, &space.writer)
}
