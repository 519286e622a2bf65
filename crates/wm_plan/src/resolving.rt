//! Resolves that sessions have open.

ghost use Rattle.std.specs.Prelude.{◌≡◌, IfOk};
ghost use Rattle.std.specs.List.{find};
ghost use Rattle.std.specs.Option.{option_copied};
ghost use Rattle.wm_model.specs.Step.{resolves};
ghost use Rattle.wm_model.specs.Undone.{resolving_refusal};

use crate::refuse::resolve_open;
use crate::session::Session;
use std::alloc::Global;
use wm_base::{Memory, Refusal};
use wm_spec::record::Space;

/// Whether a session has a resolve of the workspace of a number open.
pub fn resolves(session: &Session, space: u32) -> bool
    ensures { result ≡ resolves space session.now }
{
    match session.resolve() {
        Some(resolve) => resolve.space == space,
        None => false,
    }
}

/// The first session, in the order of CONNECT, that has one open.
fn first_resolving(sessions: &[Session], space: u32) -> Option<&Session>
    ensures { option_copied result ≡ find (resolves space) sessions.now }
{
    for session in sessions {
        if resolves(session, space) {
            return Some(session);
        }
    }
    None
}

/// What a workspace is refused for that is not to change while a resolve of it is open.
pub fn resolving_refusal(
    alloc: Global,
    sessions: &[Session],
    space: &Space,
) -> Result<Option<Refusal>, Memory>
    ensures { IfOk result (λ fault. fault ≡ resolving_refusal sessions.now space.now) }
{
    match first_resolving(sessions, space.number) {
        Some(session) => {
            let open = resolve_open(space.name.copy(alloc)?, session.name().copy(alloc)?);
            Ok(open.into_refusal())
        }
        None => Ok(None),
    }
}
