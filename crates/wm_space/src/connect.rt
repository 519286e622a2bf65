//! CONNECT and DISCONNECT.
ghost use Rattle.std.specs.Prelude.{◌≡◌, ◌&&◌, IfOk};
ghost use Rattle.wm_ground.specs.Grounds.{outline_on};
ghost use Rattle.wm_ground.specs.Outcomes.{outcome_view};
ghost use Rattle.wm_model.specs.Step.{connect_plan, disconnect_plan, first_fault, is_name, outcome};

use std::alloc::Global;
use wm_base::{Memory, Name, Refusal};
use wm_ground::ground::Ground;
use wm_ground::outcome::{answered, refused, seated};
use wm_plan::names::is_name;
use wm_plan::planned::Planned;
use wm_plan::refuse::{bad_name, most_sessions, no_session, session_there};
use wm_plan::seating::Seating;
use wm_plan::session::{Session, is_open};

/// The most sessions that may be open.
const SESSION_LIMIT: usize = 256;

/// Whether a session may have the first name, and its user the second.
fn are_names(name: &Name, user: &Name) -> bool
    ensures { result ≡ (is_name name.now && is_name user.now) }
{
    is_name(name.as_bytes()) && is_name(user.as_bytes())
}

/// What CONNECT is refused for, in the order of the rows.
fn connecting_fault(
    alloc: Global,
    ground: Ground<'_>,
    name: &Name,
    user: &Name,
) -> Result<Option<Refusal>, Memory>
    ensures { IfOk result (λ fault. fault ≡ first_fault (connect_plan name.now user.now (outline_on ground.entry)).faults) }
{
    if is_open(ground.sessions, name) {
        return Ok(session_there(name.copy(alloc)?).into_refusal());
    }
    if !are_names(name, user) {
        return Ok(bad_name().into_refusal());
    }
    if ground.sessions.len() >= SESSION_LIMIT {
        return Ok(most_sessions().into_refusal());
    }
    Ok(None)
}

/// CONNECT opens a session, which stands in LIVE at what is newest.
pub fn connect_plan(
    alloc: Global,
    ground: Ground<'_>,
    name: &Name,
    user: &Name,
) -> Result<Planned, Memory>
    ensures { IfOk result (λ p. outcome_view p ≡ outcome (connect_plan name.now user.now (outline_on ground.entry))) }
{
    if let Some(refusal) = connecting_fault(alloc, ground, name, user)? {
        return Ok(refused(alloc, refusal));
    }
    let session = Session::new(alloc, name.copy(alloc)?, user.copy(alloc)?);
    Ok(seated(alloc, Seating::Open(session)))
}

/// DISCONNECT ends a session.
pub fn disconnect_plan(alloc: Global, ground: Ground<'_>, name: &Name) -> Result<Planned, Memory>
    ensures { IfOk result (λ p. outcome_view p ≡ outcome (disconnect_plan name.now (outline_on ground.entry))) }
{
    if !is_open(ground.sessions, name) {
        return Ok(answered(alloc, no_session(name.copy(alloc)?)));
    }
    Ok(seated(alloc, Seating::Close(name.copy(alloc)?)))
}
