//! What becomes of the sessions.
ghost use Rattle.std.specs.Prelude.{◌≡◌, OnOk, if◌then◌else◌, map};
ghost use Rattle.std.specs.Str.{bytes_eq};
ghost use Rattle.wm_plan.specs.Stands.{setting_view};
ghost use Rattle.wm_plan.specs.Views.{seating_view};
ghost use Rattle.wm_model.specs.Seating.{seated, thawed};
ghost use Rattle.wm_model.specs.Step.{altered, closed, with_setting};

use crate::session::{Session, Setting};
use std::alloc::Global;
use wm_base::{Memory, Name};

/// What a line does to the sessions.
#[derive(Drop)]
pub enum Seating {
    /// Nothing.
    Stay,
    /// One is opened.
    Open(Session),
    /// The one of this name is closed.
    Close(Name),
    /// This is set of the one of this name.
    Set { name: Name, setting: Setting },
    /// The workspace of this number is frozen for no session alone any more.
    Thaw(u32),
}

/// Closes the sessions of a name.
fn close(sessions: &mut Vec<Session>, name: &Name)
    ensures { sessions.new.items ≡ closed name.now sessions.old.items }
{
    sessions.retain(|session| !session.is_named(name));
}

/// Sets this of the session, where it has this name.
fn alter_one(
    alloc: Global,
    session: &mut Session,
    name: &Name,
    setting: &Setting,
) -> Result<(), Memory>
    ensures { OnOk result (session.new ≡ (if bytes_eq name.now session.old.name then with_setting (setting_view setting.now) session.old else session.old)) }
{
    if session.is_named(name) {
        session.set(alloc, setting)?;
    }
    Ok(())
}

/// Sets this of the sessions of a name.
fn alter(
    alloc: Global,
    sessions: &mut [Session],
    name: &Name,
    setting: &Setting,
) -> Result<(), Memory>
    ensures { OnOk result (sessions.new ≡ altered name.now (setting_view setting.now) sessions.old) }
{
    if let Some((session, rest)) = sessions.split_first_mut() {
        alter_one(alloc, session, name, setting)?;
        alter(alloc, rest, name, setting)?;
    }
    Ok(())
}

/// The workspace of a number is frozen for none of the sessions alone any more.
fn thaw(sessions: &mut [Session], space: u32)
    ensures { sessions.new ≡ map (thawed space) sessions.old }
{
    if let Some((session, rest)) = sessions.split_first_mut() {
        session.thaw(space);
        thaw(rest, space);
    }
}

/// Does to the sessions what a line does to them.
pub fn seat(alloc: Global, sessions: &mut Vec<Session>, seating: Seating) -> Result<(), Memory>
    ensures { OnOk result (sessions.new.items ≡ seated sessions.old.items (seating_view seating)) }
{
    match seating {
        Seating::Stay => Ok(()),
        Seating::Open(session) => Ok(sessions.push(session)?),
        Seating::Close(name) => {
            close(sessions, &name);
            Ok(())
        }
        Seating::Set { name, setting } => alter(alloc, sessions, &name, &setting),
        Seating::Thaw(space) => {
            thaw(sessions, space);
            Ok(())
        }
    }
}
