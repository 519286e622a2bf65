//! Who is connected, and where they stand.
ghost use Rattle.std.specs.Prelude.{◌≡◌, [], None, is_some, true, OnOk};
ghost use Rattle.std.specs.Option.{option_copied};
ghost use Rattle.std.specs.Str.{bytes_eq};
ghost use Rattle.wm_plan.specs.Stands.{setting_view, stand_view};
ghost use Rattle.wm_graph.specs.Rules.{is_short};
ghost use Rattle.wm_model.specs.Seating.{thawed};
ghost use Rattle.wm_model.specs.Step.{holds, session_of, with_setting};
ghost use Rattle.wm_model.specs.Step.Sessions as settings;
ghost use Rattle.wm_state.specs.State.{Latest};

use std::alloc::Global;
use std::marker::Model;
use wm_base::{Memory, Name, Period};
use wm_decided::decision::{Decision, Resolve};
use wm_decided::viewpoint::Difference;
use wm_spec::record::LockMode;

/// Where a session stands in its workspace.
#[derive(Clone, Copy)]
pub enum Stand {
    /// At what is newest.
    Latest,
    /// At the savepoint of this making.
    At(u64),
    /// On this date, in seconds.
    Dated(u64),
}

/// What is set of a session.
#[derive(Drop)]
pub enum Setting {
    /// The workspace that it stands in, and where there.
    Stand { space: u32, stand: Stand },
    /// The period in which it sees rows and changes them, or none.
    Period(Option<Period>),
    /// The workspace whose conflicts it looks at, by name.
    Conflict(Name),
    /// A resolve of the workspace of a number, in place of another one that it has open.
    Begin(u32),
    /// Decisions that come behind those of the resolve that it has open.
    Decide(Vec<Decision>),
    /// That it has no resolve open.
    End,
    /// A workspace, by number, that it freezes for itself alone.
    Freeze(u32),
    /// The mode in which its changes lock what they change, or that they do not.
    Lock(Option<LockMode>),
    /// The points that it compares.
    Compare(Difference),
}

/// Somebody who is connected, under the name that lines begin with.
#[derive(Drop)]
pub struct Session {
    name: Name,
    user: Name,
    /// The number of the workspace that the session stands in.
    space: u32,
    stand: Stand,
    /// The period that was set for it.
    period: Option<Period>,
    /// The workspace of conflicts that was set for it, by name.
    conflict: Option<Name>,
    /// The resolve that it has open.
    resolve: Option<Resolve>,
    /// The numbers of the workspaces that it froze for itself alone.
    freezes: Vec<u32>,
    /// The mode in which its changes lock what they change, where they do.
    locking: Option<LockMode>,
    /// The points that were set for it to compare.
    difference: Option<Difference>,
}

impl Model for Session {
    ghost use Rattle.std.specs.Prelude.{◌≡◌, true};
    ghost use Rattle.wm_plan.specs.Stands.{stand_view};
    ghost use Rattle.wm_graph.specs.Rules.{is_short};
    ghost use Rattle.wm_state.specs.State.{Session as SessionState};

    ghost Value = { SessionState };

    ghost view = { λ s. record { name = s.name; user = s.user; space = s.space; stand = stand_view s.stand; period = s.period; conflict = s.conflict; resolve = s.resolve; freezes = s.freezes.items; locking = s.locking; difference = s.difference } };

    ghost invariant = { λ s. is_short s.user ≡ true };
}

impl Session {
    /// A session of this name for this user, which stands in LIVE at what is newest, for which neither a period nor a
    /// workspace of conflicts is set, and which has no resolve open, froze no workspace, locks nothing that it changes and
    /// compares no points.
    pub fn new(alloc: Global, name: Name, user: Name) -> Session
        // An entry of a log has room for the user.
        requires { is_short user ≡ true }
        ensures { result ≡ record { name = name; user = user; space = 0; stand = Latest; period = None; conflict = None; resolve = None; freezes = []; locking = None; difference = None } }
    {
        Session {
            name,
            user,
            space: 0,
            stand: Stand::Latest,
            period: None,
            conflict: None,
            resolve: None,
            freezes: Vec::new(alloc),
            locking: None,
            difference: None,
        }
    }

    pub fn name(&self) -> &Name
        ensures { result.now ≡ self.now.name }
    {
        &self.name
    }

    pub fn user(&self) -> &Name
        ensures user { result.now ≡ self.now.user }
        ensures short { is_short self.now.user ≡ true }
    {
        &self.user
    }

    /// The number of the workspace that the session stands in.
    pub fn space(&self) -> u32
        ensures { result ≡ self.now.space }
    {
        self.space
    }

    /// The period that was set for it.
    pub fn period(&self) -> Option<Period>
        ensures { result ≡ self.now.period }
    {
        self.period
    }

    /// The workspace of conflicts that was set for it, by name.
    pub fn conflict(&self) -> Option<&Name>
        ensures { option_copied result ≡ self.now.conflict }
    {
        self.conflict.as_ref()
    }

    /// The resolve that it has open.
    pub fn resolve(&self) -> Option<&Resolve>
        ensures { option_copied result ≡ self.now.resolve }
    {
        self.resolve.as_ref()
    }

    /// The mode in which its changes lock what they change, where they do.
    pub fn locking(&self) -> Option<LockMode>
        ensures { result ≡ self.now.locking }
    {
        self.locking
    }

    /// The points that were set for it to compare.
    pub fn difference(&self) -> Option<&Difference>
        ensures { option_copied result ≡ self.now.difference }
    {
        self.difference.as_ref()
    }

    /// Whether it froze the workspace of a number for itself alone.
    pub fn holds(&self, space: u32) -> bool
        ensures { result ≡ holds space self.now }
    {
        self.freezes.iter().any(|held| *held == space)
    }

    /// The workspace of a number is not frozen for it any more.
    pub fn thaw(&mut self, space: u32)
        ensures { self.new ≡ thawed space self.old }
    {
        self.freezes.retain(|held| *held != space);
    }

    /// Puts copies of decisions behind those of the resolve that it has open.
    fn decide(&mut self, alloc: Global, decisions: &[Decision]) -> Result<(), Memory>
        ensures { OnOk result (self.new ≡ with_setting (settings.Decide decisions.now) self.old) }
    {
        match &mut self.resolve {
            Some(resolve) => resolve.decide(alloc, decisions),
            None => Ok(()),
        }
    }

    pub fn stand(&self) -> Stand
        ensures { stand_view result ≡ self.now.stand }
    {
        self.stand
    }

    /// Whether the session has this name.
    pub fn is_named(&self, name: &Name) -> bool
        ensures { result ≡ bytes_eq name.now self.now.name }
    {
        name.as_bytes() == self.name.as_bytes()
    }

    /// Sets this of it.
    pub fn set(&mut self, alloc: Global, setting: &Setting) -> Result<(), Memory>
        ensures { OnOk result (self.new ≡ with_setting (setting_view setting.now) self.old) }
    {
        match setting {
            Setting::Stand { space, stand } => {
                self.space = *space;
                self.stand = *stand;
            }
            Setting::Period(period) => self.period = *period,
            Setting::Conflict(workspace) => self.conflict = Some(workspace.copy(alloc)?),
            Setting::Begin(space) => self.resolve = Some(Resolve::new(alloc, *space)),
            Setting::Decide(decisions) => return self.decide(alloc, decisions.as_slice()),
            Setting::End => self.resolve = None,
            Setting::Freeze(space) => self.freezes.insert(0, *space)?,
            Setting::Lock(mode) => self.locking = *mode,
            Setting::Compare(points) => self.difference = Some(points.copy(alloc)?),
        }
        Ok(())
    }
}

/// The session of this name, where it is open.
pub fn session_named<'a>(sessions: &'a [Session], name: &Name) -> Option<&'a Session>
    ensures { option_copied result ≡ session_of name.now sessions.now }
{
    for session in sessions {
        if session.is_named(name) {
            return Some(session);
        }
    }
    None
}

/// Whether a session of this name is open.
pub fn is_open(sessions: &[Session], name: &Name) -> bool
    ensures { result ≡ is_some (session_of name.now sessions.now) }
{
    session_named(sessions, name).is_some()
}
