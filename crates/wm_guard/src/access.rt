//! What a frozen workspace allows.
ghost use Rattle.std.specs.Prelude.{◌≡◌, [], unwrap_or};
ghost use Rattle.std.specs.Option.{option_copied};
ghost use Rattle.wm_guard.specs.Access.{allows, enters, held_by, hold_kept, hold_view, is_free, mode_of, suits_live, word_of, writer_of, writes};

use wm_base::Name;
use wm_spec::record::FreezeMode;

/// What a line does with a workspace, as freezing looks at it.
#[derive(Clone, Copy)]
pub enum Class {
    /// A session comes to stand in it.
    Enter,
    /// Rows are changed or locked.
    Write,
    /// It is saved, taken back, refreshed, merged, resolved, removed, or bears another one.
    Manage,
}

impl Class {
    fn enters(self) -> bool
        ensures { result ≡ enters self }
    {
        match self {
            Class::Enter => true,
            Class::Write | Class::Manage => false,
        }
    }

    fn writes(self) -> bool
        ensures { result ≡ writes self }
    {
        match self {
            Class::Write => true,
            Class::Enter | Class::Manage => false,
        }
    }
}

/// How a workspace is frozen, or that it is free.
#[derive(Clone, Copy)]
pub enum Hold<'a> {
    Free,
    NoAccess,
    ReadOnly,
    /// 1WRITER: for this user alone.
    OneWriter(&'a Name),
    /// 1WRITER_SESSION: for the session of this name alone, which froze it.
    OneSession(&'a Name),
    WmOnly,
}

impl<'a> Hold<'a> {
    /// By the mode that is kept, with its writer.
    pub fn kept(mode: FreezeMode, writer: &'a Name) -> Hold<'a>
        ensures { hold_view result ≡ hold_kept mode writer.now }
    {
        match mode {
            FreezeMode::Free => Hold::Free,
            FreezeMode::NoAccess => Hold::NoAccess,
            FreezeMode::ReadOnly => Hold::ReadOnly,
            FreezeMode::OneWriter => Hold::OneWriter(writer),
            FreezeMode::WmOnly => Hold::WmOnly,
        }
    }

    /// By the session that froze it for itself, if one did, and else by the mode that is kept.
    pub fn by(holder: Option<&'a Name>, mode: FreezeMode, writer: &'a Name) -> Hold<'a>
        ensures { hold_view result ≡ held_by (option_copied holder.entry) mode writer.now }
    {
        match holder {
            Some(session) => Hold::OneSession(session),
            None => Hold::kept(mode, writer),
        }
    }

    /// Whether a session of a user may do what is of a class.
    pub fn allows(self, class: Class, user: &Name, session: &Name) -> bool
        ensures { result ≡ allows (hold_view self.entry) class user.now session.now }
    {
        match self {
            Hold::Free => true,
            Hold::NoAccess => false,
            Hold::ReadOnly => class.enters(),
            Hold::OneWriter(writer) => class.enters() || writer.as_bytes() == user.as_bytes(),
            Hold::OneSession(holder) => class.enters() || holder.as_bytes() == session.as_bytes(),
            Hold::WmOnly => !class.writes(),
        }
    }

    /// The word of its mode.
    pub fn word(self) -> &'static [u8]
        ensures { result.now ≡ word_of (hold_view self.entry) }
    {
        match self {
            Hold::Free => b"",
            Hold::NoAccess => b"NO_ACCESS",
            Hold::ReadOnly => b"READ_ONLY",
            Hold::OneWriter(_) => b"1WRITER",
            Hold::OneSession(_) => b"1WRITER_SESSION",
            Hold::WmOnly => b"WM_ONLY",
        }
    }

    pub fn is_free(self) -> bool
        ensures { result ≡ is_free (hold_view self.entry) }
    {
        match self {
            Hold::Free => true,
            _ => false,
        }
    }

    /// The mode that is kept of it; none where it is held by a session.
    pub fn mode(self) -> FreezeMode
        ensures { result ≡ mode_of (hold_view self.entry) }
    {
        match self {
            Hold::Free | Hold::OneSession(_) => FreezeMode::Free,
            Hold::NoAccess => FreezeMode::NoAccess,
            Hold::ReadOnly => FreezeMode::ReadOnly,
            Hold::OneWriter(_) => FreezeMode::OneWriter,
            Hold::WmOnly => FreezeMode::WmOnly,
        }
    }

    /// The user who alone may write; the name is empty where there is none.
    pub fn writer(self) -> Option<&'a Name>
        ensures { writer_of (hold_view self.entry) ≡ unwrap_or (option_copied result) [] }
    {
        match self {
            Hold::OneWriter(user) => Some(user),
            _ => None,
        }
    }

    /// Whether LIVE may be held so.
    pub fn suits_live(self) -> bool
        ensures { result ≡ suits_live (hold_view self.entry) }
    {
        match self {
            Hold::ReadOnly | Hold::OneWriter(_) => true,
            _ => false,
        }
    }
}
