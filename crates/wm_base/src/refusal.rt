//! The refusals of a line, with what their texts name.
use crate::instant::Instant;
use crate::key::Key;
use crate::period::Period;
use crate::text::Name;

/// Why a line is refused. A variant is named by the number of its text and keeps what the text names, in the
/// order of the text.
#[derive(Drop)]
pub enum Refusal {
    Form(FormRefusal),
    Space(SpaceRefusal),
    Cell(CellRefusal),
    Limit(LimitRefusal),
}

/// What is wrong with the line itself: its form, its session, its names, its types.
#[derive(Drop)]
pub enum FormRefusal {
    /// The line has more than 16,384 bytes.
    Wm001,
    /// The line is not UTF-8.
    Wm002,
    /// The line is in no form: the column, from 1, of the first token that no form continues.
    Wm003(u32),
    /// The session is not open.
    Wm004(Name),
    /// The session is open.
    Wm005(Name),
    /// There is no table of this name.
    Wm010(Name),
    /// There is a table of this name.
    Wm011(Name),
    /// There is no column of this name.
    Wm012(Name),
    /// A value does not fit this column, parameter or mark.
    Wm013(Name),
    /// So many were asked for.
    Wm014(u64),
    /// The table has no key.
    Wm015(Name),
    /// A name is not of 1 to so many plain bytes.
    Wm016(u64),
    /// The table or view has no periods.
    Wm017(Name),
    /// The table keeps no history.
    Wm018(Name),
    /// The table is version-enabled (true), or it is not (false).
    Wm019(Name, bool),
}

/// What is wrong with the workspaces, savepoints and moments that the line names.
#[derive(Drop)]
pub enum SpaceRefusal {
    /// There is no workspace of this name.
    Wm020(Name),
    /// There is a workspace of this name.
    Wm021(Name),
    /// There is no savepoint of this name.
    Wm022(Name),
    /// There is a savepoint of this name.
    Wm023(Name),
    /// The name is reserved.
    Wm024(Name),
    /// The workspace has no parent.
    Wm025(Name),
    /// The session does not stand at LATEST.
    Wm030,
    /// The moment is this one, and does not go back.
    Wm031(Instant),
    /// The workspace was made at this moment.
    Wm032(Name, Instant),
    /// A period ends no later than it begins.
    Wm033,
    /// The workspace is frozen in this mode.
    Wm040(Name, Name),
    /// The workspace is frozen already.
    Wm041(Name),
    /// The workspace is not frozen.
    Wm042(Name),
    /// In the workspace stands this session.
    Wm043(Name, Name),
    /// The workspace has this child.
    Wm044(Name, Name),
    /// This child depends on what would go.
    Wm045(Name),
    /// The workspace was rebased since this savepoint.
    Wm046(Name),
}

/// What is wrong with the cells that the line reads, writes or locks.
#[derive(Drop)]
pub enum CellRefusal {
    /// In the workspace, the user's lock of this mode bars this key; of a valid-time table, on this period.
    Wm050(Name, Name, Name, Key, Option<Period>),
    /// The table has a conflict at this key; of a valid-time table, on this period.
    Wm051(Name, Key, Option<Period>),
    /// Of the workspace, this session has a resolve open.
    Wm052(Name, Name),
    /// Of the workspace, the session has no resolve open.
    Wm053(Name),
    /// A row of this key is there; of a valid-time table, on some of this period.
    Wm060(Key, Option<Period>),
    /// This column would be NULL.
    Wm061(Name),
    /// This column is one of the key.
    Wm062(Name),
    /// This column, or the row, is too heavy.
    Wm063(Name),
    /// A number leaves 64 bits.
    Wm064,
    /// The literal at this column, from 1, is out of range.
    Wm065(u32),
}

/// What the store does not do, or has no room for.
#[derive(Drop)]
pub enum LimitRefusal {
    /// The store takes so many changes.
    Wm070(u64),
    /// There is no room for another workspace.
    Wm071,
    /// There is no room for another savepoint.
    Wm072,
    /// There is no room for another table.
    Wm073,
    /// An answer has too many rows.
    Wm074,
    /// There is no room for another session.
    Wm075,
    /// This counter is at its end.
    Wm076(Name),
    /// A statement that is not built yet.
    Wm099,
}
