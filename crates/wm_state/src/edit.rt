//! What a line makes of the state: its edits.
ghost use Rattle.std.specs.Prelude.{◌≡◌, length};

use std::marker::Model;
use wm_base::{Key, Kind, Name, Period, Values};
use wm_spec::record::{FreezeMode, LockMode, Table};

/// What a line that makes edits adds to the work of a store, but for the locks that it makes.
pub const LINE_WORK: u64 = 4_096;

/// What is written for a key over a period, by whom and when.
#[derive(Drop)]
pub struct NewEntry {
    pub table: u16,
    pub key: Key,
    pub period: Period,
    /// The row that stands there from now on, or none where it is gone.
    pub row: Option<Values>,
    /// The number of the change; those of one list follow one another.
    pub stamp: u64,
    pub kind: Kind,
    /// In seconds, as every moment of the records.
    pub moment: u64,
    pub user: Name,
}

/// What a resolve settles: cells of a key, and how long the log of the parent was when it was decided. Changes of the
/// parent before are in conflict there no more.
#[derive(Drop)]
pub struct NewMark {
    pub table: u16,
    pub key: Key,
    pub period: Period,
    pub position: u64,
}

/// Cells of a key that are locked.
#[derive(Drop)]
pub struct NewLock {
    pub table: u16,
    pub key: Key,
    pub period: Period,
}

/// Entries in their order.
#[derive(Drop)]
pub struct Entries {
    list: Vec<NewEntry>,
}

impl Model for Entries {
    ghost use Rattle.std.specs.Prelude.{List};
    ghost use Rattle.wm_state.specs.declared.edit.NewEntry.{NewEntry as OneEntry};

    ghost Value = { List OneEntry };

    ghost view = { λ s. s.list.items };
}

impl Entries {
    pub fn from_vec(list: Vec<NewEntry>) -> Entries
        ensures { result ≡ list.items }
    {
        Entries { list }
    }

    pub fn into_vec(self) -> Vec<NewEntry>
        ensures { result.items ≡ self }
    {
        self.list
    }

    pub fn as_slice(&self) -> &[NewEntry]
        ensures { result.now ≡ self.now }
    {
        self.list.as_slice()
    }

    pub fn len(&self) -> usize
        ensures { result ≡ length self.now }
    {
        self.list.len()
    }
}

/// Marks in their order.
#[derive(Drop)]
pub struct Marks {
    list: Vec<NewMark>,
}

impl Model for Marks {
    ghost use Rattle.std.specs.Prelude.{List};
    ghost use Rattle.wm_state.specs.declared.edit.NewMark.{NewMark as OneMark};

    ghost Value = { List OneMark };

    ghost view = { λ s. s.list.items };
}

impl Marks {
    pub fn from_vec(list: Vec<NewMark>) -> Marks
        ensures { result ≡ list.items }
    {
        Marks { list }
    }

    pub fn into_vec(self) -> Vec<NewMark>
        ensures { result.items ≡ self }
    {
        self.list
    }
}

/// Cells that are locked, a lock for each.
#[derive(Drop)]
pub struct Cells {
    list: Vec<NewLock>,
}

impl Model for Cells {
    ghost use Rattle.std.specs.Prelude.{List};
    ghost use Rattle.wm_state.specs.declared.edit.NewLock.{NewLock as OneLock};

    ghost Value = { List OneLock };

    ghost view = { λ s. s.list.items };
}

impl Cells {
    pub fn from_vec(list: Vec<NewLock>) -> Cells
        ensures { result ≡ list.items }
    {
        Cells { list }
    }

    pub fn into_vec(self) -> Vec<NewLock>
        ensures { result.items ≡ self }
    {
        self.list
    }

    pub fn len(&self) -> usize
        ensures { result ≡ length self.now }
    {
        self.list.len()
    }
}

/// Locks by their makings.
#[derive(Drop)]
pub struct Makings {
    list: Vec<u64>,
}

impl Model for Makings {
    ghost use Rattle.std.specs.Prelude.{ℕ, List};

    ghost Value = { List ℕ };

    ghost view = { λ s. s.list.items };
}

impl Makings {
    pub fn from_vec(list: Vec<u64>) -> Makings
        ensures { result ≡ list.items }
    {
        Makings { list }
    }

    pub fn as_slice(&self) -> &[u64]
        ensures { result.now ≡ self.now }
    {
        self.list.as_slice()
    }
}

/// One change of the state.
#[derive(Drop)]
pub enum Edit {
    /// A table is made.
    Create(Table),
    /// The table of a name becomes ready for rows, with or without valid time and with or without its history.
    Enable {
        name: Name,
        valid: bool,
        history: bool,
    },
    /// Entries of one table come into a workspace, by key.
    Append {
        space: u32,
        entries: Entries,
    },
    /// What is newest in a workspace is kept under a name.
    Save {
        space: u32,
        name: Name,
    },
    /// A workspace is born in another at what is newest there, or at the savepoint of a making, with a savepoint that
    /// is made for it.
    Bear {
        parent: u32,
        at: Option<u64>,
        name: Name,
    },
    /// A workspace is again as it was at the savepoint of a making: what was written behind it goes, and so do later
    /// savepoints.
    Restore {
        space: u32,
        making: u64,
    },
    /// A workspace goes, with all that is its own.
    Remove {
        space: u32,
    },
    /// What is newest in a workspace is kept in an implicit savepoint.
    Keep {
        space: u32,
    },
    /// Entries that were made before come into a workspace, with the stamps that they have: by table and key, no two on
    /// one cell.
    Replay {
        space: u32,
        entries: Entries,
    },
    /// Entries that were made before come into the log of a workspace alone.
    Gain {
        space: u32,
        entries: Entries,
    },
    /// A workspace stands on its parent as that is now; what it has of its own stays, or goes where it was merged.
    Rebase {
        space: u32,
        emptied: bool,
    },
    /// Conflicts of a workspace are settled: by table and key, no two on one cell.
    Settle {
        space: u32,
        marks: Marks,
    },
    /// Cells are locked in a workspace by a user, a lock for each.
    Lock {
        space: u32,
        mode: LockMode,
        user: Name,
        cells: Cells,
    },
    /// The locks of these makings go.
    Unlock {
        makings: Makings,
    },
    /// A workspace is frozen so, with the one who may write then, or is free again.
    Freeze {
        space: u32,
        mode: FreezeMode,
        writer: Name,
    },
}
