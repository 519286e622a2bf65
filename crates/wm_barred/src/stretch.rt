//! Cells that are asked of locks.
ghost use Rattle.std.specs.Prelude.{◌≡◌};
ghost use Rattle.wm_barred.specs.Views.{stretch_view};
ghost use Rattle.wm_guard.specs.Barring.{meets};
ghost use Rattle.wm_model.specs.Step.{cells_of};
ghost use Rattle.wm_state.specs.Drafts.{cells_locked};
ghost use Rattle.wm_state.specs.Editing.{entry_of};

use wm_base::{Key, Period};
use wm_spec::record::Lock;
use wm_state::edit::{NewEntry, NewLock};

/// The cells of a key of a table over a period.
#[derive(Clone, Copy)]
pub struct Stretch<'a> {
    pub table: u16,
    pub key: &'a Key,
    pub period: &'a Period,
}

impl<'a> Stretch<'a> {
    /// The cells of an entry.
    pub fn of_entry(entry: &'a NewEntry) -> Stretch<'a>
        ensures { stretch_view result ≡ cells_of (entry_of entry.now) }
    {
        Stretch {
            table: entry.table,
            key: &entry.key,
            period: &entry.period,
        }
    }

    /// The cells of a lock that is to be made.
    pub fn of_lock(lock: &'a NewLock) -> Stretch<'a>
        ensures { stretch_view result ≡ cells_locked lock.now }
    {
        Stretch {
            table: lock.table,
            key: &lock.key,
            period: &lock.period,
        }
    }

    /// Whether a lock on their key covers one of them.
    pub fn is_met_by(self, lock: &Lock) -> bool
        ensures { result ≡ meets (stretch_view self.entry) lock.now.cells }
    {
        let cells = &lock.cells;
        self.period.from().seconds() < cells.till && cells.from < self.period.till().seconds()
    }
}
