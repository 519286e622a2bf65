//! Who reads pages.
ghost use Rattle.std.specs.Prelude.{◌≡◌, ℕ, ◌<◌, List, [], length, OnOk};
ghost use Rattle.wm_page.specs.Cause.{PagesCause};

use thiserror::Error;

/// Why a page was not read.
#[derive(Clone, Copy, Debug, PartialEq, Eq, Error)]
pub enum PagesFailed {
    /// The disk failed, and its count of faults rose.
    #[error("the disk failed")]
    Failed,
    #[error("out of memory")]
    Memory,
}

/// The pages of a store, as they can be read one at a time.
pub trait Pages {
    /// Whether it tells its pages.
    ghost tells: { Type 0 };

    /// What each page holds. Nothing is known of it where the pages are not told.
    ghost held: { Self → ℕ → List ℕ };

    /// How many pages are in use.
    ghost in_use: { Self → ℕ };

    /// How many pages lie whole in the file.
    ghost in_file: { Self → ℕ };

    /// How often the disk has failed, up to the last value of a u64.
    ghost faults: { Self → ℕ };

    /// What it reads from: its name, and counts that a read leaves as they are. A reader that is lent a device tells by it
    /// that it still has that device.
    ghost source: { Self → List ℕ } = { λ _. [] };

    /// What was done so far to what it reads from, spelled in numbers. Nothing is known of it where the pages are not told.
    ghost past: { Self → List ℕ } = { λ _. [] };

    /// Fills `into` with a page.
    fn page(&mut self, number: u64, into: &mut [u8]) -> Result<(), PagesFailed>
        requires in_use { number < in_use self.old }
        requires in_file { number < in_file self.old }
        requires size { length into.old ≡ 4096 }
        ensures bytes { tells → OnOk result (into.new ≡ held self.old number) }
        ensures told { tells → held self.new ≡ held self.old }
        ensures past { tells → past self.new ≡ past self.old }
        ensures source { source self.new ≡ source self.old }
        ensures in_use { in_use self.new ≡ in_use self.old }
        ensures in_file { in_file self.new ≡ in_file self.old }
        ensures cause { PagesCause (faults self.old) (faults self.new) result };

    /// How many pages are in use.
    fn count(&self) -> u64
        ensures { result ≡ in_use self.now };

    /// How many pages lie whole in the file.
    fn whole(&self) -> u64
        ensures { result ≡ in_file self.now };
}
