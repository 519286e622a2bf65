//! The pages that a change writes.
ghost use Rattle.std.specs.Prelude.{IsTrue};
ghost use Rattle.wm_page.specs.Batch.{entries};
ghost use Rattle.wm_page.specs.Entries.{no_page_twice};

use crate::PageWrites;

/// Pages to be written, no page twice.
#[derive(Drop)]
pub struct PageBatch {
    pub pages: PageWrites,
    ghost distinct: { IsTrue (no_page_twice (entries pages)) },
}
