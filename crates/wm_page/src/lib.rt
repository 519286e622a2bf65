//! Pages of 4,096 bytes: the numbers in them, the pages that a change writes, and who reads them.
#![tactic(auto)]

mod batch;
mod field;
mod pages;
mod write;

pub use batch::PageBatch;
pub use field::{read_number, write_number};
pub use pages::{Pages, PagesFailed};
pub use write::{PageWrite, PageWrites};

/// The bytes of a page.
pub const PAGE_SIZE: usize = 4096;
