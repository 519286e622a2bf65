//! A condition stored as a closure, with the fact that the closure answers it.
#![tactic(auto)]

pub mod judge;
pub mod row_test;

pub use judge::Judge;
pub use row_test::RowTest;
