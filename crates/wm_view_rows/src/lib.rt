//! Views of a table: its conflicts, its history and the locks on it. What a name says of a source, its columns, and the
//! rows of views as they are made of what stands.
#![tactic(auto)]

pub mod columns;
pub mod differences;
pub mod rows;
pub mod view;
