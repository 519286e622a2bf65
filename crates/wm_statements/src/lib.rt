//! The statements of a line that make tables and change rows: CREATE TABLE, INSERT, UPDATE and DELETE.
#![tactic(auto)]

mod statements;

pub use statements::{create, delete, insert, update};
