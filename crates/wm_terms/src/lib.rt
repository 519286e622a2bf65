//! The terms of the language: a cursor over the symbols of a line, and what it reads of names, constants and columns.
#![tactic(auto)]

pub mod cursor;
pub mod depth;
pub mod error;
pub mod meaning;
pub mod operands;

pub use cursor::Cursor;
pub use error::ParseError;
