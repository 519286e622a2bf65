//! The grammar of the lines: its symbols, and, as definitions and their laws, its forms and their readers.
#![tactic(auto)]

pub mod procedure;
pub mod sort;
pub mod words;

pub use procedure::{Parameter, Procedure, is_same, parameter_of, procedure_of};
pub use sort::Sort;
pub use words::{is_word, sort_of};
