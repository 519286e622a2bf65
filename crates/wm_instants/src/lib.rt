//! Instants as texts: what a date text means, and what is written for an instant.
#![tactic(auto)]

mod civil;
mod fields;
pub mod form;
pub mod read;
pub mod refusal;
pub mod write;

pub use form::DateForm;
pub use read::{read_in, read_instant};
pub use refusal::InstantRefusal;
pub use write::write_instant;
