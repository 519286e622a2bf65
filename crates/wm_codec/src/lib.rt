//! Records as bytes: each record has one spelling, and the bytes that spell one are read as it.
#![tactic(auto)]

pub mod fault;
mod lists;
pub mod numbers;
pub mod put;
pub mod read;
mod records;
mod values;
pub mod write;

pub use read::decode;
pub use write::encode;
