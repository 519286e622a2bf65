//! Values under numbers, kept in chunks of numbers that lie near one another.
#![tactic(auto)]

mod chunk;
mod chunks;
mod number_map;

pub use number_map::NumberMap;
