//! The small types on which every other crate stands: texts, instants, periods, values, keys and rows,
//! and the refusals of a line.
#![tactic(auto)]

pub mod bytes;
pub mod instant;
pub mod key;
mod key_order;
pub mod kind;
pub mod memory;
pub mod period;
pub mod refusal;
pub mod row;
pub mod stamp;
pub mod text;
pub mod truth;
pub mod value;
mod value_order;
pub mod values;

pub use bytes::Bytes;
pub use instant::{END, Instant};
pub use key::Key;
pub use kind::Kind;
pub use memory::Memory;
pub use period::Period;
pub use refusal::{CellRefusal, FormRefusal, LimitRefusal, Refusal, SpaceRefusal};
pub use row::Row;
pub use stamp::Stamp;
pub use text::{Name, Text};
pub use truth::Truth;
pub use value::Value;
pub use values::Values;
