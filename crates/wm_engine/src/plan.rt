//! What a line does and answers, worked out over the records before anything changes.

mod call;
pub mod line;
mod statement;
