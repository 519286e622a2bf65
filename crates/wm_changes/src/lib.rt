//! Changes of records, the counters behind them, and the ids of new ones: what the edits of a line are drafted of.
#![tactic(auto)]

pub mod changes;
pub mod copies;
pub mod counts;
pub mod fault;
pub mod names;

pub use fault::DraftFault;
