//! Which names and types a statement gets wrong.
#![tactic(auto)]

pub mod changing;
pub mod columns;
pub mod first;
pub mod kinds;
pub mod lacking;
pub mod names;
pub mod refusals;
pub mod types;

pub use changing::{delete_fault, may_stand, update_fault};
pub use columns::columns_of_table;
pub use names::{unknown_in_cond, unknown_in_expr};
pub use types::{expr_kind, mistyped_in_cond, mistyped_in_expr};
