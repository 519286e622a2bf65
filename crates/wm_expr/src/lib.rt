//! Conditions and expressions over the rows of given columns: whether a condition is typed, how true it is, and the
//! value of an expression.
#![tactic(auto)]

mod compare;
pub mod conditions;
pub mod expressions;
pub mod fault;
mod fitting;
pub mod names;
mod operands;
pub mod owned;
mod periods;
mod seen;
pub mod types;

pub use conditions::truth;
pub use expressions::value;
pub use fault::ValueFault;
pub use fitting::fits;
pub use periods::has_no_empty_period;
pub use types::typed;
