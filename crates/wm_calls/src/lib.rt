//! What is asked of a statement before it is planned: which argument of a call is the first that does not fit, what is given
//! for each parameter, and whether a written period is empty.
#![tactic(auto)]

mod arguments;
mod empty;
mod faults;
mod fits;
mod places;
mod takes;

pub use arguments::{argument, is_true_given, moment_given, text_given};
pub use empty::has_empty_period;
pub use faults::{argument_fault, count_asked, misfit_before};
pub use takes::parameter_name;
