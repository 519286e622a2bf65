//! One line at a time: what it says is done, kept and answered.
#![tactic(auto)]

mod commit;
mod engine;
mod fault;
mod keep;
mod plan;
mod print;
mod reply;

pub use engine::Engine;
pub use fault::LineFault;
pub use reply::{Kind, Reply};
