//! What is known of a line before its grammar: whether it is a remark, whether it is text; and names in capitals.
#![tactic(auto)]

mod capitals;
mod remark;
mod text;

pub use capitals::capitals_of;
pub use remark::is_remark;
pub use text::is_text;
