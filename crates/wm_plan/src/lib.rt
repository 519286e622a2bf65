//! What all plans of lines share: what a line does and answers, worked out before anything changes; the refusals; who is connected.
#![tactic(auto)]

pub mod answer;
pub mod given;
pub mod kept;
pub mod names;
pub mod planned;
pub mod refuse;
pub mod resolving;
pub mod seating;
pub mod session;
pub mod within;
pub mod work;
