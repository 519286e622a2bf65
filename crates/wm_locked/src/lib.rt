//! The laws of locks that are made and of locks that go: each makes of the records what it makes of each state that these
//! stand for. Laws alone.
#![tactic(auto)]
