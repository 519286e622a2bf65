//! What is told of a state without what its lists hold.
#![tactic(auto)]
