//! What a line is refused for, and what comes of it, as values.
#![tactic(auto)]
