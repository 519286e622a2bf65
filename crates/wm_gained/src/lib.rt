//! The laws of what a refresh brings into a log, of what a merge replays with its old stamps, and of what is kept
//! before it: each makes of the records what it makes of each state that these stand for. Laws alone.
#![tactic(auto)]
