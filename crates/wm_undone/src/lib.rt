//! The laws of what is undone: a workspace as it was at one of its savepoints, and a workspace that goes, make of the
//! records what they make of each state that these stand for. Laws alone.
#![tactic(auto)]
