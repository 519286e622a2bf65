//! The laws of rows that are written: what is drawn over the pieces of a version and over what a workspace touched, in
//! the newest version of the workspace or in a version more, makes of the records what the entries make of each state
//! that they stand for. Laws alone.
#![tactic(auto)]
