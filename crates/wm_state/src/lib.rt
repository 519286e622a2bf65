//! The state between two lines, with whole private lists for each workspace; the edits that a line makes of it; the
//! records that stand for it; and what changes of records make of it. But for the types of the edits and of what these
//! list, definitions and their laws alone.
#![tactic(auto)]

pub mod edit;
