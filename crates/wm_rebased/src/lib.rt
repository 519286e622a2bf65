//! The laws of a workspace that is rebased on its parent as that is now: what it makes of the records, and that these stand
//! for the state with the workspace rebased. Laws alone.
#![tactic(auto)]
