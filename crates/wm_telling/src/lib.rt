//! What records tell of a workspace beside its parent, with the laws by which it is what their lists tell.
#![tactic(auto)]
