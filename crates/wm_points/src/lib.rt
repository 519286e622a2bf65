//! The laws of the points of workspaces: the records of two points lead to what they have in common. Laws alone.
#![tactic(auto)]
