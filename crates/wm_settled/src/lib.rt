//! The laws of the marks that settle conflicts of a workspace: each makes of the records what it makes of each state that
//! these stand for. Laws alone.
#![tactic(auto)]
