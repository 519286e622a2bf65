//! The laws of savepoints and births: what is kept under a name, and a workspace that is born, makes of the records
//! what it makes of each state that they stand for. Laws alone.
#![tactic(auto)]
