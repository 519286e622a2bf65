//! The laws of a table with history on a date: what its workspace was born with, and the records of its log up to then, say what stood
//! there. Laws alone.
#![tactic(auto)]
