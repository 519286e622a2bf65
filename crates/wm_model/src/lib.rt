//! The model that the product is measured by: how a script is cut into lines, what a line says, what it does and
//! answers, and what a run over lines says. Definitions and their laws alone.
#![tactic(auto)]
