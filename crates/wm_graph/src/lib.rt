//! The records of a store by their kinds, and the rules over all of them: a store whose records break one is damaged,
//! though each record is in order by itself. Definitions and laws alone.
#![tactic(auto)]
