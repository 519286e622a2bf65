//! What edits cost: how many records a merge's or a refresh's edits change, one after another. Definitions and laws alone.
#![tactic(auto)]
