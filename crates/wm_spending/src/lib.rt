//! What a merge or a refresh of a workspace costs: no more records than its stretches allow. Laws alone.
#![tactic(auto)]
