//! Tests of crates below, which would be proved a second time if their tests stood in them.
#![tactic(auto)]

#[cfg(test)]
mod choosing;
#[cfg(test)]
mod counting;
#[cfg(test)]
mod selecting;
#[cfg(test)]
mod tables;
#[cfg(test)]
mod trees;
