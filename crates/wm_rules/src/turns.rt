//! The rules of the records of turns.
ghost use Rattle.std.specs.Prelude.{◌≡◌, ◌==◌, ◌+◌, ◌&&◌, ◌||◌, is_some, IfOk};
ghost use Rattle.std.specs.List.{filter, list_all};
ghost use Rattle.wm_cells.specs.Lookups.{found, referred, counted};
ghost use Rattle.wm_graph.specs.Rules.{differ, is_asked, same_turn, has_turns};

use std::alloc::Global;
use wm_base::Memory;
use wm_cells::counts::{Counts, count_of, counts_of};
use wm_cells::distinct::are_distinct;
use wm_cells::index::{self, Index};
use wm_spec::record::{Space, Turn};

/// Whether each turn is of a workspace that is there.
fn each_has_space(spaces: &Index<Space>, turns: &[&Turn]) -> bool
    ensures { result ≡ list_all (λ x. is_some (found spaces.now.entries x.space)) (referred turns.now) }
{
    for turn in turns {
        if index::look(spaces, u64::from(turn.space)).is_none() {
            return false;
        }
    }
    true
}

/// Whether the turn is of a workspace other than LIVE, and its number one up to that of the rebases of that.
fn is_asked(spaces: &Index<Space>, turn: &Turn) -> bool
    ensures { result ≡ is_asked (found spaces.now.entries) turn.now }
{
    if turn.space == 0 {
        return false;
    }
    match index::look(spaces, u64::from(turn.space)) {
        Some(space) => turn.rebase <= space.rebases,
        None => false,
    }
}

/// The turns that are of workspaces other than LIVE, of numbers up to those of their rebases.
fn asked_of<'a>(
    alloc: Global,
    spaces: &Index<Space>,
    turns: &[&'a Turn],
) -> Result<Vec<&'a Turn>, Memory>
    ensures { IfOk result (λ asked. referred asked.items ≡ filter (is_asked (found spaces.now.entries)) (referred turns.now)) }
{
    let mut asked = Vec::new(alloc);
    for turn in turns {
        if is_asked(spaces, turn) {
            asked.push(*turn)?;
        }
    }
    Ok(asked)
}

/// Whether the turns of each workspace differ by their numbers.
fn numbers_differ(alloc: Global, turns: &[&Turn]) -> Result<bool, Memory>
    ensures { IfOk result (λ differs. differs ≡ differ same_turn (referred turns.now)) }
{
    let differs = are_distinct(alloc, turns)?;
    Ok(differs)
}

/// Whether each workspace other than LIVE has one turn more than rebases, by the counts of the turns.
fn each_is_complete(counts: &Counts, spaces: &[&Space]) -> bool
    ensures { result ≡ list_all (λ s. (s.number == 0) || (counted counts.now.entries s.number == s.rebases + 1)) (referred spaces.now) }
{
    for space in spaces {
        let wanted = u64::from(space.rebases) + 1;
        if space.number != 0 && count_of(counts, space.number) != wanted {
            return false;
        }
    }
    true
}

/// Whether each workspace other than LIVE has one turn more than rebases.
fn are_complete(alloc: Global, spaces: &[&Space], turns: &[&Turn]) -> Result<bool, Memory>
    ensures { IfOk result (λ complete. complete ≡ list_all (has_turns (referred turns.now)) (referred spaces.now)) }
{
    let counts = counts_of(alloc, turns)?;
    let complete = each_is_complete(&counts, spaces);
    Ok(complete)
}

/// Whether the turns are of workspaces that are there, and each of these other than LIVE has one for each number up to
/// that of its rebases.
pub fn are_turns(
    alloc: Global,
    index: &Index<Space>,
    spaces: &[&Space],
    turns: &[&Turn],
) -> Result<bool, Memory>
    ensures { IfOk result (λ kept. kept ≡ (list_all (λ x. is_some (found index.now.entries x.space)) (referred turns.now) && (differ same_turn (filter (is_asked (found index.now.entries)) (referred turns.now)) && list_all (has_turns (filter (is_asked (found index.now.entries)) (referred turns.now))) (referred spaces.now)))) }
{
    if !each_has_space(index, turns) {
        return Ok(false);
    }
    let asked = asked_of(alloc, index, turns)?;
    if !numbers_differ(alloc, asked.as_slice())? {
        return Ok(false);
    }
    let complete = are_complete(alloc, spaces, asked.as_slice())?;
    Ok(complete)
}
