//! Pieces cut to a period, and pieces laid over others.
ghost use Rattle.std.specs.Prelude.{◌≡◌, ◌≤◌, ◌++◌, take, length, IfOk, OnOk};
ghost use Rattle.wm_period.specs.Pieces.{Between, EndBy, parts_in, over_from};
ghost use Rattle.wm_base.specs.declared.instant.TheConstants.{END};

use crate::piece::Piece;
use std::alloc::Global;
use wm_base::{Instant, Memory};

/// Puts what the pieces of `list` have from one instant to another behind the others.
pub fn push_parts(
    into: &mut Vec<Piece>,
    list: &[Piece],
    from: Instant,
    till: Instant,
) -> Result<(), Memory>
    ensures { OnOk result (into.new.items ≡ into.old.items ++ parts_in from till list.now) }
{
    for piece in list {
        if let Some(part) = piece.part_in(from, till) {
            into.push(part)?;
        }
    }
    Ok(())
}

/// Puts what the pieces of `lower` have from one instant to another behind the list, and returns the
/// place of the first piece that has not ended by `till`. The pieces before `rest` have ended by `from`.
fn push_gap(
    into: &mut Vec<Piece>,
    lower: &[Piece],
    rest: usize,
    from: Instant,
    till: Instant,
) -> Result<usize, Memory>
    requires in_order { Between 0 lower.now END }
    requires within { rest ≤ length lower.now }
    requires passed { EndBy from (take rest lower.now) }
    requires forward { from ≤ till }
    ensures parts { OnOk result (into.new.items ≡ into.old.items ++ parts_in from till lower.now) }
    ensures place { IfOk result (λ next. next ≤ length lower.now) }
    ensures passed { IfOk result (λ next. EndBy till (take next lower.now)) }
{
    let mut next = rest;
    while next < lower.len() && lower[next].period.till() <= till {
        next += 1;
    }
    let reached = (next + 1).min(lower.len());
    push_parts(into, &lower[rest..reached], from, till)?;
    Ok(next)
}

/// The upper pieces, and what the lower ones have beside them. Each list is gone through once.
pub fn lay_over(alloc: Global, lower: &[Piece], upper: &[Piece]) -> Result<Vec<Piece>, Memory>
    requires lower_in_order { Between 0 lower.now END }
    requires upper_in_order { Between 0 upper.now END }
    ensures { IfOk result (λ list. list.items ≡ over_from 0 lower.now upper.now) }
{
    let mut list = Vec::with_capacity(alloc, lower.len() + upper.len())?;
    let mut rest = 0;
    let mut done = Instant::beginning();
    for piece in upper {
        rest = push_gap(&mut list, lower, rest, done, piece.period.from())?;
        list.push(*piece)?;
        done = piece.period.till();
    }
    push_gap(&mut list, lower, rest, done, Instant::end())?;
    Ok(list)
}
