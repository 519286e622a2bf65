//! What a decision copies of one side of a stretch of conflict.

ghost use Rattle.std.specs.Prelude.{◌≡◌, ◌<◌, ◌==◌, ◌&&◌, IfOk, OnOk};
ghost use Rattle.std.specs.Option.{option_map};
ghost use Rattle.wm_base.specs.declared.instant.TheConstants.{END};
ghost use Rattle.wm_graph.specs.Parts.{parts_of};
ghost use Rattle.wm_net.specs.Nets.{one_stamp};
ghost use Rattle.wm_period.specs.Pieces.{Between, held};
ghost use Rattle.wm_resolve.specs.Copying.{AreCopies, extended, laid};
ghost use Rattle.wm_state.specs.Editing.{row_value};
ghost use Rattle.wm_telling.specs.Telling.{told_by};

use std::alloc::Global;
use wm_base::{Memory, Period, Values};
use wm_decided::decision::Copied;
use wm_image::Image;
use wm_period::Piece;

/// A copy of the values of a piece's row, or None where it is gone or its row is not there.
fn values_of(alloc: Global, image: &Image, piece: &Piece) -> Result<Option<Values>, Memory>
    ensures { IfOk result (λ values. option_map row_value values ≡ (told_by (parts_of image.now) (held piece.now)).row) }
{
    if piece.gone {
        return Ok(None);
    }
    match image.row(piece.stamp.number) {
        Some(row) => Ok(Some(row.values.copy(alloc)?)),
        None => Ok(None),
    }
}

/// Whether a copy ends where another begins, and is of one stamp with it.
fn is_before(last: &Copied, next: &Copied) -> bool
    ensures { result ≡ ((last.now.till == next.now.from) && one_stamp last.now.value next.now.value) }
{
    last.period.till() == next.period.from() && last.stamp == next.stamp
}

/// A copy until another ends, which begins where it ends.
fn until(last: Copied, next: &Copied) -> Copied
    requires { last.from < next.now.till }
    ensures { result ≡ record { from = last.from; till = next.now.till; value = last.value } }
{
    let period = Period::new(last.period.from(), next.period.till()).unwrap();
    Copied { period, ..last }
}

/// Puts a copy behind others, as one with the last of them where it meets it and is of one stamp with it.
fn extend(copies: &mut Vec<Copied>, next: Copied) -> Result<(), Memory>
    ensures { OnOk result (copies.new.items ≡ extended one_stamp copies.old.items next) }
{
    let Some(last) = copies.pop() else {
        copies.push(next)?;
        return Ok(());
    };
    if is_before(&last, &next) {
        copies.push(until(last, &next))?;
        return Ok(());
    }
    copies.push(last)?;
    copies.push(next)?;
    Ok(())
}

/// Puts what a piece says at the moments of a period behind other copies.
fn lay(
    alloc: Global,
    image: &Image,
    copies: &mut Vec<Copied>,
    piece: &Piece,
    period: Period,
) -> Result<(), Memory>
    ensures { OnOk result (copies.new.items ≡ laid (parts_of image.now) period.from period.till copies.old.items piece.now) }
{
    let _order = (period.till(), piece.period.till());
    let Some(shared) = piece.period.cut(&period) else {
        return Ok(());
    };
    let row = values_of(alloc, image, piece)?;
    extend(
        copies,
        Copied {
            period: shared,
            stamp: piece.stamp.number,
            kind: piece.kind,
            row,
        },
    )
}

/// What pieces say at the moments of a period, each period of one stamp as long as can be.
pub fn copies_on(
    alloc: Global,
    image: &Image,
    pieces: &[Piece],
    period: Period,
) -> Result<Vec<Copied>, Memory>
    requires { Between 0 pieces.now END }
    ensures { IfOk result (λ copies. AreCopies (parts_of image.now) period.from period.till pieces.now copies.items) }
{
    let mut copies = Vec::new(alloc);
    for piece in pieces {
        lay(alloc, image, &mut copies, piece, period)?;
    }
    Ok(copies)
}
