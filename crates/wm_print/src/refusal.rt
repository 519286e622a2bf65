//! The text of a refusal.
ghost use Rattle.std.specs.Prelude.{◌≡◌, ◌++◌, OnOk};
ghost use Rattle.wm_print.specs.Refusals.{refusal_text};

use crate::cells::push_cell;
use crate::forms::push_form;
use crate::limits::push_limit;
use crate::spaces::push_space;
use std::alloc::Global;
use wm_base::{Bytes, Memory, Refusal};

/// Adds the text of a refusal, without the LF behind it.
#[tactic(auto, unfolding(crate::specs::Refusals::refusal_text))]
pub fn push_refusal(alloc: Global, out: &mut Bytes, refusal: &Refusal) -> Result<(), Memory>
    ensures { OnOk result (out.new ≡ out.old ++ refusal_text refusal.now) }
{
    match refusal {
        Refusal::Form(refusal) => push_form(alloc, out, refusal),
        Refusal::Space(refusal) => push_space(out, refusal),
        Refusal::Cell(refusal) => push_cell(alloc, out, refusal),
        Refusal::Limit(refusal) => push_limit(alloc, out, refusal),
    }
}
