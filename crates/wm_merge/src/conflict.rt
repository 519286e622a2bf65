//! How a conflict and a spent number of rebases refuse a line.

ghost use Rattle.std.specs.Prelude.{◌≡◌, IfOk};
ghost use Rattle.std.specs.Option.{option_map};
ghost use Rattle.wm_graph.specs.Parts.{parts_of, table_of};
ghost use Rattle.wm_merge.specs.Views.{clashed};
ghost use Rattle.wm_model.specs.Merged.{clash_answer, clash_fault, rebase_fault};
ghost use Rattle.wm_plan.specs.Views.{answer_view};

use std::alloc::Global;
use wm_base::{Memory, Name, Refusal};
use wm_image::Image;
use wm_pending::clash::Clash;
use wm_plan::answer::Answer;
use wm_plan::refuse::{at_its_end, in_conflict};
use wm_space::saving::is_last;
use wm_spec::record::Space;

/// That a workspace and its parent both changed a key of a table, in a table with valid time in this period.
fn conflict_answer(alloc: Global, image: &Image, clash: Clash) -> Result<Answer, Memory>
    ensures { IfOk result (λ answer. answer_view answer ≡ clash_answer (clashed clash) (table_of (parts_of image.now).tables clash.table)) }
{
    match image.table_numbered(clash.table) {
        Some(table) => {
            let period = if table.valid {
                Some(clash.period)
            } else {
                None
            };
            Ok(in_conflict(table.name.copy(alloc)?, clash.key, period))
        }
        None => {
            let nameless = Name::from_vec(Vec::new(alloc));
            Ok(in_conflict(nameless, clash.key, None))
        }
    }
}

/// What the first conflict refuses a line for, where there is one.
pub fn clash_refusal(
    alloc: Global,
    image: &Image,
    found: Option<Clash>,
) -> Result<Option<Refusal>, Memory>
    ensures { IfOk result (λ fault. fault ≡ clash_fault (parts_of image.now) (option_map clashed found)) }
{
    match found {
        Some(clash) => Ok(conflict_answer(alloc, image, clash)?.into_refusal()),
        None => Ok(None),
    }
}

/// What a workspace is refused for that was rebased as often as may be.
pub fn rebase_refusal(alloc: Global, space: &Space) -> Result<Option<Refusal>, Memory>
    ensures { IfOk result (λ fault. fault ≡ rebase_fault space.now) }
{
    if is_last(space.rebases) {
        return Ok(at_its_end(alloc, b"REBASE")?.into_refusal());
    }
    Ok(None)
}
