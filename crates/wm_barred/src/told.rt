//! How it is told that a lock keeps a user from cells.
ghost use Rattle.std.specs.Prelude.{◌≡◌, ◌<◌, ◌≤◌, IfOk};
ghost use Rattle.wm_barred.specs.Alone.{outline_alone};
ghost use Rattle.wm_base.specs.declared.instant.TheConstants.{END};
ghost use Rattle.wm_graph.specs.Parts.{parts_of};
ghost use Rattle.wm_model.specs.Step.{locked_told, name_numbered, period_told};
ghost use Rattle.wm_plan.specs.Views.{answer_view};

use std::alloc::Global;
use wm_base::{Memory, Name, Period};
use wm_guard::barring::word;
use wm_image::Image;
use wm_plan::answer::Answer;
use wm_plan::refuse::locked;
use wm_spec::record::{CellRange, Lock};
use wm_view_rows::rows::period_of;

/// The name of the workspace of a number.
fn name_numbered(alloc: Global, image: &Image, number: u32) -> Result<Name, Memory>
    ensures { IfOk result (λ name. name ≡ name_numbered (outline_alone (parts_of image.now)) number) }
{
    match image.space(number) {
        Some(space) => space.name.copy(alloc),
        None => Ok(Name::from_vec(Vec::new(alloc))),
    }
}

/// The period of cells, where their table has valid time.
fn period_told(image: &Image, cells: &CellRange) -> Option<Period>
    requires some { cells.now.from < cells.now.till }
    requires till { cells.now.till ≤ END }
    ensures { result ≡ period_told (outline_alone (parts_of image.now)) cells.now }
{
    match image.table_numbered(cells.table) {
        Some(table) => {
            if table.valid {
                Some(period_of(cells))
            } else {
                None
            }
        }
        None => None,
    }
}

/// That this lock keeps the line from its cells.
pub fn locked_told(alloc: Global, image: &Image, lock: &Lock) -> Result<Answer, Memory>
    requires some { lock.now.cells.from < lock.now.cells.till }
    requires till { lock.now.cells.till ≤ END }
    ensures { IfOk result (λ answer. answer_view answer ≡ locked_told (outline_alone (parts_of image.now)) lock.now) }
{
    let workspace = name_numbered(alloc, image, lock.space)?;
    let user = lock.user.copy(alloc)?;
    let mode = Name::copy_of(alloc, word(lock.mode))?;
    let key = lock.cells.key.copy(alloc)?;
    Ok(locked(workspace, user, mode, key, period_told(image, &lock.cells)))
}
