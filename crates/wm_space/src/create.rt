//! CREATE TABLE.
ghost use Rattle.std.specs.Prelude.{◌≡◌, ◌∷◌, [], false, true, None, is_some, IfOk, IfSome, IfNone};
ghost use Rattle.wm_graph.specs.Parts.{parts_of};
ghost use Rattle.wm_ground.specs.Grounds.{outline_on};
ghost use Rattle.wm_ground.specs.Outcomes.{outcome_view};
ghost use Rattle.wm_making.specs.Creating.{names_fault, shape_fault, table_of};
ghost use Rattle.wm_model.specs.Step.{create_plan, doing, first_fault, is_full, most_tables, outcome, refused_if, spent, table_there};
ghost use Rattle.wm_state.specs.Standing.{by_number};
ghost use Rattle.wm_state.specs.State.{next_table, table_named};
ghost use Rattle.wm_state.specs.declared.edit.Edit.TheVariants as edits;

use std::alloc::Global;
use wm_base::{Memory, Name, Refusal};
use wm_ground::ground::Ground;
use wm_ground::outcome::{answered, done, refused};
use wm_image::Image;
use wm_making::{names_fault, shape_fault, table_of};
use wm_plan::planned::Planned;
use wm_plan::refuse::{most_tables, table_there};
use wm_state::edit::Edit;
use wm_syntax::statement::CreateItems;

/// The most tables of a store.
const TABLE_LIMIT: usize = 256;

/// The number of the next table, where there is room for one.
fn next_number(image: &Image) -> Option<u16>
    ensures room { IfSome result (λ n. (is_full (by_number (parts_of image.now).tables) ≡ false) × (n ≡ next_table (by_number (parts_of image.now).tables))) }
    ensures full { IfNone result (is_full (by_number (parts_of image.now).tables) ≡ true) }
{
    let next = image.next_table();
    if image.table_count() >= TABLE_LIMIT || next > u32::from(u16::MAX) {
        return None;
    }
    Some(next as u16)
}

/// What the line is refused for before its table is numbered, in the order of the rows.
fn creating_fault(
    alloc: Global,
    ground: Ground<'_>,
    name: &Name,
    items: &CreateItems,
) -> Result<Option<Refusal>, Memory>
    ensures { IfOk result (λ fault. fault ≡ first_fault (names_fault name.now items.now ∷ refused_if (is_some (table_named name.now (outline_on ground.entry).tables)) (table_there name.now) ∷ shape_fault items.now ∷ [])) }
{
    if let Some(refusal) = names_fault(alloc, name, items)? {
        return Ok(Some(refusal));
    }
    if ground.table_named(name.as_bytes()).is_some() {
        return Ok(table_there(name.copy(alloc)?).into_refusal());
    }
    shape_fault(alloc, items)
}

/// The table is made, where there is room for it.
fn create(
    alloc: Global,
    ground: Ground<'_>,
    name: &Name,
    items: &CreateItems,
) -> Result<Planned, Memory>
    requires { shape_fault items.now ≡ None }
    ensures { IfOk result (λ p. outcome_view p ≡ outcome (doing (refused_if (is_full (outline_on ground.entry).tables) most_tables ∷ spent (outline_on ground.entry) ∷ []) (edits.Create (table_of (next_table (outline_on ground.entry).tables) name.now items.now) ∷ []))) }
{
    let Some(number) = next_number(ground.image) else {
        return Ok(answered(alloc, most_tables()));
    };
    if let Some(refusal) = ground.spent_refusal(alloc)? {
        return Ok(refused(alloc, refusal));
    }
    let table = table_of(alloc, number, name.copy(alloc)?, items)?;
    done(alloc, Edit::Create(table))
}

/// CREATE TABLE makes a table.
pub fn create_plan(
    alloc: Global,
    ground: Ground<'_>,
    name: &Name,
    items: &CreateItems,
) -> Result<Planned, Memory>
    ensures { IfOk result (λ p. outcome_view p ≡ outcome (create_plan name.now items.now (outline_on ground.entry))) }
{
    match creating_fault(alloc, ground, name, items)? {
        Some(refusal) => Ok(refused(alloc, refusal)),
        None => create(alloc, ground, name, items),
    }
}
