//! Which of a statement's faults is told.
ghost use Rattle.std.specs.Prelude.{◌≡◌, IfOk, option_copied};
ghost use Rattle.wm_typing.specs.Refusals.{first_refusal};

use std::alloc::Global;
use wm_base::{CellRefusal, FormRefusal, Memory, Name, Refusal};

/// The refusal that comes first: for a name that is not there, for a type that is wrong, for a key column that is set, for
/// WM_VALID of a table that has none.
pub fn first_refusal(
    alloc: Global,
    unknown: Option<&[u8]>,
    mistyped: Option<&[u8]>,
    key: Option<&[u8]>,
    table: Option<&[u8]>,
) -> Result<Option<Refusal>, Memory>
    ensures { IfOk result (λ refusal. refusal ≡ first_refusal (option_copied unknown.entry) (option_copied mistyped.entry) (option_copied key.entry) (option_copied table.entry)) }
{
    if let Some(name) = unknown {
        let name = Name::copy_of(alloc, name)?;
        return Ok(Some(Refusal::Form(FormRefusal::Wm012(name))));
    }
    if let Some(name) = mistyped {
        let name = Name::copy_of(alloc, name)?;
        return Ok(Some(Refusal::Form(FormRefusal::Wm013(name))));
    }
    if let Some(name) = key {
        let name = Name::copy_of(alloc, name)?;
        return Ok(Some(Refusal::Cell(CellRefusal::Wm062(name))));
    }
    if let Some(name) = table {
        let name = Name::copy_of(alloc, name)?;
        return Ok(Some(Refusal::Form(FormRefusal::Wm017(name))));
    }
    Ok(None)
}
