//! The names that savepoints are given.
ghost use Rattle.std.specs.Prelude.{◌≡◌, ◌++◌, IfOk};
ghost use Rattle.std.specs.Fmt.{decimal};
ghost use Rattle.wm_state.specs.Editing.{implicit_front};

use std::alloc::Global;
use wm_base::{Memory, Name};

/// The name of the implicit savepoint of a number.
pub fn implicit_name(alloc: Global, number: u32) -> Result<Name, Memory>
    ensures { IfOk result (λ name. name ≡ implicit_front ++ decimal number) }
{
    let digits = number.to_string(alloc)?;
    let mut name = Vec::new(alloc);
    name.extend_from_slice(b"ICP-")?;
    name.extend_from_slice(digits.as_bytes())?;
    Ok(Name::from_vec(name))
}
