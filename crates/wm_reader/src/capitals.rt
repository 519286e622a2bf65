//! Names in capitals.
ghost use Rattle.std.specs.Prelude.{◌≡◌, IfOk};
ghost use Rattle.wm_reader.specs.Reading.{folded};

use std::alloc::Global;
use wm_base::{Memory, Name};

/// The capitals that a name means.
pub fn capitals_of(alloc: Global, name: &[u8]) -> Result<Name, Memory>
    ensures { IfOk result (λ capitals. capitals ≡ folded name.now) }
{
    let capitals: Vec<u8> = name
        .iter()
        .map(|byte| byte.to_ascii_uppercase())
        .collect(alloc)?;
    Ok(Name::from_vec(capitals))
}
