//! What is refused of the name that a call gives to what it makes.
ghost use Rattle.std.specs.Prelude.{◌≡◌, [], ◌∷◌, ◌++◌, IfOk};
ghost use Rattle.wm_model.specs.Step.{first_fault, misfit, naming_faults};

use std::alloc::Global;
use wm_base::{Memory, Name, Refusal};
use wm_grammar::Procedure;
use wm_plan::given::fault_of;
use wm_plan::names::is_name;
use wm_plan::refuse::{bad_name, mistyped, reserved_name};
use wm_syntax::statement::Arg;

/// What such a call is refused for by its arguments, in the order of the rows: the name is none, it is reserved, or an
/// argument does not fit its parameter.
pub fn naming_fault(
    alloc: Global,
    procedure: Procedure,
    args: &[Arg],
    name: &Name,
    is_reserved: bool,
) -> Result<Option<Refusal>, Memory>
    ensures { IfOk result (λ fault. fault ≡ first_fault (naming_faults name.now is_reserved ++ misfit procedure args.now ∷ [])) }
{
    if !is_name(name.as_bytes()) {
        return Ok(bad_name().into_refusal());
    }
    if is_reserved {
        return Ok(reserved_name(name.copy(alloc)?).into_refusal());
    }
    match fault_of(alloc, procedure, args)? {
        Some(parameter) => Ok(mistyped(parameter).into_refusal()),
        None => Ok(None),
    }
}
