//! Why bytes are read as no record.
ghost use Rattle.std.specs.Prelude.{◌≡◌};
ghost use Rattle.wm_codec.specs.declared.fault.ReadFault.TheVariants.{Memory as OutOfMemory};

use wm_base::Memory;

/// Why no record was read.
#[derive(Clone, Copy, Debug)]
pub enum ReadFault {
    Memory,
    /// The bytes are no record.
    NoRecord,
}

impl From<Memory> for ReadFault {
    ghost from_gives = { λ _ e. e ≡ OutOfMemory };

    fn from(_memory: Memory) -> ReadFault {
        ReadFault::Memory
    }
}
