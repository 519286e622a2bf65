//! Why a store is not made, opened, changed or read.
ghost use Rattle.std.specs.Prelude.{◌≡◌};
ghost use Rattle.wm_faults.specs.declared.fault.MakeFault.TheVariants.{Memory as MakeMemory};
ghost use Rattle.wm_faults.specs.declared.fault.OpenFault.TheVariants.{Memory as OpenMemory};
ghost use Rattle.wm_faults.specs.declared.fault.StoreFault.TheVariants.{Memory as StoreMemory};

use std::alloc::{AllocError, AllocFailed};
use thiserror::Error;
use wm_base::memory;

/// Which test of opening a damaged store failed.
#[derive(Clone, Copy, Debug, PartialEq, Eq)]
pub enum Damage {
    /// A page is not whole in the file.
    Short,
    /// The format is another one.
    Format,
    /// The journal's fields are not in order.
    Journal,
    /// The page count is too small.
    Root,
    /// The slots of a page run past its end.
    Slots,
    /// The bytes of a slot are no record.
    Record,
    /// A record's id stands twice.
    Twice,
    /// The records together break a rule.
    Graph,
}

/// Why no store was made.
#[derive(Debug, Drop, PartialEq, Error)]
pub enum MakeFault {
    #[error("the disk failed")]
    Disk,
    #[error("there is a store already")]
    Exists,
    #[error("out of memory")]
    Memory,
}

/// Why a store was not opened.
#[derive(Debug, Drop, PartialEq, Error)]
pub enum OpenFault {
    #[error("the disk failed")]
    Disk,
    #[error("the file is no store")]
    NotStore,
    #[error("page {page} is damaged: {kind:?}")]
    Damaged { page: u64, kind: Damage },
    #[error("out of memory")]
    Memory,
}

/// Why a change was not stored, or a page not read.
#[derive(Debug, Drop, PartialEq, Error)]
pub enum StoreFault {
    #[error("the disk failed")]
    Disk,
    #[error("the file was changed by another writer")]
    Changed,
    #[error("out of memory")]
    Memory,
}

impl From<memory::Memory> for MakeFault {
    ghost from_gives = { λ _ e. e ≡ MakeMemory };

    fn from(_error: memory::Memory) -> MakeFault {
        MakeFault::Memory
    }
}

impl From<AllocError> for MakeFault {
    ghost from_gives = { λ _ e. e ≡ MakeMemory };

    fn from(_error: AllocError) -> MakeFault {
        MakeFault::Memory
    }
}

impl<T: Drop> From<AllocFailed<T>> for MakeFault {
    ghost from_gives = { λ _ e. e ≡ MakeMemory };

    fn from(_failed: AllocFailed<T>) -> MakeFault {
        MakeFault::Memory
    }
}

impl From<memory::Memory> for OpenFault {
    ghost from_gives = { λ _ e. e ≡ OpenMemory };

    fn from(_error: memory::Memory) -> OpenFault {
        OpenFault::Memory
    }
}

impl From<AllocError> for OpenFault {
    ghost from_gives = { λ _ e. e ≡ OpenMemory };

    fn from(_error: AllocError) -> OpenFault {
        OpenFault::Memory
    }
}

impl<T: Drop> From<AllocFailed<T>> for OpenFault {
    ghost from_gives = { λ _ e. e ≡ OpenMemory };

    fn from(_failed: AllocFailed<T>) -> OpenFault {
        OpenFault::Memory
    }
}

impl From<memory::Memory> for StoreFault {
    ghost from_gives = { λ _ e. e ≡ StoreMemory };

    fn from(_error: memory::Memory) -> StoreFault {
        StoreFault::Memory
    }
}

impl From<AllocError> for StoreFault {
    ghost from_gives = { λ _ e. e ≡ StoreMemory };

    fn from(_error: AllocError) -> StoreFault {
        StoreFault::Memory
    }
}

impl<T: Drop> From<AllocFailed<T>> for StoreFault {
    ghost from_gives = { λ _ e. e ≡ StoreMemory };

    fn from(_failed: AllocFailed<T>) -> StoreFault {
        StoreFault::Memory
    }
}
