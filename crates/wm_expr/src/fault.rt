//! Why an expression has no value.
use thiserror::Error;

/// Why an expression has no value.
#[derive(Debug, Drop, Clone, Copy, PartialEq, Error)]
pub enum ValueFault {
    #[error("a number is out of range")]
    OutOfRange,
    #[error("out of memory")]
    Memory,
}
