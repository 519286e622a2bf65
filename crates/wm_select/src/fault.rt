//! Why a query has no answer.
use thiserror::Error;

/// Why a query has no answer.
#[derive(Debug, Drop, Clone, Copy, PartialEq, Error)]
pub enum SelectFault {
    #[error("a number is out of range")]
    OutOfRange,
    #[error("the answer has too many rows")]
    TooMany,
    #[error("out of memory")]
    Memory,
}
