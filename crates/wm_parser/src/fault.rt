use thiserror::Error;

/// Why a line has no tree. Columns count bytes from 1.
#[derive(Clone, Copy, Debug, PartialEq, Error)]
pub enum ParseFault {
    /// The token at the column is the first that no form continues; or the column is one past the end.
    #[error("a token that no form continues")]
    Syntax { column: u32 },
    /// The token at the column is the first literal that is out of range, or the text of a where_clause in which one is.
    #[error("a literal out of range")]
    Literal { column: u32 },
    #[error("out of memory")]
    Memory,
}
