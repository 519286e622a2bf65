//! What a line says.
use wm_base::{Bytes, Refusal};

/// An answer written out, its kind, and the refusal that it tells where the line was refused.
#[derive(Drop)]
pub struct Reply {
    pub bytes: Bytes,
    pub kind: Kind,
    pub refused: Option<Refusal>,
}

/// What kind of answer a line had.
#[derive(Clone, Copy, Debug, PartialEq, Eq)]
pub enum Kind {
    /// No bytes, to a blank or comment line.
    Nothing,
    Fine,
    /// How many rows were changed.
    Done,
    /// Rows, and how many they are.
    Listing,
    Refused,
}
