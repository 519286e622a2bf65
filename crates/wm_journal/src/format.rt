//! Where the fields of page 0 stand, and their values.

/// Byte 0, which says that a store was made here.
pub const MADE: u8 = 0x5A;

/// Byte 0, as long as none was made.
pub const NOT_MADE: u8 = 0;

/// Byte 1.
pub const FORMAT: u8 = 1;

/// The place of the gate.
pub const GATE_AT: u64 = 8;

pub const GATE_OPEN: u8 = 0x47;

pub const GATE_CLOSED: u8 = 0;

/// The place of the journal's first page and of its number of images.
pub const FIELDS_AT: u64 = 16;
