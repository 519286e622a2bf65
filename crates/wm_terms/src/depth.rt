/// The most parentheses, signs and NOT that may be open at one place.
pub const DEPTH: u8 = 64;
