//! The tokens of a line: identifiers, integers, texts and marks, each the longest that begins at its place.
#![tactic(auto)]

pub mod here;
pub mod lexing;
pub mod token;

pub use here::{skipped, skipped_behind, token_here};
pub use lexing::lex;
pub use token::{Token, TokenKind, Tokens};
