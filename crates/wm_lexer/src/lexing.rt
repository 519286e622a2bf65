ghost use Rattle.std.specs.Prelude.{◌≤◌, length, IfOk};
ghost use Rattle.wm_lexer.specs.Tokens.{AreTokens};

use crate::here::{skipped, skipped_behind, token_here};
use crate::token::{Token, Tokens};
use std::alloc::Global;
use wm_base::Memory;

/// The tokens of a line, as slices of it in order.
pub fn lex(alloc: Global, line: &[u8]) -> Result<Tokens, Memory>
    requires { length line.now ≤ 16384 }
    // Each is the longest that begins at its place, and blanks alone stand between them.
    ensures { IfOk result (λ tokens. AreTokens 0 line.now tokens) }
{
    let mut tokens = Tokens::new(alloc);
    let mut rest = skipped(line);
    'tokens: while let Some((b, more)) = rest.split_first() {
        let (kind, size) = token_here(*b, more);
        let from = line.len() - rest.len();
        let token = Token {
            kind,
            from: from as u32,
            till: (from + size) as u32,
        };
        tokens.push(token)?;
        rest = skipped_behind(rest, size);
    }
    Ok(tokens)
}
