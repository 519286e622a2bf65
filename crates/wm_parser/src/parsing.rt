ghost use Rattle.std.specs.Prelude.{◌≡◌, ℕ, ◌≤◌, length, IfOk, IfErr, MatchResult, None};
ghost use Rattle.wm_syntax.specs.Trees.{Line as Tree};
ghost use Rattle.wm_syntax.specs.Views.{line_view};
ghost use Rattle.wm_grammar.specs.Scanned.{symbols_of};
ghost use Rattle.wm_grammar.specs.Literals.{bad_literal};
ghost use Rattle.wm_parser.specs.Parsed.{Gives};
ghost use Rattle.wm_grammar.specs.Parsed.{column_of, parsed};
ghost use Rattle.wm_parser.specs.Parsing.{judged, IsLine, IsSyntax, IsLiteral, IsFault, Refuses};
ghost use Rattle.wm_parser.specs.Tokens.{AreOfTokens};

use crate::fault::ParseFault;
use crate::lines::{discard, line_in};
use std::alloc::Global;
use wm_literals::bad_literal;
use wm_syntax::line::Line;
use wm_terms::error::ParseError;

/// The column, from 1, of a symbol from which so many bytes of the line are left.
fn column_of(line: &[u8], left: usize) -> u32
    requires { length line.now ≤ 16384 }
    ensures { result ≡ column_of line.now left }
{
    (line.len().saturating_sub(left) + 1) as u32
}

/// The tree, or the fault of the first literal out of range, from which so many bytes are left.
fn in_range(line: &[u8], tree: Line, bad: Option<usize>) -> Result<Line, ParseFault>
    requires { length line.now ≤ 16384 }
    ensures { result ≡ judged line.now tree bad }
{
    match bad {
        Some(left) => {
            discard(tree);
            let column = column_of(line, left);
            Err(ParseFault::Literal { column })
        }
        None => Ok(tree),
    }
}

/// The tree of a line.
///
/// `Syntax` tells of a line that is in no form of the grammar, and `Literal` of one that is, but in which a literal is out of range.
#[tactic(auto, using(crate::proofs::Tokens::symbols_are))]
pub fn parse(alloc: Global, line: &[u8]) -> Result<Line, ParseFault>
    requires { length line.now ≤ 16384 }
    // What the grammar sees of the line are its tokens, each the longest that begins at its place.
    ensures tokens { AreOfTokens line.now (symbols_of line.now) }
    // The line is one of the grammar, stands for this tree, and has no literal out of range.
    ensures found { IfOk result (λ tree. IsLine line.now (line_view tree) × (bad_literal line.now ≡ None)) }
    // Such a line is parsed to its tree, unless memory runs out.
    ensures complete { (tree : Tree) → IsLine line.now tree → bad_literal line.now ≡ None → MatchResult result (λ t. line_view t ≡ tree) (λ e. e ≡ ParseFault.Memory) }
    // A fault is at the first token that no form continues or, in a line of the grammar, at its first literal out of range.
    ensures fault { IfErr result (λ e. IsFault line.now e) }
    // Where a token is one that no form continues, the line is refused at its column, unless memory runs out.
    ensures syntax { (column : ℕ) → IsSyntax line.now column → Refuses result (ParseFault.Syntax column) }
    // So is a line of the grammar in which a literal is out of range.
    ensures literal { (column : ℕ) → IsLiteral line.now column → Refuses result (ParseFault.Literal column) }
    // All of this as one value: the tree, or the fault with its column.
    ensures is { Gives result (parsed line.now) }
{
    let bad = match bad_literal(alloc, line) {
        Ok(bad) => bad,
        Err(_) => return Err(ParseFault::Memory),
    };
    match line_in(alloc, line) {
        Ok(tree) => in_range(line, tree, bad),
        Err(ParseError::Syntax(left)) => {
            let column = column_of(line, left);
            Err(ParseFault::Syntax { column })
        }
        Err(ParseError::Memory) => Err(ParseFault::Memory),
    }
}
