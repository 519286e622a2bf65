//! The lines that are drawn.
ghost use Rattle.std.specs.Prelude.{◌≡◌, ◌<◌, IfOk, OnErr, string_bytes};
ghost use Rattle.wm_gen.specs.Script.{Gives, drawn_lines, line_for, line_of, next, procedure, session};

use crate::draw::draw;
use std::alloc::{AllocError, Global};
use wm_base::{Bytes, Memory};

/// The two sessions.
const SIDES: u64 = 2;

/// The forms of a line: some forms stand for more than one of the numbers below.
const FORMS: u64 = 8;

/// The keys of one session.
const KEYS: u64 = 500;

/// The values of X.
const VALUES: u64 = 1_000_000;

/// Where the drawing stands, and how many lines it is to give yet.
#[derive(Drop)]
pub(crate) struct Drawing {
    pub(crate) state: u64,
    pub(crate) left: u32,
}

impl Drawing {
    /// The next line, or None where all were given.
    pub(crate) fn line(&mut self, alloc: Global) -> Result<Option<Bytes>, Memory>
        ensures given { IfOk result (λ line. Gives (drawn_lines self.old.state self.old.left) line (drawn_lines self.new.state self.new.left)) }
        ensures kept { OnErr result (self.new ≡ self.old) }
    {
        if self.left == 0 {
            return Ok(None);
        }
        let mut state = self.state;
        let line = drawn_line(alloc, &mut state)?;
        self.state = state;
        self.left -= 1;
        Ok(Some(line))
    }
}

/// Draws a line.
#[tactic(auto, unfolding(crate::specs::Script::line_for))]
fn drawn_line(alloc: Global, state: &mut u64) -> Result<Bytes, Memory>
    ensures line { IfOk result (λ line. line ≡ line_for state.old) }
    ensures state { state.new ≡ next (next (next (next state.old))) }
{
    let side = draw(state, SIDES);
    let form = draw(state, FORMS);
    let half = draw(state, KEYS);
    let value = draw(state, VALUES);
    let text = line_text(alloc, side, form, half, value)?;
    Ok(Bytes::from_vec(text.into_bytes()))
}

/// The line of four draws. The sessions share no key: those of the first are even, and those of the second odd.
fn line_text(
    alloc: Global,
    side: u64,
    form: u64,
    half: u64,
    value: u64,
) -> Result<String, AllocError>
    requires side { side < 2 }
    requires half { half < 500 }
    ensures { IfOk result (λ text. string_bytes text ≡ line_of side form half value) }
{
    let session = session(side);
    let key = 2 * half + side;
    match form {
        0..=2 => format!(in alloc; "{session}: INSERT INTO G VALUES ({key}, {value})"),
        3 | 4 => format!(in alloc; "{session}: UPDATE G SET X = {value} WHERE ID = {key}"),
        5 => format!(in alloc; "{session}: DELETE FROM G WHERE ID = {key}"),
        6 => {
            let procedure = procedure(half);
            format!(in alloc; "{session}: EXECUTE DBMS_WM.{procedure}('W')")
        }
        _ => format!(in alloc; "{session}: SELECT COUNT(*) FROM G"),
    }
}

fn session(side: u64) -> &'static str
    ensures { result.now ≡ session side }
{
    if side == 0 { "A" } else { "B" }
}

fn procedure(half: u64) -> &'static str
    ensures { result.now ≡ procedure half }
{
    if half % 2 == 0 {
        "RefreshWorkspace"
    } else {
        "MergeWorkspace"
    }
}
