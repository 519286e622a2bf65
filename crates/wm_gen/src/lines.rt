//! The lines of a script, one after another.
ghost use Rattle.std.specs.Prelude.{◌≡◌, ◌<◌, IfOk, OnErr, OnSome, slice_get};
ghost use Rattle.wm_gen.specs.Script.{Gives, opening_lines, script_lines};

use crate::drawing::Drawing;
use std::alloc::Global;
use std::marker::Model;
use wm_base::{Bytes, Memory};

/// The lines that open two sessions and make a table and a workspace.
const OPENING: [&str; 8] = [
    "CONNECT A ANN",
    "CONNECT B BEN",
    "A: CREATE TABLE G (ID NUMBER PRIMARY KEY, X NUMBER)",
    "A: EXECUTE DBMS_WM.EnableVersioning('G', 'NONE', FALSE, TRUE)",
    "A: EXECUTE DBMS_WM.CreateWorkspace('W')",
    "B: EXECUTE DBMS_WM.GotoWorkspace('W')",
    "A: EXECUTE DBMS_WM.SetValidTime(DATE '2020-01-01', DATE '2021-01-01')",
    "B: EXECUTE DBMS_WM.SetValidTime(DATE '2020-07-01', DATE '2021-07-01')",
];

/// The lines of a script that is drawn from a number: those that were not given yet.
#[derive(Drop)]
pub struct Lines {
    opened: usize,
    drawing: Drawing,
}

impl Model for Lines {
    ghost use Rattle.std.specs.Prelude.{ℕ, List, ◌++◌, drop};
    ghost use Rattle.wm_gen.specs.Script.{drawn_lines, opening_lines};

    ghost Value = { List (List ℕ) };

    ghost view = { λ l. drop l.opened opening_lines ++ drawn_lines l.drawing.state l.drawing.left };
}

impl Lines {
    /// The lines of the script of a seed, with so many drawn ones.
    pub fn new(seed: u64, count: u32) -> Lines
        ensures { result ≡ script_lines seed count }
    {
        let drawing = Drawing {
            state: seed,
            left: count,
        };
        Lines { opened: 0, drawing }
    }

    /// The next line, without the LF at its end, or None where all were given. Where memory runs out, the line is still to come.
    pub fn line(&mut self, alloc: Global) -> Result<Option<Bytes>, Memory>
        ensures given { IfOk result (λ line. Gives self.old line self.new) }
        ensures kept { OnErr result (self.new ≡ self.old) }
    {
        match opening_line(alloc, self.opened)? {
            Some(line) => {
                self.opened += 1;
                Ok(Some(line))
            }
            None => self.drawing.line(alloc),
        }
    }
}

/// The opening line at this place.
#[tactic(auto, unfolding(crate::specs::Script::opening_lines))]
fn opening_line(alloc: Global, place: usize) -> Result<Option<Bytes>, Memory>
    ensures line { IfOk result (λ line. line ≡ slice_get opening_lines place) }
    ensures within { IfOk result (λ line. OnSome line (place < 8)) }
{
    match OPENING.get(place) {
        Some(text) => {
            let mut line = Bytes::new(alloc);
            line.append(text.as_bytes())?;
            Ok(Some(line))
        }
        None => Ok(None),
    }
}
