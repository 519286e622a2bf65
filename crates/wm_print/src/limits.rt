//! What the store does not do, or has no room for.
ghost use Rattle.std.specs.Prelude.{◌≡◌, ◌++◌, OnOk};
ghost use Rattle.wm_print.specs.Refusals.{limit_text};

use crate::words::{push_named, push_numbered};
use std::alloc::Global;
use wm_base::{Bytes, LimitRefusal, Memory};

/// Adds the text of a limit.
#[tactic(auto, unfolding(crate::specs::Refusals::limit_text))]
pub fn push_limit(alloc: Global, out: &mut Bytes, refusal: &LimitRefusal) -> Result<(), Memory>
    ensures { OnOk result (out.new ≡ out.old ++ limit_text refusal.now) }
{
    match refusal {
        LimitRefusal::Wm070(limit) => push_numbered(alloc, out, b"WM-070 change limit ", *limit),
        LimitRefusal::Wm071 => out.append(b"WM-071 workspaces 1024"),
        LimitRefusal::Wm072 => out.append(b"WM-072 savepoints 4096"),
        LimitRefusal::Wm073 => out.append(b"WM-073 tables 256"),
        LimitRefusal::Wm074 => out.append(b"WM-074 answer rows 100000"),
        LimitRefusal::Wm075 => out.append(b"WM-075 sessions 256"),
        LimitRefusal::Wm076(counter) => push_named(out, b"WM-076 counter ", counter),
        LimitRefusal::Wm099 => out.append(b"WM-099 not built yet"),
    }
}
