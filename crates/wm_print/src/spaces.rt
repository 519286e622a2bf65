//! What is wrong with the workspaces, savepoints and moments that the line names.
ghost use Rattle.std.specs.Prelude.{◌≡◌, ◌++◌, OnOk};
ghost use Rattle.wm_print.specs.Refusals.{names_place, reserved_text, space_text};

use crate::value::push_quoted;
use crate::words::{push_dated, push_text, push_text_and_date, push_text_and_name, push_two_texts};
use wm_base::{Bytes, Memory, SpaceRefusal};

/// Whether a reserved name is one of a workspace or a savepoint.
fn names_place(name: &[u8]) -> bool
    ensures { result ≡ names_place name.now }
{
    name == b"BASE".as_slice()
        || name == b"DiffBase".as_slice()
        || name == b"LATEST".as_slice()
        || name == b"LIVE".as_slice()
        || name.starts_with(b"ICP-")
}

/// Adds a reserved name.
#[tactic(auto, unfolding(crate::specs::Refusals::reserved_text))]
fn push_reserved(out: &mut Bytes, name: &[u8]) -> Result<(), Memory>
    ensures { OnOk result (out.new ≡ out.old ++ reserved_text name.now) }
{
    if names_place(name) {
        push_quoted(out, name)
    } else {
        out.append(name)
    }
}

/// Adds the text of a refusal of workspaces, savepoints and moments.
#[tactic(auto, unfolding(crate::specs::Refusals::space_text))]
pub fn push_space(out: &mut Bytes, refusal: &SpaceRefusal) -> Result<(), Memory>
    ensures { OnOk result (out.new ≡ out.old ++ space_text refusal.now) }
{
    match refusal {
        SpaceRefusal::Wm020(workspace) => push_text(out, b"WM-020 no workspace ", workspace),
        SpaceRefusal::Wm021(workspace) => push_text(out, b"WM-021 workspace exists ", workspace),
        SpaceRefusal::Wm022(savepoint) => push_text(out, b"WM-022 no savepoint ", savepoint),
        SpaceRefusal::Wm023(savepoint) => push_text(out, b"WM-023 savepoint exists ", savepoint),
        SpaceRefusal::Wm024(name) => {
            out.append(b"WM-024 reserved ")?;
            push_reserved(out, name.as_bytes())
        }
        SpaceRefusal::Wm025(workspace) => push_text(out, b"WM-025 no parent ", workspace),
        SpaceRefusal::Wm030 => out.append(b"WM-030 not at LATEST"),
        SpaceRefusal::Wm031(moment) => push_dated(out, b"WM-031 moment goes back ", *moment),
        SpaceRefusal::Wm032(workspace, birth) => {
            push_text_and_date(out, b"WM-032 date before ", workspace, *birth)
        }
        SpaceRefusal::Wm033 => out.append(b"WM-033 empty period"),
        SpaceRefusal::Wm040(workspace, mode) => {
            push_text_and_name(out, b"WM-040 frozen ", workspace, mode)
        }
        SpaceRefusal::Wm041(workspace) => push_text(out, b"WM-041 already frozen ", workspace),
        SpaceRefusal::Wm042(workspace) => push_text(out, b"WM-042 not frozen ", workspace),
        SpaceRefusal::Wm043(workspace, session) => {
            push_text_and_name(out, b"WM-043 session inside ", workspace, session)
        }
        SpaceRefusal::Wm044(workspace, child) => {
            push_two_texts(out, b"WM-044 has child ", workspace, child)
        }
        SpaceRefusal::Wm045(child) => push_text(out, b"WM-045 dependent child ", child),
        SpaceRefusal::Wm046(savepoint) => push_text(out, b"WM-046 rebased since ", savepoint),
    }
}
