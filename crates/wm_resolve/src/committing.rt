//! CommitResolve: what was decided becomes part of the workspace.

ghost use Rattle.std.specs.Prelude.{◌≡◌, ◌<◌, ℕ, List, length, true, IfOk};
ghost use Rattle.wm_base.specs.declared.instant.TheConstants.{END};
ghost use Rattle.wm_graph.specs.Parts.{parts_of};
ghost use Rattle.wm_graph.specs.Rules.{keep_rules};
ghost use Rattle.wm_model.specs.Planning.{IsOpen};
ghost use Rattle.wm_model.specs.Step.{commit_resolve, decisions_of, has_open};
ghost use Rattle.wm_model.specs.Undone.{NamesSpace};
ghost use Rattle.wm_plan.specs.Idle.{Idles};
ghost use Rattle.wm_plan.specs.Planning.{DoesIt};
ghost use Rattle.wm_resolve.specs.Committed.{commit_edits};
ghost use Rattle.wm_state.specs.State.{Session as SessionState};

use crate::opening::has_open;
use crate::restorable::are_staged;
use std::alloc::Global;
use wm_barred::barring::{Claim, entries_fault};
use wm_base::{Memory, Name};
use wm_decided::decision::Decision;
use wm_decided::netted::{Netted, net_decisions};
use wm_ground::outcome::setting;
use wm_image::Image;
use wm_plan::answer::Answer;
use wm_plan::planned::Planned;
use wm_plan::refuse::{at_its_end, no_resolve, no_workspace, not_built};
use wm_plan::seating::Seating;
use wm_plan::session::{Session, Setting};
use wm_plan::work::{is_long, is_spent};
use wm_spec::record::Space;
use wm_state::edit::{Edit, Entries, Marks};

/// The edits by which entries come into a workspace, if there are any, and its cells are settled.
fn commit_edits(alloc: Global, space: u32, netted: Netted) -> Result<Vec<Edit>, Memory>
    ensures { IfOk result (λ edits. edits.items ≡ commit_edits space netted.entries.items netted.marks.items) }
{
    let Netted { marks, entries } = netted;
    let mut edits = Vec::new(alloc);
    if !entries.is_empty() {
        let entries = Entries::from_vec(entries);
        edits.push(Edit::Replay { space, entries })?;
    }
    let marks = Marks::from_vec(marks);
    edits.push(Edit::Settle { space, marks })?;
    Ok(edits)
}

/// Decisions of a resolve of a workspace become changes and marks of it, unless a lock bars them or a counter is at its end.
fn commit_decisions(
    alloc: Global,
    image: &Image,
    moment: u64,
    session: &Session,
    space: &Space,
    decisions: &[Decision],
) -> Result<Planned, Memory>
    requires rules { keep_rules (parts_of image.now) ≡ true }
    requires moment { moment < END }
    requires open { has_open space.now.number session.now ≡ true }
    requires decisions { decisions_of session.now ≡ decisions.now }
    requires some { 0 < length decisions.now }
    ensures does { IfOk result (λ p. (xs : List SessionState) (workspace : List ℕ) → NamesSpace image.now workspace space.now → IsOpen xs session.now → DoesIt image.now xs moment p (commit_resolve session.now workspace)) }
    ensures idle { IfOk result Idles }
{
    let user = session.user();
    let netted = net_decisions(alloc, decisions, moment, user)?;
    let claim = Claim {
        space: space.number,
        user,
        except: None,
    };
    let entries = netted.entries.as_slice();
    if let Some(refusal) = entries_fault(alloc, image, claim, entries)? {
        return Ok(Planned::answered(alloc, Answer::Refused(refusal)));
    }
    if is_long(space.log_length, entries) {
        return Ok(Planned::answered(alloc, at_its_end(alloc, b"LOG")?));
    }
    if is_spent(&image.counters()) {
        return Ok(Planned::answered(alloc, at_its_end(alloc, b"WORK")?));
    }
    if !are_staged(image, decisions) {
        return Ok(Planned::answered(alloc, not_built()));
    }
    image.law_of_order();
    let name = session.name().copy(alloc)?;
    Ok(Planned {
        edits: commit_edits(alloc, space.number, netted)?,
        seating: Seating::Set {
            name,
            setting: Setting::End,
        },
        answer: Answer::Fine,
    })
}

/// What a session has decided in the resolve that it has open.
fn decisions_of(session: &Session) -> &[Decision]
    ensures { result.now ≡ decisions_of session.now }
{
    match session.resolve() {
        Some(resolve) => resolve.decisions.as_slice(),
        None => &[],
    }
}

/// CommitResolve makes what the session decided part of the workspace, and closes the resolve.
pub fn commit_resolve(
    alloc: Global,
    image: &Image,
    moment: u64,
    session: &Session,
    name: &[u8],
) -> Result<Planned, Memory>
    requires rules { keep_rules (parts_of image.now) ≡ true }
    requires moment { moment < END }
    ensures does { IfOk result (λ p. (xs : List SessionState) → IsOpen xs session.now → DoesIt image.now xs moment p (commit_resolve session.now name.now)) }
    ensures idle { IfOk result Idles }
{
    let Some(space) = image.space_named(name) else {
        return Ok(Planned::answered(alloc, no_workspace(Name::copy_of(alloc, name)?)));
    };
    if !has_open(session, space) {
        return Ok(Planned::answered(alloc, no_resolve(space.name.copy(alloc)?)));
    }
    let decisions = decisions_of(session);
    if decisions.is_empty() {
        return setting(alloc, session, Setting::End);
    }
    commit_decisions(alloc, image, moment, session, space, decisions)
}
