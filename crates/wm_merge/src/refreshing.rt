//! RefreshWorkspace.

ghost use Rattle.std.specs.Prelude.{◌≡◌, ◌<◌, ◌⊎◌, ◌++◌, ℕ, List, [], map, true, false, IfOk, OnOk};
ghost use Rattle.std.specs.Option.{option_map, option_map_or};
ghost use Rattle.wm_base.specs.declared.instant.TheConstants.{END};
ghost use Rattle.wm_graph.specs.Parts.{parts_of};
ghost use Rattle.wm_graph.specs.Rules.{keep_rules};
ghost use Rattle.wm_merge.specs.Views.{clashed};
ghost use Rattle.wm_model.specs.Merged.{NamesFamily, Refreshes, gain_edits, is_quiet_at, refresh_edits, refreshing_refusal};
ghost use Rattle.wm_model.specs.Step.{refresh_workspace};
ghost use Rattle.wm_pending.specs.Owned.{key_pieces};
ghost use Rattle.wm_plan.specs.Idle.{Idles};
ghost use Rattle.wm_plan.specs.Planning.{DoesIt};
ghost use Rattle.wm_plan.specs.Views.{answer_view};
ghost use Rattle.wm_plan.specs.declared.answer.Answer.TheVariants as answers;
ghost use Rattle.wm_print.specs.Texts.{Fine, Refused};
ghost use Rattle.wm_spec.specs.declared.record.space.Space.{Space as SpaceRecord};
ghost use Rattle.wm_spending.specs.Nets.{AreNets, refresh_of};
ghost use Rattle.wm_state.specs.Editing.{entry_of};
ghost use Rattle.wm_state.specs.State.{Session as SessionState};
ghost use Rattle.wm_telling.specs.Telling.{AreFamily, AreOwn};

use crate::conflict::{clash_refusal, rebase_refusal};
use crate::ready::can_refresh;
use std::alloc::Global;
use wm_base::{Memory, Name, Refusal};
use wm_image::Image;
use wm_pending::OwnKey;
use wm_pending::clash::{Clash, first_clash};
use wm_pending::gained::gained;
use wm_pending::own::own_pieces;
use wm_plan::answer::Answer;
use wm_plan::planned::Planned;
use wm_plan::refuse::{no_parent, no_workspace, not_built};
use wm_plan::resolving::resolving_refusal;
use wm_plan::seating::Seating;
use wm_plan::session::Session;
use wm_plan::work::{is_long, is_spent};
use wm_space::ending::ended;
use wm_spec::record::Space;
use wm_state::edit::{Edit, Entries, NewEntry};

/// Whether a parent changed nothing since a workspace took its log.
pub fn is_quiet(space: &Space, parent: &Space) -> bool
    ensures { result ≡ is_quiet_at space.now parent.now }
{
    parent.log_length <= space.from
}

/// Puts the edit by which the log of a workspace gains entries behind others, where there are any.
pub fn push_gain(edits: &mut Vec<Edit>, space: u32, entries: Vec<NewEntry>) -> Result<(), Memory>
    ensures { OnOk result (edits.new.items ≡ edits.old.items ++ gain_edits space entries.items) }
{
    if !entries.is_empty() {
        let entries = Entries::from_vec(entries);
        edits.push(Edit::Gain { space, entries })?;
    }
    Ok(())
}

/// A plan of edits, and of what becomes of the sessions, answered that it is done.
pub fn done(edits: Vec<Edit>, seating: Seating) -> Planned
    ensures edits { result.edits.items ≡ edits.items }
    ensures seating { result.seating ≡ seating }
    ensures answer { result.answer ≡ answers.Fine }
{
    Planned {
        edits,
        seating,
        answer: Answer::Fine,
    }
}

/// What a refresh is refused for: an open resolve, a conflict, or that the workspace was rebased as often as may be.
fn refreshing_refusal(
    alloc: Global,
    image: &Image,
    sessions: &[Session],
    space: &Space,
    found: Option<Clash>,
) -> Result<Option<Refusal>, Memory>
    ensures { IfOk result (λ fault. fault ≡ refreshing_refusal (parts_of image.now) sessions.now space.now (option_map clashed found)) }
{
    if let Some(refusal) = resolving_refusal(alloc, sessions, space)? {
        return Ok(Some(refusal));
    }
    if let Some(refusal) = clash_refusal(alloc, image, found)? {
        return Ok(Some(refusal));
    }
    rebase_refusal(alloc, space)
}

/// What a refresh is answered where nothing is pending.
fn quiet_answer(refusal: Option<Refusal>) -> Answer
    ensures { answer_view result ≡ option_map_or Refused refusal Fine }
{
    match refusal {
        Some(refusal) => Answer::Refused(refusal),
        None => Answer::Fine,
    }
}

/// The edits of a refresh.
fn refresh_edits(alloc: Global, space: &Space, entries: Vec<NewEntry>) -> Result<Vec<Edit>, Memory>
    ensures { IfOk result (λ edits. edits.items ≡ refresh_edits space.now.number entries.items) }
{
    let mut edits = Vec::new(alloc);
    edits.push(Edit::Rebase {
        space: space.number,
        emptied: false,
    })?;
    push_gain(&mut edits, space.number, entries)?;
    Ok(edits)
}

/// A workspace for which nothing refuses it gains entries and stands on its parent, unless a counter is at its end.
fn refresh_with(
    alloc: Global,
    image: &Image,
    moment: u64,
    space: &Space,
    own: &[OwnKey],
    entries: Vec<NewEntry>,
) -> Result<Planned, Memory>
    requires rules { keep_rules (parts_of image.now) ≡ true }
    requires moment { moment < END }
    requires own { AreOwn (parts_of image.now) space.now (map key_pieces own.now) }
    ensures does { IfOk result (λ p. (xs : List SessionState) (session : SessionState) (workspace : List ℕ) (parent : SpaceRecord) → Refreshes image.now moment xs session workspace space.now parent (map entry_of entries.items) → DoesIt image.now xs moment p (refresh_workspace session workspace)) }
    ensures idle { IfOk result Idles }
    ensures edits { IfOk result (λ p. (p.edits.items ≡ []) ⊎ (p.edits.items ≡ refresh_edits space.now.number entries.items)) }
{
    if is_long(space.log_length, entries.as_slice()) {
        return ended(alloc, b"LOG");
    }
    if is_spent(&image.counters()) {
        return ended(alloc, b"WORK");
    }
    if !can_refresh(image, space, own, entries.as_slice()) {
        return Ok(Planned::answered(alloc, not_built()));
    }
    image.law_of_order();
    Ok(done(refresh_edits(alloc, space, entries)?, Seating::Stay))
}

/// A workspace whose parent changed something since is refreshed.
fn refresh_pending(
    alloc: Global,
    image: &Image,
    sessions: &[Session],
    moment: u64,
    session: &Session,
    space: &Space,
    parent: &Space,
) -> Result<Planned, Memory>
    requires rules { keep_rules (parts_of image.now) ≡ true }
    requires moment { moment < END }
    requires family { AreFamily (parts_of image.now) space.now parent.now }
    requires pending { is_quiet_at space.now parent.now ≡ false }
    ensures does { IfOk result (λ p. (workspace : List ℕ) → NamesFamily image.now workspace space.now parent.now → DoesIt image.now sessions.now moment p (refresh_workspace session.now workspace)) }
    ensures idle { IfOk result Idles }
    ensures nets { IfOk result (λ p. (workspace : List ℕ) → NamesFamily image.now workspace space.now parent.now → AreNets image.now (refresh_of workspace) p.edits.items) }
{
    let own = own_pieces(alloc, image, space)?;
    let found = first_clash(alloc, image, space, parent, own.as_slice())?;
    if let Some(refusal) = refreshing_refusal(alloc, image, sessions, space, found)? {
        return Ok(Planned::answered(alloc, Answer::Refused(refusal)));
    }
    let user = session.user();
    let entries = gained(alloc, image, space, parent, own.as_slice(), moment, user)?;
    refresh_with(alloc, image, moment, space, own.as_slice(), entries)
}

/// RefreshWorkspace brings into a workspace, which is not LIVE, what its parent gained since.
pub fn refresh_workspace(
    alloc: Global,
    image: &Image,
    sessions: &[Session],
    moment: u64,
    session: &Session,
    name: &[u8],
) -> Result<Planned, Memory>
    requires rules { keep_rules (parts_of image.now) ≡ true }
    requires moment { moment < END }
    ensures does { IfOk result (λ p. DoesIt image.now sessions.now moment p (refresh_workspace session.now name.now)) }
    ensures idle { IfOk result Idles }
    // It makes no edits but those of a refresh.
    ensures nets { IfOk result (λ p. AreNets image.now (refresh_of name.now) p.edits.items) }
{
    let Some(space) = image.space_named(name) else {
        return Ok(Planned::answered(alloc, no_workspace(Name::copy_of(alloc, name)?)));
    };
    if space.number == 0 {
        return Ok(Planned::answered(alloc, no_parent(Name::copy_of(alloc, name)?)));
    }
    let parent = image.space(space.parent).unwrap();
    if is_quiet(space, parent) {
        let refusal = resolving_refusal(alloc, sessions, space)?;
        return Ok(Planned::answered(alloc, quiet_answer(refusal)));
    }
    refresh_pending(alloc, image, sessions, moment, session, space, parent)
}
