//! MergeWorkspace.

ghost use Rattle.std.specs.Prelude.{◌≡◌, ◌<◌, ◌⊎◌, ◌++◌, ◌&&◌, nat_lt, ℕ, List, [], map, true, false, IfOk, OnOk};
ghost use Rattle.std.specs.Option.{option_map};
ghost use Rattle.wm_base.specs.declared.instant.TheConstants.{END};
ghost use Rattle.wm_graph.specs.Parts.{parts_of};
ghost use Rattle.wm_graph.specs.Rules.{keep_rules};
ghost use Rattle.wm_merge.specs.Views.{asked_view, clashed};
ghost use Rattle.wm_model.specs.Merged.{Merges, NamesFamily, after_edits, freeing, is_even_at, is_idle_at, longer_log_at, makings_of, merge_edits, merging_refusal, rebase_edits};
ghost use Rattle.wm_model.specs.Step.{counter_limit, merge_workspace};
ghost use Rattle.wm_plan.specs.Idle.{Idles};
ghost use Rattle.wm_plan.specs.Planning.{DoesIt};
ghost use Rattle.wm_plan.specs.Views.{seating_view};
ghost use Rattle.wm_spending.specs.Nets.{AreNets, merge_of};
ghost use Rattle.wm_state.specs.Editing.{entry_of};
ghost use Rattle.wm_state.specs.State.{Session as SessionState};
ghost use Rattle.wm_telling.specs.Telling.{AreFamily};

use crate::conflict::{clash_refusal, rebase_refusal};
use crate::leaving::{keeping_refusal, leaving_refusal, naming_refusal};
use crate::locks::{lock_refusal, push_unlock};
use crate::ready::can_merge;
use crate::refreshing::{done, is_quiet, push_gain};
use std::alloc::Global;
use wm_base::{Memory, Name, Refusal};
use wm_image::Image;
use wm_locks::makings::makings_of;
use wm_pending::clash::{Clash, first_clash};
use wm_pending::gained::gained;
use wm_pending::net::net_own;
use wm_pending::own::own_pieces;
use wm_plan::answer::Answer;
use wm_plan::planned::Planned;
use wm_plan::refuse::{no_parent, no_workspace, not_built};
use wm_plan::resolving::resolving_refusal;
use wm_plan::seating::Seating;
use wm_plan::session::Session;
use wm_plan::work::{is_long, is_spent};
use wm_space::ending::ended;
use wm_spec::record::Space;
use wm_state::edit::{Edit, Entries, NewEntry};

/// What a merge is asked to do besides: to keep the parent in an implicit savepoint first, and to remove the workspace
/// behind it.
#[derive(Clone, Copy)]
pub struct Asked {
    pub keeps: bool,
    pub removes: bool,
}

/// A workspace and its parent.
#[derive(Clone, Copy)]
struct Family<'a> {
    space: &'a Space,
    parent: &'a Space,
}

/// Who merges which workspace, and what is asked for besides.
#[derive(Clone, Copy)]
struct Merge<'a> {
    session: &'a Session,
    family: Family<'a>,
    asked: Asked,
}

/// The entries of a merge: what comes into the parent, and what the log of the workspace gains.
#[derive(Drop)]
struct Brought {
    own: Vec<NewEntry>,
    gained: Vec<NewEntry>,
}

/// Whether nothing is to be merged, and nothing is pending.
fn is_even(family: Family<'_>, own: &[NewEntry]) -> bool
    ensures { result ≡ is_even_at family.entry.space.now family.entry.parent.now (map entry_of own.now) }
{
    own.is_empty() && is_quiet(family.space, family.parent)
}

/// Whether there is nothing to do, where these locks would go.
fn is_idle(even: bool, asked: Asked, makings: &[u64]) -> bool
    ensures { result ≡ is_idle_at (asked_view asked) even makings.now }
{
    even && (makings.is_empty() && !(asked.keeps || asked.removes))
}

/// Whether the log of the parent or that of the workspace would be longer than a log may be.
fn are_long(family: Family<'_>, brought: &Brought) -> bool
    ensures { result ≡ nat_lt counter_limit (longer_log_at family.entry.space.now family.entry.parent.now (map entry_of brought.now.own.items) (map entry_of brought.now.gained.items)) }
{
    is_long(family.parent.log_length, brought.own.as_slice())
        || is_long(family.space.log_length, brought.gained.as_slice())
}

/// What a merge is refused for.
fn merging_refusal(
    alloc: Global,
    image: &Image,
    sessions: &[Session],
    merge: Merge<'_>,
    found: Option<Clash>,
    own: &[NewEntry],
) -> Result<Option<Refusal>, Memory>
    requires rules { keep_rules (parts_of image.now) ≡ true }
    ensures { IfOk result (λ fault. fault ≡ merging_refusal merge.entry.session.now (asked_view merge.entry.asked) (parts_of image.now) sessions.now merge.entry.family.space.now merge.entry.family.parent.now (option_map clashed found) (map entry_of own.now)) }
{
    let Merge {
        session,
        family,
        asked,
    } = merge;
    if let Some(refusal) = naming_refusal(alloc, image, family.parent, asked.keeps)? {
        return Ok(Some(refusal));
    }
    if let Some(refusal) = leaving_refusal(alloc, image, sessions, family.space, asked.removes)? {
        return Ok(Some(refusal));
    }
    if let Some(refusal) = resolving_refusal(alloc, sessions, family.space)? {
        return Ok(Some(refusal));
    }
    if let Some(refusal) = clash_refusal(alloc, image, found)? {
        return Ok(Some(refusal));
    }
    if let Some(refusal) = lock_refusal(alloc, image, session, family.space, family.parent, own)? {
        return Ok(Some(refusal));
    }
    if let Some(refusal) = keeping_refusal(alloc, image, family.parent, asked.keeps)? {
        return Ok(Some(refusal));
    }
    if is_even(family, own) {
        return Ok(None);
    }
    rebase_refusal(alloc, family.space)
}

/// Puts the edits by which a workspace stands on its parent behind others, unless nothing was merged or pending.
fn push_rebase(
    edits: &mut Vec<Edit>,
    space: u32,
    even: bool,
    gained: Vec<NewEntry>,
) -> Result<(), Memory>
    ensures { OnOk result (edits.new.items ≡ edits.old.items ++ rebase_edits even space gained.items) }
{
    if even {
        return Ok(());
    }
    edits.push(Edit::Rebase {
        space,
        emptied: true,
    })?;
    push_gain(edits, space, gained)
}

/// Puts the edits by which a workspace goes, or stands on its parent without its locks, behind others.
fn push_after(
    edits: &mut Vec<Edit>,
    space: u32,
    removes: bool,
    even: bool,
    gained: Vec<NewEntry>,
    makings: Vec<u64>,
) -> Result<(), Memory>
    ensures { OnOk result (edits.new.items ≡ edits.old.items ++ after_edits removes even space gained.items makings.items) }
{
    if removes {
        edits.push(Edit::Remove { space })?;
        return Ok(());
    }
    push_rebase(edits, space, even, gained)?;
    push_unlock(edits, makings)
}

/// The edits of a merge.
fn merge_edits(
    alloc: Global,
    family: Family<'_>,
    asked: Asked,
    even: bool,
    brought: Brought,
    makings: Vec<u64>,
) -> Result<Vec<Edit>, Memory>
    ensures { IfOk result (λ edits. edits.items ≡ merge_edits (asked_view asked) even family.entry.space.now.number family.entry.parent.now.number brought.own.items brought.gained.items makings.items) }
{
    let Brought { own, gained } = brought;
    let parent = family.parent.number;
    let mut edits = Vec::new(alloc);
    if asked.keeps {
        edits.push(Edit::Keep { space: parent })?;
    }
    if !own.is_empty() {
        edits.push(Edit::Replay {
            space: parent,
            entries: Entries::from_vec(own),
        })?;
    }
    let space = family.space.number;
    push_after(&mut edits, space, asked.removes, even, gained, makings)?;
    Ok(edits)
}

/// What becomes of the sessions by a merge: where it removes the workspace, none holds that any more.
fn freeing(asked: Asked, space: &Space) -> Seating
    ensures { seating_view result ≡ freeing (asked_view asked) space.now.number }
{
    if asked.removes {
        Seating::Thaw(space.number)
    } else {
        Seating::Stay
    }
}

/// A workspace for which nothing refuses it is merged, unless a counter is at its end.
fn merge_with(
    alloc: Global,
    image: &Image,
    moment: u64,
    family: Family<'_>,
    asked: Asked,
    brought: Brought,
) -> Result<Planned, Memory>
    requires rules { keep_rules (parts_of image.now) ≡ true }
    requires moment { moment < END }
    ensures does { IfOk result (λ p. (xs : List SessionState) (session : SessionState) (workspace : List ℕ) → Merges image.now moment xs session (asked_view asked) workspace family.entry.space.now family.entry.parent.now (map entry_of brought.own.items) (map entry_of brought.gained.items) → DoesIt image.now xs moment p (merge_workspace session (asked_view asked) workspace)) }
    ensures idle { IfOk result Idles }
    ensures edits { IfOk result (λ p. (p.edits.items ≡ []) ⊎ (p.edits.items ≡ merge_edits (asked_view asked) (is_even_at family.entry.space.now family.entry.parent.now (map entry_of brought.own.items)) family.entry.space.now.number family.entry.parent.now.number brought.own.items brought.gained.items (makings_of family.entry.space.now.number (parts_of image.now).locks))) }
{
    let even = is_even(family, brought.own.as_slice());
    let makings = makings_of(alloc, image, family.space.number)?;
    if is_idle(even, asked, makings.as_slice()) {
        return Ok(Planned::answered(alloc, Answer::Fine));
    }
    if are_long(family, &brought) {
        return ended(alloc, b"LOG");
    }
    if is_spent(&image.counters()) {
        return ended(alloc, b"WORK");
    }
    let (own, gained) = (brought.own.as_slice(), brought.gained.as_slice());
    if !can_merge(image, family.space, own, gained) {
        return Ok(Planned::answered(alloc, not_built()));
    }
    image.law_of_order();
    let edits = merge_edits(alloc, family, asked, even, brought, makings)?;
    Ok(done(edits, freeing(asked, family.space)))
}

/// A workspace that is not LIVE is merged into its parent.
fn merge_into(
    alloc: Global,
    image: &Image,
    sessions: &[Session],
    moment: u64,
    merge: Merge<'_>,
) -> Result<Planned, Memory>
    requires rules { keep_rules (parts_of image.now) ≡ true }
    requires moment { moment < END }
    requires family { AreFamily (parts_of image.now) merge.family.space.now merge.family.parent.now }
    ensures does { IfOk result (λ p. (workspace : List ℕ) → NamesFamily image.now workspace merge.entry.family.space.now merge.entry.family.parent.now → DoesIt image.now sessions.now moment p (merge_workspace merge.entry.session.now (asked_view merge.entry.asked) workspace)) }
    ensures idle { IfOk result Idles }
    ensures nets { merge.entry.asked.removes ≡ false → IfOk result (λ p. (workspace : List ℕ) → NamesFamily image.now workspace merge.entry.family.space.now merge.entry.family.parent.now → AreNets image.now (merge_of workspace) p.edits.items) }
{
    let Merge {
        session,
        family,
        asked,
    } = merge;
    let Family { space, parent } = family;
    let user = session.user();
    let pieces = own_pieces(alloc, image, space)?;
    let own = net_own(alloc, image, space, pieces.as_slice(), moment, user)?;
    let found = first_clash(alloc, image, space, parent, pieces.as_slice())?;
    if let Some(refusal) = merging_refusal(alloc, image, sessions, merge, found, own.as_slice())? {
        return Ok(Planned::answered(alloc, Answer::Refused(refusal)));
    }
    let gained = gained(alloc, image, space, parent, pieces.as_slice(), moment, user)?;
    merge_with(alloc, image, moment, family, asked, Brought { own, gained })
}

/// MergeWorkspace brings what a workspace, which is not LIVE, has of its own into its parent.
pub fn merge_workspace(
    alloc: Global,
    image: &Image,
    sessions: &[Session],
    moment: u64,
    session: &Session,
    asked: Asked,
    name: &[u8],
) -> Result<Planned, Memory>
    requires rules { keep_rules (parts_of image.now) ≡ true }
    requires moment { moment < END }
    ensures does { IfOk result (λ p. DoesIt image.now sessions.now moment p (merge_workspace session.now (asked_view asked) name.now)) }
    ensures idle { IfOk result Idles }
    // Where it does not remove the workspace it makes no edits but those of a merge of it.
    ensures nets { asked.removes ≡ false → IfOk result (λ p. AreNets image.now (merge_of name.now) p.edits.items) }
{
    let Some(space) = image.space_named(name) else {
        return Ok(Planned::answered(alloc, no_workspace(Name::copy_of(alloc, name)?)));
    };
    if space.number == 0 {
        return Ok(Planned::answered(alloc, no_parent(Name::copy_of(alloc, name)?)));
    }
    let parent = image.space(space.parent).unwrap();
    let merge = Merge {
        session,
        family: Family { space, parent },
        asked,
    };
    merge_into(alloc, image, sessions, moment, merge)
}
