//! ResolveConflicts: decisions on conflicts.

ghost use Rattle.std.specs.Prelude.{◌≡◌, ◌++◌, ℕ, List, map, true, false, Some, IfOk, IfSome, OnOk};
ghost use Rattle.std.specs.List.{filter_map};
ghost use Rattle.std.specs.Option.{option_map, option_to_list};
ghost use Rattle.wm_syntax.specs.Views.{filter_view};
ghost use Rattle.wm_decided.specs.Deciding.{copied_on, decided_on, told_on};
ghost use Rattle.wm_decided.specs.Keys.{columns_of_keys};
ghost use Rattle.wm_graph.specs.Parts.{parts_of, table_of};
ghost use Rattle.wm_graph.specs.Rules.{keep_rules};
ghost use Rattle.wm_model.specs.Merged.{NamesFamily};
ghost use Rattle.wm_model.specs.Step.{has_open};
ghost use Rattle.wm_net.specs.Conflicts.{Sides};
ghost use Rattle.wm_net.specs.Listed.{IsJoined, Ordered};
ghost use Rattle.wm_net.specs.Nets.{one_stamp};
ghost use Rattle.wm_pending.specs.Clashes.{conflict_pair};
ghost use Rattle.wm_plan.specs.Idle.{Idles};
ghost use Rattle.wm_plan.specs.Planning.{DoesIt};
ghost use Rattle.wm_print.specs.Texts.{Answer as AnswerText};
ghost use Rattle.wm_resolve.specs.Deciding.{Decides, resolve_to, version_kept};
ghost use Rattle.wm_resolve.specs.Shown.{Shows};
ghost use Rattle.wm_resolve.specs.Telling.{TellSides, TellsList};
ghost use Rattle.wm_spec.specs.Lists.{Entry};
ghost use Rattle.wm_state.specs.State.{Session as SessionState, State};
ghost use Rattle.wm_telling.specs.Telling.{AreFamily};
ghost use Rattle.wm_typing.specs.Types.{is_filter_typed};

use crate::copying::copies_on;
use crate::meaning::meant;
use crate::opening::has_open;
use crate::restorable::are_staged;
use std::alloc::Global;
use wm_base::{Key, Memory, Name};
use wm_decided::Keep;
use wm_decided::decision::{Copied, Decision};
use wm_decided::keyed::columns_of_keys;
use wm_image::Image;
use wm_listing::Columns;
use wm_pending::clash::{Conflict, conflicts};
use wm_pending::own::own_pieces;
use wm_period::Pieces;
use wm_plan::answer::Answer;
use wm_plan::planned::Planned;
use wm_plan::refuse::{empty_period, no_resolve, no_workspace, not_built};
use wm_plan::seating::Seating;
use wm_plan::session::{Session, Setting};
use wm_spec::record::{Space, Table};
use wm_syntax::cond::Cond;
use wm_version_rows::laying;

/// A workspace with its parent, the table whose conflicts are decided, for which side, and which keys are meant: those
/// that meet a condition over these columns.
#[derive(Clone, Copy)]
struct Deciding<'a> {
    space: &'a Space,
    parent: &'a Space,
    table: &'a Table,
    keep: Keep,
    columns: &'a Columns,
    condition: &'a Option<Cond>,
}

/// What a version shows of a key of a table.
#[derive(Drop)]
struct Shown {
    key: Key,
    pieces: Pieces,
}

/// What a version shows of a key of a table. It is read where it is not the key of what was shown last.
fn shown_of(
    alloc: Global,
    image: &Image,
    version: u64,
    table: u16,
    key: &Key,
    last: Option<Shown>,
) -> Result<Shown, Memory>
    requires rules { keep_rules (parts_of image.now) ≡ true }
    requires last { IfSome last (Shows (parts_of image.now) version table) }
    ensures key { IfOk result (λ shown. shown.key ≡ key.now) }
    ensures shows { IfOk result (Shows (parts_of image.now) version table) }
{
    if let Some(shown) = last {
        if shown.key.equals(key) {
            return Ok(shown);
        }
    }
    let pieces = laying::shown(alloc, image, version, table, key)?;
    let key = key.copy(alloc)?;
    Ok(Shown { key, pieces })
}

/// What a version shows on a stretch of conflict of a table, where this was shown last.
fn copies_of(
    alloc: Global,
    image: &Image,
    version: u64,
    table: u16,
    conflict: &Conflict,
    last: &mut Option<Shown>,
) -> Result<Vec<Copied>, Memory>
    requires rules { keep_rules (parts_of image.now) ≡ true }
    requires last { IfSome last.old (Shows (parts_of image.now) version table) }
    ensures last { OnOk result (IfSome last.new (Shows (parts_of image.now) version table)) }
    ensures ordered { IfOk result (λ copies. Ordered 0 copies.items) }
    ensures joined { IfOk result (λ copies. IsJoined one_stamp copies.items) }
    ensures told { IfOk result (λ copies. (es : List Entry) → TellsList (parts_of image.now) version es → copies.items ≡ told_on es (conflict_pair table conflict.now).0 (conflict_pair table conflict.now).1) }
{
    let _till = conflict.period.till();
    let shown = shown_of(alloc, image, version, table, &conflict.key, last.take())?;
    let copies = copies_on(alloc, image, shown.pieces.list(), conflict.period);
    *last = Some(shown);
    copies
}

/// What is copied of a stretch of conflict, or None where it is passed over.
fn copied_on(
    alloc: Global,
    image: &Image,
    deciding: Deciding<'_>,
    conflict: &Conflict,
    last: &mut Option<Shown>,
) -> Result<Option<Vec<Copied>>, Memory>
    requires rules { keep_rules (parts_of image.now) ≡ true }
    requires last { IfSome last.old (Shows (parts_of image.now) (version_kept (parts_of image.now) deciding.keep deciding.space.now deciding.parent.now) deciding.table.now.number) }
    ensures last { OnOk result (IfSome last.new (Shows (parts_of image.now) (version_kept (parts_of image.now) deciding.entry.keep deciding.entry.space.now deciding.entry.parent.now) deciding.entry.table.now.number)) }
    ensures ordered { IfOk result (λ copied. IfSome copied (λ copies. Ordered 0 copies.items)) }
    ensures joined { IfOk result (λ copied. IfSome copied (λ copies. IsJoined one_stamp copies.items)) }
    ensures told { IfOk result (λ copied. (s : Sides) → TellSides (parts_of image.now) deciding.entry.space.now deciding.entry.parent.now s → option_map (λ copies. copies.items) copied ≡ copied_on deciding.entry.keep s (conflict_pair deciding.entry.table.now.number conflict.now)) }
{
    let Deciding { space, parent, .. } = deciding;
    let table = deciding.table.number;
    match deciding.keep {
        Keep::Child => Ok(Some(Vec::new(alloc))),
        Keep::Parent => {
            let version = image.latest(parent.number);
            Ok(Some(copies_of(alloc, image, version, table, conflict, last)?))
        }
        Keep::Base => {
            if conflict.stamps.base.is_none() {
                return Ok(None);
            }
            let version = space.base_version;
            Ok(Some(copies_of(alloc, image, version, table, conflict, last)?))
        }
    }
}

/// Puts the decision on a stretch of conflict, at the length of the parent's log, behind others, where it is not passed
/// over.
fn push_decision(
    alloc: Global,
    image: &Image,
    deciding: Deciding<'_>,
    conflict: &Conflict,
    last: &mut Option<Shown>,
    decisions: &mut Vec<Decision>,
) -> Result<(), Memory>
    requires rules { keep_rules (parts_of image.now) ≡ true }
    requires last { IfSome last.old (Shows (parts_of image.now) (version_kept (parts_of image.now) deciding.keep deciding.space.now deciding.parent.now) deciding.table.now.number) }
    ensures last { OnOk result (IfSome last.new (Shows (parts_of image.now) (version_kept (parts_of image.now) deciding.entry.keep deciding.entry.space.now deciding.entry.parent.now) deciding.entry.table.now.number)) }
    ensures made { OnOk result ((s : Sides) → TellSides (parts_of image.now) deciding.entry.space.now deciding.entry.parent.now s → decisions.new.items ≡ decisions.old.items ++ option_to_list (decided_on deciding.entry.keep s (conflict_pair deciding.entry.table.now.number conflict.now))) }
{
    let Some(copied) = copied_on(alloc, image, deciding, conflict, last)? else {
        return Ok(());
    };
    let key = conflict.key.copy(alloc)?;
    decisions.push(Decision::new(
        deciding.table.number,
        key,
        conflict.period,
        copied,
        deciding.parent.log_length,
    ))?;
    Ok(())
}

/// Decisions on stretches of conflict.
fn decisions_on(
    alloc: Global,
    image: &Image,
    deciding: Deciding<'_>,
    found: &[Conflict],
) -> Result<Vec<Decision>, Memory>
    requires rules { keep_rules (parts_of image.now) ≡ true }
    ensures { IfOk result (λ decisions. (s : Sides) → TellSides (parts_of image.now) deciding.entry.space.now deciding.entry.parent.now s → decisions.items ≡ filter_map (decided_on deciding.entry.keep s) (map (conflict_pair deciding.entry.table.now.number) found.now)) }
{
    let mut decisions = Vec::new(alloc);
    let mut last = None;
    for conflict in found {
        push_decision(alloc, image, deciding, conflict, &mut last, &mut decisions)?;
    }
    Ok(decisions)
}

/// The decisions come behind those that the session has made, where there are any.
fn decide(
    alloc: Global,
    image: &Image,
    session: &Session,
    decisions: Vec<Decision>,
) -> Result<Planned, Memory>
    requires rules { keep_rules (parts_of image.now) ≡ true }
    ensures does { IfOk result (λ p. (xs : List SessionState) (m : ℕ) (act : State → State × AnswerText) → Decides image.now xs m session.now decisions.items act → DoesIt image.now xs m p act) }
    ensures idle { IfOk result Idles }
{
    let list = decisions.as_slice();
    if list.is_empty() {
        return Ok(Planned::answered(alloc, Answer::Done(0)));
    }
    if !are_staged(image, list) {
        return Ok(Planned::answered(alloc, not_built()));
    }
    let count = list.len() as u64;
    let name = session.name().copy(alloc)?;
    let setting = Setting::Decide(decisions);
    Ok(Planned {
        edits: Vec::new(alloc),
        seating: Seating::Set { name, setting },
        answer: Answer::Done(count),
    })
}

/// Decides the conflicts of a workspace in a table whose keys are meant.
fn decide_on(
    alloc: Global,
    image: &Image,
    session: &Session,
    deciding: Deciding<'_>,
) -> Result<Planned, Memory>
    requires rules { keep_rules (parts_of image.now) ≡ true }
    requires family { AreFamily (parts_of image.now) deciding.space.now deciding.parent.now }
    requires there { table_of (parts_of image.now).tables deciding.table.now.number ≡ Some deciding.table.now }
    requires columns { deciding.columns.now ≡ columns_of_keys deciding.table.now }
    requires typed { is_filter_typed deciding.columns.now (filter_view deciding.condition.now) ≡ true }
    requires open { has_open deciding.space.now.number session.now ≡ true }
    ensures does { IfOk result (λ p. (xs : List SessionState) (m : ℕ) (workspace : List ℕ) → NamesFamily image.now workspace deciding.entry.space.now deciding.entry.parent.now → DoesIt image.now xs m p (resolve_to session.now workspace deciding.entry.table.now (filter_view deciding.entry.condition.now) deciding.entry.keep false)) }
    ensures idle { IfOk result Idles }
{
    let Deciding { space, parent, .. } = deciding;
    let own = own_pieces(alloc, image, space)?;
    let table = deciding.table.number;
    let found = conflicts(alloc, image, space, parent, own.as_slice(), table)?;
    let meant = meant(alloc, deciding.columns, deciding.condition, found)?;
    let decisions = decisions_on(alloc, image, deciding, meant.as_slice())?;
    decide(alloc, image, session, decisions)
}

/// What ResolveConflicts is asked: of which workspace, for which side, and whether a period in its condition is empty.
#[derive(Clone, Copy)]
pub struct Asked<'a> {
    pub workspace: &'a [u8],
    pub keep: Keep,
    pub condition: &'a Option<Cond>,
    pub empty: bool,
}

/// ResolveConflicts over a table that is ready for rows, with arguments and a condition in which nothing is wrong.
pub fn resolve_in(
    alloc: Global,
    image: &Image,
    session: &Session,
    table: &Table,
    asked: Asked<'_>,
) -> Result<Planned, Memory>
    requires rules { keep_rules (parts_of image.now) ≡ true }
    requires there { table_of (parts_of image.now).tables table.now.number ≡ Some table.now }
    requires typed { is_filter_typed (columns_of_keys table.now) (filter_view asked.condition.now) ≡ true }
    ensures does { IfOk result (λ p. (xs : List SessionState) (m : ℕ) → DoesIt image.now xs m p (resolve_to session.now asked.entry.workspace.now table.now (filter_view asked.entry.condition.now) asked.entry.keep asked.entry.empty)) }
    ensures idle { IfOk result Idles }
{
    let name = asked.workspace;
    let Some(space) = image.space_named(name) else {
        return Ok(Planned::answered(alloc, no_workspace(Name::copy_of(alloc, name)?)));
    };
    if asked.empty {
        return Ok(Planned::answered(alloc, empty_period()));
    }
    if !has_open(session, space) {
        return Ok(Planned::answered(alloc, no_resolve(space.name.copy(alloc)?)));
    }
    let parent = image.space(space.parent).unwrap();
    let columns = columns_of_keys(alloc, table)?;
    let deciding = Deciding {
        space,
        parent,
        table,
        keep: asked.keep,
        columns: &columns,
        condition: asked.condition,
    };
    decide_on(alloc, image, session, deciding)
}
