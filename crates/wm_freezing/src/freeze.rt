//! FreezeWorkspace.
ghost use Rattle.std.specs.Prelude.{◌≡◌, ◌==◌, ℕ, true, unwrap_or, IfOk};
ghost use Rattle.std.specs.List.{find};
ghost use Rattle.std.specs.Option.{option_copied, option_map_or};
ghost use Rattle.wm_calls.specs.Arguments.{argument};
ghost use Rattle.wm_calls.specs.Faults.{argument_fault};
ghost use Rattle.wm_grammar.specs.declared.procedure.Parameter.TheVariants as parameters;
ghost use Rattle.wm_grammar.specs.declared.procedure.Procedure.TheVariants as procedures;
ghost use Rattle.wm_graph.specs.Parts.{Parts, parts_of};
ghost use Rattle.wm_graph.specs.Rules.{is_short};
ghost use Rattle.wm_ground.specs.Grounds.{outline_on};
ghost use Rattle.wm_ground.specs.Outcomes.{outcome_view};
ghost use Rattle.wm_guard.specs.Access.{Free, hold_view, writer_of};
ghost use Rattle.wm_model.specs.Step.{first_fault, for_named, freeze_faults, freeze_plan, freezing, freezing_edits, freezing_seating, hold_worded, inside_fault, mode_word, no_workspace, outcome, space_named, spares_live, work_fault, writer_given};
ghost use Rattle.wm_outline.specs.Outline.{outline_by, outline_of};
ghost use Rattle.wm_print.specs.Texts.{Fine};
ghost use Rattle.wm_state.specs.State.{Session as SessionState};

use crate::hold::hold_of;
use std::alloc::Global;
use wm_base::{Memory, Name, Refusal};
use wm_calls::{argument, text_given};
use wm_grammar::{Parameter, Procedure};
use wm_ground::ground::Ground;
use wm_ground::outcome::{answered, done, refused, seated};
use wm_guard::access::Hold;
use wm_plan::given::{bytes_given, fault_of};
use wm_plan::names::is_name;
use wm_plan::planned::Planned;
use wm_plan::refuse::{
    already_frozen, bad_name, mistyped, no_workspace, reserved_name, session_inside,
};
use wm_plan::seating::Seating;
use wm_plan::session::{Session, Setting};
use wm_reader::capitals_of;
use wm_spec::record::Space;
use wm_state::edit::Edit;
use wm_syntax::constant::Const;
use wm_syntax::statement::{Arg, ArgValue};

// ---- what is asked for

/// The word of a mode that is given: NO_ACCESS where none is.
fn mode_word(given: Option<&ArgValue>) -> Option<&[u8]>
    ensures { option_copied result ≡ mode_word (option_copied given.entry) }
{
    match given {
        None | Some(ArgValue::Const(Const::Null)) => Some(b"NO_ACCESS"),
        Some(ArgValue::Const(Const::Text(word))) => Some(word.as_bytes()),
        _ => None,
    }
}

/// How a workspace is to be held, by the word of a mode.
fn hold_worded<'a>(word: &[u8], writer: &'a Name, session: &'a Name) -> Hold<'a>
    ensures { hold_view result ≡ hold_worded word.now writer.now session.now }
{
    if word.eq_ignore_ascii_case(b"NO_ACCESS") {
        Hold::NoAccess
    } else if word.eq_ignore_ascii_case(b"READ_ONLY") {
        Hold::ReadOnly
    } else if word.eq_ignore_ascii_case(b"1WRITER") {
        Hold::OneWriter(writer)
    } else if word.eq_ignore_ascii_case(b"1WRITER_SESSION") {
        Hold::OneSession(session)
    } else if word.eq_ignore_ascii_case(b"WM_ONLY") {
        Hold::WmOnly
    } else {
        Hold::Free
    }
}

/// The one who may write, where one is given.
fn writer_given(alloc: Global, args: &[Arg]) -> Result<Option<Name>, Memory>
    ensures { IfOk result (λ writer. writer ≡ writer_given args.now) }
{
    match text_given(Procedure::FreezeWorkspace, args, Parameter::FreezeWriter) {
        Some(user) => Ok(Some(capitals_of(alloc, user.as_bytes())?)),
        None => Ok(None),
    }
}

/// The user who may write where it is so held: the one who is given, or else the session's own.
fn writer_or<'a>(given: &'a Option<Name>, own: &'a Name) -> &'a Name
    ensures { result.now ≡ unwrap_or given.now own.now }
{
    match given {
        Some(user) => user,
        None => own,
    }
}

/// How it is to be held, with this writer.
fn hold_given<'a>(session: &'a Session, writer: &'a Name, args: &[Arg]) -> Hold<'a>
    ensures { hold_view result ≡ option_map_or (λ word. hold_worded word writer.now session.now.name) (mode_word (argument procedures.FreezeWorkspace args.now parameters.FreezeMode)) Free }
{
    let given = argument(Procedure::FreezeWorkspace, args, Parameter::FreezeMode);
    match mode_word(given) {
        Some(word) => hold_worded(word, writer, session.name()),
        None => Hold::Free,
    }
}

// ---- what is wrong

/// Whether LIVE may not be held so.
fn spares_live(name: &[u8], hold: Hold<'_>) -> bool
    ensures { result ≡ spares_live name.now (hold_view hold.entry) }
{
    name == b"LIVE".as_slice() && !(hold.suits_live() || hold.is_free())
}

/// What is wrong with what it is given: the one who may write is no name, LIVE is not held so, or an argument does not fit.
fn given_fault(
    alloc: Global,
    name: &[u8],
    writer: &Option<Name>,
    hold: Hold<'_>,
    args: &[Arg],
) -> Result<Option<Refusal>, Memory>
    ensures { IfOk result (λ fault. fault ≡ first_fault (freeze_faults name.now writer.now (hold_view hold.entry) (argument_fault procedures.FreezeWorkspace args.now))) }
{
    if let Some(user) = writer {
        if !is_name(user.as_bytes()) {
            return Ok(bad_name().into_refusal());
        }
    }
    if spares_live(name, hold) {
        return Ok(reserved_name(Name::copy_of(alloc, name)?).into_refusal());
    }
    match fault_of(alloc, Procedure::FreezeWorkspace, args)? {
        Some(parameter) => Ok(mistyped(parameter).into_refusal()),
        None => Ok(None),
    }
}

/// The first session, in the order of CONNECT, that stands in a workspace.
fn first_inside(sessions: &[Session], space: u32) -> Option<&Session>
    ensures { option_copied result ≡ find (λ (x : SessionState). x.space == space) sessions.now }
{
    for session in sessions {
        if session.space() == space {
            return Some(session);
        }
    }
    None
}

/// That a session stands in a workspace that nobody is to enter.
fn inside_fault(
    alloc: Global,
    sessions: &[Session],
    hold: Hold<'_>,
    space: &Space,
) -> Result<Option<Refusal>, Memory>
    ensures { IfOk result (λ fault. (p : Parts) (moment : ℕ) → fault ≡ inside_fault (hold_view hold.entry) (outline_of p sessions.now moment) (outline_by p space.now)) }
{
    if let Hold::NoAccess = hold {
        if let Some(session) = first_inside(sessions, space.number) {
            let name = space.name.copy(alloc)?;
            return Ok(session_inside(name, session.name().copy(alloc)?).into_refusal());
        }
    }
    Ok(None)
}

/// That the work is at its end, where the store keeps how the workspace is held.
fn work_fault(alloc: Global, ground: Ground<'_>, hold: Hold<'_>) -> Result<Option<Refusal>, Memory>
    ensures { IfOk result (λ fault. fault ≡ work_fault (hold_view hold.entry) (outline_on ground.entry)) }
{
    match hold {
        Hold::OneSession(_) => Ok(None),
        _ => ground.spent_refusal(alloc),
    }
}

/// What the freeze of a workspace is refused for, in the order of the rows.
fn freezing_fault(
    alloc: Global,
    ground: Ground<'_>,
    hold: Hold<'_>,
    space: &Space,
) -> Result<Option<Refusal>, Memory>
    ensures { IfOk result (λ fault. fault ≡ first_fault (freezing (hold_view hold.entry) (outline_on ground.entry) (outline_by (parts_of ground.entry.image.now) space.now)).faults) }
{
    if !hold_of(ground.sessions, space).is_free() {
        return Ok(already_frozen(space.name.copy(alloc)?).into_refusal());
    }
    if let Some(refusal) = inside_fault(alloc, ground.sessions, hold, space)? {
        return Ok(Some(refusal));
    }
    work_fault(alloc, ground, hold)
}

// ---- what is done

/// The one who may write, or no name.
fn writer_of(alloc: Global, hold: Hold<'_>) -> Result<Name, Memory>
    ensures { IfOk result (λ writer. writer ≡ writer_of (hold_view hold.entry)) }
{
    match hold.writer() {
        Some(user) => user.copy(alloc),
        None => Ok(Name::from_vec(Vec::new(alloc))),
    }
}

/// The workspace is held so from now on: by the session, or as its record says.
fn held(alloc: Global, hold: Hold<'_>, space: u32) -> Result<Planned, Memory>
    ensures { IfOk result (λ p. outcome_view p ≡ record { edits = freezing_edits (hold_view hold.entry) space; seating = freezing_seating (hold_view hold.entry) space; answer = Fine }) }
{
    match hold {
        Hold::OneSession(session) => {
            let name = session.copy(alloc)?;
            let setting = Setting::Freeze(space);
            Ok(seated(alloc, Seating::Set { name, setting }))
        }
        _ => {
            let writer = writer_of(alloc, hold)?;
            let mode = hold.mode();
            done(
                alloc,
                Edit::Freeze {
                    space,
                    mode,
                    writer,
                },
            )
        }
    }
}

/// The freeze of a workspace that is there.
fn freeze(
    alloc: Global,
    ground: Ground<'_>,
    hold: Hold<'_>,
    space: &Space,
) -> Result<Planned, Memory>
    ensures { IfOk result (λ p. outcome_view p ≡ outcome (freezing (hold_view hold.entry) (outline_on ground.entry) (outline_by (parts_of ground.entry.image.now) space.now))) }
{
    match freezing_fault(alloc, ground, hold, space)? {
        Some(refusal) => Ok(refused(alloc, refusal)),
        None => held(alloc, hold, space.number),
    }
}

/// The freeze of the workspace of a name.
fn freeze_named(
    alloc: Global,
    ground: Ground<'_>,
    hold: Hold<'_>,
    name: &[u8],
) -> Result<Planned, Memory>
    ensures { IfOk result (λ p. outcome_view p ≡ outcome (for_named (no_workspace name.now) (freezing (hold_view hold.entry) (outline_on ground.entry)) (space_named name.now (outline_on ground.entry)))) }
{
    match ground.space_named(name) {
        Some(space) => freeze(alloc, ground, hold, space),
        None => Ok(answered(alloc, no_workspace(Name::copy_of(alloc, name)?))),
    }
}

/// FreezeWorkspace keeps hands off a workspace.
pub fn freeze_plan(
    alloc: Global,
    ground: Ground<'_>,
    session: &Session,
    args: &[Arg],
) -> Result<Planned, Memory>
    ensures does { IfOk result (λ p. outcome_view p ≡ outcome (freeze_plan session.now args.now (outline_on ground.entry))) }
    // A record has room for the user.
    ensures short { is_short session.now.user ≡ true }
{
    let own = session.user();
    let given = writer_given(alloc, args)?;
    let hold = hold_given(session, writer_or(&given, own), args);
    let name = bytes_given(Procedure::FreezeWorkspace, args, Parameter::Workspace, b"");
    match given_fault(alloc, name, &given, hold, args)? {
        Some(refusal) => Ok(refused(alloc, refusal)),
        None => freeze_named(alloc, ground, hold, name),
    }
}
