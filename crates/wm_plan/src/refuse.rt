//! The refusals of lines.
ghost use Rattle.std.specs.Prelude.{◌≡◌, IfOk};
ghost use Rattle.wm_plan.specs.Views.{answer_view};
ghost use Rattle.wm_model.specs.Step.{already_frozen, at_its_end, bad_literal, bad_name, change_limit, date_before, dependent_child, empty_period, frozen, has_child, in_conflict, key_there, locked, long_name, miscounted, mistyped, moment_back, most_rows, most_savepoints, most_sessions, most_tables, most_workspaces, no_history, no_key, no_parent, no_resolve, no_savepoint, no_session, no_table, no_workspace, no_text, not_built, not_frozen, not_latest, out_of_range, rebased_since, reserved_name, resolve_open, savepoint_there, session_inside, session_there, syntax, table_there, too_long_line, versioning, workspace_there};

use crate::answer::Answer;
use std::alloc::Global;
use wm_base::{
    CellRefusal, FormRefusal, Instant, Key, LimitRefusal, Memory, Name, Period, Refusal,
    SpaceRefusal,
};

/// That the line is not built yet.
pub fn not_built() -> Answer
    ensures { answer_view result ≡ not_built }
{
    Answer::Refused(Refusal::Limit(LimitRefusal::Wm099))
}

/// That the line has more bytes than a line may have.
pub fn too_long_line() -> Answer
    ensures { answer_view result ≡ too_long_line }
{
    Answer::Refused(Refusal::Form(FormRefusal::Wm001))
}

/// That the line is no text.
pub fn no_text() -> Answer
    ensures { answer_view result ≡ no_text }
{
    Answer::Refused(Refusal::Form(FormRefusal::Wm002))
}

/// That a literal at this column is out of range.
pub fn bad_literal(column: u32) -> Answer
    ensures { answer_view result ≡ bad_literal column }
{
    Answer::Refused(Refusal::Cell(CellRefusal::Wm065(column)))
}

/// That no line goes on so at this column, from 1 on.
pub fn syntax(column: u32) -> Answer
    ensures { answer_view result ≡ syntax column }
{
    Answer::Refused(Refusal::Form(FormRefusal::Wm003(column)))
}

/// That no session of this name is open.
pub fn no_session(name: Name) -> Answer
    ensures { answer_view result ≡ no_session name }
{
    Answer::Refused(Refusal::Form(FormRefusal::Wm004(name)))
}

/// That a session of this name is open.
pub fn session_there(name: Name) -> Answer
    ensures { answer_view result ≡ session_there name }
{
    Answer::Refused(Refusal::Form(FormRefusal::Wm005(name)))
}

/// That there is no table of this name.
pub fn no_table(name: Name) -> Answer
    ensures { answer_view result ≡ no_table name }
{
    Answer::Refused(Refusal::Form(FormRefusal::Wm010(name)))
}

/// That there is a table of this name.
pub fn table_there(name: Name) -> Answer
    ensures { answer_view result ≡ table_there name }
{
    Answer::Refused(Refusal::Form(FormRefusal::Wm011(name)))
}

/// That an argument of a call does not fit its parameter, or is missing.
pub fn mistyped(parameter: Name) -> Answer
    ensures { answer_view result ≡ mistyped parameter }
{
    Answer::Refused(Refusal::Form(FormRefusal::Wm013(parameter)))
}

/// That a table of such a name has no views.
pub fn long_name() -> Answer
    ensures { answer_view result ≡ long_name }
{
    Answer::Refused(Refusal::Form(FormRefusal::Wm016(25)))
}

/// That a number is out of range.
pub fn out_of_range() -> Answer
    ensures { answer_view result ≡ out_of_range }
{
    Answer::Refused(Refusal::Cell(CellRefusal::Wm064))
}

/// That an answer has more rows than it may.
pub fn most_rows() -> Answer
    ensures { answer_view result ≡ most_rows }
{
    Answer::Refused(Refusal::Limit(LimitRefusal::Wm074))
}

/// That the table has no key.
pub fn no_key(name: Name) -> Answer
    ensures { answer_view result ≡ no_key name }
{
    Answer::Refused(Refusal::Form(FormRefusal::Wm015(name)))
}

/// That a name to be made is not of 1 to 30 plain bytes.
pub fn bad_name() -> Answer
    ensures { answer_view result ≡ bad_name }
{
    Answer::Refused(Refusal::Form(FormRefusal::Wm016(30)))
}

/// That the table is ready for rows, or that it is not.
pub fn versioning(name: Name, on: bool) -> Answer
    ensures { answer_view result ≡ versioning name on }
{
    Answer::Refused(Refusal::Form(FormRefusal::Wm019(name, on)))
}

/// That the table of this name keeps no history.
pub fn no_history(name: Name) -> Answer
    ensures { answer_view result ≡ no_history name }
{
    Answer::Refused(Refusal::Form(FormRefusal::Wm018(name)))
}

/// That there is no workspace of this name.
pub fn no_workspace(name: Name) -> Answer
    ensures { answer_view result ≡ no_workspace name }
{
    Answer::Refused(Refusal::Space(SpaceRefusal::Wm020(name)))
}

/// That there is a workspace of this name.
pub fn workspace_there(name: Name) -> Answer
    ensures { answer_view result ≡ workspace_there name }
{
    Answer::Refused(Refusal::Space(SpaceRefusal::Wm021(name)))
}

/// That so many arguments are asked for.
pub fn miscounted(count: u64) -> Answer
    ensures { answer_view result ≡ miscounted count }
{
    Answer::Refused(Refusal::Form(FormRefusal::Wm014(count)))
}

/// That the workspace has no savepoint of this name.
pub fn no_savepoint(name: Name) -> Answer
    ensures { answer_view result ≡ no_savepoint name }
{
    Answer::Refused(Refusal::Space(SpaceRefusal::Wm022(name)))
}

/// That the workspace has a savepoint of this name.
pub fn savepoint_there(name: Name) -> Answer
    ensures { answer_view result ≡ savepoint_there name }
{
    Answer::Refused(Refusal::Space(SpaceRefusal::Wm023(name)))
}

/// That the name is reserved.
pub fn reserved_name(name: Name) -> Answer
    ensures { answer_view result ≡ reserved_name name }
{
    Answer::Refused(Refusal::Space(SpaceRefusal::Wm024(name)))
}

/// That the workspace, which is LIVE, has no parent.
pub fn no_parent(name: Name) -> Answer
    ensures { answer_view result ≡ no_parent name }
{
    Answer::Refused(Refusal::Space(SpaceRefusal::Wm025(name)))
}

/// That a workspace is frozen, by the word of the mode in which it is.
pub fn frozen(workspace: Name, mode: Name) -> Answer
    ensures { answer_view result ≡ frozen workspace mode }
{
    Answer::Refused(Refusal::Space(SpaceRefusal::Wm040(workspace, mode)))
}

/// That a workspace is frozen already.
pub fn already_frozen(workspace: Name) -> Answer
    ensures { answer_view result ≡ already_frozen workspace }
{
    Answer::Refused(Refusal::Space(SpaceRefusal::Wm041(workspace)))
}

/// That a workspace is not frozen.
pub fn not_frozen(workspace: Name) -> Answer
    ensures { answer_view result ≡ not_frozen workspace }
{
    Answer::Refused(Refusal::Space(SpaceRefusal::Wm042(workspace)))
}

/// That a session stands where what it sees would go: in the workspace, or at a savepoint of it.
pub fn session_inside(workspace: Name, session: Name) -> Answer
    ensures { answer_view result ≡ session_inside workspace session }
{
    Answer::Refused(Refusal::Space(SpaceRefusal::Wm043(workspace, session)))
}

/// That the workspace has a child.
pub fn has_child(workspace: Name, child: Name) -> Answer
    ensures { answer_view result ≡ has_child workspace child }
{
    Answer::Refused(Refusal::Space(SpaceRefusal::Wm044(workspace, child)))
}

/// That a child took of its parent what would go.
pub fn dependent_child(child: Name) -> Answer
    ensures { answer_view result ≡ dependent_child child }
{
    Answer::Refused(Refusal::Space(SpaceRefusal::Wm045(child)))
}

/// That the workspace was rebased behind a savepoint.
pub fn rebased_since(savepoint: Name) -> Answer
    ensures { answer_view result ≡ rebased_since savepoint }
{
    Answer::Refused(Refusal::Space(SpaceRefusal::Wm046(savepoint)))
}

/// That the session does not stand at what is newest.
pub fn not_latest() -> Answer
    ensures { answer_view result ≡ not_latest }
{
    Answer::Refused(Refusal::Space(SpaceRefusal::Wm030))
}

/// That a date is before the birth of the workspace.
pub fn date_before(workspace: Name, birth: Instant) -> Answer
    ensures { answer_view result ≡ date_before workspace birth }
{
    Answer::Refused(Refusal::Space(SpaceRefusal::Wm032(workspace, birth)))
}

/// That the moment is later than one that is to be set.
pub fn moment_back(moment: Instant) -> Answer
    ensures { answer_view result ≡ moment_back moment }
{
    Answer::Refused(Refusal::Space(SpaceRefusal::Wm031(moment)))
}

/// That a row of the key stands, in a table with valid time in this period.
pub fn key_there(key: Key, period: Option<Period>) -> Answer
    ensures { answer_view result ≡ key_there key period }
{
    Answer::Refused(Refusal::Cell(CellRefusal::Wm060(key, period)))
}

/// That a workspace and its parent both changed a key of a table, in a table with valid time in this period.
pub fn in_conflict(table: Name, key: Key, period: Option<Period>) -> Answer
    ensures { answer_view result ≡ in_conflict table key period }
{
    Answer::Refused(Refusal::Cell(CellRefusal::Wm051(table, key, period)))
}

/// That a lock of a workspace, by its user and the word of its mode, bars a change of a key, in a table with valid time in
/// this period.
pub fn locked(workspace: Name, user: Name, mode: Name, key: Key, period: Option<Period>) -> Answer
    ensures { answer_view result ≡ locked workspace user mode key period }
{
    Answer::Refused(Refusal::Cell(CellRefusal::Wm050(workspace, user, mode, key, period)))
}

/// That a session has a resolve of the workspace open.
pub fn resolve_open(workspace: Name, session: Name) -> Answer
    ensures { answer_view result ≡ resolve_open workspace session }
{
    Answer::Refused(Refusal::Cell(CellRefusal::Wm052(workspace, session)))
}

/// That the session has no resolve of the workspace open.
pub fn no_resolve(workspace: Name) -> Answer
    ensures { answer_view result ≡ no_resolve workspace }
{
    Answer::Refused(Refusal::Cell(CellRefusal::Wm053(workspace)))
}

/// That a period has no moment.
pub fn empty_period() -> Answer
    ensures { answer_view result ≡ empty_period }
{
    Answer::Refused(Refusal::Space(SpaceRefusal::Wm033))
}

/// That the store takes no more changes.
pub fn change_limit(limit: u32) -> Answer
    ensures { answer_view result ≡ change_limit limit }
{
    Answer::Refused(Refusal::Limit(LimitRefusal::Wm070(limit as u64)))
}

/// That there is no room for another workspace.
pub fn most_workspaces() -> Answer
    ensures { answer_view result ≡ most_workspaces }
{
    Answer::Refused(Refusal::Limit(LimitRefusal::Wm071))
}

/// That there is no room for another savepoint in the workspace.
pub fn most_savepoints() -> Answer
    ensures { answer_view result ≡ most_savepoints }
{
    Answer::Refused(Refusal::Limit(LimitRefusal::Wm072))
}

/// That there is no room for another table.
pub fn most_tables() -> Answer
    ensures { answer_view result ≡ most_tables }
{
    Answer::Refused(Refusal::Limit(LimitRefusal::Wm073))
}

/// That there is no room for another session.
pub fn most_sessions() -> Answer
    ensures { answer_view result ≡ most_sessions }
{
    Answer::Refused(Refusal::Limit(LimitRefusal::Wm075))
}

/// That a counter is at its end.
pub fn at_its_end(alloc: Global, counter: &[u8]) -> Result<Answer, Memory>
    ensures { IfOk result (λ answer. answer_view answer ≡ at_its_end counter.now) }
{
    let counter = Name::copy_of(alloc, counter)?;
    Ok(Answer::Refused(Refusal::Limit(LimitRefusal::Wm076(counter))))
}
