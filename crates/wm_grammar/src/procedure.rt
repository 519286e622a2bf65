ghost use Rattle.std.specs.Prelude.{◌≡◌};
ghost use Rattle.wm_grammar.specs.Calls.{procedure_of, procedure_of2, procedure_of3, parameter_of, parameter_of2, parameter_of3, parameters_of, takes_names, is_same};

use crate::words::is_word;

/// A procedure of DBMS_WM.
#[derive(Clone, Copy, Debug, PartialEq, Eq)]
pub enum Procedure {
    EnableVersioning,
    CreateWorkspace,
    CreateSavepoint,
    GotoWorkspace,
    RefreshWorkspace,
    RemoveWorkspace,
    UnfreezeWorkspace,
    SetConflictWorkspace,
    BeginResolve,
    CommitResolve,
    RollbackResolve,
    GotoSavepoint,
    GotoDate,
    RollbackToSp,
    MergeWorkspace,
    FreezeWorkspace,
    SetLockingOn,
    SetLockingOff,
    LockRows,
    UnlockRows,
    ResolveConflicts,
    SetDiffVersions,
    SetValidTime,
}

/// A parameter of a procedure.
#[derive(Clone, Copy, Debug, PartialEq, Eq)]
pub enum Parameter {
    TableName,
    Hist,
    IsTopology,
    ValidTime,
    Workspace,
    IsRefreshed,
    Description,
    SavepointName,
    InDate,
    CreateSavepoint,
    RemoveWorkspace,
    FreezeMode,
    FreezeWriter,
    LockMode,
    WhereClause,
    RowLockMode,
    Keep,
    Workspace1,
    Savepoint1,
    Workspace2,
    Savepoint2,
    ValidFrom,
    ValidTill,
}

impl Procedure {
    /// Its parameters in order: the row of each procedure.
    pub fn parameters(self) -> &'static [Parameter]
        ensures { result.now ≡ parameters_of self }
    {
        match self {
            Procedure::EnableVersioning => &[
                Parameter::TableName,
                Parameter::Hist,
                Parameter::IsTopology,
                Parameter::ValidTime,
            ],
            Procedure::CreateWorkspace => &[
                Parameter::Workspace,
                Parameter::IsRefreshed,
                Parameter::Description,
            ],
            Procedure::CreateSavepoint => &[
                Parameter::Workspace,
                Parameter::SavepointName,
                Parameter::Description,
            ],
            Procedure::GotoWorkspace => &[Parameter::Workspace],
            Procedure::RefreshWorkspace => &[Parameter::Workspace],
            Procedure::RemoveWorkspace => &[Parameter::Workspace],
            Procedure::UnfreezeWorkspace => &[Parameter::Workspace],
            Procedure::SetConflictWorkspace => &[Parameter::Workspace],
            Procedure::BeginResolve => &[Parameter::Workspace],
            Procedure::CommitResolve => &[Parameter::Workspace],
            Procedure::RollbackResolve => &[Parameter::Workspace],
            Procedure::GotoSavepoint => &[Parameter::SavepointName],
            Procedure::GotoDate => &[Parameter::InDate],
            Procedure::RollbackToSp => &[Parameter::Workspace, Parameter::SavepointName],
            Procedure::MergeWorkspace => &[
                Parameter::Workspace,
                Parameter::CreateSavepoint,
                Parameter::RemoveWorkspace,
            ],
            Procedure::FreezeWorkspace => &[
                Parameter::Workspace,
                Parameter::FreezeMode,
                Parameter::FreezeWriter,
            ],
            Procedure::SetLockingOn => &[Parameter::LockMode],
            Procedure::SetLockingOff => &[],
            Procedure::LockRows => &[
                Parameter::Workspace,
                Parameter::TableName,
                Parameter::WhereClause,
                Parameter::RowLockMode,
            ],
            Procedure::UnlockRows => &[
                Parameter::Workspace,
                Parameter::TableName,
                Parameter::WhereClause,
            ],
            Procedure::ResolveConflicts => &[
                Parameter::Workspace,
                Parameter::TableName,
                Parameter::WhereClause,
                Parameter::Keep,
            ],
            Procedure::SetDiffVersions => &[
                Parameter::Workspace1,
                Parameter::Savepoint1,
                Parameter::Workspace2,
                Parameter::Savepoint2,
            ],
            Procedure::SetValidTime => &[Parameter::ValidFrom, Parameter::ValidTill],
        }
    }

    /// Whether an argument may name its parameter.
    pub fn takes_names(self) -> bool
        ensures { result ≡ takes_names self }
    {
        self != Procedure::SetDiffVersions
    }
}

/// The procedure of this name, whatever its case.
#[tactic(auto, unfolding(crate::specs::Calls::procedure_of))]
pub fn procedure_of(word: &[u8]) -> Option<Procedure>
    ensures { result ≡ procedure_of word.now }
{
    if is_word(word, b"ENABLEVERSIONING") {
        return Some(Procedure::EnableVersioning);
    }
    if is_word(word, b"CREATEWORKSPACE") {
        return Some(Procedure::CreateWorkspace);
    }
    if is_word(word, b"CREATESAVEPOINT") {
        return Some(Procedure::CreateSavepoint);
    }
    if is_word(word, b"GOTOWORKSPACE") {
        return Some(Procedure::GotoWorkspace);
    }
    if is_word(word, b"REFRESHWORKSPACE") {
        return Some(Procedure::RefreshWorkspace);
    }
    if is_word(word, b"REMOVEWORKSPACE") {
        return Some(Procedure::RemoveWorkspace);
    }
    if is_word(word, b"UNFREEZEWORKSPACE") {
        return Some(Procedure::UnfreezeWorkspace);
    }
    if is_word(word, b"SETCONFLICTWORKSPACE") {
        return Some(Procedure::SetConflictWorkspace);
    }
    procedure_of2(word)
}

#[tactic(auto, unfolding(crate::specs::Calls::procedure_of2))]
fn procedure_of2(word: &[u8]) -> Option<Procedure>
    ensures { result ≡ procedure_of2 word.now }
{
    if is_word(word, b"BEGINRESOLVE") {
        return Some(Procedure::BeginResolve);
    }
    if is_word(word, b"COMMITRESOLVE") {
        return Some(Procedure::CommitResolve);
    }
    if is_word(word, b"ROLLBACKRESOLVE") {
        return Some(Procedure::RollbackResolve);
    }
    if is_word(word, b"GOTOSAVEPOINT") {
        return Some(Procedure::GotoSavepoint);
    }
    if is_word(word, b"GOTODATE") {
        return Some(Procedure::GotoDate);
    }
    if is_word(word, b"ROLLBACKTOSP") {
        return Some(Procedure::RollbackToSp);
    }
    if is_word(word, b"MERGEWORKSPACE") {
        return Some(Procedure::MergeWorkspace);
    }
    if is_word(word, b"FREEZEWORKSPACE") {
        return Some(Procedure::FreezeWorkspace);
    }
    procedure_of3(word)
}

#[tactic(auto, unfolding(crate::specs::Calls::procedure_of3))]
fn procedure_of3(word: &[u8]) -> Option<Procedure>
    ensures { result ≡ procedure_of3 word.now }
{
    if is_word(word, b"SETLOCKINGON") {
        return Some(Procedure::SetLockingOn);
    }
    if is_word(word, b"SETLOCKINGOFF") {
        return Some(Procedure::SetLockingOff);
    }
    if is_word(word, b"LOCKROWS") {
        return Some(Procedure::LockRows);
    }
    if is_word(word, b"UNLOCKROWS") {
        return Some(Procedure::UnlockRows);
    }
    if is_word(word, b"RESOLVECONFLICTS") {
        return Some(Procedure::ResolveConflicts);
    }
    if is_word(word, b"SETDIFFVERSIONS") {
        return Some(Procedure::SetDiffVersions);
    }
    if is_word(word, b"SETVALIDTIME") {
        return Some(Procedure::SetValidTime);
    }
    None
}

/// The parameter of this name, whatever its case.
#[tactic(auto, unfolding(crate::specs::Calls::parameter_of))]
pub fn parameter_of(word: &[u8]) -> Option<Parameter>
    ensures { result ≡ parameter_of word.now }
{
    if is_word(word, b"TABLE_NAME") {
        return Some(Parameter::TableName);
    }
    if is_word(word, b"HIST") {
        return Some(Parameter::Hist);
    }
    if is_word(word, b"ISTOPOLOGY") {
        return Some(Parameter::IsTopology);
    }
    if is_word(word, b"VALIDTIME") {
        return Some(Parameter::ValidTime);
    }
    if is_word(word, b"WORKSPACE") {
        return Some(Parameter::Workspace);
    }
    if is_word(word, b"ISREFRESHED") {
        return Some(Parameter::IsRefreshed);
    }
    if is_word(word, b"DESCRIPTION") {
        return Some(Parameter::Description);
    }
    if is_word(word, b"SAVEPOINT_NAME") {
        return Some(Parameter::SavepointName);
    }
    if is_word(word, b"IN_DATE") {
        return Some(Parameter::InDate);
    }
    parameter_of2(word)
}

#[tactic(auto, unfolding(crate::specs::Calls::parameter_of2))]
fn parameter_of2(word: &[u8]) -> Option<Parameter>
    ensures { result ≡ parameter_of2 word.now }
{
    if is_word(word, b"CREATE_SAVEPOINT") {
        return Some(Parameter::CreateSavepoint);
    }
    if is_word(word, b"REMOVE_WORKSPACE") {
        return Some(Parameter::RemoveWorkspace);
    }
    if is_word(word, b"FREEZEMODE") {
        return Some(Parameter::FreezeMode);
    }
    if is_word(word, b"FREEZEWRITER") {
        return Some(Parameter::FreezeWriter);
    }
    if is_word(word, b"LOCKMODE") {
        return Some(Parameter::LockMode);
    }
    if is_word(word, b"WHERE_CLAUSE") {
        return Some(Parameter::WhereClause);
    }
    if is_word(word, b"LOCK_MODE") {
        return Some(Parameter::RowLockMode);
    }
    if is_word(word, b"KEEP") {
        return Some(Parameter::Keep);
    }
    if is_word(word, b"WORKSPACE1") {
        return Some(Parameter::Workspace1);
    }
    parameter_of3(word)
}

#[tactic(auto, unfolding(crate::specs::Calls::parameter_of3))]
fn parameter_of3(word: &[u8]) -> Option<Parameter>
    ensures { result ≡ parameter_of3 word.now }
{
    if is_word(word, b"SAVEPOINT1") {
        return Some(Parameter::Savepoint1);
    }
    if is_word(word, b"WORKSPACE2") {
        return Some(Parameter::Workspace2);
    }
    if is_word(word, b"SAVEPOINT2") {
        return Some(Parameter::Savepoint2);
    }
    if is_word(word, b"VALIDFROM") {
        return Some(Parameter::ValidFrom);
    }
    if is_word(word, b"VALIDTILL") {
        return Some(Parameter::ValidTill);
    }
    None
}

/// Whether they are the same parameter.
pub fn is_same(left: Parameter, right: Parameter) -> bool
    ensures { result ≡ is_same left right }
{
    left as u8 == right as u8
}
