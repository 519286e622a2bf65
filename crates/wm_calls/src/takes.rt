ghost use Rattle.std.specs.Prelude.{◌≡◌};
ghost use Rattle.wm_calls.specs.Takes.{takes_of, parameter_name};

use wm_grammar::Parameter;

/// What a parameter takes.
#[derive(Clone, Copy, Debug, PartialEq)]
pub enum Takes {
    Text,
    /// A text that is a condition, or NULL.
    Clause,
    /// A word for what a history keeps.
    History,
    /// A word for who may enter and write.
    Freeze,
    /// A word for whom a lock bars.
    Lock,
    /// A word for the row that is kept.
    Side,
    Truth,
    /// FALSE alone: TRUE is refused.
    False,
    Moment,
}

/// What this parameter takes.
pub fn takes_of(parameter: Parameter) -> Takes
    ensures { result ≡ takes_of parameter }
{
    match parameter {
        Parameter::TableName => Takes::Text,
        Parameter::Hist => Takes::History,
        Parameter::IsTopology => Takes::False,
        Parameter::ValidTime => Takes::Truth,
        Parameter::Workspace => Takes::Text,
        Parameter::IsRefreshed => Takes::False,
        Parameter::Description => Takes::Text,
        Parameter::SavepointName => Takes::Text,
        Parameter::InDate => Takes::Moment,
        Parameter::CreateSavepoint => Takes::Truth,
        Parameter::RemoveWorkspace => Takes::Truth,
        Parameter::FreezeMode => Takes::Freeze,
        Parameter::FreezeWriter => Takes::Text,
        Parameter::LockMode => Takes::Lock,
        Parameter::WhereClause => Takes::Clause,
        Parameter::RowLockMode => Takes::Lock,
        Parameter::Keep => Takes::Side,
        Parameter::Workspace1 => Takes::Text,
        Parameter::Savepoint1 => Takes::Text,
        Parameter::Workspace2 => Takes::Text,
        Parameter::Savepoint2 => Takes::Text,
        Parameter::ValidFrom => Takes::Moment,
        Parameter::ValidTill => Takes::Moment,
    }
}

/// The name of a parameter, in capitals.
pub fn parameter_name(parameter: Parameter) -> &'static [u8]
    ensures { result.now ≡ parameter_name parameter }
{
    match parameter {
        Parameter::TableName => b"TABLE_NAME",
        Parameter::Hist => b"HIST",
        Parameter::IsTopology => b"ISTOPOLOGY",
        Parameter::ValidTime => b"VALIDTIME",
        Parameter::Workspace => b"WORKSPACE",
        Parameter::IsRefreshed => b"ISREFRESHED",
        Parameter::Description => b"DESCRIPTION",
        Parameter::SavepointName => b"SAVEPOINT_NAME",
        Parameter::InDate => b"IN_DATE",
        Parameter::CreateSavepoint => b"CREATE_SAVEPOINT",
        Parameter::RemoveWorkspace => b"REMOVE_WORKSPACE",
        Parameter::FreezeMode => b"FREEZEMODE",
        Parameter::FreezeWriter => b"FREEZEWRITER",
        Parameter::LockMode => b"LOCKMODE",
        Parameter::WhereClause => b"WHERE_CLAUSE",
        Parameter::RowLockMode => b"LOCK_MODE",
        Parameter::Keep => b"KEEP",
        Parameter::Workspace1 => b"WORKSPACE1",
        Parameter::Savepoint1 => b"SAVEPOINT1",
        Parameter::Workspace2 => b"WORKSPACE2",
        Parameter::Savepoint2 => b"SAVEPOINT2",
        Parameter::ValidFrom => b"VALIDFROM",
        Parameter::ValidTill => b"VALIDTILL",
    }
}
