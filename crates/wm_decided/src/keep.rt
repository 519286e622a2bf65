//! Which side of a conflict stands.

/// The side that a decision keeps: what the parent has comes into the workspace, what the workspace has stays, or what
/// the workspace took of the parent comes back.
#[derive(Clone, Copy, Debug, PartialEq)]
pub enum Keep {
    Parent,
    Child,
    Base,
}
