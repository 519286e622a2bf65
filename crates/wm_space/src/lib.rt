//! What lines do and answer that make tables, workspaces and savepoints, that go back to a savepoint or remove a
//! workspace, and that say who is connected, where a session stands, in which period it sees rows, which conflicts it
//! looks at, which points it compares, and what the moment is.
#![tactic(auto)]

pub mod at;
pub mod bearing;
pub mod comparing;
pub mod connect;
pub mod create;
mod dependent;
pub mod enable;
pub mod ending;
pub mod going;
mod locks;
pub mod looking;
mod naming;
pub mod removing;
pub mod rolling;
pub mod saving;
pub mod valid_time;
