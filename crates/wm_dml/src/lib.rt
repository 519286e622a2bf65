//! What INSERT, UPDATE and DELETE write, and what UPDATE is refused for by the rows that it would write.
#![tactic(auto)]

mod adding;
pub mod change;
mod choosing;
mod deleting;
mod faults;
mod keys;
mod moving;
mod replaced_rows;
mod shifts;
mod shown;
mod updated;

pub use adding::added;
pub use change::RowChange;
pub use choosing::chosen;
pub use deleting::deleted;
pub use faults::rows_fault;
pub use moving::{Move, Shift, clash_in, moved, moves_of};
pub use replaced_rows::replacing;
pub use shifts::Shifts;
pub use shown::{declared_values, row_period};
pub use updated::{sets_period, updated_rows};
