//! The records of a store: one struct for each kind, and the lists of them that a store gives and takes.

pub mod batch;
pub mod boxed;
pub mod cell_range;
pub mod column;
pub mod counters;
pub mod hist;
pub mod key_columns;
pub mod lock;
pub mod piece;
pub mod row;
pub mod savepoint;
pub mod space;
pub mod stored;
pub mod table;
pub mod trace;
pub mod turn;
pub mod version;

pub use batch::{Batch, Change, Changes};
pub use boxed::Boxed;
pub use cell_range::CellRange;
pub use column::{ColumnKind, TableColumn, TableColumns};
pub use counters::Counters;
pub use hist::Hist;
pub use key_columns::KeyColumns;
pub use lock::{Lock, LockMode};
pub use piece::PieceRecord;
pub use row::RowRecord;
pub use savepoint::Savepoint;
pub use space::{FreezeMode, Space};
pub use stored::{Records, Stored};
pub use table::Table;
pub use trace::Trace;
pub use turn::Turn;
pub use version::Version;

/// A record of the store. What is of a large kind lies apart, so that the records of rows take little room.
#[derive(Drop)]
pub enum Record {
    Counters(Counters),
    Table(Boxed<Table>),
    Space(Boxed<Space>),
    Version(Version),
    Savepoint(Boxed<Savepoint>),
    Row(RowRecord),
    Piece(PieceRecord),
    Touch(Trace),
    Lock(Boxed<Lock>),
    Hist(Boxed<Hist>),
    Mark(Trace),
    Turn(Turn),
}
