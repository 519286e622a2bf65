//! A record as one of a kind.

ghost use Rattle.std.specs.Prelude.{◌≡◌};
ghost use Rattle.std.specs.Option.{option_copied, option_and_then};
ghost use Rattle.wm_graph.specs.Parts.{as_counters, as_hist, as_piece, as_row, as_savepoint, as_space, as_table, as_version};

use wm_spec::record::{
    Counters, Hist, PieceRecord, Record, RowRecord, Savepoint, Space, Table, Version,
};

pub fn counters_of(found: Option<&Record>) -> Option<Counters>
    ensures { result ≡ option_and_then as_counters (option_copied found.entry) }
{
    match found {
        Some(Record::Counters(counters)) => Some(*counters),
        _ => None,
    }
}

pub fn table_of(found: Option<&Record>) -> Option<&Table>
    ensures { option_copied result ≡ option_and_then as_table (option_copied found.entry) }
{
    match found {
        Some(Record::Table(table)) => Some(table.get()),
        _ => None,
    }
}

pub fn space_of(found: Option<&Record>) -> Option<&Space>
    ensures { option_copied result ≡ option_and_then as_space (option_copied found.entry) }
{
    match found {
        Some(Record::Space(space)) => Some(space.get()),
        _ => None,
    }
}

pub fn version_of(found: Option<&Record>) -> Option<Version>
    ensures { result ≡ option_and_then as_version (option_copied found.entry) }
{
    match found {
        Some(Record::Version(version)) => Some(*version),
        _ => None,
    }
}

pub fn savepoint_of(found: Option<&Record>) -> Option<&Savepoint>
    ensures { option_copied result ≡ option_and_then as_savepoint (option_copied found.entry) }
{
    match found {
        Some(Record::Savepoint(savepoint)) => Some(savepoint.get()),
        _ => None,
    }
}

pub fn row_of(found: Option<&Record>) -> Option<&RowRecord>
    ensures { option_copied result ≡ option_and_then as_row (option_copied found.entry) }
{
    match found {
        Some(Record::Row(row)) => Some(row),
        _ => None,
    }
}

pub fn piece_of(found: Option<&Record>) -> Option<&PieceRecord>
    ensures { option_copied result ≡ option_and_then as_piece (option_copied found.entry) }
{
    match found {
        Some(Record::Piece(piece)) => Some(piece),
        _ => None,
    }
}

pub fn hist_of(found: Option<&Record>) -> Option<&Hist>
    ensures { option_copied result ≡ option_and_then as_hist (option_copied found.entry) }
{
    match found {
        Some(Record::Hist(hist)) => Some(hist.get()),
        _ => None,
    }
}
