//! A whole line.
use crate::statement::Statement;
use wm_base::{Instant, Name};

/// A line that is no blank and no comment.
#[derive(Drop)]
pub enum Line {
    Connect { session: Name, user: Name },
    Disconnect { session: Name },
    At(Instant),
    Run { session: Name, statement: Statement },
}
