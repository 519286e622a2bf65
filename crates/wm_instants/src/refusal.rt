use thiserror::Error;

/// Why a text is no instant.
#[derive(Clone, Copy, Debug, PartialEq, Error)]
pub enum InstantRefusal {
    /// Its digits and marks are not those of a form.
    #[error("the text has not the form of a date")]
    Shape,
    /// It has a form, and the calendar has no such date or the clock no such time.
    #[error("there is no such date or time")]
    Range,
}
