//! Three-valued logic.
ghost use Rattle.std.specs.Prelude.{◌≡◌};
ghost use Rattle.wm_base.specs.Truth.{truth_and, truth_or, truth_not};

/// A truth value of three-valued logic: a comparison with NULL is `Unknown`.
#[derive(Clone, Copy, Debug, PartialEq, Eq)]
pub enum Truth {
    Yes,
    No,
    Unknown,
}

impl Truth {
    pub fn and(self, other: Truth) -> Truth
        ensures { result ≡ truth_and self other }
    {
        match (self, other) {
            (Truth::No, _) | (_, Truth::No) => Truth::No,
            (Truth::Yes, Truth::Yes) => Truth::Yes,
            _ => Truth::Unknown,
        }
    }

    pub fn or(self, other: Truth) -> Truth
        ensures { result ≡ truth_or self other }
    {
        match (self, other) {
            (Truth::Yes, _) | (_, Truth::Yes) => Truth::Yes,
            (Truth::No, Truth::No) => Truth::No,
            _ => Truth::Unknown,
        }
    }

    pub fn not(self) -> Truth
        ensures { result ≡ truth_not self }
    {
        match self {
            Truth::Yes => Truth::No,
            Truth::No => Truth::Yes,
            Truth::Unknown => Truth::Unknown,
        }
    }
}
