// Gates of joins and splits.
ghost use Rattle.std.specs.Prelude.{◌≡◌};
ghost use Rattle.yw_base.specs.Gates.{is_or};

/// A join or a split: which of its places have to be marked, or get a token. The three kinds are those of van der Aalst and
/// ter Hofstede's paper.
#[derive(Clone, Copy, Debug, PartialEq, Eq)]
pub enum Gate {
    /// All places.
    And,
    /// Exactly one place.
    Xor,
    /// One place or more.
    Or,
}

impl Gate {
    /// It is an OR-join or an OR-split.
    pub fn is_or(self) -> bool
        ensures { result ≡ is_or self }
    {
        match self {
            Gate::Or => true,
            Gate::And | Gate::Xor => false,
        }
    }
}
