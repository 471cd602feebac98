// The rules of proofs alone.
ghost use Rattle.std.specs.Prelude.{◌≡◌};
ghost use Rattle.yw_proof.specs.Lines.{proof_rule_text};

/// Why a text proves nothing, beside the rules that lines and specifications have. The numbers go on behind those. The names are our own.
#[derive(Clone, Copy, Debug, PartialEq, Eq)]
pub enum ProofRule {
    /// The text is JSON of another shape.
    NotProof = 41,
    /// The specification has no net of this name.
    UnknownNet = 42,
    /// A place or a task has no weight, or a name is that of none. The place is its name.
    Weight = 43,
    /// A task or the whole net may make something heavier. The place says which.
    Rises = 44,
}

impl ProofRule {
    /// The name as a line has it.
    pub fn text(self) -> &'static str
        ensures { result.now ≡ proof_rule_text self }
    {
        match self {
            ProofRule::NotProof => "NotProof",
            ProofRule::UnknownNet => "UnknownNet",
            ProofRule::Weight => "Weight",
            ProofRule::Rises => "Rises",
        }
    }
}
