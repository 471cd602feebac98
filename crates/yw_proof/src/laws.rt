// What a yes says of each state that is reached. A law is the contract of a function that does nothing.
ghost use Rattle.std.specs.Prelude.{List, ℕ};
ghost use Rattle.yw_proof.specs.Bounds.{ProvesBounded};
ghost use Rattle.yw_proof.specs.Found.{IsFound};
ghost use Rattle.yw_proof.specs.declared.finding.ProofFinding.{ProofFinding};

/// Where a text is found to have a certificate, each net of its that is loaded with the text of its specification stays bounded, in each state
/// to which allowed events lead from the opening one: no place gets more tokens than so many weigh as one on the input, and where the
/// output is marked it has one token, no other place has one, and no task is active.
pub fn proved_is_bounded()
    ensures { (text spec net : List ℕ) (bound : ℕ)
        → IsFound text (ProofFinding.Proved spec net bound) → ProvesBounded text spec net bound }
{}
