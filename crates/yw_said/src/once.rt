// Of an accepted document there aren't two readings.
ghost use Rattle.std.specs.Prelude.{◌≡◌, None};
ghost use Rattle.yw_accept.specs.Built.{IsSpec};
ghost use Rattle.yw_accept.specs.Verdict.{IsVerdict};
ghost use Rattle.yw_read.specs.declared.raw.RawSpec.{RawSpec};
ghost use Rattle.yw_spec.specs.declared.spec.Spec.{Spec};

/// An accepted document says one specification at most.
pub fn says_one_specification()
    ensures { (raw : RawSpec) (a b : Spec) → IsVerdict raw None → IsSpec raw a → IsSpec raw b → a ≡ b }
{}
