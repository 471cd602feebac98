// An accepted document says a specification.
ghost use Rattle.std.specs.Prelude.{None};
ghost use Rattle.yw_accept.specs.Built.{IsSpec};
ghost use Rattle.yw_accept.specs.Verdict.{IsVerdict};
ghost use Rattle.yw_read.specs.declared.raw.RawSpec.{RawSpec};
ghost use Rattle.yw_spec.specs.declared.spec.Spec.{Spec};

/// An accepted document says a specification.
pub fn says_a_specification()
    ensures { (raw : RawSpec) → IsVerdict raw None → (spec : Spec) × IsSpec raw spec }
{}
