//! What each specification has in which the twelve checks find nothing: it is sound (`IsSound` of `yw_sound`) and within (`IsWithin` of
//! `yw_within`). So is each that is accepted. Each law is the contract of a function that does nothing.
#![tactic(auto)]

ghost use Rattle.std.specs.Prelude.{◌≡◌, ℕ, List, None, Ok};
ghost use Rattle.yw_accept.specs.Built.{IsSpec};
ghost use Rattle.yw_accept.specs.Verdict.{IsVerdict};
ghost use Rattle.yw_texts.specs.Texts.{reader};
ghost use Rattle.yw_read.specs.Inits.{HasInits};
ghost use Rattle.yw_read.specs.Reading.{spec_in};
ghost use Rattle.yw_read.specs.declared.raw.RawSpec.{RawSpec};
ghost use Rattle.yw_reach.specs.Walks.{CycleAlong};
ghost use Rattle.yw_sound.specs.Sound.{HasChild, IsSound, ReadsSound};
ghost use Rattle.yw_spec.specs.declared.spec.Spec.{Spec};
ghost use Rattle.yw_within.specs.Within.{IsWithin, ReadsWithin};

/// What a text says gives each variable a first value of its sort, within the limits, where it gives one.
pub fn said_has_inits()
    ensures { (text : List ℕ) (raw : RawSpec) → spec_in text ≡ Ok raw → HasInits raw }
{}

/// A specification in which the checks find nothing, and whose first values are of their sorts, is sound.
pub fn checked_is_sound()
    ensures { (raw : RawSpec) (spec : Spec) → HasInits raw → IsVerdict raw None → IsSpec raw spec → IsSound spec }
{}

/// It is within.
pub fn checked_is_within()
    ensures { (raw : RawSpec) (spec : Spec) → HasInits raw → IsVerdict raw None → IsSpec raw spec → IsWithin spec }
{}

/// In it no net uses itself, also not through nets that it uses: so each way down ends, however many tasks name a net.
pub fn no_net_uses_itself()
    ensures { (raw : RawSpec) (spec : Spec) → IsVerdict raw None → IsSpec raw spec → CycleAlong (HasChild spec) → ⊥ }
{}

/// Each specification that can be loaded, which is each that is accepted, is sound.
pub fn accepted_are_sound()
    ensures { ReadsSound reader }
{}

/// Each specification that can be loaded is within.
pub fn accepted_are_within()
    ensures { ReadsWithin reader }
{}
