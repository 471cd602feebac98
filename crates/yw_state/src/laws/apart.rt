//! What an event leaves as it was, and which numbers it draws.
ghost use Rattle.std.specs.Prelude.{◌≡◌, ◌≤◌, ◌+◌, ℕ, Some, None};
ghost use Rattle.yw_base.specs.Identity.{number_end};
ghost use Rattle.yw_state.specs.Allowed.{Allowed};
ghost use Rattle.yw_state.specs.Apart.{SameCases, SameElsewhere};
ghost use Rattle.yw_state.specs.Automatic.{case_of};
ghost use Rattle.yw_state.specs.Drawn.{count_drawn, first_drawn};
ghost use Rattle.yw_state.specs.Events.{after};
ghost use Rattle.yw_state.specs.State.{State};
ghost use Rattle.yw_state.specs.Texts.{Said};
ghost use Rattle.yw_state.specs.Well.{NumbersFit, ParentsStand};
ghost use Rattle.yw_state.specs.declared.event.Event.{Event};

/// In a state that is well, an event of a case that is allowed leaves what stands in other cases and how they ended, and specifications, persons and rules.
pub fn event_leaves_other_cases()
    ensures { (n : ℕ) (s : State) (e : Event) (said : Said) → NumbersFit s → ParentsStand s → Allowed s e said → case_of e ≡ Some n → SameElsewhere n s (after s e said) }
{}

/// A person, a specification and a rule leave all that stands in cases, how cases ended, and the number that is drawn next.
pub fn event_without_case_leaves_cases()
    ensures { (s : State) (e : Event) (said : Said) → case_of e ≡ None → SameCases s (after s e said) }
{}

/// An event draws its numbers from the counter on, which goes up by so many. So no number is drawn twice, and the counter
/// never passes its limit, 2^48.
pub fn numbers_rise()
    ensures first { (s : State) (e : Event) (said : Said) (first : ℕ) → Allowed s e said → first_drawn e ≡ Some first → first ≡ s.next }
    ensures up { (s : State) (e : Event) (said : Said) → Allowed s e said → (after s e said).next ≡ s.next + count_drawn e }
    ensures rises { (s : State) (e : Event) (said : Said) → Allowed s e said → s.next ≤ (after s e said).next }
    ensures within { (s : State) (e : Event) (said : Said) → Allowed s e said → s.next ≤ number_end → (after s e said).next ≤ number_end }
{}
