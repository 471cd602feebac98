// What is well stays so under all events, so that each state that is reached is well.
ghost use Rattle.std.specs.Prelude.{List};
ghost use Rattle.yw_sound.specs.Sound.{ReadsSound};
ghost use Rattle.yw_state.specs.Events.{LeadAll, Leads};
ghost use Rattle.yw_state.specs.State.{State, opening};
ghost use Rattle.yw_state.specs.Well.{IsWell};
ghost use Rattle.yw_state.specs.declared.event.Event.{Event};

use yw_state::laws::reads::Reads;

/// A state that is well stays so under each event that is allowed, where specifications are sound.
pub fn event_keeps_well<R: Reads>()
    ensures { ReadsSound R.reader → (s : State) (e : Event) (t : State) → IsWell R.reader s → Leads R.reader s e t → IsWell R.reader t }
{}

/// It stays so under events that are allowed in their turn.
pub fn events_keep_well<R: Reads>()
    ensures { ReadsSound R.reader → (es : List Event) (s t : State) → IsWell R.reader s → LeadAll R.reader s es t → IsWell R.reader t }
{}

/// Each state to which allowed events lead from the opening is well, where specifications are sound.
pub fn reached_is_well<R: Reads>()
    ensures { ReadsSound R.reader → (es : List Event) (t : State) → LeadAll R.reader opening es t → IsWell R.reader t }
{}
