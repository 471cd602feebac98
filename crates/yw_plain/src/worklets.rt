// States without worklets, as each is that is reached until worklets are built.
ghost use Rattle.std.specs.Prelude.{◌≡◌, true, Some, None};
ghost use Rattle.yw_plain.specs.Plain.{keeps_plain};
ghost use Rattle.yw_plain.specs.Worklets.{HasNoWorklet};
ghost use Rattle.yw_state.specs.Allowed.{Allowed};
ghost use Rattle.yw_state.specs.Events.{after};
ghost use Rattle.yw_state.specs.Identity.{Ident};
ghost use Rattle.yw_state.specs.Nets.{is_atomic};
ghost use Rattle.yw_state.specs.State.{State, ItemAt, item_at, net_part, opening};
ghost use Rattle.yw_state.specs.Texts.{Said};
ghost use Rattle.yw_state.specs.Well.{IsWell};
ghost use Rattle.yw_state.specs.declared.event.Event.{Event};

use yw_state::laws::reads::Reads;

/// The state before anything was done has no worklet.
pub fn opening_has_no_worklet()
    ensures { HasNoWorklet opening }
{}

/// Such an event that is allowed leads from a state that is well and has no worklet to one that has none.
pub fn no_worklet_stays<R: Reads>()
    ensures { (s : State) (e : Event) (said : Said) → IsWell R.reader s → HasNoWorklet s → keeps_plain e ≡ true → Allowed s e said
        → HasNoWorklet (after s e said) }
{}

/// In a state that is well and has no worklet, no net stands at an item of an atomic task.
pub fn no_worklet_no_net<R: Reads>()
    ensures { (s : State) (j : Ident) (x : ItemAt) → IsWell R.reader s → HasNoWorklet s → item_at s j ≡ Some x → is_atomic x.of_task.task ≡ true → net_part s j ≡ None }
{}
