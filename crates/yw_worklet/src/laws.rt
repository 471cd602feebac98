//! That a state which is well has what the calls suppose, where their events are allowed. Each law is the contract of a function that does
//! nothing: it holds of all states and forests.
ghost use Rattle.std.specs.Prelude.{List, ℕ};
ghost use Rattle.yw_nest.specs.Items.{IsNetOf};
ghost use Rattle.yw_spec.specs.declared.spec.Spec.{Spec};
ghost use Rattle.yw_state.specs.Allowed.{Allowed};
ghost use Rattle.yw_state.specs.Identity.{Ident};
ghost use Rattle.yw_state.specs.State.{State};
ghost use Rattle.yw_state.specs.Texts.{Said};
ghost use Rattle.yw_state.specs.declared.event.Event.TheVariants as events;
ghost use Rattle.yw_tree.specs.declared.Forest.{Forest};
ghost use Rattle.yw_within.specs.Within.{IsWithin};
ghost use Rattle.yw_worklet.specs.Chosen.{MayChoose};
ghost use Rattle.yw_worklet.specs.Ends.{MayEnd};
ghost use Rattle.yw_worklet.specs.Stands.{StandsAll};

/// Where a worklet may begin by the state, it may by the forest.
pub fn may_choose()
    ensures { (names : ℕ → List ℕ) (f : Forest) (s : State) (worklet : Spec) (j : Ident) (name : List ℕ) (said : Said)
        → StandsAll names f s → IsWithin worklet → Allowed s (events.Substitute j name) said → MayChoose f worklet j }
{}

/// Where a worklet may end by the state, it may by the forest.
pub fn may_end()
    ensures { (names : ℕ → List ℕ) (f : Forest) (s : State) (worklet : Spec) (j : Ident) (said : Said)
        → StandsAll names f s → IsNetOf s j worklet → Allowed s (events.CompleteWorklet j) said → MayEnd f worklet j }
{}
