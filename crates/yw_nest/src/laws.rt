//! That a state which is well has what the calls suppose, where their events are allowed. Each law is the contract of a function that does
//! nothing: it holds of all states and forests.
ghost use Rattle.std.specs.Prelude.{◌≡◌, ℕ, List, IsSome};
ghost use Rattle.yw_nest.specs.Cases.{CaseMayBegin};
ghost use Rattle.yw_nest.specs.Items.{IsNetOf, SubMayEnd, SubMayStart};
ghost use Rattle.yw_nest.specs.Stands.{StandsWell};
ghost use Rattle.yw_spec.specs.declared.spec.Spec.{Spec};
ghost use Rattle.yw_state.specs.Allowed.{Allowed};
ghost use Rattle.yw_state.specs.Identity.{Ident};
ghost use Rattle.yw_base.specs.Identity.{parent};
ghost use Rattle.yw_state.specs.State.{State};
ghost use Rattle.yw_state.specs.Texts.{Said};
ghost use Rattle.yw_state.specs.Values.{Row};
ghost use Rattle.yw_state.specs.declared.event.Event.TheVariants as events;
ghost use Rattle.yw_tree.specs.Forest.{item_of};
ghost use Rattle.yw_tree.specs.declared.Forest.{Forest};
ghost use Rattle.yw_within.specs.Within.{IsWithin};

/// Where a launch is allowed, the case may begin.
pub fn case_may_begin()
    ensures { (names : ℕ → List ℕ) (f : Forest) (s : State) (spec : Spec) (n : ℕ) (name : List ℕ) (vals : Row) (said : Said)
        → StandsWell names f s → IsWithin spec → Allowed s (events.Launch n name vals) said → CaseMayBegin f spec n }
{}

/// Where the completion of an item of an empty task is allowed, the item stands.
pub fn empty_item_stands()
    ensures { (names : ℕ → List ℕ) (f : Forest) (s : State) (j : Ident) (said : Said)
        → StandsWell names f s → Allowed s (events.CompleteEmpty j) said → IsSome (item_of f j) }
{}

/// Where a child net may begin by the state, it may by the forest.
pub fn sub_may_start()
    ensures { (names : ℕ → List ℕ) (f : Forest) (s : State) (spec : Spec) (j : Ident) (said : Said)
        → StandsWell names f s → IsWithin spec → IsNetOf s (parent j) spec → Allowed s (events.StartSub j) said → SubMayStart f spec j }
{}

/// Where a child net may end by the state, it may by the forest, and it is of the specification too.
pub fn sub_may_end()
    ensures may { (names : ℕ → List ℕ) (f : Forest) (s : State) (spec : Spec) (j : Ident) (said : Said)
        → StandsWell names f s → IsNetOf s (parent j) spec → Allowed s (events.CompleteSub j) said → SubMayEnd f spec j }
    ensures inner { (names : ℕ → List ℕ) (f : Forest) (s : State) (spec : Spec) (j : Ident) (said : Said)
        → StandsWell names f s → IsNetOf s (parent j) spec → Allowed s (events.CompleteSub j) said → IsNetOf s j spec }
{}
