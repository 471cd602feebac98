//! That a state which is well has what the calls suppose, where their events are allowed. Each law is the contract of a function that does
//! nothing: it holds of all states and forests.
ghost use Rattle.std.specs.Prelude.{◌≡◌, ◌<◌, List, Option, Some, length, option_map, ℕ};
ghost use Rattle.yw_base.specs.Identity.{most_numbers, parent};
ghost use Rattle.yw_exlet.specs.Begins.{RunMayBegin};
ghost use Rattle.yw_exlet.specs.Needs.{MayTake};
ghost use Rattle.yw_exlet.specs.Stands.{RunAt, first_at};
ghost use Rattle.yw_spec.specs.declared.task.Task.{Task};
ghost use Rattle.yw_state.specs.Allowed.{Allowed};
ghost use Rattle.yw_state.specs.Identity.{Ident};
ghost use Rattle.yw_state.specs.State.{ItemAt, State, item_at};
ghost use Rattle.yw_state.specs.Texts.{Said};
ghost use Rattle.yw_state.specs.declared.event.Event.TheVariants as events;
ghost use Rattle.yw_state.specs.declared.tree.Primitive.{Primitive};
ghost use Rattle.yw_state.specs.declared.tree.TreeKind.{TreeKind};
ghost use Rattle.yw_tree.specs.Coming.{TargetStands};
ghost use Rattle.yw_tree.specs.declared.Forest.{Forest};
ghost use Rattle.yw_worklet.specs.Stands.{StandsAll};

/// Where a mark may come or go, or a check may pass, a case or an item stands.
pub fn target_stands()
    ensures suspend { (names : ℕ → List ℕ) (f : Forest) (s : State) (j : Ident) (said : Said)
        → StandsAll names f s → Allowed s (events.Suspend j) said → TargetStands f j }
    ensures resume { (names : ℕ → List ℕ) (f : Forest) (s : State) (j : Ident) (said : Said)
        → StandsAll names f s → Allowed s (events.Continue j) said → TargetStands f j }
    ensures pass { (names : ℕ → List ℕ) (f : Forest) (s : State) (j : Ident) (check : TreeKind) (said : Said)
        → StandsAll names f s → Allowed s (events.Pass j check) said → TargetStands f j }
{}

/// Where a run may begin by the state, it may by the forest, if its identity has room for its number.
pub fn run_may_begin()
    ensures raise { (names : ℕ → List ℕ) (f : Forest) (s : State) (j : Ident) (kind : TreeKind) (node n : ℕ) (said : Said)
        → StandsAll names f s → length j < most_numbers → Allowed s (events.Raise j kind node n) said → RunMayBegin f j n }
    ensures except { (names : ℕ → List ℕ) (f : Forest) (s : State) (j : Ident) (check : TreeKind) (node n : ℕ) (said : Said)
        → StandsAll names f s → length j < most_numbers → Allowed s (events.Except j check node n) said → RunMayBegin f j n }
{}

/// Where a run may take a primitive by the state, it may by the forest, and has that to do first.
pub fn run_may_take()
    ensures may { (names : ℕ → List ℕ) (f : Forest) (s : State) (r : Ident) (p : Primitive) (item : Option Task) (said : Said) → StandsAll names f s
        → option_map (λ (x : ItemAt). x.of_task.task) (item_at s (parent r)) ≡ item → Allowed s (events.Prim r p) said → MayTake f item r }
    ensures first { (names : ℕ → List ℕ) (f : Forest) (s : State) (r : Ident) (p : Primitive) (said : Said)
        → StandsAll names f s → Allowed s (events.Prim r p) said → first_at f r ≡ Some p }
{}

/// Where a compensation may end by the state, its run stands.
pub fn compensation_stands()
    ensures { (names : ℕ → List ℕ) (f : Forest) (s : State) (r : Ident) (said : Said)
        → StandsAll names f s → Allowed s (events.Compensated r) said → RunAt f r }
{}
