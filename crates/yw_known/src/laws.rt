//! What is so of each state that is held. Each law is the contract of a function that does nothing.
ghost use Rattle.std.specs.Prelude.{◌≡◌, List, ℕ, Some, option_and_then, slice_get};
ghost use Rattle.yw_library.specs.Held.{IsHeld};
ghost use Rattle.yw_known.specs.Here.{IsItemHere, IsNetHere, as_net_at, as_task_at};
ghost use Rattle.yw_known.specs.Judged.{IsTaskNumbered};
ghost use Rattle.yw_known.specs.declared.here.ItemHere.{ItemHere};
ghost use Rattle.yw_library.specs.Names.{names_of};
ghost use Rattle.yw_known.specs.declared.here.NetHere.{NetHere};
ghost use Rattle.yw_library.specs.Holdings.{AddsSpec, Holdings, IsKept, with_library, with_spec};
ghost use Rattle.yw_texts.specs.Texts.{reader};
ghost use Rattle.yw_spec.specs.declared.spec.Spec.{Spec};
ghost use Rattle.yw_spec.specs.declared.task.Task.{Task};
ghost use Rattle.yw_state.specs.Identity.{Ident};
ghost use Rattle.yw_state.specs.Nets.{task_number};
ghost use Rattle.yw_state.specs.State.{State, spec_called, task_at, task_in};
ghost use Rattle.yw_state.specs.Well.{IsWell};
ghost use Rattle.yw_state.specs.declared.loaded.Loaded.{Loaded};
ghost use Rattle.yw_tree.specs.Forest.{sites_of};
ghost use Rattle.yw_tree.specs.declared.Forest.{Forest};
ghost use Rattle.yw_tree.specs.declared.NetState.{out-NetState};
ghost use Rattle.yw_tree.specs.declared.Node.{out-Node};
ghost use Rattle.yw_within.specs.Within.{IsWithin};

/// With one specification more the map of the forest is the same.
pub fn load_keeps_sites()
    ensures { (known : Holdings) (f : Forest) (s : State) (loaded : Loaded) → IsHeld known f s
        → sites_of (names_of known) f ≡ sites_of (names_of (with_spec known loaded)) f }
{}

/// And so what is held is held with it, where the state after it is well.
pub fn load_keeps_held()
    ensures { (old new : Holdings) (f : Forest) (s : State) (name text : List ℕ) → IsHeld old f s
        → AddsSpec old new name text → IsWell reader (with_library s new) → IsHeld new f (with_library s new) }
{}

/// A specification that `Known::spec_named` finds is loaded under that name, which is the one of its number, and it is within.
pub fn kept_is_loaded()
    ensures called { (known : Holdings) (f : Forest) (s : State) (name : List ℕ) (spec : Spec) (number : ℕ)
        → IsHeld known f s → IsKept known name spec number → spec_called s name ≡ Some spec }
    ensures named { (known : Holdings) (f : Forest) (s : State) (name : List ℕ) (spec : Spec) (number : ℕ)
        → IsHeld known f s → IsKept known name spec number → names_of known number ≡ name }
    ensures within { (known : Holdings) (name : List ℕ) (spec : Spec) (number : ℕ)
        → IsKept known name spec number → IsWithin spec }
{}

/// The task of a name in a net that stands is the one with the number that `task_called` gives.
pub fn task_is()
    ensures { (known : Holdings) (f : Forest) (s : State) (i : Ident) (h : NetHere) (name : List ℕ)
        → IsNetHere known f s i h → task_at s i name ≡ option_and_then (task_in (as_net_at known h)) (task_number h.net.now name) }
{}

/// A task of a net that stands, and an item's task, have by their numbers what trees are asked of them.
pub fn tasks_are_numbered()
    ensures tasks { (known : Holdings) (f : Forest) (s : State) (i : Ident) (h : NetHere) (t : ℕ) (task : Task)
        → IsNetHere known f s i h → slice_get h.net.now.tasks t ≡ Some task
        → IsTaskNumbered known (out-NetState h.state.now).spec (out-NetState h.state.now).net t
        (record { number = t; task = task; within = as_net_at known h }) }
    ensures items { (known : Holdings) (f : Forest) (s : State) (j : Ident) (h : ItemHere) → IsItemHere known f s j h
        → IsTaskNumbered known (out-NetState h.outer.state.now).spec (out-NetState h.outer.state.now).net
        (out-Node h.item.now).task (as_task_at known h) }
{}
