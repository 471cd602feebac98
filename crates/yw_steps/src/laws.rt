//! That a state which is well has what the calls suppose and need. Each law is the contract of a function that does nothing: it holds of all
//! states and forests. What a law asks of an item or a net beyond that, the caller finds by a look-up.
ghost use Rattle.std.specs.Prelude.{◌≡◌, ◌<◌, ℕ, List, IsSome, Some, length};
ghost use Rattle.yw_base.specs.Identity.{most_numbers};
ghost use Rattle.yw_nest.specs.Stands.{StandsWell};
ghost use Rattle.yw_spec.specs.declared.task.Task.{Task};
ghost use Rattle.yw_state.specs.Allowed.{Allowed};
ghost use Rattle.yw_state.specs.Identity.{Ident};
ghost use Rattle.yw_state.specs.State.{ItemAt, NetAt, State, item_at, net_at};
ghost use Rattle.yw_state.specs.Texts.{Said};
ghost use Rattle.yw_state.specs.Well.{IsWell};
ghost use Rattle.yw_state.specs.declared.event.Event.TheVariants as events;
ghost use Rattle.yw_state.specs.declared.part.Checks.{Checks};
ghost use Rattle.yw_steps.specs.Completes.{IsItemIn, ItemIs};
ghost use Rattle.yw_steps.specs.Stands.{ComeBefore, MayGetItems, NetIs, TaskMayGrow};
ghost use Rattle.yw_task.specs.Due.{AreDue};
ghost use Rattle.yw_tree.specs.Forest.{item_of};
ghost use Rattle.yw_tree.specs.Places.{net_at as net_found};
ghost use Rattle.yw_tree.specs.declared.Forest.{Forest};
ghost use Rattle.yw_within.specs.Within.{HoldsWithin};

use yw_state::laws::reads::Reads;

/// The item that a state has is found, so it may be asked to start; and so it is where a start is allowed.
pub fn item_stands()
    ensures found { (names : ℕ → List ℕ) (f : Forest) (s : State) → StandsWell names f s
        → (j : Ident) (x : ItemAt) → item_at s j ≡ Some x → IsSome (item_of f j) }
    ensures allowed { (names : ℕ → List ℕ) (f : Forest) (s : State) → StandsWell names f s
        → (j : Ident) (who : List ℕ) (said : Said) → Allowed s (events.Start j who) said → IsSome (item_of f j) }
{}

/// So may one be asked to complete, and what a completion needs of the state is so.
pub fn item_may_complete<R: Reads>()
    ensures may { (names : ℕ → List ℕ) (f : Forest) (s : State) → StandsWell names f s
        → (j : Ident) (x : ItemAt) → item_at s j ≡ Some x → IsItemIn f x.of_task.within.net j }
    ensures needs { (names : ℕ → List ℕ) (f : Forest) (s : State) → StandsWell names f s → IsWell R.reader s
        → (j : Ident) (x : ItemAt) → item_at s j ≡ Some x → ItemIs s j x.of_task.within.net }
{}

/// The net that a state has is found, and is as is said, where each specification that is loaded is within.
pub fn net_stands()
    ensures found { (names : ℕ → List ℕ) (f : Forest) (s : State) → StandsWell names f s
        → (i : Ident) (n : NetAt) → net_at s i ≡ Some n → IsSome (net_found f i) }
    ensures is { (s : State) → HoldsWithin s → (i : Ident) (n : NetAt) → net_at s i ≡ Some n → NetIs s i n.net }
{}

/// A task may get items, where the net's identity leaves room for a number; the numbers that are drawn next are free, and those of
/// the task's items are lower.
pub fn task_may_grow()
    ensures may { (names : ℕ → List ℕ) (f : Forest) (s : State) → StandsWell names f s
        → (i : Ident) (n : NetAt) (t : ℕ) → net_at s i ≡ Some n → t < length n.net.tasks → length i < most_numbers → TaskMayGrow f n.net i t }
    ensures before { (names : ℕ → List ℕ) (f : Forest) (s : State) → StandsWell names f s
        → (i : Ident) (n : NetAt) (t : ℕ) → net_at s i ≡ Some n → ComeBefore f i t s.next }
    ensures needs { (names : ℕ → List ℕ) (f : Forest) (s : State) → StandsWell names f s → HoldsWithin s
        → (i : Ident) (n : NetAt) (task : Task) (due : Checks) → net_at s i ≡ Some n → AreDue s i task.name due
        → MayGetItems n.net i s.next due task s }
{}
