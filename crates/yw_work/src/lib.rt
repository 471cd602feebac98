//! The work at an identity, whoever asks. Each law is the contract of a function that does nothing.
#![tactic(auto)]

mod open;

ghost use Rattle.std.specs.Prelude.{◌≡◌, ◌↔◌, ℕ, List, None, false, true};
ghost use Rattle.std.specs.List.{flat_map, list_any};
ghost use Rattle.yw_base.specs.Identity.{under};
ghost use Rattle.yw_idle.specs.Warms.{changes, is_rule, warms};
ghost use Rattle.yw_spec.specs.declared.spec.Place.{Place};
ghost use Rattle.yw_state.specs.Allowed.{Allowed};
ghost use Rattle.yw_state.specs.Answers.{IsWork, IsWorkList, rises};
ghost use Rattle.yw_state.specs.Events.{LeadAll, Leads, after};
ghost use Rattle.yw_state.specs.Identity.{Ident, same};
ghost use Rattle.yw_state.specs.Map.{get};
ghost use Rattle.yw_state.specs.Options.{is_some_and};
ghost use Rattle.yw_state.specs.State.{Site, State, is_suspended, task_at};
ghost use Rattle.yw_state.specs.Texts.{Said};
ghost use Rattle.yw_state.specs.Well.{IsWell, Stands};
ghost use Rattle.yw_state.specs.Words.{held};
ghost use Rattle.yw_state.specs.declared.answer.What.{What};
ghost use Rattle.yw_state.specs.declared.answer.WorkRow.{WorkRow};
ghost use Rattle.yw_state.specs.declared.event.Event.{Event};
ghost use Rattle.yw_state.specs.declared.event.Event.TheVariants.{Exit};
ghost use Rattle.yw_work.specs.Exits.{exits_done};
ghost use Rattle.yw_work.specs.Holds.{has_run, held_on};
ghost use Rattle.yw_work.specs.Listed.{IsListed, IsNoted, Works, has_rule_event};
ghost use Rattle.yw_work.specs.Open.{IsFor, IsOpen, StaysOpen};
ghost use Rattle.yw_work.specs.Rows.{AreRowsAt, ascends, work_before};
ghost use Rattle.yw_work.specs.Rules.{is_first_choice};
ghost use Rattle.yw_work.specs.Tops.{is_reached, top};
ghost use Rattle.yw_work.specs.declared.open.By.{By};

pub use open::{By, Open};
use yw_state::laws::reads::Reads;

/// What a person may do is what is open and for that person.
pub fn work_is_open()
    ensures { (s : State) (who : List ℕ) (row : WorkRow) → IsWork s who row ↔ IsFor s who row }
{}

/// In a state that is well, behind an event that is allowed and adds no rule, the same is open as before, but where the event changes what stands,
/// and directly above that; and it is suspended and a run stands there as before.
pub fn open_follows<R: Reads>()
    ensures { (s : State) (e : Event) (said : Said) (j : Ident) (x : Site) → IsWell R.reader s → Allowed s e said → is_rule e ≡ false
        → Stands (after s e said) j x → list_any (same j) (warms e) ≡ false → StaysOpen s (after s e said) j }
{}

/// Behind the events of an entry that adds no rule the work is listed by identity if it was, where what they may have changed is listed anew.
pub fn entry_is_listed<R: Reads>()
    ensures { ((s : State) (e : Event) (t : State) → IsWell R.reader s → Leads R.reader s e t → IsWell R.reader t)
        → (es : List Event) (s t : State) (old new : Works) → IsWell R.reader s → LeadAll R.reader s es t → has_rule_event es ≡ false
        → IsListed s old → IsNoted es t old new → IsListed t new }
{}

/// The rows of identities that ascend, each list in order of the tasks' names, are in order.
pub fn rows_are_ordered()
    ensures { (rows : List ℕ → List WorkRow) (js : List Ident) → AreRowsAt rows → ascends js ≡ true → rises work_before (flat_map rows js) ≡ true }
{}

/// What stood and is gone behind an event that is allowed lies under the event's top, or the event changes what stands there.
pub fn gone_is_under()
    ensures { (s : State) (e : Event) (said : Said) (j : Ident) (x : Site) → Allowed s e said → Stands s j x → get (after s e said).sites j ≡ None
        → list_any (same j) (changes e) ≡ false → is_some_and (top e) (under j) ≡ true }
{}

/// In a state that is well it can't be that there is no list of a person's work.
pub fn work_list_cannot_lack<R: Reads>()
    ensures { (s : State) (who : List ℕ) → IsWell R.reader s → ((rows : List WorkRow) → IsWorkList s who rows → ⊥) → ⊥ }
{}

/// A rule that is added leaves what is open, unless it is the first by which worklets are chosen for a task.
pub fn rule_leaves_open()
    ensures { (s : State) (e : Event) (said : Said) (j : Ident) (x : Site) → is_rule e ≡ true → is_first_choice s e ≡ false
        → Stands (after s e said) j x → StaysOpen s (after s e said) j }
{}

/// In a state that is well, with an exit of a task whose items are all done and whose removal set names no task, nothing goes that is open.
pub fn exit_leaves_open<R: Reads>()
    ensures { (s : State) (i : Ident) (t : List ℕ) (places : List Place) (said : Said) (j : Ident) (name : List ℕ) (what : What) (by : By)
        → IsWell R.reader s → Allowed s (Exit i t places) said → is_some_and (task_at s i t) (exits_done s i) ≡ true
        → IsOpen s j name what by → get (after s (Exit i t places) said).sites j ≡ None → ⊥ }
{}

/// Work is held exactly where the marks on the way down to the identity hold it, each until a run stands.
pub fn held_is()
    ensures { (s : State) (j : Ident) → held s j ≡ held_on (is_suspended s) (has_run s) false j }
{}

/// So it is behind all events of an entry: what stood before and is gone was reached by one of them.
pub fn gone_is_reached<R: Reads>()
    ensures { (es : List Event) (s t : State) (j : Ident) (x : Site) → LeadAll R.reader s es t → Stands s j x → get t.sites j ≡ None → is_reached es j ≡ true }
{}
