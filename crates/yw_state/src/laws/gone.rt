//! What is gone after an event, and that a line breaks one rule at most.
ghost use Rattle.std.specs.Prelude.{◌≡◌, List, ℕ, Option, Some, None, IsTrue};
ghost use Rattle.yw_spec.specs.declared.spec.Place.{Place};
ghost use Rattle.yw_state.specs.Allowed.{Allowed};
ghost use Rattle.yw_state.specs.Broken.{Breaks, QueryBreaks};
ghost use Rattle.yw_state.specs.Events.{after};
ghost use Rattle.yw_state.specs.Gone.{exit_empties, net_ended, removes};
ghost use Rattle.yw_state.specs.Identity.{Ident};
ghost use Rattle.yw_state.specs.Map.{get};
ghost use Rattle.yw_state.specs.Options.{is_some_and};
ghost use Rattle.yw_state.specs.State.{State, net_part, task_at, tokens_on};
ghost use Rattle.yw_state.specs.Texts.{IsOne, Said};
ghost use Rattle.yw_state.specs.declared.command.Command.{Command};
ghost use Rattle.yw_state.specs.declared.command.Query.{Query};
ghost use Rattle.yw_state.specs.declared.event.Event.{Event};
ghost use Rattle.yw_state.specs.declared.event.Event.TheVariants as events;
ghost use Rattle.yw_state.specs.declared.rule.Refusal.{Refusal};

use crate::laws::reads::Reads;

/// Behind an event, nothing stands where it removes: nothing in a case that is over; nothing within an item whose net is
/// at its end, or within a run whose compensation is; nothing at or in the items of a task that exits and of the tasks of
/// its removal set; nothing of an item or a case that an exlet removes, and nothing within an item that it begins anew or
/// completes, but for its own run.
pub fn removed_is_gone()
    ensures { (s : State) (e : Event) (said : Said) (k : Ident) → Allowed s e said → IsTrue (removes s e k) → get (after s e said).sites k ≡ None }
{}

/// Behind an event that ends a net, no net stands there: at an item whose child net or worklet is at its end, at a run whose
/// compensation is, and at an item that an exlet begins anew or completes.
pub fn ended_net_is_gone()
    ensures { (s : State) (e : Event) (said : Said) (j : Ident) → Allowed s e said → net_ended s e ≡ Some j → net_part (after s e said) j ≡ None }
{}

/// An exit leaves no token on the places of its removal set, but for those that get one.
pub fn removal_set_is_emptied()
    ensures { (s : State) (i : Ident) (t : List ℕ) (places : List Place) (said : Said) (c : ℕ) → IsTrue (is_some_and (task_at s i t) (exit_empties places c)) → tokens_on (after s (events.Exit i t places) said) i c ≡ 0 }
{}

/// A command breaks at most one rule first, where a text is read in one way.
pub fn command_breaks_one_rule<R: Reads>()
    ensures { (s : State) (c : Command) (a b : Option Refusal) → IsOne R.reader → Breaks R.reader s c a → Breaks R.reader s c b → a ≡ b }
{}

/// A query breaks at most one rule first.
pub fn query_breaks_one_rule()
    ensures { (s : State) (q : Query) (a b : Option Refusal) → QueryBreaks s q a → QueryBreaks s q b → a ≡ b }
{}
