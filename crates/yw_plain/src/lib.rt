//! States without rules, runs and checks, as each is that is reached until rule trees and exlets are built, and states without worklets. Each
//! law is the contract of a function that does nothing: it holds of all states.
#![tactic(auto)]

mod worklets;

ghost use Rattle.std.specs.Prelude.{◌≡◌, true};
ghost use Rattle.yw_plain.specs.Plain.{IsPlain, PlainWords, keeps_plain};
ghost use Rattle.yw_state.specs.Events.{after};
ghost use Rattle.yw_state.specs.State.{State, opening};
ghost use Rattle.yw_state.specs.Texts.{Said};
ghost use Rattle.yw_state.specs.declared.event.Event.{Event};

pub use worklets::{no_worklet_no_net, no_worklet_stays, opening_has_no_worklet};

/// The state before anything was done is plain.
pub fn opening_is_plain()
    ensures { IsPlain opening }
{}

/// In a plain state nothing is busy, shielded or urgent, no run stands and no check is due, so each identity is clear that isn't held. No tree has a
/// rule, so persons do each atomic task, and a case or an item that comes has no checks.
pub fn plain_words()
    ensures { (s : State) → IsPlain s → PlainWords s }
{}

/// An event of neither a rule tree nor an exlet, or one that suspends or continues something, leads from a plain state to a plain one, whether it is
/// allowed or not.
pub fn event_keeps_plain()
    ensures { (s : State) (e : Event) (said : Said) → IsPlain s → keeps_plain e ≡ true → IsPlain (after s e said) }
{}
