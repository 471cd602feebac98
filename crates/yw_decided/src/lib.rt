//! Whether a state is well is decided at each thing that stands but for what is kept of specifications, persons and rules. Each law is the contract of a function that does nothing.
#![tactic(auto)]

ghost use Rattle.std.specs.Prelude.{◌≡◌, ◌↔◌, true};
ghost use Rattle.yw_decided.specs.Decided.{CasesFit, are_numbers, content_stands, each_site, is_shallow, marks_stand, nets_stand, parents_stand};
ghost use Rattle.yw_state.specs.State.{State};
ghost use Rattle.yw_state.specs.Well.{DepthFits, MarksStand, NetsStand, NumbersFit, ParentsStand};

/// Numbers fit exactly where the counter is within its bounds, and each case that is over and each thing that stands passes.
pub fn numbers_are_decided()
    ensures { (s : State) → (are_numbers s ≡ true) ↔ NumbersFit s }
{}

/// Marks and checks stand where they may exactly where each thing that stands passes.
pub fn marks_are_decided()
    ensures { (s : State) → (each_site s (marks_stand s) ≡ true) ↔ MarksStand s }
{}

/// Items and runs stand at what they may exactly where each thing that stands passes.
pub fn parents_are_decided()
    ensures { (s : State) → (each_site s (parents_stand s) ≡ true) ↔ ParentsStand s }
{}

/// Nets stand where they may, and where they must, exactly where each thing that stands passes.
pub fn nets_are_decided()
    ensures { (s : State) → (each_site s (nets_stand s) ≡ true) ↔ NetsStand s }
{}

/// No net stands too deep exactly where each thing that stands passes.
pub fn depth_is_decided()
    ensures { (s : State) → (each_site s (is_shallow s) ≡ true) ↔ DepthFits s }
{}

/// What is kept of cases is within its bounds exactly where each thing that stands passes.
pub fn content_is_decided()
    ensures { (s : State) → (each_site s (content_stands s) ≡ true) ↔ CasesFit s }
{}
