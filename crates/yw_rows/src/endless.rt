//! Events that come of themselves without end.
ghost use Rattle.std.specs.Prelude.{◌≡◌, List, [], ◌∷◌, Option, Some, codes, false, length, true};
ghost use Rattle.yw_rows.specs.Loop.{complete_last, in_again, launched_events, launched_round, suspended_round};
ghost use Rattle.yw_rows.specs.Play.{RefusedAt, allowed_at, automatic_at, shown_at};
ghost use Rattle.yw_state.specs.Broken.{placeless};
ghost use Rattle.yw_state.specs.Legal.{budget};
ghost use Rattle.yw_state.specs.declared.command.Command.TheVariants as commands;
ghost use Rattle.yw_state.specs.declared.rule.Rule.TheVariants.{NotQuiet};

/// A task that nobody does enables itself again, so after a launch as many events come as may. The last has entered the task for item
/// 1.1367; the next would complete it, so the case isn't quiet, and a person enters nothing. Once it is suspended nothing comes.
pub fn rounds()
    ensures again { shown_at (launched_round 1364) 3 1 ≡ Some in_again }
    ensures most { length (launched_events 1364) ≡ budget }
    ensures automatic { automatic_at (launched_round 1364) 3 complete_last ≡ Some true }
    ensures allowed { allowed_at (launched_round 1364) 3 complete_last ≡ Some true }
    ensures refused { RefusedAt (launched_round 1364) 3 (commands.Enter (codes "ann") (1 ∷ []) (codes "z")) (placeless NotQuiet) }
    ensures suspended { allowed_at (suspended_round 1364) 4 complete_last ≡ Some false }
{}
