//! Entries that answer lines.
ghost use Rattle.std.specs.Prelude.{List, [], ◌∷◌, codes};
ghost use Rattle.yw_rows.specs.Asked.{AnsweredThen};
ghost use Rattle.yw_rows.specs.Seq.{seq_row};
ghost use Rattle.yw_spec.specs.declared.spec.Place.TheVariants.{Between, Named};
ghost use Rattle.yw_state.specs.declared.command.Command.TheVariants as commands;
ghost use Rattle.yw_state.specs.declared.event.Event.TheVariants as events;

/// Each line of the case of two tasks is answered by an event of its own and those that come of themselves behind it: when an item is
/// completed its task exits, and when the output is marked the case is at its end. Then the case is quiet.
pub fn answered()
    ensures launch { AnsweredThen seq_row 2 (commands.Launch (codes "seq") []) (events.Launch 1 (codes "seq") []) [] }
    ensures enter_a { AnsweredThen seq_row 3 (commands.Enter (codes "ann") (1 ∷ []) (codes "a")) (events.Enter (1 ∷ []) (codes "a") (Named (codes "i") ∷ []) 2 1) [] }
    ensures start_a { AnsweredThen seq_row 4 (commands.Start (codes "ann") (1 ∷ 2 ∷ [])) (events.Start (1 ∷ 2 ∷ []) (codes "ann")) [] }
    ensures complete_a { AnsweredThen seq_row 5 (commands.Complete (codes "ann") (1 ∷ 2 ∷ []) []) (events.Complete (1 ∷ 2 ∷ []) []) (events.Exit (1 ∷ []) (codes "a") (Between (codes "a") (codes "b") ∷ []) ∷ []) }
    ensures enter_b { AnsweredThen seq_row 6 (commands.Enter (codes "ann") (1 ∷ []) (codes "b")) (events.Enter (1 ∷ []) (codes "b") (Between (codes "a") (codes "b") ∷ []) 3 1) [] }
    ensures start_b { AnsweredThen seq_row 7 (commands.Start (codes "ann") (1 ∷ 3 ∷ [])) (events.Start (1 ∷ 3 ∷ []) (codes "ann")) [] }
    ensures complete_b { AnsweredThen seq_row 8 (commands.Complete (codes "ann") (1 ∷ 3 ∷ []) []) (events.Complete (1 ∷ 3 ∷ []) []) (events.Exit (1 ∷ []) (codes "b") (Named (codes "o") ∷ []) ∷ events.Finish 1 ∷ []) }
{}
