//! Values that are passed by name, and what is asked and told.
ghost use Rattle.std.specs.Prelude.{◌≡◌, List, [], ◌∷◌, Option, None, Some, codes, false, pos, true};
ghost use Rattle.yw_base.specs.declared.value.Value.TheVariants as values;
ghost use Rattle.yw_rows.specs.Asked.{AsksThen};
ghost use Rattle.yw_rows.specs.Loan.{loan_row};
ghost use Rattle.yw_rows.specs.Play.{allowed_at, shown_at};
ghost use Rattle.yw_rows.specs.Several.{several_row};
ghost use Rattle.yw_rows.specs.Values.{exit_in_text_order, given_kept, given_row, guest_begun, guest_over, host_over, host_row, in_text_order, order_done, order_row};
ghost use Rattle.yw_rows.specs.Written.{given};
ghost use Rattle.yw_state.specs.declared.command.Command.TheVariants as commands;
ghost use Rattle.yw_state.specs.declared.event.Event.TheVariants as events;
ghost use Rattle.yw_state.specs.declared.tree.TreeKind.TheVariants as kinds;

/// A worklet is given values by name and sort, and hands back by name and sort those that go out.
pub fn by_name()
    ensures begun { shown_at host_row 5 1 ≡ Some guest_begun }
    ensures over { shown_at host_row 8 1 ≡ Some guest_over }
    ensures back { shown_at host_row 9 1 ≡ Some host_over }
{}

/// An item that an exlet completes has made what it was given.
pub fn given_back()
    ensures kept { shown_at given_row 7 1 ≡ Some given_kept }
{}

/// Tokens are told in order of their places' texts, and an event names its places in flow order and in no other.
pub fn orders()
    ensures told { shown_at order_row 6 1 ≡ Some in_text_order }
    ensures named { allowed_at order_done 6 exit_in_text_order ≡ Some false }
{}

/// A launch gives variables their values, and those that are missing their first ones; the empty list is of texts where texts are wanted.
pub fn asked()
    ensures launch { AsksThen loan_row 8 (commands.Launch (codes "loan") (given (codes "who") (values.Texts (codes "bob" ∷ codes "cy" ∷ [])) ∷ [])) (events.Launch 1 (codes "loan") (values.Int (pos 0) ∷ values.Texts (codes "bob" ∷ codes "cy" ∷ []) ∷ values.Int (pos 0) ∷ [])) }
    ensures missing { AsksThen loan_row 8 (commands.Launch (codes "loan") []) (events.Launch 1 (codes "loan") (values.Int (pos 0) ∷ values.Texts [] ∷ values.Int (pos 0) ∷ [])) }
    ensures empty { AsksThen several_row 2 (commands.Launch (codes "r8") (given (codes "xs") (values.Ints []) ∷ [])) (events.Launch 1 (codes "r8") (values.Texts [] ∷ [])) }
    ensures complete { AsksThen loan_row 11 (commands.Complete (codes "ann") (1 ∷ 2 ∷ []) (given (codes "amount") (values.Int (pos 20000)) ∷ [])) (events.Complete (1 ∷ 2 ∷ []) (values.Int (pos 20000) ∷ [])) }
    ensures add { AsksThen several_row 4 (commands.Add (codes "ann") (1 ∷ []) (codes "m") (Some (values.Text (codes "r")))) (events.Add (1 ∷ []) (codes "m") (values.Text (codes "r")) 4) }
    ensures raised { AsksThen loan_row 21 (commands.Raise (1 ∷ 8 ∷ []) kinds.Timeout) (events.Raise (1 ∷ 8 ∷ []) kinds.Timeout 1 9) }
{}
