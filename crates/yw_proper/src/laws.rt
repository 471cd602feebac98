// What a certificate says of each state that is reached.
ghost use Rattle.std.specs.Prelude.{◌≡◌, ℕ, List, Some, slice_get};
ghost use Rattle.yw_texts.specs.Texts.{IsAccepted};
ghost use Rattle.yw_proper.specs.Load.{JoinsApart, StaysBounded, TextStaysBounded};
ghost use Rattle.yw_proper.specs.Proper.{IsProper};
ghost use Rattle.yw_sound.specs.Sound.{ReadsSound};
ghost use Rattle.yw_spec.specs.declared.spec.Net.{Net};
ghost use Rattle.yw_spec.specs.declared.spec.Spec.{Spec};

use yw_state::laws::reads::Reads;

/// In each state to which allowed events lead from the opening one, each net that stands and has a certificate weighs no more than one
/// token on its input, where specifications are sound: no place gets more tokens than so many weigh, and where the output is
/// marked it has one token, no other place has one, and no task is active.
pub fn certified_is_bounded<R: Reads>()
    ensures { ReadsSound R.reader → (spec : Spec) (k : ℕ) (net : Net) (w : List ℕ)
        → slice_get spec.nets k ≡ Some net → JoinsApart net → IsProper net w → StaysBounded R.reader spec k net w }
{}

/// It is so of each net of an accepted text, wherever that is loaded.
pub fn accepted_is_bounded()
    ensures { (text : List ℕ) (spec : Spec) (k : ℕ) (net : Net) (w : List ℕ) → IsAccepted text spec
        → slice_get spec.nets k ≡ Some net → IsProper net w → TextStaysBounded text k net w }
{}
