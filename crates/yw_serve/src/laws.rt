//! What the files hold is one thing: one state or one damage, and never both; and behind each line they hold the server's state. A law is the
//! contract of a function that does nothing.
ghost use Rattle.std.specs.Prelude.{◌≡◌, ◌++◌, ℕ, List};
ghost use Rattle.yw_outside.specs.declared.desk.File.{File};
ghost use Rattle.yw_outside.specs.declared.image.Image.{Image};
ghost use Rattle.yw_journal.specs.Files.{Content};
ghost use Rattle.yw_codec.specs.Entries.{IsEntry};
ghost use Rattle.yw_state.specs.State.{State};
ghost use Rattle.yw_state.specs.declared.event.Event.{Event};
ghost use Rattle.yw_serve.specs.Damage.{HoldNow, IsDamagedNow};
ghost use Rattle.yw_serve.specs.Session.{EndsLine, server_state};
ghost use Rattle.yw_serve.specs.declared.server.Server.{Server};

use yw_outside::Desk;

/// The state that the files hold is one.
pub fn held_once()
    ensures { (i : Image) (c d : Content) (s t : State) → HoldNow c s i → HoldNow d t i → s ≡ t }
{}

/// Files that hold a state have no damage.
pub fn held_or_damaged()
    ensures { (i : Image) (c : Content) (s : State) (f : File) (place : ℕ)
        → HoldNow c s i → ¬ (IsDamagedNow i f place) }
{}

/// The first damage of the files is one: one file, and one place in it.
pub fn damaged_once()
    ensures { (i : Image) (f g : File) (p q : ℕ)
        → IsDamagedNow i f p → IsDamagedNow i g q → (f ≡ g) × (p ≡ q) }
{}

/// No entry's bytes are a proper prefix of another's: of bytes that two entries begin, both are the same, with the same events.
pub fn entry_once()
    ensures { (a b : List Event) (p q x y : List ℕ)
        → IsEntry a p → IsEntry b q → p ++ x ≡ q ++ y → (a ≡ b) × (p ≡ q) × (x ≡ y) }
{}

/// Where the files held a server's state and a line is answered, they hold its state then.
pub fn answered_line_is_held<D: Desk>()
    ensures { (c : Content) (before now : Server) (n : ℕ) (line : List ℕ) (old new : D)
        → EndsLine D.Desk c before now n line old new → HoldNow c (server_state before) (D.state old)
        → (d : Content) × HoldNow d (server_state now) (D.state new) }
{}
