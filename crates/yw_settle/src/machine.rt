// What takes events that come of themselves.
use std::alloc::AllocError;
use yw_state::Event;

/// What holds a state, and takes in it one event after another that comes of itself. An `Err` says that no memory was left; what
/// the machine holds then is told nowhere. Our own.
pub trait Machine {
    ghost use Rattle.std.specs.Prelude.{◌↔◌, Bool, IfOk, OnOk, IsTrue};
    ghost use Rattle.yw_settle.specs.Settled.{IsStep};
    ghost use Rattle.yw_state.specs.Automatic.{IsQuiet};
    ghost use Rattle.yw_state.specs.State.{State};
    ghost use Rattle.yw_state.specs.declared.event.Event.{Event};

    /// The state that it stands for.
    ghost state: { Self → State };

    /// It may be asked.
    ghost is_ready: { Self → Type 0 };

    /// What is so of each event that it takes, as that it can be written.
    ghost passes: { Event → Bool };

    /// Finds an event that comes of itself in the case, and does it. `None` says that the case is quiet, and the state is as it was.
    fn step(&mut self, case: u64) -> Result<Option<Event>, AllocError>
        requires { is_ready self.old }
        ensures found { IfOk result (λ found. IsStep passes (state self.old) case found (state self.new)) }
        ensures ready { OnOk result (is_ready self.new) };

    /// Nothing comes of itself in the case.
    fn is_quiet(&self, case: u64) -> Result<bool, AllocError>
        requires { is_ready self.now }
        ensures { IfOk result (λ quiet. IsTrue quiet ↔ IsQuiet (state self.now) case) };
}
