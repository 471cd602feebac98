// Whether work may be done in a case, and at an identity: nothing is urgent, held or busy.
ghost use Rattle.std.specs.Prelude.{◌≡◌, not};
ghost use Rattle.yw_standing.specs.Held.{StandsHeld};
ghost use Rattle.yw_standing.specs.State.{state_of};
ghost use Rattle.yw_state.specs.Words.{busy, clear, held, urgent};

use yw_base::Ident;
use yw_standing::Standing;

/// Whether nothing is urgent in a case: no check is due where nothing is at work, and each run waits. The case is
/// walked. It takes no memory.
pub fn is_calm(standing: &Standing, case: u64) -> bool
    requires { StandsHeld standing.now }
    ensures { result ≡ not (urgent (state_of standing.now) case) }
{
    !standing.forest.is_urgent(case)
}

/// What stands at an identity is suspended, or something above it, with no run between.
fn is_held(standing: &Standing, at: &Ident) -> bool
    requires { StandsHeld standing.now }
    ensures { result ≡ held (state_of standing.now) at.now }
{
    standing.forest.is_held(at)
}

/// Whether a run hangs at what stands at an identity. It takes no memory.
pub fn is_busy(standing: &Standing, at: &Ident) -> bool
    requires { StandsHeld standing.now }
    ensures { result ≡ busy (state_of standing.now) at.now }
{
    standing.forest.is_busy(at)
}

/// Whether nothing holds work at an identity, and nothing is urgent in its case. It takes no memory.
pub fn is_clear(standing: &Standing, at: &Ident) -> bool
    requires { StandsHeld standing.now }
    ensures { result ≡ clear (state_of standing.now) at.now }
{
    !is_held(standing, at) && is_calm(standing, at.case_number())
}
