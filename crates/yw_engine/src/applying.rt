// An event that the files tell, where it is allowed.
ghost use Rattle.std.specs.Prelude.{◌≡◌, IfOk, OnOk, true};
ghost use Rattle.yw_built.specs.Built.{is_built};
ghost use Rattle.yw_cases.specs.State.{MayStand};
ghost use Rattle.yw_engine.specs.Decides.{IsApplied};

use crate::library::apply_load;
use crate::work::{Work, apply_owned};
use std::alloc::AllocError;
use yw_state::Event;

/// Does an event where it is allowed: `true`, and what is held is then that after it; else `false`, and nothing has changed. A load is asked and done
/// by one call, which reads its text once. An `Err` says that no memory was left; what is held then is told nowhere.
pub fn apply_event(work: &mut Work, event: Event) -> Result<bool, AllocError>
    requires { is_built event ≡ true }
    ensures applied { IfOk result (λ leads. IsApplied work.old.standing event leads work.new.standing) }
    ensures stands { OnOk result (MayStand work.new.standing) }
{
    match event {
        Event::Load { name, text } => apply_load(work, &name, text.as_str()),
        other => apply_owned(work, other),
    }
}
