// What comes of itself, with what was computed to find it.
ghost use Rattle.std.specs.Prelude.{◌≡◌};
ghost use Rattle.yw_walk.specs.Computed.{plainly};

use yw_base::Row;
use yw_mark::Taken;
use yw_state::Event;
use yw_task::Outcome;

/// What was computed to find an event, so that its deed needn't compute it again.
#[derive(Drop)]
pub enum Computed {
    /// Nothing: the event says all that its deed wants.
    Nothing,
    /// Of an entry: the number of its task in the net, from which places the task's join takes, and what each item is given.
    Enter {
        task: usize,
        taken: Taken,
        rows: Vec<Row>,
    },
    /// Of an exit: the number of its task in the net, and what the exit leaves.
    Exit {
        task: usize,
        outcome: Outcome,
    },
}

/// An event, with what was computed to find it.
#[derive(Drop)]
pub struct Found {
    /// The event.
    pub event: Event,
    /// What was computed of it.
    pub computed: Computed,
}

impl Found {
    /// An event of which nothing was computed. It takes no memory.
    pub fn plainly(event: Event) -> Found
        ensures { result ≡ plainly event }
    {
        Found {
            event,
            computed: Computed::Nothing,
        }
    }
}
