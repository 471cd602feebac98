// Cases and items are suspended and continued.
ghost use Rattle.std.specs.Prelude.{◌≡◌, not};
ghost use Rattle.yw_standing.specs.Held.{StandsHeld};
ghost use Rattle.yw_deeds.specs.Marks.{mark_at};
ghost use Rattle.yw_standing.specs.Tried.{IsDone, LeadsOn, TellsLeads};
ghost use Rattle.yw_state.specs.Options.{is_some_and};
ghost use Rattle.yw_state.specs.declared.event.Event.TheVariants as events;

use yw_base::Ident;
use yw_standing::Standing;
use yw_tree::{Forest, Spot};

/// Whether the case or item at an identity is suspended; `None` where neither stands there. It takes no memory.
pub fn mark_at(forest: &Forest, at: &Ident) -> Option<bool>
    ensures { result ≡ mark_at forest.now at.now }
{
    match forest.find(at) {
        Some(Spot::Case(case)) => Some(case.suspended),
        Some(Spot::Item(node)) => Some(node.suspended),
        Some(Spot::Run(_run)) => None,
        None => None,
    }
}

fn is_unmarked(mark: Option<bool>) -> bool
    ensures { result ≡ is_some_and mark not }
{
    match mark {
        Some(suspended) => !suspended,
        None => false,
    }
}

fn is_marked(mark: Option<bool>) -> bool
    ensures { result ≡ is_some_and mark (λ b. b) }
{
    match mark {
        Some(suspended) => suspended,
        None => false,
    }
}

/// Whether a case or an item may be suspended: it stands, and isn't suspended. It takes no memory.
pub fn may_suspend(standing: &Standing, j: &Ident) -> bool
    requires { StandsHeld standing.now }
    ensures { TellsLeads standing.now (events.Suspend j.now) result }
{
    // No work is done here: it says that it is an identity.
    let _ = j.numbers();
    is_unmarked(mark_at(&standing.forest, j))
}

/// A case or an item is suspended, as is allowed. It takes no memory.
pub fn act_suspend(standing: &mut Standing, j: &Ident)
    requires held { StandsHeld standing.old }
    requires leads { LeadsOn standing.old (events.Suspend j.now) }
    ensures { IsDone standing.old (events.Suspend j.now) standing.new }
{
    yw_exlet::suspend(&mut standing.forest, j);
}

/// Whether a case or an item may go on: it is suspended. It takes no memory.
pub fn may_continue(standing: &Standing, j: &Ident) -> bool
    requires { StandsHeld standing.now }
    ensures { TellsLeads standing.now (events.Continue j.now) result }
{
    let _ = j.numbers();
    is_marked(mark_at(&standing.forest, j))
}

/// A case or an item goes on, as is allowed. It takes no memory.
pub fn act_continue(standing: &mut Standing, j: &Ident)
    requires held { StandsHeld standing.old }
    requires leads { LeadsOn standing.old (events.Continue j.now) }
    ensures { IsDone standing.old (events.Continue j.now) standing.new }
{
    yw_exlet::resume(&mut standing.forest, j);
}
