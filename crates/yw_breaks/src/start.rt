// A person starts an item.
ghost use Rattle.std.specs.Prelude.{◌≡◌, ℕ, List};
ghost use Rattle.yw_breaks.specs.Finds.{ByHeld, Finds};
ghost use Rattle.yw_breaks.specs.Persons.{HasRoles};
ghost use Rattle.yw_breaks.specs.Start.{start_rule};
ghost use Rattle.yw_breaks.specs.Tables.{start_rest};
ghost use Rattle.yw_known.specs.Here.{SaysItem};
ghost use Rattle.yw_library.specs.Holdings.{Holdings};
ghost use Rattle.yw_state.specs.Identity.{Ident};
ghost use Rattle.yw_tree.specs.declared.Node.{out-Node};

use crate::persons::worker_rule;
use crate::refusals::refusal;
use std::alloc::Global;
use yw_base::NameList;
use yw_known::ItemHere;
use yw_state::{Refusal, Rule};
use yw_task::ask_start;
use yw_tree::Forest;

/// The rule that a start of this item breaks, by who has these roles.
fn start_rule(forest: &Forest, roles: &NameList, here: &ItemHere<'_>) -> Option<Rule>
    ensures { ByHeld forest.now (out-Node here.now.item.now).id (λ held. result ≡ start_rule roles.now here.now held) }
{
    match worker_rule(forest, roles, here.task, &here.item.id) {
        Some(rule) => Some(rule),
        None => ask_start(here.item),
    }
}

/// The first rule that a start of this item breaks, of those that are tried behind: `ByItself` where its task isn't atomic, `Role` where the
/// person, who has these roles, lacks its role, `Held` where work at the item is held, `Stage` where it isn't ready, `Busy` where an exlet is at
/// work on it; `None` where it breaks none. It takes no memory.
pub fn start_rest(
    alloc: Global,
    forest: &Forest,
    roles: &NameList,
    here: &ItemHere<'_>,
) -> Option<Refusal>
    ensures { (known : Holdings) (who : List ℕ) (j : Ident) → HasRoles known who roles.now
        → SaysItem known forest.now j here.now → Finds known forest.now (λ s. start_rest s who j) result }
{
    refusal(alloc, start_rule(forest, roles, here))
}
