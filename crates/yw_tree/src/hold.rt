//! What the definitions ask of all that stands, asked of the boxes on the way.
ghost use Rattle.std.specs.Prelude.{◌≡◌, ◌≤◌, ℕ, List, is_some, length};
ghost use Rattle.std.specs.List.{list_any};
ghost use Rattle.yw_state.specs.State.{State};
ghost use Rattle.yw_state.specs.Words.{any_due, busy, held, urgent};
ghost use Rattle.yw_tree.specs.Cases.{case_at};
ghost use Rattle.yw_tree.specs.Forest.{IsForest, levels, sites_of};
ghost use Rattle.yw_tree.specs.Holding.{held_by, held_in, held_in_case, urgent_at, urgent_case, urgent_net, urgent_node, urgent_run};
ghost use Rattle.yw_tree.specs.Places.{hung_at};

use crate::descend::Descent;
use crate::find::{inner_of_case, item_at};
use crate::numbers::{case_number, is_case};
use crate::parts::{Levels, case_leads_to_run};
use crate::{Case, Forest, NetState, Node, Run};
use yw_base::Ident;
use yw_state::Checks;

/// Whether a run hangs at the case or item at an identity.
fn is_busy(forest: &Forest, id: &[u64]) -> bool
    requires { 1 ≤ length id.now }
    ensures { result ≡ is_some (hung_at forest.now id.now) }
{
    if is_case(id) {
        return match forest.cases.get(case_number(id)) {
            Some(case) => case.run.is_some(),
            None => false,
        };
    }
    match item_at(forest, id) {
        Some(node) => node.run.is_some(),
        None => false,
    }
}

/// Whether work at an identity below a net is held, by what is suspended above the net too.
fn held_below(net: &NetState, id: &[u64], above: bool) -> bool
    ensures { result ≡ held_in levels id.now net.now above }
{
    Levels::held_in(net, id, above)
}

/// Whether work at an identity in a case is held.
fn held_in_case(case: &Case, id: &[u64]) -> bool
    ensures { result ≡ held_in_case id.now case.now }
{
    let held = !case_leads_to_run(case, id) && case.suspended;
    match inner_of_case(case, id) {
        Some(net) => held_below(net, id, held),
        None => held,
    }
}

/// Whether work at an identity is held.
fn is_held(forest: &Forest, id: &[u64]) -> bool
    requires { 1 ≤ length id.now }
    ensures { result ≡ held_by forest.now id.now }
{
    match forest.cases.get(case_number(id)) {
        Some(case) => held_in_case(case, id),
        None => false,
    }
}

fn any_due(due: &Checks) -> bool
    ensures { result ≡ any_due due.now }
{
    due.pre || due.select || due.post
}

/// Whether an item of a list is urgent, or something under it.
#[cycle(urgent)]
fn list_is_urgent(list: &Vec<Node>) -> bool
    ensures { result ≡ list_any urgent_node list.now.items }
{
    for node in list {
        if node_is_urgent(node) {
            return true;
        }
    }
    false
}

/// Whether something in a net is urgent.
#[cycle(urgent)]
fn net_is_urgent(net: &NetState) -> bool
    ensures { result ≡ urgent_net net.now }
{
    for list in &net.items {
        if list_is_urgent(list) {
            return true;
        }
    }
    false
}

/// Whether an item is urgent, or something under it: a check is due where no run hangs, or a run doesn't wait.
#[cycle(urgent)]
fn node_is_urgent(node: &Node) -> bool
    ensures { result ≡ urgent_node node.now }
{
    let below = match &node.net {
        Some(net) => net_is_urgent(net),
        None => false,
    };
    let hung = match &node.run {
        Some(run) => run_is_urgent(run),
        None => false,
    };
    any_due(&node.due) && node.run.is_none() || below || hung
}

/// Whether a run doesn't wait, or something under it is urgent.
#[cycle(urgent)]
fn run_is_urgent(run: &Run) -> bool
    ensures { result ≡ urgent_run run.now }
{
    let below = match &run.net {
        Some(net) => net_is_urgent(net),
        None => false,
    };
    !run.waiting || below
}

fn case_is_urgent(case: &Case) -> bool
    ensures { result ≡ urgent_case case.now }
{
    let hung = match &case.run {
        Some(run) => run_is_urgent(run),
        None => false,
    };
    any_due(&case.due) && case.run.is_none() || net_is_urgent(&case.net) || hung
}

/// Whether a case is urgent.
fn is_urgent(forest: &Forest, n: u64) -> bool
    ensures { result ≡ urgent_at (case_at n forest.now.cases) }
{
    match forest.cases.get(n) {
        Some(case) => case_is_urgent(case),
        None => false,
    }
}

impl Forest {
    /// Whether a run hangs at the case or item at an identity: the word `busy` of the definitions. It takes no memory.
    pub fn is_busy(&self, id: &Ident) -> bool
        ensures hangs { result ≡ is_some (hung_at self.now id.now) }
        ensures busy { (names : ℕ → List ℕ) (s : State) → IsForest self.now → s.sites ≡ sites_of names self.now → result ≡ busy s id.now }
    {
        is_busy(self, id.numbers())
    }

    /// Whether what stands at an identity, or something above it, is suspended, with no run between: the word `held` of the
    /// definitions. It takes no memory.
    pub fn is_held(&self, id: &Ident) -> bool
        ensures { (names : ℕ → List ℕ) (s : State) → IsForest self.now → s.sites ≡ sites_of names self.now → result ≡ held s id.now }
    {
        is_held(self, id.numbers())
    }

    /// Whether something in a case is urgent: a check is due where no run hangs, or a run doesn't wait. The word `urgent` of the
    /// definitions. The whole case is walked. It takes no memory.
    pub fn is_urgent(&self, n: u64) -> bool
        ensures { (names : ℕ → List ℕ) (s : State) → IsForest self.now → s.sites ≡ sites_of names self.now → result ≡ urgent s n }
    {
        is_urgent(self, n)
    }
}
