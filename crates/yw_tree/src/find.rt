//! What stands at an identity, for reading.
ghost use Rattle.std.specs.Prelude.{◌≡◌, ℕ, List, None, Some, ◌≤◌, length, option_map, MatchOption};
ghost use Rattle.std.specs.Option.{option_copied};
ghost use Rattle.yw_tree.specs.Cases.{case_at};
ghost use Rattle.yw_base.specs.Identity.{parent};
ghost use Rattle.yw_state.specs.Map.{empty, get};
ghost use Rattle.yw_tree.specs.Forest.{IsForest, item_of, levels, sites_of, top_of};
ghost use Rattle.yw_tree.specs.Spots.{a_case, a_run, part_at, part_of, part_site};
ghost use Rattle.yw_tree.specs.Places.{has_run, net_at, net_of_run, run_at, run_of};
ghost use Rattle.yw_tree.specs.Ways.{case_inner, item_in, net_in};
ghost use Rattle.yw_tree.specs.declared.Node.{out-Node};

use crate::descend::{Descent, inner_of_run, net_of, node_here, place};
use crate::numbers::{case_number, is_case, parent};
use crate::parts::{Levels, case_leads_to_run};
use crate::{Case, CaseTable, Forest, NetState, Node, Run};
use std::alloc::Global;
use yw_base::Ident;

/// Whether a run stands here with this identity.
pub fn has_run(run: &Option<Box<Run>>, id: &[u64]) -> bool
    ensures { result ≡ has_run id.now run.now }
{
    match run {
        Some(run) => run.id.numbers() == id,
        None => false,
    }
}

/// The run, where it has this identity.
fn run_here<'a>(run: &'a Option<Box<Run>>, id: &[u64]) -> Option<&'a Run>
    ensures { option_copied result ≡ run_at id.now run.now }
{
    match run {
        Some(run) if run.id.numbers() == id => Some(run),
        _ => None,
    }
}

/// The net of a case on the way to an identity: its own, or that of its run.
pub fn inner_of_case<'a>(case: &'a Case, id: &[u64]) -> Option<&'a NetState>
    ensures { option_copied result ≡ case_inner id.now case.now }
{
    if case_leads_to_run(case, id) {
        return inner_of_run(&case.run);
    }
    Some(&case.net)
}

/// The item at an identity below a net.
fn item_below<'a>(net: &'a NetState, id: &[u64]) -> Option<&'a Node>
    ensures { option_copied result ≡ item_in levels id.now net.now }
{
    Levels::item_of(net, id)
}

/// The item at an identity.
pub fn item_at<'a>(forest: &'a Forest, id: &[u64]) -> Option<&'a Node>
    requires { 1 ≤ length id.now }
    ensures { option_copied result ≡ item_of forest.now id.now }
{
    let case = forest.cases.get(case_number(id))?;
    let net = inner_of_case(case, id)?;
    item_below(net, id)
}

/// The run at an identity.
pub fn run_with<'a>(forest: &'a Forest, id: &[u64]) -> Option<&'a Run>
    requires { 1 ≤ length id.now }
    ensures { option_copied result ≡ run_of forest.now id.now }
{
    if is_case(id) {
        return None;
    }
    let target = parent(id);
    if is_case(target) {
        let case = forest.cases.get(case_number(id))?;
        return run_here(&case.run, id);
    }
    let node = item_at(forest, target)?;
    run_here(&node.run, id)
}

fn top_of(forest: &Forest, n: u64) -> Option<&NetState>
    ensures { option_copied result ≡ top_of forest.now n }
{
    let case = forest.cases.get(n)?;
    Some(&case.net)
}

fn net_of_run<'a>(forest: &'a Forest, id: &[u64]) -> Option<&'a NetState>
    requires { 1 ≤ length id.now }
    ensures { option_copied result ≡ net_of_run (run_of forest.now id.now) }
{
    let run = run_with(forest, id)?;
    crate::descend::net_of_run(run)
}

/// The net at an identity.
pub fn net_with<'a>(forest: &'a Forest, id: &[u64]) -> Option<&'a NetState>
    requires { 1 ≤ length id.now }
    ensures { option_copied result ≡ net_at forest.now id.now }
{
    if is_case(id) {
        return top_of(forest, case_number(id));
    }
    match item_at(forest, id) {
        Some(node) => net_of(node),
        None => net_of_run(forest, id),
    }
}

/// The item at an identity and the net in which it stands, by one way down.
fn item_in_net<'a>(forest: &'a Forest, id: &[u64]) -> Option<(&'a Node, &'a NetState)>
    requires { 1 ≤ length id.now }
    ensures { IsForest forest.now → length id.now ≤ 41 → MatchOption result (item_of forest.now id.now ≡ None)
        (λ found. (item_of forest.now id.now ≡ Some found.0.now) × (net_at forest.now (parent id.now) ≡ Some found.1.now)) }
{
    if is_case(id) {
        return None;
    }
    let net = net_with(forest, parent(id))?;
    let (t, i) = place(net, id)?;
    let node = node_here(net, t, i);
    Some((node, net))
}

/// What stands at an identity.
pub enum Spot<'a> {
    /// A case.
    Case(&'a Case),
    /// An item.
    Item(&'a Node),
    /// A run of an exlet.
    Run(&'a Run),
}

fn find_case(forest: &Forest, n: u64) -> Option<Spot<'_>>
    ensures { option_map part_of result ≡ option_map a_case (case_at n forest.now.cases) }
{
    match forest.cases.get(n) {
        Some(case) => Some(Spot::Case(case)),
        None => None,
    }
}

fn find_run<'a>(forest: &'a Forest, id: &[u64]) -> Option<Spot<'a>>
    requires { 1 ≤ length id.now }
    ensures { option_map part_of result ≡ option_map a_run (run_of forest.now id.now) }
{
    match run_with(forest, id) {
        Some(run) => Some(Spot::Run(run)),
        None => None,
    }
}

/// What stands at an identity.
fn find_by<'a>(forest: &'a Forest, id: &[u64]) -> Option<Spot<'a>>
    requires { 1 ≤ length id.now }
    ensures { option_map part_of result ≡ part_at forest.now id.now }
{
    if is_case(id) {
        return find_case(forest, case_number(id));
    }
    match item_at(forest, id) {
        Some(node) => Some(Spot::Item(node)),
        None => find_run(forest, id),
    }
}

impl Forest {
    /// The forest without a case. It takes no memory.
    pub fn new(alloc: Global) -> Forest
        ensures boxed { IsForest result }
        ensures sites { (names : ℕ → List ℕ) → sites_of names result ≡ empty }
    {
        Forest {
            cases: CaseTable::new(alloc),
        }
    }

    /// The case, the item or the run at an identity, or `None` where there is none. It takes no memory.
    pub fn find(&self, id: &Ident) -> Option<Spot<'_>>
        ensures found { option_map part_of result ≡ part_at self.now id.now }
        ensures site { (names : ℕ → List ℕ) → IsForest self.now
            → get (sites_of names self.now) id.now ≡ option_map (part_site names) (option_map part_of result) }
    {
        find_by(self, id.numbers())
    }

    /// The case of a number, or `None` where there is none. It takes no memory.
    pub fn case(&self, n: u64) -> Option<&Case>
        ensures { option_copied result ≡ case_at n self.now.cases }
    {
        self.cases.get(n)
    }

    /// The item at an identity, or `None` where there is none. It takes no memory.
    pub fn item(&self, id: &Ident) -> Option<&Node>
        ensures { option_copied result ≡ item_of self.now id.now }
    {
        item_at(self, id.numbers())
    }

    /// The item at an identity and the net in which it stands, by one way down, or `None` where there is no such item. It takes no memory.
    pub fn item_with_net(&self, id: &Ident) -> Option<(&Node, &NetState)>
        ensures { IsForest self.now → MatchOption result (item_of self.now id.now ≡ None)
            (λ found. (item_of self.now id.now ≡ Some found.0.now) × (net_at self.now (parent id.now) ≡ Some found.1.now)) }
    {
        item_in_net(self, id.numbers())
    }

    /// The run at an identity, or `None` where there is none. It takes no memory.
    pub fn run(&self, id: &Ident) -> Option<&Run>
        ensures { option_copied result ≡ run_of self.now id.now }
    {
        run_with(self, id.numbers())
    }

    /// The net of the case, item or run at an identity, or `None` where there is none. It takes no memory.
    pub fn net(&self, id: &Ident) -> Option<&NetState>
        ensures { option_copied result ≡ net_at self.now id.now }
    {
        net_with(self, id.numbers())
    }
}
