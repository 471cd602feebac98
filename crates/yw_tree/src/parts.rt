//! Parts of a forest, by identity.
ghost use Rattle.std.specs.Prelude.{◌≡◌, ℕ, List, ◌≤◌, length, IfSome, IsSome, true};
ghost use Rattle.yw_base.specs.Identity.{is_identity};
ghost use Rattle.std.specs.Option.{option_copied_mut};
ghost use Rattle.std.specs.Borrow.{sem};
ghost use Rattle.yw_state.specs.Identity.{case_ident};
ghost use Rattle.yw_tree.specs.Forest.{item_of, levels};
ghost use Rattle.yw_tree.specs.Cases.{case_at};
ghost use Rattle.yw_tree.specs.Lending.{LendsCase, LendsCaseNet, LendsCaseRun, LendsInNet, LendsItem, LendsNetAt, LendsRunAt, LendsRunNetAt, LendsRunOfCase, LendsRunOfItem};
ghost use Rattle.yw_tree.specs.Lent.{PlacedCase, PlacedItem, PlacedNet, PlacedRun};
ghost use Rattle.yw_tree.specs.Places.{net_at, net_of_run, run_of, run_of_case, run_of_item};
ghost use Rattle.yw_tree.specs.Ways.{case_inner, item_in, run_leads};

use crate::descend::{Below, Bottom, Descent, run_mut, run_net_mut};
use crate::find::{has_run, item_at};
use crate::nets::{item_net_by, top_mut};
use crate::numbers::{case_number, is_case, parent};
use crate::{Case, Forest, NetState, Node, Run};
use yw_base::Ident;

type Four<D> = Below<Below<Below<Below<D>>>>;

type Twenty<D> = Four<Four<Four<Four<Four<D>>>>>;

/// As many levels as an identity has numbers.
pub type Levels = Twenty<Twenty<Bottom>>;

fn case_run_mut(case: &mut Case) -> &mut Run
    requires { IsSome case.old.run }
    ensures* writes_back { sem 𝓛 (LendsCaseRun case.entry result) }
    ensures value { IfSome case.old.run (λ b. result.now ≡ b.value) }
{
    match &mut case.run {
        Some(run) => run,
        None => unreachable!(),
    }
}

pub fn case_leads_to_run(case: &Case, id: &[u64]) -> bool
    ensures { result ≡ run_leads id.now case.now.run }
{
    match &case.run {
        Some(run) => id.starts_with(run.id.numbers()),
        None => false,
    }
}

fn case_net_mut<'a>(case: &'a mut Case, id: &[u64]) -> Option<&'a mut NetState>
    ensures* writes_back { sem 𝓛 (LendsCaseNet case.entry id.entry.now result) }
    ensures value { option_copied_mut result ≡ case_inner id.now case.old }
{
    if case_leads_to_run(case, id) {
        return run_net_mut(case_run_mut(case));
    }
    Some(&mut case.net)
}

/// The item at an identity below a net, for writing.
fn item_within<'a>(net: &'a mut NetState, id: &[u64]) -> Option<&'a mut Node>
    ensures* writes_back { sem 𝓛 (LendsInNet levels net.entry id.entry.now result) }
    ensures value { option_copied_mut result ≡ item_in levels id.now net.old }
{
    Levels::item_in(net, id)
}

/// The item at an identity, for writing.
pub fn item_by<'a>(forest: &'a mut Forest, id: &[u64]) -> Option<&'a mut Node>
    requires { 1 ≤ length id.now }
    ensures* writes_back { sem 𝓛 (LendsItem forest.entry id.entry.now result) }
    ensures value { option_copied_mut result ≡ item_of forest.old id.now }
{
    let case = forest.cases.get_mut(case_number(id))?;
    let net = case_net_mut(case, id)?;
    item_within(net, id)
}

/// The run of a case, where it has this identity, for writing.
fn run_of_case<'a>(case: &'a mut Case, id: &[u64]) -> Option<&'a mut Run>
    ensures* writes_back { sem 𝓛 (LendsRunOfCase case.entry result) }
    ensures value { option_copied_mut result ≡ run_of_case id.now case.old }
{
    if !has_run(&case.run, id) {
        return None;
    }
    Some(case_run_mut(case))
}

/// The run of an item, where it has this identity, for writing.
fn run_of_item<'a>(node: &'a mut Node, id: &[u64]) -> Option<&'a mut Run>
    ensures* writes_back { sem 𝓛 (LendsRunOfItem node.entry result) }
    ensures value { option_copied_mut result ≡ run_of_item id.now node.old }
{
    if !has_run(&node.run, id) {
        return None;
    }
    Some(run_mut(node))
}

/// The run at an identity, for writing.
pub fn run_by<'a>(forest: &'a mut Forest, id: &[u64]) -> Option<&'a mut Run>
    requires { 1 ≤ length id.now }
    ensures* writes_back { sem 𝓛 (LendsRunAt forest.entry id.entry.now result) }
    ensures value { option_copied_mut result ≡ run_of forest.old id.now }
{
    if is_case(id) {
        return None;
    }
    let target = parent(id);
    if is_case(target) {
        let case = forest.cases.get_mut(case_number(id))?;
        return run_of_case(case, id);
    }
    let node = item_by(forest, target)?;
    run_of_item(node, id)
}

/// The net of the run at an identity, for writing.
fn run_net_by<'a>(forest: &'a mut Forest, id: &[u64]) -> Option<&'a mut NetState>
    requires { 1 ≤ length id.now }
    ensures* writes_back { sem 𝓛 (LendsRunNetAt forest.entry id.entry.now result) }
    ensures value { option_copied_mut result ≡ net_of_run (run_of forest.old id.now) }
{
    let found = run_by(forest, id)?;
    run_net_mut(found)
}

/// The net at an identity, for writing.
pub fn net_by<'a>(forest: &'a mut Forest, id: &[u64]) -> Option<&'a mut NetState>
    requires { 1 ≤ length id.now }
    ensures* writes_back { sem 𝓛 (LendsNetAt forest.entry id.entry.now result) }
    ensures value { option_copied_mut result ≡ net_at forest.old id.now }
{
    if is_case(id) {
        return top_mut(forest, case_number(id));
    }
    if item_at(forest, id).is_some() {
        return item_net_by(forest, id);
    }
    run_net_by(forest, id)
}

impl Forest {
    /// The case of a number, for writing, or `None` where there is none. It takes no memory.
    pub fn case_mut(&mut self, n: u64) -> Option<&mut Case>
        ensures* writes_back { sem 𝓛 (LendsCase self.entry n result) }
        ensures value { option_copied_mut result ≡ case_at n self.old.cases }
        ensures placed { PlacedCase self.old n }
    {
        self.cases.get_mut(n)
    }

    /// The run at an identity, for writing, or `None` where there is none. It takes no memory.
    pub fn run_mut<'a>(&'a mut self, id: &Ident) -> Option<&'a mut Run>
        ensures* writes_back { sem 𝓛 (LendsRunAt self.entry id.entry.now result) }
        ensures value { option_copied_mut result ≡ run_of self.old id.now }
        ensures placed { PlacedRun self.old id.now }
        ensures identity { is_identity id.now ≡ true }
    {
        run_by(self, id.numbers())
    }

    /// The net of the case, item or run at an identity, for writing, or `None` where there is none. It takes no memory.
    pub fn net_mut<'a>(&'a mut self, id: &Ident) -> Option<&'a mut NetState>
        ensures* writes_back { sem 𝓛 (LendsNetAt self.entry id.entry.now result) }
        ensures value { option_copied_mut result ≡ net_at self.old id.now }
        ensures placed { PlacedNet self.old id.now }
        ensures identity { is_identity id.now ≡ true }
    {
        net_by(self, id.numbers())
    }

    /// The item at an identity, for writing, or `None` where there is none. It takes no memory.
    pub fn item_mut<'a>(&'a mut self, id: &Ident) -> Option<&'a mut Node>
        ensures* writes_back { sem 𝓛 (LendsItem self.entry id.entry.now result) }
        ensures value { option_copied_mut result ≡ item_of self.old id.now }
        ensures placed { PlacedItem self.old id.now }
        ensures identity { is_identity id.now ≡ true }
    {
        item_by(self, id.numbers())
    }
}
