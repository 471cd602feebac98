//! The way down to an item.
ghost use Rattle.std.specs.Prelude.{◌≡◌, ℕ, suc, Some, IfSome, IsSome};
ghost use Rattle.std.specs.Option.{option_copied, option_copied_mut};
ghost use Rattle.std.specs.Ordering.{is_le};
ghost use Rattle.std.specs.Borrow.{sem};
ghost use Rattle.yw_state.specs.Map.{lexical};
ghost use Rattle.yw_tree.specs.Holding.{held_here, held_in};
ghost use Rattle.yw_tree.specs.Lending.{LendsInNet, LendsAt, LendsNet, LendsRun, LendsRunNet, LendsInner};
ghost use Rattle.yw_tree.specs.Ways.{inner_of, item_in, last_place, net_in, net_in_run, node_at, place_in, place_of, run_leads};
ghost use Rattle.yw_tree.specs.declared.Node.{out-Node};
ghost use Rattle.yw_tree.specs.declared.Run.{out-Run};

use crate::{NetState, Node, Run};

/// Whether an item comes before an identity in their order, or has it.
fn comes_by(node: &Node, id: &[u64]) -> bool
    ensures { result ≡ is_le (lexical (out-Node node.now).id id.now) }
{
    node.id.numbers().cmp(id).is_le()
}

/// The place of the last of the items of a list that comes by an identity, found by halves, as they ascend.
fn last_place(list: &Vec<Node>, id: &[u64]) -> usize
    ensures { result ≡ last_place id.now list.now.items }
{
    let mut low = 0;
    let mut size = list.len();
    while size > 1 {
        let half = size / 2;
        if comes_by(&list[low + half], id) {
            low += half;
        }
        size -= half;
    }
    low
}

/// The place in a list of the item that leads to an identity.
fn place_in(list: &Vec<Node>, id: &[u64]) -> Option<usize>
    ensures { result ≡ place_in id.now list.now.items }
{
    let i = last_place(list, id);
    let node = list.get(i)?;
    if id.starts_with(node.id.numbers()) {
        return Some(i);
    }
    None
}

/// The place of the item that leads to an identity.
pub fn place(net: &NetState, id: &[u64]) -> Option<(usize, usize)>
    ensures { result ≡ place_of id.now net.now }
{
    for (t, list) in net.items.iter().enumerate() {
        if let Some(i) = place_in(list, id) {
            return Some((t, i));
        }
    }
    None
}

pub fn node_mut(net: &mut NetState, t: usize, i: usize) -> &mut Node
    requires { IsSome (node_at net.old t i) }
    ensures* writes_back { sem 𝓛 (LendsAt net.entry t i result) }
    ensures value { node_at net.old t i ≡ Some result.now }
{
    &mut net.items[t][i]
}

pub fn net_mut(node: &mut Node) -> Option<&mut NetState>
    ensures* writes_back { sem 𝓛 (LendsNet node.entry result) }
    ensures value { option_copied_mut result ≡ net_in (out-Node node.old).net }
{
    match &mut node.net {
        Some(net) => Some(net),
        None => None,
    }
}

pub fn run_mut(node: &mut Node) -> &mut Run
    requires { IsSome (out-Node node.old).run }
    ensures* writes_back { sem 𝓛 (LendsRun node.entry result) }
    ensures value { IfSome (out-Node node.old).run (λ b. result.now ≡ b.value) }
{
    match &mut node.run {
        Some(run) => run,
        None => unreachable!(),
    }
}

pub fn run_net_mut(run: &mut Run) -> Option<&mut NetState>
    ensures* writes_back { sem 𝓛 (LendsRunNet run.entry result) }
    ensures value { option_copied_mut result ≡ net_in (out-Run run.old).net }
{
    match &mut run.net {
        Some(net) => Some(net),
        None => None,
    }
}

pub fn leads_to_run(node: &Node, id: &[u64]) -> bool
    ensures { result ≡ run_leads id.now (out-Node node.now).run }
{
    match &node.run {
        Some(run) => id.starts_with(run.id.numbers()),
        None => false,
    }
}

/// The net below an item on the way to an identity: its own, or that of its run.
fn inner_mut<'a>(node: &'a mut Node, id: &[u64]) -> Option<&'a mut NetState>
    ensures* writes_back { sem 𝓛 (LendsInner node.entry id.entry.now result) }
    ensures value { option_copied_mut result ≡ inner_of id.now node.old }
{
    if leads_to_run(node, id) {
        return run_net_mut(run_mut(node));
    }
    net_mut(node)
}

pub fn node_here(net: &NetState, t: usize, i: usize) -> &Node
    requires { IsSome (node_at net.now t i) }
    ensures { node_at net.now t i ≡ Some result.now }
{
    &net.items[t][i]
}

pub fn net_of(node: &Node) -> Option<&NetState>
    ensures { option_copied result ≡ net_in (out-Node node.now).net }
{
    match &node.net {
        Some(net) => Some(net),
        None => None,
    }
}

pub fn net_of_run(run: &Run) -> Option<&NetState>
    ensures { option_copied result ≡ net_in (out-Run run.now).net }
{
    match &run.net {
        Some(net) => Some(net),
        None => None,
    }
}

pub fn inner_of_run(run: &Option<Box<Run>>) -> Option<&NetState>
    ensures { option_copied result ≡ net_in_run run.now }
{
    match run {
        Some(run) => net_of_run(run),
        None => None,
    }
}

/// Whether work below an item is held on the way to an identity, by what is suspended above it too.
fn held_here(node: &Node, id: &[u64], above: bool) -> bool
    ensures { result ≡ held_here id.now above node.now }
{
    !leads_to_run(node, id) && (above || node.suspended)
}

/// The net below an item on the way to an identity: its own, or that of its run.
fn inner<'a>(node: &'a Node, id: &[u64]) -> Option<&'a NetState>
    ensures { option_copied result ≡ inner_of id.now node.now }
{
    if leads_to_run(node, id) {
        return inner_of_run(&node.run);
    }
    net_of(node)
}

/// A way down that is so many levels long.
pub trait Descent {
    ghost room: { ℕ };

    fn item_in<'a>(net: &'a mut NetState, id: &[u64]) -> Option<&'a mut Node>
        ensures* writes_back { sem 𝓛 (LendsInNet room net.entry id.entry.now result) }
        ensures value { option_copied_mut result ≡ item_in room id.now net.old };

    fn item_of<'a>(net: &'a NetState, id: &[u64]) -> Option<&'a Node>
        ensures { option_copied result ≡ item_in room id.now net.now };

    /// Whether work at an identity below the net is held, by what is suspended above the net too.
    fn held_in(net: &NetState, id: &[u64], above: bool) -> bool
        ensures { result ≡ held_in room id.now net.now above };
}

/// No level.
pub struct Bottom;

impl Descent for Bottom {
    ghost room = { 0 };

    fn item_in<'a>(_net: &'a mut NetState, _id: &[u64]) -> Option<&'a mut Node> {
        None
    }

    fn item_of<'a>(_net: &'a NetState, _id: &[u64]) -> Option<&'a Node> {
        None
    }

    fn held_in(_net: &NetState, _id: &[u64], above: bool) -> bool {
        above
    }
}

/// One level more.
pub struct Below<D> {
    pub next: D,
}

impl<D: Descent> Descent for Below<D> {
    ghost room = { suc D.room };

    fn item_in<'a>(net: &'a mut NetState, id: &[u64]) -> Option<&'a mut Node> {
        let (t, i) = place(net, id)?;
        let node = node_mut(net, t, i);
        if node.id.numbers() == id {
            return Some(node);
        }
        let inner = inner_mut(node, id)?;
        D::item_in(inner, id)
    }

    fn item_of<'a>(net: &'a NetState, id: &[u64]) -> Option<&'a Node> {
        let (t, i) = place(net, id)?;
        let node = node_here(net, t, i);
        if node.id.numbers() == id {
            return Some(node);
        }
        let inner = inner(node, id)?;
        D::item_of(inner, id)
    }

    fn held_in(net: &NetState, id: &[u64], above: bool) -> bool {
        let Some((t, i)) = place(net, id) else {
            return above;
        };
        let node = node_here(net, t, i);
        let held = held_here(node, id, above);
        match inner(node, id) {
            Some(inner) => D::held_in(inner, id, held),
            None => held,
        }
    }
}
