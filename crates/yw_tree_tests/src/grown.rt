// Forests that grow by calls, part by part, so that their clauses say that they are well boxed.
ghost use Rattle.std.specs.Prelude.{◌≡◌, ◌+◌, ◌≤◌, ◌∷◌, [], IfSome, IsSomeAnd, IsTrue, None, false, is_some, length, true};
ghost use Rattle.yw_base.specs.Identity.{is_number, case_number};
ghost use Rattle.yw_state.specs.Identity.{is_case_ident};
ghost use Rattle.yw_tree.specs.Boxed.{IsBoxedNet};
ghost use Rattle.yw_tree.specs.Cases.{case_at};
ghost use Rattle.yw_tree.specs.Coming.{HasTask, TargetStands};
ghost use Rattle.yw_tree.specs.Entries.{nodes};
ghost use Rattle.yw_tree.specs.Forest.{IsForest, item_of};
ghost use Rattle.yw_tree.specs.Places.{hung_at, net_at};
ghost use Rattle.yw_tree.specs.Spots.{part_at};
ghost use Rattle.yw_tree_tests.specs.Grown.{Grown, HasRoom, IsBareItem, IsBareRun, IsBelow};

use std::alloc::Global;
use yw_base::{Ident, Items};
use yw_state::Checks;
use yw_tree::{Case, Forest, NetState, Node, Run, Spot};

const NO_CHECKS: Checks = Checks {
    pre: false,
    select: false,
    post: false,
};

/// As many numbers as an identity has.
const MOST_NUMBERS: usize = 40;

/// The first number that is too large, 2^48.
const NUMBER_END: u64 = 0x1_0000_0000_0000;

/// What comes to a forest, numbered as it comes.
#[derive(Clone, Copy)]
pub enum Part {
    /// A case whose net has so many tasks.
    Case(usize),
    /// An item of the task with this number, to a net.
    Item(usize),
    /// A run, to a case or an item.
    Run,
    /// A net of so many tasks, to an item.
    ItemNet(usize),
    /// A net of one task, to a run.
    RunNet,
}

fn is_number(n: u64) -> bool
    ensures { result ≡ is_number n }
{
    1 <= n && n < NUMBER_END
}

fn new_net(alloc: Global, tasks: usize) -> Option<NetState>
    ensures { IfSome result (λ net. (nodes net ≡ []) × IsBoxedNet net) }
{
    NetState::empty(alloc, 0, 0, Items::new(alloc), Items::new(alloc), tasks).ok()
}

/// Something stands at the identity.
pub fn is_there(forest: &Forest, id: &Ident) -> bool
    ensures { result ≡ is_some (part_at forest.now id.now) }
{
    match forest.find(id) {
        Some(Spot::Case(_)) => true,
        Some(Spot::Item(_)) => true,
        Some(Spot::Run(_)) => true,
        None => false,
    }
}

/// A case of this number comes.
fn grow_case(alloc: Global, forest: &mut Forest, n: u64, tasks: usize) -> bool
    requires { Grown forest.old n }
    ensures { IsTrue result → Grown forest.new (n + 1) }
{
    if !is_number(n) || forest.case(n).is_some() {
        return false;
    }
    let Ok(id) = Ident::of_number(alloc, n) else {
        return false;
    };
    let Some(net) = new_net(alloc, tasks) else {
        return false;
    };
    put_case(forest, n, id, net)
}

fn put_case(forest: &mut Forest, n: u64, id: Ident, net: NetState) -> bool
    requires grown { Grown forest.old n }
    requires id { id ≡ n ∷ [] }
    requires empty { nodes net ≡ [] }
    requires boxed { IsBoxedNet net }
    requires fresh { case_at n forest.old.cases ≡ None }
    ensures { IsTrue result → Grown forest.new (n + 1) }
{
    let case = Case {
        id,
        net,
        suspended: false,
        due: NO_CHECKS,
        run: None,
    };
    match forest.add_case(case) {
        Ok(()) => true,
        Err(_) => false,
    }
}

/// The net at an identity has this task.
fn has_task(forest: &Forest, at: &Ident, t: usize) -> bool
    ensures { IsTrue result → IsSomeAnd (net_at forest.now at.now) (HasTask t) }
{
    match forest.net(at) {
        Some(net) => t < net.items.len(),
        None => false,
    }
}

/// Something stands at the identity, with a net that has this task.
fn has_room(forest: &Forest, at: &Ident, t: usize) -> bool
    ensures { IsTrue result → HasRoom forest.now at.now t }
{
    is_there(forest, at) && has_task(forest, at, t)
}

/// The identity directly under this one, with this number.
fn below(alloc: Global, at: &Ident, n: u64) -> Option<Ident>
    ensures { IfSome result (IsBelow at.now n) }
{
    if at.numbers().len() >= MOST_NUMBERS || !is_number(n) {
        return None;
    }
    match at.child(alloc, n) {
        Ok(id) => Some(id),
        Err(_) => None,
    }
}

/// An item of this number comes to the net at an identity.
fn grow_item(alloc: Global, forest: &mut Forest, n: u64, at: &Ident, t: usize) -> bool
    requires { Grown forest.old n }
    ensures { IsTrue result → Grown forest.new (n + 1) }
{
    if !has_room(forest, at, t) {
        return false;
    }
    match below(alloc, at, n) {
        Some(id) => put_item(alloc, forest, n, at, id, t),
        None => false,
    }
}

fn put_item(alloc: Global, forest: &mut Forest, n: u64, at: &Ident, id: Ident, t: usize) -> bool
    requires grown { Grown forest.old n }
    requires room { HasRoom forest.old at.now t }
    requires is_below { IsBelow at.now n id }
    ensures { IsTrue result → Grown forest.new (n + 1) }
{
    let node = Node::ready(alloc, id, t, Items::new(alloc));
    match forest.add_item(at, node) {
        Ok(()) => true,
        Err(_) => false,
    }
}

fn case_number(id: &[u64]) -> u64
    requires { 1 ≤ length id.now }
    ensures { result ≡ case_number id.now }
{
    id[0]
}

fn is_case(id: &[u64]) -> bool
    ensures { result ≡ is_case_ident id.now }
{
    id.len() == 1
}

fn case_stands(forest: &Forest, n: u64) -> bool
    ensures { result ≡ is_some (case_at n forest.now.cases) }
{
    forest.case(n).is_some()
}

fn item_stands(forest: &Forest, at: &Ident) -> bool
    ensures { result ≡ is_some (item_of forest.now at.now) }
{
    forest.item(at).is_some()
}

/// A case or an item stands at the identity.
fn is_target(forest: &Forest, at: &Ident) -> bool
    ensures { IsTrue result → TargetStands forest.now at.now }
{
    let numbers = at.numbers();
    if numbers.is_empty() {
        return false;
    }
    if is_case(numbers) {
        return case_stands(forest, case_number(numbers));
    }
    item_stands(forest, at)
}

/// A run of this number comes to the case or item at an identity.
fn grow_run(alloc: Global, forest: &mut Forest, n: u64, at: &Ident) -> bool
    requires { Grown forest.old n }
    ensures { IsTrue result → Grown forest.new (n + 1) }
{
    if !is_there(forest, at) || !is_target(forest, at) || forest.is_busy(at) {
        return false;
    }
    match below(alloc, at, n) {
        Some(id) => put_run(alloc, forest, n, at, id),
        None => false,
    }
}

fn put_run(alloc: Global, forest: &mut Forest, n: u64, at: &Ident, id: Ident) -> bool
    requires grown { Grown forest.old n }
    requires there { is_some (part_at forest.old at.now) ≡ true }
    requires target { TargetStands forest.old at.now }
    requires idle { is_some (hung_at forest.old at.now) ≡ false }
    requires is_below { IsBelow at.now n id }
    ensures { IsTrue result → Grown forest.new (n + 1) }
{
    if is_there(forest, &id) {
        return false;
    }
    let run = Run::begin(id, Items::new(alloc));
    match Box::new(alloc, run) {
        Ok(run) => {
            forest.add_run(at, run);
            true
        }
        Err(_) => false,
    }
}

/// A net without items in a box.
fn boxed_net(alloc: Global, tasks: usize) -> Option<Box<NetState>>
    ensures { IfSome result (λ net. (nodes net.value ≡ []) × IsBoxedNet net.value) }
{
    Box::new(alloc, new_net(alloc, tasks)?).ok()
}

/// An item without a net stands at the identity.
fn has_bare_item(forest: &Forest, at: &Ident) -> bool
    ensures { IsTrue result → IsBareItem forest.now at.now }
{
    match forest.item(at) {
        Some(node) => node.net.is_none(),
        None => false,
    }
}

/// A run without a net stands at the identity.
pub fn has_bare_run(forest: &Forest, at: &Ident) -> bool
    ensures { IsTrue result → IsBareRun forest.now at.now }
{
    match forest.run(at) {
        Some(run) => run.net.is_none(),
        None => false,
    }
}

/// A net of so many tasks comes to the item at an identity.
fn grow_item_net(alloc: Global, forest: &mut Forest, n: u64, at: &Ident, tasks: usize) -> bool
    requires { Grown forest.old n }
    ensures { IsTrue result → Grown forest.new (n + 1) }
{
    if !has_bare_item(forest, at) {
        return false;
    }
    let Some(net) = boxed_net(alloc, tasks) else {
        return false;
    };
    forest.attach_item_net(at, net);
    true
}

/// A net of one task comes to the run at an identity.
fn grow_run_net(alloc: Global, forest: &mut Forest, n: u64, at: &Ident) -> bool
    requires { Grown forest.old n }
    ensures { IsTrue result → Grown forest.new (n + 1) }
{
    if !has_bare_run(forest, at) {
        return false;
    }
    let Some(net) = boxed_net(alloc, 1) else {
        return false;
    };
    forest.attach_run_net(at, net);
    true
}

/// A part comes, where no number from `n` on is drawn. `false` says that it can't, or that no memory was left.
pub fn grow(alloc: Global, forest: &mut Forest, n: u64, part: Part, at: &Ident) -> bool
    requires { Grown forest.old n }
    ensures { IsTrue result → Grown forest.new (n + 1) }
{
    match part {
        Part::Case(tasks) => grow_case(alloc, forest, n, tasks),
        Part::Item(t) => grow_item(alloc, forest, n, at, t),
        Part::Run => grow_run(alloc, forest, n, at),
        Part::ItemNet(tasks) => grow_item_net(alloc, forest, n, at, tasks),
        Part::RunNet => grow_run_net(alloc, forest, n, at),
    }
}

/// A part, and where it comes.
type Growth = (Part, &'static str);

// Numbered from 1 on: case 1 has two tasks, items 1.2 and 1.12 of the first and 1.3 of the second, and run 1.9 with a net with item 1.9.11. Item
// 1.2 has a net with item 1.2.5, and run 1.2.6 with a net with item 1.2.6.8. Item 1.3 has run 1.3.13 without a net, and a net with item
// 1.3.15. Case 16 has item 16.17.
static GROWTH: [Growth; 17] = [
    (Part::Case(2), "1"),
    (Part::Item(0), "1"),
    (Part::Item(1), "1"),
    (Part::ItemNet(1), "1.2"),
    (Part::Item(0), "1.2"),
    (Part::Run, "1.2"),
    (Part::RunNet, "1.2.6"),
    (Part::Item(0), "1.2.6"),
    (Part::Run, "1"),
    (Part::RunNet, "1.9"),
    (Part::Item(0), "1.9"),
    (Part::Item(0), "1"),
    (Part::Run, "1.3"),
    (Part::ItemNet(1), "1.3"),
    (Part::Item(0), "1.3"),
    (Part::Case(1), "16"),
    (Part::Item(0), "16"),
];

fn grow_at(alloc: Global, forest: &mut Forest, n: u64, growth: &Growth) -> bool
    requires { Grown forest.old n }
    ensures { IsTrue result → Grown forest.new (n + 1) }
{
    match Ident::read(alloc, growth.1) {
        Ok(at) => grow(alloc, forest, n, growth.0, &at),
        Err(_) => false,
    }
}

fn new_forest(alloc: Global) -> Forest
    ensures { Grown result 1 }
{
    Forest::new(alloc)
}

/// The forest that all of these make.
pub fn grown(alloc: Global) -> Option<Forest>
    ensures { IfSome result IsForest }
{
    let mut forest = new_forest(alloc);
    for k in 0..GROWTH.len() {
        if !grow_at(alloc, &mut forest, k as u64 + 1, &GROWTH[k]) {
            return None;
        }
    }
    Some(forest)
}

/// A case with an item in its net, an item in that one's net, and so on down to an identity of so many numbers; and that identity.
pub fn chain(alloc: Global, count: usize) -> Option<(Forest, Ident, u64)>
    ensures { IfSome result (λ c. Grown c.0 c.2) }
{
    let mut forest = new_forest(alloc);
    let mut at = Ident::of_number(alloc, 1).ok()?;
    if !grow(alloc, &mut forest, 1, Part::Case(1), &at) {
        return None;
    }
    let mut n = 2;
    for _ in 1..count {
        if !grow_level(alloc, &mut forest, n, &at) {
            return None;
        }
        at = below(alloc, &at, n)?;
        n += 2;
    }
    Some((forest, at, n))
}

/// An item comes to the net at an identity, and a net to the item.
fn grow_level(alloc: Global, forest: &mut Forest, n: u64, at: &Ident) -> bool
    requires { Grown forest.old n }
    ensures { IsTrue result → Grown forest.new (n + 2) }
{
    match below(alloc, at, n) {
        Some(id) => {
            grow_item(alloc, forest, n, at, 0) && grow_item_net(alloc, forest, n + 1, &id, 1)
        }
        None => false,
    }
}
