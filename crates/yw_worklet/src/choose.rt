// A worklet is chosen for an item, and begins.
ghost use Rattle.std.specs.Prelude.{◌≡◌, IfOk, None, OnErr, OnOk, Some};
ghost use Rattle.yw_state.specs.After.{without_check};
ghost use Rattle.yw_state.specs.declared.part.Stage.TheVariants.{Executing};
ghost use Rattle.yw_state.specs.declared.tree.TreeKind.TheVariants.{Select};
ghost use Rattle.yw_tree.specs.Forest.{IsForest};
ghost use Rattle.yw_tree.specs.declared.Node.{out-Node};
ghost use Rattle.yw_worklet.specs.Chosen.{BeginsFor, MayChoose, Substitutes, where_shallow};

use crate::names::Source;
use crate::nets::{begin_top, item_there};
use std::alloc::{AllocError, Global};
use yw_base::Ident;
use yw_spec::{Spec, Task};
use yw_state::{Checks, Stage};
use yw_tree::{Forest, NetState, Node};

/// One more than the most numbers of an identity at which a worklet or a compensation may begin. The limit is our own.
pub const DEPTH_END: usize = 32;

/// The node that chooses a worklet for the item at an identity, where the item's tree gives this one: `None` exactly where the tree gives
/// nothing, or the identity has 32 numbers or more, at which no worklet may begin. It takes no memory.
pub fn judge_select(node: Option<usize>, j: &Ident) -> Option<usize>
    ensures { result ≡ where_shallow j.now node }
{
    if j.numbers().len() >= DEPTH_END {
        return None;
    }
    node
}

/// The worklet's net as it begins for the item at an identity.
fn new_worklet(
    alloc: Global,
    forest: &Forest,
    item: &Task,
    worklet: &Spec,
    number: usize,
    j: &Ident,
) -> Result<NetState, AllocError>
    requires may { MayChoose forest.now worklet.now j.now }
    ensures { IfOk result (BeginsFor forest.now item.now worklet.now number j.now) }
{
    let given = &item_there(forest, j).given;
    begin_top(alloc, worklet, number, &Source::Given(&item.ins, given))
}

/// The item is executing, nobody has it, this net stands at it, and no worklet is to be chosen for it any more.
fn begin(node: &mut Node, net: Box<NetState>)
    ensures { out-Node node.new ≡ record (out-Node node.old) { stage = Executing; who = None; net = Some net; due = without_check Select (out-Node node.old).due } }
{
    node.stage = Stage::Executing;
    node.who = None;
    node.net = Some(net);
    node.due = Checks {
        select: false,
        ..node.due
    };
}

/// The worklet with this number stands for the item at an identity, which is of task `item` and at which no net stands: the item is executing
/// without a person, its choice is due no longer, and the worklet's top net stands at it, with one token on its input. A variable into which a
/// value comes has the value that the item was given under its name, if that is of its sort, and each other its own first value. An `Err` says
/// that no memory was left, and then all is as it was. Worklets are the thesis's; values by name are our own.
pub fn substitute(
    alloc: Global,
    forest: &mut Forest,
    item: &Task,
    worklet: &Spec,
    number: usize,
    j: &Ident,
) -> Result<(), AllocError>
    requires boxed { IsForest forest.old }
    requires may { MayChoose forest.old worklet.now j.now }
    ensures ok { OnOk result (Substitutes item.now worklet.now number j.now forest.old forest.new) }
    ensures err { OnErr result (forest.new ≡ forest.old) }
{
    let net = Box::new(alloc, new_worklet(alloc, forest, item, worklet, number, j)?)?;
    if let Some(node) = forest.item_mut(j) {
        begin(node, net);
    }
    Ok(())
}
