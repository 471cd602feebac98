// Nets in nets: the child net of a composite task's item begins and ends.
ghost use Rattle.std.specs.Prelude.{◌≡◌, IfOk, OnErr, OnOk, Some};
ghost use Rattle.yw_nest.specs.Items.{BeginsChild, CompletesSub, MadeByChild, StartsSub, SubMayEnd, SubMayStart};
ghost use Rattle.yw_state.specs.After.{due_where};
ghost use Rattle.yw_state.specs.declared.part.Stage.TheVariants.{Completed, Executing};
ghost use Rattle.yw_state.specs.declared.tree.TreeKind.TheVariants.{Post};
ghost use Rattle.yw_tree.specs.Forest.{IsForest};
ghost use Rattle.yw_tree.specs.declared.Node.{out-Node};

use crate::nets::{child_net, item_there, net_numbered, net_there, new_net, parent, task_at};
use crate::vals::{first_values, made_values};
use std::alloc::{AllocError, Global};
use yw_base::{Ident, Row};
use yw_spec::Spec;
use yw_state::{Checks, Stage};
use yw_tree::{Forest, NetState, Node};

/// The child net of the item at an identity, as it begins.
fn new_child(alloc: Global, forest: &Forest, spec: &Spec, j: &Ident) -> Result<NetState, AllocError>
    requires boxed { IsForest forest.now }
    requires may { SubMayStart forest.now spec.now j.now }
    ensures { IfOk result (BeginsChild forest.now spec.now j.now) }
{
    let outer_at = parent(alloc, j)?;
    let outer = net_there(forest, &outer_at);
    let item = item_there(forest, j);
    let task = task_at(net_numbered(spec, outer.net), item.task);
    let k = child_net(task);
    let child = net_numbered(spec, k);
    let vals = first_values(alloc, &child.vars, &task.ins, &item.given)?;
    new_net(alloc, outer.spec, k, child, vals)
}

/// The item is executing, and this net stands at it.
fn begin(node: &mut Node, net: Box<NetState>)
    ensures { out-Node node.new ≡ record (out-Node node.old) { stage = Executing; net = Some net } }
{
    node.stage = Stage::Executing;
    node.net = Some(net);
}

/// The item at an identity, which is ready and of a composite task of this specification, is executing from now on: the task's child net
/// stands at it, with one token on its input. A variable into which a value comes has the value that the item was given under its name, and
/// each other its own first value. An `Err` says that no memory was left, and then all is as it was. A composite task's net is the paper's;
/// values by name are our own.
pub fn start_sub(
    alloc: Global,
    forest: &mut Forest,
    spec: &Spec,
    j: &Ident,
) -> Result<(), AllocError>
    requires boxed { IsForest forest.old }
    requires may { SubMayStart forest.old spec.now j.now }
    ensures ok { OnOk result (StartsSub spec.now j.now forest.old forest.new) }
    ensures err { OnErr result (forest.new ≡ forest.old) }
{
    let net = Box::new(alloc, new_child(alloc, forest, spec, j)?)?;
    if let Some(node) = forest.item_mut(j) {
        begin(node, net);
    }
    Ok(())
}

/// What the item at an identity makes, by the variables of its child net.
fn made_by_child(alloc: Global, forest: &Forest, spec: &Spec, j: &Ident) -> Result<Row, AllocError>
    requires boxed { IsForest forest.now }
    requires may { SubMayEnd forest.now spec.now j.now }
    ensures { IfOk result (MadeByChild forest.now spec.now j.now) }
{
    let outer_at = parent(alloc, j)?;
    let outer = net_there(forest, &outer_at);
    let item = item_there(forest, j);
    let inner = net_there(forest, j);
    let task = task_at(net_numbered(spec, outer.net), item.task);
    let child = net_numbered(spec, inner.net);
    made_values(alloc, &task.outs, &child.vars, &inner.vals)
}

/// With the check after the item due too, if this says so.
fn with_post(due: Checks, post: bool) -> Checks
    ensures { result ≡ due_where post Post due }
{
    if post {
        Checks { post: true, ..due }
    } else {
        due
    }
}

/// The item is completed, and has made these values. If this says so, the check after it is due.
fn complete(node: &mut Node, made: Row, post: bool)
    ensures { out-Node node.new ≡ record (out-Node node.old) { stage = Completed; made = made; due = due_where post Post (out-Node node.old).due } }
{
    node.stage = Stage::Completed;
    node.made = made;
    node.due = with_post(node.due, post);
}

/// The item at an identity, whose child net is at its end, is completed: each of its task's `outs` has the value of the net's variable of that
/// name. The net goes, with all that stands strictly under the item. If `due` says so, its tree after it is to be asked. An `Err` says that
/// no memory was left, and then all is as it was. A composite task's net is the paper's; values by name are our own.
pub fn complete_sub(
    alloc: Global,
    forest: &mut Forest,
    spec: &Spec,
    j: &Ident,
    due: Checks,
) -> Result<(), AllocError>
    requires boxed { IsForest forest.old }
    requires may { SubMayEnd forest.old spec.now j.now }
    ensures ok { OnOk result (CompletesSub spec.now j.now due forest.old forest.new) }
    ensures err { OnErr result (forest.new ≡ forest.old) }
{
    let made = made_by_child(alloc, forest, spec, j)?;
    forest.bare_item(j);
    if let Some(node) = forest.item_mut(j) {
        complete(node, made, due.post);
    }
    Ok(())
}
