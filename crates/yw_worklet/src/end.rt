// A worklet ends, and its item is completed.
ghost use Rattle.std.specs.Prelude.{◌≡◌, IfOk, OnErr, OnOk};
ghost use Rattle.yw_state.specs.After.{due_where};
ghost use Rattle.yw_state.specs.declared.part.Stage.TheVariants.{Completed};
ghost use Rattle.yw_state.specs.declared.tree.TreeKind.TheVariants.{Post};
ghost use Rattle.yw_tree.specs.Forest.{IsForest};
ghost use Rattle.yw_tree.specs.declared.Node.{out-Node};
ghost use Rattle.yw_worklet.specs.Ends.{CompletesWorklet, MadeByWorklet, MayEnd};

use crate::names::{Source, returned_values};
use crate::nets::{item_there, net_numbered, net_there};
use std::alloc::{AllocError, Global};
use yw_base::{Ident, Row};
use yw_spec::{Spec, Task};
use yw_state::{Checks, Stage};
use yw_tree::{Forest, Node};

/// What the item at an identity makes at the end of its worklet.
fn made_by_worklet(
    alloc: Global,
    forest: &Forest,
    item: &Task,
    worklet: &Spec,
    j: &Ident,
) -> Result<Row, AllocError>
    requires may { MayEnd forest.now worklet.now j.now }
    ensures { IfOk result (MadeByWorklet forest.now item.now worklet.now j.now) }
{
    let given = Source::Given(&item.ins, &item_there(forest, j).given);
    let inner = net_there(forest, j);
    let net = net_numbered(worklet, inner.net);
    returned_values(alloc, &item.outs, &net.vars, &inner.vals, &given)
}

/// With the check after the item due too, if this says so.
fn with_post(due: Checks, post: bool) -> Checks
    ensures { result ≡ due_where post Post due }
{
    if post {
        Checks { post: true, ..due }
    } else {
        due
    }
}

/// The item is completed, and has made these values. If this says so, the check after it is due.
fn complete(node: &mut Node, made: Row, post: bool)
    ensures { out-Node node.new ≡ record (out-Node node.old) { stage = Completed; made = made; due = due_where post Post (out-Node node.old).due } }
{
    node.stage = Stage::Completed;
    node.made = made;
    node.due = with_post(node.due, post);
}

/// The item at an identity, which is of task `item` and whose worklet is at its end, is completed: each of its task's `outs` has what the
/// worklet hands back under its name, if that is of its sort, else the value of its name and sort that the item was given, else false, 0, the
/// empty text or the empty list. The net goes, with all that stands strictly under the item. If `due` says so, its tree after it is to be
/// asked. An `Err` says that no memory was left, and then all is as it was. Worklets are the thesis's; values by name are our own.
pub fn complete_worklet(
    alloc: Global,
    forest: &mut Forest,
    item: &Task,
    worklet: &Spec,
    j: &Ident,
    due: Checks,
) -> Result<(), AllocError>
    requires boxed { IsForest forest.old }
    requires may { MayEnd forest.old worklet.now j.now }
    ensures ok { OnOk result (CompletesWorklet item.now worklet.now j.now due forest.old forest.new) }
    ensures err { OnErr result (forest.new ≡ forest.old) }
{
    let made = made_by_worklet(alloc, forest, item, worklet, j)?;
    forest.bare_item(j);
    if let Some(node) = forest.item_mut(j) {
        complete(node, made, due.post);
    }
    Ok(())
}
