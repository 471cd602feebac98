// An item is completed.
ghost use Rattle.std.specs.Prelude.{◌≡◌, ◌<◌, IfOk, OnErr, OnOk, is_none, length};
ghost use Rattle.yw_expr.specs.Meaning.{val};
ghost use Rattle.yw_state.specs.After.{due_where};
ghost use Rattle.yw_state.specs.Broken.{placeless};
ghost use Rattle.yw_state.specs.declared.part.Stage.TheVariants.{Completed};
ghost use Rattle.yw_state.specs.declared.tree.TreeKind.TheVariants.{Post};
ghost use Rattle.yw_task.specs.Completes.{AnswersFirst, CompleteBreaks, Completes, completion_fault};
ghost use Rattle.yw_task.specs.Completes.{first_undefined, made_of, mapping_fault, name_of, undefined_fault};
ghost use Rattle.yw_tree.specs.declared.Node.{out-Node};

use crate::ask::{complete_fault, task_at};
use crate::fault::StepFault;
use std::alloc::{AllocError, Global};
use yw_base::{Name, Row, Text};
use yw_expr::{Joined, Values, view_of};
use yw_spec::{Assign, Net, Task};
use yw_state::{Checks, Refusal, Rule, Stage};
use yw_tree::Node;

/// The name of a variable of the net; the empty text where it has none with this number.
fn name_of(alloc: Global, net: &Net, k: usize) -> Result<Text, AllocError>
    ensures { IfOk result (λ name. name ≡ name_of net.now k) }
{
    match net.vars.get(k) {
        Some(var) => Text::copy_of(alloc, var.name.as_str()),
        None => Ok(Text::new(alloc)),
    }
}

/// The assignment is undefined over these values.
fn is_undefined<V: Values>(assign: &Assign, row: &V) -> bool
    ensures { result ≡ is_none (val assign.now.value (V.values row.now)) }
{
    view_of(&assign.value, row).is_none()
}

/// The variable of the first assignment that is undefined over these values.
fn first_undefined<V: Values>(set: &[Assign], row: &V) -> Option<usize>
    ensures { result ≡ first_undefined set.now (V.values row.now) }
{
    set.iter()
        .find(|assign| is_undefined(assign, row))
        .map(|assign| assign.var)
}

/// What the items of a task made together: of several what is listed, of one what it makes.
fn made_of<'a>(task: &Task, so_far: &'a Row, out: &'a Row) -> &'a Row
    ensures { result.now ≡ made_of task.now so_far.now out.now }
{
    if task.many.is_some() { so_far } else { out }
}

/// `Mapping` at this variable, if there is one.
fn mapping_fault(
    alloc: Global,
    net: &Net,
    var: Option<usize>,
) -> Result<Option<Refusal>, AllocError>
    ensures { IfOk result (λ found. found ≡ mapping_fault net.now var) }
{
    match var {
        None => Ok(None),
        Some(k) => Ok(Some(Refusal {
            rule: Rule::Mapping,
            at: name_of(alloc, net, k)?,
        })),
    }
}

/// A rule without a place.
pub fn placeless(alloc: Global, rule: Rule) -> Refusal
    ensures { result ≡ placeless rule }
{
    Refusal {
        rule,
        at: Text::new(alloc),
    }
}

/// `Mapping` where an assignment of the task would be undefined, at the variable of the first such one: over what the task's items made together, which
/// is `so_far` where it runs over a list and else `out`, and behind it the net's values, `vals`. An `Err` says that no memory was left.
pub fn undefined_fault(
    alloc: Global,
    net: &Net,
    task: &Task,
    vals: &Row,
    so_far: &Row,
    out: &Row,
) -> Result<Option<Refusal>, AllocError>
    ensures { IfOk result (λ found.
        found ≡ undefined_fault net.now task.now vals.now so_far.now out.now) }
{
    if task.set.is_empty() {
        return Ok(None);
    }
    let row = Joined {
        first: made_of(task, so_far, out).as_slice(),
        then: vals.as_slice(),
    };
    mapping_fault(alloc, net, first_undefined(task.set.as_slice(), &row))
}

/// The first rule that a completion breaks.
fn completion_fault(
    alloc: Global,
    net: &Net,
    task: &Task,
    vals: &Row,
    so_far: &Row,
    node: &Node,
    who: &Name,
    out: &Row,
) -> Result<Option<Refusal>, AllocError>
    ensures { IfOk result (λ found. found
        ≡ completion_fault net.now task.now vals.now so_far.now node.now who.now out.now) }
{
    match complete_fault(node, who) {
        Some(rule) => Ok(Some(placeless(alloc, rule))),
        None => undefined_fault(alloc, net, task, vals, so_far, out),
    }
}

/// With the check after the item due too, if this says so.
fn with_post(due: Checks, post: bool) -> Checks
    ensures { result ≡ due_where post Post due }
{
    if post {
        Checks { post: true, ..due }
    } else {
        due
    }
}

/// The item is completed and has made these values. The check after it is due from now on, if this says so.
pub fn finish(node: &mut Node, out: Row, post: bool)
    ensures { out-Node node.new ≡ record (out-Node node.old) { stage = Completed; made = out; due = due_where post Post (out-Node node.old).due } }
{
    node.stage = Stage::Completed;
    node.made = out;
    node.due = with_post(node.due, post);
}

/// A person completes an item that it started, which has made these values, one for each of the task's `outs` and of its sort. From now on
/// it is completed, and if `due` says so its tree after it is to be asked. `so_far` has, for each of the `outs` of a task that runs over a
/// list, the list of what the task's completed items made, with this one's value in its place; for another task nothing reads it. `vals` are
/// the net's values.
///
/// `Refused` has the first rule that this breaks, of those that are looked at here: `Stage` where it isn't executing, `NotYours` where another
/// person started it, `Busy` where an exlet is at work on it, and `Mapping` where an assignment would be undefined, at the variable of the
/// first such one. Then, and where no memory is left, it is as it was.
pub fn complete(
    alloc: Global,
    net: &Net,
    vals: &Row,
    so_far: &Row,
    node: &mut Node,
    who: &Name,
    out: Row,
    due: Checks,
) -> Result<(), StepFault>
    requires { (out-Node node.old).task < length net.now.tasks }
    ensures ok { OnOk result (Completes node.old out due node.new) }
    ensures first { AnswersFirst (CompleteBreaks net.now vals.now so_far.now node.old who.now out) result }
    ensures err { OnErr result (node.new ≡ node.old) }
{
    let task = task_at(net, node.task);
    if let Some(refusal) = completion_fault(alloc, net, task, vals, so_far, node, who, &out)? {
        return Err(StepFault::Refused(refusal));
    }
    finish(node, out, due.post);
    Ok(())
}
