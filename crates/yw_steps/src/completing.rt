// An item is completed.
ghost use Rattle.std.specs.List.{list_all};
ghost use Rattle.std.specs.Prelude.{◌≡◌, ◌<◌, ℕ, IfOk, IsSome, List, None, Some, is_some, length};
ghost use Rattle.yw_expr.specs.Meaning.{val};
ghost use Rattle.yw_spec.specs.declared.spec.Net.{Net};
ghost use Rattle.yw_spec.specs.declared.task.Assign.{Assign};
ghost use Rattle.yw_steps.specs.Completes.{CompleteBreaks, Completes, Finds, defined_once};
ghost use Rattle.yw_base.specs.Identity.{parent};
ghost use Rattle.yw_task.specs.Asked.{complete_fault};
ghost use Rattle.yw_task.specs.Completes.{made_of};
ghost use Rattle.yw_tree.specs.Forest.{IsForest, item_of};
ghost use Rattle.yw_tree.specs.Places.{net_at};
ghost use Rattle.yw_tree.specs.declared.Forest as forests;
ghost use Rattle.yw_tree.specs.declared.Node.{out-Node};

use crate::together::made_so_far;
use std::alloc::{AllocError, Global};
use yw_base::{Ident, Row};
use yw_expr::{Joined, Values, view_of};
use yw_spec::{Assign, Net, Task};
use yw_state::{Checks, Refusal};
use yw_task::{finish, items_in, task_at, undefined_fault};
use yw_tree::{Forest, NetState, Node};

/// The assignment is defined over these values.
fn is_defined<V: Values>(assign: &Assign, row: &V) -> bool
    ensures { result ≡ is_some (val assign.now.value (V.values row.now)) }
{
    view_of(&assign.value, row).is_some()
}

/// Each assignment is.
fn all_defined<V: Values>(set: &[Assign], row: &V) -> bool
    ensures { result ≡ list_all (λ (a : Assign). is_some (val a.value (V.values row.now))) set.now }
{
    set.iter().all(|assign| is_defined(assign, row))
}

/// What the items of a task make together: of several what is listed, of one what it makes.
fn made_of<'a>(task: &Task, so_far: &'a Row, out: &'a Row) -> &'a Row
    ensures { result.now ≡ made_of task.now so_far.now out.now }
{
    if task.many.is_some() { so_far } else { out }
}

/// Whether each assignment of a task is defined, once its item at `j` has made these values: over what its items, `nodes`, make together, and
/// behind it the net's values. An `Err` says that no memory was left.
pub fn are_defined(
    alloc: Global,
    task: &Task,
    nodes: &[Node],
    vals: &Row,
    j: &Ident,
    out: &Row,
) -> Result<bool, AllocError>
    ensures { IfOk result (λ defined. defined ≡ defined_once task.now nodes.now vals.now j.now out.now) }
{
    if task.set.is_empty() {
        return Ok(true);
    }
    let so_far = made_so_far(alloc, task, nodes, j, out)?;
    let row = Joined {
        first: made_of(task, &so_far, out).as_slice(),
        then: vals.as_slice(),
    };
    Ok(all_defined(task.set.as_slice(), &row))
}

/// The first rule that a completion of this item breaks, where it stands in this net and breaks none by itself.
fn broken_of(
    alloc: Global,
    outer: &NetState,
    item: &Node,
    net: &Net,
    j: &Ident,
    out: &Row,
) -> Result<Option<Refusal>, AllocError>
    requires { (out-Node item.now).task < length net.now.tasks }
    ensures { (who : List ℕ) → complete_fault item.now who ≡ None → (f : forests.Forest)
        → item_of f j.now ≡ Some item.now → net_at f (parent j.now) ≡ Some outer.now
        → IfOk result (Finds f net.now j.now who out.now) }
{
    let task = task_at(net, item.task);
    let so_far = made_so_far(alloc, task, items_in(outer, item.task), j, out)?;
    undefined_fault(alloc, net, task, &outer.vals, &so_far, out)
}

/// The last rule that the completion of an item may break: `Mapping` where an assignment would be undefined over what the task's items make together
/// and the net's values, at the variable of the first such one; `None` where each is defined. What the item itself shows (its stage, who started it,
/// whether an exlet is at work on it) is asked before, by `ask_complete` of yw_task, and not again: the clause speaks of each person whose completion
/// breaks none of that. `item` is the one at the identity, and `outer` the net in which it stands, wherever they do; it has made these values, one for
/// each of the task's `outs` and of its sort. An `Err` says that no memory was left. That persons complete items is the paper's.
pub fn ask_mapping(
    alloc: Global,
    outer: &NetState,
    item: &Node,
    net: &Net,
    j: &Ident,
    out: &Row,
) -> Result<Option<Refusal>, AllocError>
    requires { (out-Node item.now).task < length net.now.tasks }
    ensures { (who : List ℕ) → complete_fault item.now who ≡ None → (f : forests.Forest)
        → IsForest f → item_of f j.now ≡ Some item.now → net_at f (parent j.now) ≡ Some outer.now
        → IfOk result (CompleteBreaks f net.now j.now who out.now) }
{
    // No work is done here: it says that it is an identity.
    let _ = j.numbers();
    broken_of(alloc, outer, item, net, j, out)
}

/// The item at an identity is completed, and has made these values. If `due` says so, the check after it is due. Nothing is tested. It takes no
/// memory.
pub fn finish_at(forest: &mut Forest, j: &Ident, out: Row, due: Checks)
    requires boxed { IsForest forest.old }
    requires stands { IsSome (item_of forest.old j.now) }
    ensures { (net : Net) → Completes net j.now out due forest.old forest.new }
{
    match forest.item_mut(j) {
        Some(node) => finish(node, out, due.post),
        None => unreachable!(),
    }
}
