// What the items of a task make together, once one of them has made its values.
ghost use Rattle.std.specs.Prelude.{◌≡◌, IfOk, is_some, true};
ghost use Rattle.std.specs.List.{filter_map};
ghost use Rattle.std.specs.Option.{option_copied};
ghost use Rattle.std.specs.Prelude.{option_and_then};
ghost use Rattle.yw_state.specs.Passing.{int_in, text_in};
ghost use Rattle.yw_steps.specs.Completes.{listed_once, made_once, outs_once};

use std::alloc::{AllocError, Global};
use yw_base::{Ident, Items, Row, Sort, Text, TextList, Value};
use yw_spec::Task;
use yw_task::{int_in, is_text, made_by, text_in};
use yw_tree::Node;

/// What an item has made of the parameter with this number, once the one at `j` has made these values.
fn made_once<'a>(node: &'a Node, j: &Ident, out: &'a Row, k: usize) -> Option<&'a Value>
    ensures { option_copied result ≡ made_once j.now out.now k node.now }
{
    if node.id.numbers() == j.numbers() {
        out.get(k)
    } else {
        made_by(node, k)
    }
}

/// The whole number of it.
fn int_once(node: &Node, j: &Ident, out: &Row, k: usize) -> Option<i64>
    ensures { result ≡ option_and_then int_in (made_once j.now out.now k node.now) }
{
    int_in(made_once(node, j, out, k)?)
}

/// The text of it.
fn text_once<'a>(node: &'a Node, j: &Ident, out: &'a Row, k: usize) -> Option<&'a Text>
    ensures { option_copied result ≡ option_and_then text_in (made_once j.now out.now k node.now) }
{
    text_in(made_once(node, j, out, k)?)
}

fn ints(
    alloc: Global,
    nodes: &[Node],
    j: &Ident,
    out: &Row,
    k: usize,
) -> Result<Vec<i64>, AllocError>
    ensures { IfOk result (λ ints. ints.items ≡ filter_map (λ n. option_and_then int_in (made_once j.now out.now k n)) nodes.now) }
{
    nodes
        .iter()
        .filter_map(|node| int_once(node, j, out, k))
        .collect(alloc)
}

fn texts(
    alloc: Global,
    nodes: &[Node],
    j: &Ident,
    out: &Row,
    k: usize,
) -> Result<TextList, AllocError>
    ensures { IfOk result (λ texts. texts ≡ filter_map (λ n. option_and_then text_in (made_once j.now out.now k n)) nodes.now) }
{
    let mut texts = Items::new(alloc);
    for node in nodes {
        if let Some(text) = text_once(node, j, out, k) {
            texts.push(Text::copy_of(alloc, text.as_str())?)?;
        }
    }
    Ok(texts)
}

/// The list of it, over the items.
fn listed(
    alloc: Global,
    sort: Sort,
    nodes: &[Node],
    j: &Ident,
    out: &Row,
    k: usize,
) -> Result<Value, AllocError>
    ensures { IfOk result (λ value. value ≡ listed_once j.now out.now sort k nodes.now) }
{
    if is_text(sort) {
        return Ok(Value::Texts(texts(alloc, nodes, j, out, k)?));
    }
    Ok(Value::Ints(Items::from_vec(ints(alloc, nodes, j, out, k)?)))
}

/// The lists for all of the task's `outs`.
fn outs_once(
    alloc: Global,
    task: &Task,
    nodes: &[Node],
    j: &Ident,
    out: &Row,
) -> Result<Row, AllocError>
    ensures { IfOk result (λ row. row ≡ outs_once j.now out.now nodes.now 0 task.now.outs) }
{
    let mut row = Items::new(alloc);
    for (k, param) in task.outs.as_slice().iter().enumerate() {
        row.push(listed(alloc, param.sort, nodes, j, out, k)?)?;
    }
    Ok(row)
}

/// Where the task runs over a list, the lists of what its items make, once the one at `j` has made these values; else nothing reads it.
pub fn made_so_far(
    alloc: Global,
    task: &Task,
    nodes: &[Node],
    j: &Ident,
    out: &Row,
) -> Result<Row, AllocError>
    ensures { IfOk result (λ row. is_some task.now.many ≡ true → row ≡ outs_once j.now out.now nodes.now 0 task.now.outs) }
{
    if task.many.is_none() {
        return Ok(Items::new(alloc));
    }
    outs_once(alloc, task, nodes, j, out)
}
