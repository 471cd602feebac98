// What the items of a task made together, and what is kept of it.
ghost use Rattle.std.specs.Prelude.{◌≡◌, ◌++◌, IfOk, OnOk, fold, slice_get, slice_set};
ghost use Rattle.std.specs.List.{filter_map};
ghost use Rattle.std.specs.Option.{option_copied};
ghost use Rattle.yw_base.specs.Values.{zero_of};
ghost use Rattle.yw_state.specs.Passing.{int_in, kept_values, text_in};
ghost use Rattle.yw_expr.specs.Rows.{put_in};
ghost use Rattle.yw_state.specs.Values.{Row};
ghost use Rattle.yw_state.specs.Words.{is_completed};
ghost use Rattle.yw_task.specs.Making.{assigned, column, first_or, int_by, is_text, listed, made_by, out_value, outs_from, rows_made, text_by};
ghost use Rattle.yw_tree.specs.Shows.{items_in};

use std::alloc::{AllocError, Global};
use yw_base::{Items, Row, Sort, Text, TextList, Value};
use yw_expr::{Joined, Put, view_of};
use yw_spec::{Assign, Task};
use yw_state::Stage;
use yw_tree::{NetState, Node};

/// The items of a task; none where the net has no list for it.
pub fn items_in(state: &NetState, t: usize) -> &[Node]
    ensures { result.now ≡ items_in state.now t }
{
    match state.items.get(t) {
        Some(list) => list.as_slice(),
        None => &[],
    }
}

/// It has made its values.
fn is_completed(stage: Stage) -> bool
    ensures { result ≡ is_completed stage }
{
    match stage {
        Stage::Completed => true,
        Stage::Ready | Stage::Executing => false,
    }
}

/// What an item that is completed has made of the parameter with this number.
pub fn made_by(node: &Node, k: usize) -> Option<&Value>
    ensures { option_copied result ≡ made_by k node.now }
{
    if is_completed(node.stage) {
        node.made.get(k)
    } else {
        None
    }
}

/// The whole number, where the value is one.
pub fn int_in(value: &Value) -> Option<i64>
    ensures { result ≡ int_in value.now }
{
    match value {
        Value::Int(int) => Some(*int),
        _ => None,
    }
}

/// The text, where the value is one.
pub fn text_in(value: &Value) -> Option<&Text>
    ensures { option_copied result ≡ text_in value.now }
{
    match value {
        Value::Text(text) => Some(text),
        _ => None,
    }
}

/// The whole number that an item made of a parameter.
fn int_by(node: &Node, k: usize) -> Option<i64>
    ensures { result ≡ int_by k node.now }
{
    int_in(made_by(node, k)?)
}

/// The text that an item made of a parameter.
fn text_by(node: &Node, k: usize) -> Option<&Text>
    ensures { option_copied result ≡ text_by k node.now }
{
    text_in(made_by(node, k)?)
}

/// The whole numbers that the items made of a parameter.
fn ints(alloc: Global, nodes: &[Node], k: usize) -> Result<Vec<i64>, AllocError>
    ensures { IfOk result (λ ints. ints.items ≡ filter_map (int_by k) nodes.now) }
{
    nodes
        .iter()
        .filter_map(|node| int_by(node, k))
        .collect(alloc)
}

/// The texts that the items made of a parameter.
fn texts(alloc: Global, nodes: &[Node], k: usize) -> Result<TextList, AllocError>
    ensures { IfOk result (λ texts. texts ≡ filter_map (text_by k) nodes.now) }
{
    let mut texts = Items::new(alloc);
    for node in nodes {
        if let Some(text) = text_by(node, k) {
            texts.push(Text::copy_of(alloc, text.as_str())?)?;
        }
    }
    Ok(texts)
}

/// It is the sort of texts.
pub fn is_text(sort: Sort) -> bool
    ensures { result ≡ is_text sort }
{
    match sort {
        Sort::Text => true,
        Sort::Bool | Sort::Int | Sort::Ints | Sort::Texts => false,
    }
}

/// The list of what the items made of a parameter of this sort.
fn listed(alloc: Global, sort: Sort, nodes: &[Node], k: usize) -> Result<Value, AllocError>
    ensures { IfOk result (λ value. value ≡ listed sort k nodes.now) }
{
    if is_text(sort) {
        return Ok(Value::Texts(texts(alloc, nodes, k)?));
    }
    Ok(Value::Ints(Items::from_vec(ints(alloc, nodes, k)?)))
}

/// The value of a sort where none was made. It takes no memory.
fn zero_of(alloc: Global, sort: Sort) -> Value
    ensures { result ≡ zero_of sort }
{
    match sort {
        Sort::Bool => Value::Bool(false),
        Sort::Int => Value::Int(0),
        Sort::Text => Value::Text(Text::new(alloc)),
        Sort::Ints => Value::Ints(Items::new(alloc)),
        Sort::Texts => Value::Texts(Items::new(alloc)),
    }
}

/// What the first item made that made something of a parameter.
fn first_made(nodes: &[Node], k: usize) -> Option<&Value>
    ensures { option_copied result ≡ slice_get (column k nodes.now) 0 }
{
    for node in nodes {
        if let Some(value) = made_by(node, k) {
            return Some(value);
        }
    }
    None
}

/// What the item made of a parameter of this sort.
fn value_of(alloc: Global, sort: Sort, nodes: &[Node], k: usize) -> Result<Value, AllocError>
    ensures { IfOk result (λ value. value ≡ first_or (zero_of sort) (column k nodes.now)) }
{
    match first_made(nodes, k) {
        Some(value) => value.copy(alloc),
        None => Ok(zero_of(alloc, sort)),
    }
}

/// What the items made together of a parameter of this sort: of a task that runs over a list the list of the values, of another the value.
fn out_value(
    alloc: Global,
    task: &Task,
    sort: Sort,
    nodes: &[Node],
    k: usize,
) -> Result<Value, AllocError>
    ensures { IfOk result (λ value. value ≡ out_value task.now.many sort k nodes.now) }
{
    match &task.many {
        Some(_) => listed(alloc, sort, nodes, k),
        None => value_of(alloc, sort, nodes, k),
    }
}

/// What the items made of each parameter, one for one.
fn made_row(alloc: Global, task: &Task, nodes: &[Node]) -> Result<Row, AllocError>
    ensures { IfOk result (λ row. row ≡ outs_from task.now nodes.now 0 task.now.outs) }
{
    let mut row = Items::new(alloc);
    for (k, param) in task.outs.as_slice().iter().enumerate() {
        row.push(out_value(alloc, task, param.sort, nodes, k)?)?;
    }
    Ok(row)
}

/// Makes an assignment over this row, behind others: its value is kept beside its variable, where it is defined.
fn push_assigned(
    alloc: Global,
    puts: &mut Items<Put>,
    assign: &Assign,
    over: &Joined<'_>,
) -> Result<(), AllocError>
    ensures { OnOk result ((vals : Row)
        → fold put_in vals puts.new
        ≡ assigned (over.now.first.now ++ over.now.then.now) (fold put_in vals puts.old) assign.now) }
{
    if let Some(value) = view_of(&assign.value, over) {
        let value = value.to_value(alloc)?;
        puts.push(Put {
            at: assign.var,
            value,
        })?;
    }
    Ok(())
}

/// The values that the assignments of a task leave, which has these items, each beside its variable: each over what the items made and the net's
/// values as they are. One that is undefined leaves its variable. No value of the net is copied. An `Err` says that no memory was left.
pub fn assigned_values(
    alloc: Global,
    task: &Task,
    nodes: &[Node],
    vals: &Row,
) -> Result<Items<Put>, AllocError>
    ensures { IfOk result (λ puts. fold put_in vals.now puts ≡ kept_values task.now (rows_made nodes.now) vals.now) }
{
    let mut puts = Items::new(alloc);
    if task.set.is_empty() {
        return Ok(puts);
    }
    let made = made_row(alloc, task, nodes)?;
    let over = Joined {
        first: made.as_slice(),
        then: vals.as_slice(),
    };
    for one in task.set.as_slice() {
        push_assigned(alloc, &mut puts, one, &over)?;
    }
    Ok(puts)
}

/// Puts a value in the place of the one with this number, where there is one.
fn put(vals: &mut Row, k: usize, value: Value)
    ensures { vals.new ≡ slice_set vals.old k value }
{
    if k < vals.len() {
        vals.set(k, value);
    }
}

/// Puts these values in the place of others, in turn.
pub fn put_all(vals: &mut Row, puts: Items<Put>)
    ensures { vals.new ≡ fold put_in vals.old puts }
{
    for one in puts.into_vec() {
        let Put { at, value } = one;
        put(vals, at, value);
    }
}
