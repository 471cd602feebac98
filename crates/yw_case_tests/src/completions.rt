// What no clause says: that an item is completed by one call where memory is there. The program completes one by the parts of this call.
use std::alloc::Global;
use yw_base::{Ident, Items, Name, Row, Value};
use yw_check::check;
use yw_documents::divides;
use yw_read::read_spec;
use yw_spec::{Net, Spec};
use yw_state::{Checks, Rule, Stage};
use yw_task::{StepFault, complete, start};
use yw_tree::Node;

const NOTHING_DUE: Checks = Checks {
    pre: false,
    select: false,
    post: false,
};

/// The specification whose task divides 100 by what its item makes.
fn spec_of(alloc: Global) -> Option<Spec> {
    check(alloc, read_spec(alloc, divides()).ok()?).ok()
}

fn row_of(alloc: Global, n: i64) -> Option<Row> {
    let mut row = Items::new(alloc);
    row.push(Value::Int(n)).ok()?;
    Some(row)
}

/// Item 1.2 of the first task, which ann has started.
fn started(alloc: Global) -> Option<Node> {
    let id = Ident::read(alloc, "1.2").ok()?;
    let mut node = Node::ready(alloc, id, 0, Items::new(alloc));
    start(&mut node, Name::read(alloc, "ann").ok()?).ok()?;
    Some(node)
}

/// Somebody completes the item, which has made this. What comes of it is the rule that is broken, or none.
fn completes(alloc: Global, net: &Net, node: &mut Node, who: &str, n: i64) -> Option<Option<Rule>> {
    let (vals, so_far) = (row_of(alloc, 0)?, Items::new(alloc));
    let who = Name::read(alloc, who).ok()?;
    if node.task >= net.tasks.len() {
        return None;
    }
    match complete(
        alloc,
        net,
        &vals,
        &so_far,
        node,
        &who,
        row_of(alloc, n)?,
        NOTHING_DUE,
    ) {
        Ok(()) => Some(None),
        Err(StepFault::Refused(refusal)) => Some(Some(refusal.rule)),
        Err(StepFault::Memory) => None,
    }
}

/// Bob may not, nor may it be divided by zero; then the item is completed.
fn goes(alloc: Global) -> Option<bool> {
    let spec = spec_of(alloc)?;
    let net = spec.nets.get(spec.top)?;
    let mut node = started(alloc)?;
    let strange = completes(alloc, net, &mut node, "bob", 5)?;
    let undefined = completes(alloc, net, &mut node, "ann", 0)?;
    let defined = completes(alloc, net, &mut node, "ann", 5)?;
    Some(
        strange == Some(Rule::NotYours)
            && undefined == Some(Rule::Mapping)
            && defined.is_none()
            && node.stage == Stage::Completed,
    )
}

#[test]
fn an_item_is_completed_by_one_call(rt: HostRuntime) {
    assert!(rt; goes(rt.alloc()) == Some(true));
}
