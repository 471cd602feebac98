// What is done.
use crate::{Conclusion, Primitive, TreeKind, TreePlace};
use yw_base::{Ident, Items, Name, NameList, Row, Text, Value};
use yw_spec::PlaceList;

/// The atomic step. The events of one accepted command are its entry, which the files hold whole or not at all. Those
/// from `Launch` to `CompleteEmpty` are the paper's transitions over named items; those from `Pass` on are after the
/// thesis's worklets and exlets. Where an event is allowed, numbers of cases, items and runs are 1 to 2^48 - 1.
#[derive(Debug, Drop)]
pub enum Event {
    /// This person has these roles, at most 64 and none twice, and no others.
    Person {
        name: Name,
        roles: NameList,
    },
    /// The specification that this text says is loaded under its name.
    Load {
        name: Name,
        text: Text,
    },
    /// A rule is attached to the tree at this place, at this side of node `at`. Rules are numbered 1 to 65,535; node 0 is the root.
    AddRule {
        place: TreePlace,
        at: u32,
        side: bool,
        when: Text,
        conclusion: Conclusion,
        number: u32,
    },
    /// The case with this number begins, with these values of the top net's variables.
    Launch {
        case: u64,
        spec: Name,
        values: Row,
    },
    /// Tokens are taken from these places of the net, and `count` items of the task are made, numbered from `first`.
    Enter {
        net: Ident,
        task: Name,
        places: PlaceList,
        first: u64,
        count: u32,
    },
    /// This person begins the item.
    Start {
        item: Ident,
        who: Name,
    },
    /// The item has made these values.
    Complete {
        item: Ident,
        out: Row,
    },
    /// The task's items go, and a token comes to each of these places of the net.
    Exit {
        net: Ident,
        task: Name,
        places: PlaceList,
    },
    /// The task has one item more, for this element and with this number.
    Add {
        net: Ident,
        task: Name,
        value: Value,
        number: u64,
    },
    /// The case is over: its output is marked.
    Finish {
        case: u64,
    },
    /// The case is over: a person wants it so.
    Cancel {
        case: u64,
    },
    /// The item's child net begins.
    StartSub {
        item: Ident,
    },
    /// The item's child net is at its end.
    CompleteSub {
        item: Ident,
    },
    /// The item of an empty task is done by itself.
    CompleteEmpty {
        item: Ident,
    },
    /// A check that is due concludes nothing.
    Pass {
        at: Ident,
        check: TreeKind,
    },
    /// A check that is due concludes this node: its exlet begins, as a run with this number.
    Except {
        at: Ident,
        check: TreeKind,
        node: u32,
        number: u64,
    },
    /// A worklet of this specification stands for the item.
    Substitute {
        item: Ident,
        worklet: Name,
    },
    /// The item's worklet is at its end.
    CompleteWorklet {
        item: Ident,
    },
    /// Something happened outside, and the tree concludes this node: its exlet begins, as a run with this number.
    Raise {
        at: Ident,
        kind: TreeKind,
        node: u32,
        number: u64,
    },
    /// The run takes the first of its primitives.
    Prim {
        run: Ident,
        primitive: Primitive,
    },
    /// The run's compensation is at its end.
    Compensated {
        run: Ident,
    },
    /// The case or the item is suspended.
    Suspend {
        at: Ident,
    },
    /// The case or the item is suspended no longer.
    Continue {
        at: Ident,
    },
    /// Nothing is done, so that what follows of itself comes.
    Advance {
        case: u64,
    },
}

/// Events in order.
pub type EventList = Items<Event>;
