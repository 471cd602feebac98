//! The cases in memory: boxes in boxes that are the flat map of `yw_state`. `Forest` has the calls; each says exactly what it does
//! to the boxes, and each change what the map is afterwards. The README of the crate says which clause proves what.
#![tactic(auto)]

use yw_base::{Ident, Name, Row};
use yw_state::{Checks, Marks, PrimitiveList, Stage};

/// An item: its identity, its task by number, how far it has come, what it was given and has made, and who is at work on it.
/// `net` is its child net or worklet, `run` the exlet's run on it, and `due` what it is still to be judged by. Items of a
/// task that stand in a net are the paper's; the net, the run and the checks at an item are after the thesis.
#[cycle(boxes)]
#[derive(Drop)]
pub struct Node {
    pub id: Ident,
    pub task: usize,
    pub stage: Stage,
    pub given: Row,
    pub made: Row,
    pub who: Option<Name>,
    pub net: Option<Box<NetState>>,
    pub suspended: bool,
    pub due: Checks,
    pub run: Option<Box<Run>>,
}

/// A net by its number in its specification, which has its own number: tokens by place, values by variable, and for each task the
/// list of its items, in order of identity. One list for each task is our own.
#[cycle(boxes)]
#[derive(Drop)]
pub struct NetState {
    pub spec: usize,
    pub net: usize,
    pub marks: Marks,
    pub vals: Row,
    pub items: Vec<Vec<Node>>,
}

/// A run of an exlet: what is left to do, whether it waits for its compensation, and the net of that. After the thesis.
#[cycle(boxes)]
#[derive(Drop)]
pub struct Run {
    pub id: Ident,
    pub rest: PrimitiveList,
    pub waiting: bool,
    pub net: Option<Box<NetState>>,
}

/// A case: its net, and the exlet's run on it.
#[derive(Drop)]
pub struct Case {
    pub id: Ident,
    pub net: NetState,
    pub suspended: bool,
    pub due: Checks,
    pub run: Option<Box<Run>>,
}

/// All cases.
#[derive(Drop)]
pub struct Forest {
    pub cases: CaseTable,
}

mod bare;
mod begin;
mod cases;
mod cut;
mod descend;
mod find;
mod grow;
mod hold;
pub mod laws;
mod nets;
mod numbers;
mod parts;

pub use cases::CaseTable;
pub use find::Spot;
pub use nets::{add_item, clear_task, remove_item};
