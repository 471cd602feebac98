//! What begins: a net without items, an item that is ready, a run that has all to do.
ghost use Rattle.std.specs.Prelude.{◌≡◌, IfOk};
ghost use Rattle.yw_state.specs.State.{no_checks};
ghost use Rattle.yw_tree.specs.Begins.{BeginsItem, BeginsNet, BeginsRun};

use crate::{NetState, Node, Run};
use std::alloc::{AllocError, Global};
use yw_base::{Ident, Items, Row};
use yw_state::{Checks, Marks, PrimitiveList, Stage};

fn nothing_due() -> Checks
    ensures { result ≡ no_checks }
{
    Checks {
        pre: false,
        select: false,
        post: false,
    }
}

impl NetState {
    /// A net of a specification, each by its number, with these tokens and values. It has no item, and a list for each of its
    /// tasks.
    pub fn empty(
        alloc: Global,
        spec: usize,
        net: usize,
        marks: Marks,
        vals: Row,
        tasks: usize,
    ) -> Result<NetState, AllocError>
        ensures { IfOk result (BeginsNet spec net marks vals tasks) }
    {
        let mut items = Vec::new(alloc);
        for _ in 0..tasks {
            items.push(Vec::new(alloc))?;
        }
        Ok(NetState {
            spec,
            net,
            marks,
            vals,
            items,
        })
    }
}

impl Node {
    /// An item of a task, by the task's number, that is ready and given these values. It takes no memory.
    pub fn ready(alloc: Global, id: Ident, task: usize, given: Row) -> Node
        ensures { BeginsItem id task given result }
    {
        Node {
            id,
            task,
            stage: Stage::Ready,
            given,
            made: Items::new(alloc),
            who: None,
            net: None,
            suspended: false,
            due: nothing_due(),
            run: None,
        }
    }
}

impl Run {
    /// A run that has all of this to do. It takes no memory.
    pub fn begin(id: Ident, rest: PrimitiveList) -> Run
        ensures { BeginsRun id rest result }
    {
        Run {
            id,
            rest,
            waiting: false,
            net: None,
        }
    }
}
