// What may be done with an item: its start or completion.
ghost use Rattle.std.specs.Prelude.{◌≡◌, IfOk, option_to_list};
ghost use Rattle.yw_open.specs.Items.{at_stage, item_open};

use crate::tasks::is_atomic;
use crate::whom::{by_person, by_role};
use std::alloc::{AllocError, Global};
use yw_base::{Items, Name};
use yw_spec::Task;
use yw_state::{Stage, What};
use yw_tree::Node;
use yw_work::Open;

/// What may be done with an item that persons do, at this stage: nothing where it is completed.
fn at_stage(task: &Task, who: &Option<Name>, stage: Stage) -> Result<Option<Open>, AllocError>
    ensures { IfOk result (λ found. found ≡ at_stage task.now who.now stage) }
{
    match stage {
        Stage::Ready => Ok(Some(Open {
            task: task.name.copy()?,
            what: What::Start,
            by: by_role(&task.role)?,
        })),
        Stage::Executing => Ok(Some(Open {
            task: task.name.copy()?,
            what: What::Complete,
            by: by_person(who)?,
        })),
        Stage::Completed => Ok(None),
    }
}

/// What may be done with an item of a task: nothing where persons don't do it, and while an exlet is at work on it.
fn item_open(node: &Node, task: &Task) -> Result<Option<Open>, AllocError>
    ensures { IfOk result (λ found. found ≡ item_open node.now task.now) }
{
    if !is_atomic(task) || node.run.is_some() {
        return Ok(None);
    }
    at_stage(task, &node.who, node.stage)
}

/// What may be done with an item of a task at which no net stands, as a list. An `Err` says that no memory was left.
pub fn item_opens(alloc: Global, node: &Node, task: &Task) -> Result<Items<Open>, AllocError>
    ensures { IfOk result (λ opens. opens ≡ option_to_list (item_open node.now task.now)) }
{
    let mut opens = Items::new(alloc);
    if let Some(found) = item_open(node, task)? {
        opens.push(found)?;
    }
    Ok(opens)
}
