// The tasks of a net.
ghost use Rattle.std.specs.Prelude.{◌≡◌, ◌<◌, [], length, get_or, All, IfOk};
ghost use Rattle.std.specs.List.{AllZip};
ghost use Rattle.yw_accept.specs.Built.{IsTask};
ghost use Rattle.yw_accept.specs.Facts.{NetIsNamed, NetLeads};
ghost use Rattle.yw_accept.specs.Nodes.{net_names, task_names};
ghost use Rattle.yw_accept.specs.Index.{IsIndexOf};
ghost use Rattle.yw_build.specs.Numbers.{AreNumbers};
ghost use Rattle.yw_accept.specs.Ready.{TaskIsReady};
ghost use Rattle.yw_build.specs.Rows.{AreAround};

use crate::branches::branches_of;
use crate::kinds::{SpecNumbers, kind_of};
use crate::many::many_of;
use crate::numbers::NetNumbers;
use crate::parameters::{ins_of, sets_of};
use crate::removals::{removed_places, removed_tasks};
use crate::rows::{Around, places_around, row_of};
use crate::values::outs_of;
use crate::words::{maybe_name, name_of};
use std::alloc::{AllocError, Global};
use yw_accept::outs_layer;
use yw_base::Items;
use yw_read::RawTask;
use yw_spec::{Task, TaskList};

/// The task with this number.
fn task_of(
    alloc: Global,
    spec: &SpecNumbers<'_>,
    numbers: &NetNumbers<'_>,
    around: &Around,
    number: usize,
    said: &RawTask,
) -> Result<Task, AllocError>
    requires nets { IsIndexOf (net_names spec.now.said.now.net) spec.now.nets }
    requires numbers { AreNumbers numbers.now }
    requires named { NetIsNamed numbers.now.said.now }
    requires leads { NetLeads numbers.now.said.now }
    requires around { AreAround numbers.now.said.now around.now }
    requires within { number < length numbers.now.said.now.task }
    requires is { get_or (task_names numbers.now.said.now.task) number [] ≡ said.now.name }
    requires ready { TaskIsReady spec.now.said.now numbers.now.said.now said.now }
    ensures { IfOk result (IsTask spec.now.said.now numbers.now.said.now said.now) }
{
    let outs = outs_layer(alloc, said)?;
    Ok(Task {
        name: name_of(alloc, &said.name)?,
        kind: kind_of(spec, said),
        role: maybe_name(alloc, said.role.as_ref())?,
        join: said.join,
        split: said.split,
        before: row_of(alloc, &around.before, number)?,
        after: row_of(alloc, &around.after, number)?,
        branch: branches_of(alloc, numbers, said)?,
        drop_places: removed_places(alloc, numbers, said.remove.as_slice())?,
        drop_tasks: removed_tasks(alloc, numbers, said.remove.as_slice())?,
        ins: ins_of(alloc, numbers, said.ins.as_slice())?,
        outs: outs_of(alloc, said.outs.as_slice())?,
        set: sets_of(alloc, numbers, &outs, said)?,
        many: many_of(alloc, numbers, said)?,
    })
}

/// The tasks of a net in document order.
pub fn tasks_of(
    alloc: Global,
    spec: &SpecNumbers<'_>,
    numbers: &NetNumbers<'_>,
) -> Result<TaskList, AllocError>
    requires nets { IsIndexOf (net_names spec.now.said.now.net) spec.now.nets }
    requires numbers { AreNumbers numbers.now }
    requires named { NetIsNamed numbers.now.said.now }
    requires leads { NetLeads numbers.now.said.now }
    requires ready { All (TaskIsReady spec.now.said.now numbers.now.said.now) numbers.now.said.now.task }
    ensures { IfOk result (λ tasks. AllZip (IsTask spec.now.said.now numbers.now.said.now) numbers.now.said.now.task tasks) }
{
    let around = places_around(alloc, numbers)?;
    let mut tasks = Items::new(alloc);
    for (number, task) in numbers.said.task.as_slice().iter().enumerate() {
        tasks.push(task_of(alloc, spec, numbers, &around, number, task)?)?;
    }
    Ok(tasks)
}
