// What a task removes.
ghost use Rattle.std.specs.Prelude.{◌≡◌, true, not, IfOk, OnOk, filter};
ghost use Rattle.std.specs.List.{list_all, AllZip};
ghost use Rattle.yw_accept.specs.Built.{IsPlaceCalled, IsTaskCalled};
ghost use Rattle.yw_accept.specs.Names.{may_be_emptied};
ghost use Rattle.yw_accept.specs.Nodes.{is_task};
ghost use Rattle.yw_build.specs.Numbers.{AreNumbers};
ghost use Rattle.yw_build.specs.Rows.{AddsWhere};

use crate::numbers::NetNumbers;
use std::alloc::{AllocError, Global};
use yw_accept::has;
use yw_base::{Items, Text};
use yw_spec::IndexList;

/// Adds the number of a place that is removed.
fn add_place(
    numbers: &NetNumbers<'_>,
    places: &mut IndexList,
    text: &Text,
) -> Result<(), AllocError>
    requires numbers { AreNumbers numbers.now }
    requires is { may_be_emptied numbers.now.said.now text.now ≡ true }
    ensures { OnOk result (AddsWhere (not (is_task numbers.now.said.now text.now)) (IsPlaceCalled numbers.now.said.now text.now) places.old places.new) }
{
    if has(&numbers.tasks, text.as_str()) {
        return Ok(());
    }
    places.push(numbers.place_called(text.as_str()))?;
    Ok(())
}

/// Adds the number of a task that is removed.
fn add_task(numbers: &NetNumbers<'_>, tasks: &mut IndexList, text: &Text) -> Result<(), AllocError>
    requires numbers { AreNumbers numbers.now }
    ensures { OnOk result (AddsWhere (is_task numbers.now.said.now text.now) (IsTaskCalled numbers.now.said.now text.now) tasks.old tasks.new) }
{
    if !has(&numbers.tasks, text.as_str()) {
        return Ok(());
    }
    tasks.push(numbers.task_called(text.as_str()))?;
    Ok(())
}

/// The places of a removal set.
pub fn removed_places(
    alloc: Global,
    numbers: &NetNumbers<'_>,
    texts: &[Text],
) -> Result<IndexList, AllocError>
    requires numbers { AreNumbers numbers.now }
    requires are { list_all (may_be_emptied numbers.now.said.now) texts.now ≡ true }
    ensures { IfOk result (λ places. AllZip (IsPlaceCalled numbers.now.said.now) (filter (λ text. not (is_task numbers.now.said.now text)) texts.now) places) }
{
    let mut places = Items::new(alloc);
    for text in texts {
        add_place(numbers, &mut places, text)?;
    }
    Ok(places)
}

/// The tasks of a removal set.
pub fn removed_tasks(
    alloc: Global,
    numbers: &NetNumbers<'_>,
    texts: &[Text],
) -> Result<IndexList, AllocError>
    requires numbers { AreNumbers numbers.now }
    ensures { IfOk result (λ tasks. AllZip (IsTaskCalled numbers.now.said.now) (filter (is_task numbers.now.said.now) texts.now) tasks) }
{
    let mut tasks = Items::new(alloc);
    for text in texts {
        add_task(numbers, &mut tasks, text)?;
    }
    Ok(tasks)
}
