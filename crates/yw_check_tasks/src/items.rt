// The check of bounds of several items.
ghost use Rattle.std.specs.Prelude.{◌≡◌, ℕ, IfOk};
ghost use Rattle.std.specs.List.{list_any};
ghost use Rattle.std.specs.Str.{bytes_eq};
ghost use Rattle.yw_read.specs.declared.raw.RawIn.{RawIn};
ghost use Rattle.yw_accept.specs.Tasks.{bounds_fit, item_fits, has_no_bounds, items_fit, ItemsFit};
ghost use Rattle.yw_check_tasks.specs.Steps.{TaskItemsFit, NetItemsFit};

use std::alloc::{AllocError, Global};
use yw_accept::Broken;
use yw_base::Text;
use yw_read::{RawIn, RawNet, RawSpec, RawTask};

/// The most items of a task, and the most that may be waited for.
const MOST_ITEMS: i64 = 1000;

fn bounds_fit(task: &RawTask) -> bool
    ensures { result ≡ bounds_fit task.now }
{
    let least = task.min.unwrap_or(1);
    let greatest = task.max.unwrap_or(MOST_ITEMS);
    let enough = task.threshold.unwrap_or(MOST_ITEMS);
    1 <= least && least <= greatest && greatest <= MOST_ITEMS && 1 <= enough && enough <= MOST_ITEMS
}

fn is_in(ins: &[RawIn], name: &str) -> bool
    ensures { result ≡ list_any (λ (p : RawIn). bytes_eq name.now p.name) ins.now }
{
    ins.iter().any(|p| name == p.name.as_str())
}

#[tactic(auto, using(yw_accept::proofs::Lists::list_any_of_map))]
fn item_fits(task: &RawTask) -> bool
    ensures { result ≡ item_fits task.now }
{
    match &task.item {
        Some(item) => is_in(task.ins.as_slice(), item.as_str()),
        None => false,
    }
}

fn has_no_bounds(task: &RawTask) -> bool
    ensures { result ≡ has_no_bounds task.now }
{
    task.item.is_none()
        && task.min.is_none()
        && task.max.is_none()
        && task.threshold.is_none()
        && task.dynamic.is_none()
}

fn has_items(task: &RawTask) -> bool
    ensures { result ≡ items_fit task.now }
{
    match &task.each {
        Some(_) => !task.kind.is_empty() && bounds_fit(task) && item_fits(task),
        None => has_no_bounds(task),
    }
}

fn check_task(alloc: Global, net: &Text, task: &RawTask) -> Result<Option<Broken>, AllocError>
    ensures { IfOk result (TaskItemsFit net.now task.now) }
{
    if has_items(task) {
        return Ok(None);
    }
    let broken = Broken::in_net(alloc, 5, net, &task.name)?;
    Ok(Some(broken))
}

fn check_net(alloc: Global, net: &RawNet) -> Result<Option<Broken>, AllocError>
    ensures { IfOk result (NetItemsFit net.now) }
{
    for task in net.task.as_slice() {
        match check_task(alloc, &net.name, task)? {
            Some(broken) => return Ok(Some(broken)),
            None => {}
        }
    }
    Ok(None)
}

/// The first task, net by net in the order of the document, whose several items don't fit: with `each` the
/// kind is atomic or sub, 1 <= min <= max <= 1,000, 1 <= threshold <= 1,000 and `item` names one of the task's
/// `ins`; without `each` none of `item`, `min`, `max`, `threshold` and `dynamic` stands. `None` where each
/// task's do. It is the fifth check, and its bounds are our own. Several items of a task are the multiple
/// instances of YAWL (van der Aalst and ter Hofstede, 2005).
///
/// It takes time linear in the specification. The only error is want of memory.
#[tactic(auto, unfolding(yw_accept::specs::Tasks::ItemsFit))]
pub fn items_fit(alloc: Global, raw: &RawSpec) -> Result<Option<Broken>, AllocError>
    ensures { IfOk result (ItemsFit raw.now) }
{
    for net in raw.net.as_slice() {
        match check_net(alloc, net)? {
            Some(broken) => return Ok(Some(broken)),
            None => {}
        }
    }
    Ok(None)
}
