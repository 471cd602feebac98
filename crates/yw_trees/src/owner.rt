// What has trees.
ghost use Rattle.std.specs.Prelude.{◌≡◌, ◌&&◌, ◌||◌, List, ℕ, is_some, not, position};
ghost use Rattle.std.specs.Str.{bytes_eq};
ghost use Rattle.yw_trees.specs.Owners.{at_task, may_own};
ghost use Rattle.yw_spec.specs.declared.spec.Spec as declared;
ghost use Rattle.yw_state.specs.Judged.{case_place, is_select, is_tree_place};
ghost use Rattle.yw_state.specs.Nets.{child_net, is_atomic};

use yw_base::Name;
use yw_spec::{Kind, NetList, Spec, Task, TaskList};
use yw_state::{TreeKind, TreePlace};

/// What has trees, by its numbers. Which kinds of tree it may have is our own.
#[derive(Clone, Copy, Debug, PartialEq, Eq, PartialOrd, Ord)]
pub enum Owner {
    /// The cases of the specification with this number.
    Cases(usize),
    /// A task of a net of a specification.
    Task {
        /// The specification's number.
        spec: usize,
        /// The net's number in the specification.
        net: usize,
        /// The task's number in the net.
        task: usize,
    },
}

/// The number of the first net of this name.
fn net_number(nets: &NetList, name: &str) -> Option<usize>
    ensures { result ≡ position (λ n. bytes_eq n.name name.now) nets.now }
{
    nets.as_slice()
        .iter()
        .position(|net| net.name.as_str() == name)
}

/// The number of the first task of this name.
fn task_number(tasks: &TaskList, name: &str) -> Option<usize>
    ensures { result ≡ position (λ t. bytes_eq t.name name.now) tasks.now }
{
    tasks
        .as_slice()
        .iter()
        .position(|task| task.name.as_str() == name)
}

/// Cases have trees of this kind.
fn cases_have(kind: TreeKind) -> bool
    ensures { (spec : declared.Spec) (name : List ℕ)
        → result ≡ is_tree_place spec (case_place name kind) }
{
    matches!(kind, TreeKind::Pre | TreeKind::Post | TreeKind::External)
}

/// Items of the task have trees of this kind.
fn task_has(task: &Task, kind: TreeKind) -> bool
    ensures { result
        ≡ (is_atomic task.now || is_some (child_net task.now) && not (is_select kind)) }
{
    match task.kind {
        Kind::Atomic => true,
        Kind::Sub(_) => kind != TreeKind::Select,
        Kind::Empty => false,
    }
}

/// The task of these names, where it has trees of this kind.
fn task_owner(spec: &Spec, number: usize, net: &Name, task: &Name, kind: TreeKind) -> Option<Owner>
    ensures { result ≡ may_own number spec.now (at_task spec.now net.now task.now kind) }
{
    let net_number = net_number(&spec.nets, net.as_str())?;
    let tasks = &spec.nets.get(net_number)?.tasks;
    let task_number = task_number(tasks, task.as_str())?;
    if !task_has(tasks.get(task_number)?, kind) {
        return None;
    }
    Some(Owner::Task {
        spec: number,
        net: net_number,
        task: task_number,
    })
}

/// What has the tree at this place of a specification, which has this number: `None` exactly where it is no place of a
/// tree there. It takes no memory.
pub fn owner_in(spec: &Spec, number: usize, place: &TreePlace) -> Option<Owner>
    ensures { result ≡ may_own number spec.now place.now }
{
    match (&place.net, &place.task) {
        (None, None) => cases_have(place.kind).then_some(Owner::Cases(number)),
        (Some(net), Some(task)) => task_owner(spec, number, net, task, place.kind),
        _ => None,
    }
}
