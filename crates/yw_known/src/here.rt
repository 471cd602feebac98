// What stands at an identity of a forest, with the net and the task that its specification has of it.
ghost use Rattle.std.specs.Prelude.{◌≡◌, None, false, IfOk, MatchOption};
ghost use Rattle.yw_library.specs.Held.{IsHeld};
ghost use Rattle.yw_known.specs.Here.{IsItemHere, IsNetHere};
ghost use Rattle.yw_library.specs.Holdings.{Holdings};
ghost use Rattle.yw_state.specs.Nets.{task_number};
ghost use Rattle.yw_state.specs.State.{State, is_case, is_item, net_part};

use crate::Known;
use yw_base::{Ident, Name};
use yw_path::Upstream;
use yw_spec::{Net, Spec, Task};
use yw_tree::{Forest, NetState, Node};

/// A net that stands in a forest, with what the specification has of it.
#[derive(Drop)]
pub struct NetHere<'a> {
    /// Its tokens, values and items.
    pub state: &'a NetState,
    /// The net of which it is.
    pub net: &'a Net,
    /// What is upstream of the net's places.
    pub up: &'a Upstream,
    /// The specification that has the net.
    pub spec: &'a Spec,
}

/// An item that stands in a forest, with its task and the net in which it stands.
#[derive(Drop)]
pub struct ItemHere<'a> {
    /// The item.
    pub item: &'a Node,
    /// Its task.
    pub task: &'a Task,
    /// The net in which it stands.
    pub outer: NetHere<'a>,
}

/// The net of the case, item or run at an identity: `None` exactly where no net stands there. It takes no memory.
pub fn net_here<'a>(known: &'a Known, forest: &'a Forest, at: &Ident) -> Option<NetHere<'a>>
    ensures { (s : State) → IsHeld known.now forest.now s
        → MatchOption result (net_part s at.now ≡ None) (IsNetHere known.now forest.now s at.now) }
{
    // No work is done here: these say that it is an identity, and that names lead to specifications.
    let _ = at.numbers();
    known.are_named();
    let state = forest.net(at)?;
    let found = known.net(state.spec, state.net)?;
    Some(NetHere {
        state,
        net: found.net,
        up: found.up,
        spec: found.spec,
    })
}

/// The item at an identity, with its task and the net in which it stands, by one way down: `None` exactly where no item stands there. It
/// takes no memory.
pub fn item_here<'a>(known: &'a Known, forest: &'a Forest, id: &Ident) -> Option<ItemHere<'a>>
    ensures { (s : State) → IsHeld known.now forest.now s
        → MatchOption result (is_item s id.now ≡ false) (IsItemHere known.now forest.now s id.now) }
{
    let _ = id.numbers();
    known.are_named();
    let (item, outer) = forest.item_with_net(id)?;
    let found = known.net(outer.spec, outer.net)?;
    let task = found.net.tasks.get(item.task)?;
    Some(ItemHere {
        item,
        task,
        outer: NetHere {
            state: outer,
            net: found.net,
            up: found.up,
            spec: found.spec,
        },
    })
}

/// The number of the task with this name in a net, or `None` where no task has it. It takes no memory.
pub fn task_called(net: &Net, name: &Name) -> Option<usize>
    ensures { result ≡ task_number net.now name.now }
{
    let tasks = net.tasks.as_slice();
    tasks
        .iter()
        .position(|task| task.name.as_str() == name.as_str())
}

/// A case has this identity. It takes no memory.
pub fn is_case(forest: &Forest, id: &Ident) -> bool
    ensures { (known : Holdings) (s : State) → IsHeld known forest.now s → result ≡ is_case s id.now }
{
    match id.numbers() {
        [number] => forest.case(*number).is_some(),
        _ => false,
    }
}
