// An item is started.
ghost use Rattle.std.specs.Prelude.{◌≡◌, OnOk, OnErr, Some};
ghost use Rattle.std.specs.Result.{result_err};
ghost use Rattle.yw_state.specs.declared.event.Event.TheVariants as events;
ghost use Rattle.yw_state.specs.declared.part.Stage.TheVariants.{Executing};
ghost use Rattle.yw_task.specs.Asked.{AsksStart};
ghost use Rattle.yw_task.specs.Standing.{ItemDoes};
ghost use Rattle.yw_tree.specs.declared.Node.{out-Node};

use crate::ask::ask_start;
use yw_base::Name;
use yw_state::{Rule, Stage};
use yw_tree::Node;

/// The item is executing by the person from now on. Nothing is tested. It takes no memory.
pub fn begin(node: &mut Node, who: Name)
    ensures { out-Node node.new ≡ record (out-Node node.old) { stage = Executing; who = Some who } }
{
    node.stage = Stage::Executing;
    node.who = Some(who);
}

/// A person starts an item, which is ready: it is executing by the person from now on. `Err` has the first rule that this breaks, of those
/// that the item shows: `Stage` where it isn't ready, `Busy` where an exlet is at work on it; then it is as it was. It takes no memory.
pub fn start(node: &mut Node, who: Name) -> Result<(), Rule>
    ensures ok { OnOk result (ItemDoes (λ j. events.Start j who) node.old node.new) }
    ensures first { AsksStart node.old (result_err result) }
    ensures err { OnErr result (node.new ≡ node.old) }
{
    if let Some(rule) = ask_start(node) {
        return Err(rule);
    }
    begin(node, who);
    Ok(())
}
