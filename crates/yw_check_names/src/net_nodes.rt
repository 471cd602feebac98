// The conditions and tasks of a net, each found without going over the others.
ghost use Rattle.std.specs.Prelude.{◌≡◌, IfOk, string_bytes};
ghost use Rattle.std.specs.BTreeSet.{contains_text};
ghost use Rattle.yw_accept.specs.Names.{may_lead};
ghost use Rattle.yw_accept.specs.Nodes.{arrow, is_sink, is_source};
ghost use Rattle.yw_check_names.specs.NetNodes.{AreNodes};

use crate::seen::{NameSet, set_of};
use std::alloc::{AllocError, Global};
use yw_base::Text;
use yw_read::{RawFlow, RawNet};
use yw_spec::arrow_text;

/// The conditions and tasks of a net.
#[derive(Drop)]
pub struct NetNodes {
    /// The conditions other than the input and the output.
    pub conditions: NameSet,
    /// The tasks.
    pub tasks: NameSet,
}

/// The name is in the set.
pub fn has(set: &NameSet, name: &Text) -> bool
    ensures { result ≡ contains_text set.now name.now }
{
    set.contains(name.as_str())
}

/// The text of a flow, `from->to`: its implicit condition, where it goes from a task to a task. An `Err` says
/// that no memory was left.
pub fn arrow(alloc: Global, flow: &RawFlow) -> Result<String, AllocError>
    ensures { IfOk result (λ text. string_bytes text ≡ arrow flow.now) }
{
    arrow_text(alloc, flow.from.as_str(), flow.to.as_str())
}

impl NetNodes {
    /// The nodes of a net. An `Err` says that no memory was left.
    pub fn of(alloc: Global, net: &RawNet) -> Result<NetNodes, AllocError>
        ensures { IfOk result (AreNodes net.now) }
    {
        let conditions = set_of(alloc, net.conditions.as_slice())?;
        let tasks = set_of(alloc, net.task.as_slice())?;
        Ok(NetNodes { conditions, tasks })
    }

    /// The name is a task's.
    fn is_task(&self, name: &Text) -> bool
        ensures { result ≡ contains_text self.now.tasks name.now }
    {
        has(&self.tasks, name)
    }

    /// The name is that of a condition other than the output.
    fn is_source(&self, net: &RawNet, name: &Text) -> bool
        requires { AreNodes net.now self.now }
        ensures { result ≡ is_source net.now name.now }
    {
        name.as_str() == net.input.as_str() || has(&self.conditions, name)
    }

    /// The name is that of a condition other than the input.
    fn is_sink(&self, net: &RawNet, name: &Text) -> bool
        requires { AreNodes net.now self.now }
        ensures { result ≡ is_sink net.now name.now }
    {
        name.as_str() == net.output.as_str() || has(&self.conditions, name)
    }

    /// A flow may go between such nodes.
    pub fn may_lead(&self, net: &RawNet, flow: &RawFlow) -> bool
        requires { AreNodes net.now self.now }
        ensures { result ≡ may_lead net.now flow.now }
    {
        if self.is_task(&flow.from) {
            return self.is_sink(net, &flow.to) || self.is_task(&flow.to);
        }
        self.is_source(net, &flow.from) && self.is_task(&flow.to)
    }
}
