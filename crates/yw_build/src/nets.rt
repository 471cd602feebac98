// The nets of a specification, and the whole.
ghost use Rattle.std.specs.Prelude.{◌≡◌, All, IfOk, map};
ghost use Rattle.std.specs.List.{AllZip};
ghost use Rattle.yw_spec.specs.Net.{place_text};
ghost use Rattle.yw_accept.specs.Built.{places_of, IsNet, IsSpec};
ghost use Rattle.yw_accept.specs.Facts.{NetIsNamed};
ghost use Rattle.yw_accept.specs.Nodes.{net_names, task_names};
ghost use Rattle.yw_accept.specs.Index.{IsIndexOf};
ghost use Rattle.yw_build.specs.Numbers.{AreNumbers};
ghost use Rattle.yw_accept.specs.Ready.{IsReady, NetIsReady};

use crate::kinds::{SpecNumbers, net_called};
use crate::numbers::NetNumbers;
use crate::places::{index_of_places, places_of};
use crate::tasks::tasks_of;
use crate::values::vars_of;
use crate::words::name_of;
use std::alloc::{AllocError, Global};
use yw_accept::{Index, index_of, vars_layer};
use yw_base::Items;
use yw_read::{RawNet, RawSpec};
use yw_spec::{Net, NetList, PlaceList, Spec};

/// A net with these tasks and places by their names.
fn numbers_of<'a>(
    alloc: Global,
    said: &'a RawNet,
    tasks: Index,
    places: &PlaceList,
) -> Result<NetNumbers<'a>, AllocError>
    requires tasks { IsIndexOf (task_names said.now.task) tasks }
    requires places { places.now ≡ places_of said.now }
    requires named { NetIsNamed said.now }
    ensures are { IfOk result AreNumbers }
    ensures said { IfOk result (λ numbers. numbers.said.now ≡ said.now) }
{
    let places = index_of_places(alloc, places.as_slice())?;
    let vars = vars_layer(alloc, said)?;
    Ok(NetNumbers {
        said,
        places,
        tasks,
        vars,
    })
}

fn net_of(alloc: Global, spec: &SpecNumbers<'_>, said: &RawNet) -> Result<Net, AllocError>
    requires nets { IsIndexOf (net_names spec.now.said.now.net) spec.now.nets }
    requires ready { NetIsReady spec.now.said.now said.now }
    ensures { IfOk result (IsNet spec.now.said.now said.now) }
{
    let tasks = index_of(alloc, said.task.as_slice())?;
    let places = places_of(alloc, said, &tasks)?;
    let numbers = numbers_of(alloc, said, tasks, &places)?;
    Ok(Net {
        name: name_of(alloc, &said.name)?,
        input: 0,
        output: 1,
        places,
        tasks: tasks_of(alloc, spec, &numbers)?,
        vars: vars_of(alloc, said.vars.as_slice())?,
    })
}

fn nets_of(alloc: Global, spec: &SpecNumbers<'_>) -> Result<NetList, AllocError>
    requires nets { IsIndexOf (net_names spec.now.said.now.net) spec.now.nets }
    requires ready { All (NetIsReady spec.now.said.now) spec.now.said.now.net }
    ensures { IfOk result (λ nets. AllZip (IsNet spec.now.said.now) spec.now.said.now.net nets) }
{
    let mut nets = Items::new(alloc);
    for net in spec.said.net.as_slice() {
        nets.push(net_of(alloc, spec, net)?)?;
    }
    Ok(nets)
}

/// The specification that a document says which is ready to be built.
pub fn spec_of_ready(alloc: Global, raw: &RawSpec) -> Result<Spec, AllocError>
    requires { IsReady raw.now }
    ensures { IfOk result (IsSpec raw.now) }
{
    let nets = index_of(alloc, raw.net.as_slice())?;
    let spec = SpecNumbers { said: raw, nets };
    Ok(Spec {
        name: name_of(alloc, &raw.name)?,
        top: net_called(&spec, raw.top.as_str()),
        nets: nets_of(alloc, &spec)?,
    })
}
