// Rows of items and nets.
ghost use Rattle.std.specs.Prelude.{◌≡◌, map, zip, IfOk};
ghost use Rattle.yw_shown.specs.Rows.{named_value, row_of_item, row_of_net};

use crate::copies::copy_of_who;
use std::alloc::{AllocError, Global};
use yw_base::{Ident, Items, Name, Value};
use yw_spec::{Net, Task, Var};
use yw_state::{ItemRow, NamedValue, NamedValueList, NetRow};
use yw_tree::{NetState, Node};

/// The row of an item of this task. An `Err` says that no memory was left.
pub fn item_row(alloc: Global, at: &Ident, task: &Task, item: &Node) -> Result<ItemRow, AllocError>
    ensures { IfOk result (λ row. row ≡ row_of_item at.now task.now item.now) }
{
    Ok(ItemRow {
        item: at.copy(alloc)?,
        task: task.name.copy()?,
        stage: item.stage,
        who: copy_of_who(&item.who)?,
    })
}

/// Variables with their values.
fn named_values(alloc: Global, vars: &[Var], vals: &[Value]) -> Result<NamedValueList, AllocError>
    ensures { IfOk result (λ values. values ≡ map named_value (zip vars.now vals.now)) }
{
    let mut values = Items::new(alloc);
    for (var, val) in vars.iter().zip(vals) {
        let name = var.name.copy()?;
        let value = val.copy(alloc)?;
        values.push(NamedValue { name, value })?;
    }
    Ok(values)
}

/// The row of a net of the specification with this name. An `Err` says that no memory was left.
pub fn net_row(
    alloc: Global,
    at: &Ident,
    spec: &Name,
    net: &Net,
    state: &NetState,
) -> Result<NetRow, AllocError>
    ensures { IfOk result (λ row. row ≡ row_of_net at.now spec.now net.now state.now) }
{
    Ok(NetRow {
        net: at.copy(alloc)?,
        spec: spec.copy()?,
        name: net.name.copy()?,
        values: named_values(alloc, net.vars.as_slice(), state.vals.as_slice())?,
    })
}
