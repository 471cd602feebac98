// What a tree at a task is asked about.
ghost use Rattle.std.specs.Prelude.{◌≡◌, ◌++◌, None, option_and_then, position, slice_get};
ghost use Rattle.std.specs.Option.{option_copied, option_or};
ghost use Rattle.std.specs.Str.{bytes_eq};
ghost use Rattle.yw_rdr.specs.Item.{said_value, value_of};
ghost use Rattle.yw_state.specs.ByName.{param_value};

use crate::Zeros;
use yw_base::{Row, Value};
use yw_expr::Values;
use yw_spec::{Param, ParamList, Task};
use yw_state::Stage;

/// The values of an item, by which a tree at its task is asked: one for each parameter that the task gives, and then one for each that it makes.
/// It is what the item has made under the name, once it is completed; else what it was given under it; else what stands for the sort. All is
/// lent, so it takes no memory.
#[derive(Drop)]
pub struct ItemRow<'a> {
    /// The task.
    pub task: &'a Task,
    /// How far the item has come.
    pub stage: Stage,
    /// What it was given.
    pub given: &'a Row,
    /// What it has made.
    pub made: &'a Row,
    /// What stands for a value that there isn't.
    pub zeros: &'a Zeros,
}

/// The number of the first parameter of this name.
fn param_number(params: &ParamList, name: &str) -> Option<usize>
    ensures { result ≡ position (λ p. bytes_eq p.name name.now) params.now }
{
    params
        .as_slice()
        .iter()
        .position(|param| param.name.as_str() == name)
}

/// The value of the parameter of this name, where the parameters have these values.
fn param_value<'a>(params: &ParamList, values: &'a Row, name: &str) -> Option<&'a Value>
    ensures { option_copied result ≡ param_value params.now values.now name.now }
{
    match param_number(params, name) {
        Some(k) => values.get(k),
        None => None,
    }
}

/// The parameter with this number: of those that the task gives, and after them of those that it makes.
fn param_at(task: &Task, k: usize) -> Option<&Param>
    ensures { option_copied result ≡ slice_get (task.now.ins ++ task.now.outs) k }
{
    let own = task.ins.len();
    if k < own {
        task.ins.get(k)
    } else {
        task.outs.get(k - own)
    }
}

impl<'a> ItemRow<'a> {
    /// What the item has made under a name, or was given.
    fn said_value(&self, name: &str) -> Option<&Value>
        ensures { option_copied result ≡ said_value self.now.task.now self.now.stage self.now.given.now self.now.made.now name.now }
    {
        if self.stage == Stage::Completed {
            let made = param_value(&self.task.outs, self.made, name);
            if made.is_some() {
                return made;
            }
        }
        param_value(&self.task.ins, self.given, name)
    }

    /// The value of a parameter.
    fn value_of(&self, param: &Param) -> &Value
        ensures { result.now ≡ value_of self.now.task.now self.now.stage self.now.given.now self.now.made.now param.now }
    {
        match self.said_value(param.name.as_str()) {
            Some(value) => value,
            None => self.zeros.of(param.sort),
        }
    }
}

impl<'a> Values for ItemRow<'a> {
    ghost use Rattle.yw_rdr.specs.Item.{values_of};

    ghost values = { λ row. values_of row.task.now row.stage row.given.now row.made.now };

    fn get(&self, k: usize) -> Option<&Value> {
        match param_at(self.task, k) {
            Some(param) => Some(self.value_of(param)),
            None => None,
        }
    }
}
