// A specification as its document says it, before any check of what it means.
ghost use Rattle.std.specs.Prelude.{◌≡◌};
ghost use Rattle.yw_read.specs.TaskKinds.{is_composite, is_empty};
ghost use Rattle.yw_read.specs.declared.raw.ReadFault.TheVariants.{Memory};

use std::alloc::{AllocError, AllocFailed};
use yw_base::{Gate, Items, Sort, Text, TextList, Usage, Value};

/// A specification as its document says it. Nothing is checked but the kinds of values: a text that stands
/// for a name needn't be one, and what a reference names needn't be there.
#[derive(Debug, Drop)]
pub struct RawSpec {
    /// The key `name`: the specification's name.
    pub name: Text,
    /// The key `top`: the name of the net with which a case begins.
    pub top: Text,
    /// The key `net`: the nets.
    pub net: RawNetList,
}

/// Nets in the order of the document.
pub type RawNetList = Items<RawNet>;

/// A net as its table says it.
#[derive(Debug, Drop)]
pub struct RawNet {
    /// The key `name`.
    pub name: Text,
    /// The key `input`: the name of the input condition.
    pub input: Text,
    /// The key `output`: the name of the output condition.
    pub output: Text,
    /// The key `conditions`: the names of the other conditions. It is empty where the key is missing.
    pub conditions: TextList,
    /// The key `vars`: the variables. It is empty where the key is missing.
    pub vars: RawVarList,
    /// The key `flows`: the flows.
    pub flows: RawFlowList,
    /// The key `task`: the tasks. It is empty where the key is missing.
    pub task: RawTaskList,
}

/// Flows in the order of the document.
pub type RawFlowList = Items<RawFlow>;

/// A flow from a node to a node, as the list of its two names says it.
#[derive(Debug, Drop)]
pub struct RawFlow {
    /// The first text: the node that the flow leaves.
    pub from: Text,
    /// The second text: the node that it enters.
    pub to: Text,
}

/// Variables in the order of the document.
pub type RawVarList = Items<RawVar>;

/// A variable of a net as its table says it.
#[derive(Debug, Drop)]
pub struct RawVar {
    /// The key `name`.
    pub name: Text,
    /// The key `sort`.
    pub sort: Sort,
    /// The key `use`. It is `Local` where the key is missing.
    pub usage: Usage,
    /// The key `init`: the first value, of the sort. Its texts have at most 4,096 bytes and its lists at most
    /// 1,000 values. `None` where the key is missing, which stands for the zero of the sort.
    pub init: Option<Value>,
}

/// Tasks in the order of the document.
pub type RawTaskList = Items<RawTask>;

/// A task as its table says it.
#[derive(Debug, Drop)]
pub struct RawTask {
    /// The key `name`.
    pub name: Text,
    /// The key `kind`. It is `Atomic` where the key is missing.
    pub kind: RawKind,
    /// The key `net`: the name of the net that a composite task stands for. `None` where the key is missing.
    pub net: Option<Text>,
    /// The key `role`: the role of who may do the work. `None` where the key is missing.
    pub role: Option<Text>,
    /// The key `join`. It is `And` where the key is missing.
    pub join: Gate,
    /// The key `split`. It is `And` where the key is missing.
    pub split: Gate,
    /// The key `branch`: the branches of the split. It is empty where the key is missing.
    pub branch: RawBranchList,
    /// The key `remove`: the places and tasks that are emptied at the exit. It is empty where the key is missing.
    pub remove: TextList,
    /// The key `ins`: the parameters that are given to the work. It is empty where the key is missing.
    pub ins: RawInList,
    /// The key `outs`: the parameters that the work makes. It is empty where the key is missing.
    pub outs: RawOutList,
    /// The key `set`: what variables become at the exit. It is empty where the key is missing.
    pub set: RawSetList,
    /// The key `each`: the expression for whose values the task is done, once for each. `None` where the key is
    /// missing.
    pub each: Option<Text>,
    /// The key `item`: the name of the parameter that is given the value of `each`. `None` where the key is missing.
    pub item: Option<Text>,
    /// The key `min`: the least number of items. `None` where the key is missing, which stands for 1.
    pub min: Option<i64>,
    /// The key `max`: the greatest number of items. `None` where the key is missing, which stands for 1,000.
    pub max: Option<i64>,
    /// The key `threshold`: how many items have to be completed. `None` where the key is missing, which stands
    /// for 1,000.
    pub threshold: Option<i64>,
    /// The key `dynamic`: items may be added. `None` where the key is missing, which stands for `false`.
    pub dynamic: Option<bool>,
}

/// What a task stands for.
#[derive(Clone, Copy, Debug, PartialEq, Eq)]
pub enum RawKind {
    /// `atomic`: work of persons.
    Atomic,
    /// `empty`: no work.
    Empty,
    /// `sub`: a net.
    Sub,
}

impl RawKind {
    /// Its items run in a net: the paper's composite task.
    pub fn is_composite(self) -> bool
        ensures { result ≡ is_composite self }
    {
        match self {
            RawKind::Sub => true,
            RawKind::Atomic | RawKind::Empty => false,
        }
    }

    /// Nobody does its items.
    pub fn is_empty(self) -> bool
        ensures { result ≡ is_empty self }
    {
        match self {
            RawKind::Empty => true,
            RawKind::Atomic | RawKind::Sub => false,
        }
    }
}

/// Branches in the order of the document.
pub type RawBranchList = Items<RawBranch>;

/// A branch of a split as its table says it.
#[derive(Debug, Drop)]
pub struct RawBranch {
    /// The key `to`: the node that the branch leads to.
    pub to: Text,
    /// The key `when`: the expression under which it is taken. `None` where the key is missing.
    pub when: Option<Text>,
}

/// Parameters that are given to work, in the order of the document.
pub type RawInList = Items<RawIn>;

/// A parameter that is given to work, as its table says it.
#[derive(Debug, Drop)]
pub struct RawIn {
    /// The key `name`.
    pub name: Text,
    /// The key `sort`.
    pub sort: Sort,
    /// The key `value`: the expression for its value. `None` where the key is missing.
    pub value: Option<Text>,
}

/// Parameters that work makes, in the order of the document.
pub type RawOutList = Items<RawOut>;

/// A parameter that work makes, as its table says it.
#[derive(Debug, Drop)]
pub struct RawOut {
    /// The key `name`.
    pub name: Text,
    /// The key `sort`.
    pub sort: Sort,
}

/// What variables become, in the order of the document.
pub type RawSetList = Items<RawSet>;

/// What a variable becomes at the exit of a task, as its table says it.
#[derive(Debug, Drop)]
pub struct RawSet {
    /// The key `var`: the name of the variable.
    pub var: Text,
    /// The key `value`: the expression for its value.
    pub value: Text,
}

/// Why a text isn't read as a specification.
#[derive(Debug, Drop)]
pub enum ReadFault {
    /// The text isn't TOML, as the crate `toml` reads it.
    NotToml,
    /// It is a document of another shape than a specification's. The text is the path of the first fault, as
    /// `net[0].task[2].split`, counted from 0: it ends with a key, or with the number of an element that should
    /// be a table and isn't.
    Shape(Text),
    /// No memory was left.
    Memory,
}

impl From<AllocError> for ReadFault {
    ghost use Rattle.std.specs.Prelude.{◌≡◌};

    ghost from_gives = { λ _ fault. fault ≡ Memory };

    fn from(_fault: AllocError) -> ReadFault {
        ReadFault::Memory
    }
}

impl<T: Drop> From<AllocFailed<T>> for ReadFault {
    ghost use Rattle.std.specs.Prelude.{◌≡◌};

    ghost from_gives = { λ _ fault. fault ≡ Memory };

    fn from(_fault: AllocFailed<T>) -> ReadFault {
        ReadFault::Memory
    }
}
