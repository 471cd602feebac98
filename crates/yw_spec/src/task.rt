// Tasks: joins and splits, what they take away, what is handed over, and how many items they have.
use yw_base::{Gate, Items, Name, Sort};
use yw_expr::Expr;

/// A task of a net. Joins, splits, removal sets and bounds are the paper's; branches in order with a default
/// are after the YAWL User Manual; the passing of values is our own.
#[derive(Debug, Drop)]
pub struct Task {
    /// Its name, which no other node of the net has.
    pub name: Name,
    /// Who does its items: a person, nobody, or a net.
    pub kind: Kind,
    /// The role that a person needs for its items, where one is needed.
    pub role: Option<Name>,
    /// Which input places have to be marked.
    pub join: Gate,
    /// Which output places get a token.
    pub split: Gate,
    /// The numbers of the places from which flows lead here, in flow order.
    pub before: IndexList,
    /// The numbers of the places to which flows lead from here, in flow order.
    pub after: IndexList,
    /// The branches of an XOR or OR split in document order, one for each of `after`. An AND split has none.
    pub branch: BranchList,
    /// The numbers of the places of its removal set, in document order.
    pub drop_places: IndexList,
    /// The numbers of the tasks of its removal set, in document order.
    pub drop_tasks: IndexList,
    /// What an item is given, in document order.
    pub ins: ParamList,
    /// What an item makes, in document order.
    pub outs: ParamList,
    /// What is kept of it in the net's variables, in document order.
    pub set: SetList,
    /// How many items there are, where they run over a list.
    pub many: Option<Many>,
}

/// Numbers of places or tasks of a net, in order.
pub type IndexList = Items<usize>;

/// Branches in order.
pub type BranchList = Items<Branch>;

/// Parameters in order.
pub type ParamList = Items<Param>;

/// Assignments in order.
pub type SetList = Items<Assign>;

/// Who does the items of a task.
#[derive(Clone, Copy, Debug, PartialEq, Eq)]
pub enum Kind {
    /// A person, or a worklet that is chosen for the item.
    Atomic,
    /// Nobody: it completes by itself.
    Empty,
    /// The net with this number in the specification. The paper's composite task.
    Sub(usize),
}

/// A branch of a split.
#[derive(Debug, Drop)]
pub struct Branch {
    /// The number of the place to which it leads.
    pub to: usize,
    /// The condition over the net's variables under which it is taken. The default branch has none.
    pub when: Option<Expr>,
}

/// A parameter of a task's items.
#[derive(Debug, Drop)]
pub struct Param {
    /// Its name, which no other parameter of the task in the same direction has.
    pub name: Name,
    /// The sort of its values.
    pub sort: Sort,
    /// What is given, over the net's variables. None for what items make, and for the parameter that is given
    /// an element of the list.
    pub value: Option<Expr>,
}

/// An assignment to a variable of the net, made when the task exits.
#[derive(Debug, Drop)]
pub struct Assign {
    /// The number of the variable.
    pub var: usize,
    /// Its new value, over what the items made and behind it the net's variables.
    pub value: Expr,
}

/// The items of a task that runs over a list. The paper's multiple instances; that they run over a list is
/// our own.
#[derive(Debug, Drop)]
pub struct Many {
    /// The least number of items at entry, 1 to `max`.
    pub min: u32,
    /// The greatest number of items, `min` to 1,000.
    pub max: u32,
    /// How many completed items are enough for the task to exit, 1 to 1,000.
    pub threshold: u32,
    /// Items may be added while the task is active.
    pub dynamic: bool,
    /// The list, over the net's variables.
    pub each: Expr,
    /// The number among `ins` of the parameter that is given an element.
    pub item: usize,
}
