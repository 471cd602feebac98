// What is told of the state. The rows are our own.
use crate::{PrimitiveList, Stage, TreeKind};
use yw_base::{Ident, Items, Name, Value};
use yw_spec::Place;

/// What a person may do.
#[derive(Clone, Copy, Debug, PartialEq, Eq)]
pub enum What {
    /// To enter a task of a net.
    Enter,
    /// To start an item.
    Start,
    /// To complete an item.
    Complete,
}

/// One piece of work that a person may do.
#[derive(Debug, Drop)]
pub struct WorkRow {
    /// The net of a task that may be entered, and else the item.
    pub at: Ident,
    /// The task.
    pub task: Name,
    /// What may be done.
    pub what: What,
}

/// Work in order of identity, then of the task's name.
pub type WorkList = Items<WorkRow>;

/// A check that is due.
#[derive(Debug, Drop)]
pub struct DueRow {
    pub at: Ident,
    pub check: TreeKind,
}

/// Due checks in order of identity, then `Pre`, `Select`, `Post`.
pub type DueList = Items<DueRow>;

/// An item.
#[derive(Debug, Drop)]
pub struct ItemRow {
    pub item: Ident,
    pub task: Name,
    pub stage: Stage,
    /// Who started it.
    pub who: Option<Name>,
}

/// Items in order of identity.
pub type ItemList = Items<ItemRow>;

/// A variable with its value.
#[derive(Debug, Drop)]
pub struct NamedValue {
    pub name: Name,
    pub value: Value,
}

/// Variables with their values, in the order of the net's variables.
pub type NamedValueList = Items<NamedValue>;

/// A net.
#[derive(Debug, Drop)]
pub struct NetRow {
    pub net: Ident,
    pub spec: Name,
    /// Its name in the specification.
    pub name: Name,
    pub values: NamedValueList,
}

/// Nets in order of identity.
pub type NetList = Items<NetRow>;

/// A run of an exlet.
#[derive(Debug, Drop)]
pub struct RunRow {
    pub run: Ident,
    /// Its compensation is at work.
    pub waiting: bool,
    /// What is still to be done.
    pub rest: PrimitiveList,
}

/// Runs in order of identity.
pub type RunList = Items<RunRow>;

/// The tokens on a place.
#[derive(Debug, Drop)]
pub struct TokenRow {
    pub net: Ident,
    pub place: Place,
    /// How many, 1 to 1,000,000.
    pub count: u32,
}

/// Marked places in order of identity, then of the place's text.
pub type TokenList = Items<TokenRow>;

/// All that stands in a case.
#[derive(Debug, Drop)]
pub struct Shown {
    pub due: DueList,
    pub items: ItemList,
    pub nets: NetList,
    pub runs: RunList,
    pub suspended: Items<Ident>,
    pub tokens: TokenList,
}
