// Rule trees: what they judge, and what they conclude.
use yw_base::{Items, Name, Text};

/// What a rule tree is asked about. After the thesis, whose trees also stand for events before and after an item
/// or a case, for the choice of a worklet, and for what happens outside; the six kinds are our own.
#[derive(Clone, Copy, Debug, PartialEq, Eq)]
pub enum TreeKind {
    /// Before a case or an item begins.
    Pre,
    /// When it has ended.
    Post,
    /// Which worklet stands for an item.
    Select,
    /// Something happened outside.
    External,
    /// A time has passed.
    Timeout,
    /// An item can't be done.
    Abort,
}

/// Where a rule tree stands: at a task of a net of a specification, or at its cases where neither is named.
#[derive(Debug, Drop)]
pub struct TreePlace {
    pub spec: Name,
    pub net: Option<Name>,
    pub task: Option<Name>,
    pub kind: TreeKind,
}

/// What a rule concludes. Worklets and exlets are the thesis's.
#[derive(Debug, Drop)]
pub enum Conclusion {
    /// The specification that stands for the item.
    Worklet(Name),
    /// What is done, in order.
    Exlet(PrimitiveList),
}

/// One step of an exlet. After the thesis's primitives; the set of them is our own.
#[derive(Debug, Drop)]
pub enum Primitive {
    /// The item is suspended.
    SuspendItem,
    /// The item is suspended no longer.
    ContinueItem,
    /// The item begins anew.
    RestartItem,
    /// The item counts as completed.
    CompleteItem,
    /// The item goes.
    RemoveItem,
    /// The case is suspended.
    SuspendCase,
    /// The case is suspended no longer.
    ContinueCase,
    /// The case goes.
    RemoveCase,
    /// A net of this specification runs to its end first.
    Compensate(Name),
    /// A text that is none of these.
    Unknown(Text),
}

/// Primitives in order.
pub type PrimitiveList = Items<Primitive>;
