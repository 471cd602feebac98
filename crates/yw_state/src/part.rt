// What is said of items, of what is still to be judged, and of cases that are over.
use yw_base::Items;

/// How far an item has come. The paper's states of a task that is at work; the three names are our own.
#[derive(Clone, Copy, Debug, PartialEq, Eq)]
pub enum Stage {
    /// It is there, and nobody has begun it.
    Ready,
    /// A person, a child net or a worklet is at work on it.
    Executing,
    /// It has made its values, and waits for its task to exit.
    Completed,
}

/// The rule trees that a case or an item is still to be judged by, in the order in which they come. After the
/// thesis's exceptions before and after an item or a case, and its choice of a worklet; the order is our own.
#[derive(Clone, Copy, Debug, PartialEq, Eq)]
pub struct Checks {
    /// The tree before it begins.
    pub pre: bool,
    /// The tree that chooses a worklet.
    pub select: bool,
    /// The tree after it has ended.
    pub post: bool,
}

/// How many tokens are on each place of a net, by the place's number: the paper's marking. A count is at most
/// 1,000,000, which is our own.
pub type Marks = Items<u64>;

/// How a case ended. The three ways are our own.
#[derive(Clone, Copy, Debug, PartialEq, Eq)]
pub enum Way {
    /// A token came to the output of its net.
    Finished,
    /// A person cancelled it.
    Cancelled,
    /// An exlet removed it.
    Removed,
}

/// A case that is over.
#[derive(Clone, Copy, Debug, PartialEq, Eq)]
pub struct Ended {
    /// Its number, 1 to 2^48 - 1.
    pub case: u64,
    /// How it ended.
    pub way: Way,
}

/// Cases that are over, in order of their numbers.
pub type EndedList = Items<Ended>;
