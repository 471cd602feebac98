// What a line can ask.
use crate::{Conclusion, TreeKind};
use yw_base::{Ident, Items, Name, NameList, Text, Value};

/// What a line asks.
#[derive(Debug, Drop)]
pub enum Asked {
    /// Something is to be done.
    Command(Command),
    /// Something is to be told.
    Query(Query),
}

/// What a line can ask to be done. Each has the fields of its line, in their order; `values` is there called
/// `data`, and `conclusion` is called `then`. The commands are our own.
#[derive(Debug, Drop)]
pub enum Command {
    /// This person has these roles from now on, at most 64 distinct ones.
    Person {
        name: Name,
        roles: NameList,
    },
    /// The specification that this TOML text says is loaded.
    Load {
        toml: Text,
    },
    /// A rule is added to the tree of this kind at a task of a net, or at the whole case where neither is named:
    /// at this side (`true` or `false`) of node `at`, 0 to 65,535, with this condition and this conclusion.
    Rule {
        spec: Name,
        net: Option<Name>,
        task: Option<Name>,
        kind: TreeKind,
        at: u32,
        side: bool,
        when: Text,
        conclusion: Conclusion,
    },
    /// A case of this specification begins, with these values of the top net's variables.
    Launch {
        spec: Name,
        values: GivenList,
    },
    /// This person enters a task of the net at `case`, which makes its items.
    Enter {
        who: Name,
        case: Ident,
        task: Name,
    },
    /// This person starts an item.
    Start {
        who: Name,
        item: Ident,
    },
    /// This person completes an item, which made these values.
    Complete {
        who: Name,
        item: Ident,
        out: GivenList,
    },
    /// This person adds an item to a task of the net at `case`, for this element. It is `None` where the line's
    /// value has no sort.
    Add {
        who: Name,
        case: Ident,
        task: Name,
        value: Option<Value>,
    },
    /// Something happened outside to the case or the item at `at`: `External`, `Timeout` or `Abort`.
    Raise {
        at: Ident,
        kind: TreeKind,
    },
    /// The case or the item at `at` is suspended.
    Suspend {
        at: Ident,
    },
    /// The case or the item at `at` is suspended no longer.
    Continue {
        at: Ident,
    },
    /// A case is cancelled, with all that stands in it.
    Cancel {
        case: Ident,
    },
    /// The automatic events of a case are taken.
    Advance {
        case: Ident,
    },
}

/// What a line can ask to be told. The queries are our own.
#[derive(Debug, Drop)]
pub enum Query {
    /// The work that a person may do.
    List { who: Name },
    /// All that stands in a case.
    Show { case: Ident },
    /// How a case ended.
    Ended { case: Ident },
    /// The names of the specifications that are loaded.
    Specs,
}

/// A value that a line gives under a name.
#[derive(Debug, Drop)]
pub struct Given {
    /// The name, as it stands in the line.
    pub name: Text,
    /// The value, or `None` where it has no sort: it is null, an object or a float, is a text of more than 4,096
    /// bytes or a list of more than 1,000 elements, or a list of something else than whole numbers alone or
    /// such texts alone.
    pub value: Option<Value>,
}

/// Given values, in byte order of their names.
pub type GivenList = Items<Given>;
