// The rules that a line can break.
use yw_base::Text;

/// Why a line is refused. The numbers give the one order in which rules are tried. The names and their order are our own.
#[derive(Clone, Copy, Debug, PartialEq, Eq)]
pub enum Rule {
    /// The line has more than 1,048,576 bytes.
    LineTooLong = 1,
    /// The line isn't UTF-8, or isn't JSON as `serde_json` reads it.
    NotJson = 2,
    /// The line is JSON, and neither a command nor a query.
    NotCommand = 3,
    /// The specification is no TOML document.
    SpecText = 4,
    /// The document hasn't the shape of a specification. The place is the path of its first fault.
    SpecShape = 5,
    /// The specification breaks a check. The place is the first that fails, with what it names.
    SpecCheck = 6,
    /// A specification of this name is loaded.
    SpecExists = 7,
    /// No specification of this name is loaded.
    UnknownSpec = 8,
    /// A tree has no place there, or the tree has no such node or side.
    UnknownPlace = 9,
    /// A node is attached at that side.
    PlaceTaken = 10,
    /// The condition has a fault, or isn't true or false. The place is the fault with its own place.
    BadExpr = 11,
    /// The conclusion can't stand in that tree.
    BadConclusion = 12,
    /// No such person.
    UnknownPerson = 13,
    /// No such case, or no net at the identity.
    UnknownCase = 14,
    /// No item at the identity.
    UnknownItem = 15,
    /// Something is still to come of itself in the case.
    NotQuiet = 16,
    /// The net has no such task.
    UnknownTask = 17,
    /// The server does it by itself.
    ByItself = 18,
    /// No items may be added to the task.
    NotDynamic = 19,
    /// The person lacks the task's role.
    Role = 20,
    /// It is suspended, or what it stands in is.
    Held = 21,
    /// The task is active.
    Active = 22,
    /// The join lacks tokens.
    NotEnabled = 23,
    /// An OR-join waits for a token that may still come.
    OrWaits = 24,
    /// The item hasn't come so far, or has come further; or the task to which one is added isn't active.
    Stage = 25,
    /// Another person started the item.
    NotYours = 26,
    /// An exlet is at work on it.
    Busy = 27,
    /// The task has as many items as it may have.
    MaxReached = 28,
    /// A value is given that isn't wanted, or has another sort. The place is its name.
    BadData = 29,
    /// A value that is made lacks, or has another sort, or isn't wanted. The place is its name.
    Output = 30,
    /// An expression is undefined. The place is what it is for.
    Mapping = 31,
    /// There would be too few items, or too many.
    Count = 32,
    /// The tree has no rule.
    NoTrigger = 33,
    /// The tree concludes nothing.
    NoExlet = 34,
    /// It is suspended already, or isn't.
    Mark = 35,
    /// No numbers are left, or the tree has as many rules as it may have.
    Numbers = 36,
    /// The word isn't built yet. It goes when all is built.
    NotBuilt = 99,
}

/// A rule that a line breaks, and where.
#[derive(Debug, Drop)]
pub struct Refusal {
    /// The first rule that the line breaks.
    pub rule: Rule,
    /// The place, where the rule has one, and else the empty text.
    pub at: Text,
}

impl Rule {
    ghost use Rattle.std.specs.Prelude.{◌≡◌};
    ghost use Rattle.yw_state.specs.RuleNames.{rule_text};

    /// The name as a reply has it.
    pub fn text(self) -> &'static str
        ensures { result.now ≡ rule_text self }
    {
        match self {
            Rule::LineTooLong => "LineTooLong",
            Rule::NotJson => "NotJson",
            Rule::NotCommand => "NotCommand",
            Rule::SpecText => "SpecText",
            Rule::SpecShape => "SpecShape",
            Rule::SpecCheck => "SpecCheck",
            Rule::SpecExists => "SpecExists",
            Rule::UnknownSpec => "UnknownSpec",
            Rule::UnknownPlace => "UnknownPlace",
            Rule::PlaceTaken => "PlaceTaken",
            Rule::BadExpr => "BadExpr",
            Rule::BadConclusion => "BadConclusion",
            Rule::UnknownPerson => "UnknownPerson",
            Rule::UnknownCase => "UnknownCase",
            Rule::UnknownItem => "UnknownItem",
            Rule::NotQuiet => "NotQuiet",
            Rule::UnknownTask => "UnknownTask",
            Rule::ByItself => "ByItself",
            Rule::NotDynamic => "NotDynamic",
            Rule::Role => "Role",
            Rule::Held => "Held",
            Rule::Active => "Active",
            Rule::NotEnabled => "NotEnabled",
            Rule::OrWaits => "OrWaits",
            Rule::Stage => "Stage",
            Rule::NotYours => "NotYours",
            Rule::Busy => "Busy",
            Rule::MaxReached => "MaxReached",
            Rule::BadData => "BadData",
            Rule::Output => "Output",
            Rule::Mapping => "Mapping",
            Rule::Count => "Count",
            Rule::NoTrigger => "NoTrigger",
            Rule::NoExlet => "NoExlet",
            Rule::Mark => "Mark",
            Rule::Numbers => "Numbers",
            Rule::NotBuilt => "NotBuilt",
        }
    }
}
