// Which trees have rules, by numbers: what chooses worklets, and what is due.
ghost use Rattle.std.specs.Prelude.{◌≡◌, ◌&&◌};
ghost use Rattle.yw_known.specs.Judged.{TellsCaseChecks, TellsChosen, TellsItemChecks, TellsTree};
ghost use Rattle.yw_state.specs.Nets.{is_atomic};
ghost use Rattle.yw_state.specs.declared.tree.TreeKind.TheVariants.{Post};

use crate::Known;
use yw_spec::{Kind, Task};
use yw_state::{Checks, TreeKind};
use yw_trees::Owner;

/// Persons may do it, or a worklet that is chosen for it.
fn is_atomic(task: &Task) -> bool
    ensures { result ≡ is_atomic task.now }
{
    matches!(task.kind, Kind::Atomic)
}

/// Both hold.
fn both(a: bool, b: bool) -> bool
    ensures { result ≡ (a && b) }
{
    a && b
}

impl Known {
    /// Whether the tree of a kind that this has has a rule. It is found by numbers, and takes no memory.
    pub fn has_rule(&self, owner: Owner, kind: TreeKind) -> bool
        ensures { TellsTree self.now owner kind result }
    {
        let kept = self.library().trees();
        kept.has(owner, kind)
    }

    /// Whether a tree chooses worklets for the items of the task with these numbers. It takes no memory.
    pub fn is_chosen(&self, spec: usize, net: usize, task: usize) -> bool
        ensures { TellsChosen self.now spec net task result }
    {
        self.library().named_after();
        self.has_rule(Owner::Task { spec, net, task }, TreeKind::Select)
    }

    /// The checks that are due at a case of the specification with this number as it begins. It takes no memory.
    pub fn case_checks(&self, spec: usize) -> Checks
        ensures { TellsCaseChecks self.now spec result }
    {
        self.library().named_after();
        Checks {
            pre: self.has_rule(Owner::Cases(spec), TreeKind::Pre),
            select: false,
            post: false,
        }
    }

    /// The checks that are due at an item of the task with these numbers as it comes. It takes no memory.
    pub fn item_checks(&self, spec: usize, net: usize, number: usize, task: &Task) -> Checks
        ensures { TellsItemChecks self.now spec net number task.now result }
    {
        self.library().named_after();
        let owner = Owner::Task {
            spec,
            net,
            task: number,
        };
        Checks {
            pre: self.has_rule(owner, TreeKind::Pre),
            select: both(is_atomic(task), self.is_chosen(spec, net, number)),
            post: false,
        }
    }

    /// Whether a check is due at a case or an item at its end, by what has its trees. It takes no memory.
    pub fn has_post(&self, owner: Owner) -> bool
        ensures { TellsTree self.now owner Post result }
    {
        self.has_rule(owner, TreeKind::Post)
    }
}
