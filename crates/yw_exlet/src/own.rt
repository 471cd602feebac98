// What is written of a case or an item.
ghost use Rattle.std.specs.Prelude.{◌≡◌, IsSome};
ghost use Rattle.yw_exlet.specs.Changes.{Changes, written};
ghost use Rattle.yw_exlet.specs.Written.{case_written, item_written};
ghost use Rattle.yw_state.specs.After.{without_check};
ghost use Rattle.yw_state.specs.Identity.{case_ident};
ghost use Rattle.yw_tree.specs.Cases.{case_at};
ghost use Rattle.yw_tree.specs.Coming.{TargetStands};
ghost use Rattle.yw_tree.specs.Forest.{IsForest, item_of};
ghost use Rattle.yw_tree.specs.declared.Node.{out-Node};

use yw_base::Ident;
use yw_state::{Checks, TreeKind};
use yw_tree::{Case, Forest, Node};

/// What is written of a case or an item.
#[derive(Clone, Copy)]
pub enum Own {
    /// It is suspended, or isn't any more.
    Suspended(bool),
    /// A check is due no longer.
    Passed(TreeKind),
}

fn without_check(due: Checks, check: TreeKind) -> Checks
    ensures { result ≡ without_check check due }
{
    match check {
        TreeKind::Pre => Checks { pre: false, ..due },
        TreeKind::Select => Checks {
            select: false,
            ..due
        },
        TreeKind::Post => Checks { post: false, ..due },
        TreeKind::External | TreeKind::Timeout | TreeKind::Abort => due,
    }
}

fn write_case(case: &mut Case, own: Own)
    ensures { case.new ≡ case_written own case.old }
{
    match own {
        Own::Suspended(suspended) => case.suspended = suspended,
        Own::Passed(check) => case.due = without_check(case.due, check),
    }
}

fn write_item(node: &mut Node, own: Own)
    ensures { out-Node node.new ≡ item_written own (out-Node node.old) }
{
    match own {
        Own::Suspended(suspended) => node.suspended = suspended,
        Own::Passed(check) => node.due = without_check(node.due, check),
    }
}

fn write_at_case(forest: &mut Forest, n: u64, own: Own)
    requires boxed { IsForest forest.old }
    requires stands { IsSome (case_at n forest.old.cases) }
    ensures sites { Changes forest.old forest.new (case_ident n) (written own) }
    ensures boxed { IsForest forest.new }
{
    if let Some(case) = forest.case_mut(n) {
        write_case(case, own);
    }
}

fn write_at_item(forest: &mut Forest, j: &Ident, own: Own)
    requires boxed { IsForest forest.old }
    requires stands { IsSome (item_of forest.old j.now) }
    ensures sites { Changes forest.old forest.new j.now (written own) }
    ensures boxed { IsForest forest.new }
{
    if let Some(node) = forest.item_mut(j) {
        write_item(node, own);
    }
}

/// This is written of the case or item at an identity. It takes no memory.
pub fn write(forest: &mut Forest, j: &Ident, own: Own)
    requires boxed { IsForest forest.old }
    requires stands { TargetStands forest.old j.now }
    ensures sites { Changes forest.old forest.new j.now (written own) }
    ensures boxed { IsForest forest.new }
{
    match j.numbers() {
        [n] => write_at_case(forest, *n, own),
        _ => write_at_item(forest, j, own),
    }
}
