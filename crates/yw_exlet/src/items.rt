// An item that begins anew, and one that is completed by a run.
ghost use Rattle.std.specs.Prelude.{◌≡◌, IsSome, None, []};
ghost use Rattle.yw_exlet.specs.Takes.{anew, cut_short, select_due};
ghost use Rattle.yw_exlet.specs.Changes.{Changes};
ghost use Rattle.yw_state.specs.State.{no_checks};
ghost use Rattle.yw_state.specs.declared.part.Stage.TheVariants.{Completed, Ready};
ghost use Rattle.yw_tree.specs.Forest.{IsForest, item_of};
ghost use Rattle.yw_tree.specs.declared.Node.{out-Node};

use std::alloc::Global;
use yw_base::{Ident, Items, Row};
use yw_state::{Checks, Stage};
use yw_tree::{Forest, Node};

fn begin_anew(alloc: Global, node: &mut Node, due: bool)
    ensures { out-Node node.new ≡ record (out-Node node.old) { stage = Ready; who = None; made = []; due = select_due due } }
{
    node.stage = Stage::Ready;
    node.who = None;
    node.made = Items::new(alloc);
    node.due = Checks {
        pre: false,
        select: due,
        post: false,
    };
}

fn end_short(node: &mut Node, made: Row)
    ensures { out-Node node.new ≡ record (out-Node node.old) { stage = Completed; made = made; due = no_checks } }
{
    node.stage = Stage::Completed;
    node.made = made;
    node.due = Checks {
        pre: false,
        select: false,
        post: false,
    };
}

/// The item is as new. It takes no memory.
pub fn restart(alloc: Global, forest: &mut Forest, j: &Ident, due: bool)
    requires boxed { IsForest forest.old }
    requires stands { IsSome (item_of forest.old j.now) }
    ensures sites { Changes forest.old forest.new j.now (anew due) }
    ensures boxed { IsForest forest.new }
{
    if let Some(node) = forest.item_mut(j) {
        begin_anew(alloc, node, due);
    }
}

/// The item is completed, and has made this. It takes no memory.
pub fn finish(forest: &mut Forest, j: &Ident, made: Row)
    requires boxed { IsForest forest.old }
    requires stands { IsSome (item_of forest.old j.now) }
    ensures sites { Changes forest.old forest.new j.now (cut_short made) }
    ensures boxed { IsForest forest.new }
{
    if let Some(node) = forest.item_mut(j) {
        end_short(node, made);
    }
}
