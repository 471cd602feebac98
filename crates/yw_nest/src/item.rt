// Items are completed without a person.
ghost use Rattle.std.specs.Prelude.{◌≡◌, IsSome};
ghost use Rattle.yw_nest.specs.Items.{CompletesEmpty};
ghost use Rattle.yw_state.specs.declared.part.Stage.TheVariants.{Completed};
ghost use Rattle.yw_tree.specs.Forest.{IsForest, item_of};
ghost use Rattle.yw_tree.specs.declared.Node.{out-Node};

use std::alloc::Global;
use yw_base::{Ident, Items, Row};
use yw_state::Stage;
use yw_tree::{Forest, Node};

/// The item is completed, and has made these values.
fn end(node: &mut Node, made: Row)
    ensures { out-Node node.new ≡ record (out-Node node.old) { stage = Completed; made = made } }
{
    node.stage = Stage::Completed;
    node.made = made;
}

/// The item at an identity, of an empty task, is completed, with nothing made. It takes no memory.
pub fn complete_empty(alloc: Global, forest: &mut Forest, j: &Ident)
    requires boxed { IsForest forest.old }
    requires stands { IsSome (item_of forest.old j.now) }
    ensures { CompletesEmpty j.now forest.old forest.new }
{
    if let Some(node) = forest.item_mut(j) {
        end(node, Items::new(alloc));
    }
}
