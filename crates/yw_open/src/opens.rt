// What is open at an identity.
ghost use Rattle.std.specs.Option.{option_copied};
ghost use Rattle.std.specs.Prelude.{◌≡◌, IfOk};
ghost use Rattle.yw_open.specs.Items.{TellsItem, TellsNoItem};
ghost use Rattle.yw_open.specs.Opens.{TellsOpens};
ghost use Rattle.yw_tree.specs.Ways.{net_in};
ghost use Rattle.yw_tree.specs.declared.Node.{out-Node};

use crate::items::item_opens;
use crate::nets::opens_in_net;
use std::alloc::{AllocError, Global};
use yw_base::{Ident, Items};
use yw_known::{ItemHere, Known, item_here};
use yw_tree::{Forest, NetState, Node};
use yw_work::Open;

/// The net that stands at an item.
fn net_of(node: &Node) -> Option<&NetState>
    ensures { option_copied result ≡ net_in (out-Node node.now).net }
{
    match &node.net {
        Some(net) => Some(net),
        None => None,
    }
}

/// What is open at an item: the entries of the net that stands there, and else its start or completion.
fn opens_at_item(
    alloc: Global,
    known: &Known,
    here: &ItemHere<'_>,
) -> Result<Items<Open>, AllocError>
    ensures { IfOk result (TellsItem known.now here.now) }
{
    match net_of(here.item) {
        Some(state) => opens_in_net(alloc, known, state),
        None => item_opens(alloc, here.item, here.task),
    }
}

/// What is open where no item stands: the entries of the net of the case or the run.
fn opens_without_item(
    alloc: Global,
    known: &Known,
    forest: &Forest,
    at: &Ident,
) -> Result<Items<Open>, AllocError>
    ensures { IfOk result (TellsNoItem known.now forest.now at.now) }
{
    // No work is done here: it says that it is an identity.
    let _ = at.numbers();
    match forest.net(at) {
        Some(state) => opens_in_net(alloc, known, state),
        None => Ok(Items::new(alloc)),
    }
}

/// What is open at an identity, in order of the tasks' names (byte order): the tasks of the net there that a person may enter, or else the item
/// there, to be started or completed. Nothing where nothing stands. Whether work is held isn't asked. An item is found by one way down, and its net
/// with it. An `Err` says that no memory was left.
pub fn opens_at(
    alloc: Global,
    known: &Known,
    forest: &Forest,
    at: &Ident,
) -> Result<Items<Open>, AllocError>
    ensures { IfOk result (TellsOpens known.now forest.now at.now) }
{
    match item_here(known, forest, at) {
        Some(here) => opens_at_item(alloc, known, &here),
        None => opens_without_item(alloc, known, forest, at),
    }
}
