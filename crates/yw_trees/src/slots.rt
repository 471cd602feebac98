// The numbers of trees, by what has them and their kinds.
ghost use Rattle.std.specs.Prelude.{◌≡◌, None, OnErr, OnOk};
ghost use Rattle.yw_state.specs.Judged.{kind_number};
ghost use Rattle.yw_state.specs.declared.tree.TreeKind as kinds;
ghost use Rattle.yw_trees.specs.Slots.{IsPut, IsSame, key_of, slot_at};
ghost use Rattle.yw_trees.specs.declared.owner.Owner as owners;

use crate::Owner;
use std::alloc::{AllocError, Global};
use std::collections::BTreeMap;
use yw_state::TreeKind;

/// What has a tree, and the number of the tree's kind.
#[derive(Clone, Copy, Debug, PartialEq, Eq, PartialOrd, Ord)]
pub(crate) struct Key {
    pub(crate) owner: Owner,
    pub(crate) kind: u8,
}

/// Numbers of trees by what has them and by their kinds, found without a scan.
#[derive(Drop)]
pub(crate) struct Slots {
    pub(crate) numbers: BTreeMap<Key, usize>,
}

/// The number of a kind.
fn kind_number(kind: TreeKind) -> u8
    ensures { result ≡ kind_number kind }
{
    match kind {
        TreeKind::Pre => 0,
        TreeKind::Post => 1,
        TreeKind::Select => 2,
        TreeKind::External => 3,
        TreeKind::Timeout => 4,
        TreeKind::Abort => 5,
    }
}

/// The key of the tree of a kind that this has.
fn key_of(owner: Owner, kind: TreeKind) -> Key
    ensures { result ≡ key_of owner kind }
{
    Key {
        owner,
        kind: kind_number(kind),
    }
}

impl Slots {
    /// No tree. It takes no memory.
    pub(crate) fn new(alloc: Global) -> Slots
        ensures { (o : owners.Owner) (k : kinds.TreeKind) → slot_at result o k ≡ None }
    {
        Slots {
            numbers: BTreeMap::new(alloc),
        }
    }

    /// The number of the tree of a kind that this has.
    pub(crate) fn get(&self, owner: Owner, kind: TreeKind) -> Option<usize>
        ensures { result ≡ slot_at self.now owner kind }
    {
        self.numbers.get(&key_of(owner, kind)).copied()
    }

    /// The tree of a kind that this has has the number from now on. An `Err` says that no memory was left, and changes
    /// nothing.
    pub(crate) fn put(
        &mut self,
        owner: Owner,
        kind: TreeKind,
        number: usize,
    ) -> Result<(), AllocError>
        ensures ok { OnOk result (IsPut self.old self.new owner kind number) }
        ensures err { OnErr result (IsSame self.old self.new) }
    {
        self.numbers.insert(key_of(owner, kind), number)?;
        Ok(())
    }
}
