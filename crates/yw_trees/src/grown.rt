// A tree that has a rule.
ghost use Rattle.std.specs.Prelude.{◌≡◌, [], IfOk, OnErr, take};
ghost use Rattle.yw_rdr.specs.Attached.{Takes};
ghost use Rattle.yw_trees.specs.Grown.{Agrees, IsFirst, IsMore, rule_of};

use crate::{Owner, copy_of_place};
use std::alloc::{AllocError, Global};
use std::mem;
use yw_base::{Items, Text, TextList};
use yw_expr::Expr;
use yw_rdr::RuleTree;
use yw_state::{Conclusion, TreePlace};

/// A rule that is to be attached.
#[derive(Drop)]
pub struct NewRule {
    /// The number of the node to which it is attached.
    pub at: u32,
    /// The side at which it is attached.
    pub side: bool,
    /// The text of its condition.
    pub when: Text,
    /// The condition that the text spells.
    pub test: Expr,
    /// What it concludes.
    pub conclusion: Conclusion,
}

/// A tree that has a rule.
#[derive(Drop)]
pub struct Grown {
    /// What has it, by numbers.
    pub owner: Owner,
    /// Where it stands, by names.
    pub place: TreePlace,
    /// The texts of its rules' conditions, in the order of their numbers, from 1.
    pub texts: TextList,
    /// Its rules, linked.
    pub tree: RuleTree,
}

/// Trees in the order in which they got their first rules.
pub type GrownList = Items<Grown>;

/// Only the first of the values stay, so many. It takes no memory.
pub(crate) fn cut_to<T: Drop>(alloc: Global, items: &mut Items<T>, count: usize)
    ensures { items.new ≡ take count items.old }
{
    let mut kept = mem::replace(items, Items::new(alloc)).into_vec();
    kept.truncate(count);
    *items = Items::from_vec(kept);
}

impl Grown {
    /// One rule more, and its number. Its side is free, and the tree isn't full. An `Err` says that no memory was left,
    /// and changes nothing but that the rule's parts are gone.
    pub(crate) fn add(&mut self, alloc: Global, rule: NewRule) -> Result<u32, AllocError>
        requires takes { Takes self.old.tree rule.at rule.side }
        requires agrees { Agrees self.old }
        ensures ok { IfOk result (IsMore self.old self.new (rule_of rule)) }
        ensures err { OnErr result (self.new ≡ self.old) }
    {
        let count = self.texts.len();
        self.texts.push(rule.when)?;
        match self
            .tree
            .add(rule.at, rule.side, rule.test, rule.conclusion)
        {
            Ok(number) => Ok(number),
            Err(AllocError) => {
                cut_to(alloc, &mut self.texts, count);
                Err(AllocError)
            }
        }
    }
}

/// The tree at this place with this rule alone, which stands where node 0 is true. An `Err` says that no memory was
/// left.
pub(crate) fn first_grown(
    alloc: Global,
    owner: Owner,
    place: &TreePlace,
    rule: NewRule,
) -> Result<Grown, AllocError>
    requires { Takes [] rule.at rule.side }
    ensures { IfOk result (IsFirst owner place.now (rule_of rule)) }
{
    let place = copy_of_place(place)?;
    let mut texts = Items::new(alloc);
    texts.push(rule.when)?;
    let mut tree = RuleTree::new(alloc);
    tree.add(rule.at, rule.side, rule.test, rule.conclusion)?;
    Ok(Grown {
        owner,
        place,
        texts,
        tree,
    })
}
