// Rule trees, by what has them.
ghost use Rattle.std.specs.Option.{option_copied};
ghost use Rattle.std.specs.Prelude.{◌≡◌, ◌<◌, ◌++◌, ◌∷◌, [], All, IfOk, None, OnErr, OnOk, length, map, nat_lt};
ghost use Rattle.yw_rdr.specs.Attached.{IfFault, OnFault, Takes};
ghost use Rattle.yw_trees.specs.Grown.{Agrees, HasRules, IsMoreAt, IsMoreIn, TakesAt, TakesIn, placed, rule_of};
ghost use Rattle.yw_trees.specs.Placed.{IsAdded, a_tree, linked, links_for, number_for, rules_for};

use crate::grown::{cut_to, first_grown};
use crate::slots::Slots;
use crate::{Grown, GrownList, NewRule, Owner};
use std::alloc::{AllocError, Global};
use std::marker::Model;
use std::mem;
use yw_base::Items;
use yw_rdr::{RdrFault, RuleTree};
use yw_state::{TreeKind, TreePlace};

/// The rule trees that have a rule. Each is found by numbers, without a scan: by the specification, the net and the
/// task that have it, and by its kind. A contract sees the rules of each, with its place, in the order in which the
/// trees got their first rules.
#[derive(Drop)]
pub struct Trees {
    alloc: Global,
    grown: GrownList,
    slots: Slots,
}

impl Model for Trees {
    ghost use Rattle.std.specs.Prelude.{List, map};
    ghost use Rattle.yw_trees.specs.Grown.{AreRight, placed};
    ghost use Rattle.yw_trees.specs.Placed.{Placed};

    ghost Value = { List Placed };

    ghost use Rattle.std.specs.Coded.{codes};
    ghost use Rattle.yw_expr.specs.Tree.{tree_code};

    ghost coded = { Prim.hlevel (codes, tree_code) };

    ghost view = { λ t. map placed t.grown };

    ghost invariant = { λ t. AreRight t.grown t.slots };
}

/// One rule more in the tree with this number, and its own number. An `Err` says that no memory was left, and changes
/// nothing.
fn add_at(
    alloc: Global,
    grown: &mut Vec<Grown>,
    number: usize,
    rule: NewRule,
) -> Result<u32, AllocError>
    requires there { number < length grown.old.items }
    requires takes { TakesIn grown.old.items number rule.at rule.side }
    requires agrees { All Agrees grown.old.items }
    ensures ok { IfOk result (IsMoreIn grown.old.items grown.new.items number (rule_of rule)) }
    ensures err { OnErr result (grown.new.items ≡ grown.old.items) }
{
    grown[number].add(alloc, rule)
}

impl Trees {
    /// No tree has a rule. It takes no memory.
    pub fn new(alloc: Global) -> Trees
        ensures { result ≡ [] }
    {
        Trees {
            alloc,
            grown: Items::new(alloc),
            slots: Slots::new(alloc),
        }
    }

    /// The number of the tree of a kind that this has.
    fn number_of(&self, owner: Owner, kind: TreeKind) -> Option<usize>
        ensures { result ≡ number_for owner kind self.now }
    {
        self.slots.get(owner, kind)
    }

    /// The tree of a kind that this has.
    fn grown_of(&self, owner: Owner, kind: TreeKind) -> Option<&Grown>
        ensures { HasRules self.now owner kind (option_copied result) }
    {
        match self.slots.get(owner, kind) {
            Some(number) => self.grown.get(number),
            None => None,
        }
    }

    /// The tree of a kind that this has, a rule at least: `None` exactly where there is no rule. It takes no memory.
    pub fn tree_of(&self, owner: Owner, kind: TreeKind) -> Option<&RuleTree>
        ensures { option_copied result ≡ linked (rules_for owner kind self.now) }
    {
        match self.grown_of(owner, kind) {
            Some(grown) => Some(&grown.tree),
            None => None,
        }
    }

    /// Whether the tree of a kind that this has has a rule. It takes no memory.
    pub fn has(&self, owner: Owner, kind: TreeKind) -> bool
        ensures { result ≡ nat_lt 0 (length (rules_for owner kind self.now)) }
    {
        self.tree_of(owner, kind).is_some()
    }

    /// How many rules the tree of a kind has that this has. It takes no memory.
    pub fn count_of(&self, owner: Owner, kind: TreeKind) -> usize
        ensures { result ≡ length (rules_for owner kind self.now) }
    {
        match self.grown_of(owner, kind) {
            Some(grown) => grown.texts.len(),
            None => 0,
        }
    }

    /// Why no rule can be attached to a node at a side of the tree of a kind that this has, or `None` where one can.
    /// The faults are those of `RuleTree::ask`; the tree without a rule has node 0. It takes no memory, and never says
    /// that there is none.
    pub fn ask(&self, owner: Owner, kind: TreeKind, at: u32, side: bool) -> Option<RdrFault>
        ensures { IfFault result (links_for owner kind self.now) at side }
    {
        match self.grown_of(owner, kind) {
            Some(grown) => grown.tree.ask(at, side),
            None => RuleTree::new(self.alloc).ask(at, side),
        }
    }

    /// All trees that have a rule, in the order in which they got their first.
    pub fn trees(&self) -> &GrownList
        ensures all { map placed result.now ≡ self.now }
        ensures agree { All Agrees result.now }
    {
        &self.grown
    }

    /// One rule more in the tree with this number, and its own number. An `Err` says that no memory was left, and
    /// changes nothing.
    fn add_to(&mut self, number: usize, rule: NewRule) -> Result<u32, AllocError>
        requires there { number < length self.old }
        requires takes { TakesAt self.old number rule.at rule.side }
        ensures ok { IfOk result (IsMoreAt self.old self.new number (rule_of rule)) }
        ensures err { OnErr result (self.new ≡ self.old) }
    {
        let mut grown = mem::replace(&mut self.grown, Items::new(self.alloc)).into_vec();
        let added = add_at(self.alloc, &mut grown, number, rule);
        self.grown = Items::from_vec(grown);
        added
    }

    /// The first rule of a tree that had none. An `Err` says that no memory was left, and changes nothing.
    fn begin(&mut self, owner: Owner, place: &TreePlace, rule: NewRule) -> Result<(), AllocError>
        requires new { number_for owner place.now.kind self.old ≡ None }
        requires takes { Takes [] rule.at rule.side }
        ensures ok { OnOk result (self.new ≡ self.old ++ a_tree owner place.now (rule_of rule) ∷ []) }
        ensures err { OnErr result (self.new ≡ self.old) }
    {
        let tree = first_grown(self.alloc, owner, place, rule)?;
        let number = self.grown.len();
        self.grown.push(tree)?;
        match self.slots.put(owner, place.kind, number) {
            Ok(()) => Ok(()),
            Err(AllocError) => {
                cut_to(self.alloc, &mut self.grown, number);
                Err(AllocError)
            }
        }
    }

    /// A rule more in the tree of the place's kind that this has, where `ask` finds nothing against it, and its number.
    /// The tree begins at the place where it had no rule. An `Err` says that no memory was left, and changes nothing
    /// but that the rule's parts are gone.
    pub fn add(&mut self, owner: Owner, place: &TreePlace, rule: NewRule) -> Result<u32, AllocError>
        requires { Takes (links_for owner place.now.kind self.old) rule.at rule.side }
        ensures ok { IfOk result (IsAdded self.old self.new owner place.now (rule_of rule)) }
        ensures err { OnErr result (self.new ≡ self.old) }
    {
        match self.number_of(owner, place.kind) {
            Some(number) => self.add_to(number, rule),
            None => {
                self.begin(owner, place, rule)?;
                Ok(1)
            }
        }
    }

    /// Attaches a rule to the tree of the place's kind that this has, and gives its number. The faults are those of
    /// `ask`, or `Memory` where none was left. An `Err` changes nothing but that the rule's parts are gone.
    pub fn attach(
        &mut self,
        owner: Owner,
        place: &TreePlace,
        rule: NewRule,
    ) -> Result<u32, RdrFault>
        ensures ok { IfOk result (IsAdded self.old self.new owner place.now (rule_of rule)) }
        ensures free { IfOk result (λ _. Takes (links_for owner place.now.kind self.old) rule.at rule.side) }
        ensures fault { OnFault result (links_for owner place.now.kind self.old) rule.at rule.side }
        ensures err { OnErr result (self.new ≡ self.old) }
    {
        if let Some(fault) = self.ask(owner, place.kind, rule.at, rule.side) {
            return Err(fault);
        }
        Ok(self.add(owner, place, rule)?)
    }
}
