// The rules of a tree, linked.
ghost use Rattle.std.specs.Prelude.{◌≡◌, ◌-◌, ◌≤◌, ◌<◌, ◌++◌, ◌∷◌, [], IfOk, OnErr, OnOk, Some, is_some, length, option_map, slice_get, slice_set};
ghost use Rattle.yw_rdr.specs.Attached.{IfFault, IsAdded, OnFault, Takes};
ghost use Rattle.yw_rdr.specs.Links.{Grows, IsTree, first_with, kept_in, link_at, side_of, with_side};
ghost use Rattle.yw_rdr.specs.Rules.{Kept, a_rule, rules_of};
ghost use Rattle.yw_state.specs.NewRule.{is_side, is_taken};
ghost use Rattle.yw_state.specs.RuleTree.{concluded, holds};

use crate::RdrFault;
use std::alloc::{AllocError, Global};
use std::marker::Model;
use yw_expr::{Expr, Values, truth_over};
use yw_state::Conclusion;

/// The most rules of a tree.
const MOST_RULES: usize = 65535;

/// A rule, and the rules attached to it, by their places in the list of rules.
#[derive(Drop)]
pub(crate) struct Node {
    pub(crate) at: u32,
    pub(crate) side: bool,
    pub(crate) test: Expr,
    pub(crate) conclusion: Conclusion,
    pub(crate) met: Option<usize>,
    pub(crate) unmet: Option<usize>,
}

/// The rules of a tree. A contract sees them as a list, in the order in which they came.
#[derive(Drop)]
pub struct RuleTree {
    first: Option<usize>,
    nodes: Vec<Node>,
}

impl Model for RuleTree {
    ghost use Rattle.std.specs.Prelude.{List};
    ghost use Rattle.yw_rdr.specs.Links.{IsTree, kept_in};
    ghost use Rattle.yw_rdr.specs.Rules.{Kept};

    ghost Value = { List Kept };

    ghost use Rattle.std.specs.Coded.{codes};
    ghost use Rattle.yw_expr.specs.Tree.{tree_code};

    ghost coded = { Prim.hlevel (codes, tree_code) };

    ghost view = { λ t. kept_in t.nodes.items };

    ghost invariant = { λ t. IsTree t.first t.nodes.items };
}

/// A condition that is undefined counts as false.
fn holds<V: Values>(test: &Expr, row: &V) -> bool
    ensures { result ≡ holds test.now (V.values row.now) }
{
    truth_over(test, row).unwrap_or(false)
}

/// The number of the last rule on the walk that held.
fn last_met<V: Values>(nodes: &Vec<Node>, first: Option<usize>, row: &V) -> Option<usize>
    requires { IsTree first nodes.now.items }
    ensures { result ≡ concluded (rules_of (kept_in nodes.now.items)) (V.values row.now) }
{
    let mut link = first;
    let mut last = None;
    while let Some(j) = link {
        let node = &nodes[j];
        if holds(&node.test, row) {
            last = Some(j + 1);
            link = node.met;
        } else {
            link = node.unmet;
        }
    }
    last
}

/// What is attached to a rule at a side.
fn side_of(node: &Node, side: bool) -> Option<usize>
    ensures { result ≡ side_of side node.now }
{
    if side { node.met } else { node.unmet }
}

/// What is attached to the node with this number at a side.
fn link_at(nodes: &Vec<Node>, first: Option<usize>, at: u32, side: bool) -> Option<usize>
    ensures { result ≡ link_at first nodes.now.items at side }
{
    if at == 0 {
        return if side { first } else { None };
    }
    side_of(nodes.get(at as usize - 1)?, side)
}

/// The tree has this node, and it this side.
fn is_side(count: usize, at: u32, side: bool) -> bool
    ensures { result ≡ is_side count at side }
{
    at as usize <= count && (side || 0 < at)
}

/// Why no rule is attached there, if none is.
fn fault_at(nodes: &Vec<Node>, first: Option<usize>, at: u32, side: bool) -> Option<RdrFault>
    requires { IsTree first nodes.now.items }
    ensures { IfFault result (kept_in nodes.now.items) at side }
{
    if !is_side(nodes.len(), at, side) {
        return Some(RdrFault::UnknownPlace);
    }
    if link_at(nodes, first, at, side).is_some() {
        return Some(RdrFault::PlaceTaken);
    }
    if nodes.len() >= MOST_RULES {
        return Some(RdrFault::Many);
    }
    None
}

/// The rule with this place in the list has the other attached to it at a side.
fn set_side(nodes: &mut Vec<Node>, i: usize, side: bool, number: usize)
    requires { i < length nodes.old.items }
    ensures { (n : Node) → slice_get nodes.old.items i ≡ Some n → nodes.new.items ≡ slice_set nodes.old.items i (with_side side number n) }
{
    if side {
        nodes[i].met = Some(number);
    } else {
        nodes[i].unmet = Some(number);
    }
}

/// One rule more stands after all others, and is attached to the one where it says. An `Err` says that no memory was left, and changes nothing.
fn grow(
    nodes: &mut Vec<Node>,
    at: u32,
    side: bool,
    test: Expr,
    conclusion: Conclusion,
) -> Result<(), AllocError>
    requires { at ≤ length nodes.old.items }
    ensures ok { OnOk result (Grows nodes.old.items nodes.new.items at side test conclusion) }
    ensures err { OnErr result (nodes.new.items ≡ nodes.old.items) }
{
    let number = nodes.len();
    nodes.push(Node {
        at,
        side,
        test,
        conclusion,
        met: None,
        unmet: None,
    })?;
    if 0 < at {
        set_side(nodes, at as usize - 1, side, number);
    }
    Ok(())
}

/// What is attached to node 0, once the rule with this place in the list is attached there at a side.
fn first_with(first: Option<usize>, at: u32, side: bool, number: usize) -> Option<usize>
    ensures { result ≡ first_with first at side number }
{
    if at == 0 && side { Some(number) } else { first }
}

impl RuleTree {
    /// Node 0 alone. It takes no memory.
    pub fn new(alloc: Global) -> RuleTree
        ensures { result ≡ [] }
    {
        RuleTree {
            first: None,
            nodes: Vec::new(alloc),
        }
    }

    /// The number of the rule that the tree concludes for these values, or `None`. It takes no memory.
    pub fn conclude<V: Values>(&self, row: &V) -> Option<usize>
        ensures { result ≡ concluded (rules_of self.now) (V.values row.now) }
    {
        last_met(&self.nodes, self.first, row)
    }

    /// What the rule with this number concludes.
    pub fn conclusion(&self, node: usize) -> &Conclusion
        requires some { 1 ≤ node }
        requires most { node ≤ length self.now }
        ensures { option_map (λ (k : Kept). k.conclusion) (slice_get self.now (node - 1)) ≡ Some result.now }
    {
        &self.nodes[node - 1].conclusion
    }

    /// Why no rule can be attached to a node at a side, or `None` where one can: `UnknownPlace` exactly where the tree hasn't the node or the side,
    /// `PlaceTaken` else where a rule is attached there, and `Many` else where the tree has 65,535 rules. The faults and their order are our own.
    /// It takes no memory, and never says that there is none.
    pub fn ask(&self, at: u32, side: bool) -> Option<RdrFault>
        ensures { IfFault result self.now at side }
    {
        fault_at(&self.nodes, self.first, at, side)
    }

    /// A rule more, attached to a node at a side where `ask` finds nothing against it, and its number. An `Err` says that no memory was left, and
    /// changes nothing.
    pub fn add(
        &mut self,
        at: u32,
        side: bool,
        when: Expr,
        conclusion: Conclusion,
    ) -> Result<u32, AllocError>
        requires { Takes self.old at side }
        ensures ok { IfOk result (IsAdded self.old self.new (a_rule at side when conclusion)) }
        ensures err { OnErr result (self.new ≡ self.old) }
    {
        let number = self.nodes.len();
        match grow(&mut self.nodes, at, side, when, conclusion) {
            Ok(()) => {
                self.first = first_with(self.first, at, side, number);
                Ok(number as u32 + 1)
            }
            Err(AllocError) => Err(AllocError),
        }
    }

    /// Attaches a rule to a node at a side, and gives its number. The faults are those of `ask`, or `Memory` where none was left. An `Err` changes
    /// nothing but that the rule's parts are gone.
    pub fn attach(
        &mut self,
        at: u32,
        side: bool,
        when: Expr,
        conclusion: Conclusion,
    ) -> Result<u32, RdrFault>
        ensures ok { IfOk result (IsAdded self.old self.new (a_rule at side when conclusion)) }
        ensures free { IfOk result (λ _. Takes self.old at side) }
        ensures fault { OnFault result self.old at side }
        ensures err { OnErr result (self.new ≡ self.old) }
    {
        if let Some(fault) = self.ask(at, side) {
            return Err(fault);
        }
        Ok(self.add(at, side, when, conclusion)?)
    }
}
