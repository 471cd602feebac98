// Expressions in memory.
ghost use Rattle.std.specs.Prelude.{◌≡◌, Some};
ghost use Rattle.yw_expr.specs.Sorts.{tree_sort};

use std::marker::Model;
use yw_base::{Sort, Value};
use yw_grammar::{Call, Infix, Prefix};

/// A node of an expression's tree, whose names are looked up.
#[derive(Debug, Drop)]
pub enum Node {
    /// A number, a text, a truth value or a list that the text spells.
    Constant(Value),
    /// A name's place in the scope, and its sort.
    Variable(usize, Sort),
    /// `len` or `sum` of a list.
    Function(Call, Box<Node>),
    /// An operator before its operand.
    Unary(Prefix, Box<Node>),
    /// An operator and its two operands.
    Binary(Infix, Box<Node>, Box<Node>),
    /// A list and the place of the element that is taken from it.
    Element(Box<Node>, Box<Node>),
}

/// An expression that has a sort. A contract sees it as the tree that its text means in its scope.
#[derive(Debug, Drop)]
pub struct Expr {
    root: Node,
    sort: Sort,
}

impl Model for Expr {
    ghost use Rattle.yw_expr.specs.Tree.{Tree, tree_code};

    ghost Value = { Tree };

    ghost coded = { tree_code };

    ghost use Rattle.std.specs.Prelude.{◌≡◌, Some};
    ghost use Rattle.yw_expr.specs.Sorts.{tree_sort};
    ghost use Rattle.yw_expr.specs.Node.{tree_of};

    ghost view = { λ e. tree_of e.root };

    ghost invariant = { λ e. tree_sort (tree_of e.root) ≡ Some e.sort };
}

impl Expr {
    ghost use Rattle.std.specs.Prelude.{◌≡◌, Some, IsSome};
    ghost use Rattle.yw_expr.specs.Sorts.{tree_sort};
    ghost use Rattle.yw_expr.specs.Node.{tree_of};

    /// The expression of a tree of this sort.
    pub(crate) fn new(root: Node, sort: Sort) -> Expr
        requires { tree_sort (tree_of root) ≡ Some sort }
        ensures { result ≡ tree_of root }
    {
        Expr { root, sort }
    }

    /// Its tree.
    pub(crate) fn root(&self) -> &Node
        ensures tree { tree_of result.now ≡ self.now }
        ensures sorted { IsSome (tree_sort self.now) }
    {
        &self.root
    }
}

/// The sort of its values. It takes no memory.
pub fn sort_of(e: &Expr) -> Sort
    ensures { tree_sort e.now ≡ Some result }
{
    e.sort
}
