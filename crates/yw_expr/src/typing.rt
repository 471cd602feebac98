// The sorts of expressions and the trees with their names looked up.
ghost use Rattle.std.specs.Prelude.{◌≡◌, IfOk, map};
ghost use Rattle.std.specs.List.{list_all, All};
ghost use Rattle.yw_base.specs.Values.{sort_of};
ghost use Rattle.yw_grammar.specs.declared.symbol.Leaf.TheVariants.{Name};
ghost use Rattle.yw_grammar.specs.SyntaxTree.{form_of};
ghost use Rattle.yw_expr.specs.Node.{tree_of};
ghost use Rattle.yw_expr.specs.Sorts.{function_sort, unary_sort, ints_sort, bools_sort, texts_sort, binary_sort, element_sort};
ghost use Rattle.yw_expr.specs.Tree.{constant, function, unary, binary, element};
ghost use Rattle.yw_expr.specs.Typing.{part, leaf_tree, list_tree, is_number, is_text, number_of, text_of, IsTextPart, IsSoundLeaf, IsSoundNumber, IsSoundText, IsSound};
ghost use Rattle.yw_expr.specs.Walk.{of_sort, of_tree, verdict, Finds};

use crate::fault::ExprFault;
use crate::node::Node;
use crate::scope::Scope;
use std::alloc::{AllocError, Global};
use yw_base::{IntList, Items, Sort, Text, TextList, Value};
use yw_grammar::{Call, Infix, Leaf, Literal, Prefix, Span, SyntaxTree};

/// A tree whose names are looked up, and its sort.
#[derive(Drop)]
pub struct Typed {
    pub node: Node,
    pub sort: Sort,
}

/// The sort of a function of a list.
fn function_sort(f: Call, a: Sort) -> Option<Sort>
    ensures { result ≡ function_sort f a }
{
    match (f, a) {
        (Call::Len, Sort::Ints) => Some(Sort::Int),
        (Call::Len, Sort::Texts) => Some(Sort::Int),
        (Call::Sum, Sort::Ints) => Some(Sort::Int),
        _ => None,
    }
}

fn unary_sort(op: Prefix, a: Sort) -> Option<Sort>
    ensures { result ≡ unary_sort op a }
{
    match (op, a) {
        (Prefix::Not, Sort::Bool) => Some(Sort::Bool),
        (Prefix::Negate, Sort::Int) => Some(Sort::Int),
        _ => None,
    }
}

fn ints_sort(op: Infix) -> Option<Sort>
    ensures { result ≡ ints_sort op }
{
    match op {
        Infix::Or | Infix::And => None,
        Infix::Equal | Infix::NotEqual => Some(Sort::Bool),
        Infix::Less | Infix::LessOrEqual | Infix::Greater | Infix::GreaterOrEqual => {
            Some(Sort::Bool)
        }
        Infix::Plus | Infix::Minus => Some(Sort::Int),
        Infix::Times | Infix::Divide | Infix::Remainder => Some(Sort::Int),
    }
}

fn bools_sort(op: Infix) -> Option<Sort>
    ensures { result ≡ bools_sort op }
{
    match op {
        Infix::Or | Infix::And | Infix::Equal | Infix::NotEqual => Some(Sort::Bool),
        _ => None,
    }
}

fn texts_sort(op: Infix) -> Option<Sort>
    ensures { result ≡ texts_sort op }
{
    match op {
        Infix::Equal | Infix::NotEqual => Some(Sort::Bool),
        _ => None,
    }
}

fn binary_sort(op: Infix, a: Sort, b: Sort) -> Option<Sort>
    ensures { result ≡ binary_sort op a b }
{
    match (a, b) {
        (Sort::Int, Sort::Int) => ints_sort(op),
        (Sort::Bool, Sort::Bool) => bools_sort(op),
        (Sort::Text, Sort::Text) => texts_sort(op),
        _ => None,
    }
}

fn element_sort(a: Sort, k: Sort) -> Option<Sort>
    ensures { result ≡ element_sort a k }
{
    match (a, k) {
        (Sort::Ints, Sort::Int) => Some(Sort::Int),
        (Sort::Texts, Sort::Int) => Some(Sort::Text),
        _ => None,
    }
}

/// A node with the sort that the table has for it, or the fault at its place.
fn of_sort(at: usize, node: Node, sort: Option<Sort>) -> Result<Typed, ExprFault>
    ensures { Finds result (of_sort at (tree_of node) sort) }
{
    match sort {
        Some(sort) => Ok(Typed { node, sort }),
        None => Err(ExprFault::Types(at)),
    }
}

fn typed_call(alloc: Global, f: Call, at: usize, x: Typed) -> Result<Typed, ExprFault>
    ensures { Finds result (of_sort at (function f (tree_of x.node)) (function_sort f x.sort)) }
{
    let Typed { node, sort } = x;
    let operand = Box::new(alloc, node)?;
    of_sort(at, Node::Function(f, operand), function_sort(f, sort))
}

fn typed_one(alloc: Global, op: Prefix, at: usize, x: Typed) -> Result<Typed, ExprFault>
    ensures { Finds result (of_sort at (unary op (tree_of x.node)) (unary_sort op x.sort)) }
{
    let Typed { node, sort } = x;
    let operand = Box::new(alloc, node)?;
    of_sort(at, Node::Unary(op, operand), unary_sort(op, sort))
}

fn typed_two(alloc: Global, op: Infix, at: usize, x: Typed, y: Typed) -> Result<Typed, ExprFault>
    ensures { Finds result (of_sort at (binary op (tree_of x.node) (tree_of y.node)) (binary_sort op x.sort y.sort)) }
{
    let left = Box::new(alloc, x.node)?;
    let right = Box::new(alloc, y.node)?;
    of_sort(
        at,
        Node::Binary(op, left, right),
        binary_sort(op, x.sort, y.sort),
    )
}

fn typed_item(alloc: Global, at: usize, x: Typed, k: Typed) -> Result<Typed, ExprFault>
    ensures { Finds result (of_sort at (element (tree_of x.node) (tree_of k.node)) (element_sort x.sort k.sort)) }
{
    let list = Box::new(alloc, x.node)?;
    let place = Box::new(alloc, k.node)?;
    of_sort(at, Node::Element(list, place), element_sort(x.sort, k.sort))
}

/// The text of a part of a text.
fn text_of(alloc: Global, text: &str, span: Span) -> Result<Text, AllocError>
    requires { IsTextPart text.now span }
    ensures { IfOk result (λ t. t ≡ part text.now span) }
{
    Text::copy_of(alloc, &text[span.from..span.to])
}

/// The number of a literal.
fn number_of(literal: Literal) -> i64
    requires { IsSoundNumber literal }
    ensures { result ≡ number_of literal }
{
    match literal {
        Literal::Plain(n) => n as i64,
        Literal::Negative(n) => -(n as i64),
        Literal::Quoted(_) => 0,
    }
}

fn numbers_of(alloc: Global, items: &[Literal]) -> Result<IntList, AllocError>
    requires { All IsSoundNumber items.now }
    ensures { IfOk result (λ list. list ≡ map number_of items.now) }
{
    let mut list = Items::new(alloc);
    for item in items {
        list.push(number_of(*item))?;
    }
    Ok(list)
}

/// The text of a literal.
fn quoted_of(alloc: Global, text: &str, literal: Literal) -> Result<Text, AllocError>
    requires { IsSoundText text.now literal }
    ensures { IfOk result (λ t. t ≡ text_of text.now literal) }
{
    match literal {
        Literal::Plain(_) | Literal::Negative(_) => Ok(Text::new(alloc)),
        Literal::Quoted(span) => text_of(alloc, text, span),
    }
}

fn texts_of(alloc: Global, text: &str, items: &[Literal]) -> Result<TextList, AllocError>
    requires { All (IsSoundText text.now) items.now }
    ensures { IfOk result (λ list. list ≡ map (text_of text.now) items.now) }
{
    let mut list = Items::new(alloc);
    for item in items {
        list.push(quoted_of(alloc, text, *item)?)?;
    }
    Ok(list)
}

fn is_number(literal: Literal) -> bool
    ensures { result ≡ is_number literal }
{
    match literal {
        Literal::Plain(_) | Literal::Negative(_) => true,
        Literal::Quoted(_) => false,
    }
}

fn is_text(literal: Literal) -> bool
    ensures { result ≡ is_text literal }
{
    match literal {
        Literal::Plain(_) | Literal::Negative(_) => false,
        Literal::Quoted(_) => true,
    }
}

fn are_numbers(items: &[Literal]) -> bool
    ensures { result ≡ list_all is_number items.now }
{
    items.iter().all(|item| is_number(*item))
}

fn are_texts(items: &[Literal]) -> bool
    ensures { result ≡ list_all is_text items.now }
{
    items.iter().all(|item| is_text(*item))
}

fn typed_list(alloc: Global, text: &str, at: usize, items: &[Literal]) -> Result<Typed, ExprFault>
    requires numbers { All IsSoundNumber items.now }
    requires texts { All (IsSoundText text.now) items.now }
    ensures { Finds result (of_tree at (list_tree text.now items.now)) }
{
    if are_numbers(items) {
        let node = Node::Constant(Value::Ints(numbers_of(alloc, items)?));
        Ok(Typed {
            node,
            sort: Sort::Ints,
        })
    } else if are_texts(items) {
        let node = Node::Constant(Value::Texts(texts_of(alloc, text, items)?));
        Ok(Typed {
            node,
            sort: Sort::Texts,
        })
    } else {
        Err(ExprFault::Types(at))
    }
}

fn typed_name(text: &str, scope: &Scope<'_>, at: usize, span: Span) -> Result<Typed, ExprFault>
    requires { IsSoundLeaf text.now (Name span) }
    ensures { Finds result (of_tree at (leaf_tree text.now scope.now (Name span))) }
{
    match scope.place_of(&text[span.from..span.to]) {
        Some(place) => match scope.sort_at(place) {
            Some(sort) => Ok(Typed {
                node: Node::Variable(place, sort),
                sort,
            }),
            None => Err(ExprFault::Types(at)),
        },
        None => Err(ExprFault::Types(at)),
    }
}

fn constant(value: Value) -> Typed
    ensures node { tree_of result.node ≡ constant value }
    ensures sort { result.sort ≡ sort_of value }
{
    let sort = value.sort();
    Typed {
        node: Node::Constant(value),
        sort,
    }
}

fn typed_leaf(
    alloc: Global,
    text: &str,
    scope: &Scope<'_>,
    at: usize,
    leaf: Leaf,
) -> Result<Typed, ExprFault>
    requires { IsSoundLeaf text.now leaf }
    ensures { Finds result (of_tree at (leaf_tree text.now scope.now leaf)) }
{
    match leaf {
        Leaf::Number(n) => Ok(constant(Value::Int(n as i64))),
        Leaf::Text(span) => Ok(constant(Value::Text(text_of(alloc, text, span)?))),
        Leaf::Name(span) => typed_name(text, scope, at, span),
        Leaf::Truth(truth) => Ok(constant(Value::Bool(truth))),
    }
}

/// The tree of a form and its sort, or the place of the first form in post-order that has none.
pub fn typed_form(
    alloc: Global,
    text: &str,
    scope: &Scope<'_>,
    tree: &SyntaxTree,
) -> Result<Typed, ExprFault>
    requires { IsSound text.now (form_of tree.now) }
    ensures { Finds result (verdict text.now scope.now (form_of tree.now)) }
{
    match tree {
        SyntaxTree::Leaf(at, leaf) => typed_leaf(alloc, text, scope, *at, *leaf),
        SyntaxTree::List(at, items) => typed_list(alloc, text, *at, items),
        SyntaxTree::Call(f, at, x) => {
            let x = typed_form(alloc, text, scope, x)?;
            typed_call(alloc, *f, *at, x)
        }
        SyntaxTree::One(op, at, x) => {
            let x = typed_form(alloc, text, scope, x)?;
            typed_one(alloc, *op, *at, x)
        }
        SyntaxTree::Two(op, at, x, y) => {
            let x = typed_form(alloc, text, scope, x)?;
            let y = typed_form(alloc, text, scope, y)?;
            typed_two(alloc, *op, *at, x, y)
        }
        SyntaxTree::Item(at, x, k) => {
            let x = typed_form(alloc, text, scope, x)?;
            let k = typed_form(alloc, text, scope, k)?;
            typed_item(alloc, *at, x, k)
        }
    }
}
