// What is begun and not yet ended: a stack whose top is last.
ghost use Rattle.std.specs.Prelude.{◌≡◌, ◌+◌, List, [], ◌∷◌, IfOk, OnOk, OnSome, MatchOption, vec_len};
ghost use Rattle.yw_grammar.specs.SyntaxTree.{form_of};
ghost use Rattle.yw_grammar.specs.Machine.{Begun, have, need, ends_top, joined, fold_top};
ghost use Rattle.yw_grammar.specs.Tie.{begun_of, tops};

use crate::level::{before_of, level_of, right_of};
use crate::{Call, Infix, Prefix, SyntaxTree};
use std::alloc::{AllocError, Global};

/// What is begun and wants an operand to go on.
#[derive(Drop)]
pub enum Frame {
    /// A left operand and its operator.
    Side(Infix, usize, SyntaxTree),
    /// An operator before an operand.
    Before(Prefix, usize),
    /// A group's bracket.
    Group,
    /// A function and its bracket.
    Function(Call, usize),
    /// A list and the bracket of an item's place.
    Place(usize, SyntaxTree),
}

/// What is begun last.
pub fn top(stack: &[Frame]) -> Option<&Frame>
    ensures { MatchOption result (tops stack.now ≡ [])
        (λ f. (below : List Begun) × (tops stack.now ≡ begun_of f.now ∷ below)) }
{
    stack.last()
}

/// Begins something more.
pub fn put(stack: &mut Vec<Frame>, frame: Frame) -> Result<(), AllocError>
    ensures { OnOk result (tops stack.new.items ≡ begun_of frame ∷ tops stack.old.items) }
{
    stack.push(frame)?;
    Ok(())
}

/// Takes off what is begun last.
pub fn take_top(stack: &mut Vec<Frame>) -> Option<Frame>
    ensures top { MatchOption result (tops stack.old.items ≡ [])
        (λ f. tops stack.old.items ≡ begun_of f ∷ tops stack.new.items) }
    ensures fewer { OnSome result (vec_len stack.new + 1 ≡ vec_len stack.old) }
{
    stack.pop()
}

/// The loosest level that may go on from here.
pub fn need(stack: &[Frame]) -> u8
    ensures { result ≡ need (tops stack.now) }
{
    match top(stack) {
        None => 0,
        Some(Frame::Side(op, _, _)) => right_of(*op),
        Some(Frame::Before(op, _)) => before_of(*op),
        Some(Frame::Group) => 0,
        Some(Frame::Function(_, _)) => 0,
        Some(Frame::Place(_, _)) => 0,
    }
}

/// Whether what is begun last ends where something of this level stands to its right.
fn ends_top(level: u8, stack: &[Frame]) -> bool
    ensures { result ≡ ends_top level (tops stack.now) }
{
    match top(stack) {
        None => false,
        Some(Frame::Side(op, _, _)) => level <= level_of(*op),
        Some(Frame::Before(op, _)) => level <= before_of(*op),
        Some(Frame::Group) => false,
        Some(Frame::Function(_, _)) => false,
        Some(Frame::Place(_, _)) => false,
    }
}

/// What was begun, ended by an operand.
pub fn join(alloc: Global, frame: Frame, hand: SyntaxTree) -> Result<SyntaxTree, AllocError>
    ensures { IfOk result (λ t. form_of t ≡ joined (begun_of frame) (form_of hand)) }
{
    match frame {
        Frame::Side(op, at, x) => {
            let left = Box::new(alloc, x)?;
            let right = Box::new(alloc, hand)?;
            Ok(SyntaxTree::Two(op, at, left, right))
        }
        Frame::Before(op, at) => {
            let operand = Box::new(alloc, hand)?;
            Ok(SyntaxTree::One(op, at, operand))
        }
        Frame::Group => Ok(hand),
        Frame::Function(f, at) => {
            let operand = Box::new(alloc, hand)?;
            Ok(SyntaxTree::Call(f, at, operand))
        }
        Frame::Place(at, x) => {
            let list = Box::new(alloc, x)?;
            let index = Box::new(alloc, hand)?;
            Ok(SyntaxTree::Item(at, list, index))
        }
    }
}

/// Ends what an operand ends where something of this level follows.
pub fn fold_top(
    alloc: Global,
    stack: &mut Vec<Frame>,
    mut hand: SyntaxTree,
    level: u8,
) -> Result<SyntaxTree, AllocError>
    ensures { IfOk result (λ t. fold_top level (tops stack.old.items) (form_of hand)
        ≡ have (tops stack.new.items) (form_of t)) }
{
    'ends: while ends_top(level, stack) {
        match take_top(stack) {
            Some(frame) => hand = join(alloc, frame, hand)?,
            None => unreachable!(),
        }
    }
    Ok(hand)
}
