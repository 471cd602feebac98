// The parser: a loop with a stack, which takes each lexeme once.
ghost use Rattle.std.specs.Prelude.{◌≡◌, ◌++◌, [], ◌∷◌, ℕ, IfOk};
ghost use Rattle.yw_grammar.specs.Grammar.{Form, AreAll, IsSyntaxFault, left_of};
ghost use Rattle.yw_grammar.specs.SyntaxTree.{form_of};
ghost use Rattle.yw_grammar.specs.Reading.{Reads, IsOnly, IsOnlyFault};
ghost use Rattle.yw_grammar.specs.Machine.{fold_top, begin_with, begin, sign_after, right_after, shut_after, go_on, enter, in_literal, in_digits, in_listed, step, finish};
ghost use Rattle.yw_grammar.specs.Tie.{tops, state_of, Gives, Finishes};

use crate::level::{before_of, left_of, level_of};
use crate::stack::{Frame, fold_top, join, need, put, take_top, top};
use crate::{Call, Infix, Leaf, Lexeme, Literal, Prefix, Symbol, SyntaxFault, SyntaxTree};
use std::alloc::{AllocError, Global};

/// What is at hand, or is wanted.
#[derive(Drop)]
pub enum Hand {
    /// An operand is wanted.
    Wanted,
    /// An operand is at hand.
    Held(SyntaxTree),
    /// The bracket of a function is wanted.
    Bracket(Call, usize),
    /// A literal is wanted.
    Literal(usize, Vec<Literal>),
    /// The number behind a literal's minus is wanted.
    Digits(usize, Vec<Literal>),
    /// A comma or the end of a list is wanted.
    Listed(usize, Vec<Literal>),
}

/// Puts a sign or word before the operand that comes.
fn begin_with(stack: &mut Vec<Frame>, op: Prefix, at: usize) -> Result<Hand, SyntaxFault>
    ensures { Gives result stack.new.items at (begin_with op at (tops stack.old.items)) }
{
    if need(stack) <= before_of(op) {
        put(stack, Frame::Before(op, at))?;
        Ok(Hand::Wanted)
    } else {
        Err(SyntaxFault::At(at))
    }
}

/// A lexeme where an operand is wanted.
fn begin(alloc: Global, stack: &mut Vec<Frame>, lexeme: Lexeme) -> Result<Hand, SyntaxFault>
    ensures { Gives result stack.new.items lexeme.at (begin lexeme.symbol lexeme.at (tops stack.old.items)) }
{
    let at = lexeme.at;
    match lexeme.symbol {
        Symbol::Atom(x) => Ok(Hand::Held(SyntaxTree::Leaf(at, x))),
        Symbol::Operator(Infix::Minus) => begin_with(stack, Prefix::Negate, at),
        Symbol::NotWord => begin_with(stack, Prefix::Not, at),
        Symbol::Function(f) => Ok(Hand::Bracket(f, at)),
        Symbol::LeftParen => {
            put(stack, Frame::Group)?;
            Ok(Hand::Wanted)
        }
        Symbol::LeftBracket => Ok(Hand::Literal(at, Vec::new(alloc))),
        _ => Err(SyntaxFault::At(at)),
    }
}

/// A sign or word behind an operand.
fn sign_after(
    alloc: Global,
    stack: &mut Vec<Frame>,
    op: Infix,
    at: usize,
    hand: SyntaxTree,
) -> Result<Hand, SyntaxFault>
    ensures { Gives result stack.new.items at (sign_after op at (fold_top (left_of op) (tops stack.old.items) (form_of hand))) }
{
    let hand = fold_top(alloc, stack, hand, left_of(op))?;
    if need(stack) <= level_of(op) {
        put(stack, Frame::Side(op, at, hand))?;
        Ok(Hand::Wanted)
    } else {
        Err(SyntaxFault::At(at))
    }
}

/// A bracket that closes a group.
fn right_after(
    alloc: Global,
    stack: &mut Vec<Frame>,
    at: usize,
    hand: SyntaxTree,
) -> Result<Hand, SyntaxFault>
    ensures { Gives result stack.new.items at (right_after (fold_top 0 (tops stack.old.items) (form_of hand))) }
{
    let hand = fold_top(alloc, stack, hand, 0)?;
    match take_top(stack) {
        Some(Frame::Group) => Ok(Hand::Held(hand)),
        Some(Frame::Function(f, start)) => {
            let value = join(alloc, Frame::Function(f, start), hand)?;
            Ok(Hand::Held(value))
        }
        Some(Frame::Side(_, _, _)) => Err(SyntaxFault::At(at)),
        Some(Frame::Before(_, _)) => Err(SyntaxFault::At(at)),
        Some(Frame::Place(_, _)) => Err(SyntaxFault::At(at)),
        None => Err(SyntaxFault::At(at)),
    }
}

/// A bracket that closes an item.
fn shut_after(
    alloc: Global,
    stack: &mut Vec<Frame>,
    at: usize,
    hand: SyntaxTree,
) -> Result<Hand, SyntaxFault>
    ensures { Gives result stack.new.items at (shut_after (fold_top 0 (tops stack.old.items) (form_of hand))) }
{
    let hand = fold_top(alloc, stack, hand, 0)?;
    match take_top(stack) {
        Some(Frame::Place(start, list)) => {
            let item = join(alloc, Frame::Place(start, list), hand)?;
            Ok(Hand::Held(item))
        }
        Some(Frame::Side(_, _, _)) => Err(SyntaxFault::At(at)),
        Some(Frame::Before(_, _)) => Err(SyntaxFault::At(at)),
        Some(Frame::Group) => Err(SyntaxFault::At(at)),
        Some(Frame::Function(_, _)) => Err(SyntaxFault::At(at)),
        None => Err(SyntaxFault::At(at)),
    }
}

/// A lexeme where an operand is at hand.
fn go_on(
    alloc: Global,
    stack: &mut Vec<Frame>,
    hand: SyntaxTree,
    lexeme: Lexeme,
) -> Result<Hand, SyntaxFault>
    ensures { Gives result stack.new.items lexeme.at (go_on lexeme.symbol lexeme.at (tops stack.old.items) (form_of hand)) }
{
    let at = lexeme.at;
    match lexeme.symbol {
        Symbol::Operator(op) => sign_after(alloc, stack, op, at, hand),
        Symbol::RightParen => right_after(alloc, stack, at, hand),
        Symbol::RightBracket => shut_after(alloc, stack, at, hand),
        Symbol::LeftBracket => {
            put(stack, Frame::Place(at, hand))?;
            Ok(Hand::Wanted)
        }
        Symbol::Atom(_) => Err(SyntaxFault::At(at)),
        Symbol::NotWord => Err(SyntaxFault::At(at)),
        Symbol::Function(_) => Err(SyntaxFault::At(at)),
        Symbol::LeftParen => Err(SyntaxFault::At(at)),
        Symbol::Comma => Err(SyntaxFault::At(at)),
    }
}

/// The bracket of a call.
fn enter(stack: &mut Vec<Frame>, f: Call, start: usize, lexeme: Lexeme) -> Result<Hand, SyntaxFault>
    ensures { Gives result stack.new.items lexeme.at (enter f start (tops stack.old.items) lexeme.symbol) }
{
    match lexeme.symbol {
        Symbol::LeftParen => {
            put(stack, Frame::Function(f, start))?;
            Ok(Hand::Wanted)
        }
        _ => Err(SyntaxFault::At(lexeme.at)),
    }
}

/// One literal more.
fn with_literal(mut items: Vec<Literal>, item: Literal) -> Result<Vec<Literal>, AllocError>
    ensures { IfOk result (λ v. v.items ≡ items.items ++ item ∷ []) }
{
    items.push(item)?;
    Ok(items)
}

/// A lexeme where a list wants a literal.
fn in_literal(
    stack: &[Frame],
    start: usize,
    items: Vec<Literal>,
    lexeme: Lexeme,
) -> Result<Hand, SyntaxFault>
    ensures { Gives result stack.now lexeme.at (in_literal start items.items (tops stack.now) lexeme.symbol) }
{
    match lexeme.symbol {
        Symbol::Atom(Leaf::Number(n)) => {
            let more = with_literal(items, Literal::Plain(n))?;
            Ok(Hand::Listed(start, more))
        }
        Symbol::Atom(Leaf::Text(span)) => {
            let more = with_literal(items, Literal::Quoted(span))?;
            Ok(Hand::Listed(start, more))
        }
        Symbol::Operator(Infix::Minus) => Ok(Hand::Digits(start, items)),
        _ => Err(SyntaxFault::At(lexeme.at)),
    }
}

/// A lexeme behind the minus of a literal.
fn in_digits(
    stack: &[Frame],
    start: usize,
    items: Vec<Literal>,
    lexeme: Lexeme,
) -> Result<Hand, SyntaxFault>
    ensures { Gives result stack.now lexeme.at (in_digits start items.items (tops stack.now) lexeme.symbol) }
{
    match lexeme.symbol {
        Symbol::Atom(Leaf::Number(n)) => {
            let more = with_literal(items, Literal::Negative(n))?;
            Ok(Hand::Listed(start, more))
        }
        _ => Err(SyntaxFault::At(lexeme.at)),
    }
}

/// A lexeme behind a literal of a list.
fn in_listed(
    stack: &[Frame],
    start: usize,
    items: Vec<Literal>,
    lexeme: Lexeme,
) -> Result<Hand, SyntaxFault>
    ensures { Gives result stack.now lexeme.at (in_listed start items.items (tops stack.now) lexeme.symbol) }
{
    match lexeme.symbol {
        Symbol::Comma => Ok(Hand::Literal(start, items)),
        Symbol::RightBracket => Ok(Hand::Held(SyntaxTree::List(start, items))),
        _ => Err(SyntaxFault::At(lexeme.at)),
    }
}

/// What a lexeme makes of the stack and of what is at hand.
fn step(
    alloc: Global,
    stack: &mut Vec<Frame>,
    hand: Hand,
    lexeme: Lexeme,
) -> Result<Hand, SyntaxFault>
    ensures { Gives result stack.new.items lexeme.at (step (state_of stack.old.items hand) lexeme) }
{
    match hand {
        Hand::Wanted => begin(alloc, stack, lexeme),
        Hand::Held(hand) => go_on(alloc, stack, hand, lexeme),
        Hand::Bracket(f, start) => enter(stack, f, start, lexeme),
        Hand::Literal(start, items) => in_literal(stack, start, items, lexeme),
        Hand::Digits(start, items) => in_digits(stack, start, items, lexeme),
        Hand::Listed(start, items) => in_listed(stack, start, items, lexeme),
    }
}

/// The end of the lexemes.
fn finish(
    alloc: Global,
    stack: &mut Vec<Frame>,
    hand: Hand,
    end: usize,
) -> Result<SyntaxTree, SyntaxFault>
    ensures { Finishes result (finish (state_of stack.old.items hand)) end }
{
    match hand {
        Hand::Held(hand) => {
            let hand = fold_top(alloc, stack, hand, 0)?;
            match top(stack) {
                None => Ok(hand),
                Some(_) => Err(SyntaxFault::At(end)),
            }
        }
        Hand::Wanted => Err(SyntaxFault::At(end)),
        Hand::Bracket(_, _) => Err(SyntaxFault::At(end)),
        Hand::Literal(_, _) => Err(SyntaxFault::At(end)),
        Hand::Digits(_, _) => Err(SyntaxFault::At(end)),
        Hand::Listed(_, _) => Err(SyntaxFault::At(end)),
    }
}

/// Runs over the lexemes.
fn run(alloc: Global, lexemes: &[Lexeme], end: usize) -> Result<SyntaxTree, SyntaxFault>
    ensures { Reads result lexemes.now end }
{
    let mut stack = Vec::new(alloc);
    let mut hand = Hand::Wanted;
    for lexeme in lexemes {
        match step(alloc, &mut stack, hand, *lexeme) {
            Ok(next) => hand = next,
            Err(fault) => return Err(fault),
        }
    }
    finish(alloc, &mut stack, hand, end)
}

/// The tree of the expression that the lexemes spell; `end` is the place behind the last of them. It is
/// `At` exactly where they spell none: at the start of the first lexeme that with those before it begins no
/// expression, or at the end. It is `Memory` only where no memory was left. It takes each lexeme once, and
/// its stack is on the heap. A tree may be as deep as the lexemes are many, and is dropped by recursion, so a
/// caller bounds their number.
pub fn parse(alloc: Global, lexemes: &[Lexeme], end: usize) -> Result<SyntaxTree, SyntaxFault>
    // A tree is spelled by the lexemes, and a fault is the first in them.
    ensures reads { Reads result lexemes.now end }

    // Unless memory runs out, what is spelled is read, as no other tree, and a fault is found in its place.
    ensures spelled { (e : Form) → AreAll lexemes.now e → IsOnly result e }
    ensures faulty { (at : ℕ) → IsSyntaxFault lexemes.now end at → IsOnlyFault result at }
{
    run(alloc, lexemes, end)
}
