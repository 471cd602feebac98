// Trees of expressions.
use crate::said::add_debug;
use std::alloc::{AllocError, Global};
use yw_grammar::{Call, Infix, Leaf, Lexeme, Span, Symbol, SyntaxTree, parse};

/// Lexemes of one sign each, one place after another: a digit is a number, `x` a name, `t` a text, `!` the
/// word `not`, `&` and `|` the words `and` and `or`, and `L` the word `len`.
fn lexemes(alloc: Global, signs: &str) -> Result<Vec<Lexeme>, AllocError> {
    let mut lexemes = Vec::new(alloc);
    for (at, sign) in signs.as_bytes().iter().enumerate() {
        lexemes.push(Lexeme {
            symbol: symbol(*sign),
            at,
        })?;
    }
    Ok(lexemes)
}

fn symbol(sign: u8) -> Symbol {
    match sign {
        b'x' => Symbol::Atom(Leaf::Name(Span { from: 0, to: 1 })),
        b't' => Symbol::Atom(Leaf::Text(Span { from: 0, to: 1 })),
        b'!' => Symbol::NotWord,
        b'L' => Symbol::Function(Call::Len),
        b'(' => Symbol::LeftParen,
        b')' => Symbol::RightParen,
        b'[' => Symbol::LeftBracket,
        b']' => Symbol::RightBracket,
        b',' => Symbol::Comma,
        _ => operator(sign),
    }
}

fn operator(sign: u8) -> Symbol {
    match sign {
        b'&' => Symbol::Operator(Infix::And),
        b'|' => Symbol::Operator(Infix::Or),
        b'=' => Symbol::Operator(Infix::Equal),
        b'<' => Symbol::Operator(Infix::Less),
        b'+' => Symbol::Operator(Infix::Plus),
        b'-' => Symbol::Operator(Infix::Minus),
        b'*' => Symbol::Operator(Infix::Times),
        _ => Symbol::Atom(Leaf::Number(u64::from(sign))),
    }
}

/// What the whole expression is, and where that stands.
fn add_root(tree: &SyntaxTree, out: &mut String) -> Result<(), AllocError> {
    match tree {
        SyntaxTree::Leaf(at, _) => write!(out, "Leaf at {at}"),
        SyntaxTree::List(at, _) => write!(out, "List at {at}"),
        SyntaxTree::Call(call, at, _) => write!(out, "{call:?} at {at}"),
        SyntaxTree::Two(infix, at, _, _) => write!(out, "{infix:?} at {at}"),
        SyntaxTree::One(prefix, at, _) => write!(out, "{prefix:?} at {at}"),
        SyntaxTree::Item(at, _, _) => write!(out, "Item at {at}"),
    }
}

/// What the operand behind a prefix is.
fn add_operand(tree: &SyntaxTree, out: &mut String) -> Result<(), AllocError> {
    match tree {
        SyntaxTree::One(_, _, operand) => {
            out.push_str(" before ")?;
            add_root(operand, out)
        }
        _ => Ok(()),
    }
}

/// What the signs are together.
pub(crate) fn parsed(alloc: Global, signs: &str, out: &mut String) -> Result<(), AllocError> {
    let lexemes = lexemes(alloc, signs)?;
    match parse(alloc, &lexemes, signs.len()) {
        Err(fault) => add_debug(out, &fault),
        Ok(tree) => {
            add_root(&tree, out)?;
            add_operand(&tree, out)
        }
    }
}
