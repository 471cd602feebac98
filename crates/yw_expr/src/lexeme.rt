// What the tokens of a text are to the grammar.
ghost use Rattle.std.specs.Prelude.{◌≡◌, ◌+◌, ◌<◌, ◌≤◌, ◌^◌, ◌↔◌, length, map, IfOk, IsTrue};
ghost use Rattle.std.specs.List.{All};
ghost use Rattle.yw_lex.specs.Spelling.{number_of};
ghost use Rattle.yw_expr.specs.Lexemes.{word_symbol, sign_symbol, lexeme_of, lexemes_of, is_opening, is_closing, IsDeep, is_unknown, unknown_place, IsSoundToken, IsSoundLexeme};

use crate::scope::Scope;
use std::alloc::{AllocError, Global};
use yw_grammar::{Call, Infix, Leaf, Lexeme, Span, Symbol};
use yw_lex::{Token, Word};

/// The number of decimal digits.
fn number_of(digits: &[u8]) -> u64
    requires { number_of digits.now < 2 ^ 63 }
    ensures { result ≡ number_of digits.now }
{
    let mut number: u64 = 0;
    for digit in digits {
        number = number * 10 + u64::from(digit.saturating_sub(b'0'));
    }
    number
}

/// What a reserved word is.
fn word_symbol(bytes: &[u8]) -> Symbol
    ensures { result ≡ word_symbol bytes.now }
{
    if bytes == b"and".as_slice() {
        Symbol::Operator(Infix::And)
    } else if bytes == b"or".as_slice() {
        Symbol::Operator(Infix::Or)
    } else if bytes == b"not".as_slice() {
        Symbol::NotWord
    } else if bytes == b"true".as_slice() {
        Symbol::Atom(Leaf::Truth(true))
    } else if bytes == b"false".as_slice() {
        Symbol::Atom(Leaf::Truth(false))
    } else if bytes == b"len".as_slice() {
        Symbol::Function(Call::Len)
    } else {
        Symbol::Function(Call::Sum)
    }
}

/// What a sign is.
fn sign_symbol(bytes: &[u8]) -> Symbol
    ensures { result ≡ sign_symbol bytes.now }
{
    if bytes == b"=".as_slice() {
        Symbol::Operator(Infix::Equal)
    } else if bytes == b"!=".as_slice() {
        Symbol::Operator(Infix::NotEqual)
    } else if bytes == b"<".as_slice() {
        Symbol::Operator(Infix::Less)
    } else if bytes == b"<=".as_slice() {
        Symbol::Operator(Infix::LessOrEqual)
    } else if bytes == b">".as_slice() {
        Symbol::Operator(Infix::Greater)
    } else if bytes == b">=".as_slice() {
        Symbol::Operator(Infix::GreaterOrEqual)
    } else if bytes == b"+".as_slice() {
        Symbol::Operator(Infix::Plus)
    } else if bytes == b"-".as_slice() {
        Symbol::Operator(Infix::Minus)
    } else if bytes == b"*".as_slice() {
        Symbol::Operator(Infix::Times)
    } else if bytes == b"/".as_slice() {
        Symbol::Operator(Infix::Divide)
    } else if bytes == b"%".as_slice() {
        Symbol::Operator(Infix::Remainder)
    } else if bytes == b"(".as_slice() {
        Symbol::LeftParen
    } else if bytes == b")".as_slice() {
        Symbol::RightParen
    } else if bytes == b"[".as_slice() {
        Symbol::LeftBracket
    } else if bytes == b"]".as_slice() {
        Symbol::RightBracket
    } else {
        Symbol::Comma
    }
}

fn is_opening(lexeme: Lexeme) -> bool
    ensures { result ≡ is_opening lexeme }
{
    match lexeme.symbol {
        Symbol::LeftParen => true,
        Symbol::LeftBracket => true,
        _ => false,
    }
}

fn is_closing(lexeme: Lexeme) -> bool
    ensures { result ≡ is_closing lexeme }
{
    match lexeme.symbol {
        Symbol::RightParen => true,
        Symbol::RightBracket => true,
        _ => false,
    }
}

/// The most tokens of an expression.
pub const MOST_TOKENS: usize = 1024;

const MOST_OPEN: usize = 64;

/// There are more than 1,024 tokens, or at some place more than 64 brackets are open.
pub fn is_deep(lexemes: &[Lexeme]) -> bool
    ensures { IsTrue result ↔ IsDeep lexemes.now }
{
    if lexemes.len() > MOST_TOKENS {
        return true;
    }
    let mut opened: usize = 0;
    let mut closed: usize = 0;
    for lexeme in lexemes {
        if is_opening(*lexeme) {
            opened += 1;
        }
        if is_closing(*lexeme) {
            closed += 1;
        }
        if opened > closed + MOST_OPEN {
            return true;
        }
    }
    false
}

fn is_unknown(text: &str, scope: &Scope<'_>, lexeme: Lexeme) -> bool
    requires { IsSoundLexeme text.now lexeme }
    ensures { result ≡ is_unknown text.now scope.now lexeme }
{
    match lexeme.symbol {
        Symbol::Atom(Leaf::Name(span)) => scope.place_of(&text[span.from..span.to]).is_none(),
        _ => false,
    }
}

/// The place of the leftmost name that isn't in scope.
pub fn unknown_place(text: &str, scope: &Scope<'_>, lexemes: &[Lexeme]) -> Option<usize>
    requires { All (IsSoundLexeme text.now) lexemes.now }
    ensures { result ≡ unknown_place text.now scope.now lexemes.now }
{
    for lexeme in lexemes {
        if is_unknown(text, scope, *lexeme) {
            return Some(lexeme.at);
        }
    }
    None
}

/// A token as a symbol of the grammar.
fn lexeme_of(text: &str, token: Token) -> Lexeme
    requires { IsSoundToken text.now token }
    ensures lexeme { result ≡ lexeme_of text.now token }
    ensures sound { IsSoundLexeme text.now result }
{
    let bytes = &text.as_bytes()[token.from..token.to];
    let symbol = match token.word {
        Word::Number => Symbol::Atom(Leaf::Number(number_of(bytes))),
        Word::Text => Symbol::Atom(Leaf::Text(Span {
            from: token.from + 1,
            to: token.to - 1,
        })),
        Word::Name => Symbol::Atom(Leaf::Name(Span {
            from: token.from,
            to: token.to,
        })),
        Word::Reserved => word_symbol(bytes),
        Word::Sign => sign_symbol(bytes),
    };
    Lexeme {
        symbol,
        at: token.from,
    }
}

/// The tokens of a text as symbols of the grammar.
pub fn lexemes_of(alloc: Global, text: &str, tokens: &[Token]) -> Result<Vec<Lexeme>, AllocError>
    requires { All (IsSoundToken text.now) tokens.now }
    ensures lexemes { IfOk result (λ v. v.items ≡ lexemes_of text.now tokens.now) }
    ensures sound { IfOk result (λ v. All (IsSoundLexeme text.now) v.items) }
{
    let mut lexemes = Vec::new(alloc);
    for token in tokens {
        lexemes.push(lexeme_of(text, *token))?;
    }
    Ok(lexemes)
}
