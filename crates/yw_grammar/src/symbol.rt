// What the tokens of an expression say.

/// An operator between two operands.
#[derive(Clone, Copy, Debug, PartialEq, Eq)]
pub enum Infix {
    Or,
    And,
    Equal,
    NotEqual,
    Less,
    LessOrEqual,
    Greater,
    GreaterOrEqual,
    Plus,
    Minus,
    Times,
    Divide,
    Remainder,
}

/// An operator before an operand.
#[derive(Clone, Copy, Debug, PartialEq, Eq)]
pub enum Prefix {
    Not,
    Negate,
}

/// A function of a list.
#[derive(Clone, Copy, Debug, PartialEq, Eq)]
pub enum Call {
    Len,
    Sum,
}

/// A part of a text: the place of its first byte and the place behind its last one.
#[derive(Clone, Copy, Debug, PartialEq, Eq)]
pub struct Span {
    pub from: usize,
    pub to: usize,
}

/// A token that is an operand by itself. A text or a name is given by where it stands, a text without its
/// quotes.
#[derive(Clone, Copy, Debug, PartialEq, Eq)]
pub enum Leaf {
    Number(u64),
    Text(Span),
    Name(Span),
    Truth(bool),
}

/// A literal of a list: a number, a number with a minus before it, or a text without its quotes.
#[derive(Clone, Copy, Debug, PartialEq, Eq)]
pub enum Literal {
    Plain(u64),
    Negative(u64),
    Quoted(Span),
}

/// What a token is to the grammar.
#[derive(Clone, Copy, Debug, PartialEq, Eq)]
pub enum Symbol {
    /// An operand by itself.
    Atom(Leaf),
    /// A sign or word between two operands. A minus may also stand before one.
    Operator(Infix),
    /// The word `not`.
    NotWord,
    /// The word `len` or `sum`.
    Function(Call),
    /// `(`
    LeftParen,
    /// `)`
    RightParen,
    /// `[`
    LeftBracket,
    /// `]`
    RightBracket,
    /// `,`
    Comma,
}

/// What a token is to the grammar, and the place where the token starts.
#[derive(Clone, Copy, Debug, PartialEq, Eq)]
pub struct Lexeme {
    pub symbol: Symbol,
    pub at: usize,
}
