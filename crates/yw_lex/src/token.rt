// Tokens and the faults of a lexer.
use std::alloc::AllocError;
use yw_base::Items;

/// The kind of a token.
#[derive(Clone, Copy, Debug, PartialEq, Eq)]
pub enum Word {
    /// Decimal digits, at most 9223372036854775807, without a leading zero.
    Number,
    /// A text in single quotes.
    Text,
    /// A name that isn't one of the reserved words.
    Name,
    /// One of `and`, `or`, `not`, `true`, `false`, `len` and `sum`.
    Reserved,
    /// One of `= != < <= > >= + - * / % ( ) [ ] ,`.
    Sign,
}

/// A token: its kind, the place of its first byte and the place behind its last one. Its text is the slice
/// between these places, which also says which number, name, word or sign it is.
#[derive(Clone, Copy, Debug, PartialEq, Eq)]
pub struct Token {
    pub word: Word,
    pub from: usize,
    pub to: usize,
}

impl Token {
    ghost use Rattle.std.specs.Prelude.{◌≡◌, ◌≤◌, [], ◌∷◌, ◌++◌, length, slice_range};
    ghost use Rattle.yw_lex.specs.Spelling.{IsText, quote};

    /// What stands between the quotes of a token that is a text, in the text that it is of. It takes no
    /// memory.
    pub fn between_quotes(self, text: &str) -> &str
        requires within { self.to ≤ length text.now }
        requires quoted { IsText (slice_range text.now self.from self.to) }
        ensures { slice_range text.now self.from self.to ≡ quote ∷ (result.now ++ quote ∷ []) }
    {
        &text[self.from + 1..self.to - 1]
    }
}

/// Tokens in order.
pub type TokenList = Items<Token>;

/// Why a text has no tokens.
#[derive(Clone, Copy, Debug, PartialEq, Eq)]
pub enum LexFault {
    /// At this place, in bytes from the start of the text, and at no earlier one, no token begins.
    At(usize),
    /// No memory was left.
    Memory,
}

impl From<AllocError> for LexFault {
    ghost use Rattle.std.specs.Prelude.{◌≡◌};
    ghost use Rattle.yw_lex.specs.declared.token.LexFault.TheVariants.{Memory};

    ghost from_gives = { λ _ e. e ≡ Memory };

    fn from(_error: AllocError) -> LexFault {
        LexFault::Memory
    }
}
