// The trees that the parser makes.
ghost use Rattle.std.specs.Prelude.{◌≡◌};
ghost use Rattle.yw_grammar.specs.declared.tree.SyntaxFault.TheVariants.{Memory};

use crate::{Call, Infix, Leaf, Literal, Prefix};
use std::alloc::{AllocError, AllocFailed};

/// The tree of an expression, as its text spells it. The first place of a node is where its operator, word,
/// bracket or only token starts.
#[derive(Debug, Drop)]
pub enum SyntaxTree {
    /// A token that is an operand by itself.
    Leaf(usize, Leaf),
    /// A list of literals.
    List(usize, Vec<Literal>),
    /// `len` or `sum` of a list.
    Call(Call, usize, Box<SyntaxTree>),
    /// An operator and its two operands.
    Two(Infix, usize, Box<SyntaxTree>, Box<SyntaxTree>),
    /// An operator before its operand.
    One(Prefix, usize, Box<SyntaxTree>),
    /// A list and the place of the item that is taken from it.
    Item(usize, Box<SyntaxTree>, Box<SyntaxTree>),
}

/// Why there is no tree.
#[derive(Clone, Copy, Debug, PartialEq, Eq)]
pub enum SyntaxFault {
    /// At this place an expression can't go on.
    At(usize),
    /// No memory was left.
    Memory,
}

impl From<AllocError> for SyntaxFault {
    ghost from_gives = { λ _ e. e ≡ Memory };

    fn from(_error: AllocError) -> SyntaxFault {
        SyntaxFault::Memory
    }
}

impl<T: Drop> From<AllocFailed<T>> for SyntaxFault {
    ghost from_gives = { λ _ e. e ≡ Memory };

    fn from(_error: AllocFailed<T>) -> SyntaxFault {
        SyntaxFault::Memory
    }
}
