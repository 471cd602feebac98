// The faults of texts of expressions.
ghost use Rattle.std.specs.Prelude.{◌≡◌};
ghost use Rattle.yw_expr.specs.declared.fault.ExprFault.TheVariants.{Memory};
ghost use Rattle.yw_expr.specs.Faults.{of_lex, of_syntax};

use std::alloc::{AllocError, AllocFailed};
use yw_grammar::SyntaxFault;
use yw_lex::LexFault;

/// Why a text is no expression in a scope. Where there are several faults, the first kind in this order is
/// named. A place is a number of bytes from the text's start.
#[derive(Clone, Copy, Debug, PartialEq, Eq)]
pub enum ExprFault {
    /// At this place, the first such, no token begins.
    Lex(usize),
    /// At some place more than 64 of `(` and `[` are open, or there are more than 1,024 tokens.
    Deep,
    /// Here starts the first token that with those before it begins no expression; or here ends the text,
    /// which only begins one.
    Syntax(usize),
    /// Here starts the leftmost name that isn't in scope.
    UnknownName(usize),
    /// Here starts the operator, `[` or word that is the first in post-order of those that take no operands
    /// of these sorts.
    Types(usize),
    /// No memory was left.
    Memory,
}

impl From<AllocError> for ExprFault {
    ghost from_gives = { λ _ e. e ≡ Memory };

    fn from(_error: AllocError) -> ExprFault {
        ExprFault::Memory
    }
}

impl<T: Drop> From<AllocFailed<T>> for ExprFault {
    ghost from_gives = { λ _ e. e ≡ Memory };

    fn from(_error: AllocFailed<T>) -> ExprFault {
        ExprFault::Memory
    }
}

impl From<LexFault> for ExprFault {
    ghost from_gives = { λ f e. e ≡ of_lex f };

    fn from(fault: LexFault) -> ExprFault {
        match fault {
            LexFault::At(at) => ExprFault::Lex(at),
            LexFault::Memory => ExprFault::Memory,
        }
    }
}

impl From<SyntaxFault> for ExprFault {
    ghost from_gives = { λ f e. e ≡ of_syntax f };

    fn from(fault: SyntaxFault) -> ExprFault {
        match fault {
            SyntaxFault::At(at) => ExprFault::Syntax(at),
            SyntaxFault::Memory => ExprFault::Memory,
        }
    }
}
