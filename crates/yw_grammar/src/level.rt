// How tightly operators bind.
ghost use Rattle.std.specs.Prelude.{◌≡◌};
ghost use Rattle.yw_grammar.specs.Grammar.{level_of, left_of, right_of, before_of};

use crate::{Infix, Prefix};

/// The level of an operator; a higher one binds tighter.
pub fn level_of(op: Infix) -> u8
    ensures { result ≡ level_of op }
{
    match op {
        Infix::Or => 0,
        Infix::And => 1,
        Infix::Equal | Infix::NotEqual => 3,
        Infix::Less | Infix::LessOrEqual | Infix::Greater | Infix::GreaterOrEqual => 3,
        Infix::Plus | Infix::Minus => 4,
        Infix::Times | Infix::Divide | Infix::Remainder => 5,
    }
}

/// The loosest level that may stand to its left.
pub fn left_of(op: Infix) -> u8
    ensures { result ≡ left_of op }
{
    match op {
        Infix::Or => 0,
        Infix::And => 1,
        Infix::Equal | Infix::NotEqual => 4,
        Infix::Less | Infix::LessOrEqual | Infix::Greater | Infix::GreaterOrEqual => 4,
        Infix::Plus | Infix::Minus => 4,
        Infix::Times | Infix::Divide | Infix::Remainder => 5,
    }
}

/// The loosest level that may stand to its right.
pub fn right_of(op: Infix) -> u8
    ensures { result ≡ right_of op }
{
    match op {
        Infix::Or => 1,
        Infix::And => 2,
        Infix::Equal | Infix::NotEqual => 4,
        Infix::Less | Infix::LessOrEqual | Infix::Greater | Infix::GreaterOrEqual => 4,
        Infix::Plus | Infix::Minus => 5,
        Infix::Times | Infix::Divide | Infix::Remainder => 6,
    }
}

/// The level of an operator before an operand, and the loosest level of that operand.
pub fn before_of(op: Prefix) -> u8
    ensures { result ≡ before_of op }
{
    match op {
        Prefix::Not => 2,
        Prefix::Negate => 6,
    }
}
