// Texts of expressions.
ghost use Rattle.std.specs.Prelude.{Result, IfOk};
ghost use Rattle.std.specs.List.{All};
ghost use Rattle.yw_grammar.specs.SyntaxTree.{form_of};
ghost use Rattle.yw_expr.specs.declared.fault.ExprFault.{ExprFault};
ghost use Rattle.yw_expr.specs.Lexemes.{lexemes_of, IsSoundLexeme, IsSoundToken};
ghost use Rattle.yw_expr.specs.Parsing.{Reads, ReadsOr, Means, MeansOr, Gives, IsTyped};
ghost use Rattle.yw_expr.specs.Scope.{sorts_of};
ghost use Rattle.yw_expr.specs.Small.{HasSmallConstants};
ghost use Rattle.yw_expr.specs.Sorts.{IsIn};
ghost use Rattle.yw_expr.specs.Tree.{Tree};
ghost use Rattle.yw_expr.specs.Typing.{IsSound};

use crate::fault::ExprFault;
use crate::lexeme::{MOST_TOKENS, is_deep, lexemes_of, unknown_place};
use crate::node::Expr;
use crate::scope::Scope;
use crate::typing::typed_form;
use std::alloc::Global;
use yw_grammar::{Lexeme, SyntaxTree};
use yw_lex::Token;

/// The expression of a form.
fn expr_of(
    alloc: Global,
    text: &str,
    scope: &Scope<'_>,
    tree: &SyntaxTree,
) -> Result<Expr, ExprFault>
    requires { IsSound text.now (form_of tree.now) }
    ensures { IsTyped text.now scope.now (form_of tree.now) result }
{
    match typed_form(alloc, text, scope, tree) {
        Ok(typed) => Ok(Expr::new(typed.node, typed.sort)),
        Err(fault) => Err(fault),
    }
}

/// The expression of lexemes.
fn read(alloc: Global, text: &str, scope: &Scope<'_>, lexemes: &[Lexeme]) -> Result<Expr, ExprFault>
    requires { All (IsSoundLexeme text.now) lexemes.now }
    ensures reads { ReadsOr text.now scope.now lexemes.now result }
    ensures only { (r : Result Tree ExprFault) → Reads text.now scope.now lexemes.now r → Gives result r }
    ensures small { IfOk result HasSmallConstants }
{
    if is_deep(lexemes) {
        return Err(ExprFault::Deep);
    }
    let tree = yw_grammar::parse(alloc, lexemes, text.len())?;
    match unknown_place(text, scope, lexemes) {
        Some(at) => Err(ExprFault::UnknownName(at)),
        None => expr_of(alloc, text, scope, &tree),
    }
}

/// The expression of the tokens of a text.
fn read_tokens(
    alloc: Global,
    text: &str,
    scope: &Scope<'_>,
    tokens: &[Token],
) -> Result<Expr, ExprFault>
    requires { All (IsSoundToken text.now) tokens.now }
    ensures reads { ReadsOr text.now scope.now (lexemes_of text.now tokens.now) result }
    ensures only { (r : Result Tree ExprFault) → Reads text.now scope.now (lexemes_of text.now tokens.now) r
        → Gives result r }
    ensures small { IfOk result HasSmallConstants }
{
    if tokens.len() > MOST_TOKENS {
        return Err(ExprFault::Deep);
    }
    let lexemes = lexemes_of(alloc, text, tokens)?;
    read(alloc, text, scope, &lexemes)
}

/// The expression that a text spells over the names of a scope. It takes time in proportion to the text's
/// length, and for each name in it to the logarithm of the scope's length; its own stack is bounded, since a
/// tree comes from at most 1,024 tokens. Grammar and faults are our own.
///
/// A fault is the first of these: `Lex` at the first place where no token begins; `Deep` where more than 64
/// of `(` and `[` are open at some place, or there are more than 1,024 tokens; `Syntax` at the start of the
/// first token that with those before it begins no expression, or at the text's end; `UnknownName` at the
/// leftmost name that isn't in scope; `Types` at the first operator, `[` or word in post-order that takes no
/// operands of these sorts. `Memory` comes only where no memory was left.
pub fn parse(alloc: Global, text: &str, scope: &Scope<'_>) -> Result<Expr, ExprFault>
    // The answer is what the text means.
    ensures means { MeansOr text.now scope.now result }

    // What the text means is the answer, unless memory runs out: nothing else is, and no other place.
    ensures only { (r : Result Tree ExprFault) → Means text.now scope.now r → Gives result r }

    // Its variables have their places and sorts in the scope, and so in each row of the scope.
    ensures scoped { IfOk result (IsIn (sorts_of scope.now)) }

    // Its texts have at most 4,096 bytes and its lists at most 1,000 elements.
    ensures small { IfOk result HasSmallConstants }
{
    let tokens = yw_lex::lex(alloc, text)?;
    read_tokens(alloc, text, scope, tokens.as_slice())
}
