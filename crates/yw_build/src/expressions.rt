// Texts of expressions.
ghost use Rattle.std.specs.Prelude.{◌≡◌, Ok, All, IfOk, option_to_list};
ghost use Rattle.std.specs.Option.{option_copied};
ghost use Rattle.yw_accept.specs.Built.{MayMean};
ghost use Rattle.yw_build.specs.Expressions.{HasMeaning};
ghost use Rattle.yw_expr.specs.Parsing.{Means};

use std::alloc::{AllocError, Global};
use yw_base::Text;
use yw_expr::{Expr, ExprFault, Scope, parse};

/// The one fault that a text with a meaning can have.
fn out_of_memory(fault: ExprFault) -> AllocError
    requires { fault ≡ ExprFault.Memory }
{
    match fault {
        ExprFault::Memory => AllocError,
        _ => unreachable!(),
    }
}

/// The expression that a text spells.
pub fn expr_of(alloc: Global, text: &Text, scope: &Scope<'_>) -> Result<Expr, AllocError>
    requires { HasMeaning scope.now text.now }
    ensures { IfOk result (λ e. Means text.now scope.now (Ok e)) }
{
    match parse(alloc, text.as_str(), scope) {
        Ok(expression) => Ok(expression),
        Err(fault) => Err(out_of_memory(fault)),
    }
}

/// The expression that a text spells, where there is a text.
pub fn maybe_expr(
    alloc: Global,
    text: Option<&Text>,
    scope: &Scope<'_>,
) -> Result<Option<Expr>, AllocError>
    requires { All (HasMeaning scope.now) (option_to_list (option_copied text)) }
    ensures { IfOk result (λ e. MayMean scope.now (option_copied text.entry) e) }
{
    match text {
        Some(text) => Ok(Some(expr_of(alloc, text, scope)?)),
        None => Ok(None),
    }
}
