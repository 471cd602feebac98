// The condition that a text spells.
ghost use Rattle.std.specs.Fmt.{decimal};
ghost use Rattle.std.specs.Prelude.{◌≡◌, ◌↔◌, ◌++◌, IfOk, IsTrue, Ok, Some, codes};
ghost use Rattle.yw_library.specs.Accepts.{IfRefused};
ghost use Rattle.yw_base.specs.declared.value.Sort.TheVariants as sorts;
ghost use Rattle.yw_expr.specs.Sorts.{tree_sort};
ghost use Rattle.yw_library.specs.Conditions.{IsFault, IsSaid, Misspells};
ghost use Rattle.yw_library.specs.Scopes.{HasNames, scope_of};
ghost use Rattle.yw_texts.specs.Texts.{ReadsCondition};

use crate::LibraryFault;
use crate::trees::scope::layers_of;
use std::alloc::{AllocError, Global};
use yw_base::{Sort, Text};
use yw_expr::{Expr, ExprFault, Scope, parse, sort_of};
use yw_spec::Spec;
use yw_state::{Refusal, Rule};
use yw_trees::Owner;

/// A fault's name and its place.
fn at_byte(alloc: Global, name: &str, at: usize) -> Result<Text, AllocError>
    ensures { IfOk result (λ text. text ≡ name.now ++ codes " " ++ decimal at) }
{
    let mut text = String::from_str(alloc, name)?;
    write!(text, " {at}")?;
    Ok(Text::from_string(text))
}

/// What is said of a fault: its name and its place, where it has one. Want of memory has neither.
fn fault_text(alloc: Global, fault: ExprFault) -> Result<Text, AllocError>
    ensures { IfOk result (IsSaid fault) }
{
    match fault {
        ExprFault::Lex(at) => at_byte(alloc, "Lex", at),
        ExprFault::Deep => Text::copy_of(alloc, "Deep"),
        ExprFault::Syntax(at) => at_byte(alloc, "Syntax", at),
        ExprFault::UnknownName(at) => at_byte(alloc, "UnknownName", at),
        ExprFault::Types(at) => at_byte(alloc, "Types", at),
        ExprFault::Memory => Err(AllocError),
    }
}

/// `BadExpr` at this place; or `Memory`, where no memory was left for it.
fn bad_expr(at: Result<Text, AllocError>) -> LibraryFault
    ensures { IsFault at result }
{
    match at {
        Ok(at) => LibraryFault::Refused(Refusal {
            rule: Rule::BadExpr,
            at,
        }),
        Err(AllocError) => LibraryFault::Memory,
    }
}

/// The values are true and false.
fn is_condition(test: &Expr) -> bool
    ensures { IsTrue result ↔ (tree_sort test.now ≡ Some sorts.Bool) }
{
    matches!(sort_of(test), Sort::Bool)
}

/// The condition that a text spells over the names of which the trees speak that this has. `Refused` comes exactly where the text has a fault, by
/// `BadExpr` at the fault's name and place; or isn't true or false, at `Types 0`.
pub(crate) fn condition(
    alloc: Global,
    spec: &Spec,
    owner: Owner,
    when: &str,
) -> Result<Expr, LibraryFault>
    requires { HasNames spec.now }
    ensures ok { IfOk result (λ test. ReadsCondition when.now (scope_of spec.now owner) (Ok test)) }
    ensures refused { IfRefused result (Misspells when.now (scope_of spec.now owner)) }
{
    let layers = layers_of(alloc, spec, owner)?;
    let scope = Scope::nested(&layers.inner, &layers.outer);
    let test = match parse(alloc, when, &scope) {
        Ok(test) => test,
        Err(fault) => return Err(bad_expr(fault_text(alloc, fault))),
    };
    if !is_condition(&test) {
        return Err(bad_expr(Text::copy_of(alloc, "Types 0")));
    }
    Ok(test)
}
