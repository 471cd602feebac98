// Whether a text spells an expression of the sort that is wanted. An `Err` says that no memory was left.
ghost use Rattle.std.specs.Prelude.{◌≡◌, ◌↔◌, IfOk, IsTrue, is_some, option_to_list};
ghost use Rattle.std.specs.List.{All};
ghost use Rattle.yw_accept.specs.Scopes.{Spells, element_of};
ghost use Rattle.yw_check_sorts.specs.Wanted.{IsWanted};
ghost use Rattle.yw_expr.specs.declared.fault.ExprFault.TheVariants.{Memory};

use std::alloc::{AllocError, Global};
use yw_base::{Sort, Text};
use yw_expr::{ExprFault, Scope, parse, sort_of};

/// What sort an expression is wanted to have.
#[derive(Clone, Copy, Debug, PartialEq, Eq)]
pub enum WantedSort {
    /// This one.
    Exactly(Sort),
    /// That of a list.
    AnyList,
    /// That of a list of values of this sort.
    ListOf(Sort),
    /// Any.
    Any,
}

/// The sort of a list's elements, or `None` where it isn't the sort of a list.
fn element_of(sort: Sort) -> Option<Sort>
    ensures { result ≡ element_of sort }
{
    match sort {
        Sort::Ints => Some(Sort::Int),
        Sort::Texts => Some(Sort::Text),
        Sort::Bool | Sort::Int | Sort::Text => None,
    }
}

/// The sort is that of a list of values of this sort.
fn is_list_of(sort: Sort, element: Sort) -> bool
    ensures { IsTrue result ↔ (element_of sort ≡ Some element) }
{
    match element_of(sort) {
        Some(found) => found == element,
        None => false,
    }
}

/// The sort is as wanted.
fn is_wanted(wanted: WantedSort, sort: Sort) -> bool
    ensures { IsTrue result ↔ IsWanted wanted sort }
{
    match wanted {
        WantedSort::Exactly(exact) => sort == exact,
        WantedSort::AnyList => element_of(sort).is_some(),
        WantedSort::ListOf(element) => is_list_of(sort, element),
        WantedSort::Any => true,
    }
}

/// No expression is spelled where there is a fault, unless memory ran out.
fn has_fault(fault: ExprFault) -> Result<(), AllocError>
    ensures { IfOk result (λ _. fault ≡ Memory → ⊥) }
{
    match fault {
        ExprFault::Memory => Err(AllocError),
        ExprFault::Lex(_)
        | ExprFault::Deep
        | ExprFault::Syntax(_)
        | ExprFault::UnknownName(_)
        | ExprFault::Types(_) => Ok(()),
    }
}

/// The text spells an expression over the names of the scope, of the sort that is wanted.
pub fn spells(
    alloc: Global,
    text: &str,
    scope: &Scope<'_>,
    wanted: WantedSort,
) -> Result<bool, AllocError>
    ensures { IfOk result (λ yes. IsTrue yes ↔ Spells scope.now (IsWanted wanted) text.now) }
{
    match parse(alloc, text, scope) {
        Ok(expression) => Ok(is_wanted(wanted, sort_of(&expression))),
        Err(fault) => {
            has_fault(fault)?;
            Ok(false)
        }
    }
}

/// The text, if there is one, spells an expression over the names of the scope, of the sort that is wanted.
pub fn spells_if_any(
    alloc: Global,
    text: &Option<Text>,
    scope: &Scope<'_>,
    wanted: WantedSort,
) -> Result<bool, AllocError>
    ensures { IfOk result (λ yes. IsTrue yes ↔ All (Spells scope.now (IsWanted wanted)) (option_to_list text.now)) }
{
    match text {
        Some(text) => {
            let yes = spells(alloc, text.as_str(), scope, wanted)?;
            Ok(yes)
        }
        None => Ok(true),
    }
}
