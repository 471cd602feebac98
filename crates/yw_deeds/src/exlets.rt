// Checks pass, and exlets begin.
ghost use Rattle.std.specs.Option.{option_copied};
ghost use Rattle.std.specs.Prelude.{◌≡◌, ℕ, List, OnOk, is_none};
ghost use Rattle.yw_deeds.specs.Exlets.{ends_in_nothing, excepts, passes, raises};
ghost use Rattle.yw_standing.specs.Held.{StandsHeld};
ghost use Rattle.yw_deeds.specs.Judging.{IsTreeAt};
ghost use Rattle.yw_standing.specs.State.{state_of};
ghost use Rattle.yw_standing.specs.Tried.{IsDone, LeadsOn, TellsLeads};
ghost use Rattle.yw_state.specs.Allowed.{begins_exlet, cannot_begin, comes_next};
ghost use Rattle.yw_state.specs.Allowed.{is_next, is_raised, is_too_deep, none_is_left};
ghost use Rattle.yw_state.specs.Judged.{is_select};
ghost use Rattle.yw_state.specs.State.{State, due_at, is_target};
ghost use Rattle.yw_state.specs.Words.{is_first_due};
ghost use Rattle.yw_state.specs.declared.event.Event.TheVariants as events;
ghost use Rattle.yw_tree.specs.Forest.{IsForest, sites_of};

use crate::calm::is_busy;
use crate::judging::{concludes, exlet_of, judge};
use crate::marks::mark_at;
use std::alloc::{AllocError, Global};
use yw_base::{Ident, Items, NUMBER_END};
use yw_rdr::RuleTree;
use yw_standing::{Standing, draws};
use yw_state::{Checks, PrimitiveList, TreeKind};
use yw_tree::{Forest, Spot};
use yw_worklet::DEPTH_END;

/// Nothing is judged.
const NONE_DUE: Checks = Checks {
    pre: false,
    select: false,
    post: false,
};

/// What the case or item at an identity is still to be judged by.
fn due_at(forest: &Forest, at: &Ident) -> Checks
    ensures { (names : ℕ → List ℕ) (s : State) → IsForest forest.now
        → s.sites ≡ sites_of names forest.now → result ≡ due_at s at.now }
{
    match forest.find(at) {
        Some(Spot::Case(case)) => case.due,
        Some(Spot::Item(node)) => node.due,
        Some(Spot::Run(_run)) => NONE_DUE,
        None => NONE_DUE,
    }
}

/// The check is the first of those that are due.
fn is_first_due(due: Checks, check: TreeKind) -> bool
    ensures { result ≡ is_first_due due check }
{
    match check {
        TreeKind::Pre => due.pre,
        TreeKind::Select => due.select && !due.pre,
        TreeKind::Post => due.post && !due.pre && !due.select,
        TreeKind::External | TreeKind::Timeout | TreeKind::Abort => false,
    }
}

/// The check is the first that is due at an identity.
fn comes_first(standing: &Standing, at: &Ident, check: TreeKind) -> bool
    requires { StandsHeld standing.now }
    ensures { result ≡ is_first_due (due_at (state_of standing.now) at.now) check }
{
    is_first_due(due_at(&standing.forest, at), check)
}

/// Whether a check is the first that is due at an identity, and nothing is at work there. It takes no memory.
pub fn comes_next(standing: &Standing, at: &Ident, check: TreeKind) -> bool
    requires { StandsHeld standing.now }
    ensures { result ≡ comes_next (state_of standing.now) at.now check }
{
    comes_first(standing, at, check) && !is_busy(standing, at)
}

fn is_select(kind: TreeKind) -> bool
    ensures { result ≡ is_select kind }
{
    matches!(kind, TreeKind::Select)
}

/// A worklet at an identity would stand too deep.
fn is_too_deep(at: &Ident) -> bool
    ensures { result ≡ is_too_deep at.now }
{
    at.numbers().len() >= DEPTH_END
}

/// No number is left for a run.
fn none_is_left(standing: &Standing) -> bool
    ensures { result ≡ none_is_left (state_of standing.now) }
{
    standing.next == NUMBER_END
}

/// What a tree of this kind concludes at an identity can't be begun.
fn cannot_begin(standing: &Standing, at: &Ident, kind: TreeKind) -> bool
    ensures { result ≡ cannot_begin (state_of standing.now) at.now kind }
{
    if is_select(kind) {
        return is_too_deep(at);
    }
    none_is_left(standing)
}

/// No rule is concluded.
fn is_nothing(found: Option<usize>) -> bool
    ensures { result ≡ is_none found }
{
    match found {
        Some(_node) => false,
        None => true,
    }
}

/// The tree concludes nothing, or what it concludes can't be begun.
fn ends_in_nothing(
    alloc: Global,
    standing: &Standing,
    at: &Ident,
    check: TreeKind,
    tree: Option<&RuleTree>,
) -> bool
    requires held { StandsHeld standing.now }
    requires tree { IsTreeAt (state_of standing.now) at.now check (option_copied tree) }
    ensures { result ≡ ends_in_nothing (state_of standing.now) at.now check }
{
    is_nothing(judge(alloc, standing, at, check, tree)) || cannot_begin(standing, at, check)
}

/// The check comes next, and concludes nothing that can be begun.
fn passes(
    alloc: Global,
    standing: &Standing,
    at: &Ident,
    check: TreeKind,
    tree: Option<&RuleTree>,
) -> bool
    requires held { StandsHeld standing.now }
    requires tree { IsTreeAt (state_of standing.now) at.now check (option_copied tree) }
    ensures { result ≡ passes (state_of standing.now) at.now check }
{
    comes_next(standing, at, check) && ends_in_nothing(alloc, standing, at, check, tree)
}

/// Whether a check may pass at a case or an item: it comes next and concludes nothing, or what it concludes can't be
/// begun. `tree` is the one by which it is judged. It takes no memory.
pub fn may_pass(
    alloc: Global,
    standing: &Standing,
    at: &Ident,
    check: TreeKind,
    tree: Option<&RuleTree>,
) -> bool
    requires held { StandsHeld standing.now }
    requires tree { IsTreeAt (state_of standing.now) at.now check (option_copied tree) }
    ensures { TellsLeads standing.now (events.Pass at.now check) result }
{
    passes(alloc, standing, at, check, tree)
}

/// A check passes at a case or an item, as is allowed. It takes no memory.
pub fn act_pass(standing: &mut Standing, at: &Ident, check: TreeKind)
    requires held { StandsHeld standing.old }
    requires leads { LeadsOn standing.old (events.Pass at.now check) }
    ensures { IsDone standing.old (events.Pass at.now check) standing.new }
{
    yw_exlet::pass(&mut standing.forest, at, check);
}

/// Checks of this kind begin exlets.
fn begins_exlet(kind: TreeKind) -> bool
    ensures { result ≡ begins_exlet kind }
{
    matches!(kind, TreeKind::Pre | TreeKind::Post)
}

/// What happens outside is judged by a tree of this kind.
fn is_raised(kind: TreeKind) -> bool
    ensures { result ≡ is_raised kind }
{
    matches!(
        kind,
        TreeKind::External | TreeKind::Timeout | TreeKind::Abort
    )
}

/// It is the number that is drawn next.
fn is_next(standing: &Standing, n: u64) -> bool
    ensures { result ≡ is_next (state_of standing.now) n }
{
    draws(standing.next, n, 1)
}

/// A case or an item stands at an identity.
fn is_target(standing: &Standing, at: &Ident) -> bool
    requires { StandsHeld standing.now }
    ensures { result ≡ is_target (state_of standing.now) at.now }
{
    // No work is done here: it says that it is an identity.
    let _ = at.numbers();
    mark_at(&standing.forest, at).is_some()
}

/// The check comes next, and concludes the exlet of this node.
fn excepts(
    alloc: Global,
    standing: &Standing,
    at: &Ident,
    check: TreeKind,
    node: u32,
    n: u64,
    tree: Option<&RuleTree>,
) -> bool
    requires held { StandsHeld standing.now }
    requires tree { IsTreeAt (state_of standing.now) at.now check (option_copied tree) }
    ensures { result ≡ excepts (state_of standing.now) at.now check node n }
{
    begins_exlet(check)
        && comes_next(standing, at, check)
        && concludes(alloc, standing, at, check, node, tree)
        && is_next(standing, n)
}

/// Whether a check may begin the exlet that a rule of this number concludes, as a run of this number. `tree` is the
/// one by which the case or item is judged. It takes no memory.
pub fn may_except(
    alloc: Global,
    standing: &Standing,
    at: &Ident,
    check: TreeKind,
    node: u32,
    n: u64,
    tree: Option<&RuleTree>,
) -> bool
    requires held { StandsHeld standing.now }
    requires tree { IsTreeAt (state_of standing.now) at.now check (option_copied tree) }
    ensures { TellsLeads standing.now (events.Except at.now check node n) result }
{
    excepts(alloc, standing, at, check, node, n, tree)
}

/// A check begins the exlet that the rule of this number concludes, as is allowed. An `Err` says that no memory was
/// left.
pub fn act_except(
    alloc: Global,
    standing: &mut Standing,
    at: &Ident,
    check: TreeKind,
    node: u32,
    n: u64,
    tree: Option<&RuleTree>,
) -> Result<(), AllocError>
    requires held { StandsHeld standing.old }
    requires leads { LeadsOn standing.old (events.Except at.now check node n) }
    requires tree { IsTreeAt (state_of standing.old) at.now check (option_copied tree) }
    ensures { OnOk result (IsDone standing.old (events.Except at.now check node n) standing.new) }
{
    let Some(links) = tree else {
        unreachable!();
    };
    let none: PrimitiveList = Items::new(alloc);
    let exlet = exlet_of(links, node, &none);
    yw_exlet::except(alloc, &mut standing.forest, exlet, at, check, n)?;
    standing.next = n + 1;
    Ok(())
}

/// What happens outside concludes the exlet of this node at a case or an item, at which none is at work.
fn raises(
    alloc: Global,
    standing: &Standing,
    at: &Ident,
    kind: TreeKind,
    node: u32,
    n: u64,
    tree: Option<&RuleTree>,
) -> bool
    requires held { StandsHeld standing.now }
    requires tree { IsTreeAt (state_of standing.now) at.now kind (option_copied tree) }
    ensures { result ≡ raises (state_of standing.now) at.now kind node n }
{
    is_target(standing, at)
        && is_raised(kind)
        && !is_busy(standing, at)
        && concludes(alloc, standing, at, kind, node, tree)
        && is_next(standing, n)
}

/// Whether what happens outside may begin the exlet that a rule of this number concludes, as a run of this number.
/// `tree` is the one by which the case or item is judged. It takes no memory.
pub fn may_raise(
    alloc: Global,
    standing: &Standing,
    at: &Ident,
    kind: TreeKind,
    node: u32,
    n: u64,
    tree: Option<&RuleTree>,
) -> bool
    requires held { StandsHeld standing.now }
    requires tree { IsTreeAt (state_of standing.now) at.now kind (option_copied tree) }
    ensures { TellsLeads standing.now (events.Raise at.now kind node n) result }
{
    raises(alloc, standing, at, kind, node, n, tree)
}

/// What happens outside begins the exlet that the rule of this number concludes, as is allowed. An `Err` says that no
/// memory was left.
pub fn act_raise(
    alloc: Global,
    standing: &mut Standing,
    at: &Ident,
    kind: TreeKind,
    node: u32,
    n: u64,
    tree: Option<&RuleTree>,
) -> Result<(), AllocError>
    requires held { StandsHeld standing.old }
    requires leads { LeadsOn standing.old (events.Raise at.now kind node n) }
    requires tree { IsTreeAt (state_of standing.old) at.now kind (option_copied tree) }
    ensures { OnOk result (IsDone standing.old (events.Raise at.now kind node n) standing.new) }
{
    let Some(links) = tree else {
        unreachable!();
    };
    let none: PrimitiveList = Items::new(alloc);
    let exlet = exlet_of(links, node, &none);
    yw_exlet::raise(alloc, &mut standing.forest, exlet, at, n)?;
    standing.next = n + 1;
    Ok(())
}
