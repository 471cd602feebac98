// A run's steps.
ghost use Rattle.std.specs.Prelude.{◌≡◌, ℕ, IfSome, IsSome, List, false, true};
ghost use Rattle.yw_base.specs.Identity.{is_identity};
ghost use Rattle.yw_exlet.specs.Changes.{Changes, EndsIfOver};
ghost use Rattle.yw_state.specs.After.{with_run};
ghost use Rattle.yw_state.specs.Exlets.{going_on, is_over, taken_first, waiting, without_first};
ghost use Rattle.yw_state.specs.Options.{is_some_and};
ghost use Rattle.yw_state.specs.State.{State, run_part};
ghost use Rattle.yw_tree.specs.Forest.{IsForest, sites_of};
ghost use Rattle.yw_tree.specs.Coming.{HasNoNet};
ghost use Rattle.yw_tree.specs.Places.{run_of};
ghost use Rattle.yw_tree.specs.declared.Run.{out-Run};

use std::alloc::Global;
use std::mem;
use yw_base::{Ident, Items};
use yw_state::PrimitiveList;
use yw_tree::{Forest, Run, Spot};

/// All but the first.
fn without_first(rest: PrimitiveList) -> PrimitiveList
    ensures { result ≡ without_first rest }
{
    let mut all = rest.into_vec();
    if !all.is_empty() {
        all.remove(0);
    }
    Items::from_vec(all)
}

/// The run has taken its first primitive.
fn step(alloc: Global, target: &mut Run)
    ensures { out-Run target.new ≡ record (out-Run target.old) { rest = without_first (out-Run target.old).rest } }
{
    let rest = mem::replace(&mut target.rest, Items::new(alloc));
    target.rest = without_first(rest);
}

/// The run at an identity takes its first primitive. It takes no memory.
pub fn take_first(alloc: Global, forest: &mut Forest, r: &Ident)
    requires boxed { IsForest forest.old }
    requires stands { IsSome (run_of forest.old r.now) }
    ensures sites { Changes forest.old forest.new r.now (with_run taken_first) }
    ensures boxed { IsForest forest.new }
{
    if let Some(target) = forest.run_mut(r) {
        step(alloc, target);
    }
}

/// It has nothing left to do and doesn't wait.
fn has_ended(target: &Run) -> bool
    ensures { result ≡ is_over (record { rest = (out-Run target.now).rest; waiting = (out-Run target.now).waiting }) }
{
    !target.waiting && target.rest.is_empty()
}

/// A run stands there that is over.
fn is_over(forest: &Forest, r: &Ident) -> bool
    requires { IsForest forest.now }
    ensures over { (names : ℕ → List ℕ) (s : State) → s.sites ≡ sites_of names forest.now → result ≡ is_some_and (run_part s r.now) is_over }
    ensures there { result ≡ true → IsSome (run_of forest.now r.now) }
    ensures identity { is_identity r.now ≡ true }
{
    let _numbers = r.numbers();
    match forest.find(r) {
        Some(Spot::Run(target)) => has_ended(target),
        Some(Spot::Case(_case)) => false,
        Some(Spot::Item(_item)) => false,
        None => false,
    }
}

/// A run goes that is over. It takes no memory.
pub fn end_if_over(forest: &mut Forest, r: &Ident)
    requires boxed { IsForest forest.old }
    requires alone { IfSome (run_of forest.old r.now) HasNoNet }
    ensures ends { EndsIfOver r.now forest.old forest.new }
    ensures boxed { IsForest forest.new }
{
    if is_over(forest, r) {
        let _there = forest.cut(r);
    }
}

fn end_wait(target: &mut Run)
    ensures { out-Run target.new ≡ record (out-Run target.old) { waiting = false } }
{
    target.waiting = false;
}

/// The run at an identity waits no longer. It takes no memory.
pub fn go_on(forest: &mut Forest, r: &Ident)
    requires boxed { IsForest forest.old }
    requires stands { IsSome (run_of forest.old r.now) }
    ensures sites { Changes forest.old forest.new r.now (with_run going_on) }
    ensures boxed { IsForest forest.new }
{
    if let Some(target) = forest.run_mut(r) {
        end_wait(target);
    }
}

fn begin_wait(target: &mut Run)
    ensures { out-Run target.new ≡ record (out-Run target.old) { waiting = true } }
{
    target.waiting = true;
}

/// The run at an identity waits from now on. It takes no memory.
pub fn wait(forest: &mut Forest, r: &Ident)
    requires boxed { IsForest forest.old }
    requires stands { IsSome (run_of forest.old r.now) }
    ensures sites { Changes forest.old forest.new r.now (with_run waiting) }
    ensures boxed { IsForest forest.new }
{
    if let Some(target) = forest.run_mut(r) {
        begin_wait(target);
    }
}
