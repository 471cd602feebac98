// A run takes its first primitive: what is done for each kind, once all that takes memory is at hand.
ghost use Rattle.std.specs.Prelude.{◌≡◌, [], false, true};
ghost use Rattle.yw_base.specs.Identity.{parent, under};
ghost use Rattle.yw_exlet.specs.Needs.{Compensates};
ghost use Rattle.yw_exlet.specs.Stands.{BareRunAt, RunAt, TargetAt};
ghost use Rattle.yw_exlet.specs.Takes.{TakesBy, begins, completes, drops, marks, none, restarts};
ghost use Rattle.yw_state.specs.Identity.{is_case_ident};
ghost use Rattle.yw_tree.specs.Boxed.{IsBoxedNet};
ghost use Rattle.yw_tree.specs.Entries.{nodes};
ghost use Rattle.yw_tree.specs.Forest.{IsForest};

use crate::items::{finish, restart};
use crate::own::{Own, write};
use crate::runs::{end_if_over, go_on, take_first, wait};
use std::alloc::Global;
use yw_base::{Ident, Row};
use yw_tree::{Forest, NetState};

/// Nothing is done.
pub fn take_none(alloc: Global, forest: &mut Forest, r: &Ident)
    requires boxed { IsForest forest.old }
    requires runs { BareRunAt forest.old r.now }
    ensures takes { TakesBy r.now none forest.old forest.new }
    ensures boxed { IsForest forest.new }
{
    let _run = r.numbers();
    take_first(alloc, forest, r);
    end_if_over(forest, r);
}

/// A case or an item is suspended, or goes on.
pub fn take_mark(alloc: Global, forest: &mut Forest, r: &Ident, j: &Ident, suspended: bool)
    requires boxed { IsForest forest.old }
    requires runs { BareRunAt forest.old r.now }
    requires stands { TargetAt forest.old j.now }
    ensures takes { TakesBy r.now (marks j.now suspended) forest.old forest.new }
    ensures boxed { IsForest forest.new }
{
    let _run = r.numbers();
    let _target = j.numbers();
    take_first(alloc, forest, r);
    write(forest, j, Own::Suspended(suspended));
    end_if_over(forest, r);
}

/// The item at which the run hangs begins anew, and its net goes.
pub fn take_restart(alloc: Global, forest: &mut Forest, r: &Ident, j: &Ident, due: bool)
    requires boxed { IsForest forest.old }
    requires runs { BareRunAt forest.old r.now }
    requires stands { TargetAt forest.old j.now }
    requires item { is_case_ident j.now ≡ false }
    requires target { j.now ≡ parent r.now }
    ensures takes { TakesBy r.now (restarts r.now j.now due) forest.old forest.new }
    ensures boxed { IsForest forest.new }
{
    let _run = r.numbers();
    let _target = j.numbers();
    take_first(alloc, forest, r);
    forest.bare_but_run(r);
    restart(alloc, forest, j, due);
    end_if_over(forest, r);
}

/// The item at which the run hangs is completed and has made this, and its net goes.
pub fn take_completion(alloc: Global, forest: &mut Forest, r: &Ident, j: &Ident, made: Row)
    requires boxed { IsForest forest.old }
    requires runs { BareRunAt forest.old r.now }
    requires stands { TargetAt forest.old j.now }
    requires item { is_case_ident j.now ≡ false }
    requires target { j.now ≡ parent r.now }
    ensures takes { TakesBy r.now (completes r.now j.now made) forest.old forest.new }
    ensures boxed { IsForest forest.new }
{
    let _run = r.numbers();
    let _target = j.numbers();
    take_first(alloc, forest, r);
    forest.bare_but_run(r);
    finish(forest, j, made);
    end_if_over(forest, r);
}

/// What stands at an identity above the run goes, with all under it, and so the run too.
pub fn take_removal(alloc: Global, forest: &mut Forest, r: &Ident, j: &Ident)
    requires boxed { IsForest forest.old }
    requires runs { BareRunAt forest.old r.now }
    requires above { under r.now j.now ≡ true }
    ensures takes { TakesBy r.now (drops j.now) forest.old forest.new }
    ensures boxed { IsForest forest.new }
{
    let _run = r.numbers();
    take_first(alloc, forest, r);
    let _stood = forest.cut(j);
}

/// This net comes to the run, which waits for its end.
pub fn take_compensation(alloc: Global, forest: &mut Forest, r: &Ident, net: Box<NetState>)
    requires boxed { IsForest forest.old }
    requires runs { BareRunAt forest.old r.now }
    requires well { IsBoxedNet net.value }
    requires empty { nodes net.value ≡ [] }
    ensures takes { TakesBy r.now (begins r.now net.value) forest.old forest.new }
    ensures boxed { IsForest forest.new }
{
    let _run = r.numbers();
    take_first(alloc, forest, r);
    forest.attach_run_net(r, net);
    wait(forest, r);
}

/// The compensation of the run at an identity is at its end: its net goes, with all under it, and the run goes on, or goes too if it has
/// nothing left to do. It takes no memory. Compensations are the thesis's; their nets under runs are our own.
pub fn compensation_done(forest: &mut Forest, r: &Ident)
    requires boxed { IsForest forest.old }
    requires runs { RunAt forest.old r.now }
    ensures { Compensates r.now forest.old forest.new }
{
    let _run = r.numbers();
    forest.bare_run(r);
    go_on(forest, r);
    end_if_over(forest, r);
}
