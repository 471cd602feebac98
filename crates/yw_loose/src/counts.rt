// How many items are done, of nets that have many.
ghost use Rattle.std.specs.List.{list_any};
ghost use Rattle.std.specs.Prelude.{◌≡◌, ◌==◌, ℕ, IfOk, IfSome, None, OnOk, Some, Vec, nat_lt, length, option_copied, option_map, true};
ghost use Rattle.std.specs.declared.alloc.Global.{Global};
ghost use Rattle.yw_base.specs.Identity.{is_identity};
ghost use Rattle.yw_enabled.specs.Left.{TellsNet, is_done};
ghost use Rattle.yw_library.specs.Held.{IsHeld};
ghost use Rattle.yw_library.specs.Holdings.{Holdings};
ghost use Rattle.yw_loose.specs.Counts.{AreLeft, AreMore, AreRight, CountsOne, Exits, Follows, Leaves, LosesCase, Puts, RightBehind, counts_at};
ghost use Rattle.yw_loose.specs.Moved.{exlet_at};
ghost use Rattle.yw_progress.specs.Progress.{completed_by, is_anew, left_by};
ghost use Rattle.yw_state.specs.Identity.{Ident, same};
ghost use Rattle.yw_state.specs.Options.{is_some_and};
ghost use Rattle.yw_state.specs.State.{State};
ghost use Rattle.yw_state.specs.Words.{is_completed};
ghost use Rattle.yw_tree.specs.declared.NetState.{out-NetState};

use crate::events::exlet_at;
use std::alloc::{AllocError, Global};
use std::collections::BTreeMap;
use yw_base::Ident;
use yw_enabled::done_counts;
use yw_state::{Event, Stage};
use yw_task::is_active;
use yw_tree::{Forest, NetState, Node};

/// A task with more items than these has many.
const MANY: usize = 16;

/// Of so many nets at most counts are kept.
const MOST_NETS: usize = 1024;

/// How many items of each task are done, of nets with a task that has many, by the nets' identities. Our own.
#[derive(Drop)]
pub(crate) struct Counts {
    pub(crate) nets: BTreeMap<Ident, Vec<usize>>,
}

/// A task of the net has many items.
fn has_many(net: &NetState) -> bool
    ensures { result ≡ list_any (λ nodes. nat_lt 16 (length nodes.items)) (out-NetState net.now).items.items }
{
    net.items.iter().any(|nodes| nodes.len() > MANY)
}

/// It has made its values.
fn is_completed(stage: Stage) -> bool
    ensures { result ≡ is_completed stage }
{
    matches!(stage, Stage::Completed)
}

/// The item counts where its task exits: it is completed, no run hangs at it, and it isn't suspended.
#[tactic(auto, unfolding(yw_enabled::specs::Left::is_done))]
fn is_done(node: &Node) -> bool
    ensures { result ≡ is_done node.now }
{
    is_completed(node.stage) && !node.run.is_some() && !node.suspended
}

/// The item that an event completes.
fn completed_by(event: &Event) -> Option<&Ident>
    ensures { option_copied result ≡ completed_by event.now }
{
    match event {
        Event::Complete { item, .. }
        | Event::CompleteSub { item }
        | Event::CompleteEmpty { item } => Some(item),
        _ => None,
    }
}

/// The net of which a task exits by an event.
fn left_by(event: &Event) -> Option<&Ident>
    ensures { option_copied result ≡ left_by event.now }
{
    match event {
        Event::Exit { net, .. } => Some(net),
        _ => None,
    }
}

/// The net that begins or ends by an event. An `Err` says that no memory was left.
fn anew(alloc: Global, event: &Event) -> Result<Option<Ident>, AllocError>
    ensures { IfOk result (λ found. (i : Ident) → is_identity i ≡ true → is_anew event.now i ≡ is_some_and found (same i)) }
{
    match event {
        Event::Launch { case, .. } => Ok(Ident::from_numbers(vec![in alloc; *case]?)),
        Event::StartSub { item } | Event::CompleteSub { item } => Ok(Some(item.copy(alloc)?)),
        _ => Ok(None),
    }
}

/// One item more of a task is done, by the task's number. `None` where no such task is counted, or the count would be too large.
fn one_more(mut counts: Vec<usize>, task: usize) -> Option<Vec<usize>>
    ensures { IfSome result (λ more. AreMore counts.items more.items (λ k. task == k)) }
{
    let before = *counts.get(task)?;
    counts[task] = before.checked_add(1)?;
    Some(counts)
}

/// These counts behind the exit of a task, with the net behind it: of a task without items none is done.
fn counts_left(mut counts: Vec<usize>, net: &NetState) -> Vec<usize>
    ensures { AreLeft net.now counts.items result.items }
{
    for t in 0..counts.len() {
        if is_active(net, t) {
            continue;
        }
        counts[t] = 0;
    }
    counts
}

impl Counts {
    /// No net has counts. It takes no memory.
    pub(crate) fn new(alloc: Global) -> Counts
        ensures { (s : State) → AreRight s result }
    {
        Counts {
            nets: BTreeMap::new(alloc),
        }
    }

    /// No net has counts any more.
    pub(crate) fn forget(&mut self)
        ensures { (s : State) → AreRight s self.new }
    {
        self.nets.clear();
    }

    /// The counts of the net at an identity, one for each of its tasks; `None` where it has none.
    pub(crate) fn told(&self, at: &Ident) -> Option<&[usize]>
        ensures { option_copied result ≡ option_map (λ v. v.items) (counts_at self.now at.now) }
    {
        match self.nets.get(at) {
            Some(counts) => Some(counts.as_slice()),
            None => None,
        }
    }

    /// Where as many nets have counts as may, the first of them has none any more.
    fn make_room(&mut self)
        ensures { (i : Ident) (v : Vec ℕ Global) → counts_at self.new i ≡ Some v → counts_at self.old i ≡ Some v }
    {
        if self.nets.len() < MOST_NETS {
            return;
        }
        self.nets.pop_first();
    }

    /// The net at an identity has these counts. An `Err` says that no memory was left.
    fn put(&mut self, alloc: Global, at: &Ident, counts: Vec<usize>) -> Result<(), AllocError>
        ensures { Puts self.old self.new at.now counts }
    {
        self.make_room();
        self.nets.insert(at.copy(alloc)?, counts)?;
        Ok(())
    }

    /// The net at an identity has counts, if a task of it has many items. Where it has none they are made. An `Err` says that no memory was left.
    pub(crate) fn know(
        &mut self,
        alloc: Global,
        forest: &Forest,
        at: &Ident,
    ) -> Result<(), AllocError>
        ensures { (known : Holdings) (s : State) → IsHeld known forest.now s → AreRight s self.old → AreRight s self.new }
    {
        // No work is done here: it says that it is an identity.
        let _ = at.numbers();
        if self.nets.contains_key(at) {
            return Ok(());
        }
        let Some(net) = forest.net(at) else {
            return Ok(());
        };
        if !has_many(net) {
            return Ok(());
        }
        self.put(alloc, at, done_counts(alloc, net)?)
    }

    /// A net that begins or ends by an event has no counts any more. An `Err` says that no memory was left.
    fn leave(&mut self, alloc: Global, event: &Event) -> Result<(), AllocError>
        ensures { OnOk result (Leaves event.now self.old self.new) }
    {
        if let Some(net) = anew(alloc, event)? {
            self.nets.remove(&net);
        }
        Ok(())
    }

    /// No net of this case has counts any more.
    fn forget_case(&mut self, n: u64)
        ensures { LosesCase n self.old self.new }
    {
        self.nets.retain(|net, _counts| net.case_number() != n);
    }

    /// An item is completed: it is counted in the net in which it stands, if it is done and that has counts. An `Err` says that no memory was left.
    fn add_one(&mut self, alloc: Global, forest: &Forest, item: &Ident) -> Result<(), AllocError>
        ensures { OnOk result (CountsOne forest.now item.now self.old self.new) }
    {
        let Some(node) = forest.item(item) else {
            return Ok(());
        };
        if !is_done(node) {
            return Ok(());
        }
        let Some(net) = item.parent(alloc)? else {
            return Ok(());
        };
        let Some(counts) = self.nets.remove(&net) else {
            return Ok(());
        };
        let Some(more) = one_more(counts, node.task) else {
            return Ok(());
        };
        self.nets.insert(net, more)?;
        Ok(())
    }

    /// A task of the net at an identity exits, and this is the forest behind it. An `Err` says that no memory was left.
    fn exit(&mut self, alloc: Global, forest: &Forest, at: &Ident) -> Result<(), AllocError>
        ensures { OnOk result (Exits forest.now at.now self.old self.new) }
    {
        let Some(counts) = self.nets.remove(at) else {
            return Ok(());
        };
        let Some(net) = forest.net(at) else {
            return Ok(());
        };
        self.nets.insert(at.copy(alloc)?, counts_left(counts, net))?;
        Ok(())
    }

    /// What an event changes of the counts by which no task exits, with the forest behind it. An `Err` says that no memory was left.
    fn go_on(&mut self, alloc: Global, forest: &Forest, event: &Event) -> Result<(), AllocError>
        ensures { OnOk result (Follows forest.now event.now self.old self.new) }
    {
        self.leave(alloc, event)?;
        match completed_by(event) {
            Some(item) => self.add_one(alloc, forest, item),
            None => Ok(()),
        }
    }

    /// What an event of no exlet changes of the counts, with the forest behind it. An `Err` says that no memory was left.
    fn follow_net(
        &mut self,
        alloc: Global,
        forest: &Forest,
        event: &Event,
    ) -> Result<(), AllocError>
        requires { exlet_at event.now ≡ None }
        ensures { OnOk result (RightBehind forest.now event.now self.old self.new) }
    {
        match left_by(event) {
            Some(net) => self.exit(alloc, forest, net),
            None => self.go_on(alloc, forest, event),
        }
    }

    /// What an event changes of the counts, with the forest behind it. An `Err` says that no memory was left.
    fn follow(&mut self, alloc: Global, forest: &Forest, event: &Event) -> Result<(), AllocError>
        ensures { OnOk result (RightBehind forest.now event.now self.old self.new) }
    {
        if self.nets.is_empty() {
            return Ok(());
        }
        match exlet_at(event) {
            Some(at) => {
                // No work is done here: it says that it is an identity.
                let _ = at.numbers();
                self.forget_case(at.case_number());
                Ok(())
            }
            None => self.follow_net(alloc, forest, event),
        }
    }

    /// An event is done, and this is the forest behind it. Where no memory is left, no net has counts any more.
    pub(crate) fn after(&mut self, alloc: Global, forest: &Forest, event: &Event)
        ensures { RightBehind forest.now event.now self.old self.new }
    {
        match self.follow(alloc, forest, event) {
            Ok(()) => (),
            Err(AllocError) => self.forget(),
        }
    }
}
