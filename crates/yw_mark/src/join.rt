// From which places joins take tokens.
ghost use Rattle.std.specs.Prelude.{◌≡◌, ◌<◌, Some, IfSome, find, is_some, length, slice_get};
ghost use Rattle.std.specs.List.{list_all, list_any};
ghost use Rattle.yw_mark.specs.Taking.{Chooses, HasTokens, OfTask, taken_places};
ghost use Rattle.yw_mark.specs.Tokens.{TakesEach, is_marked};
ghost use Rattle.yw_spec.specs.Net.{places_before};

use crate::token::{is_marked, lose};
use yw_base::Gate;
use yw_spec::{Net, Task};
use yw_state::Marks;

/// From which of a task's input places its join takes a token each. Our own words for the paper's joins.
#[derive(Clone, Copy, Debug, PartialEq, Eq)]
pub enum Taken {
    /// From all of them: an AND-join.
    All,
    /// From the one with this number: an XOR-join.
    One(usize),
    /// From all that are marked: an OR-join.
    Marked,
}

/// The task with this number.
fn task_at(net: &Net, t: usize) -> &Task
    requires { t < length net.now.tasks }
    ensures { slice_get net.now.tasks t ≡ Some result.now }
{
    &net.tasks.as_slice()[t]
}

/// Each of these places is marked.
fn are_all_marked(marks: &Marks, places: &[usize]) -> bool
    ensures { result ≡ list_all (is_marked marks.now) places.now }
{
    places.iter().all(|c| is_marked(marks, *c))
}

/// One of these places or more is marked. It takes no memory.
pub fn is_any_marked(marks: &Marks, places: &[usize]) -> bool
    ensures { result ≡ list_any (is_marked marks.now) places.now }
{
    places.iter().any(|c| is_marked(marks, *c))
}

/// The first of these places that is marked.
fn first_marked(marks: &Marks, places: &[usize]) -> Option<usize>
    ensures { result ≡ find (is_marked marks.now) places.now }
{
    places.iter().copied().find(|c| is_marked(marks, *c))
}

/// The choice of a task's join.
fn choice(task: &Task, marks: &Marks) -> Option<Taken>
    ensures chooses { IfSome result (Chooses marks.now task.now) }
    ensures has { HasTokens marks.now task.now (is_some result) }
{
    let before = task.before.as_slice();
    match task.join {
        Gate::And => are_all_marked(marks, before).then_some(Taken::All),
        Gate::Xor => Some(Taken::One(first_marked(marks, before)?)),
        Gate::Or => is_any_marked(marks, before).then_some(Taken::Marked),
    }
}

/// From which of its input places the join of a task, by its number, may take tokens: `All` of an AND-join, `One` of an XOR-join,
/// which is the first marked one in flow order, `Marked` of an OR-join. `None` comes exactly where the join lacks tokens: an input place of an AND-join
/// isn't marked, or none of another join. Whether an OR-join waits isn't judged here. It takes no memory.
pub fn join_choice(net: &Net, marks: &Marks, t: usize) -> Option<Taken>
    requires { t < length net.now.tasks }
    ensures chooses { IfSome result (λ taken. OfTask net.now t (λ task. Chooses marks.now task taken)) }
    ensures has { OfTask net.now t (λ task. HasTokens marks.now task (is_some result)) }
{
    choice(task_at(net, t), marks)
}

/// Takes a token from each of these places, if one is there.
fn lose_each(marks: &mut Marks, places: &[usize])
    ensures { TakesEach places.now marks.old marks.new }
{
    for c in places {
        lose(marks, *c);
    }
}

/// Takes a token from each of the places that a choice of a task's join stands for, where one is there. No other count changes.
/// It takes no memory.
pub fn take(net: &Net, marks: &mut Marks, t: usize, taken: Taken)
    requires { t < length net.now.tasks }
    ensures { TakesEach (taken_places marks.old (places_before net.now t) taken) marks.old marks.new }
{
    match taken {
        Taken::One(c) => lose_each(marks, &[c]),
        Taken::All | Taken::Marked => lose_each(marks, task_at(net, t).before.as_slice()),
    }
}
