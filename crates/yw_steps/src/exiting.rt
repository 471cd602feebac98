// A task exits.
ghost use Rattle.std.specs.Prelude.{◌≡◌, ◌<◌, ◌≤◌, ◌&&◌, IsSome, length, true};
ghost use Rattle.yw_base.specs.Identity.{is_identity, case_number};
ghost use Rattle.yw_state.specs.After.{due_where};
ghost use Rattle.yw_state.specs.Identity.{is_case_ident};
ghost use Rattle.yw_state.specs.Nets.{is_among};
ghost use Rattle.yw_state.specs.declared.tree.TreeKind.TheVariants.{Post};
ghost use Rattle.yw_steps.specs.Exits.{Exits, IsOutcomeIn, NetLeaves, case_with_post, judged};
ghost use Rattle.yw_tree.specs.Forest.{IsForest};
ghost use Rattle.yw_tree.specs.Places.{net_at};

use yw_base::Ident;
use yw_mark::is_among;
use yw_spec::{IndexList, Net};
use yw_state::Checks;
use yw_task::Outcome;
use yw_tree::Forest;

/// With the check after it due too, if this says so.
pub fn with_post(due: Checks, post: bool) -> Checks
    ensures { result ≡ due_where post Post due }
{
    if post {
        Checks { post: true, ..due }
    } else {
        due
    }
}

/// It is the identity of a case.
fn is_case(id: &Ident) -> bool
    ensures { result ≡ is_case_ident id.now }
{
    id.numbers().len() == 1
}

/// The number of the case.
fn case_number(id: &[u64]) -> u64
    requires { 1 ≤ length id.now }
    ensures { result ≡ case_number id.now }
{
    id[0]
}

/// A token came to the output of the case's own net.
fn ends_case(net: &Net, at: &Ident, places: &[usize]) -> bool
    ensures { result ≡ (is_case_ident at.now && is_among places.now net.now.output) }
{
    is_case(at) && is_among(places, net.output)
}

/// If this says so, the case is to be judged after its end.
fn make_post_due(forest: &mut Forest, n: u64, due_post: bool)
    ensures { forest.new ≡ case_with_post forest.old n due_post }
{
    if let Some(case) = forest.case_mut(n) {
        case.due = with_post(case.due, due_post);
    }
}

/// Where a token came to the output of the case's own net, the same.
fn judge_end(forest: &mut Forest, net: &Net, at: &Ident, places: &[usize], due_post: bool)
    ensures { forest.new ≡ judged at.now net.now places.now due_post forest.old }
{
    if ends_case(net, at, places) {
        make_post_due(forest, case_number(at.numbers()), due_post);
    }
}

/// The task with this number exits, but for the check of a case after its end.
fn leave(forest: &mut Forest, net: &Net, at: &Ident, t: usize, outcome: Outcome) -> IndexList
    requires boxed { IsForest forest.old }
    requires stands { IsSome (net_at forest.old at.now) }
    requires task { t < length net.now.tasks }
    requires outcome { IsOutcomeIn forest.old net.now at.now t outcome }
    ensures leaves { NetLeaves net.now at.now t forest.old forest.new result }
    ensures identity { is_identity at.now ≡ true }
{
    match forest.net_mut(at) {
        Some(state) => yw_task::exit(net, state, t, outcome),
        None => unreachable!(),
    }
}

/// The task with this number exits, in the net at an identity, which is this one, where that is allowed, with the outcome that was computed of it
/// (`exit_outcome` of yw_task). Its items go, with all under them. The net has the values that its assignments leave. The removal set is emptied,
/// and then a token comes to each place of its split. Where one of them is the output of a case's own net, the case is to be judged after its end,
/// if `due_post` says that its tree has a rule. It takes no memory. The exit is the paper's; the order and the check are our own.
pub fn exit(forest: &mut Forest, net: &Net, at: &Ident, t: usize, outcome: Outcome, due_post: bool)
    requires boxed { IsForest forest.old }
    requires stands { IsSome (net_at forest.old at.now) }
    requires task { t < length net.now.tasks }
    requires outcome { IsOutcomeIn forest.old net.now at.now t outcome }
    ensures { Exits net.now at.now t due_post forest.old forest.new }
{
    let places = leave(forest, net, at, t, outcome);
    judge_end(forest, net, at, places.as_slice(), due_post);
}
