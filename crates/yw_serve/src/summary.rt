// What a bench comes to.
ghost use Rattle.std.specs.Prelude.{◌≡◌, ◌+◌, ◌≤◌, ◌^◌, [], ℕ, IfOk, cond, length};
ghost use Rattle.serde_json.specs.View.{view};
ghost use Rattle.yw_serve.specs.Summary.{HasFew, IsWithin, completes_high, enters_high, finished_in, high_in, is_finish, is_item, makes_high, summary_data, summary_line, summary_of, with_entry, with_plan};

use crate::plan::Plan;
use serde_json::{Value, json};
use std::alloc::{AllocError, Global};
use yw_base::{Bytes, Ident};
use yw_state::Event;
use yw_wire::value_line;

/// What the lines of a bench come to, counted from what was decided on them.
#[derive(Clone, Copy, Debug, PartialEq, Eq)]
pub struct Summary {
    /// How many commands were accepted.
    pub accepted: u64,
    /// How many cases were finished.
    pub ended: u64,
    /// How many events all entries have.
    pub events: u64,
    /// How many items of the task `high` were completed, each in the entry by which it was entered.
    pub high: u64,
    /// How many commands were refused.
    pub refused: u64,
}

#[tactic(auto, unfolding(crate::specs::Summary::is_finish))]
fn is_finish(event: &Event) -> bool
    ensures { result ≡ is_finish event.now }
{
    matches!(event, Event::Finish { .. })
}

/// The item is the one with this number in the net.
fn is_item(item: &Ident, net: &Ident, number: u64) -> bool
    ensures { result ≡ is_item item.now net.now number }
{
    let (numbers, at) = (item.numbers(), net.numbers().len());
    item.is_under(net) && numbers.len() == at + 1 && numbers[at] == number
}

/// The event makes this item of the task `high`.
#[tactic(auto, unfolding(crate::specs::Summary::enters_high))]
fn enters_high(item: &Ident, event: &Event) -> bool
    ensures { result ≡ enters_high item.now event.now }
{
    match event {
        Event::Enter {
            net,
            task,
            first,
            ..
        } => task.as_str() == "high" && is_item(item, net, *first),
        _ => false,
    }
}

/// One of the events makes this item of the task `high`.
fn makes_high(entry: &[Event], item: &Ident) -> bool
    ensures { result ≡ makes_high entry.now item.now }
{
    for event in entry {
        if enters_high(item, event) {
            return true;
        }
    }
    false
}

/// The event completes an item of the task `high`, which one of these makes.
#[tactic(auto, unfolding(crate::specs::Summary::completes_high))]
fn completes_high(entry: &[Event], event: &Event) -> bool
    ensures { result ≡ completes_high entry.now event.now }
{
    match event {
        Event::CompleteEmpty { item } => makes_high(entry, item),
        _ => false,
    }
}

fn one_if(passes: bool) -> u64
    ensures { result ≡ cond passes 1 0 }
{
    if passes { 1 } else { 0 }
}

fn finished_in(entry: &[Event]) -> u64
    ensures count { result ≡ finished_in entry.now }
    ensures few { result ≤ length entry.now }
{
    let mut count = 0;
    for event in entry {
        count += one_if(is_finish(event));
    }
    count
}

fn high_in(entry: &[Event]) -> u64
    ensures count { result ≡ high_in entry.now }
    ensures few { result ≤ length entry.now }
{
    let mut count = 0;
    for event in entry {
        count += one_if(completes_high(entry, event));
    }
    count
}

impl Summary {
    /// Nothing is counted yet.
    pub(crate) fn new() -> Summary
        ensures { result ≡ summary_of [] }
    {
        Summary {
            accepted: 0,
            ended: 0,
            events: 0,
            high: 0,
            refused: 0,
        }
    }

    /// Counts an entry more.
    fn count_entry(&mut self, entry: &[Event])
        requires small { IsWithin (2 ^ 62) self.old }
        requires few { length entry.now ≤ 4097 }
        ensures counted { self.new ≡ with_entry self.old entry.now }
        ensures within { (most : ℕ) → IsWithin most self.old → IsWithin (most + 4097) self.new }
    {
        self.accepted += 1;
        self.ended += finished_in(entry);
        self.events += entry.len() as u64;
        self.high += high_in(entry);
    }

    /// Counts what was planned and done for a line more.
    pub(crate) fn count(&mut self, plan: &Plan)
        requires small { IsWithin (2 ^ 62) self.old }
        requires few { HasFew plan.now }
        ensures counted { self.new ≡ with_plan self.old plan.now }
        ensures within { (most : ℕ) → IsWithin most self.old → IsWithin (most + 4097) self.new }
    {
        match plan {
            Plan::Say(_) => self.refused += 1,
            Plan::Accept(decided, _) => self.count_entry(decided.events.as_slice()),
        }
    }
}

fn summary_value(alloc: Global, summary: &Summary) -> Result<Value, AllocError>
    ensures { IfOk result (λ value. view value ≡ summary_data summary.now) }
{
    let Summary {
        accepted,
        ended,
        events,
        high,
        refused,
    } = *summary;
    json!(in alloc; {"accepted": accepted, "ended": ended, "events": events, "high": high, "refused": refused})
}

/// The line that says it. An `Err` says that no memory was left.
#[tactic(auto, unfolding(crate::specs::Summary::summary_line))]
pub fn write_summary(alloc: Global, summary: &Summary) -> Result<Bytes, AllocError>
    ensures { IfOk result (λ line. line ≡ summary_line summary.now) }
{
    let value = summary_value(alloc, summary)?;
    value_line(alloc, &value)
}
