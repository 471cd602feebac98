// What goes from a forest that has grown by calls, and what stays.
ghost use Rattle.std.specs.Prelude.{◌≡◌, IsSome, IsTrue, IfSome, length};
ghost use Rattle.yw_tree.specs.Forest.{IsForest, item_of};

use crate::grown::{Part, chain, grow, grown, has_bare_run, is_there};
use std::alloc::Global;
use yw_base::Ident;
use yw_tree::Forest;

/// A call by which something goes.
#[derive(Clone, Copy)]
enum Call {
    Cut,
    CutTask(usize),
    BareItem,
    BareRun,
    BareButRun,
}

/// All that stands in the forest.
static ALL: [&str; 13] = [
    "1", "1.2", "1.2.5", "1.2.6", "1.2.6.8", "1.3", "1.3.13", "1.3.15", "1.9", "1.9.11", "1.12",
    "16", "16.17",
];

/// A call, where it is made, and what goes.
type Change = (Call, &'static str, &'static [&'static str]);

static CHANGES: [Change; 24] = [
    (
        Call::Cut,
        "1",
        &[
            "1", "1.2", "1.2.5", "1.2.6", "1.2.6.8", "1.3", "1.3.13", "1.3.15", "1.9", "1.9.11",
            "1.12",
        ],
    ),
    (Call::Cut, "16", &["16", "16.17"]),
    (Call::Cut, "1.2", &["1.2", "1.2.5", "1.2.6", "1.2.6.8"]),
    (Call::Cut, "1.3", &["1.3", "1.3.13", "1.3.15"]),
    (Call::Cut, "1.12", &["1.12"]),
    (Call::Cut, "1.2.5", &["1.2.5"]),
    (Call::Cut, "1.2.6", &["1.2.6", "1.2.6.8"]),
    (Call::Cut, "1.2.6.8", &["1.2.6.8"]),
    (Call::Cut, "1.3.13", &["1.3.13"]),
    (Call::Cut, "1.9", &["1.9", "1.9.11"]),
    (Call::Cut, "2", &[]),
    (Call::Cut, "1.4", &[]),
    (Call::Cut, "1.2.7", &[]),
    (Call::Cut, "1.12.5", &[]),
    (
        Call::CutTask(0),
        "1",
        &["1.2", "1.2.5", "1.2.6", "1.2.6.8", "1.12"],
    ),
    (Call::CutTask(1), "1", &["1.3", "1.3.13", "1.3.15"]),
    (Call::CutTask(0), "1.2.6", &["1.2.6.8"]),
    (Call::CutTask(0), "1.9", &["1.9.11"]),
    (Call::BareItem, "1.2", &["1.2.5", "1.2.6", "1.2.6.8"]),
    (Call::BareItem, "1.12", &[]),
    (Call::BareRun, "1.2.6", &["1.2.6.8"]),
    (Call::BareRun, "1.9", &["1.9.11"]),
    (Call::BareRun, "1.3.13", &[]),
    (Call::BareButRun, "1.3.13", &["1.3.15"]),
];

fn is_among(ids: &[&str], id: &str) -> bool {
    ids.iter().any(|one| *one == id)
}

/// The answer of `cut` is whether something stood there.
fn cuts(forest: &mut Forest, id: &Ident, stands: bool) -> bool
    requires { IsForest forest.old }
{
    forest.cut(id) == stands
}

fn cuts_task(forest: &mut Forest, id: &Ident, t: usize) -> bool
    requires { IsForest forest.old }
{
    match forest.net(id) {
        Some(net) => {
            if t >= net.items.len() {
                return false;
            }
        }
        None => return false,
    }
    forest.cut_task(id, t);
    true
}

fn bares_item(forest: &mut Forest, id: &Ident) -> bool
    requires { IsForest forest.old }
{
    if forest.item(id).is_none() {
        return false;
    }
    forest.bare_item(id);
    true
}

fn bares_run(forest: &mut Forest, id: &Ident) -> bool
    requires { IsForest forest.old }
{
    if forest.run(id).is_none() {
        return false;
    }
    forest.bare_run(id);
    true
}

fn bares_but_run(forest: &mut Forest, id: &Ident) -> bool
    requires { IsForest forest.old }
{
    if id.numbers().len() == 2 || !has_bare_run(forest, id) {
        return false;
    }
    forest.bare_but_run(id);
    true
}

fn changes(forest: &mut Forest, id: &Ident, change: &Change) -> bool
    requires { IsForest forest.old }
{
    match change.0 {
        Call::Cut => cuts(forest, id, is_among(&ALL, change.1)),
        Call::CutTask(t) => cuts_task(forest, id, t),
        Call::BareItem => bares_item(forest, id),
        Call::BareRun => bares_run(forest, id),
        Call::BareButRun => bares_but_run(forest, id),
    }
}

fn stands(alloc: Global, forest: &Forest, id: &str) -> bool {
    match Ident::read(alloc, id) {
        Ok(id) => is_there(forest, &id),
        Err(_) => false,
    }
}

/// Of all that stood these are gone, and all else stands.
fn are_gone(alloc: Global, forest: &Forest, gone: &[&str]) -> bool {
    for id in &ALL {
        if stands(alloc, forest, id) == is_among(gone, id) {
            return false;
        }
    }
    true
}

fn is_changed(alloc: Global, change: &Change) -> bool {
    match (grown(alloc), Ident::read(alloc, change.1)) {
        (Some(mut forest), Ok(id)) => {
            are_gone(alloc, &forest, &[])
                && changes(&mut forest, &id, change)
                && are_gone(alloc, &forest, change.2)
        }
        _ => false,
    }
}

#[test]
fn what_a_call_takes_is_gone(rt: HostRuntime) {
    for change in &CHANGES {
        assert!(rt; is_changed(rt.alloc(), change), "at {}", change.1);
    }
}

/// What comes below an identity of so many numbers, and whether it can.
static DEPTHS: [(Part, usize, bool); 7] = [
    (Part::Item(0), 1, true),
    (Part::Run, 1, true),
    (Part::Item(0), 2, true),
    (Part::Run, 2, true),
    (Part::Item(0), 39, true),
    (Part::Run, 39, true),
    (Part::Item(0), 40, false),
];

/// It is found at the identity of one number more, and no number has room below an identity of 40 numbers.
fn comes(alloc: Global, part: Part, count: usize) -> bool {
    match chain(alloc, count) {
        Some((mut forest, at, n)) => {
            let has_come = grow(alloc, &mut forest, n, part, &at);
            has_come && is_below(alloc, &forest, &at, n)
        }
        None => false,
    }
}

fn is_below(alloc: Global, forest: &Forest, at: &Ident, n: u64) -> bool {
    if at.numbers().len() >= 40 || n < 1 || n >= 0x1_0000_0000_0000 {
        return false;
    }
    match at.child(alloc, n) {
        Ok(id) => is_there(forest, &id),
        Err(_) => false,
    }
}

#[test]
fn parts_come_at_each_depth(rt: HostRuntime) {
    for row in &DEPTHS {
        assert!(rt;
            comes(rt.alloc(), row.0, row.1) == row.2,
            "under {} numbers",
            row.1
        );
    }
}

/// Once the case or item is suspended that stands first, whether work at the other identity is held.
type Held = (&'static str, &'static str, bool);

static HELD: [Held; 8] = [
    ("1.2", "1.2.5", true),
    ("1.2", "1.2.6.8", false),
    ("1.2", "1.2", true),
    ("1.2", "1.3", false),
    ("1.2", "1", false),
    ("1.3", "1.3.15", true),
    ("1.2.6.8", "1.2.6.8", true),
    ("16.17", "16.17", true),
];

fn suspends(forest: &mut Forest, id: &Ident) {
    if let Some(node) = forest.item_mut(id) {
        node.suspended = true;
    }
}

fn is_held(alloc: Global, row: &Held) -> bool {
    match (
        grown(alloc),
        Ident::read(alloc, row.0),
        Ident::read(alloc, row.1),
    ) {
        (Some(mut forest), Ok(above), Ok(id)) => {
            let before = forest.is_held(&id);
            suspends(&mut forest, &above);
            !before && forest.is_held(&id) == row.2
        }
        _ => false,
    }
}

#[test]
fn work_is_held_down_to_a_run(rt: HostRuntime) {
    for row in &HELD {
        assert!(rt; is_held(rt.alloc(), row), "at {} by {}", row.1, row.0);
    }
}

/// An identity, and whether a run hangs there.
static BUSY: [(&str, bool); 8] = [
    ("1", true),
    ("1.2", true),
    ("1.3", true),
    ("1.12", false),
    ("1.2.5", false),
    ("16", false),
    ("16.17", false),
    ("1.2.6", false),
];

fn is_busy(alloc: Global, row: &(&'static str, bool)) -> bool {
    match (grown(alloc), Ident::read(alloc, row.0)) {
        (Some(forest), Ok(id)) => {
            forest.is_busy(&id) == row.1 && forest.is_urgent(1) && !forest.is_urgent(16)
        }
        _ => false,
    }
}

#[test]
fn a_case_or_an_item_is_busy_where_a_run_hangs(rt: HostRuntime) {
    for row in &BUSY {
        assert!(rt; is_busy(rt.alloc(), row), "at {}", row.0);
    }
}
