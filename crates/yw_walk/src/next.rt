// The next event that comes of itself in a case.
ghost use Rattle.std.specs.Prelude.{ℕ, IfOk};
ghost use Rattle.yw_idents.specs.Idents.{lent};
ghost use Rattle.yw_walk.specs.Finds.{FindsAmong, FindsNext, TellsQuiet};

use crate::Found;
use crate::identity::event_at;
use std::alloc::{AllocError, Global};
use yw_base::Ident;
use yw_idents::idents_in;
use yw_known::Known;
use yw_tree::Forest;

/// What comes of itself at the first of these identities, all of one case, at which something does.
fn first_at(
    alloc: Global,
    known: &Known,
    forest: &Forest,
    idents: &Vec<&Ident>,
    next: u64,
) -> Result<Option<Found>, AllocError>
    ensures { (n : ℕ) → IfOk result (FindsAmong known.now forest.now n (lent idents.now.items) next) }
{
    for id in idents {
        if let Some(found) = event_at(alloc, known, forest, id, next, None)? {
            return Ok(Some(found));
        }
    }
    Ok(None)
}

/// The next event that comes of itself in a case in which nothing is urgent and no compensation is at its end, with what was computed of it: `None`
/// exactly where the case is quiet, as it is where no case has this number. `next` is the number that is drawn next. An `Err` says that no memory was
/// left.
///
/// The identities of the case are looked at in turn, each before those of what is below it; at one identity first whether work is held, then whether
/// the case is at its end, then how the item goes on, then which task of the net is left, and then which is entered. That the server does all this by
/// itself, and the order, are our own.
pub fn next_event(
    alloc: Global,
    known: &Known,
    forest: &Forest,
    n: u64,
    next: u64,
) -> Result<Option<Found>, AllocError>
    ensures { IfOk result (FindsNext known.now forest.now n next) }
{
    match forest.case(n) {
        Some(case) => first_at(alloc, known, forest, &idents_in(alloc, case)?, next),
        None => Ok(None),
    }
}

/// Whether nothing comes of itself in a case in which nothing is urgent and no compensation is at its end: the same look. An `Err` says that no
/// memory was left.
pub fn is_quiet(
    alloc: Global,
    known: &Known,
    forest: &Forest,
    n: u64,
    next: u64,
) -> Result<bool, AllocError>
    ensures { IfOk result (TellsQuiet known.now forest.now n next) }
{
    match next_event(alloc, known, forest, n, next)? {
        Some(_found) => Ok(false),
        None => Ok(true),
    }
}
