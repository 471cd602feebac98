// The next event that comes of itself in a case, by what is loose.
ghost use Rattle.std.specs.Prelude.{◌≡◌, IfOk, true};
ghost use Rattle.yw_loose.specs.Loose.{is_known};
ghost use Rattle.yw_loose.specs.Next.{FindsCounted, FindsLoose, StaysRested, StaysRight};

use crate::Loose;
use crate::counts::Counts;
use std::alloc::{AllocError, Global};
use yw_base::Ident;
use yw_known::Known;
use yw_tree::Forest;
use yw_walk::{Found, event_at};

/// What comes of itself at an identity, by the counts of the net there, which are made where it has none and a task of it has many items. An `Err`
/// says that no memory was left.
fn event_counted(
    alloc: Global,
    known: &Known,
    forest: &Forest,
    id: &Ident,
    next: u64,
    counts: &mut Counts,
) -> Result<Option<Found>, AllocError>
    ensures found { IfOk result (FindsCounted known.now forest.now id.now next counts.old) }
    ensures right { StaysRight known.now forest.now counts.old counts.new }
{
    // No work is done here: it says that it is an identity.
    let _ = id.numbers();
    counts.know(alloc, forest, id)?;
    event_at(alloc, known, forest, id, next, counts.told(id))
}

impl Loose {
    /// What comes of itself at the first identity that is loose and at which something does. Those before it are loose no longer; of their cases,
    /// where they are others, nothing is known any more.
    fn first_event(
        &mut self,
        alloc: Global,
        known: &Known,
        forest: &Forest,
        n: u64,
        next: u64,
    ) -> Result<Option<Found>, AllocError>
        requires { is_known self.old n ≡ true }
        ensures found { IfOk result (FindsLoose known.now forest.now n next self.old) }
        ensures rested { StaysRested known.now forest.now n next self.old self.new }
    {
        'idents: while let Some(id) = self.idents.first() {
            let case = id.case_number();
            if case != n {
                self.forget_case(case);
                self.idents.pop_first();
                continue;
            }
            let found = event_counted(alloc, known, forest, id, next, &mut self.counts)?;
            if let Some(found) = found {
                return Ok(Some(found));
            }
            self.idents.pop_first();
        }
        Ok(None)
    }

    /// The next event that comes of itself in a case in which nothing is urgent and no compensation is at its end, with what was computed of it:
    /// `None` exactly where the case is quiet, as it is where no case has this number. `next` is the number that is drawn next. An `Err` says that no
    /// memory was left.
    ///
    /// Only what is loose is looked at, in order of identities, each before those below it. A case of which nothing is known is looked at whole.
    pub fn next_event(
        &mut self,
        alloc: Global,
        known: &Known,
        forest: &Forest,
        n: u64,
        next: u64,
    ) -> Result<Option<Found>, AllocError>
        ensures found { IfOk result (FindsLoose known.now forest.now n next self.old) }
        ensures rested { StaysRested known.now forest.now n next self.old self.new }
    {
        self.know(alloc, forest, n)?;
        self.first_event(alloc, known, forest, n, next)
    }
}
