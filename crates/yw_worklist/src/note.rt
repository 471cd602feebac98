// What is listed behind the events of an entry.
ghost use Rattle.std.specs.Prelude.{◌≡◌, List, OnOk};
ghost use Rattle.yw_state.specs.Identity.{Ident};
ghost use Rattle.yw_state.specs.State.{State};
ghost use Rattle.yw_state.specs.declared.event.Event.{Event};
ghost use Rattle.yw_tree.specs.declared.Forest.{Forest};
ghost use Rattle.yw_worklist.specs.Touched.{Notes, StaysRight};
ghost use Rattle.yw_worklist.specs.declared.lists.Lists.{Lists};

use crate::Lists;
use crate::touched::touched;
use std::alloc::{AllocError, Global};
use yw_known::Known;
use yw_state::EventList;
use yw_state::laws::reads::Reads;
use yw_tree::Forest;
use yw_work::{gone_is_reached, open_follows, rule_leaves_open};

/// Texts are read as checks accept them.
struct Accepted;

impl Reads for Accepted {
    ghost use Rattle.yw_texts.specs.Texts as texts;

    ghost reader = { texts.reader };
}

/// Where no event of an entry touches what is listed, it is right behind the entry if it was before. A law: nothing is done.
fn untouched_stays_right()
    ensures { (f : Forest) (es : List Event) (s t : State) (l : Lists) (j : Ident)
        → StaysRight f es s t l j }
{
    open_follows::<Accepted>();
    rule_leaves_open();
    gone_is_reached::<Accepted>();
}

impl Lists {
    /// These events are done, and what is known and the forest are those behind the last. What they may have changed is listed anew, and the persons
    /// whose roles they change are kept anew. Behind a rule by which worklets are chosen all that is listed is asked again. An `Err` says that no
    /// memory was left; then nothing is said of the lists.
    pub fn note(
        &mut self,
        alloc: Global,
        known: &Known,
        forest: &Forest,
        events: &EventList,
    ) -> Result<(), AllocError>
        ensures { OnOk result (Notes known.now forest.now events.now self.old self.new) }
    {
        untouched_stays_right();
        let events = events.as_slice();
        let ids = touched(alloc, &self.places, forest, events)?;
        self.look_all(alloc, known, forest, &ids)?;
        self.people.ask_events(alloc, known, events)
    }
}
