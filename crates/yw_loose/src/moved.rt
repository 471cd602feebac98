// What an event may have set moving.
ghost use Rattle.std.specs.List.{list_any, range_with_len};
ghost use Rattle.std.specs.Prelude.{◌≡◌, ◌+◌, ◌||◌, IfOk, None, OnOk, Some, SomeIff, map, true};
ghost use Rattle.yw_base.specs.Identity.{is_identity, child, parent};
ghost use Rattle.yw_library.specs.Held.{IsHeld};
ghost use Rattle.yw_library.specs.Holdings.{Holdings};
ghost use Rattle.yw_loose.specs.Loose.{IsRested, Loosens};
ghost use Rattle.yw_loose.specs.Moved.{done_at, is_moved, made_by};
ghost use Rattle.yw_texts.specs.Texts.{reader};
ghost use Rattle.yw_state.specs.Events.{Leads};
ghost use Rattle.yw_state.specs.Identity.{Ident, same};
ghost use Rattle.yw_state.specs.State.{State};
ghost use Rattle.yw_state.specs.Well.{IsWell};

use crate::Loose;
use crate::events::{done_at, is_rule, moved_case};
use std::alloc::{AllocError, Global};
use yw_base::Ident;
use yw_state::Event;
use yw_tree::Forest;

/// The identity of an item of a net, by its number; `None` where that is no number, or the net's identity is too long.
fn child(alloc: Global, net: &Ident, number: u64) -> Result<Option<Ident>, AllocError>
    ensures { IfOk result (λ found. SomeIff found (is_identity (child net.now number) ≡ true) (child net.now number)) }
{
    let numbers = net.numbers();
    let mut copy = Vec::with_capacity(alloc, numbers.len() + 1)?;
    copy.extend_from_slice(numbers)?;
    copy.push(number)?;
    Ok(Ident::from_numbers(copy))
}

impl Loose {
    /// Something may come of itself at this identity, where it is one.
    fn add_found(&mut self, found: Option<Ident>) -> Result<(), AllocError>
        ensures { OnOk result ((id : Ident) → SomeIff found (is_identity id ≡ true) id → Loosens self.old self.new (λ j. same j id)) }
    {
        match found {
            Some(id) => self.add(id),
            None => Ok(()),
        }
    }

    /// Something may come of itself at this identity, and at that of the net above.
    fn add_around(&mut self, alloc: Global, at: &Ident) -> Result<(), AllocError>
        ensures { OnOk result (Loosens self.old self.new (λ j. same j at.now || same j (parent at.now))) }
    {
        self.add(at.copy(alloc)?)?;
        self.add_found(at.parent(alloc)?)
    }

    /// Something may come of itself at one item of a net, whose number is so many after the first.
    fn add_item(&mut self, alloc: Global, net: &Ident, first: u64, k: u32) -> Result<(), AllocError>
        ensures { OnOk result (Loosens self.old self.new (λ j. same j (child net.now (first + k)))) }
    {
        match first.checked_add(u64::from(k)) {
            Some(number) => self.add_found(child(alloc, net, number)?),
            None => Ok(()),
        }
    }

    /// And at so many items, numbered from the first on.
    fn add_items(
        &mut self,
        alloc: Global,
        net: &Ident,
        first: u64,
        count: u32,
    ) -> Result<(), AllocError>
        ensures { OnOk result (Loosens self.old self.new (λ j. list_any (same j) (map (child net.now) (range_with_len first count)))) }
    {
        for k in 0..count {
            self.add_item(alloc, net, first, k)?;
        }
        Ok(())
    }

    /// And at the items that the event makes.
    fn add_made(&mut self, alloc: Global, event: &Event) -> Result<(), AllocError>
        ensures { OnOk result (Loosens self.old self.new (λ j. list_any (same j) (made_by event.now))) }
    {
        match event {
            Event::Enter {
                net,
                first,
                count,
                ..
            } => self.add_items(alloc, net, *first, *count),
            Event::Add { net, number, .. } => self.add_items(alloc, net, *number, 1),
            _ => Ok(()),
        }
    }

    /// Something may come of itself at all that an event may have set moving, which is done at an identity. Where nothing is known of its case,
    /// nothing is put in.
    fn add_at(&mut self, alloc: Global, at: &Ident, event: &Event) -> Result<(), AllocError>
        requires { done_at event.now ≡ Some at.now }
        ensures { OnOk result (Loosens self.old self.new (is_moved event.now)) }
    {
        // No work is done here: it says that it is an identity.
        let _ = at.numbers();
        if !self.known.contains(&at.case_number()) {
            return Ok(());
        }
        self.add_made(alloc, event)?;
        self.add_around(alloc, at)
    }

    /// Of the case in which another event may have set something moving nothing is known any more.
    fn forget_moved(&mut self, event: &Event)
        requires { done_at event.now ≡ None }
        ensures { Loosens self.old self.new (is_moved event.now) }
    {
        match moved_case(event) {
            Some(case) => self.forget_case(case),
            None => (),
        }
    }

    /// What an event may have set moving is loose, or nothing is known of its case any more.
    fn add_moved(&mut self, alloc: Global, event: &Event) -> Result<(), AllocError>
        ensures { OnOk result (Loosens self.old self.new (is_moved event.now)) }
    {
        match done_at(event) {
            Some(at) => self.add_at(alloc, at, event),
            None => {
                self.forget_moved(event);
                Ok(())
            }
        }
    }

    /// An event is done, and this is the forest behind it: what the event may have set moving is loose now, if its case is known, and what it
    /// completes is counted. Where it is of an exlet and suspends nothing, nothing is known of its case any more; where it adds a rule, or no memory is
    /// left, nothing of any case.
    pub fn after(&mut self, alloc: Global, forest: &Forest, event: &Event)
        ensures { (known : Holdings) (s t : State) → IsWell reader s → IsHeld known forest.now t → Leads reader s event.now t
            → IsRested s self.old → IsRested t self.new }
    {
        if is_rule(event) {
            self.forget();
            return;
        }
        self.counts.after(alloc, forest, event);
        match self.add_moved(alloc, event) {
            Ok(()) => (),
            Err(AllocError) => self.forget(),
        }
    }
}
