// What is seen at identities is listed anew.
ghost use Rattle.std.specs.Prelude.{◌≡◌, ◌∷◌, [], ℕ, List, IfOk, OnOk};
ghost use Rattle.yw_open.specs.Opens.{IsHeldUnchosen};
ghost use Rattle.yw_state.proofs.Entries.{IsIn};
ghost use Rattle.yw_state.specs.State.{State, is_suspended, opening};
ghost use Rattle.yw_idents.specs.Idents.{lent};
ghost use Rattle.yw_tree.specs.Forest.{IsForest, sites_of};
ghost use Rattle.yw_work.specs.Holds.{has_run};
ghost use Rattle.yw_worklist.specs.Lists.{AreCases, IsListed, IsSeen, Looks, StandsIn};

use crate::Lists;
use crate::lists::Seen;
use std::alloc::{AllocError, Global};
use std::collections::BTreeSet;
use yw_base::Ident;
use yw_idents::idents_in;
use yw_known::Known;
use yw_open::opens_at;
use yw_tree::{Forest, Spot};

/// Whether what stands at an identity is suspended, and whether it is a run.
fn marks_at(forest: &Forest, at: &Ident) -> (bool, bool)
    ensures { (names : ℕ → List ℕ) (s : State) → IsForest forest.now
        → s.sites ≡ sites_of names forest.now
        → (result.0 ≡ is_suspended s at.now) × (result.1 ≡ has_run s at.now) }
{
    match forest.find(at) {
        Some(Spot::Case(case)) => (case.suspended, false),
        Some(Spot::Item(node)) => (node.suspended, false),
        Some(Spot::Run(_run)) => (false, true),
        None => (false, false),
    }
}

fn see(alloc: Global, known: &Known, forest: &Forest, at: &Ident) -> Result<Seen, AllocError>
    ensures { IfOk result (λ seen. (s : State) → IsHeldUnchosen known.now forest.now s
        → IsSeen s at.now seen) }
{
    let opens = opens_at(alloc, known, forest, at)?;
    let (suspended, run) = marks_at(forest, at);
    Ok(Seen {
        opens,
        suspended,
        run,
    })
}

impl Lists {
    fn look(
        &mut self,
        alloc: Global,
        known: &Known,
        forest: &Forest,
        at: &Ident,
    ) -> Result<(), AllocError>
        ensures { OnOk result (Looks known.now forest.now self.old self.new (λ s j. at.now ≡ j)) }
    {
        let seen = see(alloc, known, forest, at)?;
        self.put(alloc, at, seen)
    }

    /// What is seen at these identities is listed anew. An `Err` says that no memory was left.
    pub(crate) fn look_all(
        &mut self,
        alloc: Global,
        known: &Known,
        forest: &Forest,
        ids: &BTreeSet<Ident>,
    ) -> Result<(), AllocError>
        ensures { OnOk result (Looks known.now forest.now self.old self.new
            (λ s. IsIn ids.now.keys)) }
    {
        for at in ids {
            self.look(alloc, known, forest, at)?;
        }
        Ok(())
    }

    fn look_each(
        &mut self,
        alloc: Global,
        known: &Known,
        forest: &Forest,
        ids: &Vec<&Ident>,
    ) -> Result<(), AllocError>
        ensures { OnOk result (Looks known.now forest.now self.old self.new
            (λ s. IsIn (lent ids.now.items))) }
    {
        for at in ids {
            self.look(alloc, known, forest, at)?;
        }
        Ok(())
    }

    /// What is seen in a case is listed.
    fn look_case(
        &mut self,
        alloc: Global,
        known: &Known,
        forest: &Forest,
        n: u64,
    ) -> Result<(), AllocError>
        ensures { OnOk result (Looks known.now forest.now self.old self.new (StandsIn (n ∷ []))) }
    {
        match forest.case(n) {
            Some(case) => self.look_each(alloc, known, forest, &idents_in(alloc, case)?),
            None => Ok(()),
        }
    }

    fn look_cases(
        &mut self,
        alloc: Global,
        known: &Known,
        forest: &Forest,
        cases: &[u64],
    ) -> Result<(), AllocError>
        ensures { OnOk result (Looks known.now forest.now self.old self.new (StandsIn cases.now)) }
    {
        for n in cases {
            self.look_case(alloc, known, forest, *n)?;
        }
        Ok(())
    }

    /// The lists of the opening state, in which nobody is known and nothing stands. It takes no memory.
    pub fn opening(alloc: Global) -> Lists
        ensures { IsListed opening result }
    {
        Lists::blank(alloc)
    }

    /// The lists of the state that what is known and a forest stand for, where no other case stands than those with these numbers. A number of
    /// none is passed over. An `Err` says that no memory was left.
    pub fn new(
        alloc: Global,
        known: &Known,
        forest: &Forest,
        cases: &[u64],
    ) -> Result<Lists, AllocError>
        ensures { IfOk result (λ lists. (s : State) → IsHeldUnchosen known.now forest.now s
            → AreCases s cases.now → IsListed s lists) }
    {
        let mut lists = Lists::blank(alloc);
        lists.look_cases(alloc, known, forest, cases)?;
        lists.people.ask_all(alloc, known)?;
        Ok(lists)
    }
}
