// The work list of a person.
ghost use Rattle.std.specs.Prelude.{◌≡◌, ◌++◌, [], ◌∷◌, IfOk, OnOk, false};
ghost use Rattle.std.specs.List.{list_any};
ghost use Rattle.std.specs.Str.{bytes_eq};
ghost use Rattle.yw_state.specs.State.{State};
ghost use Rattle.yw_work.specs.Holds.{goes_on};
ghost use Rattle.yw_work.specs.Open.{admits};
ghost use Rattle.yw_worklist.specs.Fronts.{has_front};
ghost use Rattle.yw_worklist.specs.Lists.{IsListed};
ghost use Rattle.yw_worklist.specs.Rows.{IsToldWork, admitted, is_held, row_of, rows_at};

use crate::Lists;
use crate::found::ids_for;
use std::alloc::{AllocError, Global};
use yw_base::{Ident, Items, Name, NameList};
use yw_state::{WorkList, WorkRow};
use yw_work::{By, Open, held_is, rows_are_ordered, work_is_open};

fn has_name(names: &[Name], name: &Name) -> bool
    ensures { result ≡ list_any (bytes_eq name.now) names.now }
{
    names.iter().any(|other| name.as_str() == other.as_str())
}

/// It is for a person of this name with these roles.
fn admits(by: &By, who: &Name, roles: &NameList) -> bool
    ensures { result ≡ admits roles.now who.now by.now }
{
    match by {
        By::Anyone => true,
        By::Role(role) => has_name(roles.as_slice(), role),
        By::Person(name) => name.as_str() == who.as_str(),
    }
}

fn row(alloc: Global, at: &Ident, work: &Open) -> Result<WorkRow, AllocError>
    ensures { IfOk result (λ row. row ≡ row_of at.now work.now) }
{
    Ok(WorkRow {
        at: at.copy(alloc)?,
        task: work.task.copy()?,
        what: work.what,
    })
}

fn push_row(
    alloc: Global,
    who: &Name,
    roles: &NameList,
    at: &Ident,
    work: &Open,
    rows: &mut WorkList,
) -> Result<(), AllocError>
    ensures { OnOk result (rows.new
        ≡ rows.old ++ admitted roles.now who.now at.now (work.now ∷ [])) }
{
    if !admits(&work.by, who, roles) {
        return Ok(());
    }
    rows.push(row(alloc, at, work)?)
}

fn push_opens(
    alloc: Global,
    who: &Name,
    roles: &NameList,
    at: &Ident,
    opens: &[Open],
    rows: &mut WorkList,
) -> Result<(), AllocError>
    ensures { OnOk result (rows.new ≡ rows.old ++ admitted roles.now who.now at.now opens.now) }
{
    for work in opens {
        push_row(alloc, who, roles, at, work, rows)?;
    }
    Ok(())
}

impl Lists {
    /// Whether work is held at a front of an identity, where it is held above that or isn't.
    fn goes_on(&self, front: &[u64], above: bool) -> bool
        ensures { result ≡ goes_on
            (has_front self.now.marks front.now) (has_front self.now.runs front.now) above }
    {
        self.marks.has(front) || (above && !self.runs.has(front))
    }

    /// Work is held at this identity. While nothing is suspended nothing is looked up.
    fn is_held(&self, at: &Ident) -> bool
        ensures { result ≡ is_held self.now at.now }
    {
        if self.marks.is_empty() {
            return false;
        }
        let numbers = at.numbers();
        let mut held = self.goes_on(&[], false);
        for k in 0..numbers.len() {
            held = self.goes_on(&numbers[..k + 1], held);
        }
        held
    }

    /// What a person with these roles may do at an identity.
    fn push_rows(
        &self,
        alloc: Global,
        who: &Name,
        roles: &NameList,
        at: &Ident,
        rows: &mut WorkList,
    ) -> Result<(), AllocError>
        ensures { OnOk result (rows.new ≡ rows.old ++ rows_at self.now roles.now who.now at.now) }
    {
        if self.is_held(at) {
            return Ok(());
        }
        match self.places.get(at) {
            Some(opens) => push_opens(alloc, who, roles, at, opens.as_slice(), rows),
            None => Ok(()),
        }
    }

    /// What the person may do, in order of identity, then of the task's name: which tasks may be entered, which items started or completed;
    /// `None` where nobody has this name. Its cost grows with what is open for the person, held or not, and not with what stands. An `Err`
    /// says that no memory was left.
    pub fn rows(&self, alloc: Global, who: &Name) -> Result<Option<WorkList>, AllocError>
        ensures { IfOk result (λ found. (s : State) → IsListed s self.now
            → IsToldWork s who.now found) }
    {
        // No work is done here: these say what work is, when it is held, and how rows stand in order.
        work_is_open();
        held_is();
        rows_are_ordered();
        let Some(roles) = self.people.roles(who) else {
            return Ok(None);
        };
        let mut rows = Items::new(alloc);
        for at in ids_for(alloc, &self.offers, who, roles)? {
            self.push_rows(alloc, who, roles, at, &mut rows)?;
        }
        Ok(Some(rows))
    }
}
