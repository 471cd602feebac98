// What is upstream of each place.
ghost use Rattle.std.specs.Prelude.{◌≡◌, ◌+◌, ◌*◌, ◌/◌, ◌^◌, ◌<◌, ◌↔◌, ℕ, [], IfOk, IsTrue, get_or, length, map};
ghost use Rattle.std.specs.Int.{bit_at};
ghost use Rattle.std.specs.List.{list_any};
ghost use Rattle.yw_mark.specs.Tokens.{is_marked};
ghost use Rattle.yw_spec.specs.declared.spec.Net.{Net};
ghost use Rattle.yw_spec.specs.declared.task.Task.{Task};

use crate::bits::BitRow;
use crate::closure::close;
use crate::direct::{direct_rows, tasks_into};
use crate::places::row_numbers;
use std::alloc::{AllocError, Global};
use yw_base::Items;
use yw_mark::{is_any_marked, is_marked};
use yw_spec::{IndexList, Net};
use yw_state::Marks;

/// The tasks upstream of each place of a net: those that have a path to it. It is kept as a row of bits for each task, with one more for a
/// place to which none or several tasks lead, and the input places of each task.
#[derive(Debug, Drop)]
pub struct Upstream {
    rows: Vec<BitRow>,
    row_numbers: Vec<usize>,
    inputs: Vec<IndexList>,
}

/// The input places of each task.
fn inputs_of(alloc: Global, net: &Net) -> Result<Vec<IndexList>, AllocError>
    ensures { IfOk result (λ v. v.items ≡ map (λ (t : Task). t.before) net.now.tasks) }
{
    let mut inputs = Vec::new(alloc);
    for task in net.tasks.as_slice() {
        inputs.push(Items::from_vec(Vec::from_slice(alloc, task.before.as_slice())?))?;
    }
    Ok(inputs)
}

impl Upstream {
    ghost use Rattle.yw_path.specs.Direct.{HasItsPlaces};
    ghost use Rattle.yw_path.specs.Bits.{Has};
    ghost use Rattle.yw_path.specs.Upstream.{IsUpstreamOf, is_source, row_of};
    ghost use Rattle.yw_path.specs.Waiting.{MayStillCome};

    /// What is upstream of each place of a net, whether the net has cycles or not. An `Err` says that no memory was left.
    ///
    /// It takes time as the third power of the number of tasks, by 64 bits at a time.
    pub fn build(alloc: Global, net: &Net) -> Result<Upstream, AllocError>
        requires { HasItsPlaces net.now }
        ensures { IfOk result (IsUpstreamOf net.now) }
    {
        let into = tasks_into(alloc, net)?;
        let mut rows = direct_rows(alloc, net, &into)?;
        close(alloc, &mut rows)?;
        let row_numbers = row_numbers(alloc, net.tasks.as_slice().len(), &mut rows, &into)?;
        let inputs = inputs_of(alloc, net)?;
        Ok(Upstream {
            rows,
            row_numbers,
            inputs,
        })
    }

    /// The bits of the tasks upstream of a place from 64 times w on.
    fn word_of(&self, c: usize, w: usize) -> u64
        ensures { result ≡ get_or (row_of self.now c) w 0 }
    {
        match self.row_numbers.get(c) {
            None => 0,
            Some(number) => match self.rows.get(*number) {
                None => 0,
                Some(row) => row.word(w),
            },
        }
    }

    /// An input place of the task is marked.
    fn has_marked_input(&self, u: usize, marks: &Marks) -> bool
        ensures { result ≡ list_any (is_marked marks.now) (get_or self.now.inputs.items u []) }
    {
        match self.inputs.get(u) {
            None => false,
            Some(places) => is_any_marked(marks, places.as_slice()),
        }
    }

    /// The task is active, or one of its input places is marked.
    fn is_source(&self, u: usize, marks: &Marks, active: &[bool]) -> bool
        ensures { result ≡ is_source self.now marks.now active.now u }
    {
        let is_active = active.get(u).copied().unwrap_or(false);
        is_active || self.has_marked_input(u, marks)
    }

    /// A task of these bits, from `first` on, is active or has a marked input place.
    fn has_source(&self, word: u64, first: usize, marks: &Marks, active: &[bool]) -> bool
        requires { first + 64 < 2 ^ 64 }
        ensures { IsTrue result ↔ ((b : ℕ) × (b < 64) × (bit_at word b ≡ 1) × IsTrue (is_source self.now marks.now active.now (first + b))) }
    {
        for b in 0..64 {
            if (word >> b) & 1 == 1 && self.is_source(first + b, marks, active) {
                return true;
            }
        }
        false
    }

    /// A task upstream of the place is active or has a marked input place.
    fn has_source_upstream(&self, c: usize, marks: &Marks, active: &[bool]) -> bool
        ensures { IsTrue result ↔ ((w : ℕ) × (b : ℕ) × (w < length self.now.inputs.items / 64 + 1) × (b < 64)
            × (bit_at (get_or (row_of self.now c) w 0) b ≡ 1) × IsTrue (is_source self.now marks.now active.now (64 * w + b))) }
    {
        for w in 0..self.inputs.len() / 64 + 1 {
            if self.has_source(self.word_of(c, w), 64 * w, marks, active) {
                return true;
            }
        }
        false
    }

    /// A token may still come to the place, or is there: a marked place or an active task has a path to it, in the net of
    /// which this is the upstream. `active` has a value for each task. It takes no memory.
    pub fn may_still_come(&self, c: usize, marks: &Marks, active: &[bool]) -> bool
        ensures { (net : Net) → IsUpstreamOf net self.now → IsTrue result ↔ MayStillCome net marks.now active.now c }
    {
        is_marked(marks, c) || self.has_source_upstream(c, marks, active)
    }
}
