// Specifications: nets, what they keep and where they lead.
ghost use Rattle.std.specs.Prelude.{◌≡◌, IfOk, string_bytes};
ghost use Rattle.yw_spec.specs.Net.{arrow_text, place_text};

use crate::Task;
use std::alloc::{AllocError, Global};
use yw_base::{Items, Name, Sort, Usage, Value};

/// A process as it is loaded: nets, of which the top one is a case's own. The paper's specification.
#[derive(Debug, Drop)]
pub struct Spec {
    /// The name under which it is loaded.
    pub name: Name,
    /// The number of the top net among `nets`.
    pub top: usize,
    /// The nets in document order.
    pub nets: NetList,
}

/// Nets in order.
pub type NetList = Items<Net>;

/// A net of places and tasks. The paper's extended workflow net.
#[derive(Debug, Drop)]
pub struct Net {
    /// Its name, which no other net of the specification has.
    pub name: Name,
    /// The number of the input among `places`, where a token stands when the net begins.
    pub input: usize,
    /// The number of the output among `places`, where a token ends the net.
    pub output: usize,
    /// The input, the output, the conditions in document order, and behind them the implicit places in the
    /// order of their flows.
    pub places: PlaceList,
    /// The tasks in document order.
    pub tasks: TaskList,
    /// The variables in document order.
    pub vars: VarList,
}

/// Places in order.
pub type PlaceList = Items<Place>;

/// Tasks in order.
pub type TaskList = Items<Task>;

/// Variables in order.
pub type VarList = Items<Var>;

/// Where tokens stand.
#[derive(Debug, Drop)]
pub enum Place {
    /// The input, the output or a condition, by its name.
    Named(Name),
    /// The implicit place of a flow from one task to another, by their names.
    Between(Name, Name),
}

/// The text of the implicit place of a flow from one task to another: `t->u`. An `Err` says that no memory was left.
pub fn arrow_text(alloc: Global, from: &str, to: &str) -> Result<String, AllocError>
    ensures { IfOk result (λ text. string_bytes text ≡ arrow_text from.now to.now) }
{
    let mut text = String::from_str(alloc, from)?;
    text.push_str("->")?;
    text.push_str(to)?;
    Ok(text)
}

impl Place {
    /// The text by which the place is known in its net: a condition's name, or `t->u`. An `Err` says that no memory was left.
    pub fn text(&self, alloc: Global) -> Result<String, AllocError>
        ensures { IfOk result (λ text. string_bytes text ≡ place_text self.now) }
    {
        match self {
            Place::Named(name) => String::from_str(alloc, name.as_str()),
            Place::Between(from, to) => arrow_text(alloc, from.as_str(), to.as_str()),
        }
    }
}

/// A variable of a net. The passing of values by usage is our own.
#[derive(Debug, Drop)]
pub struct Var {
    /// Its name, which no other variable of the net has.
    pub name: Name,
    /// The sort of its values.
    pub sort: Sort,
    /// Whether a value comes in at the net's beginning, and goes out at its end.
    pub usage: Usage,
    /// Its value at the beginning, where none comes in. It is of the variable's sort.
    pub init: Value,
}
