// What lines ask, by their words: one function for each, with one `let` a field.
ghost use Rattle.std.specs.Prelude.{◌≡◌, IfErr};
ghost use Rattle.serde_json.specs.View.{view};
ghost use Rattle.yw_lines.specs.Shapes.{add_shape, advance_shape, cancel_shape, complete_shape, continue_shape, ended_shape, enter_shape, launch_shape, list_shape, load_shape, person_shape, raise_shape, rule_shape, shape_of, show_shape, specs_shape, start_shape, suspend_shape};
ghost use Rattle.yw_wire.specs.Faults.{Says};

use crate::fault::FieldFault;
use crate::fields::{asked_by, field};
use crate::kinds::{line_text, raised_kind};
use serde_json::Value as JsonValue;
use std::alloc::Global;
use yw_lines::Word;
use yw_state::{Asked, Command, Query};

#[tactic(auto, unfolding(yw_lines::specs::Shapes::person_shape))]
fn person_asked(alloc: Global, line: &JsonValue) -> Result<Asked, FieldFault>
    ensures { Says result (person_shape (view line.now)) }
{
    let name = field(alloc, line, "name")?;
    let roles = field(alloc, line, "roles")?;
    asked_by(line, 3, Asked::Command(Command::Person { name, roles }))
}

#[tactic(auto, unfolding(yw_lines::specs::Shapes::load_shape))]
fn load_asked(alloc: Global, line: &JsonValue) -> Result<Asked, FieldFault>
    ensures { Says result (load_shape (view line.now)) }
{
    let toml = line_text(alloc, line, "toml")?;
    asked_by(line, 2, Asked::Command(Command::Load { toml }))
}

#[tactic(auto, unfolding(yw_lines::specs::Shapes::rule_shape))]
fn rule_asked(alloc: Global, line: &JsonValue) -> Result<Asked, FieldFault>
    ensures { Says result (rule_shape (view line.now)) }
{
    let spec = field(alloc, line, "spec")?;
    let net = field(alloc, line, "net")?;
    let task = field(alloc, line, "task")?;
    let kind = field(alloc, line, "kind")?;
    let at = field(alloc, line, "at")?;
    let side = field(alloc, line, "side")?;
    let when = field(alloc, line, "when")?;
    let conclusion = field(alloc, line, "then")?;
    asked_by(
        line,
        9,
        Asked::Command(Command::Rule {
            spec,
            net,
            task,
            kind,
            at,
            side,
            when,
            conclusion,
        }),
    )
}

#[tactic(auto, unfolding(yw_lines::specs::Shapes::launch_shape))]
fn launch_asked(alloc: Global, line: &JsonValue) -> Result<Asked, FieldFault>
    ensures { Says result (launch_shape (view line.now)) }
{
    let spec = field(alloc, line, "spec")?;
    let values = field(alloc, line, "data")?;
    asked_by(line, 3, Asked::Command(Command::Launch { spec, values }))
}

#[tactic(auto, unfolding(yw_lines::specs::Shapes::enter_shape))]
fn enter_asked(alloc: Global, line: &JsonValue) -> Result<Asked, FieldFault>
    ensures { Says result (enter_shape (view line.now)) }
{
    let who = field(alloc, line, "who")?;
    let case = field(alloc, line, "case")?;
    let task = field(alloc, line, "task")?;
    asked_by(line, 4, Asked::Command(Command::Enter { who, case, task }))
}

#[tactic(auto, unfolding(yw_lines::specs::Shapes::start_shape))]
fn start_asked(alloc: Global, line: &JsonValue) -> Result<Asked, FieldFault>
    ensures { Says result (start_shape (view line.now)) }
{
    let who = field(alloc, line, "who")?;
    let item = field(alloc, line, "item")?;
    asked_by(line, 3, Asked::Command(Command::Start { who, item }))
}

#[tactic(auto, unfolding(yw_lines::specs::Shapes::complete_shape))]
fn complete_asked(alloc: Global, line: &JsonValue) -> Result<Asked, FieldFault>
    ensures { Says result (complete_shape (view line.now)) }
{
    let who = field(alloc, line, "who")?;
    let item = field(alloc, line, "item")?;
    let out = field(alloc, line, "out")?;
    asked_by(
        line,
        4,
        Asked::Command(Command::Complete { who, item, out }),
    )
}

#[tactic(auto, unfolding(yw_lines::specs::Shapes::add_shape))]
fn add_asked(alloc: Global, line: &JsonValue) -> Result<Asked, FieldFault>
    ensures { Says result (add_shape (view line.now)) }
{
    let who = field(alloc, line, "who")?;
    let case = field(alloc, line, "case")?;
    let task = field(alloc, line, "task")?;
    let value = field(alloc, line, "value")?;
    asked_by(
        line,
        5,
        Asked::Command(Command::Add {
            who,
            case,
            task,
            value,
        }),
    )
}

#[tactic(auto, unfolding(yw_lines::specs::Shapes::raise_shape))]
fn raise_asked(alloc: Global, line: &JsonValue) -> Result<Asked, FieldFault>
    ensures { Says result (raise_shape (view line.now)) }
{
    let at = field(alloc, line, "at")?;
    let kind = raised_kind(line)?;
    asked_by(line, 3, Asked::Command(Command::Raise { at, kind }))
}

#[tactic(auto, unfolding(yw_lines::specs::Shapes::suspend_shape))]
fn suspend_asked(alloc: Global, line: &JsonValue) -> Result<Asked, FieldFault>
    ensures { Says result (suspend_shape (view line.now)) }
{
    let at = field(alloc, line, "at")?;
    asked_by(line, 2, Asked::Command(Command::Suspend { at }))
}

#[tactic(auto, unfolding(yw_lines::specs::Shapes::continue_shape))]
fn continue_asked(alloc: Global, line: &JsonValue) -> Result<Asked, FieldFault>
    ensures { Says result (continue_shape (view line.now)) }
{
    let at = field(alloc, line, "at")?;
    asked_by(line, 2, Asked::Command(Command::Continue { at }))
}

#[tactic(auto, unfolding(yw_lines::specs::Shapes::cancel_shape))]
fn cancel_asked(alloc: Global, line: &JsonValue) -> Result<Asked, FieldFault>
    ensures { Says result (cancel_shape (view line.now)) }
{
    let case = field(alloc, line, "case")?;
    asked_by(line, 2, Asked::Command(Command::Cancel { case }))
}

#[tactic(auto, unfolding(yw_lines::specs::Shapes::advance_shape))]
fn advance_asked(alloc: Global, line: &JsonValue) -> Result<Asked, FieldFault>
    ensures { Says result (advance_shape (view line.now)) }
{
    let case = field(alloc, line, "case")?;
    asked_by(line, 2, Asked::Command(Command::Advance { case }))
}

#[tactic(auto, unfolding(yw_lines::specs::Shapes::list_shape))]
fn list_asked(alloc: Global, line: &JsonValue) -> Result<Asked, FieldFault>
    ensures { Says result (list_shape (view line.now)) }
{
    let who = field(alloc, line, "who")?;
    asked_by(line, 2, Asked::Query(Query::List { who }))
}

#[tactic(auto, unfolding(yw_lines::specs::Shapes::show_shape))]
fn show_asked(alloc: Global, line: &JsonValue) -> Result<Asked, FieldFault>
    ensures { Says result (show_shape (view line.now)) }
{
    let case = field(alloc, line, "case")?;
    asked_by(line, 2, Asked::Query(Query::Show { case }))
}

#[tactic(auto, unfolding(yw_lines::specs::Shapes::ended_shape))]
fn ended_asked(alloc: Global, line: &JsonValue) -> Result<Asked, FieldFault>
    ensures { Says result (ended_shape (view line.now)) }
{
    let case = field(alloc, line, "case")?;
    asked_by(line, 2, Asked::Query(Query::Ended { case }))
}

#[tactic(auto, unfolding(yw_lines::specs::Shapes::specs_shape))]
fn specs_asked(line: &JsonValue) -> Result<Asked, FieldFault>
    ensures says { Says result (specs_shape (view line.now)) }
    ensures takes_none { IfErr result (λ fault. fault ≡ FieldFault.Kind) }
{
    asked_by(line, 1, Asked::Query(Query::Specs))
}

/// What a line with this word asks. It is `Kind` exactly where the line has another shape than the word's,
/// unless memory ran out.
pub fn shape_of(alloc: Global, word: Word, line: &JsonValue) -> Result<Asked, FieldFault>
    ensures { Says result (shape_of word (view line.now)) }
{
    match word {
        Word::Person => person_asked(alloc, line),
        Word::Load => load_asked(alloc, line),
        Word::Rule => rule_asked(alloc, line),
        Word::Launch => launch_asked(alloc, line),
        Word::Enter => enter_asked(alloc, line),
        Word::Start => start_asked(alloc, line),
        Word::Complete => complete_asked(alloc, line),
        Word::Add => add_asked(alloc, line),
        Word::Raise => raise_asked(alloc, line),
        Word::Suspend => suspend_asked(alloc, line),
        Word::Continue => continue_asked(alloc, line),
        Word::Cancel => cancel_asked(alloc, line),
        Word::Advance => advance_asked(alloc, line),
        Word::List => list_asked(alloc, line),
        Word::Show => show_asked(alloc, line),
        Word::Ended => ended_asked(alloc, line),
        Word::Specs => specs_asked(line),
    }
}
