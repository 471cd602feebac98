// What queries are told. They change nothing.
ghost use Rattle.std.specs.Prelude.{◌≡◌, None, Option, Some, false, IfOk, if◌then◌else◌};
ghost use Rattle.yw_engine.specs.Held.{state_of};
ghost use Rattle.yw_lines.specs.Ways.{way_text};
ghost use Rattle.yw_serve.specs.Plans.{IsPlanToTell};
ghost use Rattle.yw_state.specs.Answers.{ended_way};
ghost use Rattle.yw_state.specs.Identity.{is_case_ident};
ghost use Rattle.yw_state.specs.declared.command.Query.TheVariants as queries;

use crate::plan::{Plan, refuse_by};
use std::alloc::{AllocError, Global};
use yw_base::{Ident, Name, Text};
use yw_engine::Engine;
use yw_known::is_case;
use yw_office::Office;
use yw_state::{Query, Rule, Way};
use yw_wire::{reply_names, reply_rows, reply_shown, reply_text};
use yw_worklist::{show, spec_names};

/// All that stands in a case is told; `UnknownCase` comes where no case has this identity.
fn plan_show(alloc: Global, engine: &Engine, n: u64, case: &Ident) -> Result<Plan, AllocError>
    requires { engine.now.spent ≡ false }
    ensures { IfOk result (IsPlanToTell (state_of engine.now) n (queries.Show case.now)) }
{
    // No work is done here: it says that the engine's state is that of what is known and of the cases that stand.
    engine.is_held();
    let (known, forest) = (engine.known(), engine.forest());
    if !is_case(forest, case) {
        return refuse_by(alloc, n, Rule::UnknownCase);
    }
    let shown = show(alloc, known, forest, case.case_number())?;
    Ok(Plan::Say(reply_shown(alloc, n, &shown)?))
}

/// How the case at an identity ended, or `None` where no case that is over has it.
fn ended_way(engine: &Engine, case: &Ident) -> Option<Way>
    ensures { result ≡ if is_case_ident case.now then ended_way (state_of engine.now) case.now else None }
{
    match case.numbers() {
        [number] => engine.ended(*number),
        _ => None,
    }
}

fn way_text(way: Way) -> &'static str
    ensures { result.now ≡ way_text way }
{
    match way {
        Way::Finished => "finished",
        Way::Cancelled => "cancelled",
        Way::Removed => "removed",
    }
}

/// How a case ended is told; `UnknownCase` comes where no case that is over has this identity.
fn plan_ended(alloc: Global, engine: &Engine, n: u64, case: &Ident) -> Result<Plan, AllocError>
    ensures { IfOk result (IsPlanToTell (state_of engine.now) n (queries.Ended case.now)) }
{
    match ended_way(engine, case) {
        Some(way) => {
            let text = Text::copy_of(alloc, way_text(way))?;
            Ok(Plan::Say(reply_text(alloc, n, &text)?))
        }
        None => refuse_by(alloc, n, Rule::UnknownCase),
    }
}

/// The names of the specifications that are loaded are told.
fn plan_specs(alloc: Global, engine: &Engine, n: u64) -> Result<Plan, AllocError>
    requires { engine.now.spent ≡ false }
    ensures { IfOk result (IsPlanToTell (state_of engine.now) n queries.Specs) }
{
    // No work is done here: it says that the engine's specifications are those that are known.
    engine.is_held();
    let names = spec_names(alloc, engine.library())?;
    Ok(Plan::Say(reply_names(alloc, n, &names)?))
}

/// What a person may do is told; `UnknownPerson` comes where nobody has this name.
fn plan_list(alloc: Global, office: &Office, n: u64, who: &Name) -> Result<Plan, AllocError>
    ensures { IfOk result (IsPlanToTell (state_of office.now) n (queries.List who.now)) }
{
    match office.rows(who)? {
        Some(rows) => Ok(Plan::Say(reply_rows(alloc, n, &rows)?)),
        None => refuse_by(alloc, n, Rule::UnknownPerson),
    }
}

/// What is to be said to a query: its answer, or the first rule that it breaks. Nothing changes. An `Err` says that no memory was left, now or
/// once before.
pub fn plan_query(alloc: Global, office: &Office, n: u64, query: &Query) -> Result<Plan, AllocError>
    ensures { IfOk result (IsPlanToTell (state_of office.now) n query.now) }
{
    if office.is_spent() {
        return Err(AllocError);
    }
    let engine = office.engine();
    match query {
        Query::List { who } => plan_list(alloc, office, n, who),
        Query::Show { case } => plan_show(alloc, engine, n, case),
        Query::Ended { case } => plan_ended(alloc, engine, n, case),
        Query::Specs => plan_specs(alloc, engine, n),
    }
}
