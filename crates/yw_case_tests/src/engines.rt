// What no clause says: that an engine which is made of parts answers where memory is there, and tells what comes of itself.
ghost use Rattle.std.specs.Prelude.{IfSome};
ghost use Rattle.yw_built.specs.Asked.{CanBeAsked};

use crate::events::is_built;
use std::alloc::{AllocError, Global};
use yw_base::{Items, Name, Text};
use yw_cases::laws::opening_may_stand;
use yw_engine::Engine;
use yw_library::Parts;
use yw_state::{Command, Event, EventList, Way};

// A case that goes from its launch to its end by itself.
const ALONE: &str = r#"name = "alone"
top = "main"
[[net]]
name = "main"
input = "i"
output = "o"
flows = [["i","a"],["a","o"]]
[[net.task]]
name = "a"
kind = "empty"
"#;

/// Its text. The call promises nothing, so that no proof of a test holds its letters.
fn text() -> &'static str {
    ALONE
}

fn load(alloc: Global) -> Option<Command>
    ensures { IfSome result CanBeAsked }
{
    Some(Command::Load {
        toml: Text::copy_of(alloc, text()).ok()?,
    })
}

fn launch(alloc: Global) -> Option<Command>
    ensures { IfSome result CanBeAsked }
{
    Some(Command::Launch {
        spec: Name::read(alloc, "alone").ok()?,
        values: Items::new(alloc),
    })
}

/// An engine of the parts of the opening state.
fn of_parts(alloc: Global) -> Result<Engine, AllocError> {
    opening_may_stand();
    Engine::new(alloc, Parts::opening(alloc))
}

/// Something comes of itself in case 1.
fn goes_on(engine: &Engine) -> bool {
    matches!(engine.next_auto(1), Ok(Some(_)))
}

/// Nothing does.
fn is_quiet(engine: &Engine) -> bool {
    matches!(engine.next_auto(1), Ok(None))
}

fn applies(engine: &mut Engine, event: Event) -> bool {
    is_built(&event) && engine.apply(event).is_ok()
}

/// Applies the events, and counts behind how many of them something comes of itself.
fn applies_all(engine: &mut Engine, events: EventList) -> Option<u64> {
    let mut count: u64 = 0;
    for event in events.into_vec() {
        if !applies(engine, event) {
            return None;
        }
        if goes_on(engine) {
            count = count.saturating_add(1);
        }
    }
    Some(count)
}

fn loads(alloc: Global, first: &mut Engine, second: &mut Engine) -> bool {
    match load(alloc) {
        Some(command) => match first.decide(command) {
            Ok(decided) => applies_all(second, decided.events) == Some(0),
            Err(_) => false,
        },
        None => false,
    }
}

/// The case is launched, entered, completed and left, and is over: something comes behind each but the last.
fn launches(alloc: Global, first: &mut Engine, second: &mut Engine) -> bool {
    match launch(alloc) {
        Some(command) => match first.decide(command) {
            Ok(decided) => decided.quiet && applies_all(second, decided.events) == Some(4),
            Err(_) => false,
        },
        None => false,
    }
}

/// Case 1 is over, and a specification stands.
fn is_over(engine: &Engine) -> bool {
    is_quiet(engine)
        && engine.next() == 3
        && engine.ended(1) == Some(Way::Finished)
        && engine.forest().case(1).is_none()
        && engine.library().persons().is_empty()
        && engine.library().specs().len() == 1
}

/// One engine decides, and the other, which is made of parts, is given the events.
fn both_end(alloc: Global) -> bool {
    let mut first = Engine::opening(alloc);
    let Ok(mut second) = of_parts(alloc) else {
        return false;
    };
    loads(alloc, &mut first, &mut second)
        && launches(alloc, &mut first, &mut second)
        && is_over(&first)
        && is_over(&second)
}

#[test]
fn an_engine_of_parts_goes_on_from_events(rt: HostRuntime) {
    assert!(rt; both_end(rt.alloc()));
}
