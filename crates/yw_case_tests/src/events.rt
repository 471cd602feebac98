// Which events the server does.
ghost use Rattle.std.specs.Prelude.{◌≡◌};
ghost use Rattle.yw_built.specs.Built.{is_built};

use yw_state::Event;

/// It is of neither a rule tree nor the run of an exlet.
pub fn is_built(event: &Event) -> bool
    ensures { result ≡ is_built event.now }
{
    match event {
        Event::Person { .. }
        | Event::Load { .. }
        | Event::Launch { .. }
        | Event::Enter { .. }
        | Event::Start { .. }
        | Event::Complete { .. }
        | Event::Exit { .. }
        | Event::Add { .. }
        | Event::Finish { .. }
        | Event::Cancel { .. }
        | Event::StartSub { .. }
        | Event::CompleteSub { .. }
        | Event::CompleteEmpty { .. }
        | Event::Suspend { .. }
        | Event::Continue { .. }
        | Event::Advance { .. } => true,
        _ => false,
    }
}
