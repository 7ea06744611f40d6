//! The session in which an event happens.

ghost use Rattle.std.specs.Prelude.{◌≡◌};
ghost use Rattle.world_model.specs.Story.{session_at, session_of, session_of_call};
ghost use Rattle.message_values.specs.Found.{nth};
ghost use Rattle.world_host.specs.View.{bare};

use container_checks::lookups::place;
use message_values::message::{Message, Said};
use world_host::host::Host;
use world_model::event::Event;

// The session of a message that is delivered: a call's own, as it may be to a server of an earlier run.
fn session_of_call(present: u32, message: &Message) -> u32
    ensures { result ≡ session_of_call present message.now message.now.said }
{
    match &message.said {
        Said::Call { .. } => message.session,
        Said::Reply { .. } | Said::Write { .. } | Said::Ask { .. } => present,
    }
}

// The session of the message at a place among those that were sent.
fn session_at(host: &Host, p: u32) -> u32
    ensures { result ≡ session_at host.now.core.session (nth host.now.sent.items p) }
{
    let present = host.core.session();
    match place(&host.sent, p) {
        Some(i) => session_of_call(present, &host.sent[i].message),
        None => present,
    }
}

// The session in which an event happens.
pub(crate) fn session_of(host: &Host, event: &Event) -> u32
    ensures { result ≡ session_of (bare host.now) event.now }
{
    match event {
        Event::Deliver(p) => session_at(host, *p),
        Event::Crash(session, _) => *session,
        Event::Scribble(session, _, _) => *session,
        Event::Ask(session, _, _) => *session,
        Event::Command(_)
        | Event::Forge(_, _)
        | Event::Reap(_)
        | Event::Done(_)
        | Event::Fail(_)
        | Event::Resolve(_, _)
        | Event::Open(_, _, _) => host.core.session(),
    }
}
