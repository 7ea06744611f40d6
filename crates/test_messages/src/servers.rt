//! Servers: the calls that they take, and what they make of them. The table is a text, a line each: what a server is
//! told or asked, and the answer behind ` =>`; and the functions have no contracts: so the test is quick to prove.

use crate::calls::{SESSION, call};
use crate::objects::handed;
use crate::replies::{are_holds, class_name, is_last, is_outcome, is_sent, is_view};
use crate::words::{halves, number, word};
use message_values::message::Message;
use object_core::embedded::Embedded;
use object_core::tally::Tally;
use server_core::refusal::{Reaction, Refusal};
use server_core::server::ServerCore;
use server_model::fault::ServerFault;
use server_model::hold::Hold;
use std::alloc::{AllocError, Global};
use std::process::Abort;
use std::str::SplitWhitespace;
use test_marks::marks::{begin, end};

/// Calls by incarnation, activation and number, with the object that is handed in: the reply or the fault, and `back`
/// where the object comes back, with how many were dropped by then. A load is given a picture that isn't the object's.
/// `other`: the same call, but of another session, which does nothing.
/// `dropped`: how many objects were dropped so far, `end`: how many once the server is; then the next lines are of a
/// new one. In the last, objects are dropped as their activations are closed: by either close, and by a refused
/// InitNew; and what stands in a closed one's place is another's.
const ROWS: &str = "1 5 1 note init note => Done
1 5 1 note init note => Done back 0
dropped => 1
end => 2
1 5 1 note load \x07 => BadContent
dropped => 3
1 5 1 note load \x07 => BadContent back 3
1 5 2 - edit i 0 a => Ignored
dropped => 4
end => 4
1 5 1 - load a => NeedObject
1 5 1 table load a => WrongClass back 4
2 5 1 - in_place => WrongIncarnation
dropped => 5
end => 5
1 5 1 note init note => Done
other 1 5 1 - init note => WrongIncarnation
other 1 5 2 - close => WrongIncarnation
other 1 6 1 - init note => WrongIncarnation
last 5 => 1 5 1 Done
last 6 => none
1 5 2 - edit i 0 abc => Done
1 5 3 - save 8 => Content-abc
1 5 4 - completed 8 => Done counted 5 8
dropped => 5
end => 6
1 5 1 note init note => Done
1 6 1 table init table => Done
1 5 2 - close => Done
dropped => 7
end => 8
1 1 1 note load abc => Done
last 1 => 1 1 1 Done
scribble 1 => Write 1 1
scribble 1 => Write 1 2
1 1 2 - save 8 => Content-abc
scribble 1 => Ignored
1 1 3 - completed 8 => Done counted 1 8
scribble 1 => Write 2 3
1 1 4 - close => Done
scribble 1 => Ignored
end => 9
1 5 1 note init note => Done
1 5 2 - save 8 => Content-unpictured
ask 5 => Ignored
end => 10
wants 1 5 1 - init note => note
1 5 1 note init note => Done
last 5 => 1 5 1 Done
1 5 2 - in_place => Done
holds =>
1 5 3 - activate 7 => Tools
ask 5 => Ask
holds => 5 7
1 3 1 note init note => Done
1 3 2 - in_place => Done
1 3 3 - activate 9 => Tools
holds => 3 9 5 7
view 5 => note UiActive 1 3 7 0
view 6 => none
last 6 => none
wants 1 5 1 - init note => none
end => 12
1 5 1 note init note => Done
1 6 1 note load abc => Done
1 7 1 table init table => Done
1 6 2 - close => Done
dropped => 13
1 8 1 note load abc => Done
1 5 2 - edit i 0 x => Done
1 6 3 - save 1 => Ignored
1 8 2 - save 1 => Content-abc
1 9 1 note load abc => Done
1 9 2 - keep => Content-abc
dropped => 14
1 7 2 note init note => AlreadyInitialized back 15
dropped => 16
1 7 3 - in_place => Ignored
1 6 2 - close => Done
view 5 => note another 1 2 0 0
dropped => 16
end => 18";

fn new_server(alloc: Global) -> ServerCore {
    ServerCore::new(alloc, SESSION, 1, 9)
}

/// The greatest number of an activation in these rows.
const MOST: u32 = 9;

fn seen_of(core: &ServerCore, act: u32) -> [u32; 4] {
    match core.activation(act) {
        Some(view) => [view.s, view.last, view.g.unwrap_or(0), view.w],
        None => [u32::MAX; 4],
    }
}

/// What is seen of a server's activations.
fn seen(rt: &impl Abort, alloc: Global, core: &ServerCore) -> Vec<[u32; 4]> {
    let mut seen = Vec::new(alloc);
    for act in 0..=MOST {
        seen.push(seen_of(core, act)).expect(rt, "memory");
    }
    seen
}

fn on_call(
    core: &mut ServerCore,
    alloc: Global,
    message: Message,
    boxed: Option<Box<dyn Embedded>>,
) -> Result<Reaction, Refusal> {
    begin(alloc);
    let outcome = core.on_call(alloc, message, boxed);
    end(alloc);
    outcome
}

/// What a server does with a call. Where memory is refused, it is as before, and is called again with the object that
/// it gives back.
fn called(
    rt: &impl Abort,
    core: &mut ServerCore,
    alloc: Global,
    message: Message,
    boxed: Option<Box<dyn Embedded>>,
) -> Result<Reaction, Refusal> {
    let again = message.copy(alloc).expect(rt, "memory");
    let before = seen(rt, alloc, core);
    match on_call(core, alloc, message, boxed) {
        Err(
            Refusal {
                fault: ServerFault::NoMemory,
                back,
            },
        ) => {
            assert!(rt; seen(rt, alloc, core) == before);
            on_call(core, alloc, again, back)
        }
        outcome => outcome,
    }
}

fn is_called(
    rt: &impl Abort,
    alloc: Global,
    core: &mut ServerCore,
    tally: &Tally,
    session: u32,
    row: &str,
    words: &mut SplitWhitespace<'_>,
) -> bool {
    let (object, message) = call(rt, alloc, session, row);
    let object = handed(rt, alloc, tally, object);
    is_outcome(&called(rt, core, alloc, message, object), tally, words)
}

fn sends(message: Result<Message, ServerFault>, words: &mut SplitWhitespace<'_>) -> bool {
    match message {
        Ok(message) => is_sent(&message, words),
        Err(fault) => word(words) == fault.name(),
    }
}

fn last_reply_once(
    alloc: Global,
    core: &ServerCore,
    act: u32,
) -> Result<Option<Message>, AllocError> {
    begin(alloc);
    let reply = core.last_reply(alloc, act);
    end(alloc);
    reply
}

fn last_reply(rt: &impl Abort, alloc: Global, core: &ServerCore, act: u32) -> Option<Message> {
    match last_reply_once(alloc, core, act) {
        Ok(reply) => reply,
        Err(_) => last_reply_once(alloc, core, act).expect(rt, "memory"),
    }
}

fn holds_once(alloc: Global, core: &ServerCore) -> Result<Vec<Hold>, AllocError> {
    begin(alloc);
    let holds = core.holds(alloc);
    end(alloc);
    holds
}

fn holds(rt: &impl Abort, alloc: Global, core: &ServerCore) -> Vec<Hold> {
    match holds_once(alloc, core) {
        Ok(holds) => holds,
        Err(_) => holds_once(alloc, core).expect(rt, "memory"),
    }
}

fn scribbled(alloc: Global, core: &mut ServerCore, act: u32) -> Result<Message, ServerFault> {
    begin(alloc);
    let message = core.scribble(alloc, act);
    end(alloc);
    message
}

/// What an activation writes. Where memory is refused, its server is as before, and is asked again.
fn scribble(
    rt: &impl Abort,
    alloc: Global,
    core: &mut ServerCore,
    act: u32,
) -> Result<Message, ServerFault> {
    let before = seen(rt, alloc, core);
    match scribbled(alloc, core, act) {
        Err(ServerFault::NoMemory) => {
            assert!(rt; seen(rt, alloc, core) == before);
            scribbled(alloc, core, act)
        }
        message => message,
    }
}

fn wanted(rt: &impl Abort, alloc: Global, core: &ServerCore, row: &str) -> &'static str {
    let (_, message) = call(rt, alloc, SESSION, row);
    class_name(core.wants(&message))
}

fn is_asked(
    rt: &impl Abort,
    alloc: Global,
    core: &mut ServerCore,
    tally: &Tally,
    row: &str,
    words: &mut SplitWhitespace<'_>,
) -> bool {
    let (verb, rest) = halves(row, " ");
    match verb.as_bytes() {
        [b's', ..] => sends(scribble(rt, alloc, core, number(rest)), words),
        [b'a', ..] => sends(core.ask_deactivate(number(rest)), words),
        [b'v', ..] => is_view(core.activation(number(rest)), words),
        [b'l', ..] => is_last(last_reply(rt, alloc, core, number(rest)), words),
        [b'w', ..] => word(words) == wanted(rt, alloc, core, rest),
        [b'h', ..] => are_holds(&holds(rt, alloc, core), words),
        [b'd', ..] => number(word(words)) == tally.count(),
        [b'e', ..] => is_renewed(alloc, core, tally, words),
        [b'o', ..] => is_called(rt, alloc, core, tally, SESSION + 1, rest, words),
        _ => is_called(rt, alloc, core, tally, SESSION, row, words),
    }
}

/// Drops a server, puts a new one in its place, and answers whether so many objects are dropped by then.
fn is_renewed(
    alloc: Global,
    core: &mut ServerCore,
    tally: &Tally,
    words: &mut SplitWhitespace<'_>,
) -> bool {
    *core = new_server(alloc);
    number(word(words)) == tally.count()
}

/// Whether a server answers what the row wants.
fn answers(
    rt: &impl Abort,
    alloc: Global,
    core: &mut ServerCore,
    tally: &Tally,
    row: &str,
) -> bool {
    let (row, want) = halves(row, " =>");
    let mut words = want.split_whitespace();
    is_asked(rt, alloc, core, tally, row, &mut words) && word(&mut words).is_empty()
}

#[test]
fn servers_answer_what_they_are_told(rt: HostRuntime) {
    let tally = Tally::new(rt.alloc()).expect(&rt, "memory");
    let mut core = new_server(rt.alloc());
    for row in ROWS.split('\n') {
        assert!(rt; answers(&rt, rt.alloc(), &mut core, &tally, row), "{row}");
    }
}
