//! Messages of a server, as rows spell them: also such as no server of the program sends.

use crate::shown::seen;
use crate::words::{halves, number};
use cfb_names::name::named;
use container_core::container::ContainerCore;
use container_model::answer::Answer;
use container_model::fault::ContainerFault;
use container_model::server_link::ServerLink;
use message_values::answer::Answer as Reply;
use message_values::message::{Message, Said};
use object_state::Menus;
use std::alloc::Global;
use std::process::Abort;
use test_marks::marks::{begin, end};
use tree_streams::limits::MOST_BYTES;
use tree_streams::stored::Stored;
use tree_streams::streams::NamedStream;
use tree_values::bytes::Bytes;

fn bytes(rt: &impl Abort, alloc: Global, bytes: &[u8]) -> Bytes {
    Bytes::from_slice(alloc, bytes).expect(rt, "memory")
}

fn push(rt: &impl Abort, alloc: Global, content: &mut Stored, name: &[u8], stream: &[u8]) {
    let name = named(name).expect(rt, "a name");
    let bytes = bytes(rt, alloc, stream);
    content
        .streams
        .push(NamedStream { name, bytes })
        .expect(rt, "the next name");
}

/// A content of two streams and a picture.
fn small(rt: &impl Abort, alloc: Global) -> Stored {
    let mut content = Stored::new(alloc);
    push(rt, alloc, &mut content, b"B", &[4]);
    push(rt, alloc, &mut content, b"AA", &[5, 6]);
    content.picture = bytes(rt, alloc, &[7]);
    content
}

/// A content of one byte more than may be stored.
fn large(rt: &impl Abort, alloc: Global) -> Stored {
    let mut content = Stored::new(alloc);
    let bytes = vec![in alloc; 0; MOST_BYTES + 1].expect(rt, "memory");
    content.picture = Bytes::from_vec(alloc, bytes).expect(rt, "memory");
    content
}

fn content(rt: &impl Abort, alloc: Global, word: &str) -> Stored {
    match word.as_bytes() {
        [b'l', ..] => large(rt, alloc),
        _ => small(rt, alloc),
    }
}

/// Three texts, and no border space.
fn tools(rt: &impl Abort) -> Reply {
    let menus = Menus::new(b"Edit", b"Note", b"Help").expect(rt, "three texts");
    Reply::Tools {
        menus,
        border: [0; 4],
    }
}

fn answer(rt: &impl Abort, alloc: Global, word: &str) -> Reply {
    match word.as_bytes() {
        [b'd', ..] => Reply::Done,
        [b't', ..] => tools(rt),
        _ => Reply::Content(content(rt, alloc, word)),
    }
}

/// `reply N WORD` to call N: `done`, `tools`, or a content that is `small` or `large`; `write S WORD` of a content
/// under grant S, with S as its number; `ask G` to be relieved of the frame that is held under grant G.
fn said(rt: &impl Abort, alloc: Global, from: (u32, u32), row: &str) -> Said {
    let (verb, rest) = halves(row, " ");
    let (n, word) = halves(rest, " ");
    let n = number(n);
    let (inc, act) = from;
    match verb.as_bytes() {
        [b'a', ..] => Said::Ask { inc, act, g: n },
        [b'r', ..] => Said::Reply {
            inc,
            act,
            n,
            answer: answer(rt, alloc, word),
        },
        _ => Said::Write {
            inc,
            act,
            s: n,
            w: n,
            content: content(rt, alloc, word),
        },
    }
}

/// What a container answers to a message.
fn hear(
    alloc: Global,
    core: &mut ContainerCore,
    link: ServerLink,
    message: Message,
) -> Result<Answer, ContainerFault> {
    begin(alloc);
    let answer = core.on_message(alloc, link, message);
    end(alloc);
    answer
}

/// The same. Where memory is refused, the container is as before, and hears the message again.
fn heard(
    rt: &impl Abort,
    alloc: Global,
    core: &mut ContainerCore,
    link: ServerLink,
    message: Message,
) -> Result<Answer, ContainerFault> {
    let again = message.copy(alloc).expect(rt, "memory");
    let before = seen(rt, alloc, core);
    match hear(alloc, core, link, message) {
        Err(ContainerFault::NoMemory) => {
            assert!(rt; seen(rt, alloc, core) == before);
            hear(alloc, core, link, again)
        }
        answer => answer,
    }
}

/// What a container answers to a message of its own session on the link of a server, which says that it is of this
/// server and this activation.
pub(crate) fn messaged(
    rt: &impl Abort,
    alloc: Global,
    core: &mut ContainerCore,
    link: u32,
    from: (u32, u32),
    row: &str,
) -> Result<Answer, ContainerFault> {
    let session = core.session();
    let link = ServerLink { session, inc: link };
    let said = said(rt, alloc, from, row);
    heard(rt, alloc, core, link, Message { session, said })
}

/// What a container answers to a message that says that it is of session 2, of activation 1 of server 1 there. It comes
/// on the link of server 1 of the session that is given.
pub(crate) fn messaged_in(
    rt: &impl Abort,
    alloc: Global,
    core: &mut ContainerCore,
    session: u32,
    row: &str,
) -> Result<Answer, ContainerFault> {
    let link = ServerLink { session, inc: 1 };
    let said = said(rt, alloc, (1, 1), row);
    heard(rt, alloc, core, link, Message { session: 2, said })
}
