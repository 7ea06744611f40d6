//! What servers answer, as rows spell it.

use crate::calls::SESSION;
use crate::words::{are, number, word};
use message_values::answer::Answer;
use message_values::message::{Message, Said};
use message_values::refusal::Refusal as Why;
use object_core::tally::Tally;
use object_core::{Stored, classes};
use object_state::ObjectState;
use server_core::refusal::{Reaction, Refusal};
use server_model::activation_view::ActivationView;
use server_model::counted::Counted;
use server_model::hold::Hold;
use std::str::SplitWhitespace;
use tree_values::class_id::ClassId;

/// The picture of a note of `abc`, as it is written.
const PICTURE: [u8; 52] =
    *b"\x0c\0\0\0OleCon Text\0\x04\0\0\0\x01\0\0\0\xff\xff\xff\xff\x02\0\0\0\0\0\0\0\x03\0\0\0\x01\0\0\0\x04\0\0\0abc\n";

/// The bytes of the first stream of a content.
fn first(content: &Stored) -> &[u8] {
    match content.streams.as_slice().first() {
        Some(stream) => stream.bytes.as_slice(),
        None => &[],
    }
}

/// Whether a content is that of a note of `abc`, with its picture.
fn is_abc(content: &Stored) -> bool {
    first(content) == b"abc".as_slice() && content.picture.as_slice() == PICTURE.as_slice()
}

fn answer_name(answer: &Answer) -> &'static str {
    match answer {
        Answer::Done => "Done",
        Answer::Refused(Why::BadContent) => "BadContent",
        Answer::Refused(Why::AlreadyInitialized) => "AlreadyInitialized",
        Answer::Content(content) if is_abc(content) => "Content-abc",
        Answer::Content(content) if content.picture.len() == 0 => "Content-unpictured",
        Answer::Tools { .. } => "Tools",
        _ => "another answer",
    }
}

/// Whether a server sends this of its own accord, in its session: a write of `abc` by its storage grant and its number,
/// or what it asks.
pub(crate) fn is_sent(message: &Message, words: &mut SplitWhitespace<'_>) -> bool {
    message.session == SESSION && is_said(&message.said, words)
}

fn is_said(said: &Said, words: &mut SplitWhitespace<'_>) -> bool {
    match said {
        Said::Write { s, w, content, .. } => {
            word(words) == "Write" && are(words, &[*s, *w]) && is_abc(content)
        }
        Said::Ask {
            inc: 1,
            act: 5,
            g: 7,
        } => word(words) == "Ask",
        _ => false,
    }
}

fn is_reply(reply: &Message, words: &mut SplitWhitespace<'_>) -> bool {
    match &reply.said {
        Said::Reply { answer, .. } => {
            reply.session == SESSION && word(words) == answer_name(answer)
        }
        _ => false,
    }
}

fn is_numbered(said: &Said, words: &mut SplitWhitespace<'_>) -> bool {
    match said {
        Said::Reply {
            inc,
            act,
            n,
            answer,
        } => are(words, &[*inc, *act, *n]) && word(words) == answer_name(answer),
        _ => false,
    }
}

/// Whether a reply is of the session, and has these numbers and this answer.
pub(crate) fn is_last(reply: Option<Message>, words: &mut SplitWhitespace<'_>) -> bool {
    match &reply {
        Some(reply) => reply.session == SESSION && is_numbered(&reply.said, words),
        None => word(words) == "none",
    }
}

/// A class, by the object that has it.
pub(crate) fn class_name(class: Option<ClassId>) -> &'static str {
    match class {
        Some(class) if class == classes::note() => "note",
        Some(_) => "another class",
        None => "none",
    }
}

fn is_counted(counted: &Option<Counted>, words: &mut SplitWhitespace<'_>) -> bool {
    match counted {
        Some(counted) => word(words) == "counted" && are(words, &[counted.act, counted.k]),
        None => true,
    }
}

fn is_back(back: bool, tally: &Tally, words: &mut SplitWhitespace<'_>) -> bool {
    !back || (word(words) == "back" && number(word(words)) == tally.count())
}

/// Whether this became of a call, this was counted, and the object came back or not: then how many were dropped by
/// then.
pub(crate) fn is_outcome(
    outcome: &Result<Reaction, Refusal>,
    tally: &Tally,
    words: &mut SplitWhitespace<'_>,
) -> bool {
    match outcome {
        Ok(
            Reaction {
                reply,
                counted,
                back,
            },
        ) => {
            is_reply(reply, words)
                && is_counted(counted, words)
                && is_back(back.is_some(), tally, words)
        }
        Err(Refusal { fault, back }) => {
            word(words) == fault.name() && is_back(back.is_some(), tally, words)
        }
    }
}

fn state_name(state: ObjectState) -> &'static str {
    match state {
        ObjectState::UiActive => "UiActive",
        _ => "another",
    }
}

/// Whether this is seen of an activation: its class, that it is open, its state, the storage grant, its last call, the
/// grant of its frame, and its last write.
pub(crate) fn is_view(view: Option<ActivationView>, words: &mut SplitWhitespace<'_>) -> bool {
    match view {
        Some(view) => {
            view.opened
                && word(words) == class_name(Some(view.class))
                && word(words) == state_name(view.states.object)
                && are(words, &[view.s, view.last, view.g.unwrap_or(0), view.w])
        }
        None => word(words) == "none",
    }
}

/// Whether these activations have a grant, each with it.
pub(crate) fn are_holds(holds: &[Hold], words: &mut SplitWhitespace<'_>) -> bool {
    for hold in holds {
        if !are(words, &[hold.act, hold.g]) {
            return false;
        }
    }
    true
}
