//! What containers answer, as rows spell it.

use crate::words::{names, word};
use container_model::answer::{Action, Answer};
use container_model::fault::ContainerFault;
use message_values::message::{Message, Said};
use message_values::operation::Operation;
use std::str::SplitWhitespace;

fn operation_name(operation: &Operation) -> &'static str {
    match operation {
        Operation::InitNew(_) => "InitNew",
        Operation::Edit(_) => "Edit",
        Operation::Save(_) => "Save",
        Operation::HandsOff => "HandsOff",
        Operation::SaveCompleted { .. } => "SaveCompleted",
        Operation::SaveDropped(_) => "SaveDropped",
        Operation::InPlace => "InPlace",
        Operation::UiActivate(_) => "UiActivate",
        Operation::UiDeactivate => "UiDeactivate",
        Operation::Close(_) => "Close",
        _ => "another",
    }
}

fn call_name(inc: u32, act: u32) -> &'static str {
    match (inc, act) {
        (1, 1) => "call",
        (2, 2) => "other",
        _ => "astray",
    }
}

/// Whether a message is this call, in session 1: of activation 1 of server 1 a `call`, of activation 2 of server 2 an
/// `other` one.
fn is_call(message: &Message, words: &mut SplitWhitespace<'_>) -> bool {
    match &message.said {
        Said::Call {
            inc,
            act,
            n,
            operation,
        } => message.session == 1
            && names(words, call_name(*inc, *act), *n)
            && word(words) == operation_name(operation),
        _ => false,
    }
}

/// Whether these calls are sent once more.
pub(crate) fn are_calls(calls: &[Message], words: &mut SplitWhitespace<'_>) -> bool {
    for call in calls {
        if !is_call(call, words) {
            return false;
        }
    }
    true
}

fn is_action(action: &Action, words: &mut SplitWhitespace<'_>) -> bool {
    match action {
        Action::Send(message) => is_call(message, words),
        Action::Start(inc) => names(words, "start", *inc),
        Action::End(inc) => names(words, "end", *inc),
        Action::Commit(frame) => names(words, "commit", *frame),
    }
}

fn are_actions(actions: &[Action], words: &mut SplitWhitespace<'_>) -> bool {
    for action in actions {
        if !is_action(action, words) {
            return false;
        }
    }
    true
}

fn is_made(made: &str, n: Option<u32>, words: &mut SplitWhitespace<'_>) -> bool {
    match n {
        Some(n) => names(words, made, n),
        None => true,
    }
}

/// Whether this was made, and then is to be done.
fn is_answer(answer: &Answer, words: &mut SplitWhitespace<'_>) -> bool {
    let object = answer.objects.as_slice().first().copied();
    is_made("frame", answer.frame, words)
        && is_made("object", object, words)
        && is_made("server", answer.server, words)
        && (!answer.taken || word(words) == "taken")
        && are_actions(answer.actions.as_slice(), words)
}

/// Whether a fault has this name.
pub(crate) fn is_fault(fault: ContainerFault, words: &mut SplitWhitespace<'_>) -> bool {
    word(words) == fault.name()
}

/// Whether a container answers this.
pub(crate) fn is_answered(
    answer: Result<Answer, ContainerFault>,
    words: &mut SplitWhitespace<'_>,
) -> bool {
    match answer {
        Ok(answer) => is_answer(&answer, words),
        Err(fault) => is_fault(fault, words),
    }
}
