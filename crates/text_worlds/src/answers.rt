//! What is printed of the answers of events.

ghost use Rattle.text_worlds.specs.Answers.{answer_line, answer_text, asked_text, made_text, outcome_text, stop_line};
ghost use Rattle.text_worlds.specs.Answers.{told_text};
ghost use Rattle.std.specs.List.{flat_map};
ghost use Rattle.std.specs.Prelude.{◌≡◌, ◌++◌, OnOk};
ghost use Rattle.text_spelling.specs.Written.{numbered};

use std::alloc::{AllocError, Global};
use text_spelling::writing::{push_numbered, push_word};
use world_model::event::Stop;
use world_model::logs::{EventAnswer, Outcome};

/// Writes the line of an event.
pub fn push_answer(
    alloc: Global,
    text: &mut Vec<u8>,
    event: usize,
    answer: &EventAnswer,
) -> Result<(), AllocError>
    ensures { OnOk result (text.new.items ≡ text.old.items ++ answer_line event answer.now) }
{
    push_numbered(alloc, text, "", event)?;
    push_text(alloc, text, answer)?;
    text.extend_from_slice(b"\n")
}

/// Writes the line of a stop before an event.
pub fn push_stop(
    alloc: Global,
    text: &mut Vec<u8>,
    event: usize,
    stop: Stop,
) -> Result<(), AllocError>
    ensures { OnOk result (text.new.items ≡ text.old.items ++ stop_line event stop) }
{
    push_numbered(alloc, text, "stop ", event)?;
    push_word(text, stop.name().as_bytes())?;
    text.extend_from_slice(b"\n")
}

/// Writes an answer.
fn push_text(alloc: Global, text: &mut Vec<u8>, answer: &EventAnswer) -> Result<(), AllocError>
    ensures { OnOk result (text.new.items ≡ text.old.items ++ answer_text answer.now) }
{
    match answer {
        EventAnswer::Took(outcome) => push_outcome(alloc, text, outcome),
        EventAnswer::Refused(fault) => push_word(text, fault.name().as_bytes()),
        EventAnswer::Dropped(fault) => push_word(text, fault.name().as_bytes()),
    }
}

/// Writes what an event led to.
fn push_outcome(alloc: Global, text: &mut Vec<u8>, outcome: &Outcome) -> Result<(), AllocError>
    ensures { OnOk result (text.new.items ≡ text.old.items ++ outcome_text outcome.now) }
{
    let before = text.len();
    push_made(alloc, text, outcome)?;
    push_told(alloc, text, outcome)?;
    push_asked(alloc, text, outcome)?;
    if text.len() == before {
        text.extend_from_slice(b" ok")
    } else {
        Ok(())
    }
}

/// Writes what an event made.
fn push_made(alloc: Global, text: &mut Vec<u8>, outcome: &Outcome) -> Result<(), AllocError>
    ensures { OnOk result (text.new.items ≡ text.old.items ++ made_text outcome.now) }
{
    if let Some(frame) = outcome.frame {
        push_numbered(alloc, text, " frame ", frame as usize)?;
    }
    push_each(alloc, text, " object ", outcome.objects.as_slice())?;
    match outcome.server {
        Some(server) => push_numbered(alloc, text, " server ", server as usize),
        None => Ok(()),
    }
}

/// Writes what became of a call.
fn push_told(alloc: Global, text: &mut Vec<u8>, outcome: &Outcome) -> Result<(), AllocError>
    ensures { OnOk result (text.new.items ≡ text.old.items ++ told_text outcome.now) }
{
    if outcome.taken {
        text.extend_from_slice(b" taken")?;
    }
    if let Some(refusal) = outcome.refused {
        push_numbered(alloc, text, " refused ", usize::from(refusal.code()))?;
    }
    if outcome.no_tools {
        text.extend_from_slice(b" notools")
    } else {
        Ok(())
    }
}

/// Writes what is asked of the world.
fn push_asked(alloc: Global, text: &mut Vec<u8>, outcome: &Outcome) -> Result<(), AllocError>
    ensures { OnOk result (text.new.items ≡ text.old.items ++ asked_text outcome.now) }
{
    push_each(alloc, text, " sent ", outcome.sent.as_slice())?;
    push_each(alloc, text, " commit ", outcome.commits.as_slice())
}

/// Writes numbers, each of them behind a text.
fn push_each(
    alloc: Global,
    text: &mut Vec<u8>,
    before: &str,
    numbers: &[u32],
) -> Result<(), AllocError>
    ensures { OnOk result (text.new.items ≡ text.old.items ++ flat_map (numbered before.now) numbers.now) }
{
    for number in numbers {
        push_numbered(alloc, text, before, *number as usize)?;
    }
    Ok(())
}
