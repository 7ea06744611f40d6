//! What is printed of a command.

ghost use Rattle.script_model.specs.Answers.{first_of, further, made_by, made_frame, made_object, made_server};
ghost use Rattle.script_model.specs.Answers.{objects_from, opened_as, opened_by, told_line, told_text};
ghost use Rattle.script_model.specs.declared.answer.Told.TheVariants as told;
ghost use Rattle.std.specs.Prelude.{◌≡◌, ◌<◌, ◌++◌, ◌∷◌, ◌^◌, [], OnOk, length};

use container_model::answer::Answer;
use script_model::answer::Told;
use std::alloc::{AllocError, Global};
use text_spelling::writing::push_numbered;

/// The server that was started, or that it was done.
fn made_server(server: Option<u32>) -> Told
    ensures { result ≡ made_server server }
{
    match server {
        Some(inc) => Told::Server(inc),
        None => Told::Done,
    }
}

/// The first object that was made, or else what was started.
fn made_object(objects: &[u32], server: Option<u32>) -> Told
    ensures { result ≡ made_object objects.now server }
{
    match objects {
        [object, ..] => Told::Object(*object),
        [] => made_server(server),
    }
}

/// What a command made, or that it was done.
pub fn made_by(answer: &Answer) -> Told
    ensures { result ≡ made_by answer.now }
{
    match answer.frame {
        Some(frame) => Told::Frame(frame),
        None => made_object(answer.objects.as_slice(), answer.server),
    }
}

/// The first number of a list.
fn first_of(objects: &[u32]) -> u32
    ensures { result ≡ first_of objects.now }
{
    match objects {
        [object, ..] => *object,
        [] => 0,
    }
}

/// What was made of a file that was opened: its frame, and how many objects from which number on.
pub fn opened_by(answer: &Answer) -> Told
    requires { length answer.now.objects < 2 ^ 32 }
    ensures { result ≡ opened_by answer.now }
{
    let objects = answer.objects.as_slice();
    match answer.frame {
        Some(frame) => Told::Opened(frame, first_of(objects), objects.len() as u32),
        None => Told::Done,
    }
}

/// A command that made nothing tells what was noticed first meanwhile: that an object refused a call, or that a save
/// was lost.
pub fn further(told: Told, noticed: Option<Told>) -> Told
    ensures { result ≡ further told noticed }
{
    match (told, noticed) {
        (Told::Done, Some(notice)) => notice,
        _ => told,
    }
}

/// Writes so many objects, from this number on.
fn push_objects(alloc: Global, text: &mut Vec<u8>, first: u32, count: u32) -> Result<(), AllocError>
    ensures { OnOk result (text.new.items ≡ text.old.items ++ objects_from first count) }
{
    for place in 0..count {
        push_numbered(alloc, text, " object ", first as usize + place as usize)?;
    }
    Ok(())
}

/// Writes a frame that was made of a file, and its objects.
fn push_opened(
    alloc: Global,
    text: &mut Vec<u8>,
    frame: u32,
    first: u32,
    count: u32,
) -> Result<(), AllocError>
    ensures { OnOk result (text.new.items ≡ text.old.items ++ told_text (told.Opened frame first count)) }
{
    push_numbered(alloc, text, "frame ", frame as usize)?;
    push_objects(alloc, text, first, count)
}

/// Writes what is told of a command.
fn push_text(alloc: Global, text: &mut Vec<u8>, told: Told) -> Result<(), AllocError>
    ensures { OnOk result (text.new.items ≡ text.old.items ++ told_text told) }
{
    match told {
        Told::Frame(frame) => push_numbered(alloc, text, "frame ", frame as usize),
        Told::Object(object) => push_numbered(alloc, text, "object ", object as usize),
        Told::Server(inc) => push_numbered(alloc, text, "server ", inc as usize),
        Told::Refused(refusal) => push_numbered(
            alloc,
            text,
            "refused ",
            usize::from(refusal.code()),
        ),
        Told::Done => {
            text.extend_from_slice(b"ok".as_slice())?;
            Ok(())
        }
        Told::Fault(fault) => {
            text.extend_from_slice(fault.name().as_bytes())?;
            Ok(())
        }
        Told::Lost(fault) | Told::Unread(fault) => {
            text.extend_from_slice(fault.name().as_bytes())?;
            Ok(())
        }
        Told::Opened(frame, first, count) => push_opened(alloc, text, frame, first, count),
    }
}

/// Writes the line of a command.
pub fn push_told(alloc: Global, text: &mut Vec<u8>, told: Told) -> Result<(), AllocError>
    ensures { OnOk result (text.new.items ≡ text.old.items ++ told_line told) }
{
    push_text(alloc, text, told)?;
    text.push(b'\n')?;
    Ok(())
}
