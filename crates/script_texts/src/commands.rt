//! Texts of scripts.

ghost use Rattle.text_words.specs.Words.{words};
ghost use Rattle.text_worlds.specs.Events.{open_in, sole_number};
ghost use Rattle.script_texts.specs.Commands.{command_in, command_of, command_read, is_open, link_in, link_named};
ghost use Rattle.std.specs.Prelude.{◌≡◌, IfErr, IfOk, IsSome};

use script_model::command::ScriptCommand;
use std::alloc::{AllocError, Global};
use text_io::lines::Grammar;
use text_words::words::{Pieces, cut, number};
use text_worlds::events;
use text_worlds::lines::parse_line;
use world_model::event::Event;

/// The commands of a script.
pub struct Commands;

impl Grammar for Commands {
    type Line = ScriptCommand;

    ghost use Rattle.script_texts.specs.Commands.{line_read};

    ghost read = { line_read };

    fn parse(
        alloc: Global,
        _number: usize,
        line: &[u8],
    ) -> Result<Option<ScriptCommand>, AllocError> {
        let command = parse(alloc, line)?;
        Ok(command)
    }
}

/// A number that stands alone.
fn sole_number(rest: &[u8]) -> Option<u32>
    ensures { result ≡ sole_number (words rest.now) }
{
    let mut words = Pieces::new(rest, b' ');
    let (Some(word), None) = (words.next_piece(), words.next_piece()) else {
        return None;
    };
    number(word)
}

/// The command of a link, or of a frame, that a name and the number behind its space spell.
fn link_named(name: &[u8], rest: &[u8]) -> Option<ScriptCommand>
    ensures { result ≡ link_named name.now (sole_number (words rest.now)) }
{
    if name == b"cut".as_slice() {
        Some(ScriptCommand::Cut(sole_number(rest)?))
    } else if name == b"hold".as_slice() {
        Some(ScriptCommand::Hold(sole_number(rest)?))
    } else if name == b"release".as_slice() {
        Some(ScriptCommand::Release(sole_number(rest)?))
    } else if name == b"screen".as_slice() {
        Some(ScriptCommand::Screen(sole_number(rest)?))
    } else {
        None
    }
}

/// The command that an event is.
fn command_of(event: Event) -> Option<ScriptCommand>
    ensures { result ≡ command_of event }
{
    match event {
        Event::Command(command) => Some(ScriptCommand::Container(command)),
        Event::Open(name, width, height) => Some(ScriptCommand::Open(name, width, height)),
        Event::Deliver(_)
        | Event::Forge(_, _)
        | Event::Crash(_, _)
        | Event::Reap(_)
        | Event::Done(_)
        | Event::Fail(_)
        | Event::Resolve(_, _)
        | Event::Scribble(_, _, _)
        | Event::Ask(_, _, _) => None,
    }
}

/// The command of a link that a line spells.
fn link_command(line: &[u8]) -> Option<ScriptCommand>
    ensures { result ≡ link_in (words line.now) }
{
    match cut(line, b' ') {
        (name, Some(rest)) => link_named(name, rest),
        (_, None) => None,
    }
}

/// Whether the first word of a line is that of a file to be opened.
fn is_open(line: &[u8]) -> bool
    ensures { result ≡ is_open (words line.now) }
{
    match cut(line, b' ') {
        (name, _) => name == b"open".as_slice(),
    }
}

/// The file to be opened that a line spells. Memory is taken for a line that spells one.
#[tactic(auto, using(crate::proofs::Lines::files))]
fn open_command(alloc: Global, line: &[u8]) -> Result<Option<ScriptCommand>, AllocError>
    ensures read { IfOk result (λ command. command ≡ command_in (open_in (words line.now))) }
    ensures within { IfErr result (λ _. IsSome (command_in (open_in (words line.now)))) }
{
    if !is_open(line) {
        return Ok(None);
    }
    match parse_line(alloc, line) {
        Ok(Some(event)) => Ok(command_of(event)),
        Ok(None) => Ok(None),
        Err(fault) => Err(fault),
    }
}

/// The command that a line spells. Memory is taken for a line that spells one.
#[tactic(auto, using(crate::proofs::Lines::spellings))]
fn parse(alloc: Global, line: &[u8]) -> Result<Option<ScriptCommand>, AllocError>
    ensures read { IfOk result (λ command. command ≡ command_read line.now) }
    ensures within { IfErr result (λ _. IsSome (command_read line.now)) }
{
    match link_command(line) {
        Some(command) => return Ok(Some(command)),
        None => {}
    }
    match open_command(alloc, line)? {
        Some(command) => return Ok(Some(command)),
        None => {}
    }
    match events::parse(alloc, line) {
        Ok(Some(event)) => Ok(command_of(event)),
        Ok(None) => Ok(None),
        Err(fault) => Err(fault),
    }
}
