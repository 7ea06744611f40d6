//! The report of a world: a line for the container's session, for each frame, for each object, for each activation that
//! has a frame's grant, and for each content that was counted.

ghost use Rattle.std.specs.Io.KnownBytes.{Appends};
ghost use Rattle.std.specs.Fmt.{decimal};
ghost use Rattle.std.specs.List.{flat_map};
ghost use Rattle.std.specs.Prelude.{◌≡◌, ◌≢◌, ◌++◌, ◌∷◌, [], codes, IfErr, IfOk, OnOk};
ghost use Rattle.world_model.specs.Report.{container_line, content_text, done_line, file_word, frame_line, frame_lines};
ghost use Rattle.world_model.specs.Report.{further_text, grant_text, linked_text, object_line, object_state_name};
ghost use Rattle.world_model.specs.Report.{persist_state_name, report_of, server_line, session_line, state_text};
ghost use Rattle.world_model.specs.Report.{stream_text, type_text};
ghost use Rattle.text_words.specs.Spelled.{name_text};

use crate::holds::push_holds;
use container_model::answer::Done;
use container_model::record::{Frame, Link, Object, Phase};
use message_values::items::Items;
use object_core::classes;
use object_state::{GrantState, ObjectState, PersistState};
use server_model::hold::Hold;
use std::alloc::{AllocError, Global};
use std::io;
use std::io::Write;
use text_spelling::writing::{push_class, push_hex, push_name, push_numbered, push_word};
use tree_streams::streams::NamedStream;
use tree_values::class_id::ClassId;
use world_model::logs::ServerDone;

/// Why a report isn't written.
#[derive(Clone, Copy, PartialEq, Eq)]
pub enum ReportFault {
    /// No memory was left. Then nothing is written.
    NoMemory,
    /// A write failed.
    Unwritable,
}

/// Writes the report of a container's session, of these frames and objects, of who has a frame's grant, by server, and
/// of both logs: a line for the session, for each frame, for each object, for each of those, and for each content that
/// was counted, by the container and then by the servers.
///
/// Refused for want of memory, where nothing is written, and where a write fails.
pub fn write_report<W: Write>(
    alloc: Global,
    writer: &mut W,
    session: u32,
    frames: &[Frame],
    objects: &[Object],
    holds: &[Items<Hold>],
    container_done: &[Done],
    server_done: &[ServerDone],
) -> Result<(), ReportFault>
    ensures reported { OnOk result (Appends (W.contents writer.old) (W.contents writer.new)
        (report_of session frames.now objects.now holds.now container_done.now server_done.now)) }
    ensures unwritten { IfErr result (λ fault. fault ≢ ReportFault.Unwritable → writer.new ≡ writer.old) }
{
    let text = match report_text(
        alloc,
        session,
        frames,
        objects,
        holds,
        container_done,
        server_done,
    ) {
        Ok(text) => text,
        Err(_) => return Err(ReportFault::NoMemory),
    };
    match write_all(writer, &text) {
        Ok(()) => Ok(()),
        Err(_) => Err(ReportFault::Unwritable),
    }
}

/// Writes all bytes through to the writer's end.
fn write_all<W: Write>(writer: &mut W, bytes: &[u8]) -> io::Result<()>
    ensures { OnOk result (Appends (W.contents writer.old) (W.contents writer.new) bytes.now) }
{
    writer.write_all(bytes)?;
    writer.flush()?;
    Ok(())
}

/// The text of the report.
fn report_text(
    alloc: Global,
    session: u32,
    frames: &[Frame],
    objects: &[Object],
    holds: &[Items<Hold>],
    container_done: &[Done],
    server_done: &[ServerDone],
) -> Result<Vec<u8>, AllocError>
    ensures { IfOk result (λ text. text.items ≡ report_of session frames.now objects.now holds.now
        container_done.now server_done.now) }
{
    let mut text = Vec::new(alloc);
    push_session(alloc, &mut text, session)?;
    push_frames(alloc, &mut text, frames)?;
    push_objects(alloc, &mut text, objects)?;
    push_holds(alloc, &mut text, holds)?;
    push_container_done(alloc, &mut text, container_done)?;
    push_server_done(alloc, &mut text, server_done)?;
    Ok(text)
}

/// Writes the line of the container's session.
#[tactic(auto, unfolding(world_model::specs::Report::session_line))]
fn push_session(alloc: Global, text: &mut Vec<u8>, session: u32) -> Result<(), AllocError>
    ensures { OnOk result (text.new.items ≡ text.old.items ++ session_line session) }
{
    push_numbered(alloc, text, "session ", session as usize)?;
    text.push(b'\n')?;
    Ok(())
}

/// Writes the lines of frames, of which the first has number 1.
fn push_frames(alloc: Global, text: &mut Vec<u8>, frames: &[Frame]) -> Result<(), AllocError>
    ensures { OnOk result (text.new.items ≡ text.old.items ++ frame_lines 1 frames.now) }
{
    for (index, frame) in frames.iter().enumerate() {
        push_frame(alloc, text, index + 1, frame)?;
    }
    Ok(())
}

/// Writes a frame's line.
#[tactic(auto, unfolding(world_model::specs::Report::frame_line))]
fn push_frame(
    alloc: Global,
    text: &mut Vec<u8>,
    number: usize,
    frame: &Frame,
) -> Result<(), AllocError>
    ensures { OnOk result (text.new.items ≡ text.old.items ++ frame_line number frame.now) }
{
    push_frame_name(alloc, text, number, frame.name.as_slice())?;
    push_grant(alloc, text, frame.ui.state())?;
    push_numbered(alloc, text, " k ", frame.k as usize)?;
    push_word(text, file_word(frame).as_bytes())?;
    text.push(b'\n')?;
    Ok(())
}

/// Writes a frame's number and name.
fn push_frame_name(
    alloc: Global,
    text: &mut Vec<u8>,
    number: usize,
    name: &[u8],
) -> Result<(), AllocError>
    ensures { OnOk result (text.new.items ≡ text.old.items ++ codes "frame " ++ decimal number ++ 32
        ∷ name_text name.now ++ 32 ∷ []) }
{
    push_numbered(alloc, text, "frame ", number)?;
    text.push(b' ')?;
    push_name(text, name)?;
    text.push(b' ')?;
    Ok(())
}

/// Writes who has a frame or is to get it.
fn push_grant(alloc: Global, text: &mut Vec<u8>, state: GrantState) -> Result<(), AllocError>
    ensures { OnOk result (text.new.items ≡ text.old.items ++ grant_text state) }
{
    match state {
        GrantState::Free => text.extend_from_slice(b"Free".as_slice())?,
        GrantState::Granting(claim) => {
            push_numbered(alloc, text, "Granting ", claim.object as usize)?;
        }
        GrantState::Held { holder, .. } => {
            push_numbered(alloc, text, "Held ", holder.object as usize)?;
        }
        GrantState::Revoking { holder, .. } => {
            push_numbered(alloc, text, "Revoking ", holder.object as usize)?;
        }
    }
    Ok(())
}

/// Whether a frame has a file.
fn file_word(frame: &Frame) -> &'static str
    ensures { result.now ≡ file_word frame.now }
{
    match frame.phase {
        Phase::InDoubt => "doubt",
        _ if frame.stored => "stored",
        _ => "none",
    }
}

/// Writes the lines of objects.
fn push_objects(alloc: Global, text: &mut Vec<u8>, objects: &[Object]) -> Result<(), AllocError>
    ensures { OnOk result (text.new.items ≡ text.old.items ++ flat_map object_line objects.now) }
{
    for object in objects {
        push_object(alloc, text, object)?;
    }
    Ok(())
}

/// Writes an object's line.
#[tactic(auto, unfolding(world_model::specs::Report::object_line))]
fn push_object(alloc: Global, text: &mut Vec<u8>, object: &Object) -> Result<(), AllocError>
    ensures { OnOk result (text.new.items ≡ text.old.items ++ object_line object.now) }
{
    push_object_type(alloc, text, object)?;
    push_state(alloc, text, &object.link)?;
    text.push(b' ')?;
    push_content(text, object.work.streams.as_slice())?;
    text.push(b'\n')?;
    Ok(())
}

/// Writes an object's number, frame and type.
fn push_object_type(alloc: Global, text: &mut Vec<u8>, object: &Object) -> Result<(), AllocError>
    ensures { OnOk result (text.new.items ≡ text.old.items ++ codes "object " ++ decimal object.now.number
        ++ codes " frame " ++ decimal object.now.frame ++ 32 ∷ type_text object.now.class ++ 32 ∷ []) }
{
    push_numbered(alloc, text, "object ", object.number as usize)?;
    push_numbered(alloc, text, " frame ", object.frame as usize)?;
    text.push(b' ')?;
    push_type(text, &object.class)?;
    text.push(b' ')?;
    Ok(())
}

/// Writes the kind that a class is of, or its id where it is none of the three.
fn push_type(text: &mut Vec<u8>, class: &ClassId) -> Result<(), AllocError>
    ensures { OnOk result (text.new.items ≡ text.old.items ++ type_text class.now) }
{
    if *class == classes::note() {
        text.extend_from_slice(b"Note".as_slice())?;
    } else if *class == classes::table() {
        text.extend_from_slice(b"Table".as_slice())?;
    } else if *class == classes::drawing() {
        text.extend_from_slice(b"Drawing".as_slice())?;
    } else {
        push_class(text, class)?;
    }
    Ok(())
}

/// Writes the state of an object with this activation, or with none.
fn push_state(alloc: Global, text: &mut Vec<u8>, link: &Option<Link>) -> Result<(), AllocError>
    ensures { OnOk result (text.new.items ≡ text.old.items ++ state_text link.now) }
{
    match link {
        Some(link) => push_link(alloc, text, link)?,
        None => text.extend_from_slice(b"Passive".as_slice())?,
    }
    Ok(())
}

/// Writes an activation's states and numbers.
fn push_link(alloc: Global, text: &mut Vec<u8>, link: &Link) -> Result<(), AllocError>
    ensures { OnOk result (text.new.items ≡ text.old.items ++ linked_text link.now) }
{
    text.extend_from_slice(object_state_name(link.states.object).as_bytes())?;
    push_word(
        text,
        persist_state_name(link.states.persist.state).as_bytes(),
    )?;
    push_numbered(alloc, text, " act ", link.act as usize)?;
    push_numbered(alloc, text, " s ", link.s as usize)?;
    Ok(())
}

/// The name of the state of an object's window.
fn object_state_name(state: ObjectState) -> &'static str
    ensures { result.now ≡ object_state_name state }
{
    match state {
        ObjectState::Passive => "Passive",
        ObjectState::Loaded => "Loaded",
        ObjectState::Running => "Running",
        ObjectState::InPlaceActive => "InPlaceActive",
        ObjectState::UiActive => "UiActive",
        ObjectState::Open => "Open",
    }
}

/// The name of the state of an object's storage.
fn persist_state_name(state: PersistState) -> &'static str
    ensures { result.now ≡ persist_state_name state }
{
    match state {
        PersistState::Unset => "Unset",
        PersistState::Normal => "Normal",
        PersistState::NoScribble => "NoScribble",
        PersistState::HandsOff => "HandsOff",
    }
}

/// Writes the streams of a content, or `-` where there are none.
fn push_content(text: &mut Vec<u8>, streams: &[NamedStream]) -> Result<(), AllocError>
    ensures { OnOk result (text.new.items ≡ text.old.items ++ content_text streams.now) }
{
    match streams.split_first() {
        Some((first, rest)) => {
            push_stream(text, first)?;
            push_further(text, rest)?;
        }
        None => text.push(b'-')?,
    }
    Ok(())
}

/// Writes the streams behind the first.
fn push_further(text: &mut Vec<u8>, streams: &[NamedStream]) -> Result<(), AllocError>
    ensures { OnOk result (text.new.items ≡ text.old.items ++ flat_map further_text streams.now) }
{
    for stream in streams {
        text.push(b' ')?;
        push_stream(text, stream)?;
    }
    Ok(())
}

/// Writes a stream: its name and its bytes.
fn push_stream(text: &mut Vec<u8>, stream: &NamedStream) -> Result<(), AllocError>
    ensures { OnOk result (text.new.items ≡ text.old.items ++ stream_text stream.now) }
{
    push_name(text, stream.name.as_bytes())?;
    text.push(b'=')?;
    push_hex(text, stream.bytes.as_slice())?;
    Ok(())
}

/// Writes the lines of the contents that the container counted.
fn push_container_done(alloc: Global, text: &mut Vec<u8>, done: &[Done]) -> Result<(), AllocError>
    ensures { OnOk result (text.new.items ≡ text.old.items ++ flat_map container_line done.now) }
{
    for entry in done {
        push_container_line(alloc, text, entry)?;
    }
    Ok(())
}

/// Writes the line of a content that the container counted.
fn push_container_line(alloc: Global, text: &mut Vec<u8>, entry: &Done) -> Result<(), AllocError>
    ensures { OnOk result (text.new.items ≡ text.old.items ++ container_line entry.now) }
{
    push_done(alloc, text, "container", entry.object, entry.k)?;
    Ok(())
}

/// Writes the lines of the contents that servers counted.
fn push_server_done(
    alloc: Global,
    text: &mut Vec<u8>,
    done: &[ServerDone],
) -> Result<(), AllocError>
    ensures { OnOk result (text.new.items ≡ text.old.items ++ flat_map server_line done.now) }
{
    for entry in done {
        push_server_line(alloc, text, entry)?;
    }
    Ok(())
}

/// Writes the line of a content that a server counted.
fn push_server_line(alloc: Global, text: &mut Vec<u8>, entry: &ServerDone) -> Result<(), AllocError>
    ensures { OnOk result (text.new.items ≡ text.old.items ++ server_line entry.now) }
{
    push_done(alloc, text, "server", entry.object, entry.k)?;
    Ok(())
}

/// Writes the line of a content that this side counted.
#[tactic(auto, unfolding(world_model::specs::Report::done_line))]
fn push_done(
    alloc: Global,
    text: &mut Vec<u8>,
    side: &str,
    object: u32,
    k: u32,
) -> Result<(), AllocError>
    ensures { OnOk result (text.new.items ≡ text.old.items ++ done_line side.now object k) }
{
    text.extend_from_slice(b"done ".as_slice())?;
    text.extend_from_slice(side.as_bytes())?;
    push_numbered(alloc, text, " ", object as usize)?;
    push_numbered(alloc, text, " ", k as usize)?;
    text.push(b'\n')?;
    Ok(())
}
