//! Frames as bytes.

ghost use Rattle.cfb_names.specs.Names.{IsName};
ghost use Rattle.message_bytes.specs.Encoding.{Adds, AreNamed, Begins, Encodes, EncodesInto, IsUnmeasured};
ghost use Rattle.message_model.specs.Frames.{MOST_BODY, MOST_EDIT, answer_fits, fits, operation_fits, said_fits};
ghost use Rattle.message_model.specs.Spelling.{answer, blob, body, four_bytes, kind, operation, option_number};
ghost use Rattle.message_model.specs.Spelling.{said_body, said_kind, stored, streams, text, two_bytes, widths};
ghost use Rattle.tree_streams.specs.Limits.{is_within, total};
ghost use Rattle.message_values.specs.declared.operation.Operation.TheVariants.{SaveCompleted};
ghost use Rattle.std.specs.Prelude.{[], ◌∷◌, ◌++◌, ◌≡◌, ◌≤◌, ◌<◌, ◌+◌, ◌^◌, OnOk, drop, length, take, true};

use crate::unfinished::MOST_HELD;
use message_model::fault::WireFault;
use message_model::frame::Frame;
pub use message_model::frame::MOST_EDIT;
use message_values::answer::Answer;
use message_values::message::{Message, Said};
use message_values::operation::Operation;
use object_state::{CloseOption, MenuText};
use std::alloc::{AllocError, Global};
use tree_streams::limits::is_within;
use tree_streams::stored::Stored;
use tree_streams::streams::NamedStream;

/// How many bytes stand beside a stream's name and its bytes in a content.
const MOST_BESIDE: usize = 5;

// Whether an operation may be sent.
fn operation_fits(operation: &Operation) -> bool
    ensures { result ≡ operation_fits operation.now }
{
    match operation {
        Operation::Load(_, content) => is_within(content),
        Operation::UiActivate(grant) => *grant > 0,
        Operation::Edit(bytes) => bytes.len() <= MOST_EDIT,
        Operation::Save(save) => *save > 0,
        Operation::SaveCompleted { save, .. } => *save > 0,
        Operation::SaveDropped(save) => *save > 0,
        _ => true,
    }
}

// Whether an answer may be sent.
fn answer_fits(answer: &Answer) -> bool
    ensures { result ≡ answer_fits answer.now }
{
    match answer {
        Answer::Content(content) => is_within(content),
        _ => true,
    }
}

// Whether what is said may be sent.
fn said_fits(said: &Said) -> bool
    ensures { result ≡ said_fits said.now }
{
    match said {
        Said::Call {
            inc,
            act,
            n,
            operation,
        } => *inc > 0 && *act > 0 && *n > 0 && operation_fits(operation),
        Said::Reply {
            inc,
            act,
            n,
            answer,
        } => *inc > 0 && *act > 0 && *n > 0 && answer_fits(answer),
        Said::Write {
            inc,
            act,
            s,
            w,
            content,
        } => *inc > 0 && *act > 0 && *s > 0 && *w > 0 && is_within(content),
        Said::Ask { inc, act, g } => *inc > 0 && *act > 0 && *g > 0,
    }
}

/// Whether a frame may be sent: no number in it is 0, an edit has at most 65,536 bytes, and a content may be stored
/// (`tree_streams::limits::is_within`).
pub fn fits(frame: &Frame) -> bool
    ensures { result ≡ fits frame.now }
{
    match frame {
        Frame::Message(message) => message.session > 0 && said_fits(&message.said),
        Frame::Turn => true,
    }
}

// Adds a byte.
#[tactic(auto, using(crate::proofs::Begins::put))]
fn push_byte(out: &mut Vec<u8>, byte: u8) -> Result<(), AllocError>
    ensures added { OnOk result (out.new.items ≡ out.old.items ++ byte ∷ []) }
    ensures begins { Begins out.old.items out.new.items }
{
    out.push(byte)?;
    Ok(())
}

// Adds bytes.
#[tactic(auto, using(crate::proofs::Begins::put))]
fn push_bytes(out: &mut Vec<u8>, bytes: &[u8]) -> Result<(), AllocError>
    ensures added { OnOk result (out.new.items ≡ out.old.items ++ bytes.now) }
    ensures begins { Begins out.old.items out.new.items }
{
    out.extend_from_slice(bytes)?;
    Ok(())
}

// Adds a number in two bytes.
#[tactic(auto, using(crate::proofs::Begins::put), unfolding(message_model::specs::Spelling::two_bytes))]
fn push_u16(out: &mut Vec<u8>, n: u16) -> Result<(), AllocError>
    ensures added { OnOk result (out.new.items ≡ out.old.items ++ two_bytes n) }
    ensures begins { Begins out.old.items out.new.items }
{
    out.extend_from_slice(&n.to_le_bytes())?;
    Ok(())
}

// Adds a number in four bytes.
#[tactic(auto, using(crate::proofs::Begins::put), unfolding(message_model::specs::Spelling::four_bytes))]
fn push_u32(out: &mut Vec<u8>, n: u32) -> Result<(), AllocError>
    ensures added { OnOk result (out.new.items ≡ out.old.items ++ four_bytes n) }
    ensures begins { Begins out.old.items out.new.items }
{
    out.extend_from_slice(&n.to_le_bytes())?;
    Ok(())
}

// Adds a name or a text behind its length.
#[tactic(auto, using(crate::proofs::Begins::through))]
fn push_text(out: &mut Vec<u8>, bytes: &[u8]) -> Result<(), AllocError>
    requires { length bytes.now < 256 }
    ensures added { OnOk result (out.new.items ≡ out.old.items ++ text bytes.now) }
    ensures begins { Begins out.old.items out.new.items }
{
    push_byte(out, bytes.len() as u8)?;
    push_bytes(out, bytes)?;
    Ok(())
}

// Adds bytes behind their length.
#[tactic(auto, using(crate::proofs::Begins::through))]
fn push_blob(out: &mut Vec<u8>, bytes: &[u8]) -> Result<(), AllocError>
    requires { length bytes.now < 2 ^ 32 }
    ensures added { OnOk result (out.new.items ≡ out.old.items ++ blob bytes.now) }
    ensures begins { Begins out.old.items out.new.items }
{
    push_u32(out, bytes.len() as u32)?;
    push_bytes(out, bytes)?;
    Ok(())
}

// Adds a stream.
#[tactic(auto, using(crate::proofs::Begins::through))]
fn push_stream(out: &mut Vec<u8>, stream: &NamedStream) -> Result<(), AllocError>
    requires { length stream.now.bytes < 2 ^ 32 }
    ensures added { OnOk result (out.new.items ≡ out.old.items ++ (text stream.now.name ++ blob stream.now.bytes)) }
    ensures named { IsName stream.now.name }
    ensures begins { Begins out.old.items out.new.items }
{
    push_text(out, stream.name.as_bytes())?;
    push_blob(out, stream.bytes.as_slice())?;
    Ok(())
}

// Adds streams.
#[tactic(auto, using(crate::proofs::Begins::through))]
fn push_streams(out: &mut Vec<u8>, list: &[NamedStream]) -> Result<(), AllocError>
    requires { total list.now < 2 ^ 32 }
    ensures added { OnOk result (out.new.items ≡ out.old.items ++ streams list.now) }
    ensures named { OnOk result (AreNamed list.now) }
    ensures begins { Begins out.old.items out.new.items }
{
    for stream in list {
        push_stream(out, stream)?;
    }
    Ok(())
}

// Adds a content.
#[tactic(auto, using(crate::proofs::Begins::through))]
fn push_stored(out: &mut Vec<u8>, content: &Stored) -> Result<(), AllocError>
    requires { is_within content.now ≡ true }
    ensures added { OnOk result (Adds out.old.items out.new.items (stored content.now) 262437) }
    ensures begins { Begins out.old.items out.new.items }
{
    push_byte(out, content.streams.len() as u8)?;
    push_streams(out, content.streams.as_slice())?;
    push_blob(out, content.picture.as_slice())?;
    Ok(())
}

// Adds the number of an operation that carries a number, and that number.
#[tactic(auto, using(crate::proofs::Begins::through))]
fn push_numbered(out: &mut Vec<u8>, code: u8, n: u32) -> Result<(), AllocError>
    ensures added { OnOk result (Adds out.old.items out.new.items (code ∷ four_bytes n) 5) }
    ensures begins { Begins out.old.items out.new.items }
{
    push_byte(out, code)?;
    push_u32(out, n)?;
    Ok(())
}

// How a close stands.
fn option_number(option: CloseOption) -> u8
    ensures { result ≡ option_number option }
{
    match option {
        CloseOption::SaveIfDirty => 0,
        CloseOption::NoSave => 1,
    }
}

// Adds a Load.
#[tactic(auto, using(crate::proofs::Begins::through))]
fn push_load(out: &mut Vec<u8>, class: &[u8; 16], content: &Stored) -> Result<(), AllocError>
    requires { is_within content.now ≡ true }
    ensures added { OnOk result (Adds out.old.items out.new.items (2 ∷ (class.now ++ stored content.now)) 300000) }
    ensures begins { Begins out.old.items out.new.items }
{
    push_byte(out, 2)?;
    push_bytes(out, class)?;
    push_stored(out, content)?;
    Ok(())
}

// Adds an InitNew.
#[tactic(auto, using(crate::proofs::Begins::through))]
fn push_init_new(out: &mut Vec<u8>, class: &[u8; 16]) -> Result<(), AllocError>
    ensures added { OnOk result (Adds out.old.items out.new.items (1 ∷ class.now) 300000) }
    ensures begins { Begins out.old.items out.new.items }
{
    push_byte(out, 1)?;
    push_bytes(out, class)?;
    Ok(())
}

// Adds an Edit.
#[tactic(auto, using(crate::proofs::Begins::through))]
fn push_edit(out: &mut Vec<u8>, bytes: &[u8]) -> Result<(), AllocError>
    requires { length bytes.now ≤ MOST_EDIT }
    ensures added { OnOk result (Adds out.old.items out.new.items (8 ∷ blob bytes.now) 300000) }
    ensures begins { Begins out.old.items out.new.items }
{
    push_byte(out, 8)?;
    push_blob(out, bytes)?;
    Ok(())
}

// Adds a SaveCompleted.
#[tactic(auto, using(crate::proofs::Begins::through))]
fn push_completed(out: &mut Vec<u8>, save: u32, storage: bool) -> Result<(), AllocError>
    ensures added { OnOk result (Adds out.old.items out.new.items (operation (SaveCompleted save storage)) 300000) }
    ensures begins { Begins out.old.items out.new.items }
{
    push_numbered(out, 11, save)?;
    push_byte(out, if storage { 1 } else { 0 })?;
    Ok(())
}

// Adds a write's numbers and content.
#[tactic(auto, using(crate::proofs::Begins::through))]
fn push_write(out: &mut Vec<u8>, w: u32, content: &Stored) -> Result<(), AllocError>
    requires { is_within content.now ≡ true }
    ensures added { OnOk result (Adds out.old.items out.new.items (four_bytes w ++ stored content.now) 300000) }
    ensures begins { Begins out.old.items out.new.items }
{
    push_u32(out, w)?;
    push_stored(out, content)?;
    Ok(())
}

// Adds an operation.
fn push_operation(out: &mut Vec<u8>, op: &Operation) -> Result<(), AllocError>
    requires { operation_fits op.now ≡ true }
    ensures added { OnOk result (Adds out.old.items out.new.items (operation op.now) 300000) }
    ensures begins { Begins out.old.items out.new.items }
{
    match op {
        Operation::InitNew(class) => push_init_new(out, class.as_bytes()),
        Operation::Load(class, content) => push_load(out, class.as_bytes(), content),
        Operation::InPlace => push_byte(out, 3),
        Operation::UiActivate(grant) => push_numbered(out, 4, *grant),
        Operation::UiDeactivate => push_byte(out, 5),
        Operation::InPlaceDeactivate => push_byte(out, 6),
        Operation::OpenWindow => push_byte(out, 7),
        Operation::Edit(bytes) => push_edit(out, bytes.as_slice()),
        Operation::Save(save) => push_numbered(out, 9, *save),
        Operation::HandsOff => push_byte(out, 10),
        Operation::SaveCompleted { save, storage } => push_completed(out, *save, *storage),
        Operation::SaveDropped(save) => push_numbered(out, 12, *save),
        Operation::Close(option) => push_bytes(out, &[13, option_number(*option)]),
    }
}

// Adds a menu text.
fn push_menu(out: &mut Vec<u8>, menu: &MenuText) -> Result<(), AllocError>
    ensures added { OnOk result (Adds out.old.items out.new.items (text menu.now) 17) }
    ensures begins { Begins out.old.items out.new.items }
{
    push_text(out, menu.as_bytes())?;
    Ok(())
}

// Adds four widths.
#[tactic(auto, using(crate::proofs::Begins::through))]
fn push_widths(out: &mut Vec<u8>, border: &[u16; 4]) -> Result<(), AllocError>
    ensures added { OnOk result (Adds out.old.items out.new.items (widths border.now) 8) }
    ensures begins { Begins out.old.items out.new.items }
{
    for width in border {
        push_u16(out, *width)?;
    }
    Ok(())
}

// Adds an answer.
#[tactic(auto, using(crate::proofs::Begins::through))]
fn push_answer(out: &mut Vec<u8>, said: &Answer) -> Result<(), AllocError>
    requires { answer_fits said.now ≡ true }
    ensures added { OnOk result (Adds out.old.items out.new.items (answer said.now) 300000) }
    ensures begins { Begins out.old.items out.new.items }
{
    match said {
        Answer::Done => push_byte(out, 0)?,
        Answer::Refused(refusal) => push_bytes(out, &[1, refusal.code()])?,
        Answer::Content(content) => {
            push_byte(out, 2)?;
            push_stored(out, content)?;
        }
        Answer::Tools { menus, border } => {
            push_byte(out, 3)?;
            push_menu(out, &menus.edit)?;
            push_menu(out, &menus.object)?;
            push_menu(out, &menus.help)?;
            push_widths(out, border)?;
        }
    }
    Ok(())
}

// Adds three numbers.
#[tactic(auto, using(crate::proofs::Begins::through))]
fn push_three(out: &mut Vec<u8>, a: u32, b: u32, c: u32) -> Result<(), AllocError>
    ensures added { OnOk result (Adds out.old.items out.new.items (four_bytes a ++ (four_bytes b ++ four_bytes c)) 12) }
    ensures begins { Begins out.old.items out.new.items }
{
    push_u32(out, a)?;
    push_u32(out, b)?;
    push_u32(out, c)?;
    Ok(())
}

// Adds what is said.
#[tactic(auto, using(crate::proofs::Begins::through))]
fn push_said(out: &mut Vec<u8>, said: &Said) -> Result<(), AllocError>
    requires { said_fits said.now ≡ true }
    ensures added { OnOk result (Adds out.old.items out.new.items (said_body said.now) 1048572) }
    ensures begins { Begins out.old.items out.new.items }
{
    match said {
        Said::Call {
            inc,
            act,
            n,
            operation,
        } => {
            push_three(out, *inc, *act, *n)?;
            push_operation(out, operation)?;
        }
        Said::Reply {
            inc,
            act,
            n,
            answer,
        } => {
            push_three(out, *inc, *act, *n)?;
            push_answer(out, answer)?;
        }
        Said::Write {
            inc,
            act,
            s,
            w,
            content,
        } => {
            push_three(out, *inc, *act, *s)?;
            push_write(out, *w, content)?;
        }
        Said::Ask { inc, act, g } => push_three(out, *inc, *act, *g)?,
    }
    Ok(())
}

// Adds a message: its session, and what is said.
#[tactic(auto, using(crate::proofs::Begins::through))]
fn push_message(out: &mut Vec<u8>, message: &Message) -> Result<(), AllocError>
    requires { said_fits message.now.said ≡ true }
    ensures added { OnOk result
        (Adds out.old.items out.new.items (four_bytes message.now.session ++ said_body message.now.said)
        MOST_BODY) }
    ensures begins { Begins out.old.items out.new.items }
{
    push_u32(out, message.session)?;
    push_said(out, &message.said)?;
    Ok(())
}

// Adds a frame's body.
fn push_body(out: &mut Vec<u8>, frame: &Frame) -> Result<(), AllocError>
    requires { fits frame.now ≡ true }
    ensures added { OnOk result (Adds out.old.items out.new.items (body frame.now) MOST_BODY) }
    ensures begins { Begins out.old.items out.new.items }
{
    match frame {
        Frame::Message(message) => push_message(out, message),
        Frame::Turn => Ok(()),
    }
}

// The number of the kind of what is said.
fn said_number(said: &Said) -> u8
    ensures { result ≡ said_kind said.now }
{
    match said {
        Said::Call { .. } => 1,
        Said::Reply { .. } => 2,
        Said::Write { .. } => 3,
        Said::Ask { .. } => 4,
    }
}

// The number of a frame's kind.
fn kind_number(frame: &Frame) -> u8
    ensures { result ≡ kind frame.now }
{
    match frame {
        Frame::Message(message) => said_number(&message.said),
        Frame::Turn => 5,
    }
}

// Writes the length of the body of a frame that begins here into its place.
#[tactic(auto, unfolding(message_model::specs::Spelling::four_bytes))]
fn set_length(out: &mut [u8], at: usize, len: u32)
    requires { at + 10 ≤ length out.old }
    ensures { out.new ≡ take (at + 6) out.old ++ (four_bytes len ++ drop (at + 10) out.old) }
{
    out[at + 6..at + 10].copy_from_slice(&len.to_le_bytes());
}

// How many bytes a content takes.
fn stored_room(content: &Stored) -> usize {
    let mut room = content.picture.len();
    for stream in content.streams.as_slice() {
        room = room
            .saturating_add(stream.name.as_bytes().len())
            .saturating_add(stream.bytes.len())
            .saturating_add(MOST_BESIDE);
    }
    room
}

// How many bytes the contents and edits of what is said take.
fn said_room(said: &Said) -> usize {
    match said {
        Said::Call { operation, .. } => match operation {
            Operation::Load(_, content) => stored_room(content),
            Operation::Edit(bytes) => bytes.len(),
            _ => 0,
        },
        Said::Reply { answer, .. } => match answer {
            Answer::Content(content) => stored_room(content),
            _ => 0,
        },
        Said::Write { content, .. } => stored_room(content),
        Said::Ask { .. } => 0,
    }
}

// How many bytes a frame takes at the most, so that its vector grows once. It is a guess: what doesn't fit grows it
// again.
fn room(frame: &Frame) -> usize {
    match frame {
        Frame::Message(message) => said_room(&message.said).saturating_add(MOST_HELD),
        // A head alone.
        Frame::Turn => 10,
    }
}

// Adds a frame, but that its head has 0 in the place of the length of its body.
#[tactic(auto, using(crate::proofs::Begins::through))]
fn push_frame(out: &mut Vec<u8>, frame: &Frame) -> Result<(), AllocError>
    requires { fits frame.now ≡ true }
    ensures added { OnOk result (IsUnmeasured out.old.items out.new.items frame.now) }
    ensures begins { Begins out.old.items out.new.items }
{
    out.reserve(room(frame))?;
    push_bytes(out, &[79, 76, 67, 77, 2, kind_number(frame), 0, 0, 0, 0])?;
    push_body(out, frame)?;
    Ok(())
}

/// Adds the byte form of a frame, as `encode` gives it.
///
/// Refused: `BadField` for a frame that may not be sent (see `fits`); then `NoMemory`. Nothing is added then.
pub fn encode_into(out: &mut Vec<u8>, frame: &Frame) -> Result<(), WireFault>
    ensures { EncodesInto result out.old.items out.new.items frame.now }
{
    if !fits(frame) {
        return Err(WireFault::BadField);
    }
    let at = out.len();
    match push_frame(out, frame) {
        Ok(()) => {
            let len = (out.len() - at - 10) as u32;
            set_length(out, at, len);
            Ok(())
        }
        Err(_) => {
            out.truncate(at);
            Err(WireFault::NoMemory)
        }
    }
}

/// The byte form of a frame.
///
/// Refused: `BadField` for a frame that may not be sent (see `fits`); then `NoMemory`.
pub fn encode(alloc: Global, frame: &Frame) -> Result<Vec<u8>, WireFault>
    ensures { Encodes result frame.now }
{
    let mut out = Vec::new(alloc);
    match encode_into(&mut out, frame) {
        Ok(()) => Ok(out),
        Err(fault) => Err(fault),
    }
}
