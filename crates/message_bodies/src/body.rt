//! Bodies of frames, read from left to right.

ghost use Rattle.message_bodies.specs.Decoding.{Continues, Gives, Makes};
ghost use Rattle.tree_streams.specs.declared.streams.NamedStream.{NamedStream};
ghost use Rattle.message_model.specs.declared.codes.OperationCode.TheVariants.{Close, Edit, InitNew, Load, Save};
ghost use Rattle.message_model.specs.declared.codes.OperationCode.TheVariants.{SaveCompleted, SaveDropped, UiActivate};
ghost use Rattle.message_model.specs.declared.codes.Kind.TheVariants.{Turn};
ghost use Rattle.message_model.specs.Frames.{number_in};
ghost use Rattle.tree_streams.specs.Limits.{MOST_BYTES};
ghost use Rattle.message_model.specs.Reading.{answer, ask_in, blob, byte, bytes, call_in, flag_of, more, may_follow};
ghost use Rattle.message_model.specs.Reading.{name, number, operation, option_of, pictured, read_body, reply_in};
ghost use Rattle.message_model.specs.Reading.{stored, text, tools, whole, width_in, widths_in, write_in};
ghost use Rattle.std.specs.Prelude.{[], ◌∷◌, ◌++◌, ◌≡◌, ◌≤◌, ◌<◌, ◌-◌, ◌^◌, ℕ, List, None, IfOk, true, length, take};
ghost use Rattle.std.specs.Prelude.{drop};

use cfb_names::name::{Name, named};
use message_model::codes::{
    AnswerCode, Kind, OperationCode, answer_code_of, operation_code_of, refusal_of,
};
use message_model::frame::{Frame, MOST_EDIT};
use message_values::answer::Answer;
use message_values::message::{Message, Said};
use message_values::operation::Operation;
use object_state::{CloseOption, MenuText, Menus};
use std::alloc::{AllocError, Global};
use tree_streams::fault::StreamsFault;
use tree_streams::limits::{MOST_BYTES, MOST_STREAMS, is_ole_name};
use tree_streams::stored::Stored;
use tree_streams::streams::{NamedStream, Streams};
use tree_values::bytes::Bytes;
use tree_values::class_id::ClassId;

/// Why a body makes no frame.
#[derive(Drop)]
pub enum BodyFault {
    /// It is none of its kind.
    Bad,
    /// No memory was left.
    Memory,
}

impl From<AllocError> for BodyFault {
    ghost use Rattle.std.specs.Prelude.{◌≡◌};
    ghost use Rattle.message_bodies.specs.declared.body.BodyFault.TheVariants.{Memory};

    ghost from_gives = { λ _ e. e ≡ Memory };

    fn from(_: AllocError) -> Self {
        BodyFault::Memory
    }
}

// So many bytes.
#[tactic(auto, unfolding(message_model::specs::Reading::bytes))]
fn take_bytes(n: usize, xs: &[u8]) -> Result<(&[u8], &[u8]), BodyFault>
    ensures given { Gives (λ x. x.0.now) (λ x. x.1.now) result (bytes n) xs.now }
    ensures len { IfOk result (λ x. length x.0.now ≡ n) }
{
    if xs.len() < n {
        return Err(BodyFault::Bad);
    }
    Ok(xs.split_at(n))
}

// A byte.
fn take_byte(xs: &[u8]) -> Result<(u8, &[u8]), BodyFault>
    ensures { Gives (λ x. x.0) (λ x. x.1.now) result byte xs.now }
{
    match xs {
        [] => Err(BodyFault::Bad),
        [first, rest @ ..] => Ok((*first, rest)),
    }
}

// The number in four bytes.
#[tactic(auto, unfolding(message_model::specs::Frames::number_in))]
pub fn number_in(xs: &[u8]) -> u32
    requires { length xs.now ≡ 4 }
    ensures { result ≡ number_in xs.now }
{
    u32::from_le_bytes([xs[0], xs[1], xs[2], xs[3]])
}

// The number in two bytes.
#[tactic(auto, unfolding(message_model::specs::Reading::width_in))]
fn width_in(xs: &[u8]) -> u16
    requires { length xs.now ≡ 2 }
    ensures { result ≡ width_in xs.now }
{
    u16::from_le_bytes([xs[0], xs[1]])
}

// A number that isn't 0.
#[tactic(auto, unfolding(message_model::specs::Reading::number, message_model::specs::Reading::bytes))]
fn take_number(xs: &[u8]) -> Result<(u32, &[u8]), BodyFault>
    ensures { Gives (λ x. x.0) (λ x. x.1.now) result number xs.now }
{
    if xs.len() < 4 {
        return Err(BodyFault::Bad);
    }
    let (front, rest) = xs.split_at(4);
    let n = number_in(front);
    if n == 0 {
        return Err(BodyFault::Bad);
    }
    Ok((n, rest))
}

// Bytes behind their length, at most so many.
#[tactic(auto, unfolding(message_model::specs::Reading::blob, message_model::specs::Reading::bytes))]
fn take_blob(alloc: Global, most: usize, xs: &[u8]) -> Result<(Bytes, &[u8]), BodyFault>
    ensures given { Gives (λ x. x.0) (λ x. x.1.now) result (blob most) xs.now }
    ensures short { IfOk result (λ x. length x.0 ≤ most) }
{
    if xs.len() < 4 {
        return Err(BodyFault::Bad);
    }
    let (front, rest) = xs.split_at(4);
    let n = number_in(front) as usize;
    if n > most {
        return Err(BodyFault::Bad);
    }
    if rest.len() < n {
        return Err(BodyFault::Bad);
    }
    let (value, rest) = rest.split_at(n);
    Ok((Bytes::from_slice(alloc, value)?, rest))
}

// A name behind its length.
#[tactic(auto, unfolding(message_model::specs::Reading::bytes))]
fn take_name(xs: &[u8]) -> Result<(Name, &[u8]), BodyFault>
    ensures { Gives (λ x. x.0) (λ x. x.1.now) result name xs.now }
{
    let (n, rest) = match xs {
        [] => return Err(BodyFault::Bad),
        [first, rest @ ..] => (*first as usize, rest),
    };
    if n < 1 || n > 31 {
        return Err(BodyFault::Bad);
    }
    if rest.len() < n {
        return Err(BodyFault::Bad);
    }
    let (value, rest) = rest.split_at(n);
    match named(value) {
        Ok(name) => Ok((name, rest)),
        Err(_) => Err(BodyFault::Bad),
    }
}

// A menu text behind its length.
#[tactic(auto, unfolding(message_model::specs::Reading::bytes))]
fn take_text(xs: &[u8]) -> Result<(MenuText, &[u8]), BodyFault>
    ensures { Gives (λ x. x.0) (λ x. x.1.now) result text xs.now }
{
    let (n, rest) = match xs {
        [] => return Err(BodyFault::Bad),
        [first, rest @ ..] => (*first as usize, rest),
    };
    if n > 16 {
        return Err(BodyFault::Bad);
    }
    if rest.len() < n {
        return Err(BodyFault::Bad);
    }
    let (value, rest) = rest.split_at(n);
    match MenuText::new(value) {
        Some(text) => Ok((text, rest)),
        None => Err(BodyFault::Bad),
    }
}

// Four widths of two bytes each.
fn widths_in(xs: &[u8]) -> [u16; 4]
    requires { length xs.now ≡ 8 }
    ensures { result ≡ widths_in xs.now }
{
    [
        width_in(&xs[..2]),
        width_in(&xs[2..4]),
        width_in(&xs[4..6]),
        width_in(&xs[6..]),
    ]
}

// A flag.
fn flag_of(byte: u8) -> Option<bool>
    ensures { result ≡ flag_of byte }
{
    match byte {
        0 => Some(false),
        1 => Some(true),
        _ => None,
    }
}

// What becomes of the content of an object that closes.
fn option_of(byte: u8) -> Option<CloseOption>
    ensures { result ≡ option_of byte }
{
    match byte {
        0 => Some(CloseOption::SaveIfDirty),
        1 => Some(CloseOption::NoSave),
        _ => None,
    }
}

// What an object wants of its frame.
#[tactic(auto, unfolding(message_model::specs::Reading::tools))]
fn take_tools(xs: &[u8]) -> Result<(Answer, &[u8]), BodyFault>
    ensures { Gives (λ x. x.0) (λ x. x.1.now) result tools xs.now }
{
    let (edit, rest) = match take_text(xs) {
        Ok(read) => read,
        Err(fault) => return Err(fault),
    };
    let (object, rest) = match take_text(rest) {
        Ok(read) => read,
        Err(fault) => return Err(fault),
    };
    let (help, rest) = match take_text(rest) {
        Ok(read) => read,
        Err(fault) => return Err(fault),
    };
    let (front, rest) = take_bytes(8, rest)?;
    let border = widths_in(front);
    let menus = Menus { edit, object, help };
    Ok((Answer::Tools { menus, border }, rest))
}

// Whether a stream of this name may follow these.
fn may_follow(streams: &Streams, name: &Name) -> bool
    ensures { result ≡ may_follow streams.now name.now }
{
    streams.is_next(name) && !is_ole_name(name)
}

// One more stream behind these, in so much room: how much room is left, and the bytes behind it.
#[tactic(auto, unfolding(message_model::specs::Reading::more))]
fn take_stream<'a>(
    alloc: Global,
    streams: &mut Streams,
    room: usize,
    xs: &'a [u8],
) -> Result<(usize, &'a [u8]), BodyFault>
    ensures { Continues (λ x. x.0) (λ x. x.1.now) result streams.old room xs.now streams.new }
{
    let (name, rest) = match take_name(xs) {
        Ok(read) => read,
        Err(fault) => return Err(fault),
    };
    if !may_follow(streams, &name) {
        return Err(BodyFault::Bad);
    }
    let (bytes, rest) = match take_blob(alloc, room, rest) {
        Ok(read) => read,
        Err(fault) => return Err(fault),
    };
    let left = room - bytes.len();
    match streams.push(NamedStream { name, bytes }) {
        Ok(()) => Ok((left, rest)),
        Err(StreamsFault::OutOfOrder) => Err(BodyFault::Bad),
        Err(StreamsFault::NoMemory) => Err(BodyFault::Memory),
    }
}

// So many streams: them, how much room is left, and the bytes behind them.
fn take_streams(
    alloc: Global,
    count: usize,
    xs: &[u8],
) -> Result<(Streams, usize, &[u8]), BodyFault>
    ensures { Gives {B = List NamedStream × ℕ} (λ x. (x.0, x.1)) (λ x. x.2.now) result
        (λ k. more count [] MOST_BYTES (λ ss room. k (ss, room))) xs.now }
{
    let mut streams = Streams::new(alloc);
    let mut room = MOST_BYTES;
    let mut rest = xs;
    for _ in 0..count {
        let (left, behind) = match take_stream(alloc, &mut streams, room, rest) {
            Ok(read) => read,
            Err(fault) => return Err(fault),
        };
        room = left;
        rest = behind;
    }
    Ok((streams, room, rest))
}

// A content.
fn take_stored(alloc: Global, xs: &[u8]) -> Result<(Stored, &[u8]), BodyFault>
    ensures { Gives (λ x. x.0) (λ x. x.1.now) result stored xs.now }
{
    let (count, rest) = take_byte(xs)?;
    let count = count as usize;
    if count > MOST_STREAMS {
        return Err(BodyFault::Bad);
    }
    let (streams, room, rest) = match take_streams(alloc, count, rest) {
        Ok(read) => read,
        Err(fault) => return Err(fault),
    };
    let (picture, rest) = match take_blob(alloc, room, rest) {
        Ok(read) => read,
        Err(fault) => return Err(fault),
    };
    Ok((Stored { streams, picture }, rest))
}

// A class id.
fn take_class(xs: &[u8]) -> Result<(ClassId, &[u8]), BodyFault>
    ensures { Gives (λ x. x.0) (λ x. x.1.now) result (bytes 16) xs.now }
{
    let (front, rest) = take_bytes(16, xs)?;
    let mut class = [0; 16];
    class.copy_from_slice(front);
    Ok((ClassId::from_bytes(class), rest))
}

// A Load.
#[tactic(auto, unfolding(message_model::specs::Reading::operation))]
fn take_load(alloc: Global, xs: &[u8]) -> Result<(Operation, &[u8]), BodyFault>
    ensures { Gives (λ x. x.0) (λ x. x.1.now) result (operation Load) xs.now }
{
    let (class, rest) = match take_class(xs) {
        Ok(read) => read,
        Err(fault) => return Err(fault),
    };
    match take_stored(alloc, rest) {
        Ok((content, rest)) => Ok((Operation::Load(class, content), rest)),
        Err(fault) => Err(fault),
    }
}

// An Edit.
#[tactic(auto, unfolding(message_model::specs::Reading::operation))]
fn take_edit(alloc: Global, xs: &[u8]) -> Result<(Operation, &[u8]), BodyFault>
    ensures { Gives (λ x. x.0) (λ x. x.1.now) result (operation Edit) xs.now }
{
    match take_blob(alloc, MOST_EDIT, xs) {
        Ok((bytes, rest)) => Ok((Operation::Edit(bytes), rest)),
        Err(fault) => Err(fault),
    }
}

// A SaveCompleted.
#[tactic(auto, unfolding(message_model::specs::Reading::operation))]
fn take_completed(xs: &[u8]) -> Result<(Operation, &[u8]), BodyFault>
    ensures { Gives (λ x. x.0) (λ x. x.1.now) result (operation SaveCompleted) xs.now }
{
    let (save, rest) = take_number(xs)?;
    let (byte, rest) = take_byte(rest)?;
    match flag_of(byte) {
        Some(storage) => Ok((Operation::SaveCompleted { save, storage }, rest)),
        None => Err(BodyFault::Bad),
    }
}

// A Close.
#[tactic(auto, unfolding(message_model::specs::Reading::operation))]
fn take_close(xs: &[u8]) -> Result<(Operation, &[u8]), BodyFault>
    ensures { Gives (λ x. x.0) (λ x. x.1.now) result (operation Close) xs.now }
{
    let (byte, rest) = take_byte(xs)?;
    match option_of(byte) {
        Some(option) => Ok((Operation::Close(option), rest)),
        None => Err(BodyFault::Bad),
    }
}

// A UiActivate.
#[tactic(auto, unfolding(message_model::specs::Reading::operation))]
fn take_ui_activate(xs: &[u8]) -> Result<(Operation, &[u8]), BodyFault>
    ensures { Gives (λ x. x.0) (λ x. x.1.now) result (operation UiActivate) xs.now }
{
    match take_number(xs) {
        Ok((n, rest)) => Ok((Operation::UiActivate(n), rest)),
        Err(fault) => Err(fault),
    }
}

// A Save.
#[tactic(auto, unfolding(message_model::specs::Reading::operation))]
fn take_save(xs: &[u8]) -> Result<(Operation, &[u8]), BodyFault>
    ensures { Gives (λ x. x.0) (λ x. x.1.now) result (operation Save) xs.now }
{
    match take_number(xs) {
        Ok((n, rest)) => Ok((Operation::Save(n), rest)),
        Err(fault) => Err(fault),
    }
}

// A SaveDropped.
#[tactic(auto, unfolding(message_model::specs::Reading::operation))]
fn take_save_dropped(xs: &[u8]) -> Result<(Operation, &[u8]), BodyFault>
    ensures { Gives (λ x. x.0) (λ x. x.1.now) result (operation SaveDropped) xs.now }
{
    match take_number(xs) {
        Ok((n, rest)) => Ok((Operation::SaveDropped(n), rest)),
        Err(fault) => Err(fault),
    }
}

// An InitNew.
#[tactic(auto, unfolding(message_model::specs::Reading::operation))]
fn take_init_new(xs: &[u8]) -> Result<(Operation, &[u8]), BodyFault>
    ensures { Gives (λ x. x.0) (λ x. x.1.now) result (operation InitNew) xs.now }
{
    match take_class(xs) {
        Ok((class, rest)) => Ok((Operation::InitNew(class), rest)),
        Err(fault) => Err(fault),
    }
}

// An operation behind its number.
#[tactic(auto, unfolding(message_model::specs::Reading::operation))]
fn take_operation(
    alloc: Global,
    code: OperationCode,
    xs: &[u8],
) -> Result<(Operation, &[u8]), BodyFault>
    ensures { Gives (λ x. x.0) (λ x. x.1.now) result (operation code) xs.now }
{
    match code {
        OperationCode::InitNew => take_init_new(xs),
        OperationCode::Load => take_load(alloc, xs),
        OperationCode::InPlace => Ok((Operation::InPlace, xs)),
        OperationCode::UiActivate => take_ui_activate(xs),
        OperationCode::UiDeactivate => Ok((Operation::UiDeactivate, xs)),
        OperationCode::InPlaceDeactivate => Ok((Operation::InPlaceDeactivate, xs)),
        OperationCode::OpenWindow => Ok((Operation::OpenWindow, xs)),
        OperationCode::Edit => take_edit(alloc, xs),
        OperationCode::Save => take_save(xs),
        OperationCode::HandsOff => Ok((Operation::HandsOff, xs)),
        OperationCode::SaveCompleted => take_completed(xs),
        OperationCode::SaveDropped => take_save_dropped(xs),
        OperationCode::Close => take_close(xs),
    }
}

// An answer behind its number.
#[tactic(auto, unfolding(message_model::specs::Reading::answer))]
fn take_answer(alloc: Global, code: AnswerCode, xs: &[u8]) -> Result<(Answer, &[u8]), BodyFault>
    ensures { Gives (λ x. x.0) (λ x. x.1.now) result (answer code) xs.now }
{
    match code {
        AnswerCode::Done => Ok((Answer::Done, xs)),
        AnswerCode::Refused => {
            let (byte, rest) = take_byte(xs)?;
            match refusal_of(byte) {
                Some(refusal) => Ok((Answer::Refused(refusal), rest)),
                None => Err(BodyFault::Bad),
            }
        }
        AnswerCode::Content => match take_stored(alloc, xs) {
            Ok((content, rest)) => Ok((Answer::Content(content), rest)),
            Err(fault) => Err(fault),
        },
        AnswerCode::Tools => take_tools(xs),
    }
}

// The frame, where nothing is behind it.
fn whole(frame: Frame, rest: &[u8]) -> Result<Frame, BodyFault>
    ensures { Makes result (whole frame rest.now) }
{
    match rest {
        [] => Ok(frame),
        [_, ..] => Err(BodyFault::Bad),
    }
}

// The call that a body spells behind its session.
fn read_call(alloc: Global, session: u32, xs: &[u8]) -> Result<Frame, BodyFault>
    ensures { Makes result (call_in session xs.now) }
{
    let (inc, rest) = take_number(xs)?;
    let (act, rest) = take_number(rest)?;
    let (n, rest) = take_number(rest)?;
    let (number, rest) = take_byte(rest)?;
    let code = match operation_code_of(number) {
        Some(code) => code,
        None => return Err(BodyFault::Bad),
    };
    let (operation, rest) = match take_operation(alloc, code, rest) {
        Ok(read) => read,
        Err(fault) => return Err(fault),
    };
    let said = Said::Call {
        inc,
        act,
        n,
        operation,
    };
    whole(Frame::Message(Message { session, said }), rest)
}

// The reply that a body spells behind its session.
fn read_reply(alloc: Global, session: u32, xs: &[u8]) -> Result<Frame, BodyFault>
    ensures { Makes result (reply_in session xs.now) }
{
    let (inc, rest) = take_number(xs)?;
    let (act, rest) = take_number(rest)?;
    let (n, rest) = take_number(rest)?;
    let (number, rest) = take_byte(rest)?;
    let code = match answer_code_of(number) {
        Some(code) => code,
        None => return Err(BodyFault::Bad),
    };
    let (answer, rest) = match take_answer(alloc, code, rest) {
        Ok(read) => read,
        Err(fault) => return Err(fault),
    };
    let said = Said::Reply {
        inc,
        act,
        n,
        answer,
    };
    whole(Frame::Message(Message { session, said }), rest)
}

// The write that a body spells behind its session.
fn read_write(alloc: Global, session: u32, xs: &[u8]) -> Result<Frame, BodyFault>
    ensures { Makes result (write_in session xs.now) }
{
    let (inc, rest) = take_number(xs)?;
    let (act, rest) = take_number(rest)?;
    let (s, rest) = take_number(rest)?;
    let (w, rest) = take_number(rest)?;
    let (content, rest) = match take_stored(alloc, rest) {
        Ok(read) => read,
        Err(fault) => return Err(fault),
    };
    let said = Said::Write {
        inc,
        act,
        s,
        w,
        content,
    };
    whole(Frame::Message(Message { session, said }), rest)
}

// The ask that a body spells behind its session.
fn read_ask(session: u32, xs: &[u8]) -> Result<Frame, BodyFault>
    ensures { Makes result (ask_in session xs.now) }
{
    let (inc, rest) = take_number(xs)?;
    let (act, rest) = take_number(rest)?;
    let (g, rest) = take_number(rest)?;
    let said = Said::Ask { inc, act, g };
    whole(Frame::Message(Message { session, said }), rest)
}

// The turn that a body spells.
#[tactic(auto, unfolding(message_model::specs::Reading::read_body))]
fn read_turn(xs: &[u8]) -> Result<Frame, BodyFault>
    ensures { Makes result (read_body Turn xs.now) }
{
    whole(Frame::Turn, xs)
}

/// The frame that a body of a kind spells, all of it.
///
/// Refused: `Bad` where it spells none; then `Memory`.
pub fn read_body(alloc: Global, kind: Kind, xs: &[u8]) -> Result<Frame, BodyFault>
    ensures { Makes result (read_body kind xs.now) }
{
    if let Kind::Turn = kind {
        return read_turn(xs);
    }
    let (session, rest) = match take_number(xs) {
        Ok(read) => read,
        Err(fault) => return Err(fault),
    };
    match kind {
        Kind::Call => read_call(alloc, session, rest),
        Kind::Reply => read_reply(alloc, session, rest),
        Kind::Write => read_write(alloc, session, rest),
        Kind::Ask => read_ask(session, rest),
        // It has no session, and is read above.
        Kind::Turn => Err(BodyFault::Bad),
    }
}
