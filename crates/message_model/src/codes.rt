//! The bytes by which kinds, operations, answers and refusals stand in frames.

ghost use Rattle.std.specs.Prelude.{◌≡◌};
ghost use Rattle.message_model.specs.Codes.{answer_code_of, kind_of, operation_code_of, refusal_of};

use message_values::refusal::Refusal;

/// The kinds of frames.
#[derive(Clone, Copy)]
pub enum Kind {
    /// 1: a call.
    Call,
    /// 2: a reply.
    Reply,
    /// 3: a write.
    Write,
    /// 4: an ask.
    Ask,
    /// 5: a turn.
    Turn,
}

/// The operations, without what they carry.
#[derive(Clone, Copy)]
pub enum OperationCode {
    /// 1.
    InitNew,
    /// 2.
    Load,
    /// 3.
    InPlace,
    /// 4.
    UiActivate,
    /// 5.
    UiDeactivate,
    /// 6.
    InPlaceDeactivate,
    /// 7.
    OpenWindow,
    /// 8.
    Edit,
    /// 9.
    Save,
    /// 10.
    HandsOff,
    /// 11.
    SaveCompleted,
    /// 12.
    SaveDropped,
    /// 13.
    Close,
}

/// The answers, without what they carry.
#[derive(Clone, Copy)]
pub enum AnswerCode {
    /// 0.
    Done,
    /// 1.
    Refused,
    /// 2.
    Content,
    /// 3.
    Tools,
}

/// The kind of a number.
pub fn kind_of(number: u8) -> Option<Kind>
    ensures { result ≡ kind_of number }
{
    match number {
        1 => Some(Kind::Call),
        2 => Some(Kind::Reply),
        3 => Some(Kind::Write),
        4 => Some(Kind::Ask),
        5 => Some(Kind::Turn),
        _ => None,
    }
}

/// The operation of a number.
pub fn operation_code_of(number: u8) -> Option<OperationCode>
    ensures { result ≡ operation_code_of number }
{
    match number {
        1 => Some(OperationCode::InitNew),
        2 => Some(OperationCode::Load),
        3 => Some(OperationCode::InPlace),
        4 => Some(OperationCode::UiActivate),
        5 => Some(OperationCode::UiDeactivate),
        6 => Some(OperationCode::InPlaceDeactivate),
        7 => Some(OperationCode::OpenWindow),
        8 => Some(OperationCode::Edit),
        9 => Some(OperationCode::Save),
        10 => Some(OperationCode::HandsOff),
        11 => Some(OperationCode::SaveCompleted),
        12 => Some(OperationCode::SaveDropped),
        13 => Some(OperationCode::Close),
        _ => None,
    }
}

/// The answer of a number.
pub fn answer_code_of(number: u8) -> Option<AnswerCode>
    ensures { result ≡ answer_code_of number }
{
    match number {
        0 => Some(AnswerCode::Done),
        1 => Some(AnswerCode::Refused),
        2 => Some(AnswerCode::Content),
        3 => Some(AnswerCode::Tools),
        _ => None,
    }
}

/// The refusal of a number.
pub fn refusal_of(number: u8) -> Option<Refusal>
    ensures { result ≡ refusal_of number }
{
    match number {
        1 => Some(Refusal::BadEdit),
        2 => Some(Refusal::BadContent),
        3 => Some(Refusal::TooBig),
        11 => Some(Refusal::AlreadyInitialized),
        12 => Some(Refusal::NotInitialized),
        13 => Some(Refusal::Scribble),
        14 => Some(Refusal::HandsOff),
        15 => Some(Refusal::NeedsStorage),
        16 => Some(Refusal::WrongState),
        _ => None,
    }
}
