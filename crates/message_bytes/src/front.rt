//! The frame at the front of bytes.

ghost use Rattle.message_bytes.specs.Fronts.{Ends, FrontIs, HeadIs, LengthIs, Took};
ghost use Rattle.std.specs.Prelude.{[], ◌∷◌, ◌++◌, ◌≡◌, IfOk, OnErr, OnOk, drop, take, length};

use message_bodies::body::{BodyFault, number_in, read_body};
use message_model::codes::{Kind, kind_of};
use message_model::fault::WireFault;
use message_model::frame::Frame;
use std::alloc::{AllocError, Global};
use std::collections::VecDeque;

/// The greatest length of a body, in bytes.
pub const MOST_BODY: usize = 1_048_576;

/// How many bytes stand before a body.
const HEAD_LEN: usize = 10;

/// What the bytes before a body say.
#[derive(Drop)]
pub(crate) enum Head {
    /// They aren't all there.
    Short,
    /// They are none of a frame.
    Bad(WireFault),
    /// The kind, and the length of the body.
    Body(Kind, usize),
}

/// What stands at the front of bytes.
#[derive(Drop)]
pub(crate) enum Front {
    /// Less than a whole frame.
    Partial,
    /// A frame of so many bytes.
    Whole(Frame, usize),
    /// No frame.
    Faulty(WireFault),
}

// The length of the body of a kind.
fn length_at(kind: Kind, xs: &[u8]) -> Head
    ensures { LengthIs result kind xs.now }
{
    if xs.len() < 4 {
        return Head::Short;
    }
    let len = number_in(&xs[..4]) as usize;
    if len > MOST_BODY {
        return Head::Bad(WireFault::TooLong);
    }
    Head::Body(kind, len)
}

/// What the bytes before a body say.
pub(crate) fn head_of(xs: &[u8]) -> Head
    ensures { HeadIs result xs.now }
{
    let (magic, rest) = match xs {
        [a, b, c, d, rest @ ..] => ((*a, *b, *c, *d), rest),
        _ => return Head::Short,
    };
    if !(magic.0 == 79 && magic.1 == 76 && magic.2 == 67 && magic.3 == 77) {
        return Head::Bad(WireFault::BadMagic);
    }
    let (version, rest) = match rest {
        [] => return Head::Short,
        [version, rest @ ..] => (*version, rest),
    };
    if version != 2 {
        return Head::Bad(WireFault::BadVersion);
    }
    let (number, rest) = match rest {
        [] => return Head::Short,
        [number, rest @ ..] => (*number, rest),
    };
    match kind_of(number) {
        None => Head::Bad(WireFault::BadKind),
        Some(kind) => length_at(kind, rest),
    }
}

/// What stands at the front of bytes.
///
/// Refused for want of memory alone.
pub(crate) fn front_of(alloc: Global, xs: &[u8]) -> Result<Front, AllocError>
    ensures { IfOk result (λ found. FrontIs found xs.now) }
{
    let (kind, len) = match head_of(xs) {
        Head::Short => return Ok(Front::Partial),
        Head::Bad(fault) => return Ok(Front::Faulty(fault)),
        Head::Body(kind, len) => (kind, len),
    };
    if xs.len() - HEAD_LEN < len {
        return Ok(Front::Partial);
    }
    let (_, behind) = xs.split_at(HEAD_LEN);
    match read_body(alloc, kind, &behind[..len]) {
        Ok(frame) => Ok(Front::Whole(frame, HEAD_LEN + len)),
        Err(BodyFault::Bad) => Ok(Front::Faulty(WireFault::BadField)),
        Err(BodyFault::Memory) => Err(AllocError),
    }
}

/// Puts a frame behind those that wait. Where this is refused, the frame is let go of here, once for all who call it.
pub(crate) fn put_behind(waiting: &mut VecDeque<Frame>, frame: Frame) -> Result<(), AllocError>
    ensures items { OnOk result (waiting.new.items ≡ waiting.old.items ++ frame ∷ []) }
    ensures kept { OnErr result (waiting.new.items ≡ waiting.old.items) }
{
    waiting.push_back(frame)?;
    Ok(())
}

/// Puts the frames at the front of bytes behind those that wait. It gives how many bytes they have, and the fault that
/// the bytes behind them show.
///
/// Refused for want of memory alone. Then some of the frames may have been put there.
pub(crate) fn take_frames(
    alloc: Global,
    bytes: &[u8],
    waiting: &mut VecDeque<Frame>,
) -> Result<(usize, Option<WireFault>), AllocError>
    ensures took { IfOk result (λ x. Took waiting.old.items waiting.new.items bytes.now x.0
        × Ends x.1 (drop x.0 bytes.now)) }
    ensures kept { OnErr result (take (length waiting.old.items) waiting.new.items ≡ waiting.old.items) }
{
    let mut used = 0;
    'frames: loop {
        let (_, rest) = bytes.split_at(used);
        match front_of(alloc, rest) {
            Ok(Front::Partial) => return Ok((used, None)),
            Ok(Front::Faulty(fault)) => return Ok((used, Some(fault))),
            Ok(Front::Whole(frame, n)) => {
                match put_behind(waiting, frame) {
                    Ok(()) => {}
                    Err(fault) => return Err(fault),
                }
                used += n;
            }
            Err(_) => return Err(AllocError),
        }
    }
}
