//! A piece of the bytes behind a frame of which some came.

ghost use Rattle.message_bytes.specs.Fronts.{Fed, Grows, Leaves};
ghost use Rattle.message_bytes.specs.Holding.{Holds, IsBody};
ghost use Rattle.message_model.specs.Frames.{shown};
ghost use Rattle.std.specs.Prelude.{[], ◌≡◌, ◌<◌, ◌++◌, ℕ, List, IfOk, None, OnErr, length, slice_set, take};

use crate::front::{Front, front_of, put_behind, take_frames};
use crate::unfinished::{Unfinished, body_of};
use message_drafts::body::Body;
use message_model::fault::WireFault;
use message_model::frame::Frame;
use std::alloc::{AllocError, Global};
use std::collections::VecDeque;

// Puts a frame into the place of another.
fn put(waiting: &mut VecDeque<Frame>, at: usize, frame: Frame)
    requires { at < length waiting.old.items }
    ensures { waiting.new.items ≡ slice_set waiting.old.items at frame }
{
    match waiting.get_mut(at) {
        Some(place) => *place = frame,
        None => {}
    }
}

// Puts the frames at the front of bytes behind those that wait: what comes behind them, or the fault that is shown
// there.
//
// Refused for want of memory alone. Then some of the frames may have been put there.
fn take_behind(
    alloc: Global,
    bytes: &[u8],
    waiting: &mut VecDeque<Frame>,
) -> Result<(Unfinished, Option<WireFault>), AllocError>
    ensures leaves { IfOk result (λ x. Leaves waiting.old.items waiting.new.items bytes.now x.0 x.1) }
    ensures kept { OnErr result (take (length waiting.old.items) waiting.new.items ≡ waiting.old.items) }
{
    let (used, shown) = match take_frames(alloc, bytes, waiting) {
        Ok(taken) => taken,
        Err(fault) => return Err(fault),
    };
    match shown {
        Some(fault) => Ok((Unfinished::new(), Some(fault))),
        None => {
            let (_, rest) = bytes.split_at(used);
            match Unfinished::begun(alloc, rest) {
                Ok(rest) => Ok((rest, None)),
                Err(fault) => Err(fault),
            }
        }
    }
}

// Takes a piece where nothing of a frame came: whole frames leave all as it is.
//
// Refused for want of memory alone. Then some of the frames may have been put behind those that wait.
fn feed_none(
    alloc: Global,
    bytes: &mut Unfinished,
    piece: &[u8],
    waiting: &mut VecDeque<Frame>,
) -> Result<Option<WireFault>, AllocError>
    requires { bytes.old ≡ record { front = []; body = None } }
    ensures leaves { IfOk result (λ shown. Leaves waiting.old.items waiting.new.items piece.now bytes.new shown) }
    ensures same { OnErr result (bytes.new ≡ bytes.old) }
    ensures kept { OnErr result (take (length waiting.old.items) waiting.new.items ≡ waiting.old.items) }
{
    let (used, shown) = match take_frames(alloc, piece, waiting) {
        Ok(taken) => taken,
        Err(fault) => return Err(fault),
    };
    match shown {
        Some(_) => return Ok(shown),
        None => {}
    }
    let (_, rest) = piece.split_at(used);
    if rest.is_empty() {
        return Ok(None);
    }
    match Unfinished::begun(alloc, rest) {
        Ok(begun) => {
            *bytes = begun;
            Ok(None)
        }
        Err(fault) => Err(fault),
    }
}

// Takes the last bytes of a body, and what stands behind them.
//
// Refused for want of memory alone. Then the body and the frames that wait are as before.
fn close_body(
    alloc: Global,
    body: &mut Body,
    front: &[u8],
    behind: &[u8],
    waiting: &mut VecDeque<Frame>,
) -> Result<(Unfinished, Option<WireFault>), AllocError>
    requires { length front.now ≡ body.old.to_come }
    ensures leaves { IfOk result (λ x. (rest : List ℕ) → IsBody body.old rest
        → Leaves waiting.old.items waiting.new.items (rest ++ (front.now ++ behind.now)) x.0 x.1) }
    ensures kept { OnErr result (body.new ≡ body.old) }
    ensures waiting { OnErr result (waiting.new.items ≡ waiting.old.items) }
{
    let before = waiting.len();
    // The place of the body's frame, which comes last: no step behind it fails.
    match put_behind(waiting, Frame::Turn) {
        Ok(()) => {}
        Err(fault) => return Err(fault),
    }
    let (rest, shown) = match take_behind(alloc, behind, waiting) {
        Ok(taken) => taken,
        Err(fault) => {
            waiting.truncate(before);
            return Err(fault);
        }
    };
    match body.close(alloc, front) {
        Ok(Some(frame)) => {
            put(waiting, before, frame);
            Ok((rest, shown))
        }
        Ok(None) => {
            waiting.truncate(before);
            Ok((Unfinished::new(), Some(WireFault::BadField)))
        }
        Err(fault) => {
            waiting.truncate(before);
            Err(fault)
        }
    }
}

// Takes a piece behind the bytes of a body: nothing where the body goes on, else what comes behind it.
//
// Refused for want of memory alone. Then the body and the frames that wait are as before.
fn feed_body(
    alloc: Global,
    body: &mut Body,
    piece: &[u8],
    waiting: &mut VecDeque<Frame>,
) -> Result<Option<(Unfinished, Option<WireFault>)>, AllocError>
    ensures grows { IfOk result (λ x. (rest : List ℕ) → IsBody body.old rest
        → Grows (λ y. y.0) (λ y. y.1) x body.new waiting.old.items waiting.new.items (rest ++ piece.now)) }
    ensures kept { OnErr result (body.new ≡ body.old) }
    ensures waiting { OnErr result (waiting.new.items ≡ waiting.old.items) }
{
    let n = body.to_come();
    if piece.len() < n {
        match body.grow(alloc, piece) {
            Ok(()) => return Ok(None),
            Err(fault) => return Err(fault),
        }
    }
    let (front, behind) = piece.split_at(n);
    match close_body(alloc, body, front, behind, waiting) {
        Ok(taken) => Ok(Some(taken)),
        Err(fault) => Err(fault),
    }
}

// Takes a piece behind bytes that are held.
//
// Refused for want of memory alone. Then some frames may have been put behind those that wait.
fn feed_few(
    alloc: Global,
    held: &Unfinished,
    piece: &[u8],
    waiting: &mut VecDeque<Frame>,
) -> Result<(Unfinished, Option<WireFault>), AllocError>
    ensures leaves { IfOk result (λ x. shown held.now.front ≡ None
        → Leaves waiting.old.items waiting.new.items (held.now.front ++ piece.now) x.0 x.1) }
    ensures kept { OnErr result (take (length waiting.old.items) waiting.new.items ≡ waiting.old.items) }
{
    let len = held.as_slice().len();
    if len == 0 {
        return take_behind(alloc, piece, waiting);
    }
    let (more, n) = held.with(piece);
    match front_of(alloc, more.as_slice()) {
        Ok(Front::Partial) => {
            let (_, behind) = piece.split_at(n);
            if behind.len() == 0 {
                return Ok((more, None));
            }
            let mut body = match body_of(alloc, more.as_slice()) {
                Ok(body) => body,
                Err(fault) => return Err(fault),
            };
            match feed_body(alloc, &mut body, behind, waiting) {
                Ok(Some(taken)) => Ok(taken),
                Ok(None) => Ok((Unfinished::of_body(body), None)),
                Err(fault) => Err(fault),
            }
        }
        Ok(Front::Whole(frame, used)) => {
            match put_behind(waiting, frame) {
                Ok(()) => {}
                Err(fault) => return Err(fault),
            }
            let (_, behind) = piece.split_at(used.saturating_sub(len).min(piece.len()));
            take_behind(alloc, behind, waiting)
        }
        Ok(Front::Faulty(fault)) => Ok((more, Some(fault))),
        Err(fault) => Err(fault),
    }
}

/// Takes a piece behind what came of a frame, and puts the frames that are whole behind those that wait: the fault that
/// is shown, if one is.
///
/// Refused for want of memory alone. Then what came and the frames that wait are as before.
pub(crate) fn feed(
    alloc: Global,
    bytes: &mut Unfinished,
    piece: &[u8],
    waiting: &mut VecDeque<Frame>,
) -> Result<Option<WireFault>, AllocError>
    ensures fed { IfOk result (λ shown. Fed bytes.old bytes.new waiting.old.items waiting.new.items piece.now shown) }
    ensures kept { OnErr result ((rest : List ℕ) → Holds bytes.old rest → Holds bytes.new rest) }
    ensures waiting { OnErr result (waiting.new.items ≡ waiting.old.items) }
{
    let old = waiting.len();
    // Most pieces end where a frame does.
    if bytes.is_empty() {
        return match feed_none(alloc, bytes, piece, waiting) {
            Ok(shown) => Ok(shown),
            Err(fault) => {
                waiting.truncate(old);
                Err(fault)
            }
        };
    }
    match bytes.take_body() {
        Some(body) => {
            let mut body = body;
            match feed_body(alloc, &mut body, piece, waiting) {
                Ok(Some((rest, shown))) => {
                    *bytes = rest;
                    Ok(shown)
                }
                Ok(None) => {
                    let grown = Unfinished::of_body(body);
                    *bytes = grown;
                    Ok(None)
                }
                Err(fault) => {
                    *bytes = Unfinished::of_body(body);
                    Err(fault)
                }
            }
        }
        None => match feed_few(alloc, bytes, piece, waiting) {
            Ok((rest, shown)) => {
                *bytes = rest;
                Ok(shown)
            }
            Err(fault) => {
                waiting.truncate(old);
                Err(fault)
            }
        },
    }
}
