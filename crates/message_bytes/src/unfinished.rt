//! A frame of which some bytes came.

ghost use Rattle.message_bytes.specs.Holding.{Holds, IsBody, MOST_HELD};
ghost use Rattle.message_model.specs.Frames.{shown};
ghost use Rattle.std.specs.Prelude.{[], true, ◌≡◌, ◌≤◌, ◌<◌, ◌+◌, ◌++◌, IfOk, None, Some, length, take};

use crate::front::{Head, head_of};
use message_drafts::body::Body;
use std::alloc::{AllocError, Global};
use std::marker::Model;

/// How many bytes are held as they came: a whole frame, where it has neither a blob nor a content.
pub(crate) const MOST_HELD: usize = 86;

/// How many bytes stand before a body.
const HEAD_LEN: usize = 10;

/// A frame of which some bytes came: these bytes, or where it is longer, its body.
pub(crate) struct Unfinished {
    held: [u8; MOST_HELD],
    len: usize,
    body: Option<Body>,
}

impl Model for Unfinished {
    ghost use Rattle.std.specs.Prelude.{take, ◌≤◌};
    ghost use Rattle.message_bytes.specs.Holding.{MOST_HELD, Rest};

    ghost Value = { Rest };

    ghost view = { λ u. record { front = take u.len u.held; body = u.body } };

    ghost invariant = { λ u. u.len ≤ MOST_HELD };
}

// Written out, so that letting go of it is one call for a proof, with or without a body.
impl Drop for Unfinished {
    fn drop(self) {
        let Unfinished {
            held: _,
            len: _,
            body,
        } = self;
        drop(body);
    }
}

/// The body of a frame of which these bytes came.
///
/// Refused for want of memory alone.
pub(crate) fn body_of(alloc: Global, bytes: &[u8]) -> Result<Body, AllocError>
    requires long { MOST_HELD ≤ length bytes.now }
    requires partial { shown bytes.now ≡ None }
    ensures { IfOk result (λ b. IsBody b bytes.now) }
{
    let (kind, len) = match head_of(bytes) {
        Head::Body(kind, len) => (kind, len),
        // So many bytes have a head, and they show no fault.
        Head::Short => unreachable!(),
        Head::Bad(_) => unreachable!(),
    };
    let (_, behind) = bytes.split_at(HEAD_LEN);
    Body::open(alloc, kind, len, behind)
}

// Puts bytes behind those that are held, as many as there is room for: how many.
fn fill(held: &mut [u8; MOST_HELD], len: usize, bytes: &[u8]) -> usize
    requires { len ≤ MOST_HELD }
    ensures within { (result ≤ length bytes.now) × (len + result ≤ MOST_HELD) }
    ensures full { result < length bytes.now → len + result ≡ MOST_HELD }
    ensures held { take (len + result) held.new ≡ take len held.old ++ take result bytes.now }
{
    let n = bytes.len().min(MOST_HELD - len);
    held[len..len + n].copy_from_slice(&bytes[..n]);
    n
}

impl Unfinished {
    /// Nothing of a frame.
    pub(crate) fn new() -> Unfinished
        ensures { result ≡ record { front = []; body = None } }
    {
        Unfinished {
            held: [0; MOST_HELD],
            len: 0,
            body: None,
        }
    }

    // So few bytes.
    fn few(bytes: &[u8]) -> Unfinished
        requires { length bytes.now ≤ MOST_HELD }
        ensures { result ≡ record { front = bytes.now; body = None } }
    {
        let mut held = [0; MOST_HELD];
        let len = bytes.len();
        held[..len].copy_from_slice(bytes);
        Unfinished {
            held,
            len,
            body: None,
        }
    }

    /// A body.
    pub(crate) fn of_body(body: Body) -> Unfinished
        ensures { result ≡ record { front = []; body = Some body } }
    {
        Unfinished {
            held: [0; MOST_HELD],
            len: 0,
            body: Some(body),
        }
    }

    /// A frame of which these bytes came.
    ///
    /// Refused for want of memory alone.
    pub(crate) fn begun(alloc: Global, bytes: &[u8]) -> Result<Unfinished, AllocError>
        requires { shown bytes.now ≡ None }
        ensures { IfOk result (λ u. Holds u bytes.now) }
    {
        if bytes.len() <= MOST_HELD {
            return Ok(Unfinished::few(bytes));
        }
        let body = body_of(alloc, bytes)?;
        Ok(Unfinished::of_body(body))
    }

    /// Whether nothing of a frame came.
    pub(crate) fn is_empty(&self) -> bool
        ensures { result ≡ true → self.now ≡ record { front = []; body = None } }
    {
        if self.len > 0 {
            return false;
        }
        match self.body {
            Some(_) => false,
            None => true,
        }
    }

    /// The bytes that are held.
    pub(crate) fn as_slice(&self) -> &[u8]
        ensures { result.now ≡ self.now.front }
    {
        &self.held[..self.len]
    }

    /// These bytes, and as many of a piece behind them as there is room for: how many.
    pub(crate) fn with(&self, piece: &[u8]) -> (Unfinished, usize)
        ensures within { result.1 ≤ length piece.now }
        ensures full { result.1 < length piece.now → MOST_HELD ≤ length result.0.front }
        ensures bytes { result.0 ≡ record { front = self.now.front ++ take result.1 piece.now; body = None } }
    {
        let mut held = self.held;
        let n = fill(&mut held, self.len, piece);
        let more = Unfinished {
            held,
            len: self.len + n,
            body: None,
        };
        (more, n)
    }

    /// Gives the body away.
    pub(crate) fn take_body(&mut self) -> Option<Body>
        ensures given { result ≡ self.old.body }
        ensures left { self.new ≡ record { front = self.old.front; body = None } }
    {
        self.body.take()
    }
}
