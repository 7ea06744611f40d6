//! Lists of bytes whose copies and parts share their memory.

ghost use Rattle.std.specs.Prelude.{[], ◌+◌, ◌≡◌, ◌≤◌, ◌↔◌, IfOk, IsTrue, OnErr, OnOk, drop as dropped, length, take};

use std::alloc::{AllocError, Global};
use std::marker::Model;
use std::mem;
use std::rc::Rc;

/// A list of bytes, as a stream's. Its copies and parts share one buffer.
pub struct Bytes {
    // None where there are no bytes, so that these take no memory.
    buffer: Option<Rc<Vec<u8>>>,
    // Where in the buffer the bytes begin, and how many they are.
    start: usize,
    len: usize,
}

impl Model for Bytes {
    ghost use Rattle.std.specs.Option.{option_map};
    ghost use Rattle.std.specs.Prelude.{◌≡◌, List, [], ℕ, drop, length, take, unwrap_or};

    ghost Value = { List ℕ };

    ghost view = { λ b. take b.len (drop b.start (unwrap_or (option_map (λ buffer. buffer.value.items) b.buffer) [])) };

    // So how many there are is told without a look at the buffer.
    ghost invariant = { λ b. length
        (take b.len (drop b.start (unwrap_or (option_map (λ buffer. buffer.value.items) b.buffer) []))) ≡ b.len };
}

// Written out, so that letting go of bytes is one call for a proof, with or without a buffer.
impl Drop for Bytes {
    fn drop(self) {
        let Bytes {
            buffer,
            start: _,
            len: _,
        } = self;
        drop(buffer);
    }
}

/// So many bytes of a buffer from a place on, as far as they are there.
fn cut(buffer: &[u8], start: usize, len: usize) -> &[u8]
    ensures { result.now ≡ take len (dropped start buffer.now) }
{
    let rest = &buffer[start.min(buffer.len())..];
    &rest[..len.min(rest.len())]
}

/// The vector of a buffer, itself where nobody else has the buffer, and else a copy.
fn unshared(buffer: Rc<Vec<u8>>) -> Result<Vec<u8>, AllocError>
    ensures { IfOk result (λ v. v.items ≡ buffer.value.items) }
{
    Rc::unwrap_or_clone(buffer)
}

impl Bytes {
    /// No bytes.
    pub fn new(_alloc: Global) -> Bytes
        ensures { result ≡ [] }
    {
        Bytes {
            buffer: None,
            start: 0,
            len: 0,
        }
    }

    /// These bytes. It takes the memory of a count, and none where there are no bytes.
    pub fn from_vec(alloc: Global, items: Vec<u8>) -> Result<Bytes, AllocError>
        ensures { IfOk result (λ b. b ≡ items.items) }
    {
        let len = items.len();
        if len == 0 {
            return Ok(Bytes::new(alloc));
        }
        Ok(Bytes {
            buffer: Some(Rc::new(alloc, items)?),
            start: 0,
            len,
        })
    }

    /// The bytes of a vector, which has none then. It takes the memory of a count, and none where there are no bytes.
    ///
    /// Refused for want of memory alone. Then the vector has its bytes still.
    pub fn take_vec(alloc: Global, items: &mut Vec<u8>) -> Result<Bytes, AllocError>
        ensures taken { IfOk result (λ b. b ≡ items.old.items) }
        ensures none { OnOk result (items.new.items ≡ []) }
        ensures kept { OnErr result (items.new.items ≡ items.old.items) }
    {
        let len = items.len();
        if len == 0 {
            return Ok(Bytes::new(alloc));
        }
        match Rc::new(alloc, mem::replace(items, Vec::new(alloc))) {
            Ok(buffer) => Ok(Bytes {
                buffer: Some(buffer),
                start: 0,
                len,
            }),
            Err(refused) => {
                *items = refused.value;
                Err(AllocError)
            }
        }
    }

    /// A copy of these bytes, with memory of its own.
    pub fn from_slice(alloc: Global, items: &[u8]) -> Result<Bytes, AllocError>
        ensures { IfOk result (λ b. b ≡ items.now) }
    {
        Bytes::from_vec(alloc, Vec::from_slice(alloc, items)?)
    }

    /// The bytes as a vector. It takes memory only where a copy of them is still there, or they are a part of others.
    pub fn into_vec(self, alloc: Global) -> Result<Vec<u8>, AllocError>
        ensures { IfOk result (λ v. v.items ≡ self) }
    {
        let Bytes { buffer, start, len } = self;
        match buffer {
            Some(buffer) => {
                if start > 0 || len < buffer.len() {
                    return Vec::from_slice(alloc, cut(&buffer, start, len));
                }
                unshared(buffer)
            }
            None => Ok(Vec::new(alloc)),
        }
    }

    /// The bytes as a slice.
    pub fn as_slice(&self) -> &[u8]
        ensures { result.now ≡ self.now }
    {
        match &self.buffer {
            Some(buffer) => cut(buffer, self.start, self.len),
            None => &[],
        }
    }

    /// How many bytes there are.
    pub fn len(&self) -> usize
        ensures { result ≡ length self.now }
    {
        self.len
    }

    /// Whether there are none.
    pub fn is_empty(&self) -> bool
        ensures { IsTrue result ↔ (self.now ≡ []) }
    {
        self.len == 0
    }

    /// An equal value, which shares the memory of this one and takes none.
    ///
    /// Refused: where there are too many copies to be counted.
    pub fn copy(&self, _alloc: Global) -> Result<Bytes, AllocError>
        ensures { IfOk result (λ b. b ≡ self.now) }
    {
        Ok(Bytes {
            buffer: match &self.buffer {
                Some(buffer) => Some(Rc::clone(buffer)?),
                None => None,
            },
            start: self.start,
            len: self.len,
        })
    }

    /// So many of these bytes from a place on, which share the memory of these and take none. All of that memory is
    /// kept as long as a part of it is there.
    ///
    /// Refused: where there are too many copies to be counted.
    pub fn part(&self, alloc: Global, start: usize, len: usize) -> Result<Bytes, AllocError>
        requires { start + len ≤ length self.now }
        ensures { IfOk result (λ b. b ≡ take len (dropped start self.now)) }
    {
        if len == 0 {
            return Ok(Bytes::new(alloc));
        }
        match &self.buffer {
            Some(buffer) => Ok(Bytes {
                buffer: Some(Rc::clone(buffer)?),
                start: self.start + start,
                len,
            }),
            None => Ok(Bytes::new(alloc)),
        }
    }
}
