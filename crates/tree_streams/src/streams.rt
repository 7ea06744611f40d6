//! Lists of named streams.

ghost use Rattle.std.specs.Prelude.{[], ◌≡◌, ◌↔◌, IfOk, IsTrue, length, option_copied};
ghost use Rattle.tree_streams.specs.Streams.{AreInOrder, Pushes, bytes_of, is_next, pushed};

use crate::fault::StreamsFault;
use cfb_names::name::Name;
use std::alloc::{AllocError, Global};
use std::marker::Model;
use tree_values::bytes::Bytes;

/// A stream with its name.
#[derive(Drop)]
pub struct NamedStream {
    /// The name, as it is spelled.
    pub name: Name,
    /// The bytes.
    pub bytes: Bytes,
}

impl NamedStream {
    /// An equal value.
    pub fn copy(&self, alloc: Global) -> Result<NamedStream, AllocError>
        ensures { IfOk result (λ s. s ≡ self.now) }
    {
        Ok(NamedStream {
            name: self.name.copy(),
            bytes: self.bytes.copy(alloc)?,
        })
    }
}

/// Streams in name order, no name twice.
#[derive(Drop)]
pub struct Streams {
    items: Vec<NamedStream>,
}

impl Model for Streams {
    ghost use Rattle.std.specs.Prelude.{List};
    ghost use Rattle.tree_streams.specs.declared.streams.NamedStream.{NamedStream};
    ghost use Rattle.tree_streams.specs.Streams.{AreInOrder};

    ghost Value = { List NamedStream };

    ghost view = { λ s. s.items.items };

    ghost invariant = { λ s. AreInOrder s.items.items };
}

impl Streams {
    /// No streams.
    pub fn new(alloc: Global) -> Streams
        ensures { result ≡ [] }
    {
        Streams {
            items: Vec::new(alloc),
        }
    }

    /// Puts a stream to the end.
    ///
    /// Refused: `OutOfOrder` where its name isn't greater than the last one; then `NoMemory`.
    pub fn push(&mut self, stream: NamedStream) -> Result<(), StreamsFault>
        ensures { Pushes result (pushed self.old stream) self.old self.new }
    {
        if !self.is_next(&stream.name) {
            return Err(StreamsFault::OutOfOrder);
        }
        self.items.push(stream)?;
        Ok(())
    }

    /// Whether a name is greater than the last one, so that a stream of it can be put to the end.
    pub fn is_next(&self, name: &Name) -> bool
        ensures { result ≡ is_next self.now name.now }
    {
        match self.items.last() {
            Some(last) => last.name.cmp(name).is_lt(),
            None => true,
        }
    }

    /// The bytes of the stream of a name.
    pub fn get(&self, name: &Name) -> Option<&Bytes>
        ensures { option_copied result ≡ bytes_of self.now name.now }
    {
        for stream in self.items.as_slice() {
            if stream.name.cmp(name).is_eq() {
                return Some(&stream.bytes);
            }
        }
        None
    }

    /// The streams.
    pub fn as_slice(&self) -> &[NamedStream]
        ensures streams { result.now ≡ self.now }
        ensures in_order { AreInOrder self.now }
    {
        &self.items
    }

    /// How many streams there are.
    pub fn len(&self) -> usize
        ensures { result ≡ length self.now }
    {
        self.items.len()
    }

    /// Whether there are none.
    pub fn is_empty(&self) -> bool
        ensures { IsTrue result ↔ (self.now ≡ []) }
    {
        self.items.is_empty()
    }

    /// An equal value.
    pub fn copy(&self, alloc: Global) -> Result<Streams, AllocError>
        ensures { IfOk result (λ s. s ≡ self.now) }
    {
        let mut items = Vec::with_capacity(alloc, self.items.len())?;
        for stream in self.items.as_slice() {
            items.push(stream.copy(alloc)?)?;
        }
        Ok(Streams { items })
    }
}

mod owned;
