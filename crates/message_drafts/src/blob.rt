//! The bytes of a blob, as they come.

ghost use Rattle.message_drafts.specs.Drafts.{longer};
ghost use Rattle.tree_streams.specs.declared.streams.NamedStream.{NamedStream};
ghost use Rattle.std.specs.Prelude.{[], ◌++◌, ◌≡◌, ◌≤◌, IfOk, OnErr, OnOk, length, take};

use cfb_names::name::Name;
use std::alloc::{AllocError, Global};
use std::marker::Model;
use tree_streams::streams::NamedStream;
use tree_values::bytes::Bytes;

/// The bytes of a blob, as they come.
#[derive(Drop)]
pub struct Blob {
    // So many of the bytes that were shared once, then those of the vector. Where nothing was refused, only one has
    // some.
    shared: Bytes,
    len: usize,
    more: Vec<u8>,
}

impl Model for Blob {
    ghost use Rattle.std.specs.Prelude.{List, ℕ, ◌≤◌, ◌++◌, length, take};

    ghost Value = { List ℕ };

    ghost view = { λ b. take b.len b.shared ++ b.more.items };

    ghost invariant = { λ b. b.len ≤ length b.shared };
}

// Puts bytes to the end of a blob that lacks so many. The blob takes at most twice what came, and no more than its
// length.
fn lengthen(blob: &mut Vec<u8>, missing: usize, bytes: &[u8]) -> Result<(), AllocError>
    requires { length bytes.now ≤ missing }
    ensures added { OnOk result (blob.new.items ≡ blob.old.items ++ bytes.now) }
    ensures kept { OnErr result (blob.new.items ≡ blob.old.items) }
{
    if blob.capacity() - blob.len() < bytes.len() {
        let most = missing.min(blob.len().max(bytes.len()));
        blob.reserve_exact(most)?;
    }
    blob.extend_from_slice(bytes)
}

// Two pieces, one behind the other, with memory of their own.
fn joined(alloc: Global, front: &[u8], back: &[u8]) -> Result<Bytes, AllocError>
    ensures { IfOk result (λ b. b ≡ front.now ++ back.now) }
{
    let mut all = Vec::from_slice(alloc, front)?;
    all.extend_from_slice(back)?;
    Bytes::from_vec(alloc, all)
}

impl Blob {
    /// No bytes.
    pub(crate) fn new(alloc: Global) -> Blob
        ensures { result ≡ [] }
    {
        Blob {
            shared: Bytes::new(alloc),
            len: 0,
            more: Vec::new(alloc),
        }
    }

    /// How many bytes came.
    pub(crate) fn len(&self) -> usize
        ensures { result ≡ length self.now }
    {
        self.shared.as_slice()[..self.len].len() + self.more.as_slice().len()
    }

    /// Puts bytes to the end, where so many lack.
    ///
    /// Refused for want of memory alone. Then the bytes are as before.
    pub(crate) fn add(&mut self, missing: usize, bytes: &[u8]) -> Result<(), AllocError>
        requires { length bytes.now ≤ missing }
        ensures added { OnOk result (self.new ≡ self.old ++ bytes.now) }
        ensures kept { OnErr result (self.new ≡ self.old) }
    {
        lengthen(&mut self.more, missing, bytes)
    }

    /// Keeps so many bytes.
    pub(crate) fn cut(&mut self, n: usize)
        ensures { self.new ≡ take n self.old }
    {
        if n < self.len {
            self.len = n;
            self.more.clear();
        } else {
            self.more.truncate(n - self.len);
        }
    }

    /// The bytes, shared with this blob. They are copied only where this was refused before, and bytes changed since.
    ///
    /// Refused for want of memory alone.
    pub(crate) fn share(&mut self, alloc: Global) -> Result<Bytes, AllocError>
        ensures given { IfOk result (λ b. b ≡ self.old) }
        ensures same { self.new ≡ self.old }
    {
        if self.len == 0 {
            let shared = Bytes::take_vec(alloc, &mut self.more)?;
            self.len = shared.len();
            self.shared = shared;
            return self.shared.copy(alloc);
        }
        if self.more.len() == 0 {
            if self.len == self.shared.len() {
                return self.shared.copy(alloc);
            }
        }
        joined(alloc, &self.shared.as_slice()[..self.len], &self.more)
    }
}

/// A stream whose bytes come.
#[derive(Drop)]
pub struct Growing {
    name: Name,
    blob: Blob,
}

impl Model for Growing {
    ghost use Rattle.tree_streams.specs.declared.streams.NamedStream.{NamedStream};

    ghost Value = { NamedStream };

    ghost view = { λ g. record { name = g.name; bytes = g.blob } };
}

impl Growing {
    /// No bytes under a name.
    pub(crate) fn new(alloc: Global, name: Name) -> Growing
        ensures { result ≡ record { name = name; bytes = [] } }
    {
        Growing {
            name,
            blob: Blob::new(alloc),
        }
    }

    /// The name.
    pub(crate) fn name(&self) -> &Name
        ensures { result.now ≡ self.now.name }
    {
        &self.name
    }

    /// How many bytes came.
    pub(crate) fn len(&self) -> usize
        ensures { result ≡ length self.now.bytes }
    {
        self.blob.len()
    }

    /// Puts bytes to the end, where so many lack.
    ///
    /// Refused for want of memory alone. Then the bytes are as before.
    pub(crate) fn add(&mut self, missing: usize, bytes: &[u8]) -> Result<(), AllocError>
        requires { length bytes.now ≤ missing }
        ensures added { OnOk result (self.new ≡ longer self.old bytes.now) }
        ensures kept { OnErr result (self.new ≡ self.old) }
    {
        self.blob.add(missing, bytes)
    }

    /// Keeps so many bytes.
    pub(crate) fn cut(&mut self, n: usize)
        ensures { self.new ≡ record { name = self.old.name; bytes = take n self.old.bytes } }
    {
        self.blob.cut(n)
    }

    /// The stream, whose bytes are shared.
    ///
    /// Refused for want of memory alone.
    pub(crate) fn share(&mut self, alloc: Global) -> Result<NamedStream, AllocError>
        ensures given { IfOk result (λ s. s ≡ self.old) }
        ensures same { self.new ≡ self.old }
    {
        let bytes = self.blob.share(alloc)?;
        Ok(NamedStream {
            name: self.name.copy(),
            bytes,
        })
    }
}
