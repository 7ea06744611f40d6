//! Documents of embedded objects.

ghost use Rattle.std.specs.Prelude.{[], ◌≡◌, ◌<◌, ◌^◌, ◌↔◌, IfOk, IsTrue, length};
ghost use Rattle.ole_model.specs.Documents.{no_objects};
ghost use Rattle.ole_model.specs.DocOf.{pushed};
ghost use Rattle.ole_model.specs.CompObjs.{CLASS_BYTES};
ghost use Rattle.ole_streams.specs.Docs.{IsArea, Pushes};
ghost use Rattle.tree_streams.specs.Streams.{AreInOrder};

use ole_model::fault::OleFault;
pub use ole_model::object::DocObject;
use std::alloc::{AllocError, Global};
use std::marker::Model;
use tree_streams::area::Area;

/// How many objects a document may have.
pub const MOST_OBJECTS: usize = 64;

/// A class id has 16 bytes.
fn class_is_whole(bytes: &[u8; 16])
    ensures { length bytes.now ≡ CLASS_BYTES }
{
    let _bytes = *bytes;
}

/// A number of an area has two bytes.
fn fits(n: u16)
    ensures { n < 2 ^ 16 }
{}

/// So have all four.
fn area_fits(area: Area)
    ensures { IsArea area }
{
    fits(area.x);
    fits(area.y);
    fits(area.w);
    fits(area.h);
}

/// What the types of an object's values promise: how many bytes, which numbers, in which order.
fn promises(object: &DocObject)
    ensures class { length object.now.class ≡ CLASS_BYTES }
    ensures area { IsArea object.now.area }
    ensures in_order { AreInOrder object.now.stored.streams }
{
    class_is_whole(object.class.as_bytes());
    area_fits(object.area);
    let _ = object.stored.streams.as_slice();
}

/// A session's number has four bytes.
fn session_fits(session: u32)
    ensures { session < 2 ^ 32 }
{}

/// A document: the session that its container was last in when it was written, 0 where there was none, and at most 64
/// objects, each within its limits.
#[derive(Drop)]
pub struct Doc {
    session: u32,
    objects: Vec<DocObject>,
}

impl Model for Doc {
    ghost use Rattle.ole_model.specs.Documents.{Doc as Document};
    ghost use Rattle.ole_streams.specs.Docs.{IsDoc};

    ghost Value = { Document };

    ghost view = { λ d. record { session = d.session; objects = d.objects.items } };

    ghost invariant = { λ d. IsDoc (record { session = d.session; objects = d.objects.items }) };
}

impl Doc {
    ghost use Rattle.ole_streams.specs.Docs.{IsDoc};

    /// A document of this session, without objects.
    pub fn new(alloc: Global, session: u32) -> Doc
        ensures { result ≡ no_objects session }
    {
        session_fits(session);
        Doc {
            session,
            objects: Vec::new(alloc),
        }
    }

    /// Its session, 0 where its container was in none.
    pub fn session(&self) -> u32
        ensures { result ≡ self.now.session }
    {
        self.session
    }

    /// Puts an object to the end.
    ///
    /// Refused: `TooManyObjects` where there are 64; `NotADocument` where a document can't hold it; then `NoMemory`. A
    /// refusal changes nothing.
    pub fn push(&mut self, object: DocObject) -> Result<(), OleFault>
        ensures { Pushes result (pushed self.old object) self.old self.new }
    {
        if self.objects.len() >= MOST_OBJECTS {
            return Err(OleFault::TooManyObjects);
        }
        if !object.is_within() {
            return Err(OleFault::NotADocument);
        }
        promises(&object);
        self.objects.push(object)?;
        Ok(())
    }

    /// The objects.
    pub fn as_slice(&self) -> &[DocObject]
        ensures objects { result.now ≡ self.now.objects }
        ensures within { IsDoc self.now }
    {
        &self.objects
    }

    /// The objects as a vector. It takes no memory.
    pub fn into_vec(self) -> Vec<DocObject>
        ensures objects { result.items ≡ self.objects }
        ensures within { IsDoc self }
    {
        self.objects
    }

    /// How many objects there are.
    pub fn len(&self) -> usize
        ensures { result ≡ length self.now.objects }
    {
        self.objects.len()
    }

    /// Whether there are none.
    pub fn is_empty(&self) -> bool
        ensures { IsTrue result ↔ (self.now.objects ≡ []) }
    {
        self.objects.is_empty()
    }

    /// An equal value.
    pub fn copy(&self, alloc: Global) -> Result<Doc, AllocError>
        ensures { IfOk result (λ d. d ≡ self.now) }
    {
        let mut objects = Vec::with_capacity(alloc, self.objects.len())?;
        for object in self.objects.as_slice() {
            objects.push(object.copy(alloc)?)?;
        }
        Ok(Doc {
            session: self.session,
            objects,
        })
    }
}
