//! A server.

ghost use Rattle.std.specs.Prelude.{◌≡◌, Some, None, [], true, IfErr, IfOk, MatchOption, OnErr, OnOk, option_map};
ghost use Rattle.message_values.specs.Found.{find};
ghost use Rattle.object_core.specs.Kinds.{kind_of};
ghost use Rattle.object_core.specs.Content.{is_content};
ghost use Rattle.object_core.specs.Objects as object;
ghost use Rattle.object_core.specs.Pictures.{picture_bytes};
ghost use Rattle.server_model.specs.Pictures.{picture_of};
ghost use Rattle.server_model.specs.Server.{begun_content, is_act, last_reply, stored_of, view_of};
ghost use Rattle.server_core.specs.Places.{IsAt};
ghost use Rattle.server_core.specs.View.{seen};

use crate::facts::Facts;
use crate::picture::presented;
use crate::seats::Seats;
use indexmap::IndexMap;
use message_values::message::Message;
use message_values::operation::Operation;
use object_core::embedded::Embedded;
use object_core::fault::EmbedFault;
use server_model::activation_view::ActivationView;
use std::alloc::{AllocError, Global};
use tree_streams::stored::Stored;
use tree_values::bytes::Bytes;

/// An object in a server.
#[derive(Drop)]
pub struct Seat {
    /// The object.
    pub boxed: Box<dyn Embedded>,
}

impl Seat {
    /// Begins with the content of a Load, or with none.
    ///
    /// Refused: `BadContent` where the object doesn't take the content. Then its own is as before.
    pub(crate) fn begin(&mut self, alloc: Global, operation: &Operation) -> Result<(), EmbedFault>
        ensures begun { OnOk result (begun_content (kind_of (content self.old.boxed)) operation.now
            ≡ Ok (content self.new.boxed)) }
        ensures refused { IfErr result
            (object.Refuses (begun_content (kind_of (content self.old.boxed)) operation.now)) }
        ensures kept { OnErr result (content self.new.boxed ≡ content self.old.boxed) }
    {
        match operation {
            Operation::Load(_, content) => self.boxed.load(alloc, &content.streams),
            _ => {
                self.boxed.init();
                Ok(())
            }
        }
    }

    // The lines of the object's picture.
    fn lines(&self, alloc: Global) -> Result<Vec<u8>, EmbedFault>
        ensures drawn { IfOk result (λ v. v.items ≡ picture_bytes (content self.now.boxed)) }
        ensures refused { IfErr result (λ e. e ≡ EmbedFault.NoMemory) }
    {
        self.boxed.render(alloc)
    }

    // The picture of the object as it is written.
    fn picture(&self, alloc: Global) -> Result<Bytes, EmbedFault>
        requires { is_content (content self.now.boxed) ≡ true }
        ensures drawn { IfOk result (λ p. p ≡ picture_of (content self.now.boxed)) }
        ensures refused { IfErr result (λ e. e ≡ EmbedFault.NoMemory) }
    {
        let lines = self.lines(alloc)?;
        let picture = presented(alloc, lines.as_slice())?;
        Ok(picture)
    }

    /// What is stored of the object: its content, and its picture as it is written.
    ///
    /// Refused for want of memory alone.
    pub(crate) fn stored(&self, alloc: Global) -> Result<Stored, EmbedFault>
        ensures stored { IfOk result (λ s. s ≡ stored_of (content self.now.boxed)) }
        ensures refused { IfErr result (λ e. e ≡ EmbedFault.NoMemory) }
    {
        let streams = self.boxed.save(alloc)?;
        let picture = self.picture(alloc)?;
        Ok(Stored { streams, picture })
    }
}

/// An activation of an object, open while it has one: what is kept of it, and the key of its seat.
#[derive(Drop)]
pub struct Activation {
    pub(crate) facts: Facts,
    pub(crate) key: Option<usize>,
}

/// A server. Its activations are found by their numbers and stand in the order in which they were made.
#[derive(Drop)]
pub struct ServerCore {
    pub(crate) session: u32,
    pub(crate) inc: u32,
    pub(crate) numbers: u32,
    pub(crate) acts: IndexMap<u32, Activation>,
    pub(crate) seats: Seats,
}

impl ServerCore {
    /// A server of this session and incarnation without activations. It may have so many activations, and each so many
    /// writes.
    pub fn new(alloc: Global, session: u32, inc: u32, numbers: u32) -> ServerCore
        ensures { seen (λ s. content s.boxed) result ≡ record {
          session = session;
          inc = inc;
          numbers = numbers;
          acts = [];
        } }
    {
        ServerCore {
            session,
            inc,
            numbers,
            acts: IndexMap::new(alloc),
            seats: Seats::new(alloc),
        }
    }

    // Where an activation stands.
    pub(crate) fn place(&self, act: u32) -> Option<usize>
        ensures { MatchOption result (find (is_act act) (seen (λ s. content s.boxed) self.now).acts ≡ None)
            (IsAt self.now.acts.entries act) }
    {
        // `len` is called for its clause that the keys are distinct, which the proof cites.
        let _len = self.acts.len();
        match self.acts.get_full(&act) {
            Some((i, _, _)) => Some(i),
            None => None,
        }
    }

    /// What is seen of an activation, none where it isn't known.
    pub fn activation(&self, act: u32) -> Option<ActivationView>
        ensures { result ≡ option_map view_of (find (is_act act) (seen (λ s. content s.boxed) self.now).acts) }
    {
        match self.place(act) {
            Some(i) => {
                let activation = &self.acts[i];
                let opened = self.seats.get(act, activation.key).is_some();
                Some(activation.facts.view(opened))
            }
            None => None,
        }
    }

    /// The reply to an activation's last call, none where it isn't known.
    ///
    /// Refused for want of memory alone.
    pub fn last_reply(&self, alloc: Global, act: u32) -> Result<Option<Message>, AllocError>
        ensures { IfOk result (λ r. r ≡ last_reply (seen (λ s. content s.boxed) self.now) act) }
    {
        match self.place(act) {
            Some(i) => {
                let said = self.acts[i].facts.last_reply(alloc, self.inc, act)?;
                Ok(Some(Message {
                    session: self.session,
                    said,
                }))
            }
            None => Ok(None),
        }
    }
}
