//! A body that comes in pieces.

ghost use Rattle.message_drafts.specs.Opens.{Comes, Follows, reads};
ghost use Rattle.std.specs.Prelude.{◌≡◌, ◌≤◌, ◌<◌, IfOk, OnErr, OnOk, length};

use crate::draft::Draft;
use crate::opening::opened;
use message_model::codes::Kind;
use message_model::frame::Frame;
use std::alloc::{AllocError, Global};
use std::marker::Model;

/// A body that comes in pieces: how many bytes are to come, and what is read of them. It keeps its blobs alone, each in
/// a vector of its own.
#[derive(Drop)]
pub struct Body {
    draft: Draft,
}

impl Model for Body {
    ghost use Rattle.message_drafts.specs.Opens.{Form, form};
    ghost use Rattle.message_drafts.specs.Drafts.{IsPlanned};

    ghost Value = { Form };

    ghost view = { λ b. form b.draft };

    ghost invariant = { λ b. IsPlanned b.draft };
}

impl Body {
    /// A body of a kind, of so many bytes, more than 76, of which these came, at least 76.
    ///
    /// Refused for want of memory alone.
    pub fn open(alloc: Global, kind: Kind, len: usize, front: &[u8]) -> Result<Body, AllocError>
        requires long { (76 < len) × (76 ≤ length front.now) }
        requires within { length front.now ≤ len }
        ensures { IfOk result (λ b. Comes kind len front.now b) }
    {
        let (opening, left, rest) = match opened(kind, front) {
            Some(fields) => fields,
            None => {
                let draft = Draft::bad(alloc, len - front.len());
                return Ok(Body { draft });
            }
        };
        let mut draft = Draft::begun(alloc, opening, left, len - (front.len() - rest.len()));
        draft.grow(alloc, rest)?;
        Ok(Body { draft })
    }

    /// How many bytes are to come.
    pub fn to_come(&self) -> usize
        ensures { result ≡ self.now.to_come }
    {
        self.draft.plan.to_come
    }

    /// Takes the next bytes, no more than are to come.
    ///
    /// Refused for want of memory alone. Then the body is as before.
    #[tactic(auto, unfolding(crate::specs::Drafts::resume, crate::specs::Opens::reads))]
    pub fn grow(&mut self, alloc: Global, bytes: &[u8]) -> Result<(), AllocError>
        requires { length bytes.now ≤ self.old.to_come }
        ensures goes { OnOk result (Follows self.old self.new bytes.now) }
        ensures kept { OnErr result (self.new ≡ self.old) }
    {
        self.draft.add(alloc, bytes)
    }

    /// Takes the last bytes: the frame that the body makes, if it makes one. The body is of no more use then.
    ///
    /// Refused for want of memory alone. Then the body is as before.
    #[tactic(auto, unfolding(crate::specs::Drafts::resume, crate::specs::Opens::reads))]
    pub fn close(&mut self, alloc: Global, bytes: &[u8]) -> Result<Option<Frame>, AllocError>
        requires { length bytes.now ≡ self.old.to_come }
        ensures made { IfOk result (λ f. f ≡ reads self.old bytes.now) }
        ensures kept { OnErr result (self.new ≡ self.old) }
    {
        self.draft.close(alloc, bytes)
    }
}
