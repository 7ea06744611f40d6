//! The frame that a body makes.

ghost use Rattle.message_drafts.specs.Drafts.{Alike, IsOfContent, IsPlanned, call_of, frame_of, resume};
ghost use Rattle.std.specs.Prelude.{[], ◌≡◌, IfOk};

use crate::blob::Growing;
use crate::draft::{Draft, Opening, Phase};
use message_model::frame::Frame;
use message_values::answer::Answer;
use message_values::message::{Message, Said};
use message_values::operation::Operation;
use std::alloc::{AllocError, Global};
use tree_streams::stored::Stored;
use tree_streams::streams::{NamedStream, Streams};

// A call.
fn call(session: u32, inc: u32, act: u32, n: u32, operation: Operation) -> Frame
    ensures { result ≡ call_of session inc act n operation }
{
    let said = Said::Call {
        inc,
        act,
        n,
        operation,
    };
    Frame::Message(Message { session, said })
}

// The frame that a content completes.
fn content_frame(opening: &Opening, content: Stored) -> Frame
    requires { IsOfContent opening.now }
    ensures { result ≡ frame_of opening.now content.streams content.picture }
{
    match opening {
        Opening::Edit(_, _, _, _) => Frame::Turn,
        Opening::Load(session, inc, act, n, class) => {
            call(*session, *inc, *act, *n, Operation::Load(*class, content))
        }
        Opening::Content(session, inc, act, n) => {
            let answer = Answer::Content(content);
            let said = Said::Reply {
                inc: *inc,
                act: *act,
                n: *n,
                answer,
            };
            Frame::Message(Message {
                session: *session,
                said,
            })
        }
        Opening::Write(session, inc, act, s, w) => {
            let said = Said::Write {
                inc: *inc,
                act: *act,
                s: *s,
                w: *w,
                content,
            };
            Frame::Message(Message {
                session: *session,
                said,
            })
        }
    }
}

// The streams, whose bytes are shared.
fn shared(alloc: Global, streams: &mut Vec<Growing>) -> Result<Vec<NamedStream>, AllocError>
    ensures given { IfOk result (λ v. v.items ≡ streams.old.items) }
    ensures same { streams.new.items ≡ streams.old.items }
{
    let mut items = Vec::with_capacity(alloc, streams.len())?;
    'streams: for at in 0..streams.len() {
        let item = streams[at].share(alloc)?;
        items.push(item)?;
    }
    Ok(items)
}

impl Draft {
    /// The frame that the body makes, once it is whole. Its bytes are shared with the draft.
    ///
    /// Refused for want of memory alone.
    pub(crate) fn frame(&mut self, alloc: Global) -> Result<Option<Frame>, AllocError>
        requires planned { IsPlanned self.old }
        requires whole { self.old.plan.to_come ≡ 0 }
        ensures made { IfOk result (λ f. f ≡ resume self.old []) }
        ensures same { Alike self.old self.new }
    {
        match self.plan.phase {
            Phase::Picture => {}
            _ => return Ok(None),
        }
        let picture = self.picture.share(alloc)?;
        if let Opening::Edit(session, inc, act, n) = &self.opening {
            return Ok(Some(call(*session, *inc, *act, *n, Operation::Edit(picture))));
        }
        let items = shared(alloc, &mut self.streams)?;
        let streams = match Streams::from_vec(items) {
            Some(streams) => streams,
            None => return Ok(None),
        };
        let content = Stored { streams, picture };
        Ok(Some(content_frame(&self.opening, content)))
    }
}
