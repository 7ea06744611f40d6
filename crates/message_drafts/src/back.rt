//! What a body was before, where a growth is refused.

ghost use Rattle.message_drafts.specs.Drafts.{Alike, Advances, IsMark, IsPlanned, Keeps, cut_last, last_len, resume};
ghost use Rattle.message_drafts.specs.declared.draft.Draft.{Draft};
ghost use Rattle.std.specs.Prelude.{◌≡◌, ◌≤◌, IfOk, OnErr, OnOk, length, take};

use crate::blob::Growing;
use crate::draft::{Draft, Plan};
use message_model::frame::Frame;
use std::alloc::{AllocError, Global};

/// How far a body was.
#[derive(Clone, Copy)]
pub(crate) struct Mark {
    plan: Plan,
    // How many streams there were, and how many bytes the last one and the picture had.
    count: usize,
    last: usize,
    picture: usize,
}

// How many bytes the last stream has.
fn last_len(streams: &Vec<Growing>) -> usize
    ensures { result ≡ last_len streams.now.items }
{
    match streams.last() {
        Some(last) => last.len(),
        None => 0,
    }
}

// Keeps so many bytes of the last stream.
fn cut_last(streams: &mut Vec<Growing>, n: usize)
    ensures { streams.new.items ≡ cut_last n streams.old.items }
{
    match streams.last_mut() {
        Some(stream) => stream.cut(n),
        None => {}
    }
}

impl Draft {
    // How far it is.
    fn mark(&self) -> Mark
        ensures { IsMark result self.now }
    {
        Mark {
            plan: self.plan,
            count: self.streams.len(),
            last: last_len(&self.streams),
            picture: self.picture.len(),
        }
    }

    // Gives back what a mark was set at.
    fn restore(&mut self, mark: Mark)
        ensures { (before : Draft) → IsMark mark before → Keeps before self.old → Alike before self.new }
    {
        self.plan = mark.plan;
        self.streams.truncate(mark.count);
        cut_last(&mut self.streams, mark.last);
        self.picture.cut(mark.picture);
    }

    /// Takes the next bytes of the body, no more than are to come.
    ///
    /// Refused for want of memory alone. Then it is as before.
    pub(crate) fn add(&mut self, alloc: Global, bytes: &[u8]) -> Result<(), AllocError>
        requires planned { IsPlanned self.old }
        requires within { length bytes.now ≤ self.old.plan.to_come }
        ensures goes { OnOk result (Advances self.old self.new bytes.now) }
        ensures planned { IsPlanned self.new }
        ensures same { OnErr result (Alike self.old self.new) }
    {
        let mark = self.mark();
        match self.grow(alloc, bytes) {
            Ok(()) => Ok(()),
            Err(fault) => {
                self.restore(mark);
                Err(fault)
            }
        }
    }

    // Takes the last bytes of the body: its frame, if it makes one.
    fn fill(&mut self, alloc: Global, bytes: &[u8]) -> Result<Option<Frame>, AllocError>
        requires planned { IsPlanned self.old }
        requires whole { length bytes.now ≡ self.old.plan.to_come }
        ensures made { IfOk result (λ f. f ≡ resume self.old bytes.now) }
        ensures planned { OnOk result (IsPlanned self.new) }
        ensures keeps { Keeps self.old self.new }
    {
        self.grow(alloc, bytes)?;
        self.frame(alloc)
    }

    /// Takes the last bytes of the body: its frame, if it makes one.
    ///
    /// Refused for want of memory alone. Then it is as before.
    pub(crate) fn close(&mut self, alloc: Global, bytes: &[u8]) -> Result<Option<Frame>, AllocError>
        requires planned { IsPlanned self.old }
        requires whole { length bytes.now ≡ self.old.plan.to_come }
        ensures made { IfOk result (λ f. f ≡ resume self.old bytes.now) }
        ensures planned { IsPlanned self.new }
        ensures same { OnErr result (Alike self.old self.new) }
    {
        let mark = self.mark();
        match self.fill(alloc, bytes) {
            Ok(frame) => Ok(frame),
            Err(fault) => {
                self.restore(mark);
                Err(fault)
            }
        }
    }
}
