//! A body of which some bytes came.

ghost use Rattle.message_drafts.specs.Drafts.{Begins, Advances, IsFull, IsLong, IsOver, IsPlanned, Keeps, Took};
ghost use Rattle.message_drafts.specs.Drafts.{lengthened};
ghost use Rattle.message_drafts.specs.declared.draft.Phase.TheVariants.{Fields, Picture};
ghost use Rattle.message_model.specs.Reading.{may_follow};
ghost use Rattle.tree_streams.specs.Streams.{is_next};
ghost use Rattle.std.specs.Prelude.{[], ◌∷◌, ◌≡◌, ◌≤◌, ◌<◌, IfOk, OnErr, OnOk, length, take};

use crate::blob::{Blob, Growing};
use crate::fields::{hold, need, stream_field};
use cfb_names::name::Name;
use message_bodies::body::number_in;
use std::alloc::{AllocError, Global};
use tree_streams::limits::is_ole_name;
use tree_values::class_id::ClassId;

/// What a body says before its first blob, the session first.
#[derive(Drop)]
pub enum Opening {
    /// A call of an edit.
    Edit(u32, u32, u32, u32),
    /// A call of a load, as an object of this class.
    Load(u32, u32, u32, u32, ClassId),
    /// A reply that is a content.
    Content(u32, u32, u32, u32),
    /// A write.
    Write(u32, u32, u32, u32, u32),
}

/// What comes next.
#[derive(Clone, Copy)]
pub enum Phase {
    /// What the last stream lacks, then the fields of the next one, or the length of the picture.
    Fields,
    /// What the picture lacks.
    Picture,
    /// The body is none of its kind.
    Bad,
}

/// How far a body has come.
#[derive(Clone, Copy)]
pub struct Plan {
    pub(crate) phase: Phase,
    // How many streams are to come, and how many bytes they and the picture may have.
    pub(crate) left: usize,
    pub(crate) room: usize,
    // How many bytes the last blob lacks, and the body.
    pub(crate) missing: usize,
    pub(crate) to_come: usize,
    // The bytes of a field that isn't whole yet.
    pub(crate) held: [u8; 36],
    pub(crate) len: usize,
}

/// A body of which some bytes came.
#[derive(Drop)]
pub struct Draft {
    pub(crate) opening: Opening,
    pub(crate) plan: Plan,
    // The last one may lack bytes.
    pub(crate) streams: Vec<Growing>,
    pub(crate) picture: Blob,
}

// Puts bytes to the end of the last stream, which lacks so many.
fn lengthen_last(streams: &mut Vec<Growing>, missing: usize, bytes: &[u8]) -> Result<(), AllocError>
    requires { length bytes.now ≤ missing }
    ensures added { OnOk result (streams.new.items ≡ lengthened streams.old.items bytes.now) }
    ensures kept { OnErr result (streams.new.items ≡ streams.old.items) }
{
    match streams.last_mut() {
        Some(stream) => stream.add(missing, bytes),
        None => Ok(()),
    }
}

// Whether a name is greater than the last one.
fn is_next(streams: &Vec<Growing>, name: &Name) -> bool
    ensures { result ≡ is_next streams.now.items name.now }
{
    match streams.last() {
        Some(last) => last.name().cmp(name).is_lt(),
        None => true,
    }
}

// Whether a stream of this name may follow these.
fn may_follow(streams: &Vec<Growing>, name: &Name) -> bool
    ensures { result ≡ may_follow streams.now.items name.now }
{
    is_next(streams, name) && !is_ole_name(name)
}

impl Draft {
    // Takes bytes that the last stream lacks: how many.
    fn take_of_stream(&mut self, bytes: &[u8]) -> Result<usize, AllocError>
        requires planned { IsPlanned self.old }
        requires phase { self.old.plan.phase ≡ Fields }
        requires some { (0 < length bytes.now) × (0 < self.old.plan.missing) }
        ensures took { IfOk result (λ n. Took self.old self.new bytes.now n) }
        ensures planned { OnOk result (IsPlanned self.new) }
        ensures keeps { Keeps self.old self.new }
    {
        let n = bytes.len().min(self.plan.missing);
        lengthen_last(&mut self.streams, self.plan.missing, &bytes[..n])?;
        self.plan.missing -= n;
        self.plan.to_come -= n;
        Ok(n)
    }

    // Takes bytes that the picture lacks: how many.
    fn take_of_picture(&mut self, bytes: &[u8]) -> Result<usize, AllocError>
        requires planned { IsPlanned self.old }
        requires phase { self.old.plan.phase ≡ Picture }
        requires some { (0 < length bytes.now) × (0 < self.old.plan.missing) }
        ensures took { IfOk result (λ n. Took self.old self.new bytes.now n) }
        ensures planned { OnOk result (IsPlanned self.new) }
        ensures keeps { Keeps self.old self.new }
    {
        let n = bytes.len().min(self.plan.missing);
        self.picture.add(self.plan.missing, &bytes[..n])?;
        self.plan.missing -= n;
        self.plan.to_come -= n;
        Ok(n)
    }

    // Begins the picture, whose length came.
    fn begin_picture(&mut self)
        requires full { IsFull self.old }
        requires picture { self.old.plan.left ≡ 0 }
        ensures begins { Begins self.old self.new }
        ensures keeps { Keeps self.old self.new }
    {
        let len = number_in(&self.plan.held[..self.plan.len]) as usize;
        if len > self.plan.room {
            self.plan.phase = Phase::Bad;
            return;
        }
        if len > self.plan.to_come {
            self.plan.phase = Phase::Bad;
            return;
        }
        self.plan.phase = Phase::Picture;
        self.plan.missing = len;
    }

    // Goes on behind the length of a name.
    fn begin_name(&mut self, n: u8)
        requires full { IsFull self.old }
        requires name { (0 < self.old.plan.left) × (take self.old.plan.len self.old.plan.held ≡ n ∷ []) }
        ensures begins { Begins self.old self.new }
        ensures keeps { Keeps self.old self.new }
    {
        if n < 1 {
            self.plan.phase = Phase::Bad;
            return;
        }
        if n > 31 {
            self.plan.phase = Phase::Bad;
        }
    }

    // Begins a stream, whose name and length came.
    fn begin_stream(&mut self, alloc: Global) -> Result<(), AllocError>
        requires full { IsFull self.old }
        requires stream { (0 < self.old.plan.left) × IsLong (take self.old.plan.len self.old.plan.held) }
        ensures begins { OnOk result (Begins self.old self.new) }
        ensures keeps { Keeps self.old self.new }
    {
        let (name, len) = match stream_field(&self.plan.held[..self.plan.len]) {
            Some(field) => field,
            None => {
                self.plan.phase = Phase::Bad;
                return Ok(());
            }
        };
        if !may_follow(&self.streams, &name) {
            self.plan.phase = Phase::Bad;
            return Ok(());
        }
        if len > self.plan.room {
            self.plan.phase = Phase::Bad;
            return Ok(());
        }
        if len > self.plan.to_come {
            self.plan.phase = Phase::Bad;
            return Ok(());
        }
        self.streams.push(Growing::new(alloc, name))?;
        self.plan.left -= 1;
        self.plan.room -= len;
        self.plan.missing = len;
        self.plan.len = 0;
        Ok(())
    }

    // Reads a field that is whole.
    fn settle(&mut self, alloc: Global) -> Result<(), AllocError>
        requires full { IsFull self.old }
        ensures begins { OnOk result (Begins self.old self.new) }
        ensures keeps { Keeps self.old self.new }
    {
        if self.plan.left == 0 {
            self.begin_picture();
            return Ok(());
        }
        match &self.plan.held[..self.plan.len] {
            [n] => {
                let n = *n;
                self.begin_name(n);
                Ok(())
            }
            _ => self.begin_stream(alloc),
        }
    }

    // Takes bytes that a field lacks: how many.
    fn take_of_field(&mut self, alloc: Global, bytes: &[u8]) -> Result<usize, AllocError>
        requires planned { IsPlanned self.old }
        requires fields { (self.old.plan.phase ≡ Fields) × (self.old.plan.missing ≡ 0) }
        requires some { (0 < length bytes.now) × (length bytes.now ≤ self.old.plan.to_come) }
        ensures took { IfOk result (λ n. Took self.old self.new bytes.now n) }
        ensures planned { OnOk result (IsPlanned self.new) }
        ensures keeps { Keeps self.old self.new }
    {
        let need = need(self.plan.left, &self.plan.held[..self.plan.len]);
        let n = hold(&mut self.plan.held, self.plan.len, need, bytes);
        self.plan.len += n;
        self.plan.to_come -= n;
        if self.plan.len == need {
            self.settle(alloc)?;
        }
        Ok(n)
    }

    // Passes over the bytes of a body that is none of its kind.
    fn pass_over(&mut self, bytes: &[u8])
        requires planned { IsPlanned self.old }
        requires over { IsOver self.old }
        requires some { (0 < length bytes.now) × (length bytes.now ≤ self.old.plan.to_come) }
        ensures goes { Advances self.old self.new bytes.now }
        ensures planned { IsPlanned self.new }
        ensures keeps { Keeps self.old self.new }
    {
        self.plan.phase = Phase::Bad;
        self.plan.to_come -= bytes.len();
    }

    // Takes the next ones of these bytes: how many.
    fn step(&mut self, alloc: Global, bytes: &[u8]) -> Result<usize, AllocError>
        requires planned { IsPlanned self.old }
        requires some { (0 < length bytes.now) × (length bytes.now ≤ self.old.plan.to_come) }
        ensures took { IfOk result (λ n. Took self.old self.new bytes.now n) }
        ensures planned { OnOk result (IsPlanned self.new) }
        ensures keeps { Keeps self.old self.new }
    {
        let lacks = self.plan.missing > 0;
        match self.plan.phase {
            Phase::Fields => {
                if lacks {
                    return self.take_of_stream(bytes);
                }
                self.take_of_field(alloc, bytes)
            }
            Phase::Picture => {
                if lacks {
                    return self.take_of_picture(bytes);
                }
                self.pass_over(bytes);
                Ok(bytes.len())
            }
            Phase::Bad => {
                self.pass_over(bytes);
                Ok(bytes.len())
            }
        }
    }

    /// Takes the next bytes of the body, no more than are to come.
    ///
    /// Refused for want of memory alone. Then some of the bytes may have been taken.
    pub(crate) fn grow(&mut self, alloc: Global, bytes: &[u8]) -> Result<(), AllocError>
        requires planned { IsPlanned self.old }
        requires within { length bytes.now ≤ self.old.plan.to_come }
        ensures goes { OnOk result (Advances self.old self.new bytes.now) }
        ensures planned { OnOk result (IsPlanned self.new) }
        ensures keeps { Keeps self.old self.new }
    {
        let mut used = 0;
        'steps: while used < bytes.len() {
            used += self.step(alloc, &bytes[used..])?;
        }
        Ok(())
    }
}
