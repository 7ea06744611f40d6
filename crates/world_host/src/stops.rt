//! A container that stops, and begins anew.

ghost use Rattle.std.specs.List.{flat_map};
ghost use Rattle.std.specs.Prelude.{◌≡◌, ◌≤◌, ◌<◌, ◌+◌, ◌++◌, ◌∷◌, [], IfOk, List, OnErr, OnOk, is_some, length};
ghost use Rattle.std.specs.Prelude.{nat_le, true, vec_capacity, vec_len, ℕ};
ghost use Rattle.message_values.specs.Found.{nth};
ghost use Rattle.container_model.specs.Record.{empty};
ghost use Rattle.container_model.specs.Saves.{image};
ghost use Rattle.world_model.specs.World.{HoldsDocument, MOST_EVENTS, quiet_outcome};
ghost use Rattle.world_model.specs.declared.logs.EventAnswer.TheVariants as told;
ghost use Rattle.world_model.specs.Story.{begun, has_image, is_among, may_stop, rested};
ghost use Rattle.world_host.specs.Stops.{AreMade, IsLeft, IsMade, MayGive, are_there, lacks_image, made_names, named};
ghost use Rattle.world_host.specs.Stops.{put_each, put_made};
ghost use Rattle.world_host.specs.View.{bare};

use crate::commits::{name_after, put_file};
use crate::host::{Host, add};
use container_core::container::ContainerCore;
use container_model::answer::Done;
use container_model::fault::ContainerFault;
use container_model::record::Frame;
use std::alloc::{AllocError, Global};
use std::mem::replace;
use tree_values::bytes::Bytes;
use world_model::event::Stop;
use world_model::logs::{Document, EventAnswer, File, Outcome, ServerDone, Taken};

/// What a host leaves where its container stops: the session, the logs, and the names of the files that the disk has
/// kept.
#[derive(Drop)]
pub struct Left {
    /// The session.
    pub session: u32,
    /// The object that each activation was made for, by the activations' numbers from 1.
    pub owners: Vec<u32>,
    /// The contents that the container took as work contents.
    pub taken: Vec<Taken>,
    /// What the container counted.
    pub container_done: Vec<Done>,
    /// What the servers counted.
    pub server_done: Vec<ServerDone>,
    /// The document of each frame's last counted commit.
    pub counted: Vec<Option<Document>>,
    /// The servers, by their incarnations, of which messages were forged.
    pub hostile: Vec<u32>,
    /// The names of the files that were made, by the rising numbers of their frames.
    pub names: Vec<Bytes>,
}

/// Whether a number is in a list.
pub fn is_among(frames: &[u32], f: u32) -> bool
    ensures { result ≡ is_among frames.now f }
{
    for x in frames {
        if *x == f {
            return true;
        }
    }
    false
}

// Adds the name of a file that is made.
fn push_name(alloc: Global, names: &mut Vec<Bytes>, made: &Option<File>) -> Result<(), AllocError>
    ensures { OnOk result (names.new.items ≡ names.old.items ++ named made.now) }
{
    match made {
        Some(file) => {
            names.push(file.name.copy(alloc)?)?;
            Ok(())
        }
        None => Ok(()),
    }
}

// The names of the files that are made.
fn names_of(alloc: Global, made: &[Option<File>]) -> Result<Vec<Bytes>, AllocError>
    ensures { IfOk result (λ v. v.items ≡ flat_map named made.now) }
{
    let mut names = Vec::new(alloc);
    for file in made {
        push_name(alloc, &mut names, file)?;
    }
    Ok(names)
}

// Makes the file of a frame, if any.
fn put_made(files: &mut Vec<File>, made: Option<File>)
    requires { vec_len files.old < vec_capacity files.old }
    ensures put { files.new.items ≡ put_made made files.old.items }
    ensures few { vec_len files.new ≤ vec_len files.old + 1 }
    ensures capacity { vec_capacity files.old ≤ vec_capacity files.new }
{
    match made {
        Some(file) => {
            let File { name, bytes } = file;
            put_file(files, name, bytes);
        }
        None => {}
    }
}

// Makes all of these files.
fn put_all(files: &mut Vec<File>, made: Vec<Option<File>>)
    requires { vec_len files.old + vec_len made ≤ vec_capacity files.old }
    ensures { files.new.items ≡ put_each made.items files.old.items }
{
    for file in made {
        put_made(files, file);
    }
}

impl Host {
    // A container has few frames.
    fn few_frames(&self)
        ensures { length self.now.core.frames ≤ 1000000 }
    {
        self.core.steady();
    }

    // Whether a number is a frame's.
    fn is_there(&self, f: u32) -> bool
        ensures { result ≡ is_some (nth self.now.core.frames f) }
    {
        match self.core.frame(f) {
            Some(_) => true,
            None => false,
        }
    }

    // Whether each of these numbers is.
    fn are_there(&self, frames: &[u32]) -> bool
        ensures { result ≡ are_there self.now.core.frames frames.now }
    {
        for f in frames {
            if !self.is_there(*f) {
                return false;
            }
        }
        true
    }

    // Whether a frame has a commit that is asked or in doubt, and can be written. Its file isn't made for that.
    fn has_image(&self, alloc: Global, f: u32) -> bool
        ensures { result ≡ has_image (image self.now.core f) }
    {
        match self.core.document(alloc, f) {
            Ok(_) => true,
            Err(fault) => match fault {
                ContainerFault::NoMemory => true,
                _ => false,
            },
        }
    }

    // Whether a frame among these has none.
    fn lacks_image(&self, alloc: Global, frames: &[u32], f: u32) -> bool
        ensures { result ≡ lacks_image self.now.core frames.now f }
    {
        is_among(frames, f) && !self.has_image(alloc, f)
    }

    // Whether the disk can have kept a commit of each of these frames. Each frame is looked at once, however long the
    // list is.
    fn may_stop(&self, alloc: Global, frames: &[u32]) -> bool
        requires { length self.now.core.frames ≤ 1000000 }
        ensures { result ≡ may_stop self.now.core frames.now }
    {
        if !self.are_there(frames) {
            return false;
        }
        for i in 0..self.core.all_frames().len() {
            if self.lacks_image(alloc, frames, i as u32 + 1) {
                return false;
            }
        }
        true
    }

    // The file that is made of a frame, where it is among these.
    fn made_file(
        &self,
        alloc: Global,
        frames: &[u32],
        f: u32,
        frame: &Frame,
    ) -> Result<Option<File>, AllocError>
        ensures { IfOk result (IsMade (bare self.now) frames.now f frame.now) }
    {
        if !is_among(frames, f) {
            return Ok(None);
        }
        match self.image(alloc, f) {
            Ok((_, image)) => Ok(Some(File {
                name: name_after(alloc, frame)?,
                bytes: Bytes::from_slice(alloc, image.bytes())?,
            })),
            Err(_) => Err(AllocError),
        }
    }

    // The same of all frames, by rising number.
    fn made_files(&self, alloc: Global, frames: &[u32]) -> Result<Vec<Option<File>>, AllocError>
        requires { length self.now.core.frames ≤ 1000000 }
        ensures { IfOk result (λ v. AreMade (bare self.now) frames.now 1 self.now.core.frames v.items) }
    {
        let mut made = Vec::new(alloc);
        for (i, frame) in self.core.all_frames().iter().enumerate() {
            made.push(self.made_file(alloc, frames, i as u32 + 1, frame)?)?;
        }
        Ok(made)
    }

    // Room for so many files, and for an answer.
    fn file_room(&mut self, count: usize) -> Result<(), AllocError>
        ensures files { OnOk result (vec_len self.new.files + count ≤ vec_capacity self.new.files) }
        ensures answers { OnOk result (vec_len self.new.answers < vec_capacity self.new.answers) }
        ensures kept { bare self.new ≡ bare self.old }
    {
        self.files.reserve(count)?;
        self.answers.reserve(1)?;
        Ok(())
    }

    // These files are made, and the container begins anew. Gives what is left.
    fn begin_anew(
        &mut self,
        alloc: Global,
        core: ContainerCore,
        made: Vec<Option<File>>,
        names: Vec<Bytes>,
    ) -> Left
        requires fresh { core ≡ empty self.old.core.numbers }
        requires files { vec_len self.old.files + vec_len made ≤ vec_capacity self.old.files }
        requires answers { vec_len self.old.answers < vec_capacity self.old.answers }
        ensures begun { bare self.new ≡ record (begun (bare self.old)) {
          files =
              put_each made.items self.old.files.items;
          answers = self.old.answers.items ++ told.Took quiet_outcome
              ∷ [];
        } }
        ensures left { IsLeft self.old names.items result }
    {
        put_all(&mut self.files, made);
        add(&mut self.answers, EventAnswer::Took(Outcome::quiet(alloc)));
        let session = self.core.session();
        self.core = core;
        Left {
            session,
            owners: replace(&mut self.owners, Vec::new(alloc)),
            taken: replace(&mut self.taken, Vec::new(alloc)),
            container_done: replace(&mut self.container_done, Vec::new(alloc)),
            server_done: replace(&mut self.server_done, Vec::new(alloc)),
            counted: replace(&mut self.counted, Vec::new(alloc)),
            hostile: replace(&mut self.hostile, Vec::new(alloc)),
            names,
        }
    }

    // A stop that may be, of a host that takes more.
    fn rest(
        &mut self,
        alloc: Global,
        core: ContainerCore,
        frames: &[u32],
    ) -> Result<Left, AllocError>
        requires few { length self.old.core.frames ≤ 1000000 }
        requires fresh { core ≡ empty self.old.core.numbers }
        ensures stopped { OnOk result ((images : ℕ → List ℕ)
            × ((f : ℕ) → is_among frames.now f ≡ true → HoldsDocument (bare self.old) f (images f))
            × (bare self.new ≡ rested (bare self.old) images frames.now)) }
        ensures left { IfOk result (IsLeft self.old (made_names frames.now 1 self.old.core.frames)) }
        ensures kept { OnErr result (bare self.new ≡ bare self.old) }
    {
        let made = self.made_files(alloc, frames)?;
        let names = names_of(alloc, &made)?;
        self.file_room(made.len())?;
        Ok(self.begin_anew(alloc, core, made, names))
    }

    /// The container stops, and `core` begins anew in its place. Of these frames the disk has kept the commit that is
    /// asked or in doubt: its file is made. The messages, the answers and the other files stay. Gives what is left, for
    /// which there is room or not.
    ///
    /// Refused: `NotEnabled` where one of these frames has no such commit; then `EventLimit`; then `NoMemory`. Then
    /// nothing changes.
    pub fn stop(
        &mut self,
        alloc: Global,
        core: ContainerCore,
        frames: &[u32],
        room: bool,
    ) -> Result<Left, Stop>
        requires fresh { core ≡ empty self.old.core.numbers }
        ensures room { OnOk result (room ≡ true) }
        ensures stopped { OnOk result ((images : ℕ → List ℕ)
            × ((f : ℕ) → is_among frames.now f ≡ true → HoldsDocument (bare self.old) f (images f))
            × (bare self.new ≡ rested (bare self.old) images frames.now)) }
        ensures left { IfOk result (IsLeft self.old (made_names frames.now 1 self.old.core.frames)) }
        ensures may { MayGive (may_stop self.old.core frames.now)
            (nat_le MOST_EVENTS (length self.old.answers.items)) result }
        ensures kept { OnErr result (bare self.new ≡ bare self.old) }
    {
        self.few_frames();
        if !self.may_stop(alloc, frames) {
            return Err(Stop::NotEnabled);
        }
        if self.is_full() {
            return Err(Stop::EventLimit);
        }
        if !room {
            return Err(Stop::NoMemory);
        }
        match self.rest(alloc, core, frames) {
            Ok(left) => Ok(left),
            Err(_) => Err(Stop::NoMemory),
        }
    }
}
