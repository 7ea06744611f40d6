//! What a commit that is done leaves in a world.

ghost use Rattle.std.specs.Prelude.{◌++◌, ◌∷◌, [], ◌+◌, ◌<◌, ◌≤◌, ◌≡◌, IfOk, IfErr, IfSome, MatchOption, length, true};
ghost use Rattle.std.specs.Prelude.{OnErr, OnOk, Ok, Some, None, List, ℕ, map, option_copied, vec_len, vec_capacity};
ghost use Rattle.message_values.specs.Found.{nth, set_nth, find};
ghost use Rattle.container_model.specs.Record as container;
ghost use Rattle.container_model.specs.Saves as saves;
ghost use Rattle.container_model.specs.Saves.{commit_done, counted_of, document, done_entry, image, document_tree};
ghost use Rattle.container_model.specs.Saves.{name_after};
ghost use Rattle.container_model.specs.declared.record.Phase.TheVariants as phase;
ghost use Rattle.ole_model.specs.DocOf.{DocOf};
ghost use Rattle.cfb_file.specs.Denotes.{Denotes};
ghost use Rattle.world_model.specs.World.{MayChoose, StopsFor, done, frame_file, is_file, kept_commit, limited};
ghost use Rattle.world_model.specs.World.{put_file};
ghost use Rattle.world_model.specs.World.{making};
ghost use Rattle.world_model.specs.declared.event.Event.TheVariants as event;
ghost use Rattle.world_host.specs.Files.{IsFileAt, IsNoFile, is_committing_in};
ghost use Rattle.world_host.specs.Rooms.{most};
ghost use Rattle.world_host.specs.Servers.{ends_in};
ghost use Rattle.world_host.specs.View.{bare, started};

use crate::host::{Host, Room, Servers, add, add_all};
use crate::opens::file_bytes;
use container_model::answer::{Done, FrameDocument, Part};
use container_model::fault::ContainerFault;
use container_model::record::{Frame, Phase};
use std::alloc::{AllocError, Global};
use store_images::image::Image;
use tree_values::bytes::Bytes;
use world_model::event::Stop;
use world_model::logs::{Document, File};

/// The name that a frame has once its commit is done.
pub fn name_after(alloc: Global, frame: &Frame) -> Result<Bytes, AllocError>
    ensures { IfOk result (λ b. b ≡ name_after frame.now.name frame.now.asked) }
{
    match &frame.asked {
        Some(name) => name.copy(alloc),
        None => frame.name.copy(alloc),
    }
}

// Where the file of this name stands.
pub(crate) fn file_place(files: &[File], name: &[u8]) -> Option<usize>
    ensures fits { IfSome result (λ i. i < length files.now) }
    ensures place { MatchOption result (IsNoFile name.now files.now) (λ i. IsFileAt name.now files.now i) }
{
    for (i, file) in files.iter().enumerate() {
        if file.name.as_slice() == name {
            return Some(i);
        }
    }
    None
}

// These bytes are the file of this name.
pub(crate) fn put_file(files: &mut Vec<File>, name: Bytes, bytes: Bytes)
    requires { vec_len files.old < vec_capacity files.old }
    ensures put { files.new.items ≡ put_file name bytes files.old.items }
    ensures few { vec_len files.new ≤ vec_len files.old + 1 }
    ensures capacity { vec_capacity files.old ≤ vec_capacity files.new }
{
    match file_place(files, name.as_slice()) {
        Some(i) => files[i] = File { name, bytes },
        None => add(files, File { name, bytes }),
    }
}

// The document of a frame's last counted commit.
pub(crate) fn set_counted(counted: &mut Vec<Option<Document>>, frame: u32, document: Document)
    ensures set { counted.new.items ≡ set_nth counted.old.items frame (Some document) }
    ensures len { vec_len counted.new ≡ vec_len counted.old }
    ensures capacity { vec_capacity counted.new ≡ vec_capacity counted.old }
{
    if frame == 0 {
        return;
    }
    let place = (frame - 1) as usize;
    if place < counted.len() {
        counted[place] = Some(document);
    }
}

// The document that a save of this number counts.
pub(crate) fn counted_document(k: u32, saved: FrameDocument) -> Document
    ensures { result ≡ record { k = k; session = saved.session; parts = saved.parts } }
{
    Document {
        k,
        session: saved.session,
        parts: saved.parts,
    }
}

// What a commit counts of an object, under the number of the save.
fn entry(alloc: Global, k: u32, part: &Part) -> Result<Done, AllocError>
    ensures { IfOk result (λ d. d ≡ done_entry k part.now) }
{
    Ok(Done {
        object: part.object,
        k,
        content: part.content.copy(alloc)?,
    })
}

// What a commit counts of a document, in order.
fn entries(alloc: Global, k: u32, parts: &[Part]) -> Result<Vec<Done>, AllocError>
    ensures { IfOk result (λ v. v.items ≡ map (done_entry k) parts.now) }
{
    let mut done = Vec::new(alloc);
    for part in parts {
        done.push(entry(alloc, k, part)?)?;
    }
    Ok(done)
}

// Nothing is left but want of memory.
pub(crate) fn lacking(fault: ContainerFault) -> AllocError
    requires { fault ≡ ContainerFault.NoMemory }
{
    match fault {
        ContainerFault::NoMemory => AllocError,
        _ => unreachable!(),
    }
}

impl Host {
    // Whether a commit of the frame is asked for.
    pub(crate) fn is_committing(&self, f: u32) -> bool
        ensures { result ≡ is_committing_in (nth self.now.core.frames f) }
    {
        match self.core.frame(f) {
            Some(frame) => match frame.phase {
                Phase::Committing => true,
                _ => false,
            },
            None => false,
        }
    }

    // The document of a frame whose commit is asked for or in doubt, and the image of the file that is committed: of
    // its clauses those that a world speaks of.
    pub(crate) fn image(
        &self,
        alloc: Global,
        f: u32,
    ) -> Result<(FrameDocument, Image), ContainerFault>
        ensures document { IfOk result (λ w. image self.now.core f ≡ Ok w.0) }
        ensures denotes { IfOk result (λ w. ∥ Denotes w.1 (document_tree w.0) ∥₁) }
        ensures holds { IfOk result (λ w. DocOf (document_tree w.0) (document w.0)) }
        ensures refused { IfErr result (container.Refuses (image self.now.core f)) }
    {
        self.core.commit_image(alloc, f)
    }

    // What a commit of the frame counts: the contents of its document, under the number of its save. That number, too.
    pub(crate) fn counted(
        &self,
        alloc: Global,
        f: u32,
        saved: &FrameDocument,
    ) -> Result<(u32, Vec<Done>), AllocError>
        requires { image self.now.core f ≡ Ok saved.now }
        ensures number { IfOk result (λ c. IfSome (nth self.now.core.frames f) (λ frame. c.0 ≡ frame.k)) }
        ensures counted { IfOk result (λ c. c.1.items ≡ counted_of self.now.core f) }
    {
        let Some(frame) = self.core.frame(f) else {
            unreachable!()
        };
        let k = frame.k;
        let counted = entries(alloc, k, saved.parts.as_slice())?;
        Ok((k, counted))
    }

    // What a commit that is done leaves: the file, what is counted, and what the container asks for.
    fn commit(
        &mut self,
        alloc: Global,
        f: u32,
        saved: FrameDocument,
        image: Image,
    ) -> Result<Servers, AllocError>
        requires saved { saves.image self.old.core f ≡ Ok saved }
        requires committing { is_committing_in (nth self.old.core.frames f) ≡ true }
        ensures taken { IfOk result (λ s. done (bare self.old) f image ≡ Ok (started (bare self.new) s.starts.items)) }
        ensures ends { IfOk result (λ s. s.ends.items ≡ ends_in (commit_done self.old.core f)) }
        ensures few { IfOk result (λ s. vec_len s.starts ≤ most self.old.core) }
        ensures kept { OnErr result (bare self.new ≡ bare self.old) }
    {
        let Some(frame) = self.core.frame(f) else {
            unreachable!()
        };
        let name = name_after(alloc, frame)?;
        let (k, counted) = self.counted(alloc, f, &saved)?;
        let bytes = Bytes::from_slice(alloc, image.bytes())?;
        let room = self.make_room(alloc)?;
        self.files.reserve(1)?;
        self.container_done.reserve(counted.len())?;
        self.core.put_image(f, image);
        match self.core.commit_done(alloc, f) {
            Ok(answer) => {
                put_file(&mut self.files, name, bytes);
                add_all(&mut self.container_done, counted);
                set_counted(&mut self.counted, f, counted_document(k, saved));
                Ok(self.join(alloc, answer, room))
            }
            Err(fault) => Err(lacking(fault)),
        }
    }

    /// The commit of a frame's file is done: the file denotes its document. Gives the servers that are ended and
    /// started; for those that are started there is room or not.
    ///
    /// Refused: `NotEnabled` where the commit isn't asked for; then `EventLimit`; then `NoMemory`. Then nothing
    /// changes.
    pub fn done(&mut self, alloc: Global, f: u32, room: bool) -> Result<Servers, Stop>
        ensures room { OnOk result (room ≡ true) }
        ensures taken { IfOk result (λ s. (bytes : List ℕ) × MayChoose (bare self.old) (making bytes) (event.Done f)
            × (limited (bare self.old) (done (bare self.old) f bytes)
            ≡ Ok (started (bare self.new) s.starts.items))) }
        ensures ends { IfOk result (λ s. s.ends.items ≡ ends_in (commit_done self.old.core f)) }
        ensures few { IfOk result (λ s. vec_len s.starts ≤ most self.old.core) }
        ensures refused { IfErr result (λ stop. (bytes : List ℕ)
            → StopsFor (limited (bare self.old) (done (bare self.old) f bytes)) stop) }
        ensures kept { OnErr result (bare self.new ≡ bare self.old) }
    {
        if !self.is_committing(f) {
            return Err(Stop::NotEnabled);
        }
        match self.image(alloc, f) {
            Ok((saved, image)) => {
                if self.is_full() {
                    return Err(Stop::EventLimit);
                }
                if !room {
                    return Err(Stop::NoMemory);
                }
                match self.commit(alloc, f, saved, image) {
                    Ok(servers) => Ok(servers),
                    Err(_) => Err(Stop::NoMemory),
                }
            }
            Err(ContainerFault::NoMemory) => {
                if self.is_full() {
                    return Err(Stop::EventLimit);
                }
                Err(Stop::NoMemory)
            }
            Err(_) => Err(Stop::NotEnabled),
        }
    }

    /// The file of a frame whose commit was counted, none while it is in doubt whether the last one was done.
    pub fn frame_file(&self, f: u32) -> Option<&[u8]>
        ensures { option_copied result ≡ frame_file (bare self.now) f }
    {
        let frame = match self.core.frame(f) {
            Some(frame) => frame,
            None => return None,
        };
        match frame.phase {
            Phase::InDoubt => return None,
            _ => {}
        }
        if !frame.stored {
            return None;
        }
        file_bytes(&self.files, frame.name.as_slice())
    }
}
