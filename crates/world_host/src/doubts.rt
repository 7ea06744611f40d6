//! What a commit that fails leaves in a world, and one in doubt that is resolved.

ghost use Rattle.std.specs.Prelude.{◌≡◌, ◌≤◌, IfErr, IfOk, List, Ok, OnErr, OnOk, false, length, true, vec_len, ℕ};
ghost use Rattle.message_values.specs.Found.{nth};
ghost use Rattle.container_model.specs.Saves as saves;
ghost use Rattle.container_model.specs.Saves.{commit_failed, resolve};
ghost use Rattle.world_model.specs.World.{MayChoose, StopsFor, limited, making, only_taken, resolved};
ghost use Rattle.world_model.specs.declared.event.Event.TheVariants as event;
ghost use Rattle.world_host.specs.Files.{is_committing_in, is_doubtful_in};
ghost use Rattle.world_host.specs.Rooms.{most};
ghost use Rattle.world_host.specs.Servers.{ends_in};
ghost use Rattle.world_host.specs.View.{bare, started};

use crate::commits::{counted_document, lacking, name_after, put_file, set_counted};
use crate::host::{Host, Servers, add_all};
use container_model::answer::FrameDocument;
use container_model::fault::ContainerFault;
use container_model::record::Phase;
use std::alloc::{AllocError, Global};
use store_images::image::Image;
use tree_values::bytes::Bytes;
use world_model::event::Stop;

impl Host {
    // Whether it is in doubt whether the frame's file was committed.
    fn is_doubtful(&self, f: u32) -> bool
        ensures { result ≡ is_doubtful_in (nth self.now.core.frames f) }
    {
        match self.core.frame(f) {
            Some(frame) => match frame.phase {
                Phase::InDoubt => true,
                _ => false,
            },
            None => false,
        }
    }

    // What a commit that fails leaves.
    fn doubt(&mut self, alloc: Global, f: u32) -> Result<Servers, AllocError>
        requires { is_committing_in (nth self.old.core.frames f) ≡ true }
        ensures taken { IfOk result (λ s. only_taken (bare self.old) (commit_failed self.old.core f)
            ≡ Ok (started (bare self.new) s.starts.items)) }
        ensures ends { IfOk result (λ s. s.ends.items ≡ ends_in (commit_failed self.old.core f)) }
        ensures few { IfOk result (λ s. vec_len s.starts ≤ most self.old.core) }
        ensures kept { OnErr result (bare self.new ≡ bare self.old) }
    {
        let room = self.make_room(alloc)?;
        match self.core.commit_failed(alloc, f) {
            Ok(answer) => Ok(self.join(alloc, answer, room)),
            Err(fault) => Err(lacking(fault)),
        }
    }

    // What a commit leaves that is lost.
    fn lose(&mut self, alloc: Global, f: u32) -> Result<Servers, AllocError>
        requires { is_doubtful_in (nth self.old.core.frames f) ≡ true }
        ensures taken { IfOk result (λ s. only_taken (bare self.old) (resolve self.old.core f false)
            ≡ Ok (started (bare self.new) s.starts.items)) }
        ensures ends { IfOk result (λ s. s.ends.items ≡ ends_in (resolve self.old.core f false)) }
        ensures few { IfOk result (λ s. vec_len s.starts ≤ most self.old.core) }
        ensures kept { OnErr result (bare self.new ≡ bare self.old) }
    {
        let room = self.make_room(alloc)?;
        match self.core.resolve(alloc, f, false) {
            Ok(answer) => Ok(self.join(alloc, answer, room)),
            Err(fault) => Err(lacking(fault)),
        }
    }

    // What a commit leaves that was kept: the file, what is counted, and what the container asks for.
    fn keep(
        &mut self,
        alloc: Global,
        f: u32,
        saved: FrameDocument,
        image: Image,
    ) -> Result<Servers, AllocError>
        requires saved { saves.image self.old.core f ≡ Ok saved }
        requires doubtful { is_doubtful_in (nth self.old.core.frames f) ≡ true }
        ensures taken { IfOk result (λ s. resolved (bare self.old) f true image
            ≡ Ok (started (bare self.new) s.starts.items)) }
        ensures ends { IfOk result (λ s. s.ends.items ≡ ends_in (resolve self.old.core f true)) }
        ensures few { IfOk result (λ s. vec_len s.starts ≤ most self.old.core) }
        ensures kept { OnErr result (bare self.new ≡ bare self.old) }
    {
        let Some(frame) = self.core.frame(f) else {
            unreachable!()
        };
        let name = name_after(alloc, frame)?;
        let (k, counted) = self.counted(alloc, f, &saved)?;
        let bytes = Bytes::from_slice(alloc, image.bytes())?;
        let room = self.make_room(alloc)?;
        self.files.reserve(1)?;
        self.container_done.reserve(counted.len())?;
        self.core.put_image(f, image);
        match self.core.resolve(alloc, f, true) {
            Ok(answer) => {
                put_file(&mut self.files, name, bytes);
                add_all(&mut self.container_done, counted);
                set_counted(&mut self.counted, f, counted_document(k, saved));
                Ok(self.join(alloc, answer, room))
            }
            Err(fault) => Err(lacking(fault)),
        }
    }

    /// The commit of a frame's file fails. Gives the servers that are ended and started; for those that are started
    /// there is room or not.
    ///
    /// Refused: `NotEnabled` where the commit isn't asked for; then `EventLimit`; then `NoMemory`. Then nothing
    /// changes.
    pub fn fail(&mut self, alloc: Global, f: u32, room: bool) -> Result<Servers, Stop>
        ensures room { OnOk result (room ≡ true) }
        ensures taken { IfOk result
            (λ s. limited (bare self.old) (only_taken (bare self.old) (commit_failed self.old.core f))
            ≡ Ok (started (bare self.new) s.starts.items)) }
        ensures ends { IfOk result (λ s. s.ends.items ≡ ends_in (commit_failed self.old.core f)) }
        ensures few { IfOk result (λ s. vec_len s.starts ≤ most self.old.core) }
        ensures refused { IfErr result
            (StopsFor (limited (bare self.old) (only_taken (bare self.old) (commit_failed self.old.core f)))) }
        ensures kept { OnErr result (bare self.new ≡ bare self.old) }
    {
        if !self.is_committing(f) {
            return Err(Stop::NotEnabled);
        }
        if self.is_full() {
            return Err(Stop::EventLimit);
        }
        if !room {
            return Err(Stop::NoMemory);
        }
        match self.doubt(alloc, f) {
            Ok(servers) => Ok(servers),
            Err(_) => Err(Stop::NoMemory),
        }
    }

    /// A commit in doubt is lost. Gives the servers that are ended and started; for those that are started there is
    /// room or not.
    ///
    /// Refused: `NotEnabled` where no commit of the frame is in doubt; then `EventLimit`; then `NoMemory`. Then nothing
    /// changes.
    pub fn resolve_lost(&mut self, alloc: Global, f: u32, room: bool) -> Result<Servers, Stop>
        ensures room { OnOk result (room ≡ true) }
        ensures taken { IfOk result
            (λ s. limited (bare self.old) (only_taken (bare self.old) (resolve self.old.core f false))
            ≡ Ok (started (bare self.new) s.starts.items)) }
        ensures ends { IfOk result (λ s. s.ends.items ≡ ends_in (resolve self.old.core f false)) }
        ensures few { IfOk result (λ s. vec_len s.starts ≤ most self.old.core) }
        ensures refused { IfErr result
            (StopsFor (limited (bare self.old) (only_taken (bare self.old) (resolve self.old.core f false)))) }
        ensures kept { OnErr result (bare self.new ≡ bare self.old) }
    {
        if !self.is_doubtful(f) {
            return Err(Stop::NotEnabled);
        }
        if self.is_full() {
            return Err(Stop::EventLimit);
        }
        if !room {
            return Err(Stop::NoMemory);
        }
        match self.lose(alloc, f) {
            Ok(servers) => Ok(servers),
            Err(_) => Err(Stop::NoMemory),
        }
    }

    /// A commit in doubt was kept: the file denotes its document. Gives the servers that are ended and started; for
    /// those that are started there is room or not.
    ///
    /// Refused: `NotEnabled` where no commit of the frame is in doubt; then `EventLimit`; then `NoMemory`. Then nothing
    /// changes.
    pub fn resolve_kept(&mut self, alloc: Global, f: u32, room: bool) -> Result<Servers, Stop>
        ensures room { OnOk result (room ≡ true) }
        ensures taken { IfOk result (λ s. (bytes : List ℕ) × MayChoose (bare self.old) (making bytes)
            (event.Resolve f true) × (limited (bare self.old) (resolved (bare self.old) f true bytes)
            ≡ Ok (started (bare self.new) s.starts.items))) }
        ensures ends { IfOk result (λ s. s.ends.items ≡ ends_in (resolve self.old.core f true)) }
        ensures few { IfOk result (λ s. vec_len s.starts ≤ most self.old.core) }
        ensures refused { IfErr result (λ stop. (bytes : List ℕ)
            → StopsFor (limited (bare self.old) (resolved (bare self.old) f true bytes)) stop) }
        ensures kept { OnErr result (bare self.new ≡ bare self.old) }
    {
        if !self.is_doubtful(f) {
            return Err(Stop::NotEnabled);
        }
        match self.image(alloc, f) {
            Ok((saved, image)) => {
                if self.is_full() {
                    return Err(Stop::EventLimit);
                }
                if !room {
                    return Err(Stop::NoMemory);
                }
                match self.keep(alloc, f, saved, image) {
                    Ok(servers) => Ok(servers),
                    Err(_) => Err(Stop::NoMemory),
                }
            }
            Err(ContainerFault::NoMemory) => {
                if self.is_full() {
                    return Err(Stop::EventLimit);
                }
                Err(Stop::NoMemory)
            }
            Err(_) => Err(Stop::NotEnabled),
        }
    }
}
