//! The container.

use crate::frame_images::Images;
use crate::screen::screen;
use crate::{commits, images, opens, reaps};
use container_checks::lookups::{frame_numbers, object_numbers};
use container_laws::apart_laws::messages_stay_apart;
use container_links::resending::pending_calls;
use container_model::answer::{Answer, FrameDocument};
use container_model::command::Command;
use container_model::fault::ContainerFault;
use container_model::record::{Frame, Object};
use container_model::server_link::ServerLink;
use container_numbers::sound_laws::{
    commands_want_sessions, few_frames_after, in_session_from_the_start, sessions_stay, sound_after,
};
use container_state::state::State;
use container_steps::steady_laws::steady_after;
use message_values::message::Message;
use std::alloc::{AllocError, Global};
use std::marker::Model;
use store_images::image::Image;
use tree_values::bytes::Bytes;

/// The limits of a container.
#[derive(Clone, Copy)]
pub struct Limits {
    /// The greatest number that is drawn, 1 to 1,000,000.
    pub numbers: u32,
}

/// A container: its frames and objects, and the servers that it started. Its record is steady, within its numbers and
/// has at most 8 frames, whatever it was told. All of it is in its one session, and before it has one no server is
/// started.
///
/// Beside its record it keeps of each frame the image of the file that was counted last, and the one of its commit that
/// isn't counted yet, where it was given these. What a frame is saved in next depends on them, and no step of the
/// record does.
#[derive(Drop)]
pub struct ContainerCore {
    state: State,
    images: Images,
}

impl Model for ContainerCore {
    ghost use Rattle.container_queues.specs.Steady.{Steady};
    ghost use Rattle.container_model.specs.Record.{Record};
    ghost use Rattle.container_model.specs.Room.{IsSound};
    ghost use Rattle.container_numbers.specs.FewFrames.{FewFrames};
    ghost use Rattle.container_numbers.specs.Sessions.{InSession};

    ghost Value = { Record };

    ghost view = { λ c. c.state };

    ghost invariant = { λ c. Steady c.state × IsSound c.state × FewFrames c.state × InSession c.state };
}

impl ContainerCore {
    ghost use Rattle.std.specs.Prelude.{◌≡◌, ◌≢◌, ◌≤◌, ◌+◌, IfErr, IfOk, List, Ok, OnErr, OnOk, length, map};
    ghost use Rattle.std.specs.Prelude.{option_copied, if◌then◌else◌, []};
    ghost use Rattle.container_core.specs.Opening.{MayRefuse, looked_at};
    ghost use Rattle.container_laws.specs.Apart.{StaysApart};
    ghost use Rattle.container_model.specs.Opens.{Given, IsReadAs, opened};
    ghost use Rattle.std.specs.List.{range_with_len};
    ghost use Rattle.container_queues.specs.Steady.{Steady};
    ghost use Rattle.container_model.specs.Commands.{on_command};
    ghost use Rattle.container_model.specs.Messages.{on_message, on_reap};
    ghost use Rattle.container_model.specs.Record.{Refuses, counts_none, empty, is_object};
    ghost use Rattle.container_model.specs.Replies.{pending_calls};
    ghost use Rattle.container_model.specs.Room.{IsSound};
    ghost use Rattle.container_model.specs.Saves as saves;
    ghost use Rattle.container_model.specs.Saves.{commit_done, commit_failed, counted_of, document_tree, image};
    ghost use Rattle.container_model.specs.Saves.{resolve, session_counted};
    ghost use Rattle.container_model.specs.declared.answer.FrameDocument.{FrameDocument};
    ghost use Rattle.container_model.specs.declared.fault.ContainerFault.TheVariants.{NoMemory};
    ghost use Rattle.container_numbers.specs.Sessions.{InSession, WantsSession};
    ghost use Rattle.container_core.specs.Screen.{shown};
    ghost use Rattle.ole_model.specs.DocOf.{DocOf};
    ghost use Rattle.cfb_file.specs.Denotes.{Denotes};
    ghost use Rattle.cfb_file.specs.Limits.{MOST_BYTES};
    ghost use Rattle.write_zeros.specs.Zeroed.{IsZeroed};
    ghost use Rattle.message_values.specs.Found.{find, nth};

    /// A container without frames, objects and servers.
    pub fn new(alloc: Global, limits: Limits) -> ContainerCore
        requires { limits.numbers ≤ 1000000 }
        ensures empty { result ≡ empty limits.numbers }
        ensures steady { Steady result }
        ensures sound { IsSound result }
    {
        in_session_from_the_start();
        ContainerCore {
            state: State::new(alloc, limits.numbers),
            images: Images::new(),
        }
    }

    /// A container's record is steady, stays within its numbers and is in its one session. It does nothing.
    pub fn steady(&self)
        ensures steady { Steady self.now }
        ensures sound { IsSound self.now }
        ensures in_session { InSession self.now }
    {
        let _ = &self.state;
    }

    /// The numbers of the frames that there are: from 1 to how many they are.
    ///
    /// Refused for want of memory alone.
    pub fn frames(&self, alloc: Global) -> Result<Vec<u32>, AllocError>
        ensures { IfOk result (λ v. v.items ≡ range_with_len 1 (length self.now.frames)) }
    {
        frame_numbers(alloc, self.state.frames())
    }

    /// The numbers of the objects that there are, rising: an object that is made has a number past all before.
    ///
    /// Refused for want of memory alone.
    pub fn objects(&self, alloc: Global) -> Result<Vec<u32>, AllocError>
        ensures { IfOk result (λ v. v.items ≡ map (λ o. o.number) self.now.objects) }
    {
        object_numbers(alloc, self.state.objects())
    }

    /// The session: it is in the name of each server, and in each message. It is 0 until one is counted.
    pub fn session(&self) -> u32
        ensures { result ≡ self.now.session }
    {
        self.state.session()
    }

    /// All frames, by their numbers from 1.
    pub fn all_frames(&self) -> &[Frame]
        ensures { result.now ≡ self.now.frames }
    {
        self.state.frames()
    }

    /// All objects, in the order in which they were made.
    pub fn all_objects(&self) -> &[Object]
        ensures { result.now ≡ self.now.objects }
    {
        self.state.objects()
    }

    /// The frame of this number.
    pub fn frame(&self, frame: u32) -> Option<&Frame>
        ensures { option_copied result ≡ nth self.now.frames frame }
    {
        self.state.frame(frame)
    }

    /// The object of this number.
    pub fn object(&self, object: u32) -> Option<&Object>
        ensures { option_copied result ≡ find (is_object object) self.now.objects }
    {
        self.state.object(object)
    }

    /// The greatest number that is drawn.
    pub fn numbers(&self) -> u32
        ensures { result ≡ self.now.numbers }
    {
        self.state.numbers()
    }

    /// A command of a user. The answer has what was made, what is sent and which files are to be committed.
    ///
    /// - New: `Busy` where a frame bears the name or is to be saved under it; `WrongState` where it isn't 1 to 200
    ///   columns wide and 1 to 100 lines high; `Full` where there are 8 frames already; `NumbersSpent`.
    /// - Insert: `NoSuch` where there is no such frame; `InDoubt` and `Busy` where its commit is in doubt, or it is
    ///   saving; `WrongState` where the area has no cell; `Full` where it has 64 objects already; `NumbersSpent`.
    /// - Session: `NoSuch` where there is no frame 1; `InDoubt` and `Busy` as for a save; `WrongState` where the
    ///   container has a session; `NumbersSpent` where the next session of the frame's document, or the number of the
    ///   save, is past the limit.
    /// - Start: `Full` where there are 8 servers that aren't reaped; `NumbersSpent`; `WrongState` where the container
    ///   has no session.
    /// - Run: `NoSuch` where there is no such object or no such server; `InDoubt`; `Busy` where its frame is saving or
    ///   the object has a pending call or waits for the frame; `WrongState` where it runs; `UnknownClass`;
    ///   `NumbersSpent`.
    /// - Edit: `NoSuch`, `InDoubt` and `Busy` as for a run; `NotRunning`; `WrongState` where the edit has more than
    ///   65,536 bytes; `NumbersSpent`.
    /// - Save: `NoSuch`; `InDoubt`; `Busy` where the frame is saving, its menus and border are being given or taken
    ///   back, or an object of it is busy; `WrongState` where the container has no session; `NumbersSpent`.
    /// - SaveAs: as a save, `Busy` also where another frame bears the name or is to be saved under it; `WrongState`
    ///   also where it is the frame's own; then `NumbersSpent`.
    /// - Delete: `NoSuch`, `InDoubt` and `Busy` as for an edit; `WrongState` where the object isn't passive.
    /// - Kill: `NoSuch` where there is no such server that isn't reaped.
    /// - Close: `NoSuch`, `InDoubt` and `Busy` as for an edit; `NotRunning` where the object is passive;
    ///   `NumbersSpent`; `WrongState` where it isn't running yet. An object that has its frame is told to give it up
    ///   first.
    /// - Verb: `NoSuch`, `InDoubt` and `Busy` as for an edit, `Busy` also where the verb leads to menus and border of
    ///   the frame and these are being given or taken back; `NotRunning`; `WrongState` where the object's state doesn't
    ///   take the verb, or no verb has this number; `NumbersSpent` where no grant can be drawn, or this object, or the
    ///   one that has the frame, has no numbers left for calls.
    ///
    /// Last of all `NoMemory`. A refusal changes nothing.
    pub fn command(&mut self, alloc: Global, command: Command) -> Result<Answer, ContainerFault>
        ensures taken { IfOk result (λ a. on_command self.old command ≡ Ok (counts_none self.new a)) }
        ensures few { IfOk result (λ a. length a.actions ≤ length self.old.objects + length self.old.frames + 1) }
        ensures refused { IfErr result (Refuses (on_command self.old command)) }
        ensures kept { OnErr result (self.new ≡ self.old) }
        ensures session { self.new.session ≡ self.old.session }
        ensures raised { OnOk result (WantsSession command → self.old.session ≢ 0) }
        ensures steady { Steady self.new }
        ensures sound { IsSound self.new }
    {
        steady_after();
        sound_after();
        few_frames_after();
        sessions_stay();
        commands_want_sessions();
        self.state.command(alloc, command)
    }

    /// A message on the link of a server. The answer has whether a content was taken, why an object refused a call,
    /// whether one got its frame's menus without border space, what is sent (what the object is asked next, then who
    /// waited for the frame is told that it gets it), and which files are to be committed.
    ///
    /// - `WrongLink` where it is a call, or says that it is from another server than the link's: of another session, or
    ///   of another incarnation.
    /// - `Stale` where the link is of another session than the container's; where that server isn't alive, or no object
    ///   has the activation; where it answers no pending call; where it is a write that the object's storage isn't open
    ///   to; where it asks to be relieved of a frame that the object doesn't hold under this grant, or was told to give
    ///   up.
    /// - `BadAnswer` where its content is past what may be stored, or it doesn't fit the call.
    ///
    /// Last of all `NoMemory`. A refusal changes nothing.
    ///
    /// Whatever comes on the link of a server, true or forged, it leaves the objects as they are that this server
    /// doesn't run, but for what they are asked, and the frames that none of its objects has, is to get or is to give
    /// up, but for how far their saves are. It isn't promised that a server tells the truth of its own objects, gives
    /// up a frame that it was told to give up, or answers a save: what waits for that waits until the server's end is
    /// told (`on_reap`).
    pub fn on_message(
        &mut self,
        alloc: Global,
        link: ServerLink,
        message: Message,
    ) -> Result<Answer, ContainerFault>
        ensures taken { IfOk result (λ a. on_message self.old link message ≡ Ok (counts_none self.new a)) }
        ensures few { IfOk result (λ a. length a.actions ≤ length self.old.objects + length self.old.frames + 1) }
        ensures refused { IfErr result (Refuses (on_message self.old link message)) }
        ensures kept { OnErr result (self.new ≡ self.old) }
        ensures session { OnOk result ((link.session ≡ self.old.session) × (message.session ≡ self.old.session)) }
        ensures others { StaysApart link.inc self.old self.new }
        ensures steady { Steady self.new }
        ensures sound { IsSound self.new }
    {
        steady_after();
        sound_after();
        few_frames_after();
        sessions_stay();
        messages_stay_apart();
        self.state.on_message(alloc, link, message)
    }

    /// The end of a server: its objects are passive, each with the content that it answered in the present save, if
    /// any. They wait for no frame any more, and what they have of their frames, or are to get, is free. The answer has
    /// what is sent (who waited on for such a frame is told that it gets it, by rising frame), and which files are to
    /// be committed.
    ///
    /// Refused: `NoSuch` where there is no such server that isn't reaped; then `NoMemory`. A refusal changes nothing.
    pub fn on_reap(&mut self, alloc: Global, inc: u32) -> Result<Answer, ContainerFault>
        ensures taken { IfOk result (λ a. on_reap self.old inc ≡ Ok (counts_none self.new a)) }
        ensures few { IfOk result (λ a. length a.actions ≤ length self.old.objects + length self.old.frames + 1) }
        ensures refused { IfErr result (Refuses (on_reap self.old inc)) }
        ensures kept { OnErr result (self.new ≡ self.old) }
        ensures steady { Steady self.new }
        ensures sound { IsSound self.new }
    {
        steady_after();
        sound_after();
        few_frames_after();
        sessions_stay();
        reaps::on_reap(alloc, &mut self.state, inc)
    }

    /// The file of a frame was committed. The contents of its document are counted, each once, and are the objects'
    /// work contents; the asked name is the frame's, and each object that isn't passive is told that the save is
    /// counted. A session that the save raised the document to is the frame's and the container's. A session that the
    /// container has stays.
    ///
    /// Refused: `NoSuch` where there is no such frame; `WrongState` where its commit isn't asked for; `Full` where no
    /// file holds its document; then `NoMemory`. A refusal changes nothing.
    pub fn commit_done(&mut self, alloc: Global, f: u32) -> Result<Answer, ContainerFault>
        ensures taken { IfOk result (λ a. commit_done self.old f
            ≡ Ok (record { rec = self.new; answer = a; counted = counted_of self.old f })) }
        ensures few { IfOk result (λ a. length a.actions ≤ length self.old.objects + length self.old.frames + 1) }
        ensures refused { IfErr result (Refuses (commit_done self.old f)) }
        ensures kept { OnErr result (self.new ≡ self.old) }
        ensures session { OnOk result (self.new.session ≡ session_counted self.old f) }
        ensures stays { self.old.session ≢ 0 → self.new.session ≡ self.old.session }
        ensures steady { Steady self.new }
        ensures sound { IsSound self.new }
    {
        steady_after();
        sound_after();
        few_frames_after();
        sessions_stay();
        let answer = commits::commit_done(alloc, &mut self.state, f);
        self.images.settle(f, true, &answer);
        answer
    }

    /// The commit of a frame failed: it isn't known whether its file is the new one. Nothing is counted and nobody
    /// told, until that is resolved.
    ///
    /// Refused: `NoSuch` where there is no such frame; `WrongState` where its commit isn't asked for. A refusal changes
    /// nothing.
    pub fn commit_failed(&mut self, alloc: Global, f: u32) -> Result<Answer, ContainerFault>
        ensures taken { IfOk result (λ a. commit_failed self.old f ≡ Ok (counts_none self.new a)) }
        ensures few { IfOk result (λ a. length a.actions ≤ length self.old.objects + length self.old.frames + 1) }
        ensures refused { IfErr result (Refuses (commit_failed self.old f)) }
        ensures memory { IfErr result (λ fault. fault ≢ NoMemory) }
        ensures kept { OnErr result (self.new ≡ self.old) }
        ensures steady { Steady self.new }
        ensures sound { IsSound self.new }
    {
        steady_after();
        sound_after();
        few_frames_after();
        sessions_stay();
        commits::commit_failed(alloc, &mut self.state, f)
    }

    /// A commit in doubt is resolved. Where it was kept, it is done, as `commit_done` says. Where it was lost, its save
    /// is dropped: nothing is counted, the objects keep their work contents, the frame its name and its session, and
    /// each object that isn't passive is told that the save is dropped.
    ///
    /// Refused: `NoSuch` where there is no such frame; `WrongState` where its commit isn't in doubt; `Full` where it
    /// was kept and no file holds its document; then `NoMemory`. A refusal changes nothing.
    pub fn resolve(
        &mut self,
        alloc: Global,
        f: u32,
        is_kept: bool,
    ) -> Result<Answer, ContainerFault>
        ensures taken { IfOk result (λ a. resolve self.old f is_kept
            ≡ Ok (record { rec = self.new; answer = a; counted = if is_kept then counted_of self.old f else [] })) }
        ensures few { IfOk result (λ a. length a.actions ≤ length self.old.objects + length self.old.frames + 1) }
        ensures refused { IfErr result (Refuses (resolve self.old f is_kept)) }
        ensures kept { OnErr result (self.new ≡ self.old) }
        ensures session { OnOk result (self.new.session ≡ if is_kept then session_counted self.old f
            else self.old.session) }
        ensures stays { self.old.session ≢ 0 → self.new.session ≡ self.old.session }
        ensures steady { Steady self.new }
        ensures sound { IsSound self.new }
    {
        steady_after();
        sound_after();
        few_frames_after();
        sessions_stay();
        let answer = commits::resolve(alloc, &mut self.state, f, is_kept);
        self.images.settle(f, is_kept, &answer);
        answer
    }

    /// Whether a file may be opened under this name, as a frame so many columns wide and so many lines high: what is
    /// looked at before the file is. It takes no memory.
    ///
    /// Refused: `Busy` where a frame bears the name or is to be saved under it; `WrongState` where the size isn't 1 to
    /// 200 columns by 1 to 100 lines.
    pub fn may_open(&self, name: &[u8], w: u16, h: u16) -> Result<(), ContainerFault>
        ensures { result ≡ looked_at self.now name.now w h }
    {
        opens::may_open(&self.state, name, w, h)
    }

    /// A file is opened, as a frame of its name, so many columns wide and so many lines high. What the file's bytes are
    /// is given, none where there is no such file. The frame has the objects of the file's document in their order,
    /// passive, each with the next number; the answer has the frame's number and theirs.
    ///
    /// Refused: `Busy` and `WrongState` as `may_open`; then `NoSuch` where there is no file; `BadFile` where its bytes
    /// denote no tree, or one that holds no document; `Full` where there are 8 frames already; `NumbersSpent` where no
    /// number is left for the frame, or for each object. `NoMemory` may be told in the place of what comes behind
    /// `NoSuch` where memory was refused as the file was read, and last of all. A refusal changes nothing.
    pub fn open_file(
        &mut self,
        alloc: Global,
        name: Bytes,
        w: u16,
        h: u16,
        file: Option<&[u8]>,
    ) -> Result<Answer, ContainerFault>
        ensures taken { IfOk result (λ a. (given : Given) × IsReadAs (option_copied file.entry) given
            × (opened self.old name w h given ≡ Ok (counts_none self.new a))) }
        ensures few { IfOk result (λ a. length a.actions ≤ 1) }
        ensures refused { IfErr result (MayRefuse self.old name w h (option_copied file.entry)) }
        ensures kept { OnErr result (self.new ≡ self.old) }
        ensures steady { Steady self.new }
        ensures sound { IsSound self.new }
    {
        steady_after();
        sound_after();
        few_frames_after();
        sessions_stay();
        opens::open_file(alloc, &mut self.state, &mut self.images, name, w, h, file)
    }

    /// The calls that are pending, by their objects, each as it was first sent: at most one for each object, and so at
    /// most 512, since there are at most 8 frames of 64 objects.
    ///
    /// Refused for want of memory alone.
    pub fn resend(&self, alloc: Global) -> Result<Vec<Message>, AllocError>
        ensures calls { IfOk result (λ v. v.items ≡ pending_calls self.now.objects) }
        ensures few { IfOk result (λ v. length v.items ≤ 512) }
        ensures single { IfOk result (λ v. length v.items ≤ length self.now.objects) }
    {
        pending_calls(alloc, self.state.objects())
    }

    /// The document of a frame whose commit is asked for or in doubt: the session that its file says, and its objects
    /// in order, each with the content that the save counts.
    ///
    /// Refused: `NoSuch` where there is no such frame; `WrongState` where its commit is neither asked for nor in doubt;
    /// `Full` where no file holds the document; then `NoMemory`.
    pub fn document(&self, alloc: Global, f: u32) -> Result<FrameDocument, ContainerFault>
        ensures document { IfOk result (λ d. image self.now f ≡ Ok d) }
        ensures refused { IfErr result (Refuses (image self.now f)) }
    {
        images::document(alloc, &self.state, f)
    }

    /// The document of a frame, as `document`, and the image of its file that is to be committed: it denotes a tree
    /// that holds the document, so it gives it again where it is opened. All that the tree doesn't take is zero, so
    /// that nothing else stands in it, and it is no longer than a store takes.
    ///
    /// It has the sectors of the frame's committed image where that is known, and else is laid out anew, as also where
    /// it would be more than twice as long as so. That is tested, and in no clause.
    ///
    /// Refused: as `document`.
    pub fn commit_image(
        &self,
        alloc: Global,
        f: u32,
    ) -> Result<(FrameDocument, Image), ContainerFault>
        ensures document { IfOk result (λ w. image self.now f ≡ Ok w.0) }
        ensures denotes { IfOk result (λ w. ∥ Denotes w.1 (document_tree w.0) ∥₁) }
        ensures zeroed { IfOk result (λ w. IsZeroed w.1) }
        ensures few { IfOk result (λ w. length w.1 ≤ MOST_BYTES) }
        ensures holds { IfOk result (λ w. DocOf (document_tree w.0) (saves.document w.0)) }
        ensures refused { IfErr result (Refuses (image self.now f)) }
    {
        images::commit_image(alloc, &self.state, self.images.committed(f), f)
    }

    /// The image of the file that is to be committed for a frame. It denotes the frame's document (MS-CFB 2), and so
    /// gives it again where it is opened. All else in it is zero, and it is no longer than a store takes.
    ///
    /// Refused: as `document`.
    pub fn image(&self, alloc: Global, f: u32) -> Result<Image, ContainerFault>
        ensures denotes { IfOk result (λ v. (d : FrameDocument) × (image self.now f ≡ Ok d)
            × ∥ Denotes v (document_tree d) ∥₁ × DocOf (document_tree d) (saves.document d)) }
        ensures zeroed { IfOk result (λ v. IsZeroed v) }
        ensures few { IfOk result (λ v. length v ≤ MOST_BYTES) }
        ensures refused { IfErr result (Refuses (image self.now f)) }
    {
        let (_, image) = self.commit_image(alloc, f)?;
        Ok(image)
    }

    /// Takes the image of the commit of a frame that is asked for or in doubt, as `commit_image` gave it: the frame's
    /// committed image once that commit is counted, dropped where it is lost. The record stays as it is.
    pub fn put_image(&mut self, f: u32, image: Image)
        ensures same { self.new ≡ self.old }
    {
        self.images.put(f, image);
    }

    /// What a frame shows, as text: the line of its menus, then each line of its cells.
    ///
    /// Refused: `NoSuch` where there is no such frame; then `NoMemory`.
    pub fn screen(&self, alloc: Global, f: u32) -> Result<Vec<u8>, ContainerFault>
        ensures shown { IfOk result (λ text. shown self.now f ≡ Ok text.items) }
        ensures refused { IfErr result (Refuses (shown self.now f)) }
    {
        let Some(frame) = self.state.frame(f) else {
            return Err(ContainerFault::NoSuch);
        };
        match screen(alloc, f, frame, self.state.objects()) {
            Ok(text) => Ok(text),
            Err(_) => Err(ContainerFault::NoMemory),
        }
    }
}
