//! A server on a link.

ghost use Rattle.object_core.specs.Kinds.{kind_of};
ghost use Rattle.message_bytes.specs.Fronts.{Stands};
ghost use Rattle.message_model.specs.declared.frame.Frame.{Frame};
ghost use Rattle.message_model.specs.declared.frame.Frame.TheVariants as frame;
ghost use Rattle.message_model.specs.Frames.{Reads};
ghost use Rattle.server_core.specs.View.{seen};
ghost use Rattle.server_links.specs.Links.{IsUnderway, IsWaiting, MayOffer, link_begun};
ghost use Rattle.server_links.specs.Turns.{Turn, edited_by, first_turn, given, met, noted, noted_done, scribbled_all};
ghost use Rattle.server_links.specs.Turns.{sent, turned, written};
ghost use Rattle.server_links.specs.View.{Advances, Counts, IsAt, IsIn, IsNew, IsStarted, Lacks, LeavesReader};
ghost use Rattle.server_links.specs.View.{LeavesWriter, servers_of};
ghost use Rattle.server_model.specs.Server.{Server, scribble, wanted};
ghost use Rattle.std.specs.Io.KnownBytes.{Consumes};
ghost use Rattle.std.specs.Prelude.{◌≡◌, ◌<◌, ◌+◌, ◌++◌, ◌∷◌, ℕ, List, [], Bool, IfOk, OnErr, OnOk, Option, Some, None};
ghost use Rattle.std.specs.Prelude.{length, nat_eq, option_map, vec_capacity, vec_len};
ghost use Rattle.message_values.specs.declared.message.Message.{Message};

use crate::fronts::{read_again, write_front};
use message_bytes::decoder::Decoder;
use message_bytes::encode::encode_into;
use message_model::fault::WireFault;
use message_model::frame::Frame;
use message_values::answer::Answer;
use message_values::message::{Message, Said};
use message_values::operation::Operation;
use object_core::embedded::Embedded;
use server_core::server::ServerCore;
use server_model::fault::ServerFault;
use std::alloc::{AllocError, Global};
use std::io::{Read, Write};
use tree_values::class_id::ClassId;

/// The most turns of a link.
pub const MOST_TURNS: u32 = 1_000;

/// The most reads of a turn.
pub const MOST_READS: u32 = 1_000_000;

/// How many bytes are read at once.
const PIECE: usize = 8192;

/// Why a link is over.
#[derive(Clone, Copy)]
pub enum End {
    /// The bytes behind the frames that were taken show this fault.
    Faulty(WireFault),
    /// The turn had its most reads, and its Turn didn't come.
    LastRead,
    /// A read failed.
    Unread,
    /// Nothing more comes: the other side has closed the link.
    Closed,
    /// The turn wasn't written.
    Unwritten,
    /// The turn was given back, and it was the last that a link may have.
    LastTurn,
}

/// How far a link came.
#[derive(Clone, Copy)]
pub enum Advance {
    /// A message was taken.
    Met,
    /// The turn was given back.
    Turned,
    /// More of it was read.
    Read,
    /// A call makes an activation, and needs an object of this class. Where none is offered, it is passed over.
    Wants(ClassId),
    /// The link is over, and why.
    Over(End),
}

/// The server.
#[derive(Drop)]
struct Server {
    core: ServerCore,
}

/// A server, and how far the link is that it serves.
#[derive(Drop)]
pub struct Serving {
    servers: Vec<Server>,
    decoder: Decoder,
    out: Vec<u8>,
    edited: Vec<u32>,
    wanting: Option<Message>,
    turns: u32,
    reads: u32,
    // What was read last. It is kept, as a new one would be cleared for each read.
    piece: [u8; PIECE],
}

/// Whether a call is the one behind an activation's last.
fn is_next(last: u32, n: u32) -> bool
    ensures { result ≡ nat_eq n (last + 1) }
{
    n > 0 && last == n - 1
}

/// The activation that a call edits, where it is the activation's next one.
fn edited_by(core: &ServerCore, message: &Message) -> Option<u32>
    ensures { result ≡ edited_by (seen (λ s. (⟦<dyn Embedded as Embedded>⟧ s.boxed.vtable).content s.boxed.value)
        core.now) message.now }
{
    let Said::Call {
        act,
        n,
        operation,
        ..
    } = &message.said
    else {
        return None;
    };
    let Operation::Edit(_) = operation else {
        return None;
    };
    match core.activation(*act) {
        Some(view) => {
            if is_next(view.last, *n) {
                return Some(*act);
            }
            None
        }
        None => None,
    }
}

/// Puts a number among rising ones, once.
fn place(numbers: &mut Vec<u32>, number: u32) -> Result<(), AllocError>
    ensures { OnOk result (numbers.new.items ≡ noted number numbers.old.items) }
{
    let mut at = 0;
    while at < numbers.len() && numbers[at] < number {
        at += 1;
    }
    if at < numbers.len() && numbers[at] == number {
        return Ok(());
    }
    match numbers.insert(at, number) {
        Ok(()) => Ok(()),
        Err(_) => Err(AllocError),
    }
}

/// Puts a value to the end, into room that is there.
fn add<T: Drop>(list: &mut Vec<T>, value: T)
    requires { vec_len list.old < vec_capacity list.old }
    ensures { list.new.items ≡ list.old.items ++ value ∷ [] }
{
    list.push_reserved(value);
}

/// Notes an edit whose reply says that it is done.
fn note(edited: &mut Vec<u32>, edit: Option<u32>, reply: &Message) -> Result<(), AllocError>
    ensures { OnOk result (edited.new.items ≡ noted_done edit reply.now edited.old.items) }
{
    let Some(act) = edit else {
        return Ok(());
    };
    let Said::Reply { answer, .. } = &reply.said else {
        return Ok(());
    };
    let Answer::Done = answer else {
        return Ok(());
    };
    place(edited, act)
}

/// Adds the byte form of a frame, where it may be sent.
fn push_frame(out: &mut Vec<u8>, frame: &Frame) -> Result<(), AllocError>
    ensures { OnOk result (out.new.items ≡ out.old.items ++ sent frame.now) }
{
    match encode_into(out, frame) {
        Ok(()) => Ok(()),
        Err(WireFault::NoMemory) => Err(AllocError),
        Err(_) => Ok(()),
    }
}

impl Serving {
    /// No server yet.
    pub fn new(alloc: Global) -> Serving
        ensures { IsNew result }
    {
        Serving {
            servers: Vec::new(alloc),
            decoder: Decoder::new(alloc),
            out: Vec::new(alloc),
            edited: Vec::new(alloc),
            wanting: None,
            turns: 0,
            reads: 0,
            piece: [0; PIECE],
        }
    }

    /// Makes the server.
    fn make(
        &mut self,
        alloc: Global,
        session: u32,
        inc: u32,
        numbers: u32,
    ) -> Result<(), AllocError>
        requires { IsNew self.old }
        ensures started { OnOk result (IsStarted self.new) }
        ensures counts { OnOk result ((self.new.turns ≡ 0) × (self.new.reads ≡ 0)) }
        ensures first { OnOk result (IsAt (λ s. (⟦<dyn Embedded as Embedded>⟧ s.boxed.vtable).content s.boxed.value)
            self.new (first_turn session inc numbers) [] []) }
    {
        self.servers.reserve(1)?;
        let core = ServerCore::new(alloc, session, inc, numbers);
        add(&mut self.servers, Server { core });
        Ok(())
    }

    /// The server of this session and incarnation. It may have so many activations, and each so many writes.
    ///
    /// Refused for want of memory alone.
    pub fn start(
        &mut self,
        alloc: Global,
        session: u32,
        inc: u32,
        numbers: u32,
    ) -> Result<(), AllocError>
        requires { IsNew self.old }
        ensures started { OnOk result (IsStarted self.new) }
        ensures counts { OnOk result ((self.new.turns ≡ 0) × (self.new.reads ≡ 0)) }
        ensures first { OnOk result (IsAt (λ s. (⟦<dyn Embedded as Embedded>⟧ s.boxed.vtable).content s.boxed.value)
            self.new (first_turn session inc numbers) [] []) }
        ensures underway { OnOk result ((made : List ℕ → Bool) (unread held : Option (List ℕ))
            → IsUnderway (λ s. (⟦<dyn Embedded as Embedded>⟧ s.boxed.vtable).content s.boxed.value) self.new made
            (first_turn session inc numbers) unread unread held held) }
    {
        self.make(alloc, session, inc, numbers)
    }

    /// Begins a link: nothing was read of it, and nothing is to be written.
    pub fn begin(&mut self, alloc: Global)
        requires { IsStarted self.old }
        ensures counts { (self.new.turns ≡ 0) × (self.new.reads ≡ 0) }
        ensures started { IsStarted self.new }
        ensures begun { (t : Turn) → IsIn (λ s. (⟦<dyn Embedded as Embedded>⟧ s.boxed.vtable).content s.boxed.value)
            self.old t → IsAt (λ s. (⟦<dyn Embedded as Embedded>⟧ s.boxed.vtable).content s.boxed.value) self.new
            (link_begun t) [] [] }
        ensures underway { (made : List ℕ → Bool) (t : Turn) (unread held : Option (List ℕ))
            → IsIn (λ s. (⟦<dyn Embedded as Embedded>⟧ s.boxed.vtable).content s.boxed.value) self.old t
            → IsUnderway (λ s. (⟦<dyn Embedded as Embedded>⟧ s.boxed.vtable).content s.boxed.value) self.new made
            (link_begun t) unread unread held held }
    {
        self.decoder = Decoder::new(alloc);
        self.out.clear();
        self.edited.clear();
        self.wanting = None;
        self.turns = 0;
        self.reads = 0;
    }

    /// Answers, and notes an edit that was done.
    fn reply(&mut self, reply: Message, edit: Option<u32>) -> Result<(), AllocError>
        ensures counts { (self.new.turns ≡ self.old.turns) × (self.new.reads ≡ self.old.reads) }
        ensures servers { self.new.servers.items ≡ self.old.servers.items }
        ensures decoder { self.new.decoder ≡ self.old.decoder }
        ensures out { OnOk result (self.new.out.items ≡ self.old.out.items ++ sent (frame.Message reply)) }
        ensures edited { OnOk result (self.new.edited.items ≡ noted_done edit reply self.old.edited.items) }
    {
        note(&mut self.edited, edit, &reply)?;
        push_frame(&mut self.out, &Frame::Message(reply))
    }

    /// Does what a message asks.
    fn act(
        &mut self,
        alloc: Global,
        message: Message,
        boxed: Option<Box<dyn Embedded>>,
    ) -> Result<(), AllocError>
        requires { IsStarted self.old }
        ensures counts { (self.new.turns ≡ self.old.turns) × (self.new.reads ≡ self.old.reads) }
        ensures started { IsStarted self.new }
        ensures decoder { self.new.decoder ≡ self.old.decoder }
        ensures met { (t : Turn) → IsIn (λ s. (⟦<dyn Embedded as Embedded>⟧ s.boxed.vtable).content s.boxed.value)
            self.old t
            → OnOk result (IsIn (λ s. (⟦<dyn Embedded as Embedded>⟧ s.boxed.vtable).content s.boxed.value) self.new
            (met t message (option_map (λ b. kind_of ((⟦<dyn Embedded as Embedded>⟧ b.vtable).content b.value))
            boxed))) }
    {
        let edit = edited_by(&self.servers[0].core, &message);
        match self.servers[0].core.on_call(alloc, message, boxed) {
            Ok(reaction) => self.reply(reaction.reply, edit),
            Err(refusal) => match refusal.fault {
                ServerFault::NoMemory => Err(AllocError),
                _ => Ok(()),
            },
        }
    }

    /// The class of the object that a message needs.
    fn wants(&self, message: &Message) -> Option<ClassId>
        requires { IsStarted self.now }
        ensures { (t : Turn) → IsIn (λ s. (⟦<dyn Embedded as Embedded>⟧ s.boxed.vtable).content s.boxed.value)
            self.now t → result ≡ wanted t.server message.now }
    {
        self.servers[0].core.wants(message)
    }

    /// A message of the link.
    fn meet(&mut self, alloc: Global, message: Message) -> Result<Advance, AllocError>
        requires { IsStarted self.old }
        ensures counted { IfOk result (λ told. Counts told self.old.turns self.old.reads self.new.turns
            self.new.reads) }
        ensures started { IsStarted self.new }
        ensures met { (t : Turn) (fed : List ℕ) (taken : List Frame) (unread held : Option (List ℕ))
            → IsIn (λ s. (⟦<dyn Embedded as Embedded>⟧ s.boxed.vtable).content s.boxed.value) self.old t
            → Stands self.old.decoder fed (taken ++ frame.Message message ∷ [])
            → IfOk result
            (λ told. Advances (λ s. (⟦<dyn Embedded as Embedded>⟧ s.boxed.vtable).content s.boxed.value) told
            self.new t fed taken unread unread held held) }
    {
        if let Some(class) = self.wants(&message) {
            self.wanting = Some(message);
            return Ok(Advance::Wants(class));
        }
        self.act(alloc, message, None)?;
        Ok(Advance::Met)
    }

    /// Offers an object for the activation that the last call makes. One of another class than that call's makes none.
    pub fn offer(&mut self, alloc: Global, boxed: Box<dyn Embedded>) -> Result<(), AllocError>
        requires { IsStarted self.old }
        ensures counts { (self.new.turns ≡ self.old.turns) × (self.new.reads ≡ self.old.reads) }
        ensures started { IsStarted self.new }
        ensures met { (t : Turn) (fed : List ℕ) (taken : List Frame) (m : Message)
            → IsAt (λ s. (⟦<dyn Embedded as Embedded>⟧ s.boxed.vtable).content s.boxed.value) self.old t fed taken
            → self.old.wanting ≡ Some m
            → OnOk result (IsAt (λ s. (⟦<dyn Embedded as Embedded>⟧ s.boxed.vtable).content s.boxed.value) self.new
            (met t m (Some (kind_of ((⟦<dyn Embedded as Embedded>⟧ boxed.vtable).content boxed.value)))) fed
            taken) }
        ensures underway { (made : List ℕ → Bool) (began : Turn)
            (unread_before unread held_before held : Option (List ℕ)) (class : List ℕ)
            → IsWaiting (λ s. (⟦<dyn Embedded as Embedded>⟧ s.boxed.vtable).content s.boxed.value) self.old made
            began unread_before unread held_before held class
            → MayOffer made (kind_of ((⟦<dyn Embedded as Embedded>⟧ boxed.vtable).content boxed.value)) class
            → OnOk result (IsUnderway (λ s. (⟦<dyn Embedded as Embedded>⟧ s.boxed.vtable).content s.boxed.value)
            self.new made began unread_before unread held_before held) }
    {
        match self.wanting.take() {
            Some(message) => self.act(alloc, message, Some(boxed)),
            None => Ok(()),
        }
    }

    /// An activation writes of its own accord.
    fn scribble(&mut self, alloc: Global, act: u32) -> Result<(), AllocError>
        requires { IsStarted self.old }
        ensures counts { (self.new.turns ≡ self.old.turns) × (self.new.reads ≡ self.old.reads) }
        ensures started { IsStarted self.new }
        ensures decoder { self.new.decoder ≡ self.old.decoder }
        ensures edited { self.new.edited.items ≡ self.old.edited.items }
        ensures written { (t : Turn)
            → IsIn (λ s. (⟦<dyn Embedded as Embedded>⟧ s.boxed.vtable).content s.boxed.value) self.old t
            → OnOk result (IsIn (λ s. (⟦<dyn Embedded as Embedded>⟧ s.boxed.vtable).content s.boxed.value) self.new
            (written t (scribble t.server act))) }
    {
        match self.servers[0].core.scribble(alloc, act) {
            Ok(message) => push_frame(&mut self.out, &Frame::Message(message)),
            Err(fault) => match fault {
                ServerFault::NoMemory => Err(AllocError),
                _ => Ok(()),
            },
        }
    }

    /// All activations that were edited write of their own accord, by their numbers.
    fn scribble_all(&mut self, alloc: Global) -> Result<(), AllocError>
        requires { IsStarted self.old }
        ensures counts { (self.new.turns ≡ self.old.turns) × (self.new.reads ≡ self.old.reads) }
        ensures started { IsStarted self.new }
        ensures decoder { self.new.decoder ≡ self.old.decoder }
        ensures written { (t : Turn)
            → IsIn (λ s. (⟦<dyn Embedded as Embedded>⟧ s.boxed.vtable).content s.boxed.value) self.old t
            → OnOk result (IsIn (λ s. (⟦<dyn Embedded as Embedded>⟧ s.boxed.vtable).content s.boxed.value) self.new
            (scribbled_all t t.edited)) }
    {
        let mut place = 0;
        while place < self.edited.len() {
            let act = self.edited[place];
            self.scribble(alloc, act)?;
            place += 1;
        }
        Ok(())
    }

    /// Makes ready what is written as the turn is given back.
    fn close_turn(&mut self, alloc: Global) -> Result<(), AllocError>
        requires { IsStarted self.old }
        ensures counts { (self.new.turns ≡ self.old.turns) × (self.new.reads ≡ self.old.reads) }
        ensures started { IsStarted self.new }
        ensures decoder { self.new.decoder ≡ self.old.decoder }
        ensures given { (t : Turn) → IsIn (λ s. (⟦<dyn Embedded as Embedded>⟧ s.boxed.vtable).content s.boxed.value)
            self.old t → OnOk result (self.new.out.items ≡ given t) }
        ensures servers { (t : Turn)
            → IsIn (λ s. (⟦<dyn Embedded as Embedded>⟧ s.boxed.vtable).content s.boxed.value) self.old t
            → OnOk result (servers_of (λ s. (⟦<dyn Embedded as Embedded>⟧ s.boxed.vtable).content s.boxed.value)
            self.new ≡ (turned t).server ∷ []) }
        ensures edited { OnOk result (self.new.edited.items ≡ []) }
    {
        self.scribble_all(alloc)?;
        self.edited.clear();
        push_frame(&mut self.out, &Frame::Turn)
    }

    /// Gives the turn back.
    fn give_turn<W: Write>(&mut self, alloc: Global, writer: &mut W) -> Result<Advance, AllocError>
        requires { IsStarted self.old }
        ensures counted { IfOk result (λ told. Counts told self.old.turns self.old.reads self.new.turns
            self.new.reads) }
        ensures started { IsStarted self.new }
        ensures turned { (t : Turn) (fed : List ℕ) (taken : List Frame) (unread_before unread : Option (List ℕ))
            → IsIn (λ s. (⟦<dyn Embedded as Embedded>⟧ s.boxed.vtable).content s.boxed.value) self.old t
            → Stands self.old.decoder fed (taken ++ frame.Turn ∷ [])
            → IfOk result
            (λ told. Advances (λ s. (⟦<dyn Embedded as Embedded>⟧ s.boxed.vtable).content s.boxed.value) told
            self.new t fed taken unread_before unread (W.contents writer.old) (W.contents writer.new)) }
        ensures leaves { IfOk result (λ told. LeavesWriter told writer.old writer.new) }
        ensures unwritten { OnErr result (writer.new ≡ writer.old) }
    {
        self.close_turn(alloc)?;
        let is_written = write_front(writer, &self.out);
        self.out.clear();
        self.reads = 0;
        if !is_written {
            return Ok(Advance::Over(End::Unwritten));
        }
        if self.turns >= MOST_TURNS - 1 {
            return Ok(Advance::Over(End::LastTurn));
        }
        self.turns += 1;
        Ok(Advance::Turned)
    }

    /// Reads some bytes of the link.
    fn read<R: Read>(&mut self, reader: &mut R) -> Result<Advance, AllocError>
        requires { IsStarted self.old }
        ensures counted { IfOk result (λ told. Counts told self.old.turns self.old.reads self.new.turns
            self.new.reads) }
        ensures started { IsStarted self.new }
        ensures leaves { IfOk result (λ told. LeavesReader told reader.old reader.new) }
        ensures read { (t : Turn) (fed : List ℕ) (taken : List Frame) (held_before held : Option (List ℕ))
            → IsAt (λ s. (⟦<dyn Embedded as Embedded>⟧ s.boxed.vtable).content s.boxed.value) self.old t fed taken
            → Reads fed taken None
            → IfOk result
            (λ told. Advances (λ s. (⟦<dyn Embedded as Embedded>⟧ s.boxed.vtable).content s.boxed.value) told
            self.new t fed taken (R.remaining reader.old) (R.remaining reader.new) held_before held) }
        ensures lacking { OnErr result ((piece : List ℕ) × Consumes (R.remaining reader.old)
            (R.remaining reader.new) piece) }
    {
        if self.reads >= MOST_READS {
            return Ok(Advance::Over(End::LastRead));
        }
        self.reads += 1;
        let n = match read_again(reader, &mut self.piece) {
            Ok(n) => n,
            Err(_) => return Ok(Advance::Over(End::Unread)),
        };
        if n == 0 {
            return Ok(Advance::Over(End::Closed));
        }
        match self.decoder.feed(&self.piece[..n]) {
            Ok(()) => Ok(Advance::Read),
            Err(fault) => match fault {
                WireFault::NoMemory => Err(AllocError),
                _ => Ok(Advance::Read),
            },
        }
    }

    /// Serves one frame of the link, or reads more of it. The answers of a turn are written with its Turn. While
    /// messages are met, nothing is read of the link or written to it.
    ///
    /// The link is over where a read or the write of a turn fails, where nothing more comes, at its 1,000th Turn, at
    /// the 1,000,001st read of a turn, which isn't made, and where what came shows a fault, which stays unanswered.
    ///
    /// Refused for want of memory alone, for the frame that came next or for a piece that was read. Nothing was written
    /// then, and the link can't be gone on with: that frame, or that piece, is lost.
    pub fn advance<R: Read, W: Write>(
        &mut self,
        alloc: Global,
        reader: &mut R,
        writer: &mut W,
    ) -> Result<Advance, AllocError>
        requires { IsStarted self.old }
        ensures counted { IfOk result (λ told. Counts told self.old.turns self.old.reads self.new.turns
            self.new.reads) }
        ensures started { IsStarted self.new }
        ensures leaves_reader { IfOk result (λ told. LeavesReader told reader.old reader.new) }
        ensures leaves_writer { IfOk result (λ told. LeavesWriter told writer.old writer.new) }
        ensures advanced { (t : Turn) (fed : List ℕ) (taken : List Frame)
            → IsAt (λ s. (⟦<dyn Embedded as Embedded>⟧ s.boxed.vtable).content s.boxed.value) self.old t fed taken
            → IfOk result
            (λ told. Advances (λ s. (⟦<dyn Embedded as Embedded>⟧ s.boxed.vtable).content s.boxed.value) told
            self.new t fed taken (R.remaining reader.old) (R.remaining reader.new) (W.contents writer.old)
            (W.contents writer.new)) }
        ensures unwritten { OnErr result (writer.new ≡ writer.old) }
        ensures lacking { (t : Turn) (fed : List ℕ) (taken : List Frame)
            → IsAt (λ s. (⟦<dyn Embedded as Embedded>⟧ s.boxed.vtable).content s.boxed.value) self.old t fed taken
            → OnErr result (Lacks fed taken (R.remaining reader.old) (R.remaining reader.new)) }
    {
        self.wanting = None;
        match self.decoder.next() {
            Ok(Some(Frame::Message(message))) => self.meet(alloc, message),
            Ok(Some(Frame::Turn)) => self.give_turn(alloc, writer),
            Ok(None) => self.read(reader),
            Err(fault) => Ok(Advance::Over(End::Faulty(fault))),
        }
    }
}
