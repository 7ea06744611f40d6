//! The links to servers, and what comes on one of them in a turn.

ghost use Rattle.container_model.specs.Record.{Record};
ghost use Rattle.container_model.specs.Replies.{pending_call};
ghost use Rattle.container_model.specs.declared.fault.ContainerFault.TheVariants as container;
ghost use Rattle.message_model.specs.Spelling.{spell};
ghost use Rattle.script_model.specs.Bounds.{IsWithin, linking, pace, reading, sending};
ghost use Rattle.script_model.specs.Courses.{course};
ghost use Rattle.script_model.specs.Events.{Stepped};
ghost use Rattle.script_model.specs.Notices.{Notes, Notice, first_noticed, notices, refusal_noticed};
ghost use Rattle.script_model.specs.Origins.{AreNext, fresh, passed};
ghost use Rattle.script_model.specs.Turns.{spelled_to, turn_of};
ghost use Rattle.script_model.specs.declared.host.HostFault.TheVariants as host;
ghost use Rattle.script_model.specs.declared.step.Step.TheVariants as given;
ghost use Rattle.script_container.specs.Handed.{handed};
ghost use Rattle.script_container.specs.Known.{IsKnown, Leaves};
ghost use Rattle.script_container.specs.Servers.{servers};
ghost use Rattle.script_container.specs.Shown.{Shows};
ghost use Rattle.script_container.specs.Told.{IsTold};
ghost use Rattle.script_container.specs.declared.fault.ScriptFault.TheVariants.{NoMemory};
ghost use Rattle.script_links.specs.Apart.{others};
ghost use Rattle.script_links.specs.Links.{IsServed};
ghost use Rattle.script_links.specs.Ready.{GoesOn, HadTurn, HasLeft, IsReady, MayLink};
ghost use Rattle.std.specs.Prelude.{◌≡◌, ◌≢◌, ◌++◌, ◌∷◌, [], Bool, Err, IfErr, IfOk, MatchResult, OnOk, Option, false};
ghost use Rattle.std.specs.Prelude.{is_ok, ℕ};

use crate::waiting::Waiting;
use container_core::container::ContainerCore;
use container_links::calling::call;
use container_model::fault::ContainerFault;
use container_model::record::Link as Activation;
use message_bytes::decoder::Decoder;
use message_bytes::encode::encode_into;
use message_model::fault::WireFault;
use message_model::frame::Frame;
use message_values::message::Message;
use message_values::refusal::Refusal;
use script_container::container::message;
use script_container::fault::ScriptFault;
use script_container::saves::{first_of, save_all};
use script_model::answer::Told;
use script_model::host::{Host, HostFault};
use std::alloc::{AllocError, Global};
use store_model::disk::Disk;

/// The most reads of a link in a turn.
const MOST_READS: u32 = 1_000_000;

/// How many bytes are read at once.
pub const PIECE: usize = 65_536;

/// A link to a server that was started and isn't ended.
#[derive(Drop)]
pub struct Link {
    pub inc: u32,
    pub decoder: Decoder,
    /// Whether what comes waits.
    pub held: bool,
    pub waiting: Waiting,
}

impl Link {
    /// A link on which nothing came yet.
    pub fn new(alloc: Global, inc: u32) -> Link
        ensures server { result.inc ≡ inc }
        ensures free { result.held ≡ false }
        ensures served { IsServed fresh result [] }
    {
        Link {
            inc,
            decoder: Decoder::new(alloc),
            held: false,
            waiting: Waiting::new(alloc),
        }
    }
}

/// How far what comes on a link in a turn is.
#[derive(Clone, Copy, PartialEq, Eq)]
pub enum Heard {
    /// All that was whole is carried out.
    Part,
    /// The server gave the turn back.
    Turn,
    /// The link failed.
    Failed,
    /// What came is none that a server may send.
    Faulty,
}

/// Adds the byte form of a frame.
fn push_frame(out: &mut Vec<u8>, frame: &Frame) -> Result<(), ScriptFault>
    ensures pushed { OnOk result (out.new.items ≡ out.old.items ++ spell frame.now) }
    ensures lacking { IfErr result (λ fault. fault ≡ NoMemory) }
{
    match encode_into(out, frame) {
        Ok(()) => Ok(()),
        Err(_) => Err(ScriptFault::NoMemory),
    }
}

/// Adds the call of an activation that is pending, as it was first sent, where the activation is of this server.
fn push_call(
    alloc: Global,
    out: &mut Vec<u8>,
    activation: &Option<Activation>,
    inc: u32,
) -> Result<(), ScriptFault>
    ensures pushed { OnOk result (out.new.items ≡ out.old.items ++ spelled_to inc (pending_call activation.now)) }
    ensures lacking { IfErr result (λ fault. fault ≡ NoMemory) }
{
    let Some(activation) = activation else {
        return Ok(());
    };
    if activation.inc != inc {
        return Ok(());
    }
    match &activation.pending {
        None => Ok(()),
        Some(operation) => {
            let asked = call(activation, activation.last, operation.copy(alloc)?);
            push_frame(out, &Frame::Message(asked))
        }
    }
}

/// The calls that are pending for a server, and a Turn, as bytes. No other server's call is copied.
fn turn_bytes(alloc: Global, core: &ContainerCore, inc: u32) -> Result<Vec<u8>, ScriptFault>
    ensures turn { IfOk result (λ v. v.items ≡ turn_of core.now inc) }
    ensures lacking { IfErr result (λ fault. fault ≡ NoMemory) }
{
    let mut out = Vec::new(alloc);
    for object in core.all_objects() {
        push_call(alloc, &mut out, &object.link, inc)?;
    }
    push_frame(&mut out, &Frame::Turn)?;
    Ok(out)
}

/// Whether a host did what it was asked for. Its want of memory ends the script, and is no failed link.
fn is_done(answer: Result<(), HostFault>) -> Result<bool, ScriptFault>
    ensures done { IfOk result (λ done. done ≡ is_ok answer) }
    ensures lacking { IfErr result (λ fault. fault ≡ NoMemory) }
    ensures asked { IfErr result (λ _. answer ≡ Err host.NoMemory) }
    ensures refused { answer ≡ Err host.NoMemory → is_ok result ≡ false }
{
    match answer {
        Ok(()) => Ok(true),
        Err(HostFault::Failed) => Ok(false),
        Err(HostFault::NoMemory) => Err(ScriptFault::NoMemory),
    }
}

/// Sends a link its turn. Gives whether it was sent.
pub fn send_turn<H: Host>(
    alloc: Global,
    host: &mut H,
    core: &ContainerCore,
    inc: u32,
) -> Result<bool, ScriptFault>
    requires told { IsTold ⟦<H::Disk as Disk>⟧ (H.told host.old) core.now }
    requires within { IsWithin (sending (pace inc (H.told host.old))) }
    ensures told { IsTold ⟦<H::Disk as Disk>⟧ (H.told host.new) core.now }
    ensures quiet { (s : ℕ) → passed s (H.told host.new) ≡ passed s (H.told host.old) }
    ensures handing { (f : ℕ → Bool) → handed f (H.told host.new) ≡ handed f (H.told host.old) }
    ensures apart { (held : Bool) → others inc held (H.told host.new) ≡ others inc held (H.told host.old) }
    ensures sent { OnOk result (pace inc (H.told host.new) ≡ sending (pace inc (H.told host.old))) }
    ensures ordered { course (H.told host.new) ≡ course (H.told host.old) }
    ensures noticed { notices (H.told host.new) ≡ notices (H.told host.old) }
    ensures shown { IfErr result (λ fault. Shows ⟦<H::Disk as Disk>⟧ (H.told host.new) fault) }
{
    let bytes = turn_bytes(alloc, core, inc)?;
    is_done(host.send(inc, &bytes))
}

/// What is told of a refusal.
fn notice_of(refused: Option<Refusal>) -> Option<Told>
    ensures { (before : Option Notice) → Notes before (first_noticed before (refusal_noticed refused)) result }
{
    match refused {
        Some(refusal) => Some(Told::Refused(refusal)),
        None => None,
    }
}

/// Whether a message that the container refuses is one that a server may send: one of something that is over is.
fn refused(fault: ContainerFault) -> Result<bool, ScriptFault>
    ensures known { OnOk result (fault ≢ container.NoMemory) }
    ensures lacking { IfErr result (λ fault. fault ≡ NoMemory) }
{
    match fault {
        ContainerFault::NoMemory => Err(ScriptFault::NoMemory),
        ContainerFault::WrongLink => Ok(false),
        ContainerFault::BadAnswer => Ok(false),
        _ => Ok(true),
    }
}

/// Hands a message of a link over to the container. Gives whether it is one that a server may send; one of something
/// that is over is passed over.
pub fn hand_over<H: Host>(
    alloc: Global,
    host: &mut H,
    core: &mut ContainerCore,
    inc: u32,
    taken: Message,
    noticed: &mut Option<Told>,
) -> Result<bool, ScriptFault>
    requires known { IsKnown ⟦<H::Disk as Disk>⟧ (H.told host.old) core.old noticed.old }
    requires next { AreNext (passed inc (H.told host.old)) (taken ∷ []) }
    ensures leaves { Leaves ⟦<H::Disk as Disk>⟧ result (H.told host.new) core.new noticed.new }
    ensures serving { servers (H.told host.new) ≡ servers (Stepped (given.Message inc taken) ∷ H.told host.old) }
    ensures ordered { course (H.told host.new) ≡ course (H.told host.old) }
{
    match message(alloc, host, core, inc, taken) {
        Ok(answer) => {
            *noticed = first_of(*noticed, notice_of(answer.refused));
            save_all(alloc, host, core, &answer, noticed)?;
            Ok(true)
        }
        Err(fault) => refused(fault),
    }
}

/// Carries out a message of a link, or puts it to those that wait. Gives whether it is one that a server may send.
fn meet<H: Host>(
    alloc: Global,
    host: &mut H,
    core: &mut ContainerCore,
    link: &mut Link,
    taken: Message,
    noticed: &mut Option<Told>,
) -> Result<bool, ScriptFault>
    requires known { IsKnown ⟦<H::Disk as Disk>⟧ (H.told host.old) core.old noticed.old }
    requires served { IsServed (passed link.old.inc (H.told host.old)) link.old (taken ∷ []) }
    ensures leaves { Leaves ⟦<H::Disk as Disk>⟧ result (H.told host.new) core.new noticed.new }
    ensures same { link.new.inc ≡ link.old.inc }
    ensures holding { link.new.held ≡ link.old.held }
    ensures served { OnOk result (IsServed (passed link.new.inc (H.told host.new)) link.new []) }
    ensures paced { pace link.old.inc (H.told host.new) ≡ pace link.old.inc (H.told host.old) }
    ensures apart { others link.old.inc link.old.held (H.told host.new)
        ≡ others link.old.inc link.old.held (H.told host.old) }
{
    if link.held {
        link.waiting.push(taken)?;
        return Ok(true);
    }
    hand_over(alloc, host, core, link.inc, taken, noticed)
}

/// Carries out the frames that came on a link, up to a Turn. A link of which more waits than may has failed. A piece
/// ends fewer frames than it has bytes, since a frame has ten at least, so all that are whole are taken.
fn take_frames<H: Host>(
    alloc: Global,
    host: &mut H,
    core: &mut ContainerCore,
    link: &mut Link,
    noticed: &mut Option<Told>,
) -> Result<Heard, ScriptFault>
    requires known { IsKnown ⟦<H::Disk as Disk>⟧ (H.told host.old) core.old noticed.old }
    requires served { IsServed (passed link.old.inc (H.told host.old)) link.old [] }
    ensures leaves { Leaves ⟦<H::Disk as Disk>⟧ result (H.told host.new) core.new noticed.new }
    ensures same { link.new.inc ≡ link.old.inc }
    ensures holding { link.new.held ≡ link.old.held }
    ensures served { OnOk result (IsServed (passed link.new.inc (H.told host.new)) link.new []) }
    ensures paced { pace link.old.inc (H.told host.new) ≡ pace link.old.inc (H.told host.old) }
    ensures apart { others link.old.inc link.old.held (H.told host.new)
        ≡ others link.old.inc link.old.held (H.told host.old) }
{
    for _ in 0..=PIECE {
        match link.decoder.next() {
            Ok(None) => return Ok(Heard::Part),
            Ok(Some(Frame::Turn)) => return Ok(Heard::Turn),
            Ok(Some(Frame::Message(taken))) => {
                if !meet(alloc, host, core, link, taken, noticed)? {
                    return Ok(Heard::Faulty);
                }
                if link.waiting.is_over() {
                    return Ok(Heard::Failed);
                }
            }
            Err(_) => return Ok(Heard::Faulty),
        }
    }
    Ok(Heard::Failed)
}

/// Reads some bytes of a link, as many as the buffer has room for. Gives whether there were any.
fn read_some<H: Host>(host: &mut H, link: &mut Link, buffer: &mut [u8]) -> Result<bool, ScriptFault>
    requires served { IsServed (passed link.old.inc (H.told host.old)) link.old [] }
    requires within { IsWithin (reading (pace link.old.inc (H.told host.old))) }
    ensures told { (r : Record) → IsTold ⟦<H::Disk as Disk>⟧ (H.told host.old) r
        → IsTold ⟦<H::Disk as Disk>⟧ (H.told host.new) r }
    ensures same { link.new.inc ≡ link.old.inc }
    ensures holding { link.new.held ≡ link.old.held }
    ensures served { OnOk result (IsServed (passed link.new.inc (H.told host.new)) link.new []) }
    ensures read { pace link.new.inc (H.told host.new) ≡ reading (pace link.old.inc (H.told host.old)) }
    ensures apart { others link.old.inc link.old.held (H.told host.new)
        ≡ others link.old.inc link.old.held (H.told host.old) }
    ensures noticed { notices (H.told host.new) ≡ notices (H.told host.old) }
    ensures shown { IfErr result (λ fault. Shows ⟦<H::Disk as Disk>⟧ (H.told host.new) fault) }
{
    let n = match host.read(link.inc, buffer) {
        Ok(n) => n,
        Err(HostFault::Failed) => return Ok(false),
        Err(HostFault::NoMemory) => return Err(ScriptFault::NoMemory),
    };
    if n == 0 {
        return Ok(false);
    }
    match link.decoder.feed(&buffer[..n]) {
        Ok(()) => Ok(true),
        Err(fault) => match fault {
            WireFault::NoMemory => Err(ScriptFault::NoMemory),
            _ => Ok(true),
        },
    }
}

/// Reads a link up to a Turn, and carries out what comes.
fn hear<H: Host>(
    alloc: Global,
    host: &mut H,
    core: &mut ContainerCore,
    link: &mut Link,
    noticed: &mut Option<Told>,
    buffer: &mut [u8],
    reads: &mut u32,
) -> Result<Heard, ScriptFault>
    requires known { IsKnown ⟦<H::Disk as Disk>⟧ (H.told host.old) core.old noticed.old }
    requires served { IsServed (passed link.old.inc (H.told host.old)) link.old [] }
    requires within { IsWithin (pace link.old.inc (H.told host.old)) }
    requires on { GoesOn (pace link.old.inc (H.told host.old)) (pace link.old.inc (H.told host.old)) reads.old }
    ensures leaves { Leaves ⟦<H::Disk as Disk>⟧ result (H.told host.new) core.new noticed.new }
    ensures same { link.new.inc ≡ link.old.inc }
    ensures holding { link.new.held ≡ link.old.held }
    ensures served { OnOk result (IsServed (passed link.new.inc (H.told host.new)) link.new []) }
    ensures on { OnOk result (GoesOn (pace link.old.inc (H.told host.old)) (pace link.new.inc (H.told host.new))
        reads.new) }
    ensures apart { others link.old.inc link.old.held (H.told host.new)
        ≡ others link.old.inc link.old.held (H.told host.old) }
{
    while *reads > 0 {
        let heard = take_frames(alloc, host, core, link, noticed)?;
        if heard != Heard::Part {
            return Ok(heard);
        }
        *reads -= 1;
        if !read_some(host, link, buffer)? {
            return Ok(Heard::Failed);
        }
    }
    Ok(Heard::Failed)
}

/// A link's turn over the connection that it has.
fn exchange<H: Host>(
    alloc: Global,
    host: &mut H,
    core: &mut ContainerCore,
    link: &mut Link,
    noticed: &mut Option<Told>,
    buffer: &mut [u8],
    reads: &mut u32,
) -> Result<Heard, ScriptFault>
    requires known { IsKnown ⟦<H::Disk as Disk>⟧ (H.told host.old) core.old noticed.old }
    requires served { IsServed (passed link.old.inc (H.told host.old)) link.old [] }
    requires within { IsWithin (sending (pace link.old.inc (H.told host.old))) }
    requires left { HasLeft (sending (pace link.old.inc (H.told host.old))) reads.old }
    ensures leaves { Leaves ⟦<H::Disk as Disk>⟧ result (H.told host.new) core.new noticed.new }
    ensures same { link.new.inc ≡ link.old.inc }
    ensures holding { link.new.held ≡ link.old.held }
    ensures served { OnOk result (IsServed (passed link.new.inc (H.told host.new)) link.new []) }
    ensures on { OnOk result (GoesOn (sending (pace link.old.inc (H.told host.old)))
        (pace link.new.inc (H.told host.new)) reads.new) }
    ensures apart { others link.old.inc link.old.held (H.told host.new)
        ≡ others link.old.inc link.old.held (H.told host.old) }
{
    if !send_turn(alloc, host, core, link.inc)? {
        return Ok(Heard::Failed);
    }
    hear(alloc, host, core, link, noticed, buffer, reads)
}

/// Connects a link again: what came of the old connection and isn't carried out is dropped. Gives whether it was made.
///
/// Refused for want of memory alone.
pub fn reconnect<H: Host>(alloc: Global, host: &mut H, link: &mut Link) -> Result<bool, ScriptFault>
    requires served { IsServed (passed link.old.inc (H.told host.old)) link.old [] }
    requires may { MayLink (pace link.old.inc (H.told host.old)) }
    ensures told { (r : Record) → IsTold ⟦<H::Disk as Disk>⟧ (H.told host.old) r
        → IsTold ⟦<H::Disk as Disk>⟧ (H.told host.new) r }
    ensures same { link.new.inc ≡ link.old.inc }
    ensures holding { link.new.held ≡ link.old.held }
    ensures served { IsServed (passed link.new.inc (H.told host.new)) link.new [] }
    ensures linked { MatchResult result (λ made. pace link.new.inc (H.told host.new)
        ≡ linking made (pace link.old.inc (H.told host.old)))
        (λ _. pace link.new.inc (H.told host.new) ≡ linking false (pace link.old.inc (H.told host.old))) }
    ensures apart { others link.old.inc link.old.held (H.told host.new)
        ≡ others link.old.inc link.old.held (H.told host.old) }
    ensures noticed { notices (H.told host.new) ≡ notices (H.told host.old) }
    ensures lacking { IfErr result (λ fault. fault ≡ NoMemory) }
    ensures handing { (f : ℕ → Bool) → handed f (H.told host.new) ≡ handed f (H.told host.old) }
{
    link.decoder = Decoder::new(alloc);
    is_done(host.connect(link.inc))
}

/// A link's turn. One that fails is connected again, once. Gives whether the link stands.
pub fn serve<H: Host>(
    alloc: Global,
    host: &mut H,
    core: &mut ContainerCore,
    link: &mut Link,
    noticed: &mut Option<Told>,
    buffer: &mut [u8],
) -> Result<bool, ScriptFault>
    requires known { IsKnown ⟦<H::Disk as Disk>⟧ (H.told host.old) core.old noticed.old }
    requires served { IsServed (passed link.old.inc (H.told host.old)) link.old [] }
    requires ready { IsReady 1000 (pace link.old.inc (H.told host.old)) }
    ensures leaves { Leaves ⟦<H::Disk as Disk>⟧ result (H.told host.new) core.new noticed.new }
    ensures same { link.new.inc ≡ link.old.inc }
    ensures holding { link.new.held ≡ link.old.held }
    ensures served { OnOk result (IsServed (passed link.new.inc (H.told host.new)) link.new []) }
    ensures turned { OnOk result (HadTurn (pace link.old.inc (H.told host.old)) (pace link.new.inc (H.told host.new))) }
    ensures apart { others link.old.inc link.old.held (H.told host.new)
        ≡ others link.old.inc link.old.held (H.told host.old) }
{
    let mut reads = MOST_READS;
    match exchange(alloc, host, core, link, noticed, buffer, &mut reads)? {
        Heard::Turn => return Ok(true),
        Heard::Failed => {}
        _ => return Ok(false),
    }
    let made = reconnect(alloc, host, link)?;
    if !made {
        return Ok(false);
    }
    let heard = exchange(alloc, host, core, link, noticed, buffer, &mut reads)?;
    Ok(heard == Heard::Turn)
}
