//! The container of a script, and what it is given: each thing is noted as it is given.

ghost use Rattle.container_model.specs.Commands.{on_command};
ghost use Rattle.container_model.specs.Opens.{Given, IsReadAs, opened};
ghost use Rattle.container_model.specs.Record.{Refuses, counts_none};
ghost use Rattle.container_model.specs.Saves.{image};
ghost use Rattle.container_model.specs.declared.answer.FrameDocument.{FrameDocument};
ghost use Rattle.container_model.specs.declared.fault.ContainerFault.TheVariants as container;
ghost use Rattle.container_model.specs.declared.command.Command.{Command};
ghost use Rattle.ole_model.specs.declared.object.DocObject.{DocObject};
ghost use Rattle.script_model.specs.Containers.{record_of};
ghost use Rattle.script_model.specs.Events.{Stepped};
ghost use Rattle.script_model.specs.Answers.{opened_by, told_opened};
ghost use Rattle.script_model.specs.Courses.{course, starts_in};
ghost use Rattle.script_model.specs.Notices.{first_noticed, lost_as, notices, refusal_noticed};
ghost use Rattle.script_model.specs.Orders.{IsReadied, asked};
ghost use Rattle.script_model.specs.Origins.{AreNext, passed};
ghost use Rattle.script_model.specs.Saved.{IsLost, IsReadFrom, IsSavedThere};
ghost use Rattle.script_model.specs.declared.step.Step.TheVariants as given;
ghost use Rattle.script_container.specs.Done.{IsAnswered, IsCertain, IsDone, OnlyDone, OnlyDoneBut};
ghost use Rattle.script_container.specs.Servers.{servers};
ghost use Rattle.script_container.specs.Shown.{Shows};
ghost use Rattle.script_container.specs.Told.{IsEnded, IsTold, noted_of};
ghost use Rattle.script_container.specs.declared.fault.ScriptFault.TheVariants.{NoMemory};
ghost use Rattle.std.specs.Prelude.{◌≡◌, ◌≢◌, ◌≤◌, ◌∷◌, [], IfErr, IfOk, List, Ok, OnOk, Some, length, ℕ};
ghost use Rattle.message_values.specs.declared.message.Message.{Message};

use crate::fault::ScriptFault;
use container_core::container::ContainerCore;
use container_laws::open_laws::files_give_one;
use container_model::answer::Answer;
use container_model::command::Command;
use container_model::fault::ContainerFault;
use container_model::server_link::ServerLink;
use container_numbers::sound_laws::sessions_stay;
use message_values::items::Items;
use message_values::message::Message;
use ole_streams::doc::Doc;
use script_model::answer::Told;
use script_model::host::Host;
use script_model::step::Step;
use std::alloc::Global;
use store_model::disk::Disk;
use tree_values::bytes::Bytes;

/// The command of a step.
fn command_of(step: Step) -> Option<Command>
    ensures { (c : Command) → step ≡ given.Command c → result ≡ Some c }
{
    match step {
        Step::Command(command) => Some(command),
        _ => None,
    }
}

/// The message of a step.
fn message_of(step: Step) -> Option<Message>
    ensures { (inc : ℕ) (m : Message) → step ≡ given.Message inc m → result ≡ Some m }
{
    match step {
        Step::Message(_, message) => Some(message),
        _ => None,
    }
}

/// The name of a step's file.
fn name_of(step: Step) -> Option<Bytes>
    ensures { (name : List ℕ) (w h session : ℕ) (objects : List DocObject)
        → step ≡ given.Open name w h session objects → result ≡ Some name }
{
    match step {
        Step::Open(name, _, _, _, _) => Some(name),
        _ => None,
    }
}

/// Notes where the container had no memory for what it was given.
fn noted<H: Host>(
    host: &mut H,
    told: Result<Answer, ContainerFault>,
) -> Result<Answer, ContainerFault>
    ensures same { result ≡ told }
    ensures noted { H.told host.new ≡ noted_of told (H.told host.old) }
    ensures serving { servers (H.told host.new) ≡ servers (H.told host.old) }
    ensures ordered { course (H.told host.new) ≡ course (H.told host.old) }
    ensures noticed { notices (H.told host.new) ≡ notices (H.told host.old) }
{
    match told {
        Ok(answer) => Ok(answer),
        Err(ContainerFault::NoMemory) => {
            host.note(&Step::NoMemory);
            Err(ContainerFault::NoMemory)
        }
        Err(fault) => Err(fault),
    }
}

/// Gives the container a user's command. A start comes where it has a session, or was to get one by the command before.
pub fn command<H: Host>(
    alloc: Global,
    host: &mut H,
    core: &mut ContainerCore,
    command: Command,
) -> Result<Answer, ContainerFault>
    requires told { IsTold ⟦<H::Disk as Disk>⟧ (H.told host.old) core.old }
    requires readied { IsReadied command (record_of (H.told host.old)) (asked (H.told host.old)) }
    ensures told { IsTold ⟦<H::Disk as Disk>⟧ (H.told host.new) core.new }
    ensures serving { servers (H.told host.new) ≡ servers (H.told host.old) }
    ensures ordered { course (H.told host.new) ≡ course (Stepped (Step.Command command) ∷ H.told host.old) }
    ensures noticed { notices (H.told host.new) ≡ notices (H.told host.old) }
    ensures answered { IfOk result (λ a. on_command core.old command ≡ Ok (counts_none core.new a)) }
    ensures refused { IfErr result (Refuses (on_command core.old command)) }
    ensures session { core.new.session ≡ core.old.session }
    ensures starts { IfOk result (λ a. core.old.session ≡ 0 → starts_in a.actions ≡ []) }
{
    let step = Step::Command(command);
    host.note(&step);
    let Some(command) = command_of(step) else {
        unreachable!()
    };
    core.steady();
    sessions_stay();
    let told = core.command(alloc, command);
    noted(host, told)
}

/// Gives the container a message, on the link of this server.
pub fn message<H: Host>(
    alloc: Global,
    host: &mut H,
    core: &mut ContainerCore,
    inc: u32,
    message: Message,
) -> Result<Answer, ContainerFault>
    requires told { IsTold ⟦<H::Disk as Disk>⟧ (H.told host.old) core.old }
    requires next { AreNext (passed inc (H.told host.old)) (message ∷ []) }
    ensures told { IsTold ⟦<H::Disk as Disk>⟧ (H.told host.new) core.new }
    ensures serving { servers (H.told host.new) ≡ servers (Stepped (Step.Message inc message) ∷ H.told host.old) }
    ensures ordered { course (H.told host.new) ≡ course (H.told host.old) }
    ensures noticed { IfOk result (λ a. notices (H.told host.new) ≡ first_noticed (notices (H.told host.old))
        (refusal_noticed a.refused)) }
    ensures unnoticed { IfErr result (λ fault. fault ≢ container.NoMemory
        → notices (H.told host.new) ≡ notices (H.told host.old)) }
{
    let step = Step::Message(inc, message);
    host.note(&step);
    let Some(message) = message_of(step) else {
        unreachable!()
    };
    let link = ServerLink {
        session: core.session(),
        inc,
    };
    let told = core.on_message(alloc, link, message);
    noted(host, told)
}

/// Gives the container a file that is opened, with this document: the disk that was given back last had it.
pub fn opened<H: Host>(
    alloc: Global,
    host: &mut H,
    core: &mut ContainerCore,
    name: Bytes,
    width: u16,
    height: u16,
    document: Doc,
    file: &[u8],
) -> Result<Answer, ContainerFault>
    requires told { IsTold ⟦<H::Disk as Disk>⟧ (H.told host.old) core.old }
    requires read { H.Disk.follows_model → IsReadFrom ⟦<H::Disk as Disk>⟧ (H.told host.old) name file.now }
    requires gives { IsReadAs (Some file.now) (Given.Holding document) }
    ensures told { IsTold ⟦<H::Disk as Disk>⟧ (H.told host.new) core.new }
    ensures serving { servers (H.told host.new) ≡ servers (H.told host.old) }
    ensures few { IfOk result (λ a. length a.objects ≤ 64) }
    ensures ordered { course (H.told host.new)
        ≡ course (Stepped (Step.Open name width height document.session document.objects) ∷ H.told host.old) }
    ensures noticed { notices (H.told host.new) ≡ notices (H.told host.old) }
    ensures answered { IfOk result (λ a. told_opened (opened core.old name width height (Given.Holding document))
        ≡ opened_by a) }
    ensures refused { IfErr result (λ fault. fault ≢ container.NoMemory
        → told_opened (opened core.old name width height (Given.Holding document)) ≡ Told.Fault fault) }
{
    files_give_one();
    let session = document.session();
    let objects = Items::from_vec(document.into_vec());
    let step = Step::Open(name, width, height, session, objects);
    host.note(&step);
    let Some(name) = name_of(step) else {
        unreachable!()
    };
    let told = core.open_file(alloc, name, width, height, Some(file));
    noted(host, told)
}

/// Tells the container the end of a server, which the last call ended.
pub fn reap<H: Host>(
    alloc: Global,
    host: &mut H,
    core: &mut ContainerCore,
    inc: u32,
) -> Result<Answer, ContainerFault>
    requires { IsEnded ⟦<H::Disk as Disk>⟧ inc (H.told host.old) core.old }
    ensures told { IsTold ⟦<H::Disk as Disk>⟧ (H.told host.new) core.new }
    ensures serving { servers (H.told host.new) ≡ servers (H.told host.old) }
    ensures ordered { course (H.told host.new) ≡ course (H.told host.old) }
    ensures noticed { notices (H.told host.new) ≡ notices (H.told host.old) }
{
    host.note(&Step::Reap(inc));
    let told = core.on_reap(alloc, inc);
    noted(host, told)
}

/// What a call of the container leaves, where what it is told can be no fault but want of memory.
fn heard(told: &Result<Answer, ContainerFault>) -> Result<(), ScriptFault>
    ensures lacking { IfErr result (λ fault. fault ≡ NoMemory) }
    ensures known { OnOk result (IfErr told.now (λ fault. fault ≢ container.NoMemory)) }
{
    match told {
        Err(ContainerFault::NoMemory) => Err(ScriptFault::NoMemory),
        _ => Ok(()),
    }
}

/// Tells the container that the file of a frame was committed: the disk that was given back last holds it. So its
/// commit is done, unless it was in doubt; every other frame is as it was.
pub fn committed<H: Host>(
    alloc: Global,
    host: &mut H,
    core: &mut ContainerCore,
    frame: u32,
) -> Result<(), ScriptFault>
    requires saved { IsSavedThere ⟦<H::Disk as Disk>⟧ (H.told host.old) frame }
    requires told { IsTold ⟦<H::Disk as Disk>⟧ (H.told host.old) core.old }
    ensures told { IsTold ⟦<H::Disk as Disk>⟧ (H.told host.new) core.new }
    ensures serving { servers (H.told host.new) ≡ servers (H.told host.old) }
    ensures ordered { course (H.told host.new) ≡ course (H.told host.old) }
    ensures noticed { notices (H.told host.new) ≡ notices (H.told host.old) }
    ensures shown { IfErr result (λ fault. Shows ⟦<H::Disk as Disk>⟧ (H.told host.new) fault) }
    ensures others { OnlyDone core.old core.new }
    ensures done { OnOk result ((saved : FrameDocument) → image core.old frame ≡ Ok saved → IsCertain core.old frame
        → IsDone core.new frame) }
{
    host.note(&Step::Committed(frame));
    let told = core.commit_done(alloc, frame);
    heard(&noted(host, told))
}

/// Tells the container that the commit of a frame's file failed: the disk that was given back last holds what it held
/// before, or no file can hold its document. That takes no memory.
pub fn failed<H: Host>(alloc: Global, host: &mut H, core: &mut ContainerCore, frame: u32)
    requires lost { IsLost ⟦<H::Disk as Disk>⟧ (H.told host.old) frame }
    requires told { IsTold ⟦<H::Disk as Disk>⟧ (H.told host.old) core.old }
    ensures told { IsTold ⟦<H::Disk as Disk>⟧ (H.told host.new) core.new }
    ensures serving { servers (H.told host.new) ≡ servers (H.told host.old) }
    ensures ordered { course (H.told host.new) ≡ course (H.told host.old) }
    ensures noticed { notices (H.told host.new) ≡ first_noticed (notices (H.told host.old))
        (Some (lost_as (image core.old frame))) }
    ensures others { OnlyDoneBut frame core.old core.new }
    ensures answered { IsAnswered core.new frame }
{
    host.note(&Step::Failed(frame));
    let _ = core.commit_failed(alloc, frame);
}

/// Tells the container that the file of a frame in doubt wasn't committed.
pub fn dropped<H: Host>(
    alloc: Global,
    host: &mut H,
    core: &mut ContainerCore,
    frame: u32,
) -> Result<(), ScriptFault>
    requires { IsTold ⟦<H::Disk as Disk>⟧ (H.told host.old) core.old }
    ensures told { IsTold ⟦<H::Disk as Disk>⟧ (H.told host.new) core.new }
    ensures serving { servers (H.told host.new) ≡ servers (H.told host.old) }
    ensures ordered { course (H.told host.new) ≡ course (H.told host.old) }
    ensures noticed { notices (H.told host.new) ≡ notices (H.told host.old) }
    ensures shown { IfErr result (λ fault. Shows ⟦<H::Disk as Disk>⟧ (H.told host.new) fault) }
    ensures others { OnlyDone core.old core.new }
    ensures done { OnOk result (IsAnswered core.old frame → IsDone core.new frame) }
{
    host.note(&Step::Resolved(frame, false));
    let told = core.resolve(alloc, frame, false);
    heard(&noted(host, told))
}
