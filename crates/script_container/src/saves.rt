//! Saves: the file of a frame whose commit is asked for goes to a disk of the host, and the container is told what
//! became of it. The container makes it of the file that it committed last, so that few blocks of the disk are written;
//! what that frees is zero. That the blocks are few is tested.

ghost use Rattle.container_model.specs.Record.{Record};
ghost use Rattle.container_model.specs.Saves.{image};
ghost use Rattle.store_core.specs.Opened.{disk_of, needs_reopen_of};
ghost use Rattle.script_model.specs.Answers.{first_told};
ghost use Rattle.script_model.specs.Courses.{course};
ghost use Rattle.script_model.specs.Errors.{IsUnopened, IsUntoldFor};
ghost use Rattle.script_model.specs.Notices.{Notes, first_noticed, lost_as, notices};
ghost use Rattle.script_model.specs.Saved.{IsLost, IsLostOn, IsMissing, IsRefusedOn, IsSavedOn, IsSavedThere};
ghost use Rattle.script_model.specs.Saved.{IsShutWith, IsShutWithout, file_name};
ghost use Rattle.script_container.specs.Done.{AreCarriedOut, IsCarriedOut, IsCertain, IsDone, OnlyDone};
ghost use Rattle.script_container.specs.Known.{IsKnown, Leaves};
ghost use Rattle.script_container.specs.Servers.{servers};
ghost use Rattle.script_container.specs.Shown.{Shows};
ghost use Rattle.script_container.specs.Told.{IfKept, IfLost, IsImage, IsLeftOn, IsReplacedOn, IsTold};
ghost use Rattle.std.specs.Prelude.{◌≡◌, ◌<◌, ◌^◌, IfErr, IfOk, OnOk, Some, false};

use crate::container::{committed, dropped, failed};
use crate::fault::ScriptFault;
use container_core::container::ContainerCore;
use container_model::answer::{Action, Answer};
use container_model::fault::ContainerFault;
use container_model::record::Frame;
use script_model::answer::Told;
use script_model::host::Host;
use std::alloc::{AllocError, Global};
use store_core::outcome::Outcome;
use store_core::resolved::commit_resolved;
use store_core::store::Store;
use store_images::image::Image;
use store_model::disk::Disk;
use store_model::fault::StoreFault;

/// The first of what was noticed.
pub fn first_of(before: Option<Told>, next: Option<Told>) -> Option<Told>
    ensures { result ≡ first_told before next }
{
    match before {
        Some(notice) => Some(notice),
        None => next,
    }
}

/// That the count of a disk's failed calls isn't past its last value. It does nothing.
fn counted<D: Disk>(disk: &D)
    ensures { D.failed disk.now < 2 ^ 64 }
{
    disk.counts();
}

/// Makes these bytes the document of a store, and gives its disk back. After an error it is opened again, and tells by
/// its document what became of them.
fn replace<D: Disk + Drop>(store: Store<D>, bytes: &[u8]) -> (Result<Outcome, StoreFault>, D)
    requires { needs_reopen_of store ≡ false }
    ensures kept { D.follows_model
        → IfOk result.0
        (λ outcome. IfKept outcome (IsReplacedOn ⟦<D as Disk>⟧ (disk_of store) (D.reads (disk_of store)).document
        bytes.now result.1)) }
    ensures lost { D.follows_model
        → IfOk result.0
        (λ outcome. IfLost outcome (IsLeftOn ⟦<D as Disk>⟧ (disk_of store) (D.reads (disk_of store)).document
        bytes.now result.1)) }
    ensures cause { IfOk result.0
        (λ outcome. IfLost outcome (IsRefusedOn ⟦<D as Disk>⟧ (disk_of store) bytes.now result.1)) }
    ensures untold { IfErr result.0 (λ fault. IsUntoldFor ⟦<D as Disk>⟧ (disk_of store) result.1 fault) }
{
    match commit_resolved(store, bytes) {
        Ok((outcome, store)) => (Ok(outcome), store.into_disk()),
        Err(refused) => (Err(refused.fault), refused.disk),
    }
}

/// What became of bytes that were to be the document of a store, where it couldn't be opened at first.
fn compare<D: Disk + Drop>(
    store: Store<D>,
    bytes: &[u8],
    fault: StoreFault,
) -> (Result<Outcome, StoreFault>, D)
    requires { needs_reopen_of store ≡ false }
    ensures kept { D.follows_model
        → IfOk result.0
        (λ outcome. IfKept outcome (IsReplacedOn ⟦<D as Disk>⟧ (disk_of store) (D.reads (disk_of store)).document
        bytes.now result.1)) }
    ensures lost { D.follows_model
        → IfOk result.0
        (λ outcome. IfLost outcome (IsLeftOn ⟦<D as Disk>⟧ (disk_of store) (D.reads (disk_of store)).document
        bytes.now result.1)) }
    ensures count { OnOk result.0 (D.failed result.1 ≡ D.failed (disk_of store)) }
    ensures untold { IfErr result.0 (λ fault. IsUntoldFor ⟦<D as Disk>⟧ (disk_of store) result.1 fault) }
{
    let mut store = store;
    match store.holds(bytes) {
        Ok(is) => {
            if is {
                return (Ok(Outcome::Kept), store.into_disk());
            }
            (Ok(Outcome::Lost(fault)), store.into_disk())
        }
        Err(refused) => (Err(refused), store.into_disk()),
    }
}

/// What became of these bytes where their disk wasn't given or opened at first, with that fault.
fn try_again<D: Disk + Drop>(
    alloc: Global,
    disk: D,
    bytes: &[u8],
    fault: StoreFault,
) -> (Result<Outcome, StoreFault>, D)
    ensures kept { D.follows_model
        → IfOk result.0 (λ outcome. IfKept outcome (IsSavedOn ⟦<D as Disk>⟧ disk bytes.now result.1)) }
    ensures lost { D.follows_model
        → IfOk result.0 (λ outcome. IfLost outcome (IsLostOn ⟦<D as Disk>⟧ disk bytes.now result.1)) }
    ensures count { OnOk result.0 (D.failed result.1 ≡ D.failed disk) }
    ensures untold { IfErr result.0 (λ fault. IsUntoldFor ⟦<D as Disk>⟧ disk result.1 fault) }
{
    match Store::open(alloc, disk) {
        Ok(store) => compare(store, bytes, fault),
        Err(refused) => (Err(refused.fault), refused.disk),
    }
}

/// Makes these bytes the document of a disk. Where it isn't opened as a call failed, the same disk is tried again: a
/// new one of its name forgets that a sync failed.
fn commit_on<D: Disk + Drop>(
    alloc: Global,
    disk: D,
    bytes: &[u8],
) -> (Result<Outcome, StoreFault>, D)
    ensures kept { D.follows_model
        → IfOk result.0 (λ outcome. IfKept outcome (IsSavedOn ⟦<D as Disk>⟧ disk bytes.now result.1)) }
    ensures lost { D.follows_model
        → IfOk result.0 (λ outcome. IfLost outcome (IsLostOn ⟦<D as Disk>⟧ disk bytes.now result.1)) }
    ensures cause { IfOk result.0 (λ outcome. IfLost outcome (IsRefusedOn ⟦<D as Disk>⟧ disk bytes.now result.1)) }
    ensures untold { IfErr result.0 (λ fault. IsUntoldFor ⟦<D as Disk>⟧ disk result.1 fault) }
{
    counted(&disk);
    match Store::open(alloc, disk) {
        Ok(store) => replace(store, bytes),
        Err(refused) => match refused.fault {
            StoreFault::Device => try_again(alloc, refused.disk, bytes, StoreFault::Device),
            fault => (Err(fault), refused.disk),
        },
    }
}

/// What became of these bytes where the disk of their file wasn't given at first, with that fault.
fn commit_again<H: Host>(
    alloc: Global,
    host: &mut H,
    name: &[u8],
    bytes: &[u8],
    fault: StoreFault,
) -> Result<Outcome, StoreFault>
    ensures told { (r : Record) → IsTold ⟦<H::Disk as Disk>⟧ (H.told host.old) r
        → IsTold ⟦<H::Disk as Disk>⟧ (H.told host.new) r }
    ensures serving { servers (H.told host.new) ≡ servers (H.told host.old) }
    ensures shut { H.Disk.follows_model
        → IfOk result
        (λ outcome. IfKept outcome (IsShutWith ⟦<H::Disk as Disk>⟧ (H.told host.new) name.now bytes.now)) }
    ensures left { IsMissing name.now (H.told host.old)
        → IfOk result
        (λ outcome. IfLost outcome (IsShutWithout ⟦<H::Disk as Disk>⟧ (H.told host.new) name.now bytes.now)) }
    ensures ordered { course (H.told host.new) ≡ course (H.told host.old) }
    ensures noticed { notices (H.told host.new) ≡ notices (H.told host.old) }
    ensures unopened { IsMissing name.now (H.told host.old)
        → IfErr result (λ fault. IsUnopened ⟦<H::Disk as Disk>⟧ name.now fault (H.told host.new)) }
{
    match host.disk(name) {
        Ok(disk) => {
            let (outcome, disk) = try_again(alloc, disk, bytes, fault);
            host.shut(name, disk);
            outcome
        }
        Err(fault) => Err(fault),
    }
}

/// Makes these bytes the file of a name.
///
/// Refused: where its store can't be opened, also when that is tried again, so that it isn't known what the file is.
fn commit<H: Host>(
    alloc: Global,
    host: &mut H,
    name: &[u8],
    bytes: &[u8],
) -> Result<Outcome, StoreFault>
    ensures told { (r : Record) → IsTold ⟦<H::Disk as Disk>⟧ (H.told host.old) r
        → IsTold ⟦<H::Disk as Disk>⟧ (H.told host.new) r }
    ensures serving { servers (H.told host.new) ≡ servers (H.told host.old) }
    ensures shut { H.Disk.follows_model
        → IfOk result
        (λ outcome. IfKept outcome (IsShutWith ⟦<H::Disk as Disk>⟧ (H.told host.new) name.now bytes.now)) }
    ensures left { IfOk result
        (λ outcome. IfLost outcome (IsShutWithout ⟦<H::Disk as Disk>⟧ (H.told host.new) name.now bytes.now)) }
    ensures ordered { course (H.told host.new) ≡ course (H.told host.old) }
    ensures noticed { notices (H.told host.new) ≡ notices (H.told host.old) }
    ensures unopened { IfErr result (λ fault. IsUnopened ⟦<H::Disk as Disk>⟧ name.now fault (H.told host.new)) }
{
    let given = host.disk(name);
    match given {
        Ok(disk) => {
            let (outcome, disk) = commit_on(alloc, disk, bytes);
            host.shut(name, disk);
            outcome
        }
        Err(fault) => commit_again(alloc, host, name, bytes, fault),
    }
}

/// The name that a frame is saved under.
fn name_of(alloc: Global, frame: &Frame) -> Result<Vec<u8>, AllocError>
    ensures { IfOk result (λ name. name.items ≡ file_name frame.now) }
{
    match &frame.asked {
        Some(asked) => Vec::from_slice(alloc, asked.as_slice()),
        None => Vec::from_slice(alloc, frame.name.as_slice()),
    }
}

/// Tells the container that a save is lost.
fn lose<H: Host>(
    alloc: Global,
    host: &mut H,
    core: &mut ContainerCore,
    frame: u32,
) -> Result<(), ScriptFault>
    requires lost { IsLost ⟦<H::Disk as Disk>⟧ (H.told host.old) frame }
    requires told { IsTold ⟦<H::Disk as Disk>⟧ (H.told host.old) core.old }
    ensures told { IsTold ⟦<H::Disk as Disk>⟧ (H.told host.new) core.new }
    ensures serving { servers (H.told host.new) ≡ servers (H.told host.old) }
    ensures ordered { course (H.told host.new) ≡ course (H.told host.old) }
    ensures noticed { notices (H.told host.new) ≡ first_noticed (notices (H.told host.old))
        (Some (lost_as (image core.old frame))) }
    ensures shown { IfErr result (λ fault. Shows ⟦<H::Disk as Disk>⟧ (H.told host.new) fault) }
    ensures others { OnOk result (OnlyDone core.old core.new) }
    ensures done { OnOk result (IsDone core.new frame) }
{
    failed(alloc, host, core, frame);
    dropped(alloc, host, core, frame)
}

/// Saves the file of a frame, and tells the container what became of it. Where it is saved, the container keeps it, to
/// make the next one of it.
fn save_file<H: Host>(
    alloc: Global,
    host: &mut H,
    core: &mut ContainerCore,
    frame: u32,
    file: Image,
) -> Result<Option<Told>, ScriptFault>
    requires image { IsImage core.old frame file }
    requires told { IsTold ⟦<H::Disk as Disk>⟧ (H.told host.old) core.old }
    ensures told { IsTold ⟦<H::Disk as Disk>⟧ (H.told host.new) core.new }
    ensures serving { servers (H.told host.new) ≡ servers (H.told host.old) }
    ensures ordered { course (H.told host.new) ≡ course (H.told host.old) }
    ensures noticed { IfOk result (Notes (notices (H.told host.old)) (notices (H.told host.new))) }
    ensures shown { IfErr result (λ fault. Shows ⟦<H::Disk as Disk>⟧ (H.told host.new) fault) }
    ensures others { OnOk result (OnlyDone core.old core.new) }
    ensures done { OnOk result (IsCertain core.old frame → IsDone core.new frame) }
{
    let Some(found) = core.frame(frame) else {
        return Ok(None);
    };
    let name = name_of(alloc, found)?;
    match commit(alloc, host, &name, file.bytes()) {
        Ok(Outcome::Kept) => {
            core.put_image(frame, file);
            committed(alloc, host, core, frame)?;
            Ok(None)
        }
        Ok(Outcome::Lost(fault)) => {
            lose(alloc, host, core, frame)?;
            Ok(Some(Told::Lost(fault)))
        }
        Err(fault) => Err(ScriptFault::File(name, fault)),
    }
}

/// Saves a frame whose commit is asked for. Gives what is to be told where the save is lost.
///
/// Refused: `File` where its file can't be opened, so that it isn't known what it holds; `NoMemory`.
fn save<H: Host>(
    alloc: Global,
    host: &mut H,
    core: &mut ContainerCore,
    frame: u32,
) -> Result<Option<Told>, ScriptFault>
    requires { IsTold ⟦<H::Disk as Disk>⟧ (H.told host.old) core.old }
    ensures told { IsTold ⟦<H::Disk as Disk>⟧ (H.told host.new) core.new }
    ensures serving { servers (H.told host.new) ≡ servers (H.told host.old) }
    ensures ordered { course (H.told host.new) ≡ course (H.told host.old) }
    ensures noticed { IfOk result (Notes (notices (H.told host.old)) (notices (H.told host.new))) }
    ensures shown { IfErr result (λ fault. Shows ⟦<H::Disk as Disk>⟧ (H.told host.new) fault) }
    ensures others { OnOk result (OnlyDone core.old core.new) }
    ensures done { OnOk result (IsCertain core.old frame → IsDone core.new frame) }
{
    match core.image(alloc, frame) {
        Ok(file) => save_file(alloc, host, core, frame, file),
        Err(ContainerFault::NoMemory) => Err(ScriptFault::NoMemory),
        Err(ContainerFault::Full) => {
            lose(alloc, host, core, frame)?;
            Ok(Some(Told::Fault(ContainerFault::Full)))
        }
        Err(_) => Ok(None),
    }
}

/// Carries out the commit that an action of the container asks for, if it asks for one.
fn save_on<H: Host>(
    alloc: Global,
    host: &mut H,
    core: &mut ContainerCore,
    action: &Action,
    noticed: &mut Option<Told>,
) -> Result<(), ScriptFault>
    requires known { IsKnown ⟦<H::Disk as Disk>⟧ (H.told host.old) core.old noticed.old }
    ensures leaves { Leaves ⟦<H::Disk as Disk>⟧ result (H.told host.new) core.new noticed.new }
    ensures serving { servers (H.told host.new) ≡ servers (H.told host.old) }
    ensures ordered { course (H.told host.new) ≡ course (H.told host.old) }
    ensures others { OnOk result (OnlyDone core.old core.new) }
    ensures done { OnOk result (IsCarriedOut core.old core.new action.now) }
{
    match action {
        Action::Commit(frame) => {
            let lost = save(alloc, host, core, *frame)?;
            *noticed = first_of(*noticed, lost);
            Ok(())
        }
        Action::Send(_) | Action::Start(_) | Action::End(_) => Ok(()),
    }
}

/// Carries out the commits that an answer of the container asks for. None is left: of each it is told whether it was
/// kept or lost, and every other frame is as it was.
pub fn save_all<H: Host>(
    alloc: Global,
    host: &mut H,
    core: &mut ContainerCore,
    answer: &Answer,
    noticed: &mut Option<Told>,
) -> Result<(), ScriptFault>
    requires known { IsKnown ⟦<H::Disk as Disk>⟧ (H.told host.old) core.old noticed.old }
    ensures leaves { Leaves ⟦<H::Disk as Disk>⟧ result (H.told host.new) core.new noticed.new }
    ensures serving { servers (H.told host.new) ≡ servers (H.told host.old) }
    ensures ordered { course (H.told host.new) ≡ course (H.told host.old) }
    ensures others { OnOk result (OnlyDone core.old core.new) }
    ensures done { OnOk result (AreCarriedOut core.old core.new answer.now.actions) }
{
    for action in answer.actions.as_slice() {
        save_on(alloc, host, core, action, noticed)?;
    }
    Ok(())
}
