//! Files that are opened: what the store of a file holds becomes a frame.

ghost use Rattle.container_core.specs.Opening.{looked_at};
ghost use Rattle.container_model.specs.Opens.{Given, IsReadAs};
ghost use Rattle.container_model.specs.declared.fault.ContainerFault.TheVariants.{BadFile};
ghost use Rattle.store_model.specs.declared.fault.StoreFault.TheVariants as store;
ghost use Rattle.script_model.specs.Courses.{Made, Unasked, but_opening, course};
ghost use Rattle.script_model.specs.Notices.{notices};
ghost use Rattle.script_model.specs.Saved.{IsReadFrom, IsReadOf};
ghost use Rattle.script_model.specs.declared.answer.Told.TheVariants as told;
ghost use Rattle.script_container.specs.Servers.{servers};
ghost use Rattle.script_container.specs.Told.{IsTold};
ghost use Rattle.script_container.specs.declared.fault.ScriptFault.TheVariants.{NoMemory};
ghost use Rattle.script_opens.specs.Opening.{HoldsMore, IsJustFound, IsOpenTold, IsOpenedBy, looked};
ghost use Rattle.std.specs.Prelude.{◌≡◌, ◌⊎◌, Err, IfErr, IfOk, Some};

use crate::refusals::refusal;
use container_core::container::ContainerCore;
use container_documents::reading::document_in;
use container_model::fault::ContainerFault;
use ole_streams::doc::Doc;
use script_container::container::opened;
use script_container::fault::ScriptFault;
use script_model::answer::Told;
use script_model::host::Host;
use script_texts::answers::opened_by;
use std::alloc::Global;
use store_core::store::Store;
use store_model::disk::Disk;
use store_model::fault::StoreFault;
use tree_values::bytes::Bytes;

/// The most bytes of a document that is opened.
const MOST: u64 = 134_217_728;

/// The document of a disk, once its open journal is carried out, and the disk. `TooBig` where it has more bytes than
/// are opened.
fn document_on<D: Disk + Drop>(alloc: Global, disk: D) -> (Result<Vec<u8>, StoreFault>, D)
    ensures read { D.follows_model → IfOk result.0 (λ file. IsReadOf ⟦<D as Disk>⟧ disk file.items result.1) }
    ensures large { D.follows_model → result.0 ≡ Err store.TooBig → HoldsMore ⟦<D as Disk>⟧ disk }
{
    match Store::open(alloc, disk) {
        Ok(mut store) => {
            let file = store.current_within(MOST);
            (file, store.into_disk())
        }
        Err(refused) => (Err(refused.fault), refused.disk),
    }
}

/// A frame of a file that holds this document.
fn make_frame<H: Host>(
    alloc: Global,
    host: &mut H,
    core: &mut ContainerCore,
    name: Bytes,
    width: u16,
    height: u16,
    document: Doc,
    file: &[u8],
) -> Result<Told, ScriptFault>
    requires told { IsTold ⟦<H::Disk as Disk>⟧ (H.told host.old) core.old }
    requires read { H.Disk.follows_model → IsReadFrom ⟦<H::Disk as Disk>⟧ (H.told host.old) name file.now }
    requires gives { IsReadAs (Some file.now) (Given.Holding document) }
    ensures told { IsTold ⟦<H::Disk as Disk>⟧ (H.told host.new) core.new }
    ensures serving { servers (H.told host.new) ≡ servers (H.told host.old) }
    ensures ordered { but_opening (course (H.told host.new)) ≡ but_opening (course (H.told host.old)) }
    ensures noticed { notices (H.told host.new) ≡ notices (H.told host.old) }
    ensures made { IfOk result (λ t. course (H.told host.new)
        ≡ record (course (H.told host.old)) { opening = Made name width height t }) }
    ensures lacking { IfErr result (λ fault. fault ≡ NoMemory) }
{
    match opened(alloc, host, core, name, width, height, document, file) {
        Ok(answer) => Ok(opened_by(&answer)),
        Err(fault) => refusal(fault),
    }
}

/// A frame of a file that is there, which holds a document, or holds none.
fn open_found<H: Host>(
    alloc: Global,
    host: &mut H,
    core: &mut ContainerCore,
    name: Bytes,
    width: u16,
    height: u16,
    file: &[u8],
) -> Result<Told, ScriptFault>
    requires told { IsTold ⟦<H::Disk as Disk>⟧ (H.told host.old) core.old }
    requires read { H.Disk.follows_model → IsReadFrom ⟦<H::Disk as Disk>⟧ (H.told host.old) name file.now }
    ensures told { IsTold ⟦<H::Disk as Disk>⟧ (H.told host.new) core.new }
    ensures serving { servers (H.told host.new) ≡ servers (H.told host.old) }
    ensures ordered { but_opening (course (H.told host.new)) ≡ but_opening (course (H.told host.old)) }
    ensures noticed { notices (H.told host.new) ≡ notices (H.told host.old) }
    ensures opened { IfOk result (λ t. IsOpenedBy (course (H.told host.old)) (course (H.told host.new)) name width
        height file.now t) }
    ensures lacking { IfErr result (λ fault. fault ≡ NoMemory) }
{
    if file.is_empty() {
        return Ok(Told::Fault(ContainerFault::NoSuch));
    }
    match document_in(alloc, file) {
        Ok(Some(document)) => make_frame(alloc, host, core, name, width, height, document, file),
        Ok(None) => Ok(Told::Fault(ContainerFault::BadFile)),
        Err(_) => Err(ScriptFault::NoMemory),
    }
}

/// What is told of a file that isn't found, for this fault; want of memory ends the script.
fn unfound(fault: StoreFault) -> Result<Told, ScriptFault>
    ensures told { IfOk result (λ t. t ≡ told.Unread fault) }
    ensures lacking { IfErr result (λ fault. fault ≡ NoMemory) }
{
    match fault {
        StoreFault::NoMemory => Err(ScriptFault::NoMemory),
        _ => Ok(Told::Unread(fault)),
    }
}

/// What is told of a file that is there and isn't read, for this fault; want of memory ends the script.
fn unread(fault: StoreFault) -> Result<Told, ScriptFault>
    ensures told { IfOk result (λ t. (t ≡ told.Unread fault) ⊎ ((fault ≡ store.TooBig) × (t ≡ told.Fault BadFile))) }
    ensures lacking { IfErr result (λ fault. fault ≡ NoMemory) }
{
    match fault {
        StoreFault::NoMemory => Err(ScriptFault::NoMemory),
        StoreFault::TooBig => Ok(Told::Fault(ContainerFault::BadFile)),
        _ => Ok(Told::Unread(fault)),
    }
}

/// A frame of the file of a disk that the host found in its last call. The disk is read, and given back.
fn open_disk<H: Host>(
    alloc: Global,
    host: &mut H,
    core: &mut ContainerCore,
    name: Bytes,
    width: u16,
    height: u16,
    disk: H::Disk,
) -> Result<Told, ScriptFault>
    requires told { IsTold ⟦<H::Disk as Disk>⟧ (H.told host.old) core.old }
    requires found { IsJustFound name disk (H.told host.old) }
    ensures told { IsTold ⟦<H::Disk as Disk>⟧ (H.told host.new) core.new }
    ensures serving { servers (H.told host.new) ≡ servers (H.told host.old) }
    ensures ordered { but_opening (course (H.told host.new)) ≡ but_opening (course (H.told host.old)) }
    ensures noticed { notices (H.told host.new) ≡ notices (H.told host.old) }
    ensures first { IfOk result (λ t. IsOpenTold ⟦<H::Disk as Disk>⟧ looked name width height
        (course (H.told host.new)).opening t) }
    ensures lacking { IfErr result (λ fault. fault ≡ NoMemory) }
{
    let (file, disk) = document_on(alloc, disk);
    host.shut(name.as_slice(), disk);
    match file {
        Ok(file) => open_found(alloc, host, core, name, width, height, &file),
        Err(fault) => unread(fault),
    }
}

/// A frame of the file of a name, if there is one.
fn open_named<H: Host>(
    alloc: Global,
    host: &mut H,
    core: &mut ContainerCore,
    name: Bytes,
    width: u16,
    height: u16,
) -> Result<Told, ScriptFault>
    requires { IsTold ⟦<H::Disk as Disk>⟧ (H.told host.old) core.old }
    ensures told { IsTold ⟦<H::Disk as Disk>⟧ (H.told host.new) core.new }
    ensures serving { servers (H.told host.new) ≡ servers (H.told host.old) }
    ensures ordered { but_opening (course (H.told host.new)) ≡ but_opening (course (H.told host.old)) }
    ensures noticed { notices (H.told host.new) ≡ notices (H.told host.old) }
    ensures first { IfOk result (λ t. IsOpenTold ⟦<H::Disk as Disk>⟧ looked name width height
        (course (H.told host.new)).opening t) }
    ensures lacking { IfErr result (λ fault. fault ≡ NoMemory) }
{
    match host.find(name.as_slice()) {
        Ok(Some(disk)) => open_disk(alloc, host, core, name, width, height, disk),
        Ok(None) => Ok(Told::Fault(ContainerFault::NoSuch)),
        Err(fault) => unfound(fault),
    }
}

/// Opens the file of a name as a frame, so many columns wide and so many lines high. Gives what is told of it: the
/// frame and its objects, or why it isn't opened, and then the container stays as it is. A name or a size that can't be
/// is told before any disk is touched; then `NoSuch`, where there is no such file, or nothing in it; the store's fault;
/// `BadFile`, where it is no document, or has more than 134,217,728 bytes.
///
/// Refused for want of memory alone.
pub fn open<H: Host>(
    alloc: Global,
    host: &mut H,
    core: &mut ContainerCore,
    name: Bytes,
    width: u16,
    height: u16,
) -> Result<Told, ScriptFault>
    requires told { IsTold ⟦<H::Disk as Disk>⟧ (H.told host.old) core.old }
    requires unasked { (course (H.told host.old)).opening ≡ Unasked }
    ensures told { IsTold ⟦<H::Disk as Disk>⟧ (H.told host.new) core.new }
    ensures serving { servers (H.told host.new) ≡ servers (H.told host.old) }
    ensures ordered { but_opening (course (H.told host.new)) ≡ but_opening (course (H.told host.old)) }
    ensures noticed { notices (H.told host.new) ≡ notices (H.told host.old) }
    ensures first { IfOk result (λ t. IsOpenTold ⟦<H::Disk as Disk>⟧ (looked_at core.old name width height) name
        width height (course (H.told host.new)).opening t) }
    ensures lacking { IfErr result (λ fault. fault ≡ NoMemory) }
{
    match core.may_open(name.as_slice(), width, height) {
        Ok(()) => open_named(alloc, host, core, name, width, height),
        Err(fault) => Ok(Told::Fault(fault)),
    }
}
