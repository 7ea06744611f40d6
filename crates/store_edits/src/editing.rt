//! Editing the document of a disk.

ghost use Rattle.store_core.specs.Opened.{disk_of, needs_reopen_of};
ghost use Rattle.store_edits.specs.Disks.{Holds, IsAsGivenOrEdit, IsBeforeOrEdit, IsEdited, IsEditedOn, IsKeptOn};
ghost use Rattle.store_edits.specs.Disks.{MayRefuseCommit, MayRefuseOn, MayRefuseOver, Tells};
ghost use Rattle.store_model.specs.Crash.{StaysIn};
ghost use Rattle.store_model.specs.Store.{IsBeforeOrAfter};
ghost use Rattle.std.specs.Prelude.{◌≡◌, false, true, IfErr, IfOk, OnOk, length};

use crate::fault::EditFault;
use crate::files::updated;
use std::alloc::Global;
use store_core::outcome::Outcome;
use store_core::resolved::commit_resolved;
use store_core::store::Store;
use store_model::disk::Disk;
use tree_edits::change::Change;

/// The most bytes of a document that is read.
const MOST: u64 = 134_217_728;

/// What is told of a document that was edited.
#[derive(Clone, Copy)]
pub struct Edited {
    /// How many bytes it has.
    pub bytes: usize,
    /// How many of its blocks of 512 bytes differ from those of the document before, or are new: those that were
    /// written.
    pub blocks: usize,
}

/// How an edit ended.
#[derive(Drop)]
pub struct Ending<D> {
    /// What is told of it, or why it was refused.
    pub told: Result<Edited, EditFault>,
    /// The disk, handed back.
    pub disk: D,
    /// Whether the disk's journal is closed on the device. Else a crash may leave the document from before the edit or
    /// the edited one, which a store that is opened again tells.
    pub is_settled: bool,
}

/// Makes changes of the document of a disk, a compound file: the document is then the file of the tree that they make
/// of its own. All are made and committed at once, or none. What is freed is zeroed, or stays. A commit that was cut
/// off is carried out first.
///
/// Refused: `Store` as `Store::open` and `commit` are, and `TooBig` where the document has more bytes than are read, or
/// the edited one more than a store takes; `Read`, `Line` and `Write` as the document isn't read, a change is refused,
/// or no file can hold the tree. The document is then the one from before, but where `is_settled` says no.
pub fn edit_document<D: Disk + Drop>(
    alloc: Global,
    disk: D,
    changes: Vec<(usize, Change)>,
    is_zeroed: bool,
) -> Ending<D>
    ensures edited { D.follows_model
        → IfOk result.told (λ told. IsEditedOn ⟦<D as Disk>⟧ changes.items disk told result.disk) }
    ensures any_moment { D.follows_model → StaysIn D.may_leave D.moment D.left_since disk result.disk
        (IsAsGivenOrEdit ⟦<D as Disk>⟧ changes.items disk) }
    ensures as_before { D.follows_model → IfErr result.told (λ _. result.is_settled ≡ true
        → IsKeptOn ⟦<D as Disk>⟧ disk result.disk) }
    ensures settled { OnOk result.told (result.is_settled ≡ true) }
    ensures refused { IfErr result.told (MayRefuseOn ⟦<D as Disk>⟧ changes.items disk result.disk) }
{
    match Store::open(alloc, disk) {
        Ok(store) => edit_store(alloc, store, changes, is_zeroed),
        Err(refused) => Ending {
            told: Err(EditFault::Store(refused.fault)),
            disk: refused.disk,
            is_settled: false,
        },
    }
}

/// Makes changes of the document of a store, likewise.
fn edit_store<D: Disk + Drop>(
    alloc: Global,
    store: Store<D>,
    changes: Vec<(usize, Change)>,
    is_zeroed: bool,
) -> Ending<D>
    requires { needs_reopen_of store ≡ false }
    ensures edited { D.follows_model
        → IfOk result.told (λ told. IsEdited ⟦<D as Disk>⟧ changes.items (D.reads (disk_of store)).document told
        result.disk) }
    ensures any_moment { D.follows_model → StaysIn D.may_leave D.moment D.left_since (disk_of store) result.disk
        (IsBeforeOrEdit changes.items (D.reads (disk_of store)).document) }
    ensures as_before { D.follows_model → IfErr result.told (λ _. result.is_settled ≡ true
        → Holds ⟦<D as Disk>⟧ result.disk (D.reads (disk_of store)).document) }
    ensures settled { OnOk result.told (result.is_settled ≡ true) }
    ensures refused { IfErr result.told
        (MayRefuseOver ⟦<D as Disk>⟧ changes.items (D.reads (disk_of store)).document (disk_of store) result.disk) }
{
    let mut store = store;
    match store.current_within(MOST) {
        Ok(document) => edit_read(alloc, store, &document, changes, is_zeroed),
        Err(fault) => {
            let is_settled = !store.needs_reopen();
            Ending {
                told: Err(EditFault::Store(fault)),
                disk: store.into_disk(),
                is_settled,
            }
        }
    }
}

/// Makes changes of the document of a store, which was read.
fn edit_read<D: Disk + Drop>(
    alloc: Global,
    store: Store<D>,
    document: &[u8],
    changes: Vec<(usize, Change)>,
    is_zeroed: bool,
) -> Ending<D>
    requires ready { needs_reopen_of store ≡ false }
    requires read { D.follows_model → document.now ≡ (D.reads (disk_of store)).document }
    ensures edited { D.follows_model
        → IfOk result.told (λ told. IsEdited ⟦<D as Disk>⟧ changes.items (D.reads (disk_of store)).document told
        result.disk) }
    ensures any_moment { D.follows_model → StaysIn D.may_leave D.moment D.left_since (disk_of store) result.disk
        (IsBeforeOrEdit changes.items (D.reads (disk_of store)).document) }
    ensures as_before { D.follows_model → IfErr result.told (λ _. result.is_settled ≡ true
        → Holds ⟦<D as Disk>⟧ result.disk (D.reads (disk_of store)).document) }
    ensures settled { OnOk result.told (result.is_settled ≡ true) }
    ensures refused { IfErr result.told
        (MayRefuseOver ⟦<D as Disk>⟧ changes.items (D.reads (disk_of store)).document (disk_of store) result.disk) }
{
    match updated(alloc, document, changes, is_zeroed) {
        Ok(renewed) => commit(store, renewed.image.bytes(), renewed.blocks),
        Err(fault) => Ending {
            told: Err(fault),
            disk: store.into_disk(),
            is_settled: true,
        },
    }
}

/// What is told of a commit of these bytes, of which so many blocks differ.
fn told_of(outcome: Outcome, bytes: &[u8], blocks: usize) -> Result<Edited, EditFault>
    ensures { Tells outcome bytes.now blocks result }
{
    match outcome {
        Outcome::Kept => Ok(Edited {
            bytes: bytes.len(),
            blocks,
        }),
        Outcome::Lost(fault) => Err(EditFault::Store(fault)),
    }
}

/// Makes these bytes the document of a store, of which so many blocks differ from it.
fn commit<D: Disk + Drop>(store: Store<D>, bytes: &[u8], blocks: usize) -> Ending<D>
    requires { needs_reopen_of store ≡ false }
    ensures kept { D.follows_model → IfOk result.told (λ told. Holds ⟦<D as Disk>⟧ result.disk bytes.now) }
    ensures told { IfOk result.told (λ told. (told.bytes ≡ length bytes.now) × (told.blocks ≡ blocks)) }
    ensures any_moment { D.follows_model → StaysIn D.may_leave D.moment D.left_since (disk_of store) result.disk
        (IsBeforeOrAfter (D.reads (disk_of store)).document bytes.now) }
    ensures as_before { D.follows_model → IfErr result.told (λ _. result.is_settled ≡ true
        → Holds ⟦<D as Disk>⟧ result.disk (D.reads (disk_of store)).document) }
    ensures settled { OnOk result.told (result.is_settled ≡ true) }
    ensures refused { IfErr result.told (MayRefuseCommit ⟦<D as Disk>⟧ bytes.now (disk_of store) result.disk) }
{
    match commit_resolved(store, bytes) {
        Ok((outcome, store)) => Ending {
            told: told_of(outcome, bytes, blocks),
            disk: store.into_disk(),
            is_settled: true,
        },
        Err(refused) => Ending {
            told: Err(EditFault::Store(refused.fault)),
            disk: refused.disk,
            is_settled: false,
        },
    }
}
