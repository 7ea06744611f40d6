//! A document that is committed through a journal.

ghost use Rattle.store_core.specs.Resting.{IsAtRest};
ghost use Rattle.std.specs.Prelude.{◌≡◌, false};

use crate::calls::length_of;
use crate::held::holds_document;
use crate::refused::Refused;
use crate::runs::{recover, replace};
use crate::steps::read_document;
use std::alloc::Global;
use store_model::area::Area;
use store_model::disk::Disk;
use store_model::fault::StoreFault;
use store_model::limit::MAX_DOCUMENT;

/// A document on a disk. Where it needn't be opened again, a crash leaves what reads give, and there no gate is open:
/// the journal is closed, or empty.
#[derive(Drop)]
pub struct Store<D: Disk> {
    alloc: Global,
    disk: D,
    needs_reopen: bool,
    ghost rests: { needs_reopen ≡ false → D.follows_model → IsAtRest D.reads D.may_leave disk },
}

impl<D: Disk> Store<D> {
    ghost use Rattle.store_model.specs.Changes.{journal_from};
    ghost use Rattle.store_model.specs.Crash.{Quiet, StaysIn};
    ghost use Rattle.store_model.specs.declared.journal.TheConstants.{CLOSED};
    ghost use Rattle.store_model.specs.Image.{Image};
    ghost use Rattle.store_model.specs.Journal.{restored};
    ghost use Rattle.store_core.specs.Crashes.{Crashed, LeavesCrashed};
    ghost use Rattle.store_core.specs.Opened.{disk_of, needs_reopen_of};
    ghost use Rattle.store_core.specs.Resolved.{IsEither, LeavesEither};
    ghost use Rattle.store_core.specs.Resting.{IsShut};
    ghost use Rattle.store_model.specs.Store.{CommitRefuses, CurrentRefuses, HoldsRefuses, IsBeforeOrAfter};
    ghost use Rattle.store_model.specs.Store.{OpenRefuses, StandsAsOneOf, StandsFor, UnlessDevice};
    ghost use Rattle.store_model.specs.declared.fault.StoreFault.TheVariants.{TooBig};
    ghost use Rattle.std.specs.Prelude.{◌↔◌, ◌≢◌, ◌≤◌, ◌<◌, true, Err, IfErr, IfOk, IsTrue, OnErr, OnOk, length, List};
    ghost use Rattle.std.specs.Prelude.{ℕ};

    /// Opens the store on a disk that a crash may have left, with writes pending too. Its document is that of an open
    /// journal, which is then written and the journal closed, else the document area's.
    ///
    /// Where no gate is open no byte is changed, and an empty journal stays empty. So a full device opens too.
    ///
    /// Where a commit crashed, and then any number of opens, an open that ends gives the document from before the
    /// commit or that of the commit.
    ///
    /// A refusal hands the disk back. `Device` where a call of the disk failed. `Damaged` where an open journal is
    /// shorter than it says, says more than `MAX_DOCUMENT` or has another form, or where its blocks don't rise, begin
    /// past the new length or leave bytes below it that the document area doesn't have; this leaves all bytes as they
    /// were. No memory is taken.
    pub fn open(alloc: Global, disk: D) -> Result<Store<D>, Refused<D>>
        ensures document { D.follows_model
            → IfOk result (λ store. restored (D.reads disk) ≡ Some (D.reads (disk_of store)).document) }
        ensures ready { IfOk result (λ store. needs_reopen_of store ≡ false) }
        ensures rests { D.follows_model → IfOk result (λ store. IsAtRest D.reads D.may_leave (disk_of store)) }
        ensures any_moment { D.follows_model
            → IfOk result (λ store. StaysIn D.may_leave D.moment D.left_since disk (disk_of store)
            (StandsAsOneOf (D.may_leave disk))) }
        ensures any_moment_refused { D.follows_model
            → IfErr result (λ refused. StaysIn D.may_leave D.moment D.left_since disk refused.disk
            (StandsAsOneOf (D.may_leave disk))) }
        ensures same { D.follows_model → IsShut (D.reads disk).journal
            → IfOk result (λ store. D.reads (disk_of store) ≡ D.reads disk) }
        ensures quiet { D.follows_model → IsShut (D.reads disk).journal
            → IfOk result (λ store. Quiet D.may_leave D.moment D.left_since disk (disk_of store)) }
        ensures quiet_refused { D.follows_model → IsShut (D.reads disk).journal
            → IfErr result (λ refused. Quiet D.may_leave D.moment D.left_since disk refused.disk) }
        ensures ends { D.follows_model → (old new : List ℕ) → Crashed D.may_leave D.moment D.left_since old new disk
            → IfOk result (λ store. IsEither old new (D.reads (disk_of store)).document) }
        ensures crashes { D.follows_model → (old new : List ℕ)
            → Crashed D.may_leave D.moment D.left_since old new disk
            → IfOk result (λ store. LeavesCrashed D.may_leave D.moment D.left_since disk (disk_of store) old new) }
        ensures crashes_refused { D.follows_model → (old new : List ℕ)
            → Crashed D.may_leave D.moment D.left_since old new disk
            → IfErr result (λ refused. LeavesCrashed D.may_leave D.moment D.left_since disk refused.disk old new) }
        ensures refuses { IfErr result (λ refused. OpenRefuses D.follows_model (D.reads disk) (D.failed disk)
            (D.failed refused.disk) refused.fault) }
        ensures kept { D.follows_model
            → IfErr result (λ refused. UnlessDevice (D.reads refused.disk ≡ D.reads disk) refused.fault) }
        ensures count { IfOk result (λ store. D.failed (disk_of store) ≡ D.failed disk) }
    {
        let mut disk = disk;
        match recover(&mut disk) {
            Ok(()) => Ok(Store {
                alloc,
                disk,
                needs_reopen: false,
            }),
            Err(fault) => Err(Refused { fault, disk }),
        }
    }

    /// The store, opened again.
    pub(crate) fn reopen(self) -> Result<Store<D>, Refused<D>>
        ensures either { D.follows_model → (old new : List ℕ) → LeavesEither D.may_leave (disk_of self) old new
            → IfOk result (λ store. IsEither old new (D.reads (disk_of store)).document) }
        ensures any_moment { D.follows_model → (old new : List ℕ) → LeavesEither D.may_leave (disk_of self) old new
            → IfOk result (λ store. StaysIn D.may_leave D.moment D.left_since (disk_of self) (disk_of store)
            (IsBeforeOrAfter old new)) }
        ensures any_moment_refused { D.follows_model → (old new : List ℕ)
            → LeavesEither D.may_leave (disk_of self) old new
            → IfErr result (λ refused. StaysIn D.may_leave D.moment D.left_since (disk_of self) refused.disk
            (IsBeforeOrAfter old new)) }
        ensures document { D.follows_model
            → IfOk result (λ store. restored (D.reads (disk_of self)) ≡ Some (D.reads (disk_of store)).document) }
        ensures as_before { D.follows_model
            → IfOk result (λ store. StaysIn D.may_leave D.moment D.left_since (disk_of self) (disk_of store)
            (StandsAsOneOf (D.may_leave (disk_of self)))) }
        ensures as_before_refused { D.follows_model
            → IfErr result (λ refused. StaysIn D.may_leave D.moment D.left_since (disk_of self) refused.disk
            (StandsAsOneOf (D.may_leave (disk_of self)))) }
        ensures ready { IfOk result (λ store. needs_reopen_of store ≡ false) }
        ensures count { IfOk result (λ store. D.failed (disk_of store) ≡ D.failed (disk_of self)) }
        ensures refuses { IfErr result (λ refused. OpenRefuses D.follows_model (D.reads (disk_of self))
            (D.failed (disk_of self)) (D.failed refused.disk) refused.fault) }
    {
        match Store::open(self.alloc, self.disk) {
            Ok(store) => Ok(store),
            Err(refused) => Err(refused),
        }
    }

    /// Whether every `current` and `commit` answers `NeedsReopen`: so after one that answered `Device`.
    pub fn needs_reopen(&self) -> bool
        ensures value { result ≡ needs_reopen_of self.now }
        ensures between_calls { D.follows_model → result ≡ false → (c : Image) → D.may_leave (disk_of self.now) c
            → StandsFor (D.reads (disk_of self.now)).document c }
    {
        self.needs_reopen
    }

    /// The document.
    ///
    /// `Device` where a call of the disk failed: from then on the store has to be opened again, which gives the same
    /// document, and answers `NeedsReopen`. `NoMemory` changes nothing.
    pub fn current(&mut self) -> Result<Vec<u8>, StoreFault>
        ensures document { D.follows_model
            → IfOk result (λ bytes. bytes.items ≡ (D.reads (disk_of self.old)).document) }
        ensures same { D.follows_model → OnOk result (D.reads (disk_of self.new) ≡ D.reads (disk_of self.old)) }
        ensures kept { D.follows_model
            → IfErr result (UnlessDevice (D.reads (disk_of self.new) ≡ D.reads (disk_of self.old))) }
        ensures any_moment { D.follows_model → needs_reopen_of self.old ≡ false
            → StaysIn D.may_leave D.moment D.left_since (disk_of self.old) (disk_of self.new)
            (StandsFor (D.reads (disk_of self.old)).document) }
        ensures ready { OnOk result ((needs_reopen_of self.old ≡ false) × (needs_reopen_of self.new ≡ false)) }
        ensures count { OnOk result (D.failed (disk_of self.new) ≡ D.failed (disk_of self.old)) }
        ensures refuses { IfErr result (CurrentRefuses (needs_reopen_of self.old) (needs_reopen_of self.new)
            (D.failed (disk_of self.old)) (D.failed (disk_of self.new))) }
        ensures untouched { needs_reopen_of self.old ≡ true → self.new ≡ self.old }
    {
        if self.needs_reopen {
            return Err(StoreFault::NeedsReopen);
        }
        let read = read_document(self.alloc, &mut self.disk);
        if let Err(StoreFault::Device) = &read {
            self.needs_reopen = true;
        }
        read
    }

    /// How many bytes the document has.
    fn length(&mut self) -> Result<u64, StoreFault>
        ensures length { D.follows_model → IfOk result (λ n. n ≡ length (D.reads (disk_of self.old)).document) }
        ensures same { D.follows_model → OnOk result (D.reads (disk_of self.new) ≡ D.reads (disk_of self.old)) }
        ensures any_moment { D.follows_model → needs_reopen_of self.old ≡ false
            → StaysIn D.may_leave D.moment D.left_since (disk_of self.old) (disk_of self.new)
            (StandsFor (D.reads (disk_of self.old)).document) }
        ensures ready { OnOk result ((needs_reopen_of self.old ≡ false) × (needs_reopen_of self.new ≡ false)) }
        ensures count { OnOk result (D.failed (disk_of self.new) ≡ D.failed (disk_of self.old)) }
        ensures refuses { IfErr result (HoldsRefuses (needs_reopen_of self.old) (needs_reopen_of self.new)
            (D.failed (disk_of self.old)) (D.failed (disk_of self.new))) }
        ensures untouched { needs_reopen_of self.old ≡ true → self.new ≡ self.old }
    {
        if self.needs_reopen {
            return Err(StoreFault::NeedsReopen);
        }
        match length_of(&mut self.disk, Area::Document) {
            Ok(size) => Ok(size),
            Err(_) => {
                self.needs_reopen = true;
                Err(StoreFault::Device)
            }
        }
    }

    /// The document, as `current` gives it, where it has no more than so many bytes. That is asked before memory is.
    ///
    /// `TooBig` where it has more, which changes nothing. Else refused as `current` is.
    pub fn current_within(&mut self, most: u64) -> Result<Vec<u8>, StoreFault>
        ensures document { D.follows_model
            → IfOk result (λ bytes. bytes.items ≡ (D.reads (disk_of self.old)).document) }
        ensures within { D.follows_model → OnOk result (length (D.reads (disk_of self.old)).document ≤ most) }
        ensures same { D.follows_model → OnOk result (D.reads (disk_of self.new) ≡ D.reads (disk_of self.old)) }
        ensures any_moment { D.follows_model → needs_reopen_of self.old ≡ false
            → StaysIn D.may_leave D.moment D.left_since (disk_of self.old) (disk_of self.new)
            (StandsFor (D.reads (disk_of self.old)).document) }
        ensures ready { OnOk result ((needs_reopen_of self.old ≡ false) × (needs_reopen_of self.new ≡ false)) }
        ensures too_big { D.follows_model → result ≡ Err TooBig → most < length (D.reads (disk_of self.old)).document }
        ensures count { OnOk result (D.failed (disk_of self.new) ≡ D.failed (disk_of self.old)) }
        ensures refuses { IfErr result (λ fault. fault ≢ TooBig
            → CurrentRefuses (needs_reopen_of self.old) (needs_reopen_of self.new) (D.failed (disk_of self.old))
            (D.failed (disk_of self.new)) fault) }
        ensures untouched { needs_reopen_of self.old ≡ true → self.new ≡ self.old }
    {
        if self.length()? > most {
            return Err(StoreFault::TooBig);
        }
        self.current()
    }

    /// Whether the document is these bytes. They are compared a piece at a time, and no memory is taken.
    ///
    /// `Device` where a call of the disk failed: from then on the store has to be opened again, which gives the same
    /// document, and answers `NeedsReopen`.
    pub fn holds(&mut self, bytes: &[u8]) -> Result<bool, StoreFault>
        ensures holds { D.follows_model
            → IfOk result (λ is. IsTrue is ↔ (D.reads (disk_of self.old)).document ≡ bytes.now) }
        ensures same { D.follows_model → OnOk result (D.reads (disk_of self.new) ≡ D.reads (disk_of self.old)) }
        ensures any_moment { D.follows_model → needs_reopen_of self.old ≡ false
            → StaysIn D.may_leave D.moment D.left_since (disk_of self.old) (disk_of self.new)
            (StandsFor (D.reads (disk_of self.old)).document) }
        ensures ready { OnOk result ((needs_reopen_of self.old ≡ false) × (needs_reopen_of self.new ≡ false)) }
        ensures count { OnOk result (D.failed (disk_of self.new) ≡ D.failed (disk_of self.old)) }
        ensures refuses { IfErr result (HoldsRefuses (needs_reopen_of self.old) (needs_reopen_of self.new)
            (D.failed (disk_of self.old)) (D.failed (disk_of self.new))) }
        ensures untouched { needs_reopen_of self.old ≡ true → self.new ≡ self.old }
    {
        if self.needs_reopen {
            return Err(StoreFault::NeedsReopen);
        }
        match holds_document(&mut self.disk, bytes) {
            Ok(is) => Ok(is),
            Err(_) => {
                self.needs_reopen = true;
                Err(StoreFault::Device)
            }
        }
    }

    /// Makes these bytes the document. A crash at any moment of the call leaves the document from before it or this
    /// one, and once it has answered `Ok`, this one. The journal is left closed, with the blocks that differed.
    ///
    /// `NeedsReopen` after an earlier `Device`, and `TooBig` where there are more bytes than `MAX_DOCUMENT`: they leave
    /// all as it was. `Device` where a call of the disk failed: from then on the store has to be opened again, which
    /// gives the document from before the call or this one.
    pub fn commit(&mut self, bytes: &[u8]) -> Result<(), StoreFault>
        ensures document { D.follows_model → OnOk result ((D.reads (disk_of self.new)).document ≡ bytes.now) }
        ensures durable { D.follows_model → OnOk result ((c : Image) → D.may_leave (disk_of self.new) c
            → StandsFor bytes.now c) }
        ensures journal { D.follows_model
            → OnOk result ((D.reads (disk_of self.new)).journal ≡ journal_from CLOSED
            (D.reads (disk_of self.old)).document bytes.now) }
        ensures any_moment { D.follows_model → needs_reopen_of self.old ≡ false
            → StaysIn D.may_leave D.moment D.left_since (disk_of self.old) (disk_of self.new)
            (IsBeforeOrAfter (D.reads (disk_of self.old)).document bytes.now) }
        ensures crashes { D.follows_model → needs_reopen_of self.old ≡ false
            → LeavesCrashed D.may_leave D.moment D.left_since (disk_of self.old) (disk_of self.new)
            (D.reads (disk_of self.old)).document bytes.now }
        ensures after_device { D.follows_model → needs_reopen_of self.old ≡ false
            → IsBeforeOrAfter (D.reads (disk_of self.old)).document bytes.now (D.reads (disk_of self.new)) }
        ensures ready { OnOk result ((needs_reopen_of self.old ≡ false) × (length bytes.now ≤ MAX_DOCUMENT)
            × (needs_reopen_of self.new ≡ false)) }
        ensures refuses { IfErr result (CommitRefuses (length bytes.now) (needs_reopen_of self.old)
            (needs_reopen_of self.new) (D.failed (disk_of self.old)) (D.failed (disk_of self.new))) }
        ensures untouched { IfErr result (UnlessDevice (self.new ≡ self.old)) }
        ensures later { D.failed (disk_of self.old) ≤ D.failed (disk_of self.new) }
    {
        if self.needs_reopen {
            return Err(StoreFault::NeedsReopen);
        }
        if bytes.len() as u64 > MAX_DOCUMENT {
            return Err(StoreFault::TooBig);
        }
        match replace(&mut self.disk, bytes) {
            Ok(()) => Ok(()),
            Err(_) => {
                self.needs_reopen = true;
                Err(StoreFault::Device)
            }
        }
    }

    /// The disk. Where the store needn't be opened again, a crash leaves its document there.
    pub fn into_disk(self) -> D
        ensures disk { result ≡ disk_of self }
        ensures between_calls { D.follows_model → needs_reopen_of self ≡ false → (c : Image) → D.may_leave result c
            → StandsFor (D.reads result).document c }
    {
        self.disk
    }
}
