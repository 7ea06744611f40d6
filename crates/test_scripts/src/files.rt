//! A host without servers, with one file: a disk in memory whose calls fail as a test says.

ghost use Rattle.script_model.specs.Histories.{told_in};
ghost use Rattle.std.specs.Prelude.{◌≡◌, []};

use script_model::history::History;
use script_model::host::{Host, HostFault};
use script_model::step::Step;
use std::alloc::Global;
use store_memory::memory_disk::{Faults, MemoryDisk};
use store_model::fault::StoreFault;

/// The host. A disk that is given is there again once it is given back.
#[derive(Drop)]
pub(crate) struct Files {
    alloc: Global,
    disk: Option<MemoryDisk>,
    faults: Faults,
    history: History<MemoryDisk>,
}

impl Files {
    /// A host of this disk, whose calls then fail so.
    pub(crate) fn new(alloc: Global, disk: MemoryDisk, faults: Faults) -> Files
        ensures { ⟦<Files as Host>⟧.told result ≡ [] }
    {
        let mut disk = disk;
        disk.set_faults(faults);
        Files {
            alloc,
            disk: Some(disk),
            faults,
            history: History::new(),
        }
    }

    /// The disk as it was left.
    pub(crate) fn into_disk(self) -> Option<MemoryDisk> {
        self.disk
    }
}

impl Host for Files {
    type Disk = MemoryDisk;

    ghost use Rattle.script_model.specs.Histories.{told_in};

    ghost told = { λ h. told_in h.history };

    fn start(&mut self, session: u32, inc: u32) -> Result<(), HostFault> {
        self.history.started(session, inc, false);
        Err(HostFault::Failed)
    }

    fn connect(&mut self, inc: u32) -> Result<(), HostFault> {
        self.history.connected(inc, false);
        Err(HostFault::Failed)
    }

    fn send(&mut self, inc: u32, bytes: &[u8]) -> Result<(), HostFault> {
        self.history.sent(inc, bytes, false);
        Err(HostFault::Failed)
    }

    fn read(&mut self, inc: u32, _into: &mut [u8]) -> Result<usize, HostFault> {
        self.history.heard(inc, &[], false);
        Err(HostFault::Failed)
    }

    fn end(&mut self, inc: u32) {
        self.history.ended(inc);
    }

    fn disk(&mut self, name: &[u8]) -> Result<MemoryDisk, StoreFault> {
        match self.disk.take() {
            Some(disk) => {
                self.history.opened(name, Some(&disk));
                Ok(disk)
            }
            None => {
                self.history.opened(name, None);
                Err(StoreFault::Device)
            }
        }
    }

    fn find(&mut self, name: &[u8]) -> Result<Option<MemoryDisk>, StoreFault> {
        match self.disk.take() {
            Some(disk) => {
                self.history.found(name, Some(&disk));
                Ok(Some(disk))
            }
            None => {
                self.history.found(name, None);
                Ok(None)
            }
        }
    }

    fn shut(&mut self, name: &[u8], disk: MemoryDisk) {
        self.history.shut(name, &disk);
        self.disk = Some(disk);
    }

    fn note(&mut self, step: &Step) {
        self.history.stepped(step);
    }
}
