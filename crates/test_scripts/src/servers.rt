//! A host whose servers are in memory, and of whose links one call fails as a test says. It has one file, whose disk's
//! calls fail as a test says too, and it has no memory for one of its calls where a test says so.

ghost use Rattle.script_model.specs.Histories.{told_in};
ghost use Rattle.std.specs.Prelude.{◌≡◌, ◌<◌, ◌≤◌, [], IfSome, length};

use crate::server::Server;
use object_core::classes;
use object_core::tally::Tally;
use object_kinds::note::Note;
use object_kinds::table::Table;
use script_model::history::History;
use script_model::host::{Host, HostFault};
use script_model::step::Step;
use server_links::link::Pause;
use std::alloc::{AllocError, Global};
use store_memory::memory_disk::{Faults, MemoryDisk};
use store_model::fault::StoreFault;

/// The most objects that a server is handed at once.
const MOST_OBJECTS: u32 = 10_000;

/// How much of what is sent arrives where the call fails.
#[derive(Clone, Copy, PartialEq, Eq)]
pub(crate) enum Arrives {
    Nothing,
    Half,
    All,
}

/// The host. Calls of links, sends and reads alike, are counted from 0; and so are, by themselves, all starts,
/// connections, sends and reads.
#[derive(Drop)]
pub(crate) struct Servers {
    alloc: Global,
    tally: Tally,
    made: u32,
    servers: Vec<Server>,
    calls: u64,
    failing: u64,
    arrives: Arrives,
    asked: u64,
    lacking: u64,
    disk: Option<MemoryDisk>,
    given: u32,
    failing_from: u32,
    faults: Faults,
    history: History<MemoryDisk>,
}

impl Servers {
    /// A host without servers, of whose links this call fails, and whose file is new.
    pub(crate) fn new(alloc: Global, tally: Tally, failing: u64, arrives: Arrives) -> Servers
        ensures { ⟦<Servers as Host>⟧.told result ≡ [] }
    {
        Servers {
            alloc,
            tally,
            made: 0,
            servers: Vec::new(alloc),
            calls: 0,
            failing,
            arrives,
            asked: 0,
            lacking: u64::MAX,
            disk: MemoryDisk::new(alloc, Vec::new(alloc), Vec::new(alloc)).ok(),
            given: 0,
            failing_from: 0,
            faults: Faults::Never,
            history: History::new(),
        }
    }

    /// A host without servers, of whose links no call fails, and whose file is on this disk.
    pub(crate) fn with_disk(alloc: Global, tally: Tally, disk: MemoryDisk) -> Servers
        ensures { ⟦<Servers as Host>⟧.told result ≡ [] }
    {
        let mut host = Servers::new(alloc, tally, u64::MAX, Arrives::All);
        host.disk = Some(disk);
        host
    }

    /// Once the disk was given so often, its calls fail so.
    pub(crate) fn fail_disk(&mut self, given: u32, faults: Faults)
        ensures { ⟦<Servers as Host>⟧.told self.new ≡ ⟦<Servers as Host>⟧.told self.old }
    {
        self.failing_from = given;
        self.faults = faults;
    }

    /// It has no memory for this of its starts, connections, sends and reads.
    pub(crate) fn lack_at(&mut self, lacking: u64)
        ensures { ⟦<Servers as Host>⟧.told self.new ≡ ⟦<Servers as Host>⟧.told self.old }
    {
        self.lacking = lacking;
    }

    /// Whether the call was made for which it has no memory.
    pub(crate) fn has_lacked(&self) -> bool {
        self.asked > self.lacking
    }

    /// How often the disk was given to be saved on.
    pub(crate) fn given(&self) -> u32 {
        self.given
    }

    /// The disk of its file as it was left.
    pub(crate) fn into_disk(self) -> Option<MemoryDisk> {
        self.disk
    }

    /// How many objects were made.
    pub(crate) fn made(&self) -> u32 {
        self.made
    }

    /// Whether the call that is to fail was made.
    pub(crate) fn has_failed(&self) -> bool {
        self.calls > self.failing
    }

    /// Counts a call, and tells whether it fails.
    fn fails(&mut self) -> bool
        ensures history { self.new.history ≡ self.old.history }
    {
        let fails = self.calls == self.failing;
        self.calls = self.calls.saturating_add(1);
        fails
    }

    /// Counts what it is asked, and tells whether it has no memory for it.
    fn lacks(&mut self) -> bool
        ensures history { self.new.history ≡ self.old.history }
    {
        let lacks = self.asked == self.lacking;
        self.asked = self.asked.saturating_add(1);
        lacks
    }

    /// Where a server stands.
    fn place(&self, inc: u32) -> Option<usize>
        ensures { IfSome result (λ i. i < length self.now.servers.items) }
    {
        for i in 0..self.servers.len() {
            if self.servers[i].inc() == inc {
                return Some(i);
            }
        }
        None
    }

    /// Starts a server.
    fn begin(&mut self, session: u32, inc: u32) -> Result<(), AllocError>
        ensures history { self.new.history ≡ self.old.history }
    {
        let server = Server::new(self.alloc, session, inc)?;
        self.servers.push(server)?;
        Ok(())
    }

    /// Makes a note, or a table, for the server at a place.
    fn make(&mut self, place: usize, is_note: bool) -> Result<(), AllocError>
        ensures history { self.new.history ≡ self.old.history }
        ensures servers { length self.new.servers.items ≡ length self.old.servers.items }
    {
        if place >= self.servers.len() {
            return Ok(());
        }
        let tally = self.tally.share()?;
        self.made = self.made.saturating_add(1);
        if is_note {
            let note = Box::new(self.alloc, Note::new(self.alloc, tally))?;
            self.servers[place].offer(self.alloc, note)
        } else {
            let table = Box::new(self.alloc, Table::new(self.alloc, tally))?;
            self.servers[place].offer(self.alloc, table)
        }
    }

    /// Sends bytes to a server, which then does all that they ask.
    fn deliver(&mut self, inc: u32, bytes: &[u8]) -> Result<(), AllocError>
        ensures history { self.new.history ≡ self.old.history }
    {
        let Some(place) = self.place(inc) else {
            return Ok(());
        };
        self.servers[place].send(bytes)?;
        for _ in 0..MOST_OBJECTS {
            let Pause::Wants(class) = self.servers[place].serve(self.alloc)? else {
                return Ok(());
            };
            self.make(place, class == classes::note())?;
        }
        Ok(())
    }

    /// How much of bytes arrives where a call fails.
    fn arriving(&self, len: usize) -> usize
        ensures { result ≤ len }
    {
        match self.arrives {
            Arrives::Nothing => 0,
            Arrives::Half => len / 2,
            Arrives::All => len,
        }
    }
}

impl Host for Servers {
    type Disk = MemoryDisk;

    ghost use Rattle.script_model.specs.Histories.{told_in};

    ghost told = { λ h. told_in h.history };

    fn start(&mut self, session: u32, inc: u32) -> Result<(), HostFault> {
        if self.lacks() {
            self.history.started(session, inc, false);
            return Err(HostFault::NoMemory);
        }
        match self.begin(session, inc) {
            Ok(()) => {
                self.history.started(session, inc, true);
                Ok(())
            }
            Err(_) => {
                self.history.started(session, inc, false);
                Err(HostFault::NoMemory)
            }
        }
    }

    fn connect(&mut self, inc: u32) -> Result<(), HostFault> {
        if self.lacks() {
            self.history.connected(inc, false);
            return Err(HostFault::NoMemory);
        }
        match self.place(inc) {
            Some(place) => {
                self.servers[place].connect(self.alloc);
                self.history.connected(inc, true);
                Ok(())
            }
            None => {
                self.history.connected(inc, false);
                Err(HostFault::Failed)
            }
        }
    }

    fn send(&mut self, inc: u32, bytes: &[u8]) -> Result<(), HostFault> {
        if self.lacks() {
            self.history.sent(inc, bytes, false);
            return Err(HostFault::NoMemory);
        }
        let fails = self.fails();
        let len = if fails {
            self.arriving(bytes.len())
        } else {
            bytes.len()
        };
        match self.deliver(inc, &bytes[..len]) {
            Ok(()) if !fails => {
                self.history.sent(inc, bytes, true);
                Ok(())
            }
            Ok(()) => {
                self.history.sent(inc, bytes, false);
                Err(HostFault::Failed)
            }
            Err(_) => {
                self.history.sent(inc, bytes, false);
                Err(HostFault::NoMemory)
            }
        }
    }

    fn read(&mut self, inc: u32, into: &mut [u8]) -> Result<usize, HostFault> {
        if self.lacks() {
            self.history.heard(inc, &[], false);
            return Err(HostFault::NoMemory);
        }
        let fails = self.fails();
        match self.place(inc) {
            Some(place) if !fails => {
                let n = self.servers[place].take(into);
                self.history.heard(inc, &into[..n], true);
                Ok(n)
            }
            _ => {
                self.history.heard(inc, &[], false);
                Err(HostFault::Failed)
            }
        }
    }

    fn end(&mut self, inc: u32) {
        if let Some(place) = self.place(inc) {
            drop(self.servers.remove(place));
        }
        self.history.ended(inc);
    }

    fn disk(&mut self, name: &[u8]) -> Result<MemoryDisk, StoreFault> {
        match self.disk.take() {
            Some(mut disk) => {
                if self.given == self.failing_from {
                    disk.set_faults(self.faults);
                }
                self.given = self.given.saturating_add(1);
                self.history.opened(name, Some(&disk));
                Ok(disk)
            }
            None => {
                self.history.opened(name, None);
                Err(StoreFault::Device)
            }
        }
    }

    fn find(&mut self, name: &[u8]) -> Result<Option<MemoryDisk>, StoreFault> {
        match self.disk.take() {
            Some(disk) => {
                self.history.found(name, Some(&disk));
                Ok(Some(disk))
            }
            None => {
                self.history.found(name, None);
                Ok(None)
            }
        }
    }

    fn shut(&mut self, name: &[u8], disk: MemoryDisk) {
        self.history.shut(name, &disk);
        self.disk = Some(disk);
    }

    fn note(&mut self, step: &Step) {
        self.history.stepped(step);
    }
}
