//! A host: it starts servers, carries bytes to and from them, ends them, and gives the disks of files.

ghost use Rattle.script_model.specs.Events.{Event, Connected, Ended, Found, Heard, Opened, Sent, Shut, Started};
ghost use Rattle.script_model.specs.Events.{Stepped, disk_found, disk_given};
ghost use Rattle.std.specs.Prelude.{◌≡◌, ◌≤◌, false, true, List, [], ◌∷◌, IfOk, MatchResult, is_ok, length, take};

use crate::step::Step;
use store_model::disk::Disk;
use store_model::fault::StoreFault;
use thiserror::Error;

/// Why a host doesn't do what it is asked for.
#[derive(Debug, Clone, Copy, Error)]
pub enum HostFault {
    /// The server, or the link to it, failed.
    #[error("the server or the link to it failed")]
    Failed,
    /// No memory was left.
    #[error("no memory is left")]
    NoMemory,
}

/// What starts servers, carries bytes to and from them, and ends them, and gives the disks that files are saved to. A
/// server is named by its incarnation; all of them are of one session.
pub trait Host {
    /// The disk of a file and its journal.
    type Disk: Disk + Drop;

    /// All that was asked of it and what it answered, and what the container was given meanwhile, the newest first.
    ghost told: { Self → List (Event Self.Disk) };

    /// Starts a server of a session, and makes a link to it.
    fn start(&mut self, session: u32, inc: u32) -> Result<(), HostFault>
        ensures { told self.new ≡ Started session inc (is_ok result) ∷ told self.old };

    /// Drops the link to a server without reading what came on it, and makes another.
    fn connect(&mut self, inc: u32) -> Result<(), HostFault>
        ensures { told self.new ≡ Connected inc (is_ok result) ∷ told self.old };

    /// Sends bytes, all of them.
    fn send(&mut self, inc: u32, bytes: &[u8]) -> Result<(), HostFault>
        ensures { told self.new ≡ Sent inc bytes.now (is_ok result) ∷ told self.old };

    /// Reads some bytes, and none where the other side has closed the link.
    fn read(&mut self, inc: u32, into: &mut [u8]) -> Result<usize, HostFault>
        ensures few { IfOk result (λ n. n ≤ length into.new) }
        ensures told { MatchResult result (λ n. told self.new ≡ Heard inc (take n into.new) true ∷ told self.old)
            (λ _. told self.new ≡ Heard inc [] false ∷ told self.old) };

    /// Ends a server, and awaits its end.
    fn end(&mut self, inc: u32)
        ensures { told self.new ≡ Ended inc ∷ told self.old };

    /// The disk of the file of this name; a file that is missing is made.
    fn disk(&mut self, name: &[u8]) -> Result<Self::Disk, StoreFault>
        ensures { told self.new ≡ Opened name.now (disk_given result) ∷ told self.old };

    /// The disk of the file of this name, where the file or its journal is there; none where neither is, or where a
    /// file without bytes has no journal, and then nothing is made.
    fn find(&mut self, name: &[u8]) -> Result<Option<Self::Disk>, StoreFault>
        ensures told { told self.new ≡ Found name.now (disk_found result) ∷ told self.old };

    /// The disk of the file of this name is given back.
    fn shut(&mut self, name: &[u8], disk: Self::Disk)
        ensures { told self.new ≡ Shut name.now disk ∷ told self.old };

    /// Notes what happens to the container, so that the history has it in its place. It does nothing else.
    fn note(&mut self, step: &Step)
        ensures { told self.new ≡ Stepped step.now ∷ told self.old };
}
