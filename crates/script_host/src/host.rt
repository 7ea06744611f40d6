//! A host over child processes, TCP on 127.0.0.1, and files.

ghost use Rattle.script_model.specs.Histories.{told_in};
ghost use Rattle.std.specs.Prelude.{◌≡◌, ◌≤◌, [], IfOk, length};

use crate::owners::{Other, is_users};
use crate::port::read_port;
use crate::running::Running;
use script_model::history::History;
use script_model::host::{Host, HostFault};
use script_model::step::Step;
use std::fs::File;
use std::io::{self, ErrorKind, Read, Write};
use std::net::{Ipv4Addr, Net, OpenStream, SocketAddr, SocketAddrV4, TcpStream};
use std::os::fd::OwnedFd;
use std::os::unix::net::UnixStream;
use std::process::{Command, OpenProcess, Processes, Stdio};
use std::rt::Files;
use std::time::{Clock, Duration};
use store_disk::file_disk::FileDisk;
use store_disk::opening::{find_filled, open};
use store_disk::system_files::SystemFiles;
use store_disk::system_names::SystemNames;
use store_model::fault::StoreFault;

/// How often a read that a signal interrupted is made again.
const MOST_TRIES: usize = 1_000;

/// Starts `PATH serve I S` as a child for each server, and talks to it on the port that it prints. It waits no longer
/// than its limit for what a server prints and sends. A file and its journal are those of its name. Nothing is sent to
/// a server that another user runs, where the system tells.
#[derive(Drop)]
pub struct SystemHost<'a, R: Net + Processes> {
    rt: &'a R,
    path: &'a str,
    limit: Duration,
    servers: Vec<Running<R>>,
    history: History<FileDisk<SystemFiles>>,
}

impl<'a, R: Net + Processes + Files<File = File> + Clock + AllocGlobal> SystemHost<'a, R> {
    /// A host that has started nothing.
    pub fn new(rt: &'a R, path: &'a str, limit: Duration) -> SystemHost<'a, R>
        ensures { ⟦<SystemHost<'a, R> as Host>⟧.told result ≡ [] }
    {
        SystemHost {
            rt,
            path,
            limit,
            servers: Vec::new(rt.alloc()),
            history: History::new(),
        }
    }
}

/// Starts `PATH serve I S`, reads its port and connects to it. Where that fails, no child is left.
fn launch<R: Net + Processes + Files<File = File> + Clock + AllocGlobal>(
    rt: &R,
    path: &str,
    session: u32,
    inc: u32,
    limit: Duration,
) -> Result<Running<R>, HostFault> {
    let Ok((ours, theirs)) = UnixStream::pair(rt) else {
        return Err(HostFault::Failed);
    };
    let mut running = spawn(rt, path, session, inc, OwnedFd::from(theirs))?;
    let Some(port) = read_port(rt, &ours, limit) else {
        return Err(HostFault::Failed);
    };
    running.port = port;
    running.stream = Some(connect(rt, port, limit)?);
    Ok(running)
}

/// Starts `PATH serve I S` as a child whose standard output is this.
fn spawn<R: Net + Processes + AllocGlobal>(
    rt: &R,
    path: &str,
    session: u32,
    inc: u32,
    stdout: OwnedFd,
) -> Result<Running<R>, HostFault> {
    let Ok(of_session) = format!(in rt.alloc(); "{session}") else {
        return Err(HostFault::NoMemory);
    };
    let Ok(number) = format!(in rt.alloc(); "{inc}") else {
        return Err(HostFault::NoMemory);
    };
    let Ok(mut command) = Command::new(rt.alloc(), path) else {
        return Err(HostFault::NoMemory);
    };
    let is_whole = command.arg("serve").is_ok()
        && command.arg(&number).is_ok()
        && command.arg(&of_session).is_ok();
    if !is_whole {
        return Err(HostFault::NoMemory);
    }
    match command.stdin(Stdio::null()).stdout(stdout).spawn(rt) {
        Ok(child) => Ok(Running {
            inc,
            port: 0,
            stream: None,
            child,
        }),
        Err(error) => Err(fault_of(&error)),
    }
}

/// What an error of the system is to a host.
fn fault_of(error: &io::Error) -> HostFault {
    if error.kind() == ErrorKind::OutOfMemory {
        HostFault::NoMemory
    } else {
        HostFault::Failed
    }
}

/// A connection to a port of 127.0.0.1, made no longer than the limit, whose reads and writes wait no longer either.
///
/// Refused: where a server of another user listens there, as where the one that was started is gone.
fn connect<R: Net + Files<File = File> + AllocGlobal>(
    rt: &R,
    port: u16,
    limit: Duration,
) -> Result<R::Stream, HostFault> {
    let to = SocketAddr::V4(SocketAddrV4::new(Ipv4Addr::LOCALHOST, port));
    let Ok(stream) = TcpStream::connect_timeout(rt, &to, limit) else {
        return Err(HostFault::Failed);
    };
    if !is_own(rt, &stream, port)? {
        return Err(HostFault::Failed);
    }
    let set = stream.set_nodelay(true).is_ok()
        && stream.set_read_timeout(Some(limit)).is_ok()
        && stream.set_write_timeout(Some(limit)).is_ok();
    if set {
        Ok(stream)
    } else {
        Err(HostFault::Failed)
    }
}

/// Whether a connection to that port goes to a server of the same user, where the system tells.
fn is_own<R: Net + Files<File = File> + AllocGlobal>(
    rt: &R,
    stream: &R::Stream,
    port: u16,
) -> Result<bool, HostFault> {
    let Ok(from) = stream.local_addr() else {
        return Err(HostFault::Failed);
    };
    match is_users(rt, Other::Server, from.port(), port) {
        Ok(is) => Ok(is),
        Err(error) => Err(fault_of(&error)),
    }
}

/// The server of this incarnation.
fn find<R: Net + Processes>(
    servers: &mut Vec<Running<R>>,
    inc: u32,
) -> Result<&mut Running<R>, HostFault> {
    servers
        .iter_mut()
        .find(|server| server.inc == inc)
        .ok_or(HostFault::Failed)
}

fn send<R: Net + Processes>(running: &mut Running<R>, bytes: &[u8]) -> Result<(), HostFault> {
    let Some(stream) = &mut running.stream else {
        return Err(HostFault::Failed);
    };
    stream.write_all(bytes).map_err(|_| HostFault::Failed)
}

fn read<R: Net + Processes>(running: &mut Running<R>, into: &mut [u8]) -> Result<usize, HostFault>
    ensures { IfOk result (λ n. n ≤ length into.new) }
{
    let Some(stream) = &mut running.stream else {
        return Err(HostFault::Failed);
    };
    for _ in 0..MOST_TRIES {
        match stream.read(into) {
            Ok(n) => return Ok(n),
            Err(error) if error.kind() == ErrorKind::Interrupted => {}
            Err(_) => return Err(HostFault::Failed),
        }
    }
    Err(HostFault::Failed)
}

fn connect_again<R: Net + Processes + Files<File = File> + AllocGlobal>(
    rt: &R,
    running: &mut Running<R>,
    limit: Duration,
) -> Result<(), HostFault> {
    running.stream = None;
    running.stream = Some(connect(rt, running.port, limit)?);
    Ok(())
}

/// The disk of a file of the system.
fn open_disk<R: Files<File = File> + AllocGlobal>(
    rt: &R,
    name: &[u8],
) -> Result<FileDisk<SystemFiles>, StoreFault> {
    let Ok(path) = std::str::from_utf8(name) else {
        return Err(StoreFault::Device);
    };
    open(&mut SystemNames::new(rt), path)
}

/// The disk of a file of the system that is there, or that an open journal holds. A file that is empty, and has no
/// journal, is none.
fn find_disk<R: Files<File = File> + AllocGlobal>(
    rt: &R,
    name: &[u8],
) -> Result<Option<FileDisk<SystemFiles>>, StoreFault> {
    let Ok(path) = std::str::from_utf8(name) else {
        return Err(StoreFault::Device);
    };
    find_filled(&mut SystemNames::new(rt), path)
}

impl<'a, R: Net + Processes + Files<File = File> + Clock + AllocGlobal> Host for SystemHost<'a, R> {
    type Disk = FileDisk<SystemFiles>;

    ghost use Rattle.script_model.specs.Histories.{told_in};

    ghost told = { λ h. told_in h.history };

    fn start(&mut self, session: u32, inc: u32) -> Result<(), HostFault> {
        let result = match launch(self.rt, self.path, session, inc, self.limit) {
            Ok(running) => match self.servers.push(running) {
                Ok(()) => Ok(()),
                Err(_) => Err(HostFault::NoMemory),
            },
            Err(fault) => Err(fault),
        };
        self.history.started(session, inc, result.is_ok());
        result
    }

    fn connect(&mut self, inc: u32) -> Result<(), HostFault> {
        let result = match find(&mut self.servers, inc) {
            Ok(running) => connect_again(self.rt, running, self.limit),
            Err(fault) => Err(fault),
        };
        self.history.connected(inc, result.is_ok());
        result
    }

    fn send(&mut self, inc: u32, bytes: &[u8]) -> Result<(), HostFault> {
        let result = match find(&mut self.servers, inc) {
            Ok(running) => send(running, bytes),
            Err(fault) => Err(fault),
        };
        self.history.sent(inc, bytes, result.is_ok());
        result
    }

    fn read(&mut self, inc: u32, into: &mut [u8]) -> Result<usize, HostFault> {
        let result = match find(&mut self.servers, inc) {
            Ok(running) => read(running, into),
            Err(fault) => Err(fault),
        };
        match result {
            Ok(n) => self.history.heard(inc, &into[..n], true),
            Err(_) => self.history.heard(inc, &[], false),
        }
        result
    }

    fn end(&mut self, inc: u32) {
        // A server that is dropped is ended and awaited.
        self.servers.retain(|server| server.inc != inc);
        self.history.ended(inc);
    }

    fn disk(&mut self, name: &[u8]) -> Result<FileDisk<SystemFiles>, StoreFault> {
        let result = open_disk(self.rt, name);
        match &result {
            Ok(disk) => self.history.opened(name, Some(disk)),
            Err(_) => self.history.opened(name, None),
        }
        result
    }

    fn find(&mut self, name: &[u8]) -> Result<Option<FileDisk<SystemFiles>>, StoreFault> {
        let result = find_disk(self.rt, name);
        match &result {
            Ok(Some(disk)) => self.history.found(name, Some(disk)),
            _ => self.history.found(name, None),
        }
        result
    }

    fn shut(&mut self, name: &[u8], disk: FileDisk<SystemFiles>) {
        // A disk that is dropped is closed.
        self.history.shut(name, &disk);
    }

    fn note(&mut self, step: &Step) {
        self.history.stepped(step);
    }
}
