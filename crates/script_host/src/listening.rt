//! The listener of a server.

ghost use Rattle.server_links.specs.Events.{Closed};
ghost use Rattle.std.specs.Prelude.{◌≡◌, ◌∷◌};

use crate::owners::{Other, is_users};
use script_model::values::Values;
use server_links::links::{Link, Links};
use std::fs::File;
use std::io;
use std::net::{IpAddr, Ipv4Addr, Net, OpenListener, SocketAddr, TcpListener, TcpStream};
use std::os::fd::OwnedFd;
use std::rt::Files;
use std::time::{Clock, Duration, Instant};

/// A listener on a free port of 127.0.0.1, which gives the links that the same user makes to it.
#[derive(Drop)]
pub struct Listening<'a, R> {
    rt: &'a R,
    listener: TcpListener,
    port: u16,
    limit: Duration,
    told: Values<Option<Link<TcpStream, TcpStream>>, bool>,
}

/// A listener on a free port of 127.0.0.1, and the port. Its `next` waits no longer than this, or twice as long where
/// somebody else makes connections meanwhile: these are closed, and nothing is read of them. A link waits for bytes
/// without a limit.
pub fn listen<'a, R: Net<Listener = TcpListener, Stream = TcpStream>>(
    rt: &'a R,
    limit: Duration,
) -> io::Result<(Listening<'a, R>, u16)> {
    let listener = TcpListener::bind(rt, (Ipv4Addr::LOCALHOST, 0))?;
    let port = listener.local_addr()?.port();
    // The system has one option for this and for a stream's reads, and std sets it at a stream alone.
    let stream = TcpStream::from(OwnedFd::from(listener));
    stream.set_read_timeout(Some(limit))?;
    let listening = Listening {
        rt,
        listener: TcpListener::from(OwnedFd::from(stream)),
        port,
        limit,
        told: Values::new(),
    };
    Ok((listening, port))
}

/// Whether a connection that was accepted at a port is the same user's, where the system tells.
fn is_own<R: Files<File = File> + AllocGlobal>(rt: &R, port: u16, from: SocketAddr) -> bool {
    if from.ip() != IpAddr::V4(Ipv4Addr::LOCALHOST) {
        return false;
    }
    matches!(is_users(rt, Other::Client, port, from.port()), Ok(true))
}

/// The link over a connection. The system hands the listener's limit on to it, which it doesn't have.
fn link_over(reader: TcpStream) -> Option<Link<TcpStream, TcpStream>> {
    let _ = reader.set_nodelay(true);
    reader.set_read_timeout(None).ok()?;
    let writer = reader.try_clone().ok()?;
    Some(Link { reader, writer })
}

impl<'a, R: Files<File = File> + Clock + AllocGlobal> Listening<'a, R> {
    /// The next link that the same user makes, where one comes in time. What somebody else makes is closed.
    fn accept(&self) -> Option<Link<TcpStream, TcpStream>> {
        let began = Instant::now(self.rt).ok()?;
        for _ in 0..u64::MAX {
            let (stream, from) = self.listener.accept().ok()?;
            if is_own(self.rt, self.port, from) {
                return link_over(stream);
            }
            if began.elapsed(self.rt).ok()? >= self.limit {
                return None;
            }
        }
        None
    }
}

impl<'a, R: Files<File = File> + Clock + AllocGlobal> Links for Listening<'a, R> {
    type Reader = TcpStream;

    type Writer = TcpStream;

    ghost told = { λ l. l.told.items };

    fn next(&mut self) -> Option<Link<TcpStream, TcpStream>> {
        let link = self.accept();
        self.told = self.told.and(&link, &true);
        link
    }

    fn close(&mut self, link: Link<TcpStream, TcpStream>)
        ensures { self.new.told.items ≡ Closed link ∷ self.old.told.items }
    {
        // A link that is dropped is closed.
        let closed = Some(link);
        self.told = self.told.and(&closed, &false);
    }
}
