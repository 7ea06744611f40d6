//! Who owns the ends of a connection on 127.0.0.1, as Linux tells it in the lines of `/proc/net/tcp` and
//! `/proc/net/tcp6`.

/// How a line writes 127.0.0.1, and any address, of either family.
const OWN: [&str; 2] = ["0100007F", "0000000000000000FFFF00000100007F"];

const ANY: [&str; 3] = [
    "00000000",
    "00000000000000000000000000000000",
    "0000000000000000FFFF000000000000",
];

/// The states of a socket that is connected, of one that is being connected, and of one that listens.
const CONNECTED: &str = "01";

const CONNECTING: &str = "03";

const LISTENING: &str = "0A";

/// An address of a line, and its port.
#[derive(Clone, Copy)]
struct Place<'a> {
    address: &'a str,
    port: u16,
}

/// A socket of a line.
#[derive(Clone, Copy)]
struct Socket<'a> {
    local: Place<'a>,
    remote: Place<'a>,
    state: &'a str,
    /// The user whose process opened it. It says nothing where none did.
    owner: u32,
    /// Whether a process opened it. A connection that wasn't accepted yet has none at that end.
    is_opened: bool,
}

fn place_of(field: &str) -> Option<Place<'_>> {
    let (address, port) = field.split_once(':')?;
    Some(Place {
        address,
        port: u16::from_str_radix(port, 16).ok()?,
    })
}

/// The socket of a line, if it has one.
fn socket_of(line: &str) -> Option<Socket<'_>> {
    let mut fields = line.split_ascii_whitespace();
    let _number = fields.next()?;
    let local = place_of(fields.next()?)?;
    let remote = place_of(fields.next()?)?;
    let state = fields.next()?;
    let _queues = fields.next()?;
    let _timer = fields.next()?;
    let _tries = fields.next()?;
    let owner = fields.next()?.parse::<u32>().ok()?;
    let _probes = fields.next()?;
    let file = fields.next()?;
    Some(Socket {
        local,
        remote,
        state,
        owner,
        is_opened: file != "0",
    })
}

/// Whether this is a port of 127.0.0.1.
fn is_own(place: Place<'_>, port: u16) -> bool {
    place.port == port && OWN.contains(&place.address)
}

/// The end of a connection that is at this port, where the other one is at that port.
fn end_of(table: &str, port: u16, other: u16) -> Option<Socket<'_>> {
    for line in table.lines() {
        if let Some(socket) = socket_of(line) {
            if is_own(socket.local, port)
                && is_own(socket.remote, other)
                && socket.state != LISTENING
            {
                return Some(socket);
            }
        }
    }
    None
}

/// Who owns the end of a connection that is at this port, where the other one is at that port, and both are ports of
/// 127.0.0.1. None where there is no such connection, where no process has that end yet, and where it is being closed.
pub fn owner_of(table: &str, port: u16, other: u16) -> Option<u32> {
    let end = end_of(table, port, other)?;
    (end.is_opened && end.state == CONNECTED).then_some(end.owner)
}

/// Whether somebody listens at this port of 127.0.0.1, and only this user.
fn is_heard_by(table: &str, port: u16, owner: u32) -> bool {
    let mut is_heard = false;
    for line in table.lines() {
        if let Some(socket) = socket_of(line) {
            let takes = is_own(socket.local, port)
                || socket.local.port == port && ANY.contains(&socket.local.address);
            if socket.state == LISTENING && takes {
                if socket.owner != owner {
                    return false;
                }
                is_heard = true;
            }
        }
    }
    is_heard
}

/// Whether a connection that was accepted at this port, from that one, is the user's who accepted it.
pub fn is_own_client(table: &str, port: u16, from: u16) -> bool {
    match (owner_of(table, port, from), owner_of(table, from, port)) {
        (Some(own), Some(other)) => own == other,
        _ => false,
    }
}

/// Whether a connection that was made from this port to that one goes to a server of the user's who made it: this user
/// listens there, and has accepted it, or it still waits for that.
pub fn is_own_server(table: &str, port: u16, to: u16) -> bool {
    let (Some(own), Some(end)) = (owner_of(table, port, to), end_of(table, to, port)) else {
        return false;
    };
    if end.is_opened && end.owner != own {
        return false;
    }
    let is_waiting = end.state == CONNECTED || end.state == CONNECTING;
    (end.is_opened || is_waiting) && is_heard_by(table, to, own)
}
