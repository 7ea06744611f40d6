//! Whose the other end of a connection is, where the system tells.

use crate::sockets::{is_own_client, is_own_server};
use std::fs::{self, File};
use std::io::{self, ErrorKind};
use std::rt::Files;

/// How often the system's sockets are looked at: meanwhile others come and go, so one of them may be passed over.
const MOST_LOOKS: usize = 3;

/// The other end of a connection.
#[derive(Clone, Copy)]
pub(crate) enum Other {
    /// The client whose connection was accepted.
    Client,
    /// The server that a connection was made to.
    Server,
}

impl Other {
    /// Whether it is the user's who has this end.
    fn is_own(self, table: &str, port: u16, other: u16) -> bool {
        match self {
            Other::Client => is_own_client(table, port, other),
            Other::Server => is_own_server(table, port, other),
        }
    }
}

/// A table of sockets, if the system has one.
fn read<R: Files<File = File> + AllocGlobal>(rt: &R, path: &str) -> io::Result<Option<String>> {
    match fs::read_to_string(rt, path) {
        Ok(table) => Ok(Some(table)),
        Err(error) if error.kind() == ErrorKind::NotFound => Ok(None),
        Err(error) => Err(error),
    }
}

/// Whether the other end of a connection between two ports of 127.0.0.1, of which the first is at this end, is the same
/// user's. Where the system tells nothing of its sockets, it counts as that.
pub(crate) fn is_users<R: Files<File = File> + AllocGlobal>(
    rt: &R,
    end: Other,
    port: u16,
    other: u16,
) -> io::Result<bool> {
    for _ in 0..MOST_LOOKS {
        let Some(mut table) = read(rt, "/proc/net/tcp")? else {
            return Ok(true);
        };
        if end.is_own(&table, port, other) {
            return Ok(true);
        }
        // A server in another language may listen at addresses of the other family too.
        if let Some(others) = read(rt, "/proc/net/tcp6")? {
            table.push_str(&others)?;
        }
        if end.is_own(&table, port, other) {
            return Ok(true);
        }
    }
    Ok(false)
}
