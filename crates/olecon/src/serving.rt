//! A server of embedded objects.

use object_core::tally::Tally;
use program_ends::ends::{refuse, refuse_start};
use script_host::listening::listen;
use server_links::all_links::serve_links;
use std::fs::File;
use std::io;
use std::net::{Net, TcpListener, TcpStream};
use std::process::ExitCode;
use std::rt::Runtime;
use std::time::Duration;
use text_words::report::{Report, STANDARD};

/// How long a server waits for a link. One whose container was killed sees its link closed, and ends after that.
const WAIT: u64 = 30;

/// The most activations of a server, and writes of an activation.
const MOST_NUMBERS: u32 = 1_000_000;

/// Listens on a port of 127.0.0.1, prints it, and serves.
fn listen_and_serve<
    R: Runtime<File = File> + Net<Listener = TcpListener, Stream = TcpStream> + AllocGlobal,
>(rt: &R, session: u32, inc: u32) -> io::Result<ExitCode> {
    let (mut listening, port) = listen(rt, Duration::from_secs(WAIT))?;
    println!(rt; "{port}")?;
    let tally = Tally::new(rt.alloc())?;
    match serve_links(
        rt.alloc(),
        &tally,
        &mut listening,
        session,
        inc,
        MOST_NUMBERS,
    ) {
        Ok(_) => Ok(ExitCode::SUCCESS),
        Err(_) => Ok(refuse(rt, &Report::File(STANDARD, "NoMemory"))),
    }
}

/// Is the server of a session and an incarnation.
pub(crate) fn serve<
    R: Runtime<File = File> + Net<Listener = TcpListener, Stream = TcpStream> + AllocGlobal,
>(rt: &R, session: u32, inc: u32) -> ExitCode {
    match listen_and_serve(rt, session, inc) {
        Ok(code) => code,
        Err(error) => refuse_start(rt, &error),
    }
}
