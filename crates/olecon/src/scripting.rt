//! Scripts of a container, whose servers are child processes.

use program_ends::ends::refuse;
use script_container::fault::ScriptFault;
use script_host::host::SystemHost;
use script_run::script::run_script;
use std::fs::File;
use std::net::Net;
use std::process::{ExitCode, Processes};
use std::rt::Runtime;
use std::time::Duration;
use std::{fs, io};
use text_words::report::{Report, STANDARD};

/// The status where what is asked of servers isn't answered.
const STALLED: u8 = 4;

/// The status where a server isn't started.
const UNSTARTED: u8 = 5;

/// Tells why a script isn't carried out to its end.
fn refuse_script<R: Runtime>(rt: &R, path: &str, fault: ScriptFault) -> ExitCode {
    match fault {
        ScriptFault::Input(fault) => refuse(rt, &Report::File(path, fault.name())),
        ScriptFault::Line(line, fault) => refuse(rt, &Report::Line(line, fault.name())),
        ScriptFault::File(name, fault) => match str::from_utf8(&name) {
            Ok(name) => refuse(rt, &Report::File(name, fault.name())),
            Err(_) => refuse(rt, &Report::File(path, fault.name())),
        },
        ScriptFault::NoMemory => refuse(rt, &Report::File(path, "NoMemory")),
        ScriptFault::Unwritable => refuse(rt, &Report::File(STANDARD, "Unwritable")),
        ScriptFault::Stalled => {
            let _ = eprintln!(rt; "stalled");
            ExitCode::from(STALLED)
        }
        ScriptFault::Link(inc) => {
            let _ = eprintln!(rt; "link {inc}");
            ExitCode::from(UNSTARTED)
        }
    }
}

/// Carries out the commands of a file with servers that this program starts, and waits so many seconds for what each
/// sends.
pub(crate) fn run_file<R: Runtime<File = File> + Net + Processes + AllocGlobal>(
    rt: &R,
    path: &str,
    server: &str,
    seconds: u64,
) -> ExitCode {
    let Ok(mut source) = fs::open(rt, path) else {
        return refuse(rt, &Report::File(path, "Unreadable"));
    };
    let mut host = SystemHost::new(rt, server, Duration::from_secs(seconds));
    match run_script(rt.alloc(), &mut host, &mut source, &mut io::writer(rt)) {
        Ok(()) => ExitCode::SUCCESS,
        Err(fault) => refuse_script(rt, path, fault),
    }
}
