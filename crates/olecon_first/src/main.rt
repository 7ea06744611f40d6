//! The program `olecon` with its commands `make` and `list` alone, which is built soonest: it makes and lists OLE
//! compound files.
#![tactic(auto)]

use program_ends::ends::refuse;
use program_ends::making::count_made;
use program_ends::starts::start_first;
use program_sources::opening::open_source;
use std::io;
use std::process::ExitCode;
use std::rt::Runtime;
use tell_forms::asked_listings::Listing;
use tell_lists::listing::list_as;
use write_described::making::make_with_tree;

/// Lists a file on standard output.
fn list<R: Runtime + AllocGlobal>(rt: &R, path: &str, listing: Listing) -> ExitCode {
    match open_source(rt, path) {
        Ok(mut source) => {
            match list_as(rt.alloc(), listing, &mut source, &mut io::writer(rt)) {
                Ok(()) => ExitCode::SUCCESS,
                Err(fault) => refuse(rt, &fault.report(path)),
            }
        }
        Err(code) => code,
    }
}

fn main(rt: HostRuntime) -> ExitCode {
    start_first(
        &rt,
        |new| count_made(make_with_tree(rt.alloc(), &mut rt.reader(), new)),
        |path, fault| refuse(&rt, &fault.report(path)),
        |path, is_json, is_long| list(&rt, path, Listing::of(is_json, is_long)),
    )
}
