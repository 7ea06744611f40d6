//! A store's commit, for tests from outside: `commit_file NAME FILE` makes the bytes of FILE the document NAME, and
//! `commit_file NAME` opens the document alone. The status is 3 where one of them is refused, and 2 for other words.
#![tactic(auto)]

use std::fs::File;
use std::process::ExitCode;
use std::rt::{Files, Runtime};
use std::{env, fs, io};
use store_core::store::Store;
use store_disk::opening::open;
use store_disk::system_names::SystemNames;
use store_model::fault::StoreFault;

/// The status of words that aren't read.
const USAGE: u8 = 2;

/// The status of a document that is refused.
const REFUSED: u8 = 3;

/// Opens the document of a name.
fn open_only<R: Files<File = File> + AllocGlobal>(rt: &R, name: &str) -> Result<(), StoreFault> {
    let disk = open(&mut SystemNames::new(rt), name)?;
    match Store::open(rt.alloc(), disk) {
        Ok(_) => Ok(()),
        Err(refused) => Err(refused.fault),
    }
}

/// Makes these bytes the document of a name.
fn commit<R: Files<File = File> + AllocGlobal>(
    rt: &R,
    name: &str,
    bytes: &[u8],
) -> Result<(), StoreFault> {
    let disk = open(&mut SystemNames::new(rt), name)?;
    match Store::open(rt.alloc(), disk) {
        Ok(mut store) => store.commit(bytes),
        Err(refused) => Err(refused.fault),
    }
}

/// Tells what became of it.
fn told<R: Runtime>(rt: &R, outcome: Result<(), StoreFault>) -> io::Result<ExitCode> {
    match outcome {
        Ok(()) => Ok(ExitCode::SUCCESS),
        Err(fault) => {
            eprintln!(rt; "{}", fault.name())?;
            Ok(ExitCode::from(REFUSED))
        }
    }
}

fn run<R: Runtime<File = File> + AllocGlobal>(rt: &R) -> io::Result<ExitCode> {
    let words: Vec<String> = env::args(rt)?.collect(rt.alloc())?;
    match words.as_slice() {
        [_, name] => told(rt, open_only(rt, name.as_str())),
        [_, name, file] => {
            let bytes = fs::read(rt, file.as_str())?;
            told(rt, commit(rt, name.as_str(), &bytes))
        }
        _ => Ok(ExitCode::from(USAGE)),
    }
}

fn main(rt: HostRuntime) -> ExitCode {
    match run(&rt) {
        Ok(code) => code,
        Err(_) => ExitCode::from(REFUSED),
    }
}
