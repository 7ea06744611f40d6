//! Files that a command makes.

use crate::ends::{give_up, keep};
use crate::journals::refuse_unfinished;
use crate::new_file::NewFile;
use std::fs::File;
use std::mem::ManuallyDrop;
use std::process::ExitCode;
use std::rt::Runtime;

/// Makes the file of a path by what writes it and counts its bytes, unless a save of the one in whose place it is to be
/// was cut off. Where it isn't written, the path's file stays as it was, and what tells the fault gives the status to
/// end with.
pub fn make<R, E, F, T>(rt: &R, path: &str, write: F, tell: T) -> ExitCode
where
    R: Runtime<File = File> + AllocGlobal,
    E: Drop,
    F: FnOnce(&mut NewFile<'_, R>) -> Result<usize, E>,
    T: FnOnce(&str, &E) -> ExitCode,
    requires writes { F.IsAlwaysCallable write }
    requires tells { T.IsAlwaysCallable tell }
{
    if let Err(code) = refuse_unfinished(rt, path) {
        return code;
    }
    let mut new = NewFile::new(rt, path);
    match write(&mut new) {
        Ok(count) => keep(rt, new, path, count),
        Err(fault) => match give_up(rt, new, path) {
            Some(code) => code,
            None => tell(path, &fault),
        },
    }
}

/// What is counted of something that was made. What it was made of stays in memory: the process is about to end, and
/// the system takes all of its memory at once.
pub fn count_made<T: Drop, E: Drop>(made: Result<(usize, T), E>) -> Result<usize, E> {
    match made {
        Ok((count, rest)) => {
            let _rest = ManuallyDrop::new(rest);
            Ok(count)
        }
        Err(fault) => Err(fault),
    }
}
