//! The names of the operating system. What its files do is no part of any proof: these claim nothing of what bears a
//! name, but count each call that fails.

ghost use Rattle.store_disk.specs.Names.{CountsCalls};
ghost use Rattle.store_disk.specs.SystemNames.{failed_of};
ghost use Rattle.store_disk.specs.declared.names.Beside.TheVariants.{Nothing};
ghost use Rattle.store_disk.specs.declared.names.Standing.TheVariants.{Missing};
ghost use Rattle.std.specs.Prelude.{◌≡◌};

use crate::names::{Beside, Names, Standing};
use crate::system_files::{SystemFiles, open_files, open_found, read_file};
use std::fs::{self, File};
use std::io::{self, ErrorKind};
use std::rt::Files;
use store_model::journal::{HEADER, OPEN};

/// The names of the system's files, by their paths.
#[derive(Drop)]
pub struct SystemNames<'a, R> {
    rt: &'a R,
    failed: u64,
}

impl<'a, R: Files<File = File> + AllocGlobal> SystemNames<'a, R> {
    /// The names that a program's system has.
    pub fn new(rt: &'a R) -> SystemNames<'a, R>
        ensures { failed_of result ≡ 0 }
    {
        SystemNames { rt, failed: 0 }
    }
}

/// Counts a call that failed.
fn count<T>(failed: &mut u64, answer: io::Result<T>) -> io::Result<T>
    ensures { CountsCalls failed.old failed.new result }
{
    match answer {
        Ok(value) => Ok(value),
        Err(error) => {
            *failed = failed.saturating_add(1);
            Err(error)
        }
    }
}

/// What bears a name.
fn look<R: Files<File = File>>(rt: &R, name: &str) -> io::Result<Standing> {
    match fs::symlink_metadata(rt, name) {
        Ok(found) if found.is_file() && found.len() == 0 => Ok(Standing::Empty),
        Ok(_) => Ok(Standing::Taken),
        Err(error) if error.kind() == ErrorKind::NotFound => Ok(Standing::Missing),
        Err(error) => Err(error),
    }
}

/// What bears the name of a document's journal. One whose gate is open is what a commit left that was cut off.
fn look_beside<R: Files<File = File> + AllocGlobal>(rt: &R, name: &str) -> io::Result<Beside> {
    let journal_name = format!(in rt.alloc(); "{name}.journal")?;
    let Some(journal) = open_found(rt, journal_name.as_str())? else {
        return Ok(Beside::Nothing);
    };
    let mut gate = [0u8];
    let n = read_file(&journal, 0, &mut gate)?;
    if n == 1 && gate[0] == OPEN && journal.metadata()?.len() >= HEADER {
        return Ok(Beside::Open);
    }
    Ok(Beside::Shut)
}

impl<'a, R: Files<File = File> + AllocGlobal> Names for SystemNames<'a, R> {
    type Files = SystemFiles;

    ghost follows_model = { ⊥ };

    ghost standing = { λ n name. Missing };

    ghost beside = { λ n name. Nothing };

    ghost failed = { failed_of };

    fn look(&mut self, name: &str) -> io::Result<Standing> {
        let found = look(self.rt, name);
        count(&mut self.failed, found)
    }

    fn look_beside(&mut self, name: &str) -> io::Result<Beside> {
        let found = look_beside(self.rt, name);
        count(&mut self.failed, found)
    }

    fn open(&mut self, name: &str) -> io::Result<SystemFiles> {
        let files = open_files(self.rt, name);
        count(&mut self.failed, files)
    }
}
