//! The files of the operating system. What real files do is no part of any proof: these claim nothing of their bytes
//! and of crashes.

ghost use Rattle.store_model.specs.Image.{Image};
ghost use Rattle.std.specs.Prelude.{◌≤◌, [], false, true, length, IfOk};

use crate::disk_files::DiskFiles;
use std::fs::{self, File, Metadata, OpenOptions, Permissions, TryLockError};
use std::io::{self, ErrorKind};
use std::os::unix::fs::{FileExt, MetadataExt, OpenOptionsExt, PermissionsExt, fchown};
use std::path::PathBuf;
use std::rt::Files;
use store_model::area::Area;

/// How often a call that a signal interrupted is made again.
const MOST_TRIES: usize = 1_000;

/// Who may read and write a document that is made, but for what the process takes away.
const NEW_MODE: u32 = 0o666;

/// The owner alone may read and write a journal until it has the document's permissions.
const OWNER_MODE: u32 = 0o600;

/// Who may read, write and run a file.
const PERMISSIONS: u32 = 0o777;

/// What the group of a file may.
const GROUP_MODE: u32 = 0o070;

/// All that a file's mode says of what may be done with it.
const ALL_MODES: u32 = 0o7777;

/// The files NAME, the document, and NAME.journal, with the folder that they stand in. The journal is locked against
/// other programs that open it so, as long as it is open.
#[derive(Drop)]
pub struct SystemFiles {
    document: File,
    journal: File,
    folder: File,
}

impl SystemFiles {
    /// The file of an area.
    fn file(&self, area: Area) -> &File {
        match area {
            Area::Document => &self.document,
            Area::Journal => &self.journal,
        }
    }
}

/// The files NAME and NAME.journal of a document. Those that are missing are made: the journal first, and the document
/// once that is held. A journal that is made gets the document's owner. A journal holds the document's bytes: each time
/// it is opened, who may not read or write the document may not read or write it either, before a byte is written.
///
/// Refused where the system refuses to make, open or lock one of them: a link or a folder of either name isn't opened,
/// nor is a journal that is open elsewhere, in this program or another, or that is neither the user's nor the
/// document's owner's. What was made is removed then.
pub(crate) fn open_files<R: Files<File = File> + AllocGlobal>(
    rt: &R,
    name: &str,
) -> io::Result<SystemFiles> {
    let journal_name = format!(in rt.alloc(); "{name}.journal")?;
    let folder = open_folder(rt, name)?;
    let found = open_found(rt, name)?;
    let (journal, is_made) = hold(rt, journal_name.as_str())?;
    match document_beside(rt, name, found, &journal, is_made) {
        Ok(document) => Ok(SystemFiles {
            document,
            journal,
            folder,
        }),
        Err(error) => {
            if is_made {
                let _ = fs::remove_file(rt, journal_name.as_str());
            }
            Err(error)
        }
    }
}

/// A journal that is locked, and whether this call made it: one that its owner alone may read and write then.
fn hold<R: Files<File = File>>(rt: &R, name: &str) -> io::Result<(File, bool)> {
    let (journal, is_made) = match make(rt, name, OWNER_MODE) {
        Ok(made) => (made, true),
        Err(error) if error.kind() == ErrorKind::AlreadyExists => match open_found(rt, name)? {
            Some(found) => (found, false),
            None => return Err(ErrorKind::WouldBlock.into()),
        },
        Err(error) => return Err(error),
    };
    lock(&journal)?;
    // Whoever held it before may have removed it.
    if !is_same(&fs::symlink_metadata(rt, name)?, &journal.metadata()?) {
        return Err(ErrorKind::WouldBlock.into());
    }
    Ok((journal, is_made))
}

/// The document beside a journal that is held, which is as private from then on: the one that was found, or one that is
/// made.
fn document_beside<R: Files<File = File>>(
    rt: &R,
    name: &str,
    found: Option<File>,
    journal: &File,
    is_made: bool,
) -> io::Result<File> {
    if let Some(document) = found {
        keep_private(rt, &document, journal, is_made)?;
        return Ok(document);
    }
    if !is_made && !is_users(rt, &journal.metadata()?) {
        return Err(ErrorKind::PermissionDenied.into());
    }
    let document = make(rt, name, NEW_MODE)?;
    match keep_private(rt, &document, journal, is_made) {
        Ok(()) => Ok(document),
        Err(error) => {
            let _ = fs::remove_file(rt, name);
            Err(error)
        }
    }
}

/// Makes a journal as private as its document. Where it was made, it gets the document's owner, and its group where
/// that may be.
///
/// Refused: where the system refuses that, and where its owner is neither the user nor the document's owner.
fn keep_private<R: Files<File = File>>(
    rt: &R,
    document: &File,
    journal: &File,
    is_made: bool,
) -> io::Result<()> {
    let shown = document.metadata()?;
    if is_made {
        give(journal, &shown)?;
    }
    let held = journal.metadata()?;
    if held.uid() != shown.uid() && !is_users(rt, &held) {
        return Err(ErrorKind::PermissionDenied.into());
    }
    let mode = private_mode(&held, &shown, is_made);
    if held.mode() & ALL_MODES == mode {
        return Ok(());
    }
    journal.set_permissions(Permissions::from_mode(mode))
}

/// Gives a journal that was made the document's owner, and its group where the system lets.
fn give(journal: &File, shown: &Metadata) -> io::Result<()> {
    let held = journal.metadata()?;
    if held.uid() != shown.uid() {
        fchown(journal, Some(shown.uid()), None)?;
    }
    if held.gid() != shown.gid() {
        let _ = fchown(journal, None, Some(shown.gid()));
    }
    Ok(())
}

/// Who may read and write a journal: of those who may read and write the document, who might before, where it wasn't
/// made just now. A group that isn't the document's may neither.
fn private_mode(held: &Metadata, shown: &Metadata, is_made: bool) -> u32 {
    let mut mode = shown.mode() & PERMISSIONS;
    if held.gid() != shown.gid() {
        mode &= !GROUP_MODE;
    }
    if !is_made {
        mode &= held.mode();
    }
    mode
}

/// Whether a file is the user's whose program this is. Where the system doesn't tell the user, each is.
fn is_users<R: Files<File = File>>(rt: &R, file: &Metadata) -> bool {
    match fs::metadata(rt, "/proc/self") {
        Ok(program) => program.uid() == file.uid(),
        Err(_) => true,
    }
}

/// Whether both are of one file.
fn is_same(one: &Metadata, other: &Metadata) -> bool {
    one.dev() == other.dev() && one.ino() == other.ino()
}

/// Locks a file against other opens of it that lock it too. Where the system has no such lock, it has none.
fn lock(file: &File) -> io::Result<()> {
    match file.try_lock() {
        Ok(()) => Ok(()),
        Err(TryLockError::WouldBlock) => Err(ErrorKind::WouldBlock.into()),
        Err(TryLockError::Error(error)) if error.kind() == ErrorKind::Unsupported => Ok(()),
        Err(TryLockError::Error(error)) => Err(error),
    }
}

/// Makes a file of this name, with this mode.
fn make<R: Files<File = File>>(rt: &R, name: &str, mode: u32) -> io::Result<File> {
    OpenOptions::new()
        .read(true)
        .write(true)
        .create_new(true)
        .mode(mode)
        .open(rt, name)
}

/// The file of this name, if one is there, and no link or folder: the one that was looked at.
pub(crate) fn open_found<R: Files<File = File>>(rt: &R, name: &str) -> io::Result<Option<File>> {
    let looked = match fs::symlink_metadata(rt, name) {
        Ok(looked) => looked,
        Err(error) if error.kind() == ErrorKind::NotFound => return Ok(None),
        Err(error) => return Err(error),
    };
    if !looked.is_file() {
        return Err(ErrorKind::Unsupported.into());
    }
    let file = OpenOptions::new().read(true).write(true).open(rt, name)?;
    if !is_same(&looked, &file.metadata()?) {
        return Err(ErrorKind::Unsupported.into());
    }
    Ok(Some(file))
}

/// The folder that a file of this name stands in.
fn open_folder<R: Files<File = File> + AllocGlobal>(rt: &R, name: &str) -> io::Result<File> {
    let mut path = PathBuf::from_str(rt.alloc(), name)?;
    path.pop();
    if path.as_str().is_empty() {
        return File::open(rt, ".");
    }
    File::open(rt, path.as_str())
}

/// Reads once, and again where a signal interrupted it.
pub(crate) fn read_file(file: &File, at: u64, into: &mut [u8]) -> io::Result<usize>
    ensures { IfOk result (λ n. n ≤ length into.old) }
{
    for _ in 0..MOST_TRIES {
        match file.read_at(into, at) {
            Ok(n) => return Ok(n),
            Err(error) if error.kind() == ErrorKind::Interrupted => {}
            Err(error) => return Err(error),
        }
    }
    Err(ErrorKind::Interrupted.into())
}

/// Writes once, and again where a signal interrupted it.
fn write_file(file: &File, at: u64, bytes: &[u8]) -> io::Result<usize>
    ensures { IfOk result (λ n. n ≤ length bytes.now) }
{
    for _ in 0..MOST_TRIES {
        match file.write_at(bytes, at) {
            Ok(n) => return Ok(n),
            Err(error) if error.kind() == ErrorKind::Interrupted => {}
            Err(error) => return Err(error),
        }
    }
    Err(ErrorKind::Interrupted.into())
}

impl DiskFiles for SystemFiles {
    ghost follows_model = { ⊥ };

    ghost reads = { λ f. record { document = []; journal = [] } };

    ghost may_leave = { λ f c. Unit {0} };

    ghost moment = { λ f. 0 };

    ghost left_since = { λ f t c. Unit {0} };

    ghost sync_may_lie = { λ f. false };

    ghost has_names = { λ f. true };

    ghost reads_are_left = { λ f. tt };

    ghost counts_now = { λ f t c le now. tt };

    ghost only_now = { λ f c left. tt };

    fn length(&mut self, area: Area) -> io::Result<u64> {
        Ok(self.file(area).metadata()?.len())
    }

    fn read_at(&mut self, area: Area, at: u64, into: &mut [u8]) -> io::Result<usize> {
        read_file(self.file(area), at, into)
    }

    fn write_at(&mut self, area: Area, at: u64, bytes: &[u8]) -> io::Result<usize> {
        write_file(self.file(area), at, bytes)
    }

    fn set_length(&mut self, area: Area, size: u64) -> io::Result<()> {
        self.file(area).set_len(size)
    }

    fn sync(&mut self, area: Area) -> io::Result<()> {
        self.file(area).sync_data()
    }

    fn sync_names(&mut self) -> io::Result<()> {
        self.folder.sync_all()
    }
}
