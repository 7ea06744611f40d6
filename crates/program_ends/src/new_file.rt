//! Files that are made whole, or not at all: replacing a file is done here alone.
//!
//! **Kept** of a file that is replaced: its bytes, whole, until all of the new ones stand beside it, and on the device
//! where that is asked for; its owner and its group where the system lets the process give them; its rights, fewer
//! where its group isn't kept, and never more; the links that lead to it, which are followed by their texts, unless the
//! link itself is to be replaced.
//!
//! **Not kept**: access control lists and extended attributes, which aren't looked at (so the rights of the group may
//! be what a list's mask was); the bits that lend rights to whoever runs a file, and the sticky bit; times; the file's
//! other hard names, which stay those of the old file.
//!
//! The new file's owner and rights are given by the open file, and so is all that is asked of the old one. Only making,
//! renaming and removing go by a name, and none of them follows a link at its end; what is renamed or removed is looked
//! at first. Who may rename files in the folder may put others into their places at any time, here too.

use crate::links::end_of;
use crate::rights::take_over;
use std::fs::{self, File, Metadata, OpenFile, OpenOptions};
use std::io;
use std::io::ErrorKind;
use std::os::unix::fs::{MetadataExt, OpenOptionsExt};
use std::path::PathBuf;
use std::rt::{Clock, Files};
use std::time::{SystemTime, UNIX_EPOCH};

/// How many names are tried for a new file beside another: these first, and then as many that nobody has taken before.
const PLAIN_NAMES: u32 = 16;

const MOST_NAMES: u32 = 1000;

/// Who may read and write a new file, but for what the process takes away.
const NEW_MODE: u32 = 0o666;

/// The owner alone may read and write a file until it has the rights of the one that it replaces.
const OWNER_MODE: u32 = 0o600;

/// A new file beside the one that it is to become.
#[derive(Drop)]
struct Beside {
    file: File,
    name: PathBuf,
    target: PathBuf,
}

/// Where bytes go.
#[derive(Drop)]
enum Place {
    /// Nowhere yet.
    Unopened,
    /// What is no regular file, as a pipe or a device, takes them as it is.
    Itself(File),
    /// A new file.
    Beside(Beside),
}

/// What is done about a link that stands at a path.
#[derive(Clone, Copy)]
enum AtLink {
    Follow,
    Replace,
}

/// The file of a path, as it is to be. Nothing is opened or made before the first write. From then on a regular file
/// stays as it is, and the bytes go to a new one beside it, until `keep` puts that in its place.
#[derive(Drop)]
pub struct NewFile<'a, R: Files<File = File> + Clock + AllocGlobal> {
    rt: &'a R,
    path: &'a str,
    at_link: AtLink,
    place: Place,
    lacked_memory: bool,
}

impl<'a, R: Files<File = File> + Clock + AllocGlobal> NewFile<'a, R> {
    /// A file that isn't made yet. A link at the path is followed, and what is no regular file takes the bytes as it
    /// is.
    pub fn new(rt: &'a R, path: &'a str) -> NewFile<'a, R> {
        NewFile {
            rt,
            path,
            at_link: AtLink::Follow,
            place: Place::Unopened,
            lacked_memory: false,
        }
    }

    /// A file that isn't made yet, which takes the place of whatever stands at the path, a link too, but for a folder.
    pub fn in_place(rt: &'a R, path: &'a str) -> NewFile<'a, R> {
        NewFile {
            rt,
            path,
            at_link: AtLink::Replace,
            place: Place::Unopened,
            lacked_memory: false,
        }
    }

    /// Waits until the device has all of what was written.
    ///
    /// Refused where the device or the system refuses.
    pub fn sync(&self) -> io::Result<()> {
        match &self.place {
            Place::Beside(new) => new.file.sync_all(),
            _ => Ok(()),
        }
    }

    /// The name of the file in whose place what was written is to be put; none where it goes to what is no regular
    /// file.
    pub fn target(&self) -> Option<&str> {
        match &self.place {
            Place::Beside(new) => Some(new.target.as_str()),
            _ => None,
        }
    }

    /// Puts what was written in the place of the path's file. A failure leaves the path as it was, and no new file.
    ///
    /// Refused where the system refuses to rename, and where another file has the new one's name by now.
    pub fn put(self) -> io::Result<()> {
        put_place(self.rt, &self.place)
    }

    /// Puts what was written in the place of the path's file, and has the device note the name.
    ///
    /// Refused as `put` is. Not each folder can be opened and synced; the file is in its place anyway.
    pub fn keep(self) -> io::Result<()> {
        put_place(self.rt, &self.place)?;
        let _ = sync_place(self.rt, &self.place);
        Ok(())
    }

    /// Whether memory was refused as the file was to be opened or made. Whoever writes to it is told of a write that
    /// failed, and of nothing else.
    pub fn lacked_memory(&self) -> bool {
        self.lacked_memory
    }

    /// Drops what was written: the path's file stays as it was.
    pub fn discard(self) {
        discard_place(self.rt, &self.place);
    }

    /// Opens what the bytes go to.
    fn open(&self) -> io::Result<Place> {
        match self.at_link {
            AtLink::Follow => open_followed(self.rt, self.path),
            AtLink::Replace => open_in_place(self.rt, self.path),
        }
    }

    /// Opens what the bytes go to, once.
    fn begin(&mut self) -> io::Result<()> {
        if let Place::Unopened = self.place {
            match self.open() {
                Ok(place) => self.place = place,
                Err(error) => {
                    self.lacked_memory = error.kind() == ErrorKind::OutOfMemory;
                    return Err(error);
                }
            }
        }
        Ok(())
    }
}

impl io::Write for Place {
    fn write(&mut self, buf: &[u8]) -> io::Result<usize> {
        match self {
            Place::Unopened => Err(io::Error::from(ErrorKind::NotFound)),
            Place::Itself(file) => file.write(buf),
            Place::Beside(new) => new.file.write(buf),
        }
    }

    fn flush(&mut self) -> io::Result<()> {
        match self {
            Place::Unopened => Ok(()),
            Place::Itself(file) => file.flush(),
            Place::Beside(new) => new.file.flush(),
        }
    }
}

impl<'a, R: Files<File = File> + Clock + AllocGlobal> io::Write for NewFile<'a, R> {
    fn write(&mut self, buf: &[u8]) -> io::Result<usize> {
        self.begin()?;
        self.place.write(buf)
    }

    fn flush(&mut self) -> io::Result<()> {
        self.place.flush()
    }
}

/// Puts a new file in the place of its target, or removes it.
fn put_place<R: Files<File = File>>(rt: &R, place: &Place) -> io::Result<()> {
    match place {
        Place::Beside(new) => remove_unless(rt, new, put_in_place(rt, new)),
        _ => Ok(()),
    }
}

/// Waits until the device has the names of a new file's folder.
fn sync_place<R: Files<File = File>>(rt: &R, place: &Place) -> io::Result<()> {
    match place {
        Place::Beside(new) => fs::open(rt, folder_of(&new.target))?.sync_all(),
        _ => Ok(()),
    }
}

/// Removes a new file.
fn discard_place<R: Files<File = File>>(rt: &R, place: &Place) {
    if let Place::Beside(new) = place {
        remove(rt, new);
    }
}

/// Where the bytes of a path's file go, to which links may lead.
fn open_followed<R: Files<File = File> + Clock + AllocGlobal>(
    rt: &R,
    path: &str,
) -> io::Result<Place> {
    match open_to_write(rt, path) {
        Ok(old) => open_over(rt, path, old),
        Err(error) if error.kind() == ErrorKind::NotFound => {
            Ok(Place::Beside(open_beside(rt, end_of(rt, path)?, NEW_MODE)?))
        }
        Err(error) => Err(error),
    }
}

/// Where the bytes of a path go that leads to something, which is open.
fn open_over<R: Files<File = File> + Clock + AllocGlobal>(
    rt: &R,
    path: &str,
    old: File,
) -> io::Result<Place> {
    let about = old.metadata()?;
    if about.is_file() {
        Ok(Place::Beside(open_for(rt, end_of(rt, path)?, &about)?))
    } else {
        Ok(Place::Itself(old))
    }
}

/// Where the bytes go that replace what stands at a path.
fn open_in_place<R: Files<File = File> + Clock + AllocGlobal>(
    rt: &R,
    path: &str,
) -> io::Result<Place> {
    let target = PathBuf::from_str(rt.alloc(), path)?;
    if fs::symlink_metadata(rt, path)?.is_file() {
        let about = open_to_write(rt, path)?.metadata()?;
        Ok(Place::Beside(open_for(rt, target, &about)?))
    } else {
        Ok(Place::Beside(open_beside(rt, target, NEW_MODE)?))
    }
}

fn open_to_write<R: Files<File = File>>(rt: &R, path: &str) -> io::Result<File> {
    OpenOptions::new().write(true).open(rt, path)
}

/// A new file of the owner and the rights of a regular file beside it, which stands at the name, and of which this is
/// known.
fn open_for<R: Files<File = File> + Clock + AllocGlobal>(
    rt: &R,
    target: PathBuf,
    old: &Metadata,
) -> io::Result<Beside> {
    if !stands_at(rt, &target, old) {
        return Err(io::Error::from(ErrorKind::NotFound));
    }
    let new = open_beside(rt, target, OWNER_MODE)?;
    remove_unless(rt, &new, take_over(&new.file, old))?;
    Ok(new)
}

/// Whether the file that stands at a name, and is no link, is this one.
fn stands_at<R: Files<File = File>>(rt: &R, name: &PathBuf, file: &Metadata) -> bool {
    match fs::symlink_metadata(rt, name) {
        Ok(about) => about.dev() == file.dev() && about.ino() == file.ino(),
        Err(_) => false,
    }
}

/// Whether a new file has its name still.
fn has_its_name<R: Files<File = File>>(rt: &R, new: &Beside) -> bool {
    match new.file.metadata() {
        Ok(about) => stands_at(rt, &new.name, &about),
        Err(_) => false,
    }
}

/// Removes a new file, unless another has its name.
fn remove<R: Files<File = File>>(rt: &R, new: &Beside) {
    if has_its_name(rt, new) {
        let _ = fs::remove_file(rt, &new.name);
    }
}

/// Removes a new file unless what was done with it is done.
fn remove_unless<R: Files<File = File>>(
    rt: &R,
    new: &Beside,
    done: io::Result<()>,
) -> io::Result<()> {
    if done.is_err() {
        remove(rt, new);
    }
    done
}

/// A new file in the folder of a path, of a name that was free.
fn open_beside<R: Files<File = File> + Clock + AllocGlobal>(
    rt: &R,
    target: PathBuf,
    mode: u32,
) -> io::Result<Beside> {
    let (file, name) = create_beside(rt, &target, mode)?;
    Ok(Beside { file, name, target })
}

/// A new file in the folder of a path, and its name: one of few, or, where these are taken, as those that were left
/// behind are, one with the time in it.
fn create_beside<R: Files<File = File> + Clock + AllocGlobal>(
    rt: &R,
    target: &PathBuf,
    mode: u32,
) -> io::Result<(File, PathBuf)> {
    match create_among(rt, target, mode, ".olecon", PLAIN_NAMES) {
        Err(error) if error.kind() == ErrorKind::AlreadyExists => {
            create_among(rt, target, mode, timed(rt)?.as_str(), MOST_NAMES)
        }
        done => done,
    }
}

/// What names begin with that nobody has taken before.
fn timed<R: Clock + AllocGlobal>(rt: &R) -> io::Result<String> {
    let (seconds, nanoseconds) = match SystemTime::now(rt)?.duration_since(UNIX_EPOCH) {
        Ok(since) => (since.as_secs(), since.subsec_nanos()),
        Err(_) => (0, 0),
    };
    Ok(format!(in rt.alloc(); ".olecon-{seconds}-{nanoseconds}")?)
}

/// A new file in the folder of a path, and its name, the first of so many `STEM-NUMBER` that is free.
fn create_among<R: Files<File = File> + AllocGlobal>(
    rt: &R,
    target: &PathBuf,
    mode: u32,
    stem: &str,
    count: u32,
) -> io::Result<(File, PathBuf)> {
    for number in 0..count {
        let spelled = format!(in rt.alloc(); "{stem}-{number}")?;
        let name = target.with_file_name(rt.alloc(), spelled.as_str())?;
        match create(rt, &name, mode) {
            Ok(file) => return Ok((file, name)),
            Err(error) if error.kind() == ErrorKind::AlreadyExists => {}
            Err(error) => return Err(error),
        }
    }
    Err(io::Error::from(ErrorKind::AlreadyExists))
}

fn create<R: Files<File = File>>(rt: &R, name: &PathBuf, mode: u32) -> io::Result<File> {
    OpenOptions::new()
        .write(true)
        .create_new(true)
        .mode(mode)
        .open(rt, name)
}

/// Puts a new file in the place of its target.
fn put_in_place<R: Files<File = File>>(rt: &R, new: &Beside) -> io::Result<()> {
    if !has_its_name(rt, new) {
        return Err(io::Error::from(ErrorKind::NotFound));
    }
    fs::rename(rt, &new.name, &new.target)
}

/// The folder of a file's path.
fn folder_of(path: &PathBuf) -> &str {
    match path.parent() {
        Some(folder) if !folder.as_str().is_empty() => folder.as_str(),
        _ => ".",
    }
}
