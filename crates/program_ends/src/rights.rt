//! Who may read and write a new file that takes the place of an old one.

use std::fs::{File, Metadata, OpenFile, Permissions};
use std::io;
use std::os::fd::AsFd;
use std::os::unix::fs::{MetadataExt, PermissionsExt, fchown};

/// The rights of the owner, of the group and of all others.
const OWNER: u32 = 0o700;

const GROUP: u32 = 0o070;

const OTHERS: u32 = 0o007;

/// The permissions for a new file in the place of one of these: the same rights, and no bit that lends the owner's or
/// the group's to whoever runs it. Without the old file's group, its members are among the others, and may do what they
/// and the others might before, and the new group nothing.
fn mode_for(old: u32, has_group: bool) -> u32 {
    if has_group {
        return old & (OWNER | GROUP | OTHERS);
    }
    let shared = (old & GROUP) >> 3;
    old & (OWNER | shared)
}

/// Gives an open file the owner and the group of another; where it may not have the owner, the group alone, which a
/// member may give; where it may not have that, nothing.
fn give(new: &File, old: &Metadata) {
    if fchown(new.as_fd(), Some(old.uid()), Some(old.gid())).is_err() {
        let _ = fchown(new.as_fd(), None, Some(old.gid()));
    }
}

/// Gives an open file, which its owner alone may use, the owner, the group and the rights of an old one: the owner and
/// the group as far as the system lets the process, and where the group isn't kept, fewer rights. Nobody but the new
/// owner gets more.
///
/// Refused where the system refuses to tell or to change what the file has.
pub(crate) fn take_over(new: &File, old: &Metadata) -> io::Result<()> {
    let made = new.metadata()?;
    if made.uid() != old.uid() || made.gid() != old.gid() {
        give(new, old);
    }
    let given = new.metadata()?;
    let mode = mode_for(old.mode(), given.gid() == old.gid());
    new.set_permissions(Permissions::from_mode(mode))
}
