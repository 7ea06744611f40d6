//! Links, which are followed by their texts, so that the folder of what they lead to may have any name.

use std::io::ErrorKind;
use std::path::PathBuf;
use std::rt::Files;
use std::{fs, io};

/// How many links are followed.
pub(crate) const MOST_LINKS: u32 = 40;

/// Whether a link isn't read since none stands there: the system refuses to read what is no link, or has nothing of the
/// name. A link whose text can't be told, as one that isn't UTF-8 or one for which no memory is left, is a link.
fn is_no_link(error: &io::Error) -> bool {
    matches!(error.kind(), ErrorKind::InvalidInput | ErrorKind::NotFound)
}

/// The name that the link of a name leads to; none where no link stands there.
///
/// Refused where the link can't be read, and for want of memory.
pub(crate) fn next_name<R: Files + AllocGlobal>(
    rt: &R,
    name: &PathBuf,
) -> io::Result<Option<PathBuf>> {
    match fs::read_link(rt, name) {
        Ok(text) => Ok(Some(behind(rt, name, &text)?)),
        Err(error) if is_no_link(&error) => Ok(None),
        Err(error) => Err(error),
    }
}

/// The name that a link's text gives in the link's own folder.
fn behind<R: Files + AllocGlobal>(rt: &R, name: &PathBuf, text: &PathBuf) -> io::Result<PathBuf> {
    let mut next = PathBuf::from_str(rt.alloc(), name.as_str())?;
    next.pop();
    next.push(text)?;
    Ok(next)
}

/// The name at which the links of a path end, whatever stands there.
///
/// Refused as `next_name` is, and where there are too many links.
pub(crate) fn end_of<R: Files + AllocGlobal>(rt: &R, path: &str) -> io::Result<PathBuf> {
    let mut name = PathBuf::from_str(rt.alloc(), path)?;
    for _ in 0..MOST_LINKS {
        match next_name(rt, &name)? {
            Some(next) => name = next,
            None => return Ok(name),
        }
    }
    Err(io::Error::from(ErrorKind::NotFound))
}
