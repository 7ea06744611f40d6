//! The paths of entries.

ghost use Rattle.cfb_entries.specs.Entries.{IsNamed, entry_at};
ghost use Rattle.cfb_names.specs.Names.{IsName};
ghost use Rattle.tell_checks.specs.Spots.{IsPathIn, IsPathOf};
ghost use Rattle.std.specs.Prelude.{◌≡◌, ◌++◌, IfOk, IfSome, OnOk, string_bytes};
ghost use Rattle.text_words.specs.Spelled.{name_text};

use cfb_names::fault::DirFault;
use cfb_names::name::Name;
use read_directories::entries::Entries;
use std::alloc::{AllocError, Global};
use tell_entries::directory::read_directory;
use text_spelling::writing::push_name;

/// The name of an entry other than the root, where it can be read.
fn name_at(entries: &Entries<'_>, id: u32) -> Option<Name>
    ensures named { IfSome result (IsNamed (entry_at entries.now.directory id)) }
    ensures valid { IfSome result IsName }
{
    if id == 0 {
        return None;
    }
    match entries.entry(id) {
        Ok(entry) => Some(entry.name),
        Err(_) => None,
    }
}

/// Adds a name to a path.
fn push_part(path: &mut Vec<u8>, name: &Name) -> Result<(), AllocError>
    ensures { OnOk result (path.new.items ≡ path.old.items ++ name_text name.now) }
{
    push_name(path, name.as_bytes())
}

/// The path of the entry to which a way leads that isn't the root, in a directory with these entries, as far as names
/// can be read.
fn path_in(alloc: Global, entries: &Entries<'_>, way: &[u32]) -> Result<Option<Vec<u8>>, AllocError>
    ensures { IfOk result (λ v. IfSome v (λ path. IsPathIn entries.now.directory way.now path.items)) }
{
    let mut path = Vec::new(alloc);
    for k in 0..way.len() {
        let Some(name) = name_at(entries, way[k]) else {
            return Ok(Some(path));
        };
        push_part(&mut path, &name)?;
        if k + 1 == way.len() {
            return Ok(Some(path));
        }
        path.push(b'/')?;
    }
    Ok(None)
}

/// A path as text, where it has a name. All names are ASCII.
fn text_of(path: Vec<u8>) -> Option<String>
    ensures { IfSome result (λ text. string_bytes text ≡ path.items) }
{
    if path.is_empty() {
        return None;
    }
    match String::from_utf8(path) {
        Ok(text) => Some(text),
        Err(_) => None,
    }
}

/// The path of the entry of a file to which a way leads, as far as names can be read. None where no name is read, and
/// where the way leads to the root.
pub(crate) fn path_of(alloc: Global, file: &[u8], way: &[u32]) -> Result<Option<String>, AllocError>
    ensures { IfOk result (λ p. IfSome p (λ path. IsPathOf file.now way.now (string_bytes path))) }
{
    let found = read_directory(alloc, file)?;
    let Some(directory) = found else {
        return Ok(None);
    };
    path_by(alloc, &directory.bytes, way)
}

/// The same in the directory of these bytes.
fn path_by(alloc: Global, directory: &[u8], way: &[u32]) -> Result<Option<String>, AllocError>
    ensures { IfOk result (λ p. IfSome p (λ path. IsPathIn directory.now way.now (string_bytes path))) }
{
    let entries = match Entries::load(alloc, directory) {
        Ok(entries) => entries,
        Err(DirFault::NoMemory) => return Err(AllocError),
        Err(_) => return Ok(None),
    };
    let read = path_in(alloc, &entries, way)?;
    match read {
        Some(path) => Ok(text_of(path)),
        None => Ok(None),
    }
}
