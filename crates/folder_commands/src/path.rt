//! Paths in a folder.

ghost use Rattle.folder_commands.specs.Paths.{IsComponent, before, component, joined, last_text};
ghost use Rattle.std.specs.Prelude.{[], ◌++◌, ◌≡◌, IfOk, OnOk};

use cfb_names::name::Name;
use std::alloc::{AllocError, Global};
use std::marker::Model;
use text_spelling::writing::push_name;

/// A path in a folder, of the names of storages and of a stream as a folder can hold them, joined by slashes. That of
/// the folder itself is empty. None leads out of the folder.
#[derive(Drop)]
pub struct FolderPath {
    bytes: Vec<u8>,
}

impl Model for FolderPath {
    ghost use Rattle.folder_commands.specs.Paths.{IsInside};
    ghost use Rattle.std.specs.Prelude.{List, ℕ};

    ghost Value = { List ℕ };

    ghost view = { λ p. p.bytes.items };

    ghost invariant = { λ p. IsInside p.bytes.items };
}

impl FolderPath {
    ghost use Rattle.folder_commands.specs.Paths.{IsInside};

    /// The folder itself.
    pub fn top(alloc: Global) -> FolderPath
        ensures { result ≡ [] }
    {
        FolderPath {
            bytes: Vec::new(alloc),
        }
    }

    /// The path of a storage or stream of a name below the one of this path.
    pub fn join(&self, alloc: Global, name: &Name) -> Result<FolderPath, AllocError>
        ensures { IfOk result (λ path. path ≡ joined self.now name.now) }
    {
        let mut bytes = start_below(alloc, &self.bytes)?;
        push_component(&mut bytes, name)?;
        hold(name);
        Ok(FolderPath { bytes })
    }

    /// An equal path.
    pub fn copy(&self, alloc: Global) -> Result<FolderPath, AllocError>
        ensures { IfOk result (λ path. path ≡ self.now) }
    {
        Ok(FolderPath {
            bytes: Vec::from_slice(alloc, &self.bytes)?,
        })
    }

    /// How the path is spelled. It stays inside the folder.
    pub fn as_bytes(&self) -> &[u8]
        ensures spelled { result.now ≡ self.now }
        ensures inside { IsInside self.now }
    {
        &self.bytes
    }
}

/// What stands before a name below a path.
fn start_below(alloc: Global, path: &[u8]) -> Result<Vec<u8>, AllocError>
    ensures { IfOk result (λ text. text.items ≡ before path.now) }
{
    let mut text = Vec::from_slice(alloc, path)?;
    if path.is_empty() {
        return Ok(text);
    }
    text.push(b'/')?;
    Ok(text)
}

/// Writes a name as a folder can hold it.
fn push_component(text: &mut Vec<u8>, name: &Name) -> Result<(), AllocError>
    ensures { OnOk result (text.new.items ≡ text.old.items ++ component name.now) }
{
    match name.as_bytes().split_last() {
        Some((last, front)) => {
            push_name(text, front)?;
            push_last(text, *last)
        }
        None => Ok(()),
    }
}

/// A folder can hold each name: it leads neither to the folder itself nor above it.
fn hold(name: &Name)
    ensures { IsComponent (component name.now) }
{
    // The characters are read for what is promised of them: that the name is valid.
    let _ = name.as_bytes();
}

/// Writes the last byte of a name.
fn push_last(text: &mut Vec<u8>, byte: u8) -> Result<(), AllocError>
    ensures { OnOk result (text.new.items ≡ text.old.items ++ last_text byte) }
{
    if byte == b'.' {
        text.extend_from_slice(b"\\2e".as_slice())?;
        return Ok(());
    }
    push_name(text, &[byte])
}
