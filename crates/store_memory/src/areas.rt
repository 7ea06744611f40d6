//! The bytes of a disk in memory, and the calls that change them or make them last.

ghost use Rattle.store_memory.specs.Calls.{image_of};
ghost use Rattle.store_model.specs.Image.{bytes_of, changed, put};
ghost use Rattle.store_memory.specs.declared.areas.Call.TheVariants.{Cut, Sync, Write};
ghost use Rattle.std.specs.Prelude.{◌≡◌, ◌<◌, ◌≤◌, ◌++◌, [], ◌∷◌, IfOk, OnErr, OnOk, Vec, length, take, vec_capacity};
ghost use Rattle.std.specs.Prelude.{vec_len, ℕ};
ghost use Rattle.std.specs.declared.alloc.Global.{Global};

use std::alloc::{AllocError, Global};
use store_model::area::Area;

/// A call that changes an area, or makes it last.
#[derive(Drop)]
pub enum Call {
    /// These bytes were written to an area, from this offset on.
    Write(Area, u64, Vec<u8>),
    /// An area was cut to this length.
    Cut(Area, u64),
    /// An area was synced.
    Sync(Area),
}

/// The bytes of both areas.
#[derive(Drop)]
pub struct Areas {
    /// The document area's.
    pub document: Vec<u8>,
    /// The journal's.
    pub journal: Vec<u8>,
}

impl Areas {
    /// The bytes of one area.
    pub fn bytes(&self, area: Area) -> &[u8]
        ensures { result.now ≡ bytes_of area (image_of self.now) }
    {
        match area {
            Area::Document => &self.document,
            Area::Journal => &self.journal,
        }
    }

    /// Both areas again. A refusal is one of memory.
    pub(crate) fn copy(&self, alloc: Global) -> Result<Areas, AllocError>
        ensures { IfOk result (λ areas. image_of areas ≡ image_of self.now) }
    {
        let document = self.document.to_vec(alloc)?;
        let journal = self.journal.to_vec(alloc)?;
        Ok(Areas { document, journal })
    }

    /// Writes over an area's bytes from an offset on, and past the end.
    fn put(&mut self, area: Area, at: u64, bytes: &[u8]) -> Result<(), AllocError>
        requires { at ≤ length (bytes_of area (image_of self.old)) }
        ensures ok { OnOk result
            (image_of self.new ≡ changed area (put (bytes_of area (image_of self.old)) at bytes.now)
            (image_of self.old)) }
        ensures err { OnErr result (image_of self.new ≡ image_of self.old) }
    {
        match area {
            Area::Document => overwrite(&mut self.document, at as usize, bytes)?,
            Area::Journal => overwrite(&mut self.journal, at as usize, bytes)?,
        }
        Ok(())
    }

    /// Cuts an area that is longer to this length.
    fn cut(&mut self, area: Area, size: u64)
        ensures { image_of self.new ≡ changed area (take size (bytes_of area (image_of self.old))) (image_of self.old) }
    {
        match area {
            Area::Document => self.document.truncate(size as usize),
            Area::Journal => self.journal.truncate(size as usize),
        }
    }
}

/// Writes over bytes from an offset on, and past the end.
fn overwrite(bytes: &mut Vec<u8>, at: usize, new: &[u8]) -> Result<(), AllocError>
    requires { at ≤ length bytes.old.items }
    ensures ok { OnOk result (bytes.new.items ≡ put bytes.old.items at new.now) }
    ensures err { OnErr result (bytes.new.items ≡ bytes.old.items) }
{
    let behind = bytes.len() - at;
    if new.len() < behind {
        bytes[at..at + new.len()].copy_from_slice(new);
        return Ok(());
    }
    bytes.reserve(new.len() - behind)?;
    bytes.truncate(at);
    match bytes.extend_from_slice(new) {
        Ok(()) => Ok(()),
        Err(_) => unreachable!(),
    }
}

/// Adds a call where there is room for it.
fn push(calls: &mut Vec<Call>, call: Call)
    requires { vec_len calls.old < vec_capacity calls.old }
    ensures { calls.new.items ≡ calls.old.items ++ call ∷ [] }
{
    match calls.push(call) {
        Ok(()) => {}
        Err(_) => unreachable!(),
    }
}

/// Writes, and keeps the call. A refusal of memory changes nothing.
pub(crate) fn log_write(
    alloc: Global,
    areas: &mut Areas,
    calls: &mut Vec<Call>,
    area: Area,
    at: u64,
    bytes: &[u8],
) -> Result<(), AllocError>
    requires { at ≤ length (bytes_of area (image_of areas.old)) }
    ensures written { OnOk result
        (image_of areas.new ≡ changed area (put (bytes_of area (image_of areas.old)) at bytes.now)
        (image_of areas.old)) }
    ensures logged { OnOk result ((kept : Vec ℕ Global) × (kept.items ≡ bytes.now)
        × (calls.new.items ≡ calls.old.items ++ Write area at kept ∷ [])) }
    ensures err { OnErr result ((image_of areas.new ≡ image_of areas.old) × (calls.new.items ≡ calls.old.items)) }
{
    let kept = bytes.to_vec(alloc)?;
    calls.reserve(1)?;
    areas.put(area, at, bytes)?;
    push(calls, Call::Write(area, at, kept));
    Ok(())
}

/// Cuts, and keeps the call. A refusal of memory changes nothing.
pub(crate) fn log_cut(
    areas: &mut Areas,
    calls: &mut Vec<Call>,
    area: Area,
    size: u64,
) -> Result<(), AllocError>
    ensures cut { OnOk result (image_of areas.new ≡ changed area (take size (bytes_of area (image_of areas.old)))
        (image_of areas.old)) }
    ensures logged { OnOk result (calls.new.items ≡ calls.old.items ++ Cut area size ∷ []) }
    ensures err { OnErr result ((image_of areas.new ≡ image_of areas.old) × (calls.new.items ≡ calls.old.items)) }
{
    calls.reserve(1)?;
    areas.cut(area, size);
    push(calls, Call::Cut(area, size));
    Ok(())
}

/// Keeps a sync. A refusal of memory changes nothing.
pub(crate) fn log_sync(calls: &mut Vec<Call>, area: Area) -> Result<(), AllocError>
    ensures logged { OnOk result (calls.new.items ≡ calls.old.items ++ Sync area ∷ []) }
    ensures err { OnErr result (calls.new.items ≡ calls.old.items) }
{
    calls.reserve(1)?;
    push(calls, Call::Sync(area));
    Ok(())
}
