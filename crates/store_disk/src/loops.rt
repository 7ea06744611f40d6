//! Whole reads and writes, and cuts, from calls that may do less than they are asked.

ghost use Rattle.store_model.specs.Crash.{CutShort, Elapses, Follows, InArea, IsWithin, Torn};
ghost use Rattle.store_model.specs.Image.{Image, bytes_of, changed, put};
ghost use Rattle.store_disk.specs.Sound.{StaysSound, WritesSound};
ghost use Rattle.std.specs.Prelude.{◌≡◌, ◌<◌, ◌≤◌, ◌+◌, ◌-◌, ◌++◌, IfOk, OnOk, drop, false, length, take, true};

use crate::disk_files::DiskFiles;
use std::io::{self, ErrorKind};
use store_model::area::Area;

/// Fills the buffer with an area's bytes from an offset on. Where the area ends before, the call fails.
pub(crate) fn read_whole<F: DiskFiles>(
    files: &mut F,
    area: Area,
    at: u64,
    into: &mut [u8],
) -> io::Result<()>
    ensures bytes { F.follows_model
        → OnOk result (into.new ≡ take (length into.old) (drop at (bytes_of area (F.reads files.old)))) }
    ensures same { F.follows_model → OnOk result (F.reads files.new ≡ F.reads files.old) }
    ensures crash { F.follows_model → IsWithin (F.may_leave files.old) (F.may_leave files.new) }
    ensures time { F.follows_model → Elapses (F.moment files.old) (F.moment files.new) (F.left_since files.old)
        (F.left_since files.new) (F.may_leave files.new) }
    ensures sound { StaysSound F.sync_may_lie F.has_names files.old files.new }
{
    let mut done = 0usize;
    while done < into.len() {
        let more = read_more(files, area, at, done, into)?;
        done += more;
    }
    Ok(())
}

/// Reads behind the bytes of the buffer that are read already, at least one byte.
fn read_more<F: DiskFiles>(
    files: &mut F,
    area: Area,
    at: u64,
    done: usize,
    into: &mut [u8],
) -> io::Result<usize>
    requires { done < length into.old }
    ensures some { IfOk result (λ n. 1 ≤ n) }
    ensures bound { IfOk result (λ n. done + n ≤ length into.old) }
    ensures bytes { F.follows_model
        → IfOk result (λ n. take (done + n) into.new ≡ take done into.old
        ++ take n (drop (at + done) (bytes_of area (F.reads files.old)))) }
    ensures same { F.follows_model → OnOk result (F.reads files.new ≡ F.reads files.old) }
    ensures crash { F.follows_model → IsWithin (F.may_leave files.old) (F.may_leave files.new) }
    ensures time { F.follows_model → Elapses (F.moment files.old) (F.moment files.new) (F.left_since files.old)
        (F.left_since files.new) (F.may_leave files.new) }
    ensures sound { StaysSound F.sync_may_lie F.has_names files.old files.new }
{
    let Some(offset) = at.checked_add(done as u64) else {
        return Err(ErrorKind::UnexpectedEof.into());
    };
    let n = files.read_at(area, offset, &mut into[done..])?;
    if n == 0 {
        return Err(ErrorKind::UnexpectedEof.into());
    }
    Ok(n)
}

/// Writes these bytes over what is there from an offset on, and past the end.
pub(crate) fn write_whole<F: DiskFiles>(
    files: &mut F,
    area: Area,
    at: u64,
    bytes: &[u8],
) -> io::Result<()>
    ensures written { F.follows_model → at ≤ length (bytes_of area (F.reads files.old))
        → OnOk result (F.reads files.new ≡ changed area (put (bytes_of area (F.reads files.old)) at bytes.now)
        (F.reads files.old)) }
    ensures crash { F.follows_model → Follows (InArea area (Torn at (length bytes.now))) (F.may_leave files.old)
        (F.may_leave files.new) }
    ensures time { F.follows_model → Elapses (F.moment files.old) (F.moment files.new) (F.left_since files.old)
        (F.left_since files.new) (F.may_leave files.new) }
    ensures sound { WritesSound F.sync_may_lie F.has_names files.old files.new result }
{
    let mut done = 0usize;
    while done < bytes.len() {
        match write_more(files, area, at, done, bytes) {
            Ok(more) => done += more,
            Err(error) => return Err(error),
        }
    }
    Ok(())
}

/// Writes behind the bytes that are written already, at least one byte.
fn write_more<F: DiskFiles>(
    files: &mut F,
    area: Area,
    at: u64,
    done: usize,
    bytes: &[u8],
) -> io::Result<usize>
    requires { done < length bytes.now }
    ensures some { IfOk result (λ n. 1 ≤ n) }
    ensures bound { IfOk result (λ n. done + n ≤ length bytes.now) }
    ensures written { F.follows_model → at + done ≤ length (bytes_of area (F.reads files.old))
        → IfOk result (λ n. F.reads files.new ≡ changed area
        (put (bytes_of area (F.reads files.old)) (at + done) (take n (drop done bytes.now))) (F.reads files.old)) }
    ensures crash { F.follows_model → Follows (InArea area (Torn (at + done) (length bytes.now - done)))
        (F.may_leave files.old) (F.may_leave files.new) }
    ensures grows { F.follows_model → IsWithin (F.may_leave files.new) (F.may_leave files.old) }
    ensures time { F.follows_model → Elapses (F.moment files.old) (F.moment files.new) (F.left_since files.old)
        (F.left_since files.new) (F.may_leave files.new) }
    ensures sound { WritesSound F.sync_may_lie F.has_names files.old files.new result }
{
    let Some(offset) = at.checked_add(done as u64) else {
        return Err(ErrorKind::FileTooLarge.into());
    };
    match files.write_at(area, offset, &bytes[done..]) {
        Ok(0) => Err(ErrorKind::WriteZero.into()),
        Ok(n) => Ok(n),
        Err(error) => Err(error),
    }
}

/// Cuts an area that is longer to this length.
pub(crate) fn cut_longer<F: DiskFiles>(files: &mut F, area: Area, size: u64) -> io::Result<()>
    ensures cut { F.follows_model
        → OnOk result (F.reads files.new ≡ changed area (take size (bytes_of area (F.reads files.old)))
        (F.reads files.old)) }
    ensures crash { F.follows_model → Follows (InArea area (CutShort size)) (F.may_leave files.old)
        (F.may_leave files.new) }
    ensures time { F.follows_model → Elapses (F.moment files.old) (F.moment files.new) (F.left_since files.old)
        (F.left_since files.new) (F.may_leave files.new) }
    ensures sound { StaysSound F.sync_may_lie F.has_names files.old files.new }
{
    let long = files.length(area)?;
    if long <= size {
        return Ok(());
    }
    files.set_length(area, size)
}

/// Makes an area last, and the names of the files unless they do already. Only where a sync doesn't lie.
pub(crate) fn sync_with_names<F: DiskFiles>(
    files: &mut F,
    area: Area,
    names_synced: bool,
) -> io::Result<()>
    requires { F.sync_may_lie files.old ≡ false }
    ensures durable { F.follows_model → OnOk result ((c : Image) → F.may_leave files.new c
        → bytes_of area c ≡ bytes_of area (F.reads files.old)) }
    ensures same { F.follows_model → OnOk result (F.reads files.new ≡ F.reads files.old) }
    ensures crash { F.follows_model → IsWithin (F.may_leave files.old) (F.may_leave files.new) }
    ensures time { F.follows_model → Elapses (F.moment files.old) (F.moment files.new) (F.left_since files.old)
        (F.left_since files.new) (F.may_leave files.new) }
    ensures sound { OnOk result (F.sync_may_lie files.new ≡ false) }
    ensures named { F.has_names files.old ≡ true → F.has_names files.new ≡ true }
    ensures made { names_synced ≡ false → OnOk result (F.has_names files.new ≡ true) }
{
    files.sync(area)?;
    if names_synced {
        return Ok(());
    }
    files.sync_names()
}
