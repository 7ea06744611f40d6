//! Whether a disk holds a document.

ghost use Rattle.store_model.specs.Crash.{Counts, Quiet};
ghost use Rattle.std.specs.Prelude.{◌≡◌, ◌≤◌, ◌+◌, ◌↔◌, IfOk, IsTrue, OnOk, drop, length, take};

use crate::calls::{length_of, read_into};
use store_model::area::Area;
use store_model::disk::{Disk, DiskFailure};

/// How many bytes are read at once.
const PIECE: u64 = 65_536;

/// Whether the document area has these bytes and no more. They are read a piece at a time, and no memory is taken.
pub(crate) fn holds_document<D: Disk>(disk: &mut D, document: &[u8]) -> Result<bool, DiskFailure>
    ensures holds { D.follows_model → IfOk result (λ is. IsTrue is ↔ (D.reads disk.old).document ≡ document.now) }
    ensures same { D.follows_model → OnOk result (D.reads disk.new ≡ D.reads disk.old) }
    ensures quiet { D.follows_model → Quiet D.may_leave D.moment D.left_since disk.old disk.new }
    ensures count { Counts (D.failed disk.old) (D.failed disk.new) result }
{
    let all = document.len() as u64;
    let size = length_of(disk, Area::Document)?;
    if size != all {
        return Ok(false);
    }
    let mut piece = [0u8; PIECE as usize];
    let mut done = 0u64;
    while done < all {
        let many = (all - done).min(PIECE);
        let is = holds_piece(
            disk,
            done,
            &document[done as usize..(done + many) as usize],
            &mut piece[..many as usize],
        )?;
        if !is {
            return Ok(false);
        }
        done += many;
    }
    Ok(true)
}

/// Whether the document area has these bytes from an offset on. The buffer is as long as they are.
fn holds_piece<D: Disk>(
    disk: &mut D,
    at: u64,
    bytes: &[u8],
    piece: &mut [u8],
) -> Result<bool, DiskFailure>
    requires long { length bytes.now ≡ length piece.old }
    requires within { D.follows_model → at + length piece.old ≤ length (D.reads disk.old).document }
    ensures holds { D.follows_model
        → IfOk result (λ is. IsTrue is ↔ take (length bytes.now) (drop at (D.reads disk.old).document)
        ≡ bytes.now) }
    ensures same { D.follows_model → OnOk result (D.reads disk.new ≡ D.reads disk.old) }
    ensures quiet { D.follows_model → Quiet D.may_leave D.moment D.left_since disk.old disk.new }
    ensures count { Counts (D.failed disk.old) (D.failed disk.new) result }
    ensures piece { length piece.new ≡ length piece.old }
{
    read_into(disk, Area::Document, at, piece)?;
    Ok(&*piece == bytes)
}
