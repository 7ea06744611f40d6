//! Whether what a file's tree doesn't take is zero.

ghost use Rattle.write_zeros.specs.Parts.{AreTaken};
ghost use Rattle.write_zeros.specs.Rest.{AreMarks, AreOwnIn, IsRestZero};
ghost use Rattle.write_zeros.specs.Taken.{AreWithin};
ghost use Rattle.write_zeros.specs.Zeroed.{IsZeroed};
ghost use Rattle.std.specs.List.{Contains};
ghost use Rattle.std.specs.Prelude.{IfOk, IsTrue, List, ℕ};

use crate::entries::{are_unmarked_free, reached};
use crate::marks::mark_all;
use crate::parts::{Parts, parts_of};
use crate::streams::{all_end_in_zeros, mark_streams};
use crate::zeros::are_unmarked_zero;
use cfb_header::header::Header;
use std::alloc::{AllocError, Global};

/// What a file takes.
#[derive(Drop)]
struct Marks {
    ids: Vec<bool>,
    sectors: Vec<bool>,
    minis: Vec<bool>,
}

/// Marks the sectors of the system's own parts.
fn mark_parts(sectors: &mut [bool], parts: &Parts)
    ensures { (taken : List ℕ) → AreOwnIn parts.now taken → AreWithin sectors.old taken → AreWithin sectors.new taken }
{
    mark_all(sectors, &parts.own.fat);
    mark_all(sectors, &parts.own.difat);
    mark_all(sectors, &parts.chains.directory);
    mark_all(sectors, &parts.chains.mini_fat);
    mark_all(sectors, &parts.chains.mini_stream);
}

/// Marks of what the parts of a file take, and of no more.
fn marks_of(alloc: Global, parts: &Parts) -> Result<Marks, AllocError>
    ensures { IfOk result (λ m. (ids longs shorts : List ℕ) → AreTaken parts.now ids longs shorts → Contains ids 0
        → AreOwnIn parts.now longs → AreMarks m ids longs shorts) }
{
    let met = reached(alloc, &parts.chains.entries)?;
    let mut ids = vec![in alloc; false; parts.chains.entries.len() / 128]?;
    let mut sectors = vec![in alloc; false; parts.next.len()]?;
    let mut minis = vec![in alloc; false; parts.next_mini.len()]?;
    mark_all(&mut ids, &met);
    mark_parts(&mut sectors, parts);
    mark_streams(&mut sectors, &mut minis, parts, &met);
    Ok(Marks {
        ids,
        sectors,
        minis,
    })
}

/// Whether what isn't marked is zero, and what lies behind the ends of streams.
fn is_rest_zero(file: &[u8], parts: &Parts, marks: &Marks) -> bool
    ensures { IsTrue result → IsRestZero file.now parts.now marks.now }
{
    if !are_unmarked_zero(file, 512, 512, &marks.sectors) {
        return false;
    }
    if !are_unmarked_zero(&parts.shorts, 0, 64, &marks.minis) {
        return false;
    }
    if !are_unmarked_free(&parts.chains.entries, &marks.ids) {
        return false;
    }
    all_end_in_zeros(file, parts)
}

/// Whether what the tree of a compound file doesn't take is zero. What is told of a file that denotes no tree is of no
/// matter.
pub fn is_zeroed(alloc: Global, file: &[u8]) -> Result<bool, AllocError>
    ensures { IfOk result (λ is. IsTrue is → IsZeroed file.now) }
{
    let Ok(header) = Header::read(file) else {
        return Ok(false);
    };
    let parts = parts_of(alloc, &header, file)?;
    let marks = marks_of(alloc, &parts)?;
    Ok(is_rest_zero(file, &parts, &marks))
}
