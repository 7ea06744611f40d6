//! Ways from the root of a directory to its entries.

ghost use Rattle.tell_entries.specs.Ways.{IsWay, end_of};
ghost use Rattle.cfb_faults.specs.Faults.{IsChild};
ghost use Rattle.std.specs.List.{All, Contains};
ghost use Rattle.std.specs.Prelude.{[], ◌≡◌, ◌≢◌, IfOk, OnOk, true};

use std::alloc::{AllocError, Global};

/// The entry to which a way leads.
pub fn end_of(way: &[u32]) -> u32
    ensures { result ≡ end_of way.now }
{
    if way.is_empty() {
        return 0;
    }
    way[way.len() - 1]
}

/// Whether an entry is neither the root nor on a way.
fn is_new(way: &[u32], id: u32) -> bool
    ensures { result ≡ true → (id ≢ 0) × (Contains way.now id → ⊥) }
{
    if id == 0 {
        return false;
    }
    !way.contains(&id)
}

/// Adds to ways that to a child of the storage to which a way leads, if it doesn't stand on it already.
fn push_way(
    alloc: Global,
    directory: &[u8],
    ways: &mut Vec<Vec<u32>>,
    way: &[u32],
    child: u32,
) -> Result<(), AllocError>
    requires way { IsWay directory.now way.now }
    requires child { IsChild directory.now (end_of way.now) child }
    requires ways { All (λ w. IsWay directory.now w.items) ways.old.items }
    ensures { OnOk result (All (λ w. IsWay directory.now w.items) ways.new.items) }
{
    if is_new(way, child) {
        let mut next = Vec::from_slice(alloc, way)?;
        next.push(child)?;
        ways.push(next)?;
        return Ok(());
    }
    Ok(())
}

/// The same of all its children.
pub fn push_ways(
    alloc: Global,
    directory: &[u8],
    ways: &mut Vec<Vec<u32>>,
    way: &[u32],
    children: &[u32],
) -> Result<(), AllocError>
    requires way { IsWay directory.now way.now }
    requires children { All (IsChild directory.now (end_of way.now)) children.now }
    requires ways { All (λ w. IsWay directory.now w.items) ways.old.items }
    ensures { OnOk result (All (λ w. IsWay directory.now w.items) ways.new.items) }
{
    for child in children {
        push_way(alloc, directory, ways, way, *child)?;
    }
    Ok(())
}

/// The way to the root alone.
pub fn root_way(alloc: Global) -> Result<Vec<Vec<u32>>, AllocError>
    ensures { IfOk result (λ v. All (λ w. w.items ≡ []) v.items) }
{
    let mut ways = Vec::new(alloc);
    ways.push(Vec::new(alloc))?;
    Ok(ways)
}
