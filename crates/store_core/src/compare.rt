//! The blocks of two documents that differ, as the journal has them.

ghost use Rattle.store_model.specs.Changes.{bytes_in, change_between, changes_from, spelled};
ghost use Rattle.std.specs.Int.{to_le_bytes, w32};
ghost use Rattle.std.specs.Prelude.{◌≡◌, ◌<◌, ◌≤◌, ◌+◌, ◌-◌, ◌*◌, ◌++◌, List, ℕ, drop, length, replicate, take, ◌^◌};

/// How many bytes of a document are compared at once.
pub(crate) const WINDOW: usize = 65_536;

/// How many blocks these are.
pub(crate) const WINDOW_BLOCKS: usize = 128;

/// Room for all of them in the journal's form, in bytes.
pub(crate) const WINDOW_ENTRIES: usize = 66_048;

/// Puts into `out` the blocks of a document, from the first to before the last, that differ from those of an old one,
/// of which a window from the first block on is given. Gives how many there are.
pub(crate) fn compare(
    window: &[u8],
    document: &[u8],
    first: usize,
    last: usize,
    out: &mut [u8],
) -> usize
    requires range { first ≤ last }
    requires there { 512 * last < length document.now + 512 }
    requires few { last ≤ first + WINDOW_BLOCKS }
    requires small { last ≤ 2 ^ 32 }
    requires room { WINDOW_ENTRIES ≤ length out.old }
    ensures few { result + first ≤ last }
    ensures count { (old : List ℕ) → window.now ≡ take WINDOW (drop (512 * first) old)
        → result ≡ length (changes_from first (last - first) old document.now) }
    ensures spelled { (old : List ℕ) → window.now ≡ take WINDOW (drop (512 * first) old)
        → take (516 * result) out.new ≡ spelled (changes_from first (last - first) old document.now) }
    ensures out { length out.new ≡ length out.old }
{
    let mut count = 0usize;
    let mut number = first;
    while number < last {
        let was = block(window, number - first);
        let now = block(document, number);
        count = compare_block(was, now, number as u32, out, count);
        number += 1;
    }
    count
}

/// Puts a block behind so many others unless its bytes are what they were. Gives how many there are then.
fn compare_block(was: &[u8], now: &[u8], number: u32, out: &mut [u8], count: usize) -> usize
    requires block { length now.now ≤ 512 }
    requires room { 516 * count + 516 ≤ length out.old }
    ensures count { result ≡ count + length (change_between number was.now now.now) }
    ensures few { result ≤ count + 1 }
    ensures put { take (516 * result) out.new ≡ take (516 * count) out.old
        ++ spelled (change_between number was.now now.now) }
    ensures out { length out.new ≡ length out.old }
{
    if was == now {
        return count;
    }
    put_entry(out, 516 * count, number, now);
    count + 1
}

/// The bytes of a document in its block of this number.
fn block(document: &[u8], number: usize) -> &[u8]
    requires { number ≤ 2 ^ 32 }
    ensures { result.now ≡ bytes_in number document.now }
{
    let from = (512 * number).min(document.len());
    let to = (512 * number + 512).min(document.len());
    &document[from..to]
}

/// Puts a block with its number behind what stands in front of an offset.
fn put_entry(out: &mut [u8], at: usize, number: u32, bytes: &[u8])
    requires block { length bytes.now ≤ 512 }
    requires room { at + 516 ≤ length out.old }
    ensures put { take (at + 516) out.new ≡ take at out.old
        ++ (to_le_bytes w32 number ++ (bytes.now ++ replicate (512 - length bytes.now) 0)) }
    ensures out { length out.new ≡ length out.old }
{
    let zeros = [0u8; 512];
    put_at(out, at, &number.to_le_bytes());
    put_at(out, at + 4, bytes);
    put_at(out, at + 4 + bytes.len(), &zeros[..512 - bytes.len()]);
}

/// Puts bytes behind what stands in front of an offset.
pub(crate) fn put_at(out: &mut [u8], at: usize, bytes: &[u8])
    requires { at + length bytes.now ≤ length out.old }
    ensures put { take (at + length bytes.now) out.new ≡ take at out.old ++ bytes.now }
    ensures out { length out.new ≡ length out.old }
{
    out[at..at + bytes.len()].copy_from_slice(bytes);
}
