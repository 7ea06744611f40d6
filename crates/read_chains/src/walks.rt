//! Walks along the entries of a table, which mark the sectors that they meet.

ghost use Rattle.cfb_header.specs.Bytes.{u32_at};
ghost use Rattle.read_chains.specs.Walks.{IsUnmarked, IsWalk};
ghost use Rattle.std.specs.Prelude.{◌*◌, ◌<◌, ◌≤◌, ◌≡◌, length, slice_index};

use cfb_bytes::numbers::read_u32;

/// A walk along entries.
#[derive(Clone, Copy)]
pub(crate) struct Walk {
    /// How many sectors it marked.
    pub(crate) count: usize,
    /// What comes behind them: no sector of the table, or one that is marked.
    pub(crate) stop: u32,
}

/// Marks a sector and those behind it, so many at most, as far as each one's entry in bytes names the sector behind it
/// and that isn't marked.
fn mark_row(bytes: &[u8], first: usize, most: usize, used: &mut [bool]) -> Walk
    requires whole { 4 * length used.old ≤ length bytes.now }
    requires free { IsUnmarked used.old first }
    requires some { 0 < most }
    requires fits { most ≤ length used.old }
    ensures walk { IsWalk (λ n. u32_at bytes.now (4 * n)) first used.old used.new result.count result.stop }
    ensures some { 0 < result.count }
    ensures few { result.count ≤ most }
{
    let end = used.len().min(first + most);
    let mut last = first;
    while last + 1 < end && read_u32(bytes, 4 * last) as usize == last + 1 && !used[last + 1] {
        used[last] = true;
        last += 1;
    }
    used[last] = true;
    let stop = read_u32(bytes, 4 * last);
    Walk {
        count: last + 1 - first,
        stop,
    }
}

/// Marks the sectors from one on, each followed by the one that its entry in bytes names, until one comes that isn't in
/// the table or is marked. Of sectors in a row the next one is known before the entry is read, so they are taken at
/// once.
pub(crate) fn mark_by_bytes(bytes: &[u8], start: u32, used: &mut [bool]) -> Walk
    requires { 4 * length used.old ≤ length bytes.now }
    ensures { IsWalk (λ n. u32_at bytes.now (4 * n)) start used.old used.new result.count result.stop }
{
    let mut stop = start;
    let mut count = 0;
    // A walk meets no sector twice, since it marks what it meets: the count only shows that it ends.
    while (stop as usize) < used.len() && !used[stop as usize] && count < used.len() {
        let most = used.len() - count;
        let row = mark_row(bytes, stop as usize, most, used);
        stop = row.stop;
        count += row.count;
    }
    Walk { count, stop }
}

/// Marks the sectors from one on, each followed by the one that its entry among numbers names, until one comes that
/// isn't in the table or is marked.
pub(crate) fn mark_by_numbers(numbers: &[u32], start: u32, used: &mut [bool]) -> Walk
    requires { length used.old ≡ length numbers.now }
    ensures { IsWalk (slice_index numbers.now) start used.old used.new result.count result.stop }
{
    let mut stop = start;
    let mut count = 0;
    while (stop as usize) < used.len() && !used[stop as usize] && count < used.len() {
        let n = stop as usize;
        used[n] = true;
        stop = numbers[n];
        count += 1;
    }
    Walk { count, stop }
}
