//! Sectors that stand one after another in a file.

ghost use Rattle.std.specs.Prelude.{◌+◌, ◌<◌, ◌≡◌, ◌≤◌, length, slice_index, ℕ};

/// The most sectors that are read at once: what is read of a file goes through 65,536 bytes of memory.
const MOST_AT_ONCE: usize = 128;

/// How many sectors from a place in a list on stand one after another in a file, at most `MOST_AT_ONCE`. No clause says
/// that no more do.
pub fn run_length(sectors: &[u32], at: usize) -> usize
    requires { at < length sectors.now }
    ensures some { 0 < result }
    ensures few { result ≤ 128 }
    ensures inside { at + result ≤ length sectors.now }
    ensures in_turn { (k : ℕ) → k < result → slice_index sectors.now (at + k) ≡ slice_index sectors.now at + k }
{
    let mut count = 1;
    while count < MOST_AT_ONCE
        && at + count < sectors.len()
        && sectors[at + count] as usize == sectors[at] as usize + count
    {
        count += 1;
    }
    count
}
