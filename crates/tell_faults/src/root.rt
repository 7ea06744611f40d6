//! What the first entry of a directory says of the mini stream.

ghost use Rattle.cfb_bytes.specs.Bytes.{u32_at};
ghost use Rattle.cfb_entries.specs.Entries.{entry_at, first_of, size_of};
ghost use Rattle.std.specs.Prelude.{◌+◌, ◌++◌, ◌-◌, ◌<◌, ◌≡◌, ◌≤◌, length, replicate};

use cfb_bytes::numbers::read_u32;

/// The bytes of an entry.
const ENTRY: usize = 128;

/// Fewer bytes than an entry has, with zeros behind them.
fn padded(bytes: &[u8]) -> [u8; ENTRY]
    requires { length bytes.now < 128 }
    ensures { result ≡ bytes.now ++ replicate (128 - length bytes.now) 0 }
{
    let mut entry = [0; ENTRY];
    entry[..bytes.len()].copy_from_slice(bytes);
    entry
}

/// The number at a place of the first entry of a directory of these bytes, zeros standing for what isn't there.
#[tactic(auto, unfolding(cfb_bytes::specs::Bytes::block))]
fn root_number(directory: &[u8], at: usize) -> u32
    requires { at + 4 ≤ 128 }
    ensures { result ≡ u32_at (entry_at directory.now 0) at }
{
    if directory.len() >= ENTRY {
        return read_u32(directory, at);
    }
    read_u32(&padded(directory), at)
}

/// Where the mini stream begins and how many bytes it has, as the first entry of a directory of these bytes says.
pub fn root_of(directory: &[u8]) -> (u32, u32)
    ensures { (result.0 ≡ first_of (entry_at directory.now 0)) × (result.1 ≡ size_of (entry_at directory.now 0)) }
{
    (root_number(directory, 116), root_number(directory, 120))
}
