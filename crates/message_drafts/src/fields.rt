//! The fields of a body that stand before its blobs.

ghost use Rattle.message_drafts.specs.Drafts.{IsField, IsLong, IsStreamField, need};
ghost use Rattle.std.specs.Prelude.{◌++◌, ◌≡◌, ◌≤◌, ◌<◌, ◌+◌, length, take};

use cfb_names::name::{Name, named};
use message_bodies::body::number_in;

/// How many bytes a field has, of which these came: a stream's name and length, or where none is to come, the picture's
/// length.
pub(crate) fn need(left: usize, held: &[u8]) -> usize
    ensures { result ≡ need left held.now }
{
    if left == 0 {
        return 4;
    }
    match held {
        [] => 1,
        [n, ..] => *n as usize + 5,
    }
}

/// Puts bytes behind those of a field, as many as it lacks: how many.
pub(crate) fn hold(held: &mut [u8; 36], len: usize, need: usize, bytes: &[u8]) -> usize
    requires fits { (len < need) × (need ≤ 36) }
    requires some { 0 < length bytes.now }
    ensures some { (0 < result) × (result ≤ length bytes.now) × (len + result ≤ need) }
    ensures held { take (len + result) held.new ≡ take len held.old ++ take result bytes.now }
{
    let n = bytes.len().min(need - len);
    held[len..len + n].copy_from_slice(&bytes[..n]);
    n
}

// A stream's name of n bytes, and its length.
fn stream_in(n: usize, rest: &[u8]) -> Option<(Name, usize)>
    requires { length rest.now ≡ n + 4 }
    ensures { IsStreamField result n rest.now }
{
    if n < 1 || n > 31 {
        return None;
    }
    let (front, cells) = rest.split_at(n);
    let len = number_in(cells) as usize;
    match named(front) {
        Ok(name) => Some((name, len)),
        Err(_) => None,
    }
}

/// A stream's name and length, in a field that is whole.
pub(crate) fn stream_field(xs: &[u8]) -> Option<(Name, usize)>
    requires { IsLong xs.now }
    ensures { IsField result xs.now }
{
    match xs {
        [] => None,
        [n, rest @ ..] => stream_in(*n as usize, rest),
    }
}
