//! How much may be stored of an object.

ghost use Rattle.std.specs.Prelude.{◌≡◌, ◌+◌, false, nat_le};
ghost use Rattle.tree_streams.specs.Limits.{COMP_OBJ, OLE, OLE_PRES, has_ole_name, is_ole_name, is_within, total};

use crate::stored::Stored;
use crate::streams::NamedStream;
use cfb_names::name::{Name, named};

/// The greatest number of streams of an object's own.
pub const MOST_STREAMS: usize = 8;

/// The greatest number of bytes in an object's streams and its picture together.
pub const MOST_BYTES: usize = 262_144;

/// The name of the stream `\1Ole` (MS-OLEDS 2.3.3).
pub fn ole() -> Name
    ensures { result ≡ OLE }
{
    match named(b"\x01Ole") {
        Ok(name) => name,
        Err(_) => unreachable!(),
    }
}

/// The name of the stream `\1CompObj` (MS-OLEDS 2.3.8).
pub fn comp_obj() -> Name
    ensures { result ≡ COMP_OBJ }
{
    match named(b"\x01CompObj") {
        Ok(name) => name,
        Err(_) => unreachable!(),
    }
}

/// The name of the stream `\2OlePres000` (MS-OLEDS 2.3.4).
pub fn ole_pres() -> Name
    ensures { result ≡ OLE_PRES }
{
    match named(b"\x02OlePres000") {
        Ok(name) => name,
        Err(_) => unreachable!(),
    }
}

// Whether a name begins as the three OLE streams' do, which hardly another one does.
fn begins_low(name: &Name) -> bool
    ensures { result ≡ false → is_ole_name name.now ≡ false }
{
    let first = name.as_bytes()[0];
    first == 1 || first == 2
}

/// Whether a name is one of the three OLE streams', in upper or lower case.
pub fn is_ole_name(name: &Name) -> bool
    ensures { result ≡ is_ole_name name.now }
{
    if !begins_low(name) {
        return false;
    }
    name.cmp(&ole()).is_eq() || name.cmp(&comp_obj()).is_eq() || name.cmp(&ole_pres()).is_eq()
}

// Whether one of the streams has such a name.
fn has_ole_name(streams: &[NamedStream]) -> bool
    ensures { result ≡ has_ole_name streams.now }
{
    for stream in streams {
        if is_ole_name(&stream.name) {
            return true;
        }
    }
    false
}

// Whether the bytes of the streams and so many more are within the limit.
fn has_room(streams: &[NamedStream], more: usize) -> bool
    ensures { result ≡ nat_le (total streams.now + more) MOST_BYTES }
{
    if more > MOST_BYTES {
        return false;
    }
    let mut left = MOST_BYTES - more;
    for stream in streams {
        let len = stream.bytes.len();
        if len > left {
            return false;
        }
        left -= len;
    }
    true
}

/// Whether a content may be stored: at most 8 streams, none of them named as one of the three OLE streams, and at most
/// 262,144 bytes in streams and picture together.
pub fn is_within(stored: &Stored) -> bool
    ensures { result ≡ is_within stored.now }
{
    stored.streams.len() <= MOST_STREAMS
        && has_room(stored.streams.as_slice(), stored.picture.len())
        && !has_ole_name(stored.streams.as_slice())
}
