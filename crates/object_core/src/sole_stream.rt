//! Contents that are held in one stream.

ghost use Rattle.object_core.specs.Objects.{sole_bytes};
ghost use Rattle.tree_streams.specs.declared.streams.NamedStream.{NamedStream};
ghost use Rattle.std.specs.Option.{option_map};
ghost use Rattle.std.specs.Prelude.{[], ◌∷◌, ◌≡◌, IfErr, IfOk};

use crate::fault::EmbedFault;
use cfb_names::name::{Name, key};
use std::alloc::Global;
use tree_streams::streams::{NamedStream, Streams};
use tree_values::bytes::Bytes;

/// The bytes of the only stream, where there is just one, and its name is this one, in whatever case.
pub fn bytes<'a>(streams: &'a Streams, name: &Name) -> Option<&'a [u8]>
    ensures { option_map (λ b. b.now) result ≡ sole_bytes name.now streams.now }
{
    match streams.as_slice() {
        [stream] if key(&stream.name).cmp(&key(name)).is_eq() => Some(stream.bytes.as_slice()),
        _ => None,
    }
}

/// Just one stream, of this name, with these bytes.
///
/// Refused for want of memory alone.
pub fn streams(alloc: Global, name: Name, bytes: Vec<u8>) -> Result<Streams, EmbedFault>
    ensures streams { IfOk result (λ s. s ≡ record { name = name; bytes = bytes.items } ∷ []) }
    ensures refused { IfErr result (λ e. e ≡ EmbedFault.NoMemory) }
{
    let mut streams = Streams::new(alloc);
    let Ok(bytes) = Bytes::from_vec(alloc, bytes) else {
        return Err(EmbedFault::NoMemory);
    };
    match streams.push(NamedStream { name, bytes }) {
        Ok(()) => Ok(streams),
        Err(_) => Err(EmbedFault::NoMemory),
    }
}
