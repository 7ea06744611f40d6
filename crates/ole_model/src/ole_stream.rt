//! The stream `\1Ole` of an embedded object (MS-OLEDS 2.3.3).

ghost use Rattle.std.specs.Prelude.{◌≡◌};
ghost use Rattle.ole_model.specs.Fields.{map_ok};
ghost use Rattle.ole_model.specs.OleStreams.{ole_bytes, ole_read};

use crate::fault::OleFault;

/// The version of the stream.
const VERSION: u32 = 0x0200_0001;

/// What `\1Ole` says of an object: that it is embedded, and no link.
#[derive(Clone, Copy)]
pub struct OleStream;

/// The stream as it is written: the version, and zeros.
const BYTES: [u8; 20] = [1, 0, 0, 2, 0, 0, 0, 0, 0, 0, 0, 0, 0, 0, 0, 0, 0, 0, 0, 0];

impl OleStream {
    /// Reads the stream. It takes no memory.
    ///
    /// Refused, in this order: `Truncated` below 20 bytes; `BadVersion` for another version than 0x02000001; `Linked`
    /// where bit 0 of the flags is set.
    pub fn read(bytes: &[u8]) -> Result<OleStream, OleFault>
        ensures { map_ok (λ _. tt) result ≡ ole_read bytes.now }
    {
        if bytes.len() < 20 {
            return Err(OleFault::Truncated);
        }
        let version = u32::from_le_bytes([bytes[0], bytes[1], bytes[2], bytes[3]]);
        if version != VERSION {
            return Err(OleFault::BadVersion);
        }
        let flags = u32::from_le_bytes([bytes[4], bytes[5], bytes[6], bytes[7]]);
        if flags % 2 == 1 {
            return Err(OleFault::Linked);
        }
        Ok(OleStream)
    }

    /// The bytes of the stream, its flags zero. It takes no memory.
    pub fn write(&self) -> [u8; 20]
        ensures { result ≡ ole_bytes }
    {
        BYTES
    }
}
