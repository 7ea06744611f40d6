//! The stream `\1CompObj` (MS-OLEDS 2.3.8).

ghost use Rattle.std.specs.Prelude.{◌≡◌, ◌≢◌, ◌<◌, ◌^◌, ◌+◌, Err, IfErr, IfOk, IsOk, length};
ghost use Rattle.ole_model.specs.CompObjs.{PAST_USER_TYPE, comp_obj_bytes, user_type_behind, user_type_read};
ghost use Rattle.ole_model.specs.Fields.{map_ok};
ghost use Rattle.ole_model.specs.declared.fault.OleFault.TheVariants.{NoMemory};

use crate::fault::OleFault;
use crate::fields::{format, push_number, push_string, string};
use std::alloc::{AllocError, Global};
use tree_values::bytes::Bytes;
use tree_values::class_id::ClassId;

/// The first bytes of the header, before the class id.
const HEADER: [u8; 12] = [
    0x01, 0x00, 0xfe, 0xff, 0x03, 0x0a, 0x00, 0x00, 0xff, 0xff, 0xff, 0xff,
];

/// The user type behind the header, where a clipboard format stands behind it.
#[tactic(auto, unfolding(crate::specs::CompObjs::user_type_behind))]
fn user_type_behind(bytes: &[u8]) -> Result<&[u8], OleFault>
    ensures read { map_ok (λ user. user.now) result ≡ user_type_behind bytes.now }
    ensures memory { IfErr result (λ fault. fault ≢ NoMemory) }
{
    match string(bytes) {
        Ok((user, rest)) => match format(rest) {
            Ok(_) => Ok(user),
            Err(fault) => Err(fault),
        },
        Err(fault) => Err(fault),
    }
}

/// The user type in the stream, which is left where it stands. It takes no memory.
///
/// Refused as by `CompObj::read`.
pub fn user_type(bytes: &[u8]) -> Result<&[u8], OleFault>
    ensures read { map_ok (λ user. user.now) result ≡ user_type_read bytes.now }
    ensures memory { IfErr result (λ fault. fault ≢ NoMemory) }
{
    match bytes.split_first_chunk::<28>() {
        Some((_, rest)) => user_type_behind(rest),
        None => Err(OleFault::Truncated),
    }
}

/// What `\1CompObj` says of an object.
#[derive(Drop)]
pub struct CompObj {
    /// The name of the object's kind, as users see it, in bytes of a code page, without its closing zero.
    pub user_type: Bytes,
}

impl CompObj {
    /// Reads the stream.
    ///
    /// Refused, whichever comes first in the stream: `Truncated` where the 28 bytes of the header, a string's size, or
    /// the mark or the number of the clipboard format are missing; `BadString` where the user type or the name of the
    /// clipboard format passes the end or its last byte isn't zero. Then `NoMemory`.
    pub fn read(alloc: Global, bytes: &[u8]) -> Result<CompObj, OleFault>
        ensures read { result ≢ Err NoMemory → map_ok (λ c. c.user_type) result ≡ user_type_read bytes.now }
        ensures wanting { result ≡ Err NoMemory → IsOk (user_type_read bytes.now) }
    {
        match user_type(bytes) {
            Ok(user) => Ok(CompObj {
                user_type: Bytes::from_slice(alloc, user)?,
            }),
            Err(fault) => Err(fault),
        }
    }

    /// The bytes of the stream, with this class id in its header and without a clipboard format.
    ///
    /// The user type has fewer than 4,294,967,295 bytes. Refused for want of memory alone.
    pub fn write(&self, alloc: Global, class: ClassId) -> Result<Bytes, AllocError>
        requires { length self.now.user_type < PAST_USER_TYPE }
        ensures { IfOk result (λ b. b ≡ comp_obj_bytes class self.now.user_type) }
    {
        write_stream(alloc, class, self.user_type.as_slice())
    }
}

/// The bytes of the stream with this class id in its header, without a clipboard format.
///
/// The user type has fewer than 4,294,967,295 bytes. Refused for want of memory alone.
pub fn write_stream(alloc: Global, class: ClassId, user_type: &[u8]) -> Result<Bytes, AllocError>
    requires { length user_type.now < PAST_USER_TYPE }
    ensures { IfOk result (λ b. b ≡ comp_obj_bytes class user_type.now) }
{
    let mut out = Vec::new(alloc);
    out.extend_from_slice(&HEADER)?;
    out.extend_from_slice(class.as_bytes())?;
    push_string(&mut out, user_type)?;
    push_number(&mut out, 0)?;
    push_number(&mut out, 0)?;
    Bytes::from_vec(alloc, out)
}
