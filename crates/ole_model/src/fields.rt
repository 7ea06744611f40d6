//! Fields of streams, read from the front of the bytes that are left, with what stands behind them.

ghost use Rattle.std.specs.Prelude.{◌≡◌, ◌≢◌, ◌<◌, ◌^◌, ◌+◌, ◌++◌, IfErr, OnOk, length};
ghost use Rattle.std.specs.Int.{to_le_bytes, w32};
ghost use Rattle.ole_model.specs.Fields.{behind_format, characters, format, map_ok, number, string, string_bytes};
ghost use Rattle.ole_model.specs.declared.fault.OleFault.TheVariants.{NoMemory};

use crate::fault::OleFault;
use std::alloc::AllocError;

/// The marks of a clipboard format that is a number, of the system or of a Macintosh.
const WINDOWS_FORMAT: u32 = 0xffff_ffff;

const MACINTOSH_FORMAT: u32 = 0xffff_fffe;

/// A number in four bytes, least byte first.
pub(crate) fn number(bytes: &[u8]) -> Result<(u32, &[u8]), OleFault>
    ensures read { map_ok (λ f. (f.0, f.1.now)) result ≡ number bytes.now }
    ensures memory { IfErr result (λ fault. fault ≢ NoMemory) }
{
    match bytes.split_first_chunk::<4>() {
        Some((first, rest)) => Ok((u32::from_le_bytes(*first), rest)),
        None => Err(OleFault::Truncated),
    }
}

/// The characters of a string that has so many bytes, of which the last one closes it.
fn characters(size: u32, bytes: &[u8]) -> Result<(&[u8], &[u8]), OleFault>
    ensures read { map_ok (λ f. (f.0.now, f.1.now)) result ≡ characters size bytes.now }
    ensures memory { IfErr result (λ fault. fault ≢ NoMemory) }
{
    let size = size as usize;
    if size == 0 {
        return Ok((&bytes[..0], bytes));
    }
    if bytes.len() < size {
        return Err(OleFault::BadString);
    }
    if bytes[size - 1] != 0 {
        return Err(OleFault::BadString);
    }
    Ok((&bytes[..size - 1], &bytes[size..]))
}

/// A string behind its size (MS-OLEDS 2.1.4).
pub(crate) fn string(bytes: &[u8]) -> Result<(&[u8], &[u8]), OleFault>
    ensures read { map_ok (λ f. (f.0.now, f.1.now)) result ≡ string bytes.now }
    ensures memory { IfErr result (λ fault. fault ≢ NoMemory) }
{
    match number(bytes) {
        Ok((size, rest)) => characters(size, rest),
        Err(fault) => Err(fault),
    }
}

/// What stands behind a clipboard format of this mark.
fn behind_format(mark: u32, bytes: &[u8]) -> Result<&[u8], OleFault>
    ensures read { map_ok (λ f. f.now) result ≡ behind_format mark bytes.now }
    ensures memory { IfErr result (λ fault. fault ≢ NoMemory) }
{
    if mark == 0 {
        return Ok(bytes);
    }
    if mark == MACINTOSH_FORMAT || mark == WINDOWS_FORMAT {
        return match number(bytes) {
            Ok((_, rest)) => Ok(rest),
            Err(fault) => Err(fault),
        };
    }
    match characters(mark, bytes) {
        Ok((_, rest)) => Ok(rest),
        Err(fault) => Err(fault),
    }
}

/// What stands behind a clipboard format (MS-OLEDS 2.3.1).
pub(crate) fn format(bytes: &[u8]) -> Result<&[u8], OleFault>
    ensures read { map_ok (λ f. f.now) result ≡ format bytes.now }
    ensures memory { IfErr result (λ fault. fault ≢ NoMemory) }
{
    match number(bytes) {
        Ok((mark, rest)) => behind_format(mark, rest),
        Err(fault) => Err(fault),
    }
}

/// Adds a number in four bytes, least byte first.
///
/// Refused for want of memory alone.
pub fn push_number(out: &mut Vec<u8>, n: u32) -> Result<(), AllocError>
    ensures { OnOk result (out.new.items ≡ out.old.items ++ to_le_bytes w32 n) }
{
    out.extend_from_slice(&n.to_le_bytes())?;
    Ok(())
}

/// Adds a string behind its size.
pub(crate) fn push_string(out: &mut Vec<u8>, text: &[u8]) -> Result<(), AllocError>
    requires { length text.now + 1 < 2 ^ 32 }
    ensures { OnOk result (out.new.items ≡ out.old.items ++ string_bytes text.now) }
{
    if text.is_empty() {
        return push_number(out, 0);
    }
    push_number(out, text.len() as u32 + 1)?;
    out.extend_from_slice(text)?;
    out.push(0)?;
    Ok(())
}
