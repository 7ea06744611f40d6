//! All bytes of a file.

ghost use Rattle.std.specs.Prelude.{◌≡◌, ◌≤◌, IfErr, IfOk, IfSome, drop, length, take};
ghost use Rattle.text_io.specs.Input.{MayRefuseInput, most};

use read_source::source::Source;
use std::alloc::Global;
use text_io::input::InputFault;

/// The most bytes that a file may have.
const MOST: u64 = 134_217_728;

/// So many bytes of a file, from the first on.
fn read_front<S: Source>(alloc: Global, source: &mut S, size: usize) -> Result<Vec<u8>, InputFault>
    ensures bytes { IfOk result (λ v. IfSome (S.bytes source.old) (λ file. v.items ≡ take size (drop 0 file))) }
    ensures len { IfOk result (λ v. length v.items ≡ size) }
    ensures refused { IfErr result (λ fault. IfSome (S.bytes source.old) (λ file. MayRefuseInput file fault)) }
{
    let Ok(mut bytes) = vec![in alloc; 0; size] else {
        return Err(InputFault::NoMemory);
    };
    match source.read_at(0, bytes.as_mut_slice()) {
        Ok(()) => Ok(bytes),
        Err(_) => Err(InputFault::Unreadable),
    }
}

/// All bytes of a file.
///
/// Refused: a file that isn't read or has more than 134,217,728 bytes, and `NoMemory`.
pub(crate) fn read_whole<S: Source>(alloc: Global, source: &mut S) -> Result<Vec<u8>, InputFault>
    ensures whole { IfOk result (λ bytes. IfSome (S.bytes source.old) (λ file. bytes.items ≡ file)) }
    ensures few { IfOk result (λ bytes. length bytes.items ≤ most) }
    ensures refused { IfErr result (λ fault. IfSome (S.bytes source.old) (λ file. MayRefuseInput file fault)) }
{
    let Ok(size) = source.size() else {
        return Err(InputFault::Unreadable);
    };
    if size > MOST {
        return Err(InputFault::TooBig);
    }
    match read_front(alloc, source, size as usize) {
        Ok(bytes) => Ok(bytes),
        Err(fault) => Err(fault),
    }
}
