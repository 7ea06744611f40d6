//! The ends of a story of moments: what is read before it, and what is written behind it. The world in which the
//! moments happen is the caller's.

ghost use Rattle.text_worlds.specs.Moments.{moments_read};
ghost use Rattle.text_worlds.specs.Simulation.{MayRefuseSimulate, stop_text};
ghost use Rattle.std.specs.Io.KnownBytes.{Appends};
ghost use Rattle.std.specs.Prelude.{◌≡◌, ◌<◌, ◌++◌, IfErr, IfOk, IfSome, Ok, OnOk};

use crate::answers::push_stop;
use crate::fault::SimulateFault;
use crate::moments::parse_moments;
use std::alloc::{AllocError, Global};
use std::io::{Read, Write};
use text_io::input::read_all;
use text_io::output::write_all;
use world_model::event::Stop;
use world_model::moment::Moment;

/// The moments that a text spells.
///
/// Refused: an input that isn't read or has more than 134,217,728 bytes; the first line that spells no moment.
pub fn read_moments<R: Read>(alloc: Global, reader: &mut R) -> Result<Vec<Moment>, SimulateFault>
    ensures read { IfOk result (λ moments. IfSome (R.remaining reader.old)
        (λ text. moments_read text ≡ Ok moments.items)) }
    ensures refused { IfErr result (λ fault. IfSome (R.remaining reader.old) (λ text. MayRefuseSimulate text fault)) }
{
    let text = match read_all(alloc, reader) {
        Ok(text) => text,
        Err(fault) => return Err(SimulateFault::Input(fault)),
    };
    match parse_moments(alloc, &text) {
        Ok(moments) => Ok(moments),
        Err((line, fault)) => Err(SimulateFault::Line(line, fault)),
    }
}

/// Writes the moment before which a story stopped, if it did.
pub fn push_end(
    alloc: Global,
    out: &mut Vec<u8>,
    taken: usize,
    stop: Option<Stop>,
) -> Result<(), AllocError>
    requires { IfSome stop (λ stop. taken < usize.MAX) }
    ensures { OnOk result (out.new.items ≡ out.old.items ++ stop_text taken stop) }
{
    match stop {
        Some(stop) => push_stop(alloc, out, taken + 1, stop),
        None => Ok(()),
    }
}

/// Writes what is printed of a story.
///
/// Refused: `Unwritable` where a write fails.
pub fn write_told<W: Write>(writer: &mut W, out: &[u8]) -> Result<(), SimulateFault>
    ensures written { OnOk result (Appends (W.contents writer.old) (W.contents writer.new) out.now) }
    ensures refused { IfErr result (λ fault. fault ≡ SimulateFault.Unwritable) }
{
    match write_all(writer, out) {
        Ok(()) => Ok(()),
        Err(_) => Err(SimulateFault::Unwritable),
    }
}
