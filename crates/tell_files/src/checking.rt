//! Checking a file.

ghost use Rattle.tell_files.specs.Checks.{IsSound, IsUnwritten, MayRefuseCheck, Tells};
ghost use Rattle.tell_checks.specs.Json.{sound_text};
ghost use Rattle.std.specs.Io.KnownBytes.{Appends};
ghost use Rattle.read_files.specs.Reads.{MayRefuseRead};
ghost use Rattle.read_files.specs.declared.fault.ReadFault.TheVariants.{NoMemory};
ghost use Rattle.std.specs.Prelude.{◌≢◌, IfErr, IfSome, OnOk};

use crate::judging::judge;
use crate::whole::read_whole;
use read_files::fault::ReadFault;
use read_source::source::Source;
use std::alloc::Global;
use std::io::Write;
use tell_checks::spot::find_spot;
use tell_checks::telling::{Form, sound_text, told_text};
use tell_lists::fault::ListFault;
use text_io::output::write_all;

/// Writes that a file is sound where it holds a tree: of such a file only what its listing needs is read. Where it
/// holds none, writes the fault's name and the place at which it is, as far as that is found, and gives the fault. That
/// of a fault of the header is found. Either is a line for eyes or one JSON value, as the form says.
///
/// Refused besides: a file that isn't read or has more than 134,217,728 bytes; `NoMemory`, also where the place is
/// looked for, and nothing is written; `Unwritable` where a write fails.
pub fn check_file<S: Source, W: Write>(
    alloc: Global,
    source: &mut S,
    form: Form<'_>,
    writer: &mut W,
) -> Result<(), ListFault>
    ensures sound { OnOk result
        (IfSome (S.bytes source.old) (λ file. IsSound file form.entry (W.contents writer.old)
        (W.contents writer.new))) }
    ensures refused { IfErr result (λ fault. IfSome (S.bytes source.old) (λ file. MayRefuseCheck file fault)) }
    ensures told { IfErr result
        (λ fault. IfSome (S.bytes source.old) (λ file. Tells file form.entry fault (W.contents writer.old)
        (W.contents writer.new))) }
{
    match judge(alloc, source) {
        Ok(None) => write_sound(alloc, form, writer),
        Ok(Some(fault)) => Err(tell(alloc, source, form, fault, writer)),
        Err(fault) => Err(ListFault::Input(fault)),
    }
}

/// Writes that a file is sound.
fn write_sound<W: Write>(alloc: Global, form: Form<'_>, writer: &mut W) -> Result<(), ListFault>
    ensures written { OnOk result (Appends (W.contents writer.old) (W.contents writer.new) (sound_text form.entry)) }
    ensures refused { IfErr result (λ fault. IsUnwritten fault (W.contents writer.old) (W.contents writer.new)) }
{
    let Ok(text) = sound_text(alloc, form) else {
        return Err(ListFault::NoMemory);
    };
    match write_all(writer, &text) {
        Ok(()) => Ok(()),
        Err(_) => Err(ListFault::Unwritable),
    }
}

/// Writes the fault for which a file was refused, and gives what the check ends with. Want of memory is no fault of the
/// file, and nothing is written then.
fn tell<S: Source, W: Write>(
    alloc: Global,
    source: &mut S,
    form: Form<'_>,
    fault: ReadFault,
    writer: &mut W,
) -> ListFault
    ensures told { IfSome (S.bytes source.old)
        (λ file. Tells file form.entry result (W.contents writer.old) (W.contents writer.new)) }
    ensures ends { IfSome (S.bytes source.old) (λ file. MayRefuseRead file fault → MayRefuseCheck file result) }
{
    match fault {
        ReadFault::NoMemory => ListFault::Read(ReadFault::NoMemory),
        _ => tell_fault(alloc, source, form, fault, writer),
    }
}

/// The same of a fault of the file, which is read whole.
fn tell_fault<S: Source, W: Write>(
    alloc: Global,
    source: &mut S,
    form: Form<'_>,
    fault: ReadFault,
    writer: &mut W,
) -> ListFault
    requires its_own { fault ≢ NoMemory }
    ensures told { IfSome (S.bytes source.old)
        (λ file. Tells file form.entry result (W.contents writer.old) (W.contents writer.new)) }
    ensures ends { IfSome (S.bytes source.old) (λ file. MayRefuseRead file fault → MayRefuseCheck file result) }
{
    let file = match read_whole(alloc, source) {
        Ok(file) => file,
        Err(fault) => return ListFault::Input(fault),
    };
    tell_spot(alloc, &file, form, fault, writer)
}

/// Writes a fault of these bytes, and where it is.
fn tell_spot<W: Write>(
    alloc: Global,
    file: &[u8],
    form: Form<'_>,
    fault: ReadFault,
    writer: &mut W,
) -> ListFault
    requires its_own { fault ≢ NoMemory }
    ensures told { Tells file.now form.entry result (W.contents writer.old) (W.contents writer.new) }
    ensures ends { MayRefuseRead file.now fault → MayRefuseCheck file.now result }
{
    let Ok(spot) = find_spot(alloc, file, fault) else {
        return ListFault::NoMemory;
    };
    let Ok(text) = told_text(alloc, form, &fault, &spot) else {
        return ListFault::NoMemory;
    };
    match write_all(writer, &text) {
        Ok(()) => ListFault::Read(fault),
        Err(_) => ListFault::Unwritable,
    }
}
