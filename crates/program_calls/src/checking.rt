//! Checking a file in memory.

ghost use Rattle.tell_checks.specs.Json.{sound_text};
ghost use Rattle.program_calls.specs.Answers.{Answers};
ghost use Rattle.program_calls.specs.Checks.{IsChecked, IsRefusedCheck, IsTold};
ghost use Rattle.cfb_file.specs.Denotes.{Denotes};
ghost use Rattle.std.specs.Prelude.{◌≡◌, IfErr, OnOk};
ghost use Rattle.cfb_entries.specs.Tree.{Tree};
ghost use Rattle.read_files.specs.Reads.{MayRefuseRead};

use crate::limit::is_too_big;
use crate::numbers::{NO_MEMORY, TOO_BIG, read_number};
use crate::placing::put;
use read_files::fault::ReadFault;
use read_files::read::read_outline;
use std::alloc::Global;
use tell_checks::spot::find_spot;
use tell_checks::telling::{Form, sound_text, told_text};

/// What `check` of the program writes of a file: that it is sound, or its fault and the place at which it is, as far as
/// that is found. `fault` tells the number of the file's fault, and 0 of a file that is sound or wasn't judged.
///
/// Refused: `TOO_BIG` where the file has more than 134,217,728 bytes; `NO_MEMORY`.
pub fn check(
    alloc: Global,
    file: &[u8],
    form: Form<'_>,
    out: &mut [u8],
    needed: &mut usize,
    fault: &mut u32,
) -> u32
    ensures { Answers (IsChecked file.now form.entry fault.new) (IsRefusedCheck file.now fault.new) result out.old
        out.new needed.new }
{
    *needed = 0;
    *fault = 0;
    if is_too_big(file) {
        return TOO_BIG;
    }
    match judge(alloc, file) {
        Ok(()) => put_sound(alloc, form, out, needed),
        Err(ReadFault::NoMemory) => NO_MEMORY,
        Err(told) => {
            *fault = read_number(told);
            put_fault(alloc, file, form, told, out, needed)
        }
    }
}

/// Whether a file denotes a tree.
///
/// Refused: as `read_outline`.
fn judge(alloc: Global, file: &[u8]) -> Result<(), ReadFault>
    ensures sound { OnOk result ((t : Tree) × ∥ Denotes file.now t ∥₁) }
    ensures refused { IfErr result (MayRefuseRead file.now) }
{
    let fault = match read_outline(alloc, file) {
        Ok(_) => return Ok(()),
        Err(fault) => fault,
    };
    Err(fault)
}

/// That a file is sound.
fn put_sound(alloc: Global, form: Form<'_>, out: &mut [u8], needed: &mut usize) -> u32
    requires { needed.old ≡ 0 }
    ensures { Answers (λ bytes. bytes ≡ sound_text form.entry) (λ number. number ≡ 2) result out.old out.new
        needed.new }
{
    match sound_text(alloc, form) {
        Ok(text) => put(&text, out, needed),
        Err(_) => NO_MEMORY,
    }
}

/// A fault of a file, and its place.
fn put_fault(
    alloc: Global,
    file: &[u8],
    form: Form<'_>,
    fault: ReadFault,
    out: &mut [u8],
    needed: &mut usize,
) -> u32
    requires { needed.old ≡ 0 }
    ensures { Answers (IsTold file.now form.entry fault) (λ number. number ≡ 2) result out.old out.new needed.new }
{
    let Ok(spot) = find_spot(alloc, file, fault) else {
        return NO_MEMORY;
    };
    match told_text(alloc, form, &fault, &spot) {
        Ok(text) => put(&text, out, needed),
        Err(_) => NO_MEMORY,
    }
}
