//! The library for other languages: the calls of `program_calls` under the names of C (`olecon.h`).
#![tactic(auto)]

ghost use Rattle.program_calls.specs.Answers.{Answers, AnswersAt, IsPut};
ghost use Rattle.program_calls.specs.Calls.{IsCleanOf, IsGotBy, IsListed, IsListedAs, IsMadeOf, IsRefusedBy};
ghost use Rattle.program_calls.specs.Calls.{IsRefusedClean, IsRefusedList, IsRefusedMake};
ghost use Rattle.tell_checks.specs.declared.telling.Form.TheVariants as form;
ghost use Rattle.program_calls.specs.Checks.{IsChecked, IsRefusedCheck};
ghost use Rattle.program_calls.specs.Edits.{IsEdited, IsRefusedEdit};
ghost use Rattle.program_calls.specs.Numbers.{number_name};
ghost use Rattle.tell_forms.specs.Json.{json_listed};
ghost use Rattle.tell_forms.specs.Placed.{placed_view};
ghost use Rattle.std.specs.Prelude.{◌≡◌, length, ℕ};

use program_calls::{calls, checking, editing};
use std::alloc::Global;
use tell_checks::telling::Form;
use tell_forms::asked_listings::Listing;

/// The listing of a file in lines.
#[unsafe(no_mangle)]
pub extern "C" fn olecon_list(alloc: Global, file: &[u8], out: &mut [u8], needed: &mut usize) -> u32
    ensures { Answers (IsListed file.now) (IsRefusedList file.now) result out.old out.new needed.new }
{
    calls::lines(alloc, file, out, needed)
}

/// The listing of a file as one JSON value.
#[unsafe(no_mangle)]
pub extern "C" fn olecon_list_json(
    alloc: Global,
    file: &[u8],
    out: &mut [u8],
    needed: &mut usize,
) -> u32
    ensures { Answers (IsListedAs (λ o. json_listed (placed_view o)) file.now) (IsRefusedList file.now) result
        out.old out.new needed.new }
{
    calls::list(alloc, Listing::Json, file, out, needed)
}

/// The bytes of the stream at a path of a file.
#[unsafe(no_mangle)]
pub extern "C" fn olecon_get(
    alloc: Global,
    file: &[u8],
    path: &[u8],
    out: &mut [u8],
    needed: &mut usize,
) -> u32
    ensures { Answers (IsGotBy file.now path.now) (IsRefusedBy file.now path.now) result out.old out.new needed.new }
{
    calls::get(alloc, file, path, out, needed)
}

/// The file that a description describes.
#[unsafe(no_mangle)]
pub extern "C" fn olecon_make(
    alloc: Global,
    description: &[u8],
    out: &mut [u8],
    needed: &mut usize,
) -> u32
    ensures { Answers (IsMadeOf description.now) (λ number. (line : ℕ) × IsRefusedMake description.now line number)
        result out.old out.new needed.new }
{
    calls::make(alloc, description, out, needed)
}

/// The file that a description describes, or the line of it that is refused.
#[unsafe(no_mangle)]
pub extern "C" fn olecon_make_line(
    alloc: Global,
    description: &[u8],
    out: &mut [u8],
    needed: &mut usize,
    line: &mut usize,
) -> u32
    ensures { AnswersAt (IsMadeOf description.now) (IsRefusedMake description.now) result out.old out.new needed.new
        line.new }
{
    calls::make_line(alloc, description, out, needed, line)
}

/// A file of the same storages and streams, and nothing else.
#[unsafe(no_mangle)]
pub extern "C" fn olecon_clean(
    alloc: Global,
    file: &[u8],
    out: &mut [u8],
    needed: &mut usize,
) -> u32
    ensures { Answers (IsCleanOf file.now) (IsRefusedClean file.now) result out.old out.new needed.new }
{
    calls::clean(alloc, file, out, needed)
}

/// The file of the tree that the lines of a text make of another file's.
#[unsafe(no_mangle)]
pub extern "C" fn olecon_edit(
    alloc: Global,
    file: &[u8],
    lines: &[u8],
    out: &mut [u8],
    needed: &mut usize,
) -> u32
    ensures { Answers (IsEdited file.now lines.now) (λ number. (line : ℕ)
        × IsRefusedEdit file.now lines.now line number) result out.old out.new needed.new }
{
    editing::edit(alloc, file, lines, out, needed)
}

/// The file of the tree that the lines of a text make of another file's, or the line that is refused.
#[unsafe(no_mangle)]
pub extern "C" fn olecon_edit_line(
    alloc: Global,
    file: &[u8],
    lines: &[u8],
    out: &mut [u8],
    needed: &mut usize,
    line: &mut usize,
) -> u32
    ensures { AnswersAt (IsEdited file.now lines.now) (IsRefusedEdit file.now lines.now) result out.old out.new
        needed.new line.new }
{
    editing::edit_line(alloc, file, lines, out, needed, line)
}

/// That a file is sound, or its fault and where that is, in a line.
#[unsafe(no_mangle)]
pub extern "C" fn olecon_check(
    alloc: Global,
    file: &[u8],
    out: &mut [u8],
    needed: &mut usize,
    fault: &mut u32,
) -> u32
    ensures { Answers (IsChecked file.now form.Line fault.new) (IsRefusedCheck file.now fault.new) result out.old
        out.new needed.new }
{
    checking::check(alloc, file, Form::Line, out, needed, fault)
}

/// The same as one JSON value.
#[unsafe(no_mangle)]
pub extern "C" fn olecon_check_json(
    alloc: Global,
    file: &[u8],
    out: &mut [u8],
    needed: &mut usize,
    fault: &mut u32,
) -> u32
    ensures { Answers (IsChecked file.now form.Json fault.new) (IsRefusedCheck file.now fault.new) result out.old
        out.new needed.new }
{
    checking::check(alloc, file, Form::Json, out, needed, fault)
}

/// The name of the fault of a number.
#[unsafe(no_mangle)]
pub extern "C" fn olecon_fault_name(number: u32, out: &mut [u8], needed: &mut usize) -> u32
    ensures put { IsPut result out.old out.new (number_name number) }
    ensures needed { needed.new ≡ length (number_name number) }
{
    calls::fault_name(number, out, needed)
}
