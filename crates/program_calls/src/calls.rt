//! The calls over files in memory. Each puts its answer at the front of a place `out`, tells in `needed` how many bytes
//! the answer has, and answers `DONE`; `NO_ROOM`, with `needed` told, where the place is too short; else the number of
//! a fault. Bytes in memory are always read, and a place of the caller's is always written to: no fault is told of
//! either.

ghost use Rattle.program_calls.specs.Answers.{Answers, AnswersAt, IsPut};
ghost use Rattle.program_calls.specs.Numbers.{number_name};
ghost use Rattle.program_calls.specs.Calls.{IsCleanOf, IsFileOf, IsGot, IsGotBy, IsListed, IsListedAs, IsMadeOf};
ghost use Rattle.program_calls.specs.Calls.{IsRefusedBy, IsRefusedClean, IsRefusedGet, IsRefusedList, IsRefusedMake};
ghost use Rattle.program_calls.specs.Calls.{IsRefusedText, IsUnread, IsUnwritten, text_line};
ghost use Rattle.cfb_file.specs.Denotes.{Denotes};
ghost use Rattle.cfb_file.specs.Outline.{outline_of};
ghost use Rattle.tell_forms.specs.Listings.{told};
ghost use Rattle.read_outlines.specs.View.{outline_view};
ghost use Rattle.read_outlines.specs.Places.{IsPlaced};
ghost use Rattle.std.specs.Prelude.{◌≡◌, ◌<◌, IfErr, IfOk, List, length, ℕ};
ghost use Rattle.tree_storage.specs.Kept.{kept};
ghost use Rattle.cfb_entries.specs.Tree.{Tree};
ghost use Rattle.tree_descriptions.specs.Texts.{MayRefuseText};

use crate::limit::is_too_big;
use crate::numbers::{
    BAD_PATH, NO_MEMORY, TOO_BIG, directory_number, line_number, number_name, read_number,
    tree_number, write_number,
};
use crate::placing::put;
use cfb_names::name::Name;
use read_files::fault::StreamFault;
use read_files::read::{read_file, read_outline};
use read_outlines::outline::Outline;
use read_queries::queries::read_stream;
use std::alloc::Global;
use tell_forms::asked_listings::Listing;
use text_io::input::InputFault;
use text_spelling::path::Path;
use tree_descriptions::description::{Described, describe};
use tree_descriptions::fault::TextFault;
use tree_storage::tree::Tree as BuiltTree;
use write_files::write::write_file;

/// The outline of a file.
///
/// Refused, by a number: `TOO_BIG` where the file has more than 134,217,728 bytes; as `read_outline`.
fn outline_of(alloc: Global, file: &[u8]) -> Result<Outline, u32>
    ensures outlined { IfOk result (λ o. (t : Tree) × ∥ Denotes file.now t ∥₁ × (outline_view o ≡ outline_of t)) }
    ensures placed { IfOk result (λ o. (t : Tree) × ∥ IsPlaced file.now t o ∥₁) }
    ensures fault { IfErr result (λ number. 1 < number) }
    ensures refused { IfErr result (IsUnread file.now) }
{
    if is_too_big(file) {
        return Err(TOO_BIG);
    }
    match read_outline(alloc, file) {
        Ok(outline) => Ok(outline),
        Err(fault) => Err(read_number(fault)),
    }
}

/// The listing of a file, as it is asked for.
///
/// Refused: `TOO_BIG` where the file has more than 134,217,728 bytes; as `read_outline`; `NO_MEMORY`. One that denotes
/// a tree is refused for these two alone.
pub fn list(alloc: Global, listing: Listing, file: &[u8], out: &mut [u8], needed: &mut usize) -> u32
    ensures { Answers (IsListedAs (told listing) file.now) (IsRefusedList file.now) result out.old out.new needed.new }
{
    *needed = 0;
    let outline = match outline_of(alloc, file) {
        Ok(outline) => outline,
        Err(number) => return number,
    };
    match listing.text(alloc, &outline) {
        Ok(text) => put(&text, out, needed),
        Err(_) => NO_MEMORY,
    }
}

/// The listing of a file in lines, as `list` of the program writes it.
///
/// Refused: as `list`.
pub fn lines(alloc: Global, file: &[u8], out: &mut [u8], needed: &mut usize) -> u32
    ensures { Answers (IsListed file.now) (IsRefusedList file.now) result out.old out.new needed.new }
{
    list(alloc, Listing::Lines, file, out, needed)
}

/// The file of the tree that a description describes.
///
/// Refused: as `make_line`.
pub fn make(alloc: Global, description: &[u8], out: &mut [u8], needed: &mut usize) -> u32
    ensures { Answers (IsMadeOf description.now) (λ number. (line : ℕ) × IsRefusedMake description.now line number)
        result out.old out.new needed.new }
{
    let mut line = 0;
    make_line(alloc, description, out, needed, &mut line)
}

/// The same, and tells in `line` the number of the line that is refused, from 1; 0 where none is.
///
/// Refused: `TOO_BIG` where the description has more than 134,217,728 bytes; `NO_MEMORY`; its first line that is
/// outside the grammar, or else the first that can't be carried out; a tree that doesn't fit into a file.
pub fn make_line(
    alloc: Global,
    description: &[u8],
    out: &mut [u8],
    needed: &mut usize,
    line: &mut usize,
) -> u32
    ensures { AnswersAt (IsMadeOf description.now) (IsRefusedMake description.now) result out.old out.new needed.new
        line.new }
{
    *needed = 0;
    *line = 0;
    let mut source = description;
    match describe(alloc, &mut source) {
        Ok(Described::Whole(tree)) => put_file(alloc, &tree, out, needed),
        Ok(Described::Outline(_)) => TOO_BIG,
        Err(fault) => {
            *line = text_line(fault);
            text_number(fault)
        }
    }
}

/// The line of a fault of a description; 0 where it is of none.
fn text_line(fault: TextFault) -> usize
    ensures { result ≡ text_line fault }
{
    match fault {
        TextFault::Input(_) => 0,
        TextFault::Line(number, _) => number,
    }
}

/// The file of a tree.
fn put_file(alloc: Global, tree: &BuiltTree, out: &mut [u8], needed: &mut usize) -> u32
    requires { needed.old ≡ 0 }
    ensures { Answers (IsFileOf (kept tree.now).now) (IsUnwritten (kept tree.now).now) result out.old out.new
        needed.new }
{
    match write_file(alloc, tree) {
        Ok(file) => put(&file, out, needed),
        Err(fault) => write_number(fault),
    }
}

/// The number of a fault of a description in memory, which is always read.
fn text_number(fault: TextFault) -> u32
    ensures fault { 1 < result }
    ensures told { (text : List ℕ) → MayRefuseText text fault → IsRefusedText text (text_line fault) result }
{
    match fault {
        TextFault::Input(InputFault::TooBig) => TOO_BIG,
        TextFault::Input(_) => NO_MEMORY,
        TextFault::Line(_, fault) => line_number(fault),
    }
}

/// A file of the same tree, and nothing else.
///
/// Refused: as `list`; `TOO_BIG` where the tree doesn't fit into a file.
pub fn clean(alloc: Global, file: &[u8], out: &mut [u8], needed: &mut usize) -> u32
    ensures { Answers (IsCleanOf file.now) (IsRefusedClean file.now) result out.old out.new needed.new }
{
    *needed = 0;
    if is_too_big(file) {
        return TOO_BIG;
    }
    match read_file(alloc, file) {
        Ok(tree) => put_file(alloc, &tree, out, needed),
        Err(fault) => read_number(fault),
    }
}

/// The bytes of the stream at a path, which a word spells as `list` of the program prints it.
///
/// Refused: `BAD_PATH` where the word spells no path; a name of the path that no directory takes; as `list`; where the
/// tree has no stream at the path, as `read_stream`.
pub fn get(alloc: Global, file: &[u8], word: &[u8], out: &mut [u8], needed: &mut usize) -> u32
    ensures { Answers (IsGotBy file.now word.now) (IsRefusedBy file.now word.now) result out.old out.new needed.new }
{
    *needed = 0;
    let path = match Path::parse(alloc, word) {
        Ok(Some(path)) => path,
        Ok(None) => return BAD_PATH,
        Err(_) => return NO_MEMORY,
    };
    match path.names() {
        Ok(names) => get_named(alloc, file, names, out, needed),
        Err(fault) => directory_number(fault),
    }
}

/// The bytes of the stream of these names.
fn get_named(alloc: Global, file: &[u8], names: &[Name], out: &mut [u8], needed: &mut usize) -> u32
    requires { needed.old ≡ 0 }
    ensures { Answers (IsGot file.now names.now) (IsRefusedGet file.now names.now) result out.old out.new needed.new }
{
    if is_too_big(file) {
        return TOO_BIG;
    }
    match read_stream(alloc, file, names) {
        Ok(content) => put(&content, out, needed),
        Err(StreamFault::Read(fault)) => read_number(fault),
        Err(StreamFault::Tree(fault)) => tree_number(fault),
    }
}

/// The name of the fault of a number, as the program prints it; empty for a number of no fault.
pub fn fault_name(number: u32, out: &mut [u8], needed: &mut usize) -> u32
    ensures put { IsPut result out.old out.new (number_name number) }
    ensures needed { needed.new ≡ length (number_name number) }
{
    put(number_name(number).as_bytes(), out, needed)
}
