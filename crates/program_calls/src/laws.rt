//! Laws of what the calls tell of a file that denotes a tree and has no more bytes than are taken: whatever they refuse
//! it for, it is no fault of the file.

ghost use Rattle.cfb_file.specs.Denotes.{Denotes};
ghost use Rattle.cfb_file.specs.Refusals.{writable};
ghost use Rattle.read_outlines.specs.Streams.{stream_at};
ghost use Rattle.tell_checks.specs.declared.telling.Form.{Form};
ghost use Rattle.program_calls.specs.Checks.{IsChecked};
ghost use Rattle.program_calls.specs.Calls.{IsRefusedClean, IsRefusedGet, IsRefusedList};
ghost use Rattle.std.specs.Prelude.{◌≡◌, ◌≤◌, IsOk, List, Ok, length, ℕ};
ghost use Rattle.cfb_entries.specs.Tree.{Tree};
ghost use Rattle.text_io.specs.Input.{most};

/// It is refused a listing for want of memory alone.
pub fn sound_files_are_listed()
    ensures { (file : List ℕ) (t : Tree) (number : ℕ) → Denotes file t → length file ≤ most
        → IsRefusedList file number → number ≡ 2 }
{}

/// Where a file holds its tree, it is refused a clean one for want of memory alone.
pub fn sound_files_are_cleaned()
    ensures { (file : List ℕ) (t : Tree) (number : ℕ) → Denotes file t → length file ≤ most → writable t ≡ Ok tt
        → IsRefusedClean file number → number ≡ 2 }
{}

/// A stream of its tree is refused for want of memory alone.
pub fn streams_are_got()
    ensures { (file : List ℕ) (path : List (List ℕ)) (t : Tree) (number : ℕ) → Denotes file t → length file ≤ most
        → IsOk (stream_at path t) → IsRefusedGet file path number → number ≡ 2 }
{}

/// No fault of it is told by a check.
pub fn sound_files_are_checked()
    ensures { (file : List ℕ) (form : Form) (t : Tree) (told : ℕ) (bytes : List ℕ) → Denotes file t
        → IsChecked file form told bytes → told ≡ 0 }
{}
