//! Making what is planned in a folder, an entry after another.

ghost use Rattle.folder_commands.specs.Plan.{file};
ghost use Rattle.folder_commands.specs.Made.{Adds};
ghost use Rattle.folder_commands.specs.Planned.{entries_of, entry_at};
ghost use Rattle.std.specs.Prelude.{[], ◌*◌, ◌<◌, ◌≡◌, ◌∷◌, IfErr, List, OnErr, OnOk, Some, length, take, ℕ};
ghost use Rattle.write_cleaned.specs.Windows.{IsWindow};
ghost use Rattle.read_streams.specs.Tables.{read_by};

use crate::folder::{Folder, FolderFault};
use crate::path::FolderPath;
use crate::planning::{Planned, What};
use crate::seeking::seek;
use read_outlines::outline::Place;
use read_source::source::Source;
use read_streams::fault::CopyFault;
use read_streams::tables::Tables;
use std::alloc::Global;
use write_cleaned::window::Window;

/// A fault of a stream whose bytes are sought.
fn of_copy(fault: CopyFault) -> FolderFault {
    match fault {
        CopyFault::Unreadable => FolderFault::Unreadable,
        CopyFault::Unwritable => FolderFault::Unwritable,
        CopyFault::NoMemory => FolderFault::NoMemory,
    }
}

/// Makes a file of the stream that lies at a place.
fn make_stream<S: Source, F: Folder>(
    alloc: Global,
    source: &mut S,
    tables: &Tables,
    window: &mut Window,
    path: &FolderPath,
    place: Place,
    folder: &mut F,
) -> Result<(), FolderFault>
    requires whole { (m : ℕ) × (length tables.now.mini_fat.items ≡ 4 * m) }
    ensures made { OnOk result ((a : List ℕ) → S.bytes source.old ≡ Some a → length a ≡ tables.now.len
        → IsWindow a tables.now window.old
        → Adds (F.made folder.old) (F.made folder.new) (file path.now (read_by a tables.now place) ∷ [])
        × IsWindow a tables.now window.new) }
    ensures unmade { OnErr result (F.made folder.new ≡ F.made folder.old) }
    ensures kept { S.bytes source.new ≡ S.bytes source.old }
{
    let stream = match seek(alloc, source, tables, window, place) {
        Ok(stream) => stream,
        Err(fault) => return Err(of_copy(fault)),
    };
    folder.make_file(path, source, tables.len, &stream)
}

/// Makes what is planned at a path.
fn make_entry<S: Source, F: Folder>(
    alloc: Global,
    source: &mut S,
    tables: &Tables,
    window: &mut Window,
    planned: &Planned,
    folder: &mut F,
) -> Result<(), FolderFault>
    requires whole { (m : ℕ) × (length tables.now.mini_fat.items ≡ 4 * m) }
    ensures made { OnOk result ((a : List ℕ) → S.bytes source.old ≡ Some a → length a ≡ tables.now.len
        → IsWindow a tables.now window.old
        → Adds (F.made folder.old) (F.made folder.new)
        (entry_at (read_by a tables.now) planned.now.path planned.now.what ∷ []) × IsWindow a tables.now window.new) }
    ensures unmade { OnErr result (F.made folder.new ≡ F.made folder.old) }
    ensures kept { S.bytes source.new ≡ S.bytes source.old }
{
    match &planned.what {
        What::Storage(class, state) => folder.make_folder(&planned.path, class, *state),
        What::Stream(place) => make_stream(
            alloc,
            source,
            tables,
            window,
            &planned.path,
            *place,
            folder,
        ),
    }
}

/// Makes all that is planned, in turn. Of the mini stream a window is held, which moves on as streams ask for what it
/// hasn't.
///
/// Refused: the first entry that isn't made, with how many were made before it.
pub(crate) fn make_all<S: Source, F: Folder>(
    alloc: Global,
    source: &mut S,
    tables: &Tables,
    window: &mut Window,
    planned: &[Planned],
    folder: &mut F,
) -> Result<(), (usize, FolderFault)>
    requires whole { (m : ℕ) × (length tables.now.mini_fat.items ≡ 4 * m) }
    ensures all { OnOk result ((a : List ℕ) → S.bytes source.old ≡ Some a → length a ≡ tables.now.len
        → IsWindow a tables.now window.old
        → Adds (F.made folder.old) (F.made folder.new) (entries_of (read_by a tables.now) planned.now)) }
    ensures some { IfErr result (λ stop. (stop.0 < length planned.now) × ((a : List ℕ) → S.bytes source.old ≡ Some a
        → length a ≡ tables.now.len → IsWindow a tables.now window.old
        → Adds (F.made folder.old) (F.made folder.new) (take stop.0 (entries_of (read_by a tables.now) planned.now)))) }
{
    for (count, next) in planned.iter().enumerate() {
        match make_entry(alloc, source, tables, window, next, folder) {
            Ok(()) => {}
            Err(fault) => return Err((count, fault)),
        }
    }
    Ok(())
}
