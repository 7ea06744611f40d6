//! Making a folder of a compound file.

ghost use Rattle.folder_commands.specs.Extracting.{Extracts, IsLate, MayStop, of_folder_fault, of_source_fault};
ghost use Rattle.folder_commands.specs.declared.planning.Planned.{Planned};
ghost use Rattle.std.specs.Prelude.{Some, ◌<◌, ◌≡◌, ◌≤◌, ◌⊎◌, IfErr, IfOk, IfSome, OnOk, length, slice_get};
ghost use Rattle.std.specs.Vec.{vec_len};
ghost use Rattle.text_io.specs.Input.{most};

use crate::chosen::TreePath;
use crate::fault::{ExtractFault, Stop};
use crate::folder::{Folder, FolderFault};
use crate::making::make_all;
use crate::path::FolderPath;
use crate::planning::{Planned, plan_asked};
use read_source::source::Source;
use std::alloc::Global;
use write_cleaned::moving_fault::SourceFault;
use write_cleaned::reading::open;
use write_cleaned::window::Window;

/// Makes a folder of what paths ask for of the tree that a compound file holds: a folder for each storage, and a file
/// for each stream, under their names as a folder can hold them. Asked for is what is on or below one of the paths;
/// without a path, all. Gives how many were made, the folder itself among them. Of the file what tells of the tree is
/// read first; each stream is copied from where it lies, a piece of at most 65,536 bytes at a time.
///
/// Refused: a file that isn't read, has more than 134,217,728 bytes or denotes no tree, and the first path at which
/// nothing stands, where nothing is made; the first folder or file that can't be made, or `Cut` where the file isn't
/// read further for it: then those before it, in the order in which the tree is listed, were made.
pub fn extract_file<S: Source, F: Folder>(
    alloc: Global,
    source: &mut S,
    paths: &[TreePath],
    folder: &mut F,
) -> Result<usize, Stop>
    ensures extracted { IfOk result (λ count. IfSome (S.bytes source.old) (λ file. Extracts paths.now file
        (F.made folder.old) (F.made folder.new) count)) }
    ensures few { OnOk result (IfSome (S.bytes source.old) (λ file. length file ≤ most)) }
    ensures stopped { IfErr result (λ stop. IfSome (S.bytes source.old) (λ file. MayStop paths.now file
        (F.made folder.old) (F.made folder.new) stop.made stop.fault)) }
    ensures unmade { IfErr result (λ stop. IsLate stop.fault ⊎ ((stop.made ≡ 0) × (folder.new ≡ folder.old))) }
{
    let opened = match open(alloc, source) {
        Ok(opened) => opened,
        Err(fault) => return Err(unmade(of_source(fault))),
    };
    let planned = match plan_asked(alloc, &opened.outline, paths) {
        Ok(planned) => planned,
        Err(fault) => return Err(unmade(fault)),
    };
    let mut window = match Window::new(alloc) {
        Ok(window) => window,
        Err(_) => return Err(unmade(ExtractFault::NoMemory)),
    };
    match make_all(alloc, source, &opened.tables, &mut window, &planned, folder) {
        Ok(()) => Ok(planned.len()),
        Err((made, fault)) => Err(Stop {
            made,
            fault: of_folder(path_at(planned, made), fault),
        }),
    }
}

/// A stop before anything was made.
fn unmade(fault: ExtractFault) -> Stop
    ensures made { result.made ≡ 0 }
    ensures fault { result.fault ≡ fault }
{
    Stop { made: 0, fault }
}

/// A fault of a file that is opened.
fn of_source(fault: SourceFault) -> ExtractFault
    ensures { result ≡ of_source_fault fault }
{
    match fault {
        SourceFault::Input(fault) => ExtractFault::Input(fault),
        SourceFault::Read(fault) => ExtractFault::Read(fault),
    }
}

/// A fault at what has this path in a folder.
fn of_folder(path: FolderPath, fault: FolderFault) -> ExtractFault
    ensures { result ≡ of_folder_fault path fault }
{
    match fault {
        FolderFault::Unreadable => ExtractFault::Cut,
        _ => ExtractFault::Entry(path, fault),
    }
}

/// The path of what is planned at a place of a list.
fn path_at(mut planned: Vec<Planned>, at: usize) -> FolderPath
    requires { at < vec_len planned }
    ensures { (p : Planned) → slice_get planned.items at ≡ Some p → result ≡ p.path }
{
    let Planned { path, what } = planned.swap_remove(at);
    drop(what);
    path
}
