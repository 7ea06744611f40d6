//! What is to be made in a folder of what paths choose of an outline.

ghost use Rattle.folder_commands.specs.Plan.{folder_plan, plan};
ghost use Rattle.read_outlines.specs.View.{shown, shown_part};
ghost use Rattle.read_outlines.specs.declared.outline.Place as place;
ghost use Rattle.folder_commands.specs.Chosen.{AllStand, asked, chosen, chosen_plan, picked_plan};
ghost use Rattle.folder_commands.specs.Extracting.{MayRefusePlan};
ghost use Rattle.folder_commands.specs.Planned.{entries_of, entry_at};
ghost use Rattle.std.specs.Prelude.{[], ◌++◌, ◌≡◌, ◌∷◌, IfErr, IfOk, List, OnOk, ℕ};

use crate::chosen::{TreePath, left_of};
use crate::fault::ExtractFault;
use crate::finding::find_all;
use crate::path::FolderPath;
use cfb_names::name::{Name, key};
use read_outlines::outline::{Outline, Part, Place};
use std::alloc::{AllocError, Global};
use tree_values::class_id::ClassId;

/// What is to be made at a path of a folder.
#[derive(Drop)]
pub(crate) struct Planned {
    pub(crate) path: FolderPath,
    pub(crate) what: What,
}

/// What it is made for.
#[derive(Drop)]
pub(crate) enum What {
    /// A folder for a storage of this class id and these state bits.
    Storage(ClassId, u32),
    /// A file for the stream that lies here.
    Stream(Place),
}

/// What is to be made of what paths ask for of an outline: the folder itself, and a folder for each storage and a file
/// for each stream that is on or below one of them, in the order in which they are listed, so each behind the folder
/// that it stands in.
///
/// Refused: `Missing` for the first path at which nothing stands; `NoMemory`.
pub(crate) fn plan_asked(
    alloc: Global,
    outline: &Outline,
    paths: &[TreePath],
) -> Result<Vec<Planned>, ExtractFault>
    ensures planned { IfOk result (λ planned. (content : place.Place → List ℕ)
        → entries_of content planned.items ≡ plan (asked paths.now (shown content outline.now))) }
    ensures there { OnOk result ((content : place.Place → List ℕ) → AllStand paths.now (shown content outline.now)) }
    ensures refused { IfErr result (λ fault. (content : place.Place → List ℕ)
        → MayRefusePlan paths.now (shown content outline.now) fault) }
{
    match find_all(outline, paths) {
        Ok(()) => {}
        Err((number, fault)) => return Err(ExtractFault::Missing(number, fault)),
    }
    match plan_any(alloc, outline, paths) {
        Ok(planned) => Ok(planned),
        Err(_) => Err(ExtractFault::NoMemory),
    }
}

/// What is to be made of what paths ask for, of all where there is none.
fn plan_any(
    alloc: Global,
    outline: &Outline,
    paths: &[TreePath],
) -> Result<Vec<Planned>, AllocError>
    ensures { IfOk result (λ planned. (content : place.Place → List ℕ)
        → entries_of content planned.items ≡ plan (asked paths.now (shown content outline.now))) }
{
    if paths.is_empty() {
        return plan_chosen(alloc, outline, &[TreePath::new(alloc, &[])?]);
    }
    plan_chosen(alloc, outline, paths)
}

/// What is to be made of what paths choose.
fn plan_chosen(
    alloc: Global,
    outline: &Outline,
    paths: &[TreePath],
) -> Result<Vec<Planned>, AllocError>
    ensures { IfOk result (λ planned. (content : place.Place → List ℕ)
        → entries_of content planned.items ≡ plan (chosen paths.now (shown content outline.now))) }
{
    let mut planned = Vec::new(alloc);
    push_storage(alloc, &mut planned, &FolderPath::top(alloc), outline, paths)?;
    Ok(planned)
}

/// Adds what is made of what paths choose of a storage, whose folder has this path.
#[cycle(planning)]
fn push_storage(
    alloc: Global,
    planned: &mut Vec<Planned>,
    path: &FolderPath,
    outline: &Outline,
    paths: &[TreePath],
) -> Result<(), AllocError>
    ensures { OnOk result ((content : place.Place → List ℕ)
        → entries_of content planned.new.items
        ≡ entries_of content planned.old.items ++ folder_plan path.now (chosen paths.now (shown content outline.now))) }
{
    let top = What::Storage(outline.class, outline.state);
    push_planned(planned, path.copy(alloc)?, top)?;
    for part in &outline.parts {
        let left = left_of(alloc, paths, &key(&part.0))?;
        push_part(alloc, planned, path, part, &left)?;
    }
    Ok(())
}

/// Adds what is made of a part of the storage whose folder has this path, given what is left of the paths below it.
#[cycle(planning)]
fn push_part(
    alloc: Global,
    planned: &mut Vec<Planned>,
    within: &FolderPath,
    part: &(Name, Part),
    left: &[TreePath],
) -> Result<(), AllocError>
    ensures { OnOk result ((content : place.Place → List ℕ)
        → entries_of content planned.new.items
        ≡ entries_of content planned.old.items
        ++ chosen_plan within.now left.now (part.now.0, shown_part content part.now.1)) }
{
    if left.is_empty() {
        return Ok(());
    }
    push_picked(alloc, planned, within, part, left)
}

/// Adds what is made of a part for which some path is left.
#[cycle(planning)]
fn push_picked(
    alloc: Global,
    planned: &mut Vec<Planned>,
    within: &FolderPath,
    part: &(Name, Part),
    left: &[TreePath],
) -> Result<(), AllocError>
    ensures { OnOk result ((content : place.Place → List ℕ)
        → entries_of content planned.new.items
        ≡ entries_of content planned.old.items
        ++ picked_plan within.now left.now (part.now.0, shown_part content part.now.1)) }
{
    let path = within.join(alloc, &part.0)?;
    match &part.1 {
        Part::Stream(place) => push_planned(planned, path, What::Stream(*place)),
        Part::Storage(inner) => push_storage(alloc, planned, &path, inner, left),
    }
}

/// Adds what is to be made at a path.
fn push_planned(planned: &mut Vec<Planned>, path: FolderPath, what: What) -> Result<(), AllocError>
    ensures { OnOk result ((content : place.Place → List ℕ)
        → entries_of content planned.new.items
        ≡ entries_of content planned.old.items ++ entry_at content path what ∷ []) }
{
    planned.push(Planned { path, what })?;
    Ok(())
}
