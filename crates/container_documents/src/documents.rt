//! The document of a frame: its objects, each with the content that a save counts, and the file that holds them.

ghost use Rattle.std.specs.Prelude.{◌≡◌, ◌≤◌, IfErr, IfOk, Ok, OnOk, is_ok, length, true};
ghost use Rattle.container_model.specs.Saves.{are_objects, document, document_tree, fitting, held_part, held_parts};
ghost use Rattle.container_model.specs.Saves.{is_document, part_of, parts_in};
ghost use Rattle.ole_model.specs.DocOf.{DocOf, is_object};
ghost use Rattle.cfb_file.specs.Denotes.{Denotes};
ghost use Rattle.cfb_file.specs.Limits.{MOST_BYTES};
ghost use Rattle.cfb_file.specs.Refusals.{Refuses, writable};
ghost use Rattle.write_zeros.specs.Zeroed.{IsZeroed};
ghost use Rattle.tree_storage.specs.Kept.{kept};

use crate::room::has_room;
use cfb_file::fault::WriteFault;
use container_checks::contents::kept;
use container_model::answer::{FrameDocument, Part};
use container_model::record::Object;
use ole_model::fault::OleFault;
use ole_streams::doc::{Doc, DocObject, MOST_OBJECTS};
use ole_streams::document_tree::document_tree;
use ole_streams::laws::document_is_read_again;
use std::alloc::{AllocError, Global};
use store_images::image::Image;
use tree_storage::tree::Tree;
use tree_streams::limits::is_within;

/// The first length that a user type can't have, so that its size with the closing zero fits four bytes.
const PAST_USER_TYPE: usize = 0xffff_ffff;

/// An object of a document.
fn part_of(alloc: Global, object: &Object) -> Result<Part, AllocError>
    ensures { IfOk result (λ p. p ≡ part_of object.now) }
{
    Ok(Part {
        object: object.number,
        class: object.class,
        user_type: object.user_type.copy(alloc)?,
        area: object.area,
        content: kept(object).copy(alloc)?,
    })
}

/// The objects of a frame in order, each with the content that a save counts.
///
/// Refused for want of memory alone.
pub fn parts_in(alloc: Global, f: u32, objects: &[Object]) -> Result<Vec<Part>, AllocError>
    ensures { IfOk result (λ v. v.items ≡ parts_in f objects.now) }
{
    let mut parts = Vec::new(alloc);
    for object in objects {
        if object.frame == f {
            parts.push(part_of(alloc, object)?)?;
        }
    }
    Ok(parts)
}

/// How many objects of a frame stand here.
fn count(f: u32, objects: &[Object]) -> usize
    ensures { result ≡ length (held_parts (parts_in f objects.now)) }
{
    let mut count = 0;
    for object in objects {
        if object.frame == f {
            count += 1;
        }
    }
    count
}

/// Whether a document can hold each object of a frame.
fn are_objects(f: u32, objects: &[Object]) -> bool
    ensures { result ≡ are_objects (held_parts (parts_in f objects.now)) }
{
    for object in objects {
        if object.frame == f && !is_object(object) {
            return false;
        }
    }
    true
}

/// Whether a document can hold an object: a content within its limits, and a user type whose size fits its field.
fn is_object(object: &Object) -> bool
    ensures { result ≡ is_object (held_part (part_of object.now)) }
{
    is_within(kept(object)) && object.user_type.len() < PAST_USER_TYPE
}

/// Whether a file can hold the document of a frame, of this session: there are at most 64 objects, each within its
/// limits, and the tree needs no more FAT sectors than a file may have.
pub fn fits(session: u32, f: u32, objects: &[Object]) -> bool
    ensures { result ≡ is_ok (fitting (record { session = session; parts = parts_in f objects.now })) }
{
    count(f, objects) <= MOST_OBJECTS && are_objects(f, objects) && has_room(session, f, objects)
}

/// An object as a document holds it.
fn held(alloc: Global, part: &Part) -> Result<DocObject, AllocError>
    ensures { IfOk result (λ o. o ≡ held_part part.now) }
{
    Ok(DocObject {
        class: part.class,
        user_type: part.user_type.copy(alloc)?,
        area: part.area,
        stored: part.content.copy(alloc)?,
    })
}

// Nothing is left but want of memory.
fn lacking(fault: OleFault) -> AllocError
    requires { fault ≡ OleFault.NoMemory }
{
    match fault {
        OleFault::NoMemory => AllocError,
        _ => unreachable!(),
    }
}

/// The document of this session and these parts, which a document can hold.
///
/// Refused for want of memory alone.
fn document(alloc: Global, session: u32, parts: &[Part]) -> Result<Doc, AllocError>
    requires { is_document (held_parts parts.now) ≡ true }
    ensures { IfOk result (λ d. d ≡ document (record { session = session; parts = parts.now })) }
{
    let mut doc = Doc::new(alloc, session);
    for part in parts {
        match doc.push(held(alloc, part)?) {
            Ok(()) => {}
            Err(fault) => return Err(lacking(fault)),
        }
    }
    Ok(doc)
}

/// The tree of a document that a file can hold (MS-CFB 2): it holds the document.
///
/// Refused for want of memory alone.
fn tree_of(alloc: Global, saved: &FrameDocument) -> Result<Tree, AllocError>
    requires { fitting saved.now ≡ Ok saved.now }
    ensures tree { IfOk result (λ t. (kept t).now ≡ document_tree saved.now) }
    ensures holds { OnOk result (DocOf (document_tree saved.now) (document saved.now)) }
    ensures writable { OnOk result (writable (document_tree saved.now) ≡ Ok tt) }
{
    let doc = document(alloc, saved.session, saved.parts.as_slice())?;
    document_is_read_again();
    let _ = doc.as_slice();
    let tree = document_tree(alloc, doc)?;
    Ok(tree)
}

/// The image of a tree, in the sectors of an older one, if there is any.
///
/// Refused: as `Image::made`.
fn image_over(alloc: Global, tree: &Tree, older: Option<&Image>) -> Result<Image, WriteFault>
    ensures denotes { IfOk result (λ image. ∥ Denotes image (kept tree.now).now ∥₁) }
    ensures zeroed { IfOk result (λ image. IsZeroed image) }
    ensures few { IfOk result (λ image. length image ≤ MOST_BYTES) }
    ensures refused { IfErr result (Refuses (writable (kept tree.now).now)) }
{
    match older {
        Some(image) => image.with_tree(alloc, tree),
        None => Image::made(alloc, tree),
    }
}

/// The image of a document that a file can hold: it denotes the document's tree, which holds the document. All that the
/// tree doesn't take is zero, so that nothing else stands in it. It is no longer than a store takes.
///
/// It is laid out anew, or has the sectors of an older image, if there is any, as `Image::with_tree` gives them: which
/// of both it is, is tested, and in no clause.
///
/// Refused for want of memory alone.
pub fn image_of(
    alloc: Global,
    saved: &FrameDocument,
    older: Option<&Image>,
) -> Result<Image, AllocError>
    requires { fitting saved.now ≡ Ok saved.now }
    ensures denotes { IfOk result (λ image. ∥ Denotes image (document_tree saved.now) ∥₁) }
    ensures zeroed { IfOk result (λ image. IsZeroed image) }
    ensures few { IfOk result (λ image. length image ≤ MOST_BYTES) }
    ensures holds { OnOk result (DocOf (document_tree saved.now) (document saved.now)) }
{
    let tree = tree_of(alloc, saved)?;
    match image_over(alloc, &tree, older) {
        Ok(image) => Ok(image),
        Err(WriteFault::NoMemory) => Err(AllocError),
        Err(WriteFault::TooBig) => unreachable!(),
    }
}
